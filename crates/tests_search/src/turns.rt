//! A loss that one worker finds closes a box of the other one.
ghost use Rattle.std.specs.Prelude.{◌≡◌, All, length, IfOk};
ghost use Rattle.plan_box.specs.Frames.{frame_of};
ghost use Rattle.plan_box.specs.Ranges.{PlainBox};
ghost use Rattle.cert_log.specs.Lawful.{numbered};

use crate::boxes::two_boxes;
use crate::searched::{searched, small};
use box_workers::Gate;
use cert_log::{Act, Cause, History, Note};
use glass_base::{Instance, Listener, Run, append};
use plan_box::{PlanBox, Var};
use std::alloc::Global;
use std::hint::spin_loop;
use std::process::Abort;
use std::sync::Wait;
use std::sync::atomic::{AtomicBool, Ordering};
use std::test::Fail;
use std::thread::Threads;

/// Whether something has come to worker 0, and whether it has come to the other one.
#[derive(Drop)]
struct Came {
    first: AtomicBool,
    second: AtomicBool,
}

impl Came {
    fn new() -> Came {
        Came {
            first: AtomicBool::new(false),
            second: AtomicBool::new(false),
        }
    }

    fn to(&self, worker: u32) -> &AtomicBool {
        if worker == 0 {
            &self.first
        } else {
            &self.second
        }
    }

    fn to_other(&self, worker: u32) -> &AtomicBool {
        if worker == 0 {
            &self.second
        } else {
            &self.first
        }
    }
}

/// Lets two workers handle box 1 before box 0: box 1 is held until box 0 has come to the other worker, and box 0 until the worker of box 1
/// has come again.
#[derive(Drop)]
struct Turns {
    lower: Came,
    upper: Came,
    again: AtomicBool,
    gave_up: AtomicBool,
}

impl Turns {
    fn new() -> Turns {
        Turns {
            lower: Came::new(),
            upper: Came::new(),
            again: AtomicBool::new(false),
            gave_up: AtomicBool::new(false),
        }
    }

    /// Notes that this worker comes again, if box 1 has come to it before.
    fn note(&self, worker: u32) {
        if self.upper.to(worker).load(Ordering::SeqCst) {
            self.again.store(true, Ordering::SeqCst);
        }
    }

    /// Holds until a flag is set, or notes that this never came. After that no call holds.
    fn hold(&self, flag: &AtomicBool) {
        if self.gave_up.load(Ordering::SeqCst) {
            return;
        }
        for _ in 0..400_000_000 {
            if flag.load(Ordering::SeqCst) {
                return;
            }
            spin_loop();
        }
        self.gave_up.store(true, Ordering::SeqCst);
    }
}

impl Listener for Turns {}

impl Gate for Turns {
    fn pass(&self, worker: u32, id: u64) {
        self.note(worker);
        match id {
            0 => {
                self.lower.to(worker).store(true, Ordering::SeqCst);
                self.hold(&self.again);
            }
            1 => {
                self.upper.to(worker).store(true, Ordering::SeqCst);
                self.hold(self.lower.to_other(worker));
            }
            _ => {}
        }
    }

    fn idle(&self, worker: u32) {
        self.note(worker);
    }
}

/// The history of a search by two workers from these boxes.
fn search_two<R: Threads + Wait + Sync>(
    rt: &R,
    alloc: Global,
    instance: &Instance,
    gate: &Turns,
) -> Result<History, Fail> {
    let start = two_boxes(alloc, instance)?;
    Ok(searched(rt, alloc, instance, start, 2, 10, gate)?)
}

/// Whether there are two notes: box 1 was closed first and then box 0, both because their bounds reach the loss of the best plan.
fn are_closed_in_turn(log: &[Note]) -> bool {
    let act = Act::Closed {
        threshold: 813_000,
        cause: Cause::Bound,
    };
    let first = Note {
        id: 1,
        ticket: 0,
        act,
    };
    let second = Note {
        id: 0,
        ticket: 1,
        act,
    };
    log.len() == 2 && log.contains(&first) && log.contains(&second)
}

/// Both boxes were closed in turn, and none is left.
fn closes_in_turn(rt: &impl Abort, history: &History) {
    assert!(rt; are_closed_in_turn(history.log.as_slice()));
    assert_eq!(rt; (history.left.len(), history.best), (0, 813_000));
}

/// Two workers close both boxes of this instance in turn, and this gate holds none of them for ever.
fn two_close_in_turn<R: Threads + Wait + Sync + Abort>(
    rt: &R,
    alloc: Global,
    instance: &Instance,
    gate: &Turns,
) -> Result<(), Fail> {
    let history = search_two(rt, alloc, instance, gate)?;
    assert!(rt; !gate.gave_up.load(Ordering::SeqCst));
    closes_in_turn(rt, &history);
    Ok(())
}

#[test]
fn a_loss_reaches_the_other_worker_at_once(rt: HostRuntime) -> Result<(), Fail> {
    let instance = small(rt.alloc())?;
    two_close_in_turn(&rt, rt.alloc(), &instance, &Turns::new())
}
