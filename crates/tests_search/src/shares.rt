//! A search by four workers and one by eight: each of them is there, and handles boxes.

ghost use Rattle.std.specs.Prelude.{◌≤◌};
ghost use Rattle.glass_base.specs.Items.{IsItemInRange};

use crate::searched::{each_once, searched};
use box_workers::{Gate, PatientGate, start_boxes};
use glass_base::limits::{MOST_NUMBER, MOST_SIDE};
use glass_base::{Instance, Item, Listener, Memory, Params, Run};
use std::alloc::Global;
use std::sync::Wait;
use std::sync::atomic::{AtomicBool, AtomicU32, Ordering};
use std::test::Fail;
use std::thread::{Threads, yield_now};

/// A worker waits so many turns for the others to come, and then gives up. That takes minutes: threads come late where the machine has
/// much else to do.
const MOST_TURNS: u32 = 1_000_000_000;

/// How many boxes a search handles.
const BUDGET: u32 = 2000;

/// Holds each worker at its first turn, with a box or without one, until all have come to theirs: so each has a thread of its own. All is
/// told to the gate of the program as well.
///
/// While a worker has had no box, the others give it time to steal one, however slow its thread is: a box waits, the longer the more its
/// worker had before, so that one with few soon has some to be stolen; and a turn without a box lasts until another box passes, so that
/// nobody comes to rest.
#[derive(Drop)]
struct Muster {
    /// A bit for each worker.
    all: u32,
    /// The bits of the workers that have come to a turn.
    came: AtomicU32,
    /// The bits of those that have had a box.
    had_box: AtomicU32,
    /// How many boxes each worker has had.
    boxes: [AtomicU32; 8],
    /// How many boxes all have had.
    passed: AtomicU32,
    gave_up: AtomicBool,
    patient: PatientGate,
}

impl Muster {
    fn new(workers: u32) -> Muster {
        Muster {
            all: 1u32.wrapping_shl(workers).wrapping_sub(1),
            came: AtomicU32::new(0),
            had_box: AtomicU32::new(0),
            boxes: [
                AtomicU32::new(0),
                AtomicU32::new(0),
                AtomicU32::new(0),
                AtomicU32::new(0),
                AtomicU32::new(0),
                AtomicU32::new(0),
                AtomicU32::new(0),
                AtomicU32::new(0),
            ],
            passed: AtomicU32::new(0),
            gave_up: AtomicBool::new(false),
            patient: PatientGate::new(),
        }
    }

    /// Whether each worker has had a box.
    fn all_had_one(&self) -> bool {
        self.had_box.load(Ordering::SeqCst) == self.all
    }

    /// Whether a worker gave up.
    fn gave_up(&self) -> bool {
        self.gave_up.load(Ordering::SeqCst)
    }

    /// Whether all workers are in this word before so many turns are over.
    fn comes_true(&self, word: &AtomicU32, turns: u32) -> bool {
        for _ in 0..turns {
            if word.load(Ordering::SeqCst) == self.all {
                return true;
            }
            yield_now();
        }
        false
    }

    /// Notes a box of this worker, and tells how many it had before.
    fn note_box(&self, worker: u32) -> u32 {
        note(&self.had_box, worker);
        self.passed.fetch_add(1, Ordering::SeqCst);
        match self.boxes.get(worker as usize) {
            None => 0,
            Some(boxes) => boxes.fetch_add(1, Ordering::SeqCst),
        }
    }

    /// Holds a worker without a box until another box passes, each worker has had one, or the budget is spent.
    fn await_box(&self) {
        let before = self.passed.load(Ordering::SeqCst);
        for _ in 0..MOST_TURNS {
            let passed = self.passed.load(Ordering::SeqCst);
            if passed != before || BUDGET <= passed || self.all_had_one() {
                return;
            }
            yield_now();
        }
    }

    /// Notes that a worker has come, and holds it until all have.
    fn hold(&self, worker: u32) {
        note(&self.came, worker);
        if !self.gave_up() && !self.comes_true(&self.came, MOST_TURNS) {
            self.gave_up.store(true, Ordering::SeqCst);
        }
    }
}

/// Puts a worker into a word.
fn note(word: &AtomicU32, worker: u32) {
    word.fetch_or(1u32.wrapping_shl(worker), Ordering::SeqCst);
}

impl Listener for Muster {}

impl Gate for Muster {
    fn pass(&self, worker: u32, id: u64) {
        self.hold(worker);
        let boxes = self.note_box(worker);
        let _all = self.comes_true(&self.had_box, boxes.saturating_mul(boxes) / 100);
        self.patient.pass(worker, id);
    }

    fn idle(&self, worker: u32) {
        self.hold(worker);
        self.await_box();
        self.patient.idle(worker);
    }
}

/// An item of these sides that is alone in its stack.
fn item(number: u32, length: u32, width: u32) -> Item
    requires { (number ≤ MOST_NUMBER) × (length ≤ MOST_SIDE) × (width ≤ MOST_SIDE) }
    ensures { IsItemInRange result }
{
    Item {
        id: number,
        length,
        width,
        stack: number,
        sequence: 1,
    }
}

/// Three items in three stacks: a search without a first plan splits thousands of boxes.
fn three(alloc: Global) -> Result<Instance, Fail> {
    let items = Run::from(vec![in alloc; item(0, 500, 300), item(1, 400, 200), item(2, 700, 600)]?);
    Ok(Instance::new(alloc, Params::usual(), items, Run::new(alloc))?)
}

/// How many boxes of this instance so many workers handle, and whether each box once.
fn handled<R: Threads + Wait + Sync>(
    rt: &R,
    alloc: Global,
    instance: &Instance,
    workers: u32,
    gate: &Muster,
) -> Result<(usize, bool), Memory>
    requires { (1 ≤ workers) × (workers ≤ 8) }
{
    let start = start_boxes(alloc, instance)?;
    let history = searched(rt, alloc, instance, start, workers, u64::from(BUDGET), gate)?;
    let log = history.log.as_slice();
    Ok((log.len(), each_once(log)))
}

/// How many boxes so many workers handle, whether each box once, whether each worker had one, and whether one gave up.
fn shared<R: Threads + Wait + Sync>(
    rt: &R,
    alloc: Global,
    workers: u32,
) -> Result<(usize, bool, bool, bool), Fail>
    requires { (1 ≤ workers) × (workers ≤ 8) }
{
    let instance = three(alloc)?;
    let gate = Muster::new(workers);
    let (boxes, once) = handled(rt, alloc, &instance, workers, &gate)?;
    Ok((boxes, once, gate.all_had_one(), gate.gave_up()))
}

#[test]
fn four_workers_share_the_work(rt: HostRuntime) -> Result<(), Fail> {
    assert_eq!(rt;
        shared(&rt, rt.alloc(), 4)?,
        (BUDGET as usize, true, true, false)
    );
    Ok(())
}

#[test]
fn eight_workers_share_the_work(rt: HostRuntime) -> Result<(), Fail> {
    assert_eq!(rt;
        shared(&rt, rt.alloc(), 8)?,
        (BUDGET as usize, true, true, false)
    );
    Ok(())
}
