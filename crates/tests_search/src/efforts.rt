//! More work for a better first plan: by one thread and by four the same plan, never a worse one for more, and an end
//! where the time is over.

use cut_model::{Step, Trace};
use defect_map::{DefectMap, Ground};
use first_plan::{Effort, Team, first_plan, improve};
use glass_base::{Instance, Listener, News, Run};
use glass_gen::generate;
use std::alloc::Global;
use std::sync::atomic::{AtomicU64, Ordering};
use std::test::Fail;
use std::thread::Threads;

/// Notes the least loss that it is told, and how often it was told one.
#[derive(Drop)]
struct Notes {
    loss: AtomicU64,
    beams: AtomicU64,
    millions: AtomicU64,
    /// What its clock shows whenever it is asked, in milliseconds.
    time: u64,
}

impl Notes {
    /// Notes how much was spent.
    fn note_ticks(&self, millions: u64) {
        self.millions.store(millions, Ordering::SeqCst);
    }

    /// Notes a plan.
    fn note_plan(&self, loss: u64) {
        self.loss.fetch_min(loss, Ordering::SeqCst);
        self.beams.fetch_add(1, Ordering::SeqCst);
    }
}

impl Listener for Notes {
    fn hear(&self, news: News) {
        match news {
            News::Ticks { spent, .. } => self.note_ticks(spent),
            News::Loss(loss) => self.note_plan(loss),
            _ => {}
        }
    }

    fn elapsed(&self) -> Option<u64> {
        Some(self.time)
    }
}

/// What an effort came to.
#[derive(Drop)]
struct Outcome {
    steps: Vec<Step>,
    loss: u64,
    /// How many plans were known one after the other: the first one, and one behind each wide beam.
    plans: u64,
    /// How many millions of ticks were spent, as far as that was told.
    millions: u64,
}

fn steps_of(alloc: Global, trace: &Trace) -> Result<Vec<Step>, Fail> {
    let mut steps = Vec::new(alloc);
    steps.extend_from_slice(trace.steps.as_slice())?;
    Ok(steps)
}

/// A second, in milliseconds.
const SECOND: u64 = 1_000;

/// What so much work comes to by so many threads, where so many milliseconds are left whenever it is asked, 1,000 at the most.
fn work_out_in<R: Threads + Sync>(
    rt: &R,
    alloc: Global,
    instance: &Instance,
    effort: Effort,
    left: Option<u64>,
) -> Result<Outcome, Fail> {
    let map = DefectMap::new(alloc, instance)?;
    let Some(first) = first_plan(alloc, instance, &map)? else {
        return Ok(Outcome {
            steps: Vec::new(alloc),
            loss: u64::MAX,
            plans: 0,
            millions: 0,
        });
    };
    let notes = Notes {
        loss: AtomicU64::new(u64::MAX),
        beams: AtomicU64::new(0),
        millions: AtomicU64::new(0),
        time: SECOND.saturating_sub(left.unwrap_or(0)),
    };
    let team = Team {
        rt,
        effort,
        seconds: left.map(|_| 1),
        listener: &notes,
    };
    let best = improve(
        alloc,
        &team,
        Ground {
            instance,
            map: &map,
        },
        first,
        0,
    )?;
    Ok(Outcome {
        steps: steps_of(alloc, &best)?,
        loss: notes.loss.load(Ordering::SeqCst),
        plans: notes.beams.load(Ordering::SeqCst),
        millions: notes.millions.load(Ordering::SeqCst),
    })
}

/// The same where it is not timed.
fn work_out<R: Threads + Sync>(
    rt: &R,
    alloc: Global,
    instance: &Instance,
    millions: u32,
    threads: u32,
) -> Result<Outcome, Fail> {
    work_out_in(rt, alloc, instance, Effort { millions, threads }, None)
}

/// Fourteen items and ten defects.
fn some(alloc: Global) -> Result<Instance, Fail> {
    Ok(generate(alloc, 7, 14, 10)?)
}

#[test]
fn one_thread_and_four_find_the_same_plan(rt: HostRuntime) -> Result<(), Fail> {
    let instance = some(rt.alloc())?;
    let one = work_out(&rt, rt.alloc(), &instance, 500, 1)?;
    let four = work_out(&rt, rt.alloc(), &instance, 500, 4)?;
    assert!(&rt; one.plans > 2);
    assert_eq!(&rt; one.plans, four.plans);
    assert_eq!(&rt; one.loss, four.loss);
    assert!(&rt; one.steps.as_slice() == four.steps.as_slice());
    Ok(())
}

#[test]
fn more_work_never_finds_less(rt: HostRuntime) -> Result<(), Fail> {
    let instance = some(rt.alloc())?;
    let mut before = work_out(&rt, rt.alloc(), &instance, 0, 2)?;
    assert_eq!(&rt; before.plans, 1);
    for millions in [299, 300, 420, 700] {
        let after = work_out(&rt, rt.alloc(), &instance, millions, 2)?;
        assert!(&rt; after.loss <= before.loss);
        assert!(&rt; after.plans >= before.plans);
        before = after;
    }
    assert!(&rt; before.plans > 2);
    Ok(())
}

/// An effort with which one wide beam is run, of 270 million ticks at the most where it is not timed.
const ONE_BEAM: Effort = Effort {
    millions: 301,
    threads: 2,
};

#[test]
fn no_beam_is_begun_without_time(rt: HostRuntime) -> Result<(), Fail> {
    let instance = some(rt.alloc())?;
    let first = work_out(&rt, rt.alloc(), &instance, 0, 2)?;
    let after = work_out_in(&rt, rt.alloc(), &instance, ONE_BEAM, Some(0))?;
    assert_eq!(&rt; after.plans, 1);
    assert_eq!(&rt; after.loss, first.loss);
    Ok(())
}

#[test]
fn a_beam_with_little_time_is_narrow(rt: HostRuntime) -> Result<(), Fail> {
    let instance = generate(rt.alloc(), 7, 50, 20)?;
    let whole = work_out_in(&rt, rt.alloc(), &instance, ONE_BEAM, None)?;
    let short = work_out_in(&rt, rt.alloc(), &instance, ONE_BEAM, Some(20))?;
    assert_eq!(&rt; whole.plans, 2);
    assert_eq!(&rt; short.plans, 2);
    assert!(&rt; short.millions < 60);
    assert!(&rt; whole.millions > 120);
    Ok(())
}
