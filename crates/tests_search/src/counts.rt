//! What a search by one worker or several handles, and what it leaves.
ghost use Rattle.std.specs.Prelude.{◌≤◌};

use crate::searched::{each_once, searched, small};
use box_workers::{OpenGate, start_boxes};
use cert_log::{History, Left};
use glass_base::limits::MOST_BUDGET;
use glass_base::{Instance, Memory};
use std::alloc::Global;
use std::process::Abort;
use std::sync::Wait;
use std::test::Fail;
use std::thread::Threads;

/// The history of a search from the box of all plans.
fn search_all<R: Threads + Wait + Sync>(
    rt: &R,
    alloc: Global,
    instance: &Instance,
    workers: u32,
    budget: u64,
) -> Result<History, Memory>
    requires workers { (1 ≤ workers) × (workers ≤ 8) }
    requires budget { (1 ≤ budget) × (budget ≤ MOST_BUDGET) }
{
    let start = start_boxes(alloc, instance)?;
    searched(rt, alloc, instance, start, workers, budget, &OpenGate)
}

/// The loss of the best plan, how many boxes were handled, whether each of them once, and how many are left.
fn outcome(history: &History) -> (u64, usize, bool, usize) {
    let log = history.log.as_slice();
    (history.best, log.len(), each_once(log), history.left.len())
}

/// The outcome of a search whose budget suffices.
fn searched_through<R: Threads + Wait + Sync>(
    rt: &R,
    alloc: Global,
    instance: &Instance,
    workers: u32,
) -> Result<(u64, usize, bool, usize), Memory>
    requires { (1 ≤ workers) × (workers ≤ 8) }
{
    Ok(outcome(&search_all(rt, alloc, instance, workers, 1000)?))
}

/// One worker, two and eight handle each box of this instance once.
fn handle_each_once<R: Threads + Wait + Sync + Abort>(
    rt: &R,
    alloc: Global,
    instance: &Instance,
) -> Result<(), Memory> {
    let wanted = (813_000, 39, true, 0);
    assert_eq!(rt; searched_through(rt, alloc, instance, 1)?, wanted);
    assert_eq!(rt; searched_through(rt, alloc, instance, 2)?, wanted);
    assert_eq!(rt; searched_through(rt, alloc, instance, 8)?, wanted);
    Ok(())
}

#[test]
fn any_number_of_workers_handles_each_box_once(rt: HostRuntime) -> Result<(), Fail> {
    let instance = small(rt.alloc())?;
    Ok(handle_each_once(&rt, rt.alloc(), &instance)?)
}

/// Whether each of these bounds is at least the one that comes from the area of the item alone: it needs 47 mm of a plate.
fn are_bounds(left: &[Left]) -> bool {
    left.iter().all(|left| left.bound >= 3210 * 47 - 150_000)
}

/// Five boxes were handled, each once, and four at least are left, whose bounds come up to what the area needs.
fn keeps_to_five(rt: &impl Abort, history: &History) {
    let log = history.log.as_slice();
    assert_eq!(rt; (log.len(), each_once(log)), (5, true));
    let left = history.left.as_slice();
    assert!(rt; left.len() >= 4 && are_bounds(left));
}

/// Eight workers keep to a budget of five boxes of this instance.
fn eight_keep_to_five<R: Threads + Wait + Sync + Abort>(
    rt: &R,
    alloc: Global,
    instance: &Instance,
) -> Result<(), Memory> {
    let history = search_all(rt, alloc, instance, 8, 5)?;
    keeps_to_five(rt, &history);
    Ok(())
}

// A box that is closed is one of the last halves, four splits below the box of all plans. So four of the five boxes at least were split,
// and of their eight halves four at the most were handled.
#[test]
fn eight_workers_keep_to_a_small_budget(rt: HostRuntime) -> Result<(), Fail> {
    let instance = small(rt.alloc())?;
    Ok(eight_keep_to_five(&rt, rt.alloc(), &instance)?)
}
