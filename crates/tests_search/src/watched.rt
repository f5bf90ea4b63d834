//! The improvements of a search by one worker.
ghost use Rattle.std.specs.Prelude.{◌≡◌, ◌≤◌, All, length};
ghost use Rattle.plan_box.specs.Frames.{frame_of};
ghost use Rattle.plan_box.specs.Ranges.{PlainBox};
ghost use Rattle.cert_log.specs.Lawful.{numbered};

use crate::boxes::{two_boxes, two_boxes_turned_first};
use crate::searched::small;
use best_board::Entry;
use box_workers::{OpenGate, search_watched};
use defect_map::DefectMap;
use glass_base::limits::MOST_CERT_BYTES;
use glass_base::{Instance, Memory, Run};
use plan_box::PlanBox;
use shared_best::{NONE, SharedBest};
use std::alloc::Global;
use std::process::Abort;
use std::sync::Wait;
use std::test::Fail;
use std::thread::Threads;

/// The loss of the improvement in this place.
fn loss_at(improvements: &Run<Entry>, place: usize) -> Option<u64> {
    improvements.get(place).map(|entry| entry.loss)
}

/// The losses of the first three improvements.
fn losses(improvements: &Run<Entry>) -> [Option<u64>; 3] {
    [
        loss_at(improvements, 0),
        loss_at(improvements, 1),
        loss_at(improvements, 2),
    ]
}

/// The losses of the first three improvements of a search from these boxes, without a first plan.
fn watched<R: Threads + Wait + Sync>(
    rt: &R,
    alloc: Global,
    instance: &Instance,
    start: Run<PlanBox>,
) -> Result<[Option<u64>; 3], Memory>
    requires starts { (1 ≤ length start.items) × (length start.items ≤ MOST_CERT_BYTES) }
    requires ids { numbered 0 start.items }
    requires frames { All (λ (x : PlainBox). x.frame ≡ frame_of instance.now) start.items }
{
    let map = DefectMap::new(alloc, instance)?;
    let (shared, mut seat) = SharedBest::new(alloc, NONE, 10)?;
    let (_, improvements) = search_watched(
        rt, alloc, instance, &map, start, None, 1, &shared, &mut seat, &OpenGate,
    )?;
    Ok(losses(&improvements))
}

/// What is found from the two boxes of this instance, in either order, comes to the board.
fn comes_to_the_board<R: Threads + Wait + Sync + Abort>(
    rt: &R,
    alloc: Global,
    instance: &Instance,
) -> Result<(), Fail> {
    let start = two_boxes(alloc, instance)?;
    let both = watched(rt, alloc, instance, start)?;
    assert_eq!(rt; both, [Some(1_455_000), Some(813_000), None]);
    let start = two_boxes_turned_first(alloc, instance)?;
    let best = watched(rt, alloc, instance, start)?;
    assert_eq!(rt; best, [Some(813_000), None, None]);
    Ok(())
}

// The boxes are handled in their order. Where the item is turned in the first one, the other one holds nothing better.
#[test]
fn what_a_worker_finds_comes_to_the_board(rt: HostRuntime) -> Result<(), Fail> {
    let instance = small(rt.alloc())?;
    comes_to_the_board(&rt, rt.alloc(), &instance)
}
