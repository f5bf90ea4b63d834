//! The search.
ghost use Rattle.std.specs.Prelude.{◌≡◌, ◌≤◌, [], All, length, OnOk, IfOk};
ghost use Rattle.plan_box.specs.Frames.{frame_of};
ghost use Rattle.plan_box.specs.Ranges.{PlainBox};
ghost use Rattle.cert_log.specs.Good.{IsFloor};
ghost use Rattle.cert_log.specs.Lawful.{IsLawful, numbered};
ghost use Rattle.shared_best.specs.Seats.{IsSeatOf};
ghost use Rattle.shared_best.specs.Words.{newcomer, IsWhole};
ghost use Rattle.box_workers.specs.Runs.{IsFirst, first_loss, Shows, course_of};
ghost use Rattle.box_workers.specs.inner.Hands.{IsFresh};
ghost use Rattle.box_workers.specs.inner.Searched.{HasSearched};

use crate::desk::Desk;
use crate::finishing::{finish, settle};
use crate::gate::Gate;
use crate::hand::Hand;
use crate::poster::{NoPoster, Poster};
use crate::running::run;
use crate::spreading::spread;
use crate::workers::Workers;
use cert_log::History;
use cut_model::Trace;
use defect_map::{DefectMap, Ground};
use glass_base::limits::{MOST_BUDGET, MOST_CERT_BYTES};
use glass_base::{Instance, Memory, Run};
use plan_box::PlanBox;
use shared_best::{Seat, SharedBest};
use std::alloc::Global;
use std::sync::Wait;
use std::thread::Threads;

/// Several workers handle boxes, from the start boxes on, until each of them rests, and then the caller, who holds this seat and this
/// hand. The boxes that wait then come back.
fn handle_all<R: Threads + Wait + Sync, G: Gate + Sync, Q: Poster + Copy + Drop + Sync>(
    workers: &Workers<'_, R, Q>,
    desk: &Desk<'_, G>,
    start: Run<PlanBox>,
    seat: &mut Seat,
    hand: &mut Hand,
) -> Result<Run<PlanBox>, Memory>
    requires starts { desk.now.starts ≡ length start.items }
    requires frames { All (λ (x : PlainBox). x.frame
        ≡ frame_of desk.now.ground.instance.now) start.items }
    requires seat { IsSeatOf desk.now.shared.now seat.old }
    requires newcomer { seat.old.view ≡ newcomer desk.now.shared.now.first }
    requires hand { IsFresh desk.now.ground.instance.now hand.old × (hand.old.left.items ≡ []) }
    ensures { IfOk result (λ boxes. HasSearched desk.now.ground.instance.now desk.now.shared.now
        (length start.items) start.items workers.now.count seat.old seat.new hand.old hand.new
        boxes.items) }
{
    let mut own = *workers.poster;
    let mut waiting = spread(workers, desk, start, seat, hand)?;
    run(desk, seat, hand, &mut waiting, &mut own)?;
    Ok(waiting)
}

/// The search, in which each worker tells its copy of the workers' poster of its plans, and so does the caller.
pub(crate) fn search_posting<
    R: Threads + Wait + Sync,
    G: Gate + Sync,
    Q: Poster + Copy + Drop + Sync,
>(
    workers: &Workers<'_, R, Q>,
    desk: &Desk<'_, G>,
    start: Run<PlanBox>,
    first: Option<Trace>,
    seat: &mut Seat,
) -> Result<History, Memory>
    requires some { 1 ≤ length start.items }
    requires count { desk.now.starts ≡ length start.items }
    requires ids { numbered 0 start.items }
    requires frames { All (λ (x : PlainBox). x.frame
        ≡ frame_of desk.now.ground.instance.now) start.items }
    requires first { IsFirst desk.now.ground.instance.now first }
    requires loss { desk.now.shared.now.first ≡ first_loss desk.now.ground.instance.now first }
    requires budget { 1 ≤ desk.now.shared.now.budget }
    requires seat { IsSeatOf desk.now.shared.now seat.old }
    requires newcomer { seat.old.view ≡ newcomer desk.now.shared.now.first }
    requires floor { IsFloor desk.now.ground.instance.now desk.now.shared.now.floor }
    ensures lawful { IfOk result (λ h. IsLawful desk.now.ground.instance.now
        (course_of start.items desk.now.shared.now) h) }
    ensures seat { OnOk result (IsSeatOf desk.now.shared.now seat.new × IsWhole seat.new.view) }
    ensures shows { IfOk result (λ h. Shows desk.now.ground.instance.now desk.now.shared.now
        start.items workers.now.count seat.new.view h) }
{
    // Read for its rules.
    let _params = desk.ground.instance.params();
    let mut hand = Hand::new(desk.alloc, desk.ground.instance, 0)?;
    let waiting = handle_all(workers, desk, start, seat, &mut hand)?;
    settle(desk.shared, seat);
    finish(desk, hand, waiting, first)
}

/// Handles boxes, from the start boxes on, until none is left or the budget is spent; the boxes that then wait are left open.
///
/// The start boxes are of this instance and numbered from 0 on, and `first` is a complete trace, if a plan is known; the words have its
/// loss, or `NONE`, as their first value, and the seat is their first one. The budget is how many boxes may be handled.
///
/// Several workers, each in a thread of its own where one can be made, handle boxes of their own and of one another until each of them
/// rests. The caller handles what they leave. One worker alone is the caller, with the number 0. Where the words have a floor, boxes are closed for it.
///
/// Only want of memory is refused. It may wait for another thread, which is at the same deque.
pub fn search<'d, R: Threads + Wait + Sync, G: Gate + Sync>(
    rt: &R,
    alloc: Global,
    instance: &'d Instance,
    map: &'d DefectMap,
    start: Run<PlanBox>,
    first: Option<Trace>,
    workers: u32,
    shared: &'d SharedBest,
    seat: &mut Seat,
    gate: &'d G,
) -> Result<History, Memory>
    requires map { map.now ≡ instance.now.defects }
    requires starts { (1 ≤ length start.items) × (length start.items ≤ MOST_CERT_BYTES) }
    requires ids { numbered 0 start.items }
    requires frames { All (λ (x : PlainBox). x.frame ≡ frame_of instance.now) start.items }
    requires first { IsFirst instance.now first }
    requires workers { (1 ≤ workers) × (workers ≤ 8) }
    requires loss { shared.now.first ≡ first_loss instance.now first }
    requires budget { (1 ≤ shared.now.budget) × (shared.now.budget ≤ MOST_BUDGET) }
    requires seat { IsSeatOf shared.now seat.old }
    requires newcomer { seat.old.view ≡ newcomer shared.now.first }
    requires floor { IsFloor instance.now shared.now.floor }
    ensures lawful { IfOk result (λ h. IsLawful instance.now (course_of start.items shared.now) h) }
    ensures seat { OnOk result (IsSeatOf shared.now seat.new × IsWhole seat.new.view) }
    ensures shows { IfOk result (λ h. Shows instance.now shared.now start.items workers
        seat.new.view h) }
{
    let desk = Desk {
        alloc,
        ground: Ground { instance, map },
        shared,
        starts: start.len() as u64,
        gate,
    };
    let workers = Workers {
        rt,
        count: workers,
        poster: &NoPoster,
    };
    search_posting(&workers, &desk, start, first, seat)
}
