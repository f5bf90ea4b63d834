//! The search, with the improvements that its workers found.
ghost use Rattle.std.specs.Prelude.{◌≡◌, ◌≤◌, All, IfOk, IfSome, OnOk, length};
ghost use Rattle.plan_trace.specs.Claims.{IsComplete};
ghost use Rattle.plan_box.specs.Frames.{frame_of};
ghost use Rattle.plan_box.specs.Ranges.{PlainBox};
ghost use Rattle.cert_log.specs.Good.{IsFloor};
ghost use Rattle.cert_log.specs.Lawful.{IsBest, IsLawful, numbered};
ghost use Rattle.shared_best.specs.Seats.{IsSeatOf};
ghost use Rattle.shared_best.specs.Words.{newcomer, IsWhole};
ghost use Rattle.best_board.specs.Improvements.{found_in};
ghost use Rattle.best_board.specs.Settles.{IsNoWorse};
ghost use Rattle.box_workers.specs.Runs.{IsFirst, first_loss as first_loss_of, Shows, course_of};
ghost use Rattle.box_workers.specs.Watched.{AreOfSearch, steps_of};

use crate::desk::Desk;
use crate::gate::Gate;
use crate::poster::BoardPoster;
use crate::searching::search_posting;
use crate::starting::first_loss;
use crate::workers::Workers;
use best_board::{Board, Entries, Entry, copy_trace, settle};
use cert_log::History;
use cut_model::Trace;
use defect_map::{DefectMap, Ground};
use glass_base::limits::{MOST_BUDGET, MOST_CERT_BYTES};
use glass_base::{Instance, Memory, Run};
use plan_box::PlanBox;
use shared_best::{Seat, SharedBest};
use std::alloc::Global;
use std::sync::Wait;
use std::thread::Threads;

/// The same plan in memory of its own, if there is one.
fn copy_plan(alloc: Global, plan: &Option<Trace>) -> Result<Option<Trace>, Memory>
    ensures { IfOk result (λ copy. steps_of copy ≡ steps_of plan.now) }
{
    match plan {
        None => Ok(None),
        Some(trace) => Ok(Some(copy_trace(alloc, trace)?)),
    }
}

/// The improvements of a search that this history tells of, from its first plan on, by what a board kept of it.
fn improvements(
    alloc: Global,
    ground: Ground<'_>,
    first: &Option<Trace>,
    entries: &Entries,
    history: &History,
) -> Result<Run<Entry>, Memory>
    requires first { IfSome (steps_of first.now) (IsComplete ground.instance.now) }
    requires best { IsBest ground.instance.now history.now.best history.now.plan }
    requires no_worse { IsNoWorse ground.instance.now (steps_of first.now)
        (steps_of history.now.plan) }
    ensures { IfOk result (λ list. AreOfSearch ground.entry.instance.now
        (steps_of first.now) history.now (found_in list.items)) }
{
    // Read for its range.
    let _best = history.best;
    settle(
        alloc,
        ground.instance,
        ground.map,
        first.as_ref(),
        entries,
        history.plan.as_ref(),
    )
}

/// A history, and the improvements that it tells of, from its first plan on, by what a board kept of them.
fn with_improvements(
    alloc: Global,
    ground: Ground<'_>,
    first: &Option<Trace>,
    entries: &Entries,
    history: History,
) -> Result<(History, Run<Entry>), Memory>
    requires first { IfSome (steps_of first.now) (IsComplete ground.instance.now) }
    requires best { IsBest ground.instance.now history.best history.plan }
    requires no_worse { IsNoWorse ground.instance.now (steps_of first.now) (steps_of history.plan) }
    ensures history { IfOk result (λ r. r.0 ≡ history) }
    ensures improvements { IfOk result (λ r. AreOfSearch ground.entry.instance.now
        (steps_of first.now) r.0 (found_in r.1.items)) }
{
    let list = improvements(alloc, ground, first, entries, &history)?;
    Ok((history, list))
}

/// The board is closed, and its history is told with its improvements, from its first plan on.
fn tell(
    alloc: Global,
    ground: Ground<'_>,
    first: &Option<Trace>,
    board: Board,
    history: History,
) -> Result<(History, Run<Entry>), Memory>
    requires first { IfSome (steps_of first.now) (IsComplete ground.instance.now) }
    requires best { IsBest ground.instance.now history.best history.plan }
    requires no_worse { IsNoWorse ground.instance.now (steps_of first.now) (steps_of history.plan) }
    ensures history { IfOk result (λ r. r.0 ≡ history) }
    ensures improvements { IfOk result (λ r. AreOfSearch ground.entry.instance.now
        (steps_of first.now) r.0 (found_in r.1.items)) }
{
    let entries = board.close();
    with_improvements(alloc, ground, first, &entries, history)
}

/// Does what `search` does, and has its workers post each plan that they find to one board. Gives the history, and the improvements: the
/// first plan, if there is one, those that were posted and lose less than it and more than the best one, each less than the one before,
/// and the best one.
///
/// That a plan was posted no clause says, since a lock tells nothing of what was done under it. What holds whatever was posted: each
/// improvement has a step for each item, meets the rules and has its loss, they fall strictly, and the last one is as good as the best
/// plan; there are none where no plan was found.
///
/// Only want of memory is refused. It may wait for another thread, which is at the same deque or at the board.
pub fn search_watched<'d, R: Threads + Wait + Sync, G: Gate + Sync>(
    rt: &R,
    alloc: Global,
    instance: &'d Instance,
    map: &'d DefectMap,
    start: Run<PlanBox>,
    first: Option<Trace>,
    workers: u32,
    shared: &'d SharedBest,
    seat: &mut Seat,
    gate: &'d G,
) -> Result<(History, Run<Entry>), Memory>
    requires map { map.now ≡ instance.now.defects }
    requires starts { (1 ≤ length start.items) × (length start.items ≤ MOST_CERT_BYTES) }
    requires ids { numbered 0 start.items }
    requires frames { All (λ (x : PlainBox). x.frame ≡ frame_of instance.now) start.items }
    requires first { IsFirst instance.now first }
    requires workers { (1 ≤ workers) × (workers ≤ 8) }
    requires loss { shared.now.first ≡ first_loss_of instance.now first }
    requires budget { (1 ≤ shared.now.budget) × (shared.now.budget ≤ MOST_BUDGET) }
    requires seat { IsSeatOf shared.now seat.old }
    requires newcomer { seat.old.view ≡ newcomer shared.now.first }
    requires floor { IsFloor instance.now shared.now.floor }
    ensures lawful { IfOk result (λ r. IsLawful instance.now
        (course_of start.items shared.now) r.0) }
    ensures seat { OnOk result (IsSeatOf shared.now seat.new × IsWhole seat.new.view) }
    ensures shows { IfOk result (λ r. Shows instance.now shared.now start.items workers
        seat.new.view r.0) }
    ensures improvements { IfOk result (λ r. AreOfSearch instance.now (steps_of first) r.0
        (found_in r.1.items)) }
{
    // Read for its range.
    let _loss = first_loss(instance, &first);
    let ground = Ground { instance, map };
    let desk = Desk {
        alloc,
        ground,
        shared,
        starts: start.len() as u64,
        gate,
    };
    let begun = copy_plan(alloc, &first)?;
    let board = Board::new(Entries::new(alloc, instance)?);
    let poster = BoardPoster { board: &board, rt };
    let workers = Workers {
        rt,
        count: workers,
        poster: &poster,
    };
    let history = search_posting(&workers, &desk, start, first, seat)?;
    tell(alloc, ground, &begun, board, history)
}
