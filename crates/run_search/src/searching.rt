//! Searches of boxes, which begin with what is known before them.

ghost use Rattle.std.specs.Prelude.{◌≡◌, ◌≤◌, All, IfOk, length};
ghost use Rattle.box_workers.specs.Runs.{IsFirst, first_loss as first_loss_of};
ghost use Rattle.cert_log.specs.Good.{IsFloor};
ghost use Rattle.cert_log.specs.Lawful.{numbered};
ghost use Rattle.plan_box.specs.Frames.{frame_of};
ghost use Rattle.plan_box.specs.Ranges.{PlainBox};
ghost use Rattle.run_search.specs.inner.Searches.{AreWatched, IsHistoryOf, all_plans};

use crate::workforce::Workforce;
use best_board::Entry;
use box_workers::{Gate, first_loss, search, search_watched, start_boxes};
use cert_log::History;
use defect_map::Ground;
use first_plan::Start;
use glass_base::limits::MOST_CERT_BYTES;
use glass_base::{Memory, News, Run};
use plan_box::PlanBox;
use shared_best::SharedBest;
use std::alloc::Global;
use std::sync::Wait;
use std::thread::Threads;

/// What a search did, and its improvements, where they are watched.
#[derive(Drop)]
pub(crate) struct Searched {
    pub(crate) history: History,
    pub(crate) improvements: Option<Run<Entry>>,
}

/// A search of these boxes.
fn search_boxes<R: Threads + Wait + Sync, G: Gate + Sync>(
    alloc: Global,
    workforce: &Workforce<'_, R, G>,
    ground: Ground<'_>,
    boxes: Run<PlanBox>,
    start: Start,
    watch: bool,
) -> Result<Searched, Memory>
    requires boxes { (1 ≤ length boxes.items) × (length boxes.items ≤ MOST_CERT_BYTES) }
    requires ids { numbered 0 boxes.items }
    requires frames { All (λ (x : PlainBox). x.frame ≡ frame_of ground.instance.now) boxes.items }
    requires first { IsFirst ground.instance.now start.first }
    requires floor { IsFloor ground.instance.now start.floor }
    ensures history { IfOk result (λ s. IsHistoryOf ground.entry.instance.now boxes.items
        start.first workforce.now.options.budget start.floor s.history) }
    ensures watched { let b = ground.entry.instance.now in
        IfOk result (λ s. AreWatched b (first_loss_of b start.first) s.history.best watch
        s.improvements) }
{
    let Start { first, floor } = start;
    let loss = first_loss(ground.instance, &first);
    workforce.gate.hear(News::Loss(loss));
    workforce.gate.hear(News::Boxes {
        budget: workforce.options.budget,
    });
    let (shared, mut seat) = SharedBest::with_floor(
        alloc,
        loss,
        u64::from(workforce.options.budget),
        floor,
    )?;
    if watch {
        let (history, list) = search_watched(
            workforce.rt,
            alloc,
            ground.instance,
            ground.map,
            boxes,
            first,
            workforce.options.workers,
            &shared,
            &mut seat,
            workforce.gate,
        )?;
        return Ok(Searched {
            history,
            improvements: Some(list),
        });
    }
    let history = search(
        workforce.rt,
        alloc,
        ground.instance,
        ground.map,
        boxes,
        first,
        workforce.options.workers,
        &shared,
        &mut seat,
        workforce.gate,
    )?;
    Ok(Searched {
        history,
        improvements: None,
    })
}

/// The history of a search of these boxes.
pub(crate) fn history_of_boxes<R: Threads + Wait + Sync, G: Gate + Sync>(
    alloc: Global,
    workforce: &Workforce<'_, R, G>,
    ground: Ground<'_>,
    boxes: Run<PlanBox>,
    start: Start,
) -> Result<History, Memory>
    requires boxes { (1 ≤ length boxes.items) × (length boxes.items ≤ MOST_CERT_BYTES) }
    requires ids { numbered 0 boxes.items }
    requires frames { All (λ (x : PlainBox). x.frame ≡ frame_of ground.instance.now) boxes.items }
    requires first { IsFirst ground.instance.now start.first }
    requires floor { IsFloor ground.instance.now start.floor }
    ensures { IfOk result (IsHistoryOf ground.entry.instance.now boxes.items
        start.first workforce.now.options.budget start.floor) }
{
    let Searched {
        history,
        improvements: _,
    } = search_boxes(alloc, workforce, ground, boxes, start, false)?;
    Ok(history)
}

/// A search of all plans.
pub(crate) fn search_all_plans<R: Threads + Wait + Sync, G: Gate + Sync>(
    alloc: Global,
    workforce: &Workforce<'_, R, G>,
    ground: Ground<'_>,
    start: Start,
) -> Result<Searched, Memory>
    requires first { IsFirst ground.instance.now start.first }
    requires floor { IsFloor ground.instance.now start.floor }
    ensures history { let b = ground.entry.instance.now in
        IfOk result (λ s. IsHistoryOf b (all_plans b) start.first workforce.now.options.budget
        start.floor s.history) }
    ensures watched { let b = ground.entry.instance.now in
        IfOk result (λ s. AreWatched b (first_loss_of b start.first) s.history.best
        workforce.now.options.watch s.improvements) }
{
    let boxes = start_boxes(alloc, ground.instance)?;
    search_boxes(
        alloc,
        workforce,
        ground,
        boxes,
        start,
        workforce.options.watch,
    )
}

/// The history of a search of all plans.
pub(crate) fn history_of_all_plans<R: Threads + Wait + Sync, G: Gate + Sync>(
    alloc: Global,
    workforce: &Workforce<'_, R, G>,
    ground: Ground<'_>,
    start: Start,
) -> Result<History, Memory>
    requires first { IsFirst ground.instance.now start.first }
    requires floor { IsFloor ground.instance.now start.floor }
    ensures { let b = ground.entry.instance.now in
        IfOk result (IsHistoryOf b (all_plans b) start.first workforce.now.options.budget
        start.floor) }
{
    let boxes = start_boxes(alloc, ground.instance)?;
    history_of_boxes(alloc, workforce, ground, boxes, start)
}
