//! The search of the product, with one worker or several.
ghost use Rattle.std.specs.Prelude.{◌≡◌, ℕ, ◌≤◌, IfOk, IfNone};
ghost use Rattle.plan_draft.specs.Drafts.{HasNoDraft};
ghost use Rattle.box_workers.specs.Runs.{IsFirst};

use crate::count::Count;
use box_workers::{PatientGate, first_loss, search, start_boxes};
use cert_log::History;
use cut_model::Trace;
use defect_map::DefectMap;
use first_plan::first_plan;
use glass_base::limits::MOST_BUDGET;
use glass_base::{Instance, Memory};
use plan_draft::draft;
use shared_best::{NONE, SharedBest};
use std::alloc::Global;
use std::sync::Wait;
use std::thread::Threads;

/// The plan that a search begins with.
#[derive(Clone, Copy)]
pub enum Beginning {
    /// The product's first plan, which is looked for by beams.
    FirstPlan,
    /// The draft, which takes next to no time.
    Draft,
}

/// The plan that a search begins with. There is none only where there is no draft.
fn beginning_of(
    alloc: Global,
    instance: &Instance,
    map: &DefectMap,
    beginning: Beginning,
) -> Result<Option<Trace>, Memory>
    requires { map.now ≡ instance.now.defects }
    ensures first { IfOk result (IsFirst instance.now) }
    ensures none { IfOk result (λ first. IfNone first ((number : ℕ)
        × HasNoDraft instance.now number)) }
{
    match beginning {
        Beginning::FirstPlan => first_plan(alloc, instance, map),
        Beginning::Draft => Ok(draft(alloc, instance, map)?.ok()),
    }
}

/// The history of a search from this beginning on.
fn history_of<R: Threads + Wait + Sync>(
    rt: &R,
    alloc: Global,
    instance: &Instance,
    map: &DefectMap,
    beginning: Beginning,
    workers: u32,
    budget: u32,
) -> Result<History, Memory>
    requires map { map.now ≡ instance.now.defects }
    requires workers { (1 ≤ workers) × (workers ≤ 8) }
    requires budget { (1 ≤ budget) × (budget ≤ MOST_BUDGET) }
{
    let first = beginning_of(alloc, instance, map, beginning)?;
    let loss = first_loss(instance, &first);
    let start = start_boxes(alloc, instance)?;
    let (shared, mut seat) = SharedBest::new(alloc, loss, u64::from(budget))?;
    let gate = PatientGate::new();
    search(
        rt, alloc, instance, map, start, first, workers, &shared, &mut seat, &gate,
    )
}

/// A search from this beginning on, of so many boxes at the most, by so many workers.
pub fn search_by<R: Threads + Wait + Sync>(
    rt: &R,
    alloc: Global,
    instance: &Instance,
    map: &DefectMap,
    beginning: Beginning,
    workers: u32,
    budget: u32,
) -> anyhow::Result<Count>
    requires map { map.now ≡ instance.now.defects }
    requires workers { (1 ≤ workers) × (workers ≤ 8) }
    requires budget { (1 ≤ budget) × (budget ≤ MOST_BUDGET) }
{
    let history = history_of(rt, alloc, instance, map, beginning, workers, budget)?;
    Ok(Count {
        boxes: history.log.len(),
        open: history.left.len(),
        loss: (history.best != NONE).then_some(history.best),
    })
}
