//! The search of an instance of one item.
ghost use Rattle.std.specs.Prelude.{◌≡◌, ◌≤◌, All, length};
ghost use Rattle.plan_box.specs.Frames.{frame_of};
ghost use Rattle.plan_box.specs.Ranges.{PlainBox};
ghost use Rattle.cert_log.specs.Lawful.{numbered};

use box_workers::{Gate, search};
use cert_log::{History, Note};
use defect_map::DefectMap;
use glass_base::limits::{MOST_BUDGET, MOST_CERT_BYTES};
use glass_base::{Instance, Item, Memory, Params, Run, append};
use plan_box::PlanBox;
use shared_best::{NONE, SharedBest};
use std::alloc::Global;
use std::sync::Wait;
use std::test::Fail;
use std::thread::Threads;

/// The instance of one item of 500 by 300, on plates without defects. Its best plan loses 813,000 mm². A search from the box of all its plans
/// closes or splits 39 boxes.
pub(crate) fn small(alloc: Global) -> Result<Instance, Fail> {
    let mut items = Run::new(alloc);
    let item = Item {
        id: 0,
        length: 500,
        width: 300,
        stack: 0,
        sequence: 1,
    };
    append(&mut items, item)?;
    Ok(Instance::new(alloc, Params::usual(), items, Run::new(alloc))?)
}

/// The history of a search from these boxes, without a first plan.
pub(crate) fn searched<R: Threads + Wait + Sync, G: Gate + Sync>(
    rt: &R,
    alloc: Global,
    instance: &Instance,
    start: Run<PlanBox>,
    workers: u32,
    budget: u64,
    gate: &G,
) -> Result<History, Memory>
    requires starts { (1 ≤ length start.items) × (length start.items ≤ MOST_CERT_BYTES) }
    requires ids { numbered 0 start.items }
    requires frames { All (λ (x : PlainBox). x.frame ≡ frame_of instance.now) start.items }
    requires workers { (1 ≤ workers) × (workers ≤ 8) }
    requires budget { (1 ≤ budget) × (budget ≤ MOST_BUDGET) }
{
    let map = DefectMap::new(alloc, instance)?;
    let (shared, mut seat) = SharedBest::new(alloc, NONE, budget)?;
    search(
        rt, alloc, instance, &map, start, None, workers, &shared, &mut seat, gate,
    )
}

/// How many notes name this box.
pub(crate) fn notes_of(log: &[Note], id: u64) -> usize {
    log.iter().filter(|note| note.id == id).count()
}

/// Whether no two notes name one box.
pub(crate) fn each_once(log: &[Note]) -> bool {
    log.iter().all(|note| notes_of(log, note.id) == 1)
}
