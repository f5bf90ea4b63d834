//! The improvements of a search, from its first plan to its last one.
ghost use Rattle.std.specs.Prelude.{◌≡◌, ◌↔◌, ◌<◌, ◌++◌, ◌∷◌, [], IfOk, IfSome, IsTrue, OnOk, List, option_map};
ghost use Rattle.plan_trace.specs.Claims.{IsComplete};
ghost use Rattle.cert_log.specs.Lawful.{trace_loss as trace_loss_of};
ghost use Rattle.best_board.specs.Improvements.{AreImprovements, Found, IsImprovement, found, found_in, last_loss};
ghost use Rattle.best_board.specs.Settles.{AreThose, IsBetween, IsNoWorse, Settles, begins, ends};

use crate::copying::copy_trace;
use crate::entries::{Entries, is_complete};
use crate::entry::Entry;
use cert_log::trace_loss;
use cut_model::Trace;
use defect_map::{DefectMap, Ground};
use glass_base::{Instance, Memory, Run, append};
use std::alloc::Global;

/// Two losses in mm², between which others may lie.
#[derive(Clone, Copy)]
struct LossRange {
    /// The upper one, if there is one.
    most: Option<u64>,
    /// The lower one.
    least: u64,
}

/// Whether a loss lies between two.
fn is_within(loss: u64, between: LossRange) -> bool
    ensures { IsTrue result
        ↔ ((between.least < loss) × IfSome between.most (λ limit. loss < limit)) }
{
    match between.most {
        None => between.least < loss,
        Some(most) => between.least < loss && loss < most,
    }
}

/// Whether an entry is a plan of this instance, and has its loss.
fn is_improvement(ground: Ground<'_>, entry: &Entry) -> bool
    ensures { IsTrue result ↔ IsImprovement ground.entry.instance.now (found entry.now) }
{
    is_complete(ground, &entry.trace) && entry.loss == trace_loss(ground.instance, &entry.trace)
}

/// Whether an entry is a plan of this instance whose loss lies between two.
fn is_between(ground: Ground<'_>, between: LossRange, entry: &Entry) -> bool
    ensures { IsTrue result ↔ IsBetween ground.entry.instance.now between.most between.least
        (found entry.now) }
{
    is_within(entry.loss, between) && is_improvement(ground, entry)
}

/// Appends a plan with this loss.
fn put_plan(alloc: Global, loss: u64, trace: &Trace, list: &mut Run<Entry>) -> Result<(), Memory>
    ensures { OnOk result (found_in list.new.items
        ≡ found_in list.old.items ++ record { loss = loss; steps = trace.now.steps.items } ∷ []) }
{
    let trace = copy_trace(alloc, trace)?;
    append(list, Entry { loss, trace })
}

/// Appends the first plan, if there is one, and tells its loss.
fn put_first(
    alloc: Global,
    instance: &Instance,
    first: Option<&Trace>,
    list: &mut Run<Entry>,
) -> Result<Option<u64>, Memory>
    requires { IfSome (option_map (λ t. t.now.steps.items) first) (IsComplete instance.now) }
    ensures loss { IfOk result (λ loss. loss ≡ option_map (trace_loss_of instance.now)
        (option_map (λ t. t.now.steps.items) first.entry)) }
    ensures list { OnOk result (found_in list.new.items
        ≡ found_in list.old.items ++ begins instance.now
        (option_map (λ t. t.now.steps.items) first.entry)) }
{
    let Some(trace) = first else {
        return Ok(None);
    };
    let loss = trace_loss(instance, trace);
    put_plan(alloc, loss, trace, list)?;
    Ok(Some(loss))
}

/// Appends those entries that are plans of this instance and whose losses lie between two.
fn put_between(
    alloc: Global,
    ground: Ground<'_>,
    between: LossRange,
    entries: &[Entry],
    list: &mut Run<Entry>,
) -> Result<(), Memory>
    ensures { OnOk result ((added : List Found)
        × AreThose (IsBetween ground.entry.instance.now between.most between.least)
        (found_in entries.now) added
        × (found_in list.new.items ≡ found_in list.old.items ++ added)) }
{
    for entry in entries {
        if is_between(ground, between, entry) {
            put_plan(alloc, entry.loss, &entry.trace, list)?;
        }
    }
    Ok(())
}

/// Appends the last plan, unless it loses as much as the first.
fn put_last(
    alloc: Global,
    most: Option<u64>,
    loss: u64,
    trace: &Trace,
    list: &mut Run<Entry>,
) -> Result<(), Memory>
    ensures { OnOk result (found_in list.new.items
        ≡ found_in list.old.items ++ ends most record
        { loss = loss; steps = trace.now.steps.items }) }
{
    match most {
        None => put_plan(alloc, loss, trace, list),
        Some(most) => {
            if loss == most {
                return Ok(());
            }
            put_plan(alloc, loss, trace, list)
        }
    }
}

/// The improvements of a search: its first plan, if there is one; then those entries that are plans of this instance, with the loss that
/// they have, and that lose less than the first and more than the last one; then the last one, unless it loses as much as the first.
/// Without a last plan there are none.
///
/// Both plans must have a step for each item and meet the rules, and where there is a first one, there must be a last one that loses no
/// more. What the entries say is not believed: others have had them in their hands.
pub fn settle(
    alloc: Global,
    instance: &Instance,
    map: &DefectMap,
    first: Option<&Trace>,
    entries: &Entries,
    last: Option<&Trace>,
) -> Result<Run<Entry>, Memory>
    requires map { map.now ≡ instance.now.defects }
    requires first { IfSome (option_map (λ t. t.now.steps.items) first) (IsComplete instance.now) }
    requires last { IfSome (option_map (λ t. t.now.steps.items) last) (IsComplete instance.now) }
    requires no_worse { IsNoWorse instance.now (option_map (λ t. t.now.steps.items) first)
        (option_map (λ t. t.now.steps.items) last) }
    ensures settles { IfOk result (λ list. Settles instance.now
        (option_map (λ t. t.now.steps.items) first.entry)
        (option_map (λ t. t.now.steps.items) last.entry) entries.now.found (found_in list.items)) }
    ensures improvements { IfOk result (λ list. AreImprovements instance.now
        (found_in list.items)) }
    ensures ends { IfOk result (λ list. last_loss (found_in list.items)
        ≡ option_map (trace_loss_of instance.now)
        (option_map (λ t. t.now.steps.items) last.entry)) }
{
    let ground = Ground { instance, map };
    let mut list = Run::new(alloc);
    let Some(last) = last else {
        return Ok(list);
    };
    let least = trace_loss(instance, last);
    let most = put_first(alloc, instance, first, &mut list)?;
    let between = LossRange { most, least };
    put_between(alloc, ground, between, entries.list(), &mut list)?;
    put_last(alloc, most, least, last, &mut list)?;
    Ok(list)
}
