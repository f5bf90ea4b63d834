//! What a search begins with.

ghost use Rattle.std.specs.Prelude.{◌≡◌, ℕ, IfNone, IfOk, IfSome, Some, false, is_some, option_map};
ghost use Rattle.cert_log.specs.Good.{IsFloor};
ghost use Rattle.box_workers.specs.Runs.{IsFirst, first_loss as first_loss_of};
ghost use Rattle.cert_resume.specs.Joins.{IsAtMost};
ghost use Rattle.cut_model.specs.Tree.{tree};
ghost use Rattle.first_plan.specs.FirstPlans.{IsFirstPlan, IsNoWorse};
ghost use Rattle.plan_draft.specs.Drafts.{HasNoDraft};
ghost use Rattle.run_checks.specs.Checks.{FitsToo, IsLawfulToo, loss_in};

use crate::workforce::Workforce;
use box_workers::Gate;
use cut_model::{Plan, Trace};
use defect_map::Ground;
use first_plan::{Effort, Start, Team, better_first, first_plan, improve, start_by_fronts};
use front_bound::front_search::FrontSearch;
use glass_base::{Instance, Memory};
use plan_trace::trace_of;
use std::alloc::Global;
use std::thread::Threads;

/// The trace of a lawful plan, if there is one.
pub(crate) fn first_trace(
    alloc: Global,
    instance: &Instance,
    plan: &Option<Plan>,
) -> Result<Option<Trace>, Memory>
    requires fits { FitsToo plan.now }
    requires lawful { IsLawfulToo instance.now (option_map tree plan.now) }
    ensures first { IfOk result (IsFirst instance.now) }
    ensures no_worse { IfOk result (λ first. IsAtMost (Some (first_loss_of instance.now first))
        (loss_in instance.now (option_map tree plan.now))) }
    ensures known { IfOk result (λ first. is_some first ≡ is_some plan.now) }
{
    match plan {
        None => Ok(None),
        Some(plan) => {
            let trace = trace_of(alloc, instance, plan)?;
            Ok(Some(trace))
        }
    }
}

/// The better of the first plan and one that is known, if there is one, and where fronts are asked, what they show.
fn begun<R: Threads + Sync, G: Gate>(
    alloc: Global,
    workforce: &Workforce<'_, R, G>,
    ground: Ground<'_>,
    known: Option<Trace>,
) -> Result<Start, Memory>
    requires known { IsFirst ground.instance.now known }
    ensures plan { IfOk result (λ start. IfSome start.first
        (λ trace. IsFirstPlan ground.entry.instance.now trace.steps.items)) }
    ensures none { IfOk result (λ start. IfNone start.first ((number : ℕ)
        × HasNoDraft ground.entry.instance.now number)) }
    ensures floor { IfOk result (λ start. IsFloor ground.entry.instance.now start.floor) }
    ensures unasked { IfOk result (λ start. workforce.now.options.fronts ≡ false → start.floor ≡ 0) }
    ensures no_worse { IfOk result (λ start. IsNoWorse ground.entry.instance.now known
        start.first) }
{
    if workforce.options.fronts {
        let search = FrontSearch {
            labels: workforce.options.labels,
            rt: workforce.rt,
            threads: workforce.options.workers,
            listener: workforce.gate,
        };
        return start_by_fronts(alloc, ground, known, &search);
    }
    let first = first_plan(alloc, ground.instance, ground.map)?;
    // Read for its rules.
    let _items = ground.instance.items();
    let first = better_first(ground.instance, first, known);
    Ok(Start { first, floor: 0 })
}

/// What works on a better first plan.
fn team_of<'a, R, G: Gate>(workforce: &Workforce<'a, R, G>) -> Team<'a, R, G> {
    let options = &workforce.options;
    Team {
        rt: workforce.rt,
        effort: Effort {
            millions: options.millions(workforce.gate),
            threads: options.workers,
        },
        seconds: options.seconds,
        listener: workforce.gate,
    }
}

/// What a search begins with: the better of the first plan and one that is known, if there is one, a better one where
/// work is done for it, and where fronts are asked, what they show.
pub(crate) fn start_of<R: Threads + Sync, G: Gate>(
    alloc: Global,
    workforce: &Workforce<'_, R, G>,
    ground: Ground<'_>,
    known: Option<Trace>,
) -> Result<Start, Memory>
    requires known { IsFirst ground.instance.now known }
    ensures plan { IfOk result (λ start. IfSome start.first
        (λ trace. IsFirstPlan ground.entry.instance.now trace.steps.items)) }
    ensures none { IfOk result (λ start. IfNone start.first ((number : ℕ)
        × HasNoDraft ground.entry.instance.now number)) }
    ensures floor { IfOk result (λ start. IsFloor ground.entry.instance.now start.floor) }
    ensures unasked { IfOk result (λ start. workforce.now.options.fronts ≡ false → start.floor ≡ 0) }
    ensures no_worse { IfOk result (λ start. IsNoWorse ground.entry.instance.now known
        start.first) }
{
    let Start { first, floor } = begun(alloc, workforce, ground, known)?;
    let team = team_of(workforce);
    match first {
        Some(first) if team.effort.millions > 0 => {
            let better = improve(alloc, &team, ground, first, floor)?;
            Ok(Start {
                first: Some(better),
                floor,
            })
        }
        first => Ok(Start { first, floor }),
    }
}

/// What a search begins with that goes on from a plan, or from none: that plan, and where work is done for a better one or
/// fronts are asked, the best of it and of what is found.
pub(crate) fn start_behind<R: Threads + Sync, G: Gate>(
    alloc: Global,
    workforce: &Workforce<'_, R, G>,
    ground: Ground<'_>,
    known: Option<Trace>,
) -> Result<Start, Memory>
    requires known { IsFirst ground.instance.now known }
    ensures first { IfOk result (λ start. IsFirst ground.entry.instance.now start.first) }
    ensures floor { IfOk result (λ start. IsFloor ground.entry.instance.now start.floor) }
    ensures unasked { IfOk result (λ start. workforce.now.options.fronts ≡ false → start.floor ≡ 0) }
    ensures no_worse { IfOk result (λ start. IsNoWorse ground.entry.instance.now known
        start.first) }
{
    if workforce.options.is_idle() {
        return Ok(Start {
            first: known,
            floor: 0,
        });
    }
    start_of(alloc, workforce, ground, known)
}
