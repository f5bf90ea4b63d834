//! A plan along the fronts, beside the length that no plan is below.

ghost use Rattle.std.specs.Prelude.{◌≡◌, ◌≤◌, IfOk, IfSome};
ghost use Rattle.front_table.specs.Ready.{AreFronts};
ghost use Rattle.front_course.specs.Claims.{LosesAtLeast, NoCourseShorter};
ghost use Rattle.plan_trace.specs.Claims.{IsComplete};

use crate::ends_at::last_side;
use crate::plan_search::PlanSearch;
use crate::planning::trace_to;
use crate::taking_back::taken_back;
use cut_model::Trace;
use defect_map::Ground;
use front_bound::bounds::longest;
use front_bound::front_search::FrontSearch;
use front_bound::runs::sides_within;
use front_course::laws::courses_bound_losses;
use front_table::fronts::Fronts;
use front_table::halt::Halt;
use front_table::pools::LabelPool;
use front_table::probe::Probe;
use front_table::table::table_of;
use glass_base::{Listener, Memory};
use joined_stacks::{Joined, join_stacks, joined_or};
use plan_trace::meets;
use std::alloc::Global;
use std::thread::Threads;

/// Within so many lengths a plan is looked for, the first two so much apart, in mm, and each further one twice as much.
const LENGTHS: u32 = 3;

const FIRST_STEP: u64 = 8;

/// So many ends of the last plate are tried within a length.
const ENDS: u32 = 24;

/// What fronts show of an instance.
#[derive(Drop)]
pub struct Shown {
    /// No lawful plan is shorter, in mm.
    pub length: u64,
    /// A plan, where one was found.
    pub plan: Option<Trace>,
}

/// The trace of a course within a length, the shortest one first, where its strips are found: a guess.
fn trace_within<R: Threads + Sync, L: Listener>(
    probe: &Probe<'_, R, L>,
    ground: Ground<'_>,
    fronts: &Fronts<'_>,
    length: u64,
) -> Result<Option<Trace>, Halt>
    requires { AreFronts fronts.now }
{
    if fronts.rows.len() <= 1 {
        return Ok(None);
    }
    let sides = sides_within(probe, fronts, length)?;
    let mut pool = LabelPool::new(probe.alloc, fronts.rows.len(), probe.limit)?;
    let search = PlanSearch {
        alloc: probe.alloc,
        ground,
        fronts: *fronts,
    };
    let mut least = 0;
    for _ in 0..ENDS {
        let Some((end, last)) = last_side(fronts.instance, sides.labels(0), least) else {
            return Ok(None);
        };
        if end > length {
            return Ok(None);
        }
        let trace = trace_to(&mut pool, &search, &sides, last)?;
        if trace.is_some() {
            return Ok(trace);
        }
        least = end.saturating_add(1);
    }
    Ok(None)
}

/// A trace, where it has a step for each item and meets the rules.
fn checked(ground: Ground<'_>, trace: Option<Trace>) -> Option<Trace>
    ensures { IfSome result (λ trace. IsComplete ground.entry.instance.now trace.steps.items) }
{
    let trace = trace?;
    if trace.steps.len() != ground.instance.items().len() {
        return None;
    }
    match meets(ground.instance, ground.map, &trace) {
        Ok(()) => Some(trace),
        Err(_) => None,
    }
}

/// A plan along the fronts within a length, where one is found within the limit.
fn plan_within<R: Threads + Sync, L: Listener>(
    probe: &Probe<'_, R, L>,
    ground: Ground<'_>,
    joined: &Option<Joined>,
    fronts: &Fronts<'_>,
    length: u64,
) -> Result<Option<Trace>, Halt>
    requires { AreFronts fronts.now }
    ensures { IfOk result (λ plan. IfSome plan
        (λ trace. IsComplete ground.entry.instance.now trace.steps.items)) }
{
    let trace = match trace_within(probe, ground, fronts, length) {
        Ok(trace) => trace,
        Err(halt) => halt.or(None)?,
    };
    let own = taken_back(probe.alloc, ground.instance, joined, trace)?;
    Ok(checked(ground, own))
}

/// A plan along the fronts that is shorter than `most`, within a length that no course is below, or else within longer
/// ones, step by step.
fn plan_below<R: Threads + Sync, L: Listener>(
    probe: &Probe<'_, R, L>,
    ground: Ground<'_>,
    joined: &Option<Joined>,
    fronts: &Fronts<'_>,
    length: u64,
    most: u64,
) -> Result<Option<Trace>, Halt>
    requires { AreFronts fronts.now }
    ensures { IfOk result (λ plan. IfSome plan
        (λ trace. IsComplete ground.entry.instance.now trace.steps.items)) }
{
    let mut within = length;
    let mut step = FIRST_STEP;
    for _ in 0..LENGTHS {
        if within >= most {
            return Ok(None);
        }
        let plan = plan_within(probe, ground, joined, fronts, within)?;
        if plan.is_some() {
            return Ok(plan);
        }
        within = within.saturating_add(step);
        step = step.saturating_mul(2);
    }
    Ok(None)
}

/// What fronts show of an instance, where its searches stay within the limit.
fn shown_by_fronts<R: Threads + Sync, L: Listener>(
    alloc: Global,
    ground: Ground<'_>,
    most: u64,
    search: &FrontSearch<'_, R, L>,
) -> Result<Shown, Halt>
    ensures shown { IfOk result (λ s. NoCourseShorter ground.entry.instance.now s.length) }
    ensures most { IfOk result (λ s. s.length ≤ most) }
    ensures plan { IfOk result (λ s. IfSome s.plan
        (λ trace. IsComplete ground.entry.instance.now trace.steps.items)) }
{
    let joined = join_stacks(alloc, ground.instance)?;
    let instance = joined_or(&joined, ground.instance);
    let probe = search.probe(alloc, instance);
    let table = match table_of(&probe) {
        Ok(table) => table,
        Err(halt) => {
            probe.tell(halt);
            return Err(halt);
        }
    };
    let fronts = table.lend(instance);
    let length = longest(&probe, &fronts, most)?;
    let plan = plan_below(&probe, ground, &joined, &fronts, length, most)?;
    Ok(Shown { length, plan })
}

/// A length up to `most`, in mm, of which it is shown that no lawful plan is shorter, as `longest_shown` gives it, and
/// a plan that was looked for along a shortest course: the trace has a step for each item and meets the rules. That one
/// is found, and that it is so short, is not promised; mostly it is, and then no plan loses less. There is none where
/// the strips of so short a plan are not among those that are tried, or where the search reaches its limit; and none is
/// looked for where `most` itself is shown, since who knows a plan of that length needs no other.
pub fn longest_with_plan<R: Threads + Sync, L: Listener>(
    alloc: Global,
    ground: Ground<'_>,
    most: u64,
    search: &FrontSearch<'_, R, L>,
) -> Result<Shown, Memory>
    ensures shown { IfOk result (λ s. LosesAtLeast ground.entry.instance.now s.length) }
    ensures most { IfOk result (λ s. s.length ≤ most) }
    ensures plan { IfOk result (λ s. IfSome s.plan
        (λ trace. IsComplete ground.entry.instance.now trace.steps.items)) }
{
    let _rules = ground.instance.items();
    courses_bound_losses();
    match shown_by_fronts(alloc, ground, most, search) {
        Ok(shown) => Ok(shown),
        Err(halt) => halt.or(Shown {
            length: 0,
            plan: None,
        }),
    }
}
