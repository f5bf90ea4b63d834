//! The trace of a plan.

ghost use Rattle.std.specs.Prelude.{◌≡◌, ◌+◌, ◌*◌, ◌++◌, ◌≤◌, ◌==◌, [], length, position, IfOk, OnOk};
ghost use Rattle.glass_base.specs.Items.{area_of};
ghost use Rattle.cut_model.specs.Fits.{Fits};
ghost use Rattle.cut_model.specs.Lawful.{IsLawful};
ghost use Rattle.cut_model.specs.Loss.{loss_of};
ghost use Rattle.cut_model.specs.Steps.{length_of};
ghost use Rattle.cut_model.specs.Traces.{trace_of as trace_of_plan};
ghost use Rattle.cut_model.specs.Tree.{tree};
ghost use Rattle.plan_trace.specs.Claims.{IsComplete};
ghost use Rattle.plan_trace.specs.inner.Tellings.{place_told, stack_in as stack_in_of, step_at as step_at_of, steps_told, tell, turn_at as turn_at_of};
ghost use Rattle.glass_base.specs.declared.limits.TheConstants.{MOST_ITEMS};

use crate::here::{Here, place_at, place_behind};
use cut_model::{Family, Plan, Sort, Step, Trace, Visitor, item_numbered, walk};
use glass_base::{Instance, Item, Memory, Run, append, stack_numbers};
use std::alloc::Global;

/// Where this number stands among the numbers of the stacks.
fn stack_numbered(stacks: &[u32], number: u32) -> Option<usize>
    ensures { result ≡ position (λ other. other == number) stacks.now }
{
    stacks.iter().position(|other| *other == number)
}

/// The number of an item's stack, 0 where there is none.
fn stack_in(stacks: &[u32], item: Option<Item>) -> u32
    requires { length stacks.now ≤ MOST_ITEMS }
    ensures { result ≡ stack_in_of stacks.now item }
{
    match item {
        None => 0,
        Some(item) => match stack_numbered(stacks, item.stack) {
            None => 0,
            Some(place) => place as u32,
        },
    }
}

/// 0 where the item's length is this width, else 1.
fn turn_at(width: u32, item: Option<Item>) -> u32
    ensures { result ≡ turn_at_of width item }
{
    match item {
        None => 0,
        Some(item) => { if width == item.length { 0 } else { 1 } }
    }
}

/// The step of an item in its place.
fn step_at(items: &[Item], stacks: &[u32], here: Here, width: u32, number: u32) -> Step
    requires { length stacks.now ≤ MOST_ITEMS }
    ensures { result ≡ step_at_of items.now stacks.now here width number }
{
    let item = item_numbered(items, number);
    Step {
        stack: stack_in(stacks, item),
        turn: turn_at(width, item),
        kind: here.kind,
        lift: here.lift,
        a: here.a,
        b: here.b,
        c: here.c,
        d: here.d,
        e: here.e,
    }
}

/// Takes the step of a piece that is an item.
fn take_step(
    steps: &mut Run<Step>,
    items: &[Item],
    stacks: &[u32],
    here: Here,
    family: &Family,
) -> Result<(), Memory>
    requires { length stacks.now ≤ MOST_ITEMS }
    ensures { OnOk result (steps.new.items ≡ steps.old.items
        ++ tell items.now stacks.now here family.now.row.width family.now.sort []) }
{
    match family.sort {
        Sort::Item(number) => {
            append(
                steps,
                step_at(items, stacks, here, family.row.width, number),
            )
        }
        Sort::Waste => Ok(()),
        Sort::Branch => Ok(()),
        Sort::Residual => Ok(()),
    }
}

/// The steps told so far, and the place of the last piece.
#[derive(Drop)]
struct Tracing<'a> {
    items: &'a [Item],
    stacks: &'a [u32],
    here: Here,
    steps: Run<Step>,
    ghost few: { length stacks.now ≤ MOST_ITEMS },
}

impl<'a> Visitor for Tracing<'a> {
    type Stop = Memory;

    ghost has_seen = { λ start now seen.
        (now.items.now ≡ start.items.now)
        × (now.stacks.now ≡ start.stacks.now)
        × (now.here ≡ place_told start.here seen)
        × (now.steps.items ≡ start.steps.items ++ steps_told start.items.now start.stacks.now start.here seen) };

    fn visit(&mut self, family: &Family) -> Result<(), Memory> {
        let here = place_at(self.here, family);
        take_step(&mut self.steps, self.items, self.stacks, here, family)?;
        self.here = place_behind(here, family.sort);
        Ok(())
    }
}

/// The trace of a plan: a step for each item, in the order in which the items are cut. It fails only where memory runs out.
///
/// That of a lawful plan has a step for each item of the batch, meets the nine rules, and loses no more than the plan.
pub fn trace_of(alloc: Global, instance: &Instance, plan: &Plan) -> Result<Trace, Memory>
    requires { Fits (tree plan.now) }
    ensures steps { IfOk result (λ trace. trace.steps.items
        ≡ trace_of_plan instance.now (tree plan.now)) }
    ensures whole { let b = instance.now in IsLawful b (tree plan.now)
        → IfOk result (λ trace. IsComplete b trace.steps.items) }
    ensures loss { let b = instance.now in IsLawful b (tree plan.now)
        → IfOk result (λ trace. b.params.height * length_of b trace.steps.items
        ≤ loss_of b (tree plan.now) + area_of b.items) }
{
    let stacks = stack_numbers(alloc, instance.items())?;
    let mut tracing = Tracing {
        items: instance.items(),
        stacks: stacks.as_slice(),
        here: Here {
            kind: 0,
            lift: 0,
            a: 0,
            b: 0,
            c: 0,
            d: 0,
            e: 0,
        },
        steps: Run::new(alloc),
    };
    walk(&mut tracing, instance, plan)?;
    Ok(Trace {
        steps: tracing.steps,
    })
}
