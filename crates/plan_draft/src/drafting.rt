//! The draft, item by item.

ghost use Rattle.std.specs.Prelude.{◌≡◌, ◌≤◌, ◌<◌, [], Some, length, IfOk, MatchOption, MatchResult, replicate};
ghost use Rattle.glass_base.specs.Items.{HasSides, IsItemInRange};
ghost use Rattle.glass_base.specs.Problem.{IsProblem, item_at, stack_at};
ghost use Rattle.plan_trace.specs.Marks.{drawn};
ghost use Rattle.plan_trace.specs.Claims.{IsComplete};
ghost use Rattle.plan_trace.specs.inner.Laid.{draws_of};
ghost use Rattle.plan_draft.specs.Drafts.{HasNoDraft, HasNoNext, IsDraft};
ghost use Rattle.plan_draft.specs.inner.Drafting.{AreMore, IsOneMore, IsUnderWay, StopsIn};

use crate::stepping::next_step;
use cut_model::{Step, Trace};
use defect_map::{DefectMap, Ground};
use glass_base::{Instance, Item, Memory, Run, append};
use plan_trace::laid::plates_behind;
use std::alloc::Global;

/// The steps so far, the plates that they begin, and the right side of their last strip.
#[derive(Drop)]
struct Drafting {
    steps: Run<Step>,
    plates: u32,
    right: u32,
}

/// Takes the least step of an item from this stack, or gives the item's number where it has none.
fn draft_item(
    drafting: &mut Drafting,
    ground: Ground<'_>,
    stack: u32,
    item: &Item,
) -> Result<Option<u32>, Memory>
    requires under_way { IsUnderWay ground.instance.now drafting.old.steps.items drafting.old.plates
        drafting.old.right }
    requires range { IsItemInRange item.now }
    requires sides { HasSides item.now }
    requires due { item_at ground.instance.now stack
        (drawn (draws_of drafting.old.steps.items) stack) ≡ Some item.now }
    ensures { let b = ground.entry.instance.now in
        IfOk result (λ stopped. MatchOption stopped
        (IsOneMore b drafting.old.steps.items stack drafting.new.steps.items drafting.new.plates
        drafting.new.right) (λ number. HasNoNext b drafting.old.steps.items stack
        × (number ≡ item.now.id))) }
{
    match next_step(ground, drafting.plates, drafting.right, stack, item) {
        None => Ok(Some(item.id)),
        Some(step) => {
            append(&mut drafting.steps, step)?;
            drafting.plates = plates_behind(step.kind, drafting.plates);
            drafting.right = step.b;
            Ok(None)
        }
    }
}

/// Takes the least step of each item of a stack, or gives the number of the first one that has none.
fn draft_stack(
    drafting: &mut Drafting,
    ground: Ground<'_>,
    stack: u32,
) -> Result<Option<u32>, Memory>
    requires stack { stack < length ground.instance.now.stacks }
    requires under_way { IsUnderWay ground.instance.now drafting.old.steps.items drafting.old.plates
        drafting.old.right }
    requires fresh { drawn (draws_of drafting.old.steps.items) stack ≡ 0 }
    ensures { let b = ground.entry.instance.now in
        let stacks = replicate (length (stack_at b stack)) stack in
        IfOk result (λ stopped. MatchOption stopped
        (AreMore b drafting.old.steps.items stacks drafting.new.steps.items drafting.new.plates
        drafting.new.right) (StopsIn b drafting.old.steps.items stacks)) }
{
    for position in ground.instance.stack(stack) {
        let item = ground.instance.items()[*position as usize];
        match draft_item(drafting, ground, stack, &item)? {
            Some(number) => return Ok(Some(number)),
            None => {}
        }
    }
    Ok(None)
}

/// The draft, or the number of the first item that has no step.
///
/// Stacks are taken by number, the items of each in ascending sequence. Each item stands alone in a strip of its own, on the
/// plate in use or on the next one; of all such steps with which the steps so far meet the rules of a trace it gets the one
/// that comes first by plate, right side, left side, lower side, upper side and turn.
pub fn draft(
    alloc: Global,
    instance: &Instance,
    map: &DefectMap,
) -> Result<Result<Trace, u32>, Memory>
    requires { map.now ≡ instance.now.defects }
    ensures drafted { IfOk result (λ drafted. MatchResult drafted
        (λ trace. IsDraft instance.now trace.steps.items) (HasNoDraft instance.now)) }
    ensures complete { IfOk result (λ drafted. IfOk drafted
        (λ trace. IsComplete instance.now trace.steps.items)) }
{
    let ground = Ground { instance, map };
    let mut drafting = Drafting {
        steps: Run::new(alloc),
        plates: 0,
        right: 0,
    };
    for stack in 0..instance.stacks() {
        match draft_stack(&mut drafting, ground, stack)? {
            Some(number) => return Ok(Err(number)),
            None => {}
        }
    }
    Ok(Ok(Trace {
        steps: drafting.steps,
    }))
}
