//! A trace of joined stacks, taken back to the stacks that were joined: a guess, which has to be asked of the rules.

use cut_model::{Step, Trace};
use glass_base::{Instance, Memory, Run, append};
use joined_stacks::Joined;
use std::alloc::Global;

/// How many of these steps take an item off a stack.
fn taken_of(steps: &[Step], stack: u32) -> usize {
    steps.iter().filter(|step| step.stack == stack).count()
}

/// The first stack whose home this is and that has an item left behind these steps.
fn stack_at_home(instance: &Instance, homes: &[u32], steps: &[Step], home: u32) -> Option<u32> {
    for stack in 0..instance.stacks() {
        let is_at_home = homes.get(stack as usize).copied().unwrap_or(0) == home;
        if is_at_home && taken_of(steps, stack) < instance.stack(stack).len() {
            return Some(stack);
        }
    }
    None
}

/// The steps, each with an item off a stack whose home it takes one off.
fn steps_back(
    alloc: Global,
    instance: &Instance,
    homes: &[u32],
    steps: &[Step],
) -> Result<Option<Trace>, Memory> {
    let mut own = Run::new(alloc);
    for step in steps {
        let Some(stack) = stack_at_home(instance, homes, own.as_slice(), step.stack) else {
            return Ok(None);
        };
        append(&mut own, Step { stack, ..*step })?;
    }
    Ok(Some(Trace { steps: own }))
}

/// The trace with the items of the instance's own stacks, where it is one of joined stacks.
pub fn taken_back(
    alloc: Global,
    instance: &Instance,
    joined: &Option<Joined>,
    trace: Option<Trace>,
) -> Result<Option<Trace>, Memory> {
    let Some(joined) = joined else {
        return Ok(trace);
    };
    let Some(trace) = trace else {
        return Ok(None);
    };
    let homes = joined.homes.as_slice();
    steps_back(alloc, instance, homes, trace.steps.as_slice())
}
