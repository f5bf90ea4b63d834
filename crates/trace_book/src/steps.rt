//! Steps as the book writes them.

use anyhow::bail;
use cut_model::Step;
use std::alloc::{AllocError, Global};

/// The numbers that are written so, one space between two.
pub fn numbers_of(alloc: Global, written: &str) -> anyhow::Result<Vec<u32>> {
    let mut numbers = Vec::new(alloc);
    for number in written.split(' ') {
        numbers.push(number.parse::<u32>()?)?;
    }
    Ok(numbers)
}

/// The step that is written so.
pub fn step_of(alloc: Global, written: &str) -> anyhow::Result<Step> {
    let numbers = numbers_of(alloc, written)?;
    match numbers.as_slice() {
        [stack, turn, kind, lift, a, b, c, d, e] => Ok(Step {
            stack: *stack,
            turn: *turn,
            kind: *kind,
            lift: *lift,
            a: *a,
            b: *b,
            c: *c,
            d: *d,
            e: *e,
        }),
        _ => bail!("a step has nine numbers"),
    }
}

/// Adds the line of a step.
fn tell_step(found: &mut String, step: &Step) -> Result<(), AllocError> {
    let Step {
        stack,
        turn,
        kind,
        lift,
        a,
        b,
        c,
        d,
        e,
    } = *step;
    writeln!(
        found,
        "step {stack} {turn} {kind} {lift} {a} {b} {c} {d} {e}"
    )
}

/// Adds the lines of the steps.
pub fn tell_steps(found: &mut String, steps: &[Step]) -> Result<(), AllocError> {
    for step in steps {
        tell_step(found, step)?;
    }
    Ok(())
}
