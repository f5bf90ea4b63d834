//! The path of a plan, and its trace.

use crate::measure::Amount;
use crate::node::{Candidate, LaidCell, LaidItem};
use crate::sheet::Sheet;
use crate::stock::Stock;
use crate::stretching::{Spot, Stretching};
use cut_model::{Step, Trace};
use glass_base::{Memory, Run};
use std::alloc::Global;

/// The nodes of a plan, and its loss.
#[derive(Drop)]
pub struct FoundPath {
    /// From the last one on.
    pub nodes: Vec<LaidCell>,
    pub loss: Amount,
}

/// The least wasteful of these candidates that is below `best`.
pub fn least_of(list: &[Candidate], best: Amount) -> Option<Candidate> {
    let mut least = best;
    let mut found = None;
    for candidate in list {
        if candidate.waste < least {
            least = candidate.waste;
            found = Some(*candidate);
        }
    }
    found
}

/// A node and those before it.
fn nodes_from<'n>(
    alloc: Global,
    arena: &'n [LaidCell],
    last: &'n LaidCell,
) -> Result<Vec<LaidCell>, Memory> {
    let mut nodes = Vec::new(alloc);
    let mut current = last;
    for _ in 0..last.items {
        nodes.push(*current)?;
        let Some(parent) = current.parent_in(arena) else {
            return Ok(nodes);
        };
        current = parent;
    }
    Ok(nodes)
}

/// The path to a candidate that holds all items.
pub fn path_to(alloc: Global, last: Candidate, arena: &[LaidCell]) -> Result<FoundPath, Memory> {
    Ok(FoundPath {
        nodes: nodes_from(alloc, arena, &last.node)?,
        loss: last.waste,
    })
}

/// The number in the instance of the stack of an item.
fn stack_of(stock: &Stock, part: LaidItem) -> u32 {
    match stock.stacks.get(usize::from(part.stack)) {
        Some(stack) => stack.number,
        None => 0,
    }
}

/// The step of a node's lower item at this spot.
fn step_of(stock: &Stock, node: &LaidCell, spot: &Spot) -> Step {
    Step {
        stack: stack_of(stock, node.part),
        turn: u32::from(node.part.turned),
        kind: node.begins.kind(),
        lift: u32::from(node.lifted),
        a: spot.a.0,
        b: spot.b.0,
        c: spot.c.0,
        d: spot.d.0,
        e: spot.e.0,
    }
}

/// Notes the steps of a node, the upper one first.
fn note_steps(
    steps: &mut Vec<Step>,
    stock: &Stock,
    node: &LaidCell,
    spot: &Spot,
) -> Result<(), Memory> {
    let step = step_of(stock, node, spot);
    if let Some(above) = node.above {
        steps.push(Step {
            stack: stack_of(stock, above),
            turn: u32::from(above.turned),
            kind: 4,
            lift: 0,
            ..step
        })?;
    }
    steps.push(step)?;
    Ok(())
}

/// The trace of a path.
pub fn trace_of(
    alloc: Global,
    sheet: &Sheet,
    stock: &Stock,
    path: &[LaidCell],
) -> Result<Trace, Memory> {
    let mut steps = Vec::new(alloc);
    let mut stretching = Stretching::new();
    for node in path {
        let spot = stretching.spot_of(sheet, node);
        note_steps(&mut steps, stock, node, &spot)?;
    }
    steps.reverse();
    Ok(Trace {
        steps: Run::from(steps),
    })
}
