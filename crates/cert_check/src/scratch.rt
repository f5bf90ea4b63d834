//! Room that a check makes once.

ghost use Rattle.std.specs.Prelude.{◌≡◌, IfOk, length};

use crate::refuting::least_step;
use crate::steps::Decided;
use cut_model::Step;
use glass_base::limits::MOST_ITEMS;
use glass_base::{Memory, Run, append};
use std::alloc::Global;

/// The decided steps of the box at hand, how many items of each stack they draw, and the numbers of a point are written over these lists.
#[derive(Drop)]
pub struct Scratch {
    pub steps: Run<Decided>,
    pub taken: Run<u32>,
    pub numbers: Run<Step>,
}

/// A count for each stack that there can be.
fn zeros(alloc: Global) -> Result<Run<u32>, Memory>
    ensures { IfOk result (λ run. length run.items ≡ MOST_ITEMS) }
{
    let mut run = Run::new(alloc);
    for _ in 0..MOST_ITEMS {
        append(&mut run, 0)?;
    }
    Ok(run)
}

impl Scratch {
    ghost use Rattle.std.specs.Prelude.{IfOk};
    ghost use Rattle.cert_check.specs.inner.Knowns.{HasRoom};

    /// With a place for each item.
    pub fn new(alloc: Global, items: usize) -> Result<Scratch, Memory>
        ensures { IfOk result (HasRoom items) }
    {
        let none = Decided::none();
        let mut steps = Run::new(alloc);
        let mut numbers = Run::new(alloc);
        for _ in 0..items {
            append(&mut steps, none)?;
            append(&mut numbers, least_step(&none))?;
        }
        Ok(Scratch {
            steps,
            taken: zeros(alloc)?,
            numbers,
        })
    }
}
