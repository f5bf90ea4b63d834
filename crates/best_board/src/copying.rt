//! Copies of what a board keeps.
ghost use Rattle.std.specs.Prelude.{◌≡◌, IfOk};
ghost use Rattle.glass_base.specs.Problem.{IsMadeOf};

use cut_model::Trace;
use glass_base::{Instance, Memory, Run, append};
use std::alloc::Global;

/// The same steps in memory of their own.
pub fn copy_trace(alloc: Global, trace: &Trace) -> Result<Trace, Memory>
    ensures { IfOk result (λ copy. copy.steps.items ≡ trace.now.steps.items) }
{
    let mut steps = Run::new(alloc);
    steps.extend_from_slice(trace.steps.as_slice())?;
    Ok(Trace { steps })
}

/// The width of each plate.
fn widths_of(alloc: Global, instance: &Instance) -> Result<Run<u32>, Memory>
    ensures { IfOk result (λ widths. widths.items ≡ instance.now.widths) }
{
    let mut widths = Run::new(alloc);
    for plate in 0..instance.params().plates {
        append(&mut widths, instance.width(plate))?;
    }
    Ok(widths)
}

/// The instance of the same parameters, items, defects and widths.
pub(crate) fn copy_instance(alloc: Global, instance: &Instance) -> Result<Instance, Memory>
    ensures { let b = instance.now in IfOk result
        (λ copy. IsMadeOf copy b.params b.items b.defects b.widths) }
{
    let mut items = Run::new(alloc);
    items.extend_from_slice(instance.items())?;
    let mut defects = Run::new(alloc);
    defects.extend_from_slice(instance.defects())?;
    let widths = widths_of(alloc, instance)?;
    // The lists make an instance, since they are those of one.
    match Instance::on_plates(alloc, *instance.params(), items, defects, widths) {
        Ok(copy) => Ok(copy),
        Err(_) => Err(Memory),
    }
}
