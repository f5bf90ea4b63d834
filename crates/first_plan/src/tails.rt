//! The last plates of a plan: where they begin, what they lose, and a plan with others in their place.

use cut_model::{Step, Trace};
use glass_base::limits::MOST_PLATES;
use glass_base::{Instance, Memory, Run};
use plan_beams::BeamPlan;
use std::alloc::Global;

/// How many plates a plan takes.
pub(crate) fn plates_of(trace: &Trace) -> u32 {
    let mut plates = 0u32;
    for step in trace.steps.as_slice() {
        if step.kind == 0 {
            plates = plates.saturating_add(1);
        }
    }
    plates
}

/// The steps of a plan on its first plates.
pub(crate) fn steps_on(trace: &Trace, plates: u32) -> &[Step] {
    let steps = trace.steps.as_slice();
    let mut begun = 0u32;
    for (number, step) in steps.iter().enumerate() {
        if step.kind == 0 {
            if begun == plates {
                return steps.get(..number).unwrap_or(&[]);
            }
            begun = begun.saturating_add(1);
        }
    }
    steps
}

/// What a plan of this length in mm loses behind its first plates, in mm², where the items there have this area together.
pub(crate) fn lost_behind(instance: &Instance, length: u64, plates: u32, area: u64) -> u64 {
    let left = length.saturating_sub(instance.before(plates.min(MOST_PLATES)));
    let high = u64::from(instance.params().height);
    left.saturating_mul(high).saturating_sub(area)
}

/// These steps and then those of what was found, if something was.
pub(crate) fn joined(
    alloc: Global,
    kept: &[Step],
    found: Option<BeamPlan>,
) -> Result<Option<BeamPlan>, Memory> {
    let Some(BeamPlan { trace, loss }) = found else {
        return Ok(None);
    };
    let mut steps = Vec::new(alloc);
    steps.extend_from_slice(kept)?;
    steps.extend_from_slice(trace.steps.as_slice())?;
    let trace = Trace {
        steps: Run::from(steps),
    };
    Ok(Some(BeamPlan { trace, loss }))
}
