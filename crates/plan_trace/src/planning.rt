//! The canonical plan of a trace.

ghost use Rattle.std.specs.Prelude.{◌≡◌, ◌+◌, ◌++◌, ◌*◌, ◌<◌, ◌^◌, [], IfOk, OnOk, length};
ghost use Rattle.glass_base.specs.Items.{area_of};
ghost use Rattle.cut_model.specs.Loss.{loss_of};
ghost use Rattle.cut_model.specs.Steps.{length_of};
ghost use Rattle.cut_model.specs.Traces.{trace_of};
ghost use Rattle.cut_model.specs.Tree.{tree};
ghost use Rattle.plan_trace.specs.Canonical.{canonical};
ghost use Rattle.plan_trace.specs.Claims.{IsGoodPlan, IsComplete};
ghost use Rattle.plan_trace.specs.inner.Laid.{laid_list, no_laid};

use crate::growing::grow;
use crate::laid::Laid;
use cut_model::{Plan, Step, Trace};
use glass_base::{Instance, Memory, Run, append};
use std::alloc::Global;

/// Adds the steps, each with what the rules read of it.
fn lay_all(laid: &mut Run<Laid>, instance: &Instance, steps: &[Step]) -> Result<(), Memory>
    requires { length steps.now < 2 ^ 32 }
    ensures { OnOk result (laid.new.items ≡ laid.old.items
        ++ laid_list instance.now [] no_laid steps.now) }
{
    let mut last = Laid::none();
    for (i, step) in steps.iter().enumerate() {
        let here = last.next(instance, &steps[..i], *step);
        append(laid, here)?;
        last = here;
    }
    Ok(())
}

/// The canonical plan of a trace that has a step for each item and meets the rules: each gap is one waste, the last plate ends
/// in the residual where glass remains, and an item is named at the shallowest level at which its piece is exactly the item.
///
/// The plan is lawful, fits, and has at most 1,000,000,000 rows. Its trace is the given one, and it loses the glass up to the
/// trace's length less the items. It fails only where memory runs out.
pub fn plan_of(alloc: Global, instance: &Instance, trace: &Trace) -> Result<Plan, Memory>
    requires { IsComplete instance.now trace.now.steps.items }
    ensures plan { IfOk result (λ plan. tree plan ≡ canonical instance.now trace.now.steps.items) }
    ensures good { IfOk result (λ plan. IsGoodPlan instance.now (tree plan)) }
    ensures loses { let b = instance.now in let steps = trace.now.steps.items in
        IfOk result (λ plan. loss_of b (tree plan) + area_of b.items
        ≡ b.params.height * length_of b steps) }
    ensures traced { IfOk result (λ plan. trace_of instance.now (tree plan)
        ≡ trace.now.steps.items) }
{
    let mut laid = Run::new(alloc);
    laid.reserve(instance.items().len())?;
    lay_all(&mut laid, instance, trace.steps.as_slice())?;
    grow(alloc, instance, laid.as_slice())
}
