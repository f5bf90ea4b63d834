//! Which of two plans takes less glass.

ghost use Rattle.std.specs.Prelude.{◌≡◌, IfSome};
ghost use Rattle.cut_model.specs.Steps.{length_of};
ghost use Rattle.first_plan.specs.inner.Betters.{IsBetterOf};
ghost use Rattle.glass_base.specs.Problem.{IsProblem};
ghost use Rattle.plan_trace.specs.Claims.{IsComplete};

use cut_model::Trace;
use glass_base::Instance;
use loss_area::length;
use plan_trace::laws::traces_keep_their_kinds;

/// How much glass a trace takes that has a step for each item and meets the rules, in mm.
pub(crate) fn length_of_plan(instance: &Instance, trace: &Trace) -> u64
    requires problem { IsProblem instance.now }
    requires complete { IsComplete instance.now trace.now.steps.items }
    ensures { result ≡ length_of instance.now trace.now.steps.items }
{
    traces_keep_their_kinds();
    length(instance, trace)
}

/// The better of two plans: the one that takes less glass, or the only one. Where both take the same it is the second.
pub(crate) fn better_of(
    instance: &Instance,
    first: Option<Trace>,
    second: Option<Trace>,
) -> Option<Trace>
    requires problem { IsProblem instance.now }
    requires first { IfSome first (λ trace. IsComplete instance.now trace.steps.items) }
    requires second { IfSome second (λ trace. IsComplete instance.now trace.steps.items) }
    ensures complete { IfSome result (λ trace. IsComplete instance.now trace.steps.items) }
    ensures better { IsBetterOf instance.now first second result }
{
    match (first, second) {
        (Some(first), Some(second)) => {
            if length_of_plan(instance, &second) <= length_of_plan(instance, &first) {
                Some(second)
            } else {
                Some(first)
            }
        }
        (Some(first), None) => Some(first),
        (None, second) => second,
    }
}
