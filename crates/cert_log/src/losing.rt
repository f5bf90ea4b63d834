//! What a trace loses, whether or not it keeps the rules.

ghost use Rattle.std.specs.Prelude.{◌≡◌, ◌<◌, length};
ghost use Rattle.cert_log.specs.Lawful.{no_loss, trace_loss as trace_loss_of};

use cut_model::Trace;
use glass_base::Instance;
use loss_area::reach;

/// What a trace with a step for each item loses, in mm²: the glass up to its end, less the items. It takes no memory.
///
/// The trace need not keep the rules. Its loss is never the number that stands for none.
pub fn trace_loss(instance: &Instance, trace: &Trace) -> u64
    requires { length trace.now.steps.items ≡ length instance.now.items }
    ensures loss { result ≡ trace_loss_of instance.now trace.now.steps.items }
    ensures some { result < no_loss }
{
    let height = u64::from(instance.params().height);
    let glass = height * reach(instance, trace.steps.as_slice());
    glass.saturating_sub(instance.area())
}
