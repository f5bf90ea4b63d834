//! How much glass a trace takes, and what a plan of a length loses.

ghost use Rattle.std.specs.Prelude.{◌≡◌, ◌*◌, ◌-◌, ◌≤◌, length as length_of_list};
ghost use Rattle.glass_base.specs.Items.{area_of};
ghost use Rattle.cut_model.specs.Steps.{KeepsKinds, last_right as last_right_of, length_of, plates_begun as plates_begun_of};

use cut_model::{Step, Trace};
use glass_base::Instance;

/// The number of plates that these steps begin.
#[tactic(auto, using(crate::proofs::TraceEnds::begun_count))]
fn plates_begun(steps: &[Step]) -> usize
    ensures { result ≡ plates_begun_of steps.now }
{
    steps.iter().filter(|step| step.kind == 0).count()
}

/// The right side of the last step's strip, in mm.
fn last_right(steps: &[Step]) -> u32
    ensures { result ≡ last_right_of steps.now }
{
    match steps.split_last() {
        Some((last, _before)) => last.b,
        None => 0,
    }
}

/// How far steps reach, in mm: the widths of the plates before the last one that they begin, and the right side of their last
/// strip. It takes no memory.
///
/// The steps need not keep any rule, nor be for this instance's items; there are widths of a thousand plates.
pub fn reach(instance: &Instance, steps: &[Step]) -> u64
    requires { plates_begun_of steps.now ≤ 1001 }
    ensures value { result ≡ length_of instance.now steps.now }
    ensures small { result ≤ 5000000000 }
{
    let plates = plates_begun(steps) as u32;
    instance.before(plates.saturating_sub(1)) + u64::from(last_right(steps))
}

/// The length of a trace, in mm: the widths of the plates before its last one, and the right side of its last strip. It takes no
/// memory.
///
/// A trace has a length where it has a step, its kinds are 0 to 4, the first one is 0, and no plate too many is begun.
pub fn length(instance: &Instance, trace: &Trace) -> u64
    requires some { 1 ≤ length_of_list trace.now.steps.items }
    requires kinds { KeepsKinds instance.now.params trace.now.steps.items }
    ensures { result ≡ length_of instance.now trace.now.steps.items }
{
    reach(instance, trace.steps.as_slice())
}

/// The loss in mm² of a plan of this length in mm: the glass up to there, less the items. No length that a plan or a bound
/// can have is above the limit.
#[tactic(auto, using(crate::proofs::Heights::height_times))]
pub fn loss_of_length(instance: &Instance, length: u64) -> u64
    requires { length ≤ 810000000000000 }
    ensures { result ≡ instance.now.params.height * length - area_of instance.now.items }
{
    (u64::from(instance.params().height) * length).saturating_sub(instance.area())
}
