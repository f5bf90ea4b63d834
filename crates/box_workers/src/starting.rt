//! What a search of all plans starts from.
ghost use Rattle.std.specs.Prelude.{◌≡◌, ◌<◌, [], ◌∷◌, IfOk, IfSome};
ghost use Rattle.plan_box.specs.Frames.{frame_of};
ghost use Rattle.plan_box.specs.Ranges.{root_of};
ghost use Rattle.cert_log.specs.Lawful.{no_loss};
ghost use Rattle.box_workers.specs.Runs.{IsFirst, first_loss as first_loss_of};

use cert_log::trace_loss;
use cut_model::Trace;
use glass_base::{Instance, Memory, Run, append};
use plan_box::PlanBox;
use shared_best::NONE;
use std::alloc::Global;

/// The loss of a first trace in mm², or `shared_best::NONE` where there is none.
pub fn first_loss(instance: &Instance, first: &Option<Trace>) -> u64
    requires { IsFirst instance.now first.now }
    ensures loss { result ≡ first_loss_of instance.now first.now }
    ensures some { IfSome first.now (λ _. result < no_loss) }
{
    match first {
        None => NONE,
        Some(trace) => trace_loss(instance, trace),
    }
}

/// The one start box that holds every lawful plan, with the identity 0.
pub fn start_boxes(alloc: Global, instance: &Instance) -> Result<Run<PlanBox>, Memory>
    ensures { IfOk result (λ start. start.items ≡ root_of (frame_of instance.now) 0 ∷ []) }
{
    let mut start = Run::new(alloc);
    append(&mut start, PlanBox::root(alloc, instance, 0)?)?;
    Ok(start)
}
