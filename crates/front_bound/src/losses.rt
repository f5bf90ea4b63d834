//! Losses that no lawful plan is below.

ghost use Rattle.std.specs.Prelude.{◌≤◌, IfOk};
ghost use Rattle.cut_model.specs.Lawful.{IsLawful};
ghost use Rattle.cut_model.specs.Loss.{loss_of};
ghost use Rattle.cut_model.specs.Tree.{Forest};

use crate::bounds::longest_shown;
use crate::front_search::FrontSearch;
use glass_base::{Instance, Listener, Memory};
use loss_area::loss_of_length;
use std::alloc::Global;
use std::thread::Threads;

/// Longer than every plan, in mm.
pub const LONGEST: u64 = 5_000_000_000;

/// The least length of which a plan loses at least this, or `LONGEST` where that is less: a guess.
fn length_of_loss(instance: &Instance, loss: u64) -> u64
    ensures { result ≤ 5000000000 }
{
    let glass = loss.saturating_add(instance.area());
    let length = glass.div_ceil(u64::from(instance.params().height));
    length.min(LONGEST)
}

/// A loss up to this one, in mm², of which fronts show that no lawful plan is below it: this one, where they show it. Where more labels would be looked at
/// than the search may, or there are too many fronts for that, it is what was shown before, or 0, which says nothing.
///
/// Only want of memory is refused.
pub fn floor_up_to<R: Threads + Sync, L: Listener>(
    alloc: Global,
    instance: &Instance,
    loss: u64,
    search: &FrontSearch<'_, R, L>,
) -> Result<u64, Memory>
    ensures shown { IfOk result (λ floor. (plan : Forest) → IsLawful instance.now plan
        → floor ≤ loss_of instance.now plan) }
    ensures most { IfOk result (λ floor. floor ≤ loss) }
{
    if loss == 0 {
        return Ok(0);
    }
    let most = length_of_loss(instance, loss);
    let length = longest_shown(alloc, instance, most, search)?;
    Ok(loss_of_length(instance, length).min(loss))
}
