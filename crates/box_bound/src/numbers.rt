//! Reasons that no defect and no later step is asked for, each as a test of one decided step.

ghost use Rattle.std.specs.Prelude.{◌≡◌, ◌+◌, ◌<◌, ◌≤◌, ◌↔◌, IsTrue, []};
ghost use Rattle.plan_box.specs.Reasons.{OverR6, StepR1, StepR5, StepR6};
ghost use Rattle.box_bound.specs.Kept.{late};

use crate::kept::Kept;
use glass_base::Params;
use plan_trace::level::Level;

/// Whether a cut of a step can lie nowhere.
pub fn has_no_place(last: &Kept, here: &Kept) -> bool
    ensures { IsTrue result ↔ StepR1 last.now.level (late last.now) here.now.level
        (late here.now) [] }
{
    let k = &here.ends;
    k.high_a < k.least_a
        || k.high_b < k.least_b
        || k.high_c < k.least_c
        || k.high_d < k.least_d
        || k.high_e < k.least_e
}

/// Whether a step's strip is wider than allowed at every place.
pub fn is_too_wide(params: &Params, last: &Kept, here: &Kept) -> bool
    ensures { IsTrue result ↔ StepR5 params.now last.now.level (late last.now) here.now.level
        (late here.now) [] }
{
    let most = params.max1;
    most < here.place.band_w
        || u64::from(here.ends.high_a) + u64::from(most) < u64::from(here.ends.least_b)
}

/// Whether a step lies over the one before where it cannot.
fn is_badly_over(last: &Kept, here: &Kept) -> bool
    ensures { IsTrue result ↔ OverR6 last.now.level here.now.level (late last.now) (late here.now) }
{
    matches!(here.level, Level::Over)
        && (1 <= here.place.lift
            || here.place.w < last.place.w
            || last.place.w < here.place.w
            || 1 <= last.place.lift
            || matches!(last.level, Level::Over))
}

/// Whether a step's discrete numbers break a rule.
pub fn breaks_a_rule(params: &Params, last: &Kept, here: &Kept) -> bool
    ensures { IsTrue result ↔ StepR6 params.now last.now.level (late last.now) here.now.level
        (late here.now) [] }
{
    let p = &here.place;
    p.plates < 1
        || params.plates < p.plates
        || 4 < p.kind
        || p.item.is_none()
        || (p.w == p.h && 1 <= p.turn)
        || is_badly_over(last, here)
        || (1 <= p.lift && p.w < params.waste)
}
