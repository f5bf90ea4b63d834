//! What a decided step's own numbers and those of the step before it tell.

ghost use Rattle.std.specs.Prelude.{◌≡◌, ◌+◌, ◌<◌, ◌≤◌, ◌↔◌, IsTrue, List};
ghost use Rattle.plan_trace.specs.declared.level.Level.{Level as LevelOf};
ghost use Rattle.plan_box.specs.Leasts.{Known};
ghost use Rattle.plan_box.specs.Reasons.{OverR6, StepR1, StepR5, StepR6};
ghost use Rattle.cert_check.specs.inner.Knowns.{known_in};

use crate::steps::Decided;
use glass_base::Params;
use plan_trace::level::Level;

/// Whether a cut can lie nowhere.
pub fn has_no_place(here: &Decided) -> bool
    ensures { (m : LevelOf) (j : Known) (later : List LevelOf) → IsTrue result
        ↔ StepR1 m j here.now.level (known_in here.now) later }
{
    here.high_a < here.least_a
        || here.high_b < here.least_b
        || here.high_c < here.least_c
        || here.high_d < here.least_d
        || here.high_e < here.least_e
}

/// Whether the strip is wider than allowed at every place.
pub fn is_too_wide(params: &Params, here: &Decided) -> bool
    ensures { (m : LevelOf) (j : Known) (later : List LevelOf) → IsTrue result
        ↔ StepR5 params.now m j here.now.level (known_in here.now) later }
{
    let high_a = u64::from(here.high_a);
    let widest = params.max1;
    widest < here.band_w || high_a + u64::from(widest) < u64::from(here.least_b)
}

/// Whether an item that is to lie over the one before cannot: they are not as wide, or one is lifted, or that one is not the first.
fn is_wrong_over(last: &Decided, here: &Decided) -> bool
    ensures { IsTrue result ↔ OverR6 last.now.level here.now.level (known_in last.now)
        (known_in here.now) }
{
    matches!(here.level, Level::Over)
        && (1 <= here.lift
            || here.w != last.w
            || 1 <= last.lift
            || matches!(last.level, Level::Over))
}

/// Whether the discrete numbers break a rule.
pub fn breaks_a_rule(params: &Params, last: &Decided, here: &Decided) -> bool
    ensures { (later : List LevelOf) → IsTrue result
        ↔ StepR6 params.now last.now.level (known_in last.now) here.now.level
        (known_in here.now) later }
{
    here.plates < 1
        || params.plates < here.plates
        || 4 < here.kind
        || here.item.is_none()
        || (here.w == here.h && 1 <= here.turn)
        || is_wrong_over(last, here)
        || (1 <= here.lift && here.w < params.waste)
}
