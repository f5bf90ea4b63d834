//! Whether a piece has no later one beside it.

ghost use Rattle.std.specs.Prelude.{◌≡◌};
ghost use Rattle.plan_trace.specs.TraceRules.{is_last_band as last_band, is_last_cell as last_cell, is_last_in_cell as last_in_cell, is_last_strip as last_strip};
ghost use Rattle.cert_check.specs.inner.Knowns.{levels_in};

use crate::steps::Decided;
use plan_trace::level::Level;

/// Whether a strip has no later strip on its plate; `end` where no step is left to tell.
#[tactic(auto, using(plan_box::proofs::Levels::strip_at))]
pub fn is_last_strip(end: bool, later: &[Decided]) -> bool
    ensures { result ≡ last_strip end (levels_in later.now) }
{
    for step in later {
        match step.level {
            Level::NewPlate => return true,
            Level::NewStrip => return false,
            Level::NewBand | Level::NewCell | Level::Over => {}
        }
    }
    end
}

/// Whether a band has no later band in its strip.
#[tactic(auto, using(plan_box::proofs::Levels::band_at))]
pub fn is_last_band(end: bool, later: &[Decided]) -> bool
    ensures { result ≡ last_band end (levels_in later.now) }
{
    for step in later {
        match step.level {
            Level::NewPlate | Level::NewStrip => return true,
            Level::NewBand => return false,
            Level::NewCell | Level::Over => {}
        }
    }
    end
}

/// Whether a cell has no later cell in its band.
#[tactic(auto, using(plan_box::proofs::Levels::cell_at))]
pub fn is_last_cell(end: bool, later: &[Decided]) -> bool
    ensures { result ≡ last_cell end (levels_in later.now) }
{
    for step in later {
        match step.level {
            Level::NewPlate | Level::NewStrip | Level::NewBand => return true,
            Level::NewCell => return false,
            Level::Over => {}
        }
    }
    end
}

/// Whether a step has no later step in its cell.
pub fn is_last_in_cell(end: bool, later: &[Decided]) -> bool
    ensures { result ≡ last_in_cell end (levels_in later.now) }
{
    match later.first() {
        None => end,
        Some(step) => !matches!(step.level, Level::Over),
    }
}
