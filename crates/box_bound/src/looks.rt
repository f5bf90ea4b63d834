//! Whether a piece has no later one beside it, by the ranges of the later decided steps.

ghost use Rattle.std.specs.Prelude.{◌≡◌};
ghost use Rattle.plan_trace.specs.TraceRules.{is_last_band as last_band, is_last_cell as last_cell, is_last_in_cell as last_in_cell, is_last_strip as last_strip};
ghost use Rattle.plan_trace.specs.Marks.{level_of as level_that};
ghost use Rattle.plan_box.specs.Packed.{unpacked};
ghost use Rattle.box_bound.specs.inner.Drawn.{levels_of};

use plan_box::{Packed, Var};
use plan_trace::laid::level_of;
use plan_trace::level::Level;

/// What a decided step of these ranges begins behind others.
fn later_level(ranges: &Packed) -> Level
    ensures { result ≡ level_that (unpacked ranges.now).kind.low }
{
    level_of(ranges.range(Var::Kind).0)
}

/// Whether a strip has no later strip on its plate; `end` where no step is left to tell.
#[tactic(auto, using(plan_box::proofs::Levels::strip_at))]
pub fn is_last_strip(end: bool, later: &[Packed]) -> bool
    ensures { result ≡ last_strip end (levels_of later.now) }
{
    for step in later {
        match later_level(step) {
            Level::NewPlate => return true,
            Level::NewStrip => return false,
            Level::NewBand | Level::NewCell | Level::Over => {}
        }
    }
    end
}

/// Whether a band has no later band in its strip.
#[tactic(auto, using(plan_box::proofs::Levels::band_at))]
pub fn is_last_band(end: bool, later: &[Packed]) -> bool
    ensures { result ≡ last_band end (levels_of later.now) }
{
    for step in later {
        match later_level(step) {
            Level::NewPlate | Level::NewStrip => return true,
            Level::NewBand => return false,
            Level::NewCell | Level::Over => {}
        }
    }
    end
}

/// Whether a cell has no later cell in its band.
#[tactic(auto, using(plan_box::proofs::Levels::cell_at))]
pub fn is_last_cell(end: bool, later: &[Packed]) -> bool
    ensures { result ≡ last_cell end (levels_of later.now) }
{
    for step in later {
        match later_level(step) {
            Level::NewPlate | Level::NewStrip | Level::NewBand => return true,
            Level::NewCell => return false,
            Level::Over => {}
        }
    }
    end
}

/// Whether a step has no later step in its cell.
pub fn is_last_in_cell(end: bool, later: &[Packed]) -> bool
    ensures { result ≡ last_in_cell end (levels_of later.now) }
{
    match later.first() {
        None => end,
        Some(step) => !matches!(later_level(step), Level::Over),
    }
}
