//! The rules of a trace, each as a test of one step, the step before it and the later steps.

ghost use Rattle.std.specs.Prelude.{◌≡◌, ◌↔◌, ◌+◌, ◌<◌, ◌≤◌, ◌^◌, IsTrue, true};
ghost use Rattle.plan_trace.specs.inner.Laid.{ahead, cut_of, OverFits};
ghost use Rattle.plan_trace.specs.Marks.{levels};
ghost use Rattle.plan_trace.specs.TraceRules.{AloneFits, BandFits, CellFits, Gap, Inherits, StripFits, TR1, TR2, TR3, TR4, TR5, TR6, TR7, is_last_in_cell as last_in_cell};

use crate::laid::{Laid, is_last_band, is_last_cell, is_last_in_cell, is_last_strip};
use crate::level::Level;
use cut_model::Step;
use glass_base::{Instance, Params};

/// Whether nothing lies between two places, or at least the least waste.
fn is_gap(params: &Params, from: u64, to: u64) -> bool
    requires { from < 2 ^ 40 }
    ensures { IsTrue result ↔ Gap params.now.waste from to }
{
    from == to || from + u64::from(params.waste) <= to
}

/// Whether a plate is begun, and not too many, and the kind is one of the five.
pub fn keeps1(params: &Params, s: &Laid) -> bool
    ensures { IsTrue result ↔ TR1 params.now (cut_of s.now) }
{
    1 <= s.plates && s.plates <= params.plates && s.step.kind <= 4
}

/// Whether the step has an item.
pub fn keeps2(s: &Laid) -> bool
    ensures { IsTrue result ↔ TR2 (cut_of s.now) }
{
    s.item.is_some()
}

/// Whether a step keeps the sides of what it does not begin.
fn inherits(t: &Laid, s: &Laid) -> bool
    ensures { IsTrue result ↔ Inherits s.now.level (cut_of t.now) (cut_of s.now) }
{
    let old = &t.step;
    let new = &s.step;
    match s.level {
        Level::NewPlate => true,
        Level::NewStrip => true,
        Level::NewBand => new.a == old.a && new.b == old.b,
        Level::NewCell => new.a == old.a && new.b == old.b && new.c == old.c && new.d == old.d,
        Level::Over => {
            new.a == old.a && new.b == old.b && new.c == old.c && new.d == old.d && new.e == old.e
        }
    }
}

/// Whether turn and lift are 0 or 1, a square is not turned, and what is not begun is kept.
pub fn keeps3(t: &Laid, s: &Laid) -> bool
    ensures { IsTrue result ↔ TR3 s.now.level (cut_of t.now) (cut_of s.now) }
{
    s.step.turn <= 1 && s.step.lift <= 1 && (s.w != s.h || s.step.turn == 0) && inherits(t, s)
}

/// Whether a strip fits behind what ends at `from`, and into its plate.
#[tactic(auto, using(crate::proofs::LaidLemmas::levels_ahead))]
fn strip_fits(instance: &Instance, from: u32, s: &Laid, later: &[Step]) -> bool
    ensures { IsTrue result ↔ StripFits instance.now from (cut_of s.now) (ahead later.now) }
{
    let a = u64::from(s.step.a);
    let b = u64::from(s.step.b);
    let width = u64::from(instance.width(s.plates.saturating_sub(1)));
    let params = instance.params();
    is_gap(params, u64::from(from), a)
        && a + u64::from(params.min1) <= b
        && b <= a + u64::from(params.max1)
        && b <= width
        && (!is_last_strip(later) || is_gap(params, b, width))
}

/// Whether each strip fits.
pub fn keeps4(instance: &Instance, t: &Laid, s: &Laid, later: &[Step]) -> bool
    ensures { IsTrue result ↔ TR4 instance.now s.now.level (cut_of t.now) (cut_of s.now)
        (ahead later.now) }
{
    match s.level {
        Level::NewPlate => strip_fits(instance, 0, s, later),
        Level::NewStrip => strip_fits(instance, t.step.b, s, later),
        Level::NewBand => true,
        Level::NewCell => true,
        Level::Over => true,
    }
}

/// Whether a band fits above what ends at `from`, and into its strip.
#[tactic(auto, using(crate::proofs::LaidLemmas::levels_ahead))]
fn band_fits(params: &Params, from: u32, s: &Laid, later: &[Step]) -> bool
    ensures { IsTrue result ↔ BandFits params.now from (cut_of s.now) (ahead later.now) }
{
    let c = u64::from(s.step.c);
    let d = u64::from(s.step.d);
    let height = u64::from(params.height);
    is_gap(params, u64::from(from), c)
        && c + u64::from(params.min2) <= d
        && d <= height
        && (!is_last_band(later) || is_gap(params, d, height))
}

/// Whether each band fits.
pub fn keeps5(params: &Params, t: &Laid, s: &Laid, later: &[Step]) -> bool
    ensures { IsTrue result ↔ TR5 params.now s.now.level (cut_of t.now) (cut_of s.now)
        (ahead later.now) }
{
    match s.level {
        Level::NewPlate => band_fits(params, 0, s, later),
        Level::NewStrip => band_fits(params, 0, s, later),
        Level::NewBand => band_fits(params, t.step.d, s, later),
        Level::NewCell => true,
        Level::Over => true,
    }
}

/// Whether a cell fits behind what ends at `from`, and into its band.
#[tactic(auto, using(crate::proofs::LaidLemmas::levels_ahead))]
fn cell_fits(params: &Params, from: u64, s: &Laid, later: &[Step]) -> bool
    requires { from < 2 ^ 40 }
    ensures { IsTrue result ↔ CellFits params.now from (cut_of s.now) (ahead later.now) }
{
    let e = u64::from(s.step.e);
    is_gap(params, from, e)
        && (!is_last_cell(later) || is_gap(params, e + u64::from(s.cell_w), u64::from(s.step.b)))
}

/// Whether each cell fits.
pub fn keeps6(params: &Params, t: &Laid, s: &Laid, later: &[Step]) -> bool
    ensures { IsTrue result ↔ TR6 params.now s.now.level (cut_of t.now) (cut_of s.now)
        (ahead later.now) }
{
    let left = u64::from(s.step.a);
    match s.level {
        Level::NewPlate => cell_fits(params, left, s, later),
        Level::NewStrip => cell_fits(params, left, s, later),
        Level::NewBand => cell_fits(params, left, s, later),
        Level::NewCell => { cell_fits(params, u64::from(t.step.e) + u64::from(t.cell_w), s, later) }
        Level::Over => true,
    }
}

/// Whether an item that is alone in its cell fills it, or leaves a waste above or below.
fn alone_fits(params: &Params, s: &Laid) -> bool
    ensures { IsTrue result ↔ AloneFits params.now s.now.step.lift (cut_of s.now) }
{
    let top = u64::from(s.step.c) + u64::from(s.h);
    let end = u64::from(s.step.d);
    let leaves = top + u64::from(params.waste) <= end && params.waste <= s.w;
    if s.step.lift == 0 {
        top == end || leaves
    } else {
        leaves
    }
}

/// Whether an item over another one fills the cell with it.
fn over_fits(t: &Laid, s: &Laid) -> bool
    ensures { IsTrue result ↔ OverFits t.now.level (cut_of t.now) (cut_of s.now) }
{
    let below = match t.level {
        Level::NewPlate => true,
        Level::NewStrip => true,
        Level::NewBand => true,
        Level::NewCell => true,
        Level::Over => false,
    };
    s.step.lift == 0
        && s.w == t.w
        && t.step.lift == 0
        && below
        && u64::from(s.step.c) + (u64::from(t.h) + u64::from(s.h)) == u64::from(s.step.d)
}

/// Whether an item that begins its cell fits into it, where it is alone there.
#[tactic(auto, using(crate::proofs::LaidLemmas::levels_ahead))]
fn begun_fits(params: &Params, s: &Laid, later: &[Step]) -> bool
    ensures { IsTrue result ↔ (IsTrue (last_in_cell true (levels (ahead later.now)))
        → AloneFits params.now s.now.step.lift (cut_of s.now)) }
{
    !is_last_in_cell(later) || alone_fits(params, s)
}

/// Whether two items fill their cell, and one item alone fits.
pub fn keeps7(params: &Params, t: &Laid, s: &Laid, later: &[Step]) -> bool
    ensures { IsTrue result ↔ TR7 params.now t.now.level s.now.level (cut_of t.now) (cut_of s.now)
        (ahead later.now) }
{
    match s.level {
        Level::NewPlate => begun_fits(params, s, later),
        Level::NewStrip => begun_fits(params, s, later),
        Level::NewBand => begun_fits(params, s, later),
        Level::NewCell => begun_fits(params, s, later),
        Level::Over => over_fits(t, s),
    }
}
