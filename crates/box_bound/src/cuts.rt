//! The cuts that a broken rule reads.

use crate::kept::Kept;
use plan_box::Var;
use plan_trace::TraceBroken;
use plan_trace::level::Level;

/// A cut: the step that opens it, and its variable.
#[derive(Clone, Copy)]
pub struct StepCut {
    pub step: u32,
    pub var: Var,
}

/// A piece that a step can begin.
#[derive(Clone, Copy)]
enum PieceKind {
    Strip,
    Band,
    Cell,
}

/// Whether a step of this level begins such a piece.
fn begins(level: Level, piece: PieceKind) -> bool {
    match level {
        Level::NewPlate | Level::NewStrip => true,
        Level::NewBand => !matches!(piece, PieceKind::Strip),
        Level::NewCell => matches!(piece, PieceKind::Cell),
        Level::Over => false,
    }
}

/// The step that begins the piece in which the item of this step lies.
fn opener(steps: &[Kept], step: u32, piece: PieceKind) -> u32 {
    for at in (1..=step).rev() {
        if let Some(kept) = steps.get(at as usize) {
            if begins(kept.level, piece) {
                return at;
            }
        }
    }
    0
}

/// The step that begins the piece before the one that `step` begins, or `step` where it is the first one.
fn opener_before(steps: &[Kept], step: u32, piece: PieceKind) -> u32 {
    opener(steps, step.saturating_sub(1), piece)
}

/// Whether the item of this step hangs from its band's upper side: it is lifted, or lies over another one.
fn is_hanging(steps: &[Kept], step: u32) -> bool {
    match steps.get(step as usize) {
        Some(kept) => kept.place.lift > 0 || !begins(kept.level, PieceKind::Cell),
        None => false,
    }
}

impl StepCut {
    fn new(step: u32, var: Var) -> StepCut {
        StepCut { step, var }
    }
}

/// The cuts that the broken rule reads at the step that breaks it; some may stand here twice.
pub fn cuts_read(steps: &[Kept], broken: TraceBroken) -> [StepCut; 5] {
    let step = broken.step;
    let strip = opener(steps, step, PieceKind::Strip);
    let band = opener(steps, step, PieceKind::Band);
    let cell = opener(steps, step, PieceKind::Cell);
    let (a, b) = (StepCut::new(strip, Var::A), StepCut::new(strip, Var::B));
    let (c, d) = (StepCut::new(band, Var::C), StepCut::new(band, Var::D));
    let e = StepCut::new(cell, Var::E);
    match broken.rule {
        4 => {
            let before = StepCut::new(opener_before(steps, strip, PieceKind::Strip), Var::B);
            [a, b, before, a, b]
        }
        5 => {
            let before = StepCut::new(opener_before(steps, band, PieceKind::Band), Var::D);
            [c, d, before, c, d]
        }
        6 => {
            let before = StepCut::new(opener_before(steps, cell, PieceKind::Cell), Var::E);
            [e, a, b, before, e]
        }
        7 => [c, d, c, d, c],
        8 => {
            let side = if is_hanging(steps, step) { d } else { c };
            [e, side, e, side, e]
        }
        _ => [a, b, c, d, e],
    }
}
