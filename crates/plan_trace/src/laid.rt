//! Steps of a trace, one after another, with what the rules read of them.

ghost use Rattle.std.specs.Prelude.{◌≡◌, ◌+◌, ◌<◌, ◌≤◌, ◌^◌, true};
ghost use Rattle.cut_model.specs.Steps.{plates_after};
ghost use Rattle.plan_trace.specs.Marks.{begins, cell_width, drawn as drawn_of, item_height, item_width, level_of as level_that};
ghost use Rattle.plan_trace.specs.TraceRules.{is_last_band as last_band, is_last_cell as last_cell, is_last_in_cell as last_in_cell, is_last_strip as last_strip};
ghost use Rattle.plan_trace.specs.inner.Laid.{draws_of, levels_of, next_laid, no_laid};

use crate::level::Level;
use cut_model::Step;
use glass_base::{Instance, Item};

/// A step with what the rules read of it, beside its own numbers.
#[derive(Clone, Copy)]
pub struct Laid {
    pub level: Level,
    pub step: Step,
    /// The plates begun so far.
    pub plates: u32,
    /// The item that it draws, if its stack has one left.
    pub item: Option<Item>,
    /// The sides of the item as it lies, 0 where there is none.
    pub w: u32,
    pub h: u32,
    /// The width of its cell.
    pub cell_w: u32,
}

/// What a step of this kind begins.
pub fn level_of(kind: u32) -> Level
    ensures { result ≡ level_that kind }
{
    match kind {
        0 => Level::NewPlate,
        1 => Level::NewStrip,
        2 => Level::NewBand,
        3 => Level::NewCell,
        _ => Level::Over,
    }
}

/// How many of these steps draw from a stack.
#[tactic(auto, using(crate::proofs::LaidLemmas::draws_more))]
fn drawn(before: &[Step], stack: u32) -> usize
    ensures { result ≡ drawn_of (draws_of before.now) stack }
{
    let mut count = 0;
    for step in before {
        if step.stack == stack {
            count += 1;
        }
    }
    count
}

/// The side along x of an item in this turn.
pub fn width_in(turn: u32, item: Option<Item>) -> u32
    ensures { result ≡ item_width turn item }
{
    match item {
        None => 0,
        Some(item) => { if turn == 0 { item.length } else { item.width } }
    }
}

/// The side along y of an item in this turn.
pub fn height_in(turn: u32, item: Option<Item>) -> u32
    ensures { result ≡ item_height turn item }
{
    match item {
        None => 0,
        Some(item) => { if turn == 0 { item.width } else { item.length } }
    }
}

/// What a step begins behind these steps: the first one begins everything.
#[tactic(auto, using(crate::proofs::LaidLemmas::draws_none, crate::proofs::LaidLemmas::draws_some))]
fn level_behind(before: &[Step], kind: u32) -> Level
    ensures { result ≡ begins (draws_of before.now) kind }
{
    if before.is_empty() {
        Level::NewPlate
    } else {
        level_of(kind)
    }
}

/// The width of a step's cell, behind a cell of this width.
fn cell_width_behind(level: Level, before: u32, w: u32) -> u32
    ensures { result ≡ cell_width level before w }
{
    match level {
        Level::NewPlate => w,
        Level::NewStrip => w,
        Level::NewBand => w,
        Level::NewCell => w,
        Level::Over => before,
    }
}

/// The plates begun after a step of this kind.
pub fn plates_behind(kind: u32, before: u32) -> u32
    requires { before + 1 < 2 ^ 32 }
    ensures { result ≡ plates_after kind before }
{
    if kind == 0 { before + 1 } else { before }
}

impl Laid {
    ghost use Rattle.std.specs.Prelude.{◌≡◌, ◌+◌, ◌<◌, ◌^◌};
    ghost use Rattle.glass_base.specs.Problem.{IsProblem};
    ghost use Rattle.plan_trace.specs.inner.Laid.{draws_of, next_laid, no_laid};

    /// What stands before the first step.
    pub fn none() -> Laid
        ensures { result ≡ no_laid }
    {
        Laid {
            level: Level::NewPlate,
            step: Step::NONE,
            plates: 0,
            item: None,
            w: 0,
            h: 0,
            cell_w: 0,
        }
    }

    /// The step behind this one, where these are all steps before it.
    pub fn next(&self, instance: &Instance, before: &[Step], step: Step) -> Laid
        requires { self.now.plates + 1 < 2 ^ 32 }
        ensures value { result ≡ next_laid instance.now (draws_of before.now) self.now step }
        ensures rules { IsProblem instance.now }
    {
        let level = level_behind(before, step.kind);
        let item = instance.item_of(step.stack, drawn(before, step.stack));
        let w = width_in(step.turn, item);
        Laid {
            level,
            step,
            plates: plates_behind(step.kind, self.plates),
            item,
            w,
            h: height_in(step.turn, item),
            cell_w: cell_width_behind(level, self.cell_w, w),
        }
    }
}

/// Whether a strip has no later strip on its plate.
#[tactic(auto, using(crate::proofs::LaidLemmas::strip_at))]
pub fn is_last_strip(later: &[Step]) -> bool
    ensures { result ≡ last_strip true (levels_of later.now) }
{
    for step in later {
        match level_of(step.kind) {
            Level::NewPlate => return true,
            Level::NewStrip => return false,
            Level::NewBand => {}
            Level::NewCell => {}
            Level::Over => {}
        }
    }
    true
}

/// Whether a band has no later band in its strip.
#[tactic(auto, using(crate::proofs::LaidLemmas::band_at))]
pub fn is_last_band(later: &[Step]) -> bool
    ensures { result ≡ last_band true (levels_of later.now) }
{
    for step in later {
        match level_of(step.kind) {
            Level::NewPlate => return true,
            Level::NewStrip => return true,
            Level::NewBand => return false,
            Level::NewCell => {}
            Level::Over => {}
        }
    }
    true
}

/// Whether a cell has no later cell in its band.
#[tactic(auto, using(crate::proofs::LaidLemmas::cell_at))]
pub fn is_last_cell(later: &[Step]) -> bool
    ensures { result ≡ last_cell true (levels_of later.now) }
{
    for step in later {
        match level_of(step.kind) {
            Level::NewPlate => return true,
            Level::NewStrip => return true,
            Level::NewBand => return true,
            Level::NewCell => return false,
            Level::Over => {}
        }
    }
    true
}

/// Whether a step has no later step in its cell.
pub fn is_last_in_cell(later: &[Step]) -> bool
    ensures { result ≡ last_in_cell true (levels_of later.now) }
{
    match later.first() {
        None => true,
        Some(step) => match level_of(step.kind) {
            Level::NewPlate => true,
            Level::NewStrip => true,
            Level::NewBand => true,
            Level::NewCell => true,
            Level::Over => false,
        },
    }
}
