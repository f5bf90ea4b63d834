//! The decided steps of the box that was handled last, with their least values.

ghost use Rattle.std.specs.Prelude.{◌≡◌, IfOk, length};

use crate::filling::{decided_ranges, refill};
use crate::kept::Kept;
use crate::seen::look;
use defect_map::{DefectMap, Ground};
use glass_base::{Instance, Memory, Run};
use plan_box::{BoxGround, PlanBox, Reason, Var};
use std::alloc::Global;
use std::marker::Model;

/// The decided steps of a box with their ranges and least values. It has room for a step for each item of one instance.
#[derive(Drop)]
pub struct Leasts {
    /// The area of all items.
    total: u64,
    /// How many steps are kept. What stands behind them is of no meaning.
    count: usize,
    steps: Run<Kept>,
    /// For each kept step the first reason that is a fact at it or at one before it.
    seen: Run<Option<Reason>>,
    /// The defects that those reasons are by.
    map: DefectMap,
}

impl Model for Leasts {
    ghost use Rattle.std.specs.Prelude.{◌≡◌, ◌≤◌, length, take};
    ghost use Rattle.box_bound.specs.Leastings.{Leastings};

    ghost Value = { Leastings };

    ghost view = { λ l. record { total = l.total; steps = take l.count l.steps.items; seen = take l.count l.seen.items; places = length l.steps.items; defects = l.map } };

    ghost invariant = { λ l. (l.count ≤ length l.steps.items) × (length l.seen.items ≡ length l.steps.items) };
}

/// A list with a place for each item.
fn places(alloc: Global, instance: &Instance, blank: Kept) -> Result<Run<Kept>, Memory>
    ensures { IfOk result (λ run. length run.items ≡ length instance.now.items) }
{
    let mut steps = Run::new(alloc);
    let count = instance.items().len();
    steps.reserve(count)?;
    for _ in 0..count {
        steps.put(blank);
    }
    Ok(steps)
}

/// A place for a reason for each item.
fn no_reasons(alloc: Global, instance: &Instance) -> Result<Run<Option<Reason>>, Memory>
    ensures { IfOk result (λ run. length run.items ≡ length instance.now.items) }
{
    let mut reasons = Run::new(alloc);
    let count = instance.items().len();
    reasons.reserve(count)?;
    for _ in 0..count {
        reasons.put(None);
    }
    Ok(reasons)
}

impl Leasts {
    ghost use Rattle.std.specs.Prelude.{◌≡◌, ◌-◌, ◌<◌, ◌≤◌, IfOk, None, [], length, slice_index_or};
    ghost use Rattle.plan_box.specs.Frames.{frame_of};
    ghost use Rattle.std.specs.Prelude.{false};
    ghost use Rattle.plan_box.specs.Decisions.{is_discrete};
    ghost use Rattle.box_bound.specs.Kept.{blank, late};
    ghost use Rattle.box_bound.specs.Leastings.{IsFor, IsOf, least_of};
    ghost use Rattle.box_bound.specs.Spans.{span_at};

    /// Of this instance, with no step.
    pub fn new(alloc: Global, instance: &Instance) -> Result<Leasts, Memory>
        ensures of_instance { IfOk result (λ v. IsOf instance.now v) }
        ensures empty { IfOk result (λ v. v.steps ≡ []) }
    {
        let blank = Kept::before_all(instance);
        let map = DefectMap::new(alloc, instance)?;
        let seen = no_reasons(alloc, instance)?;
        let steps = places(alloc, instance, blank)?;
        Ok(Leasts {
            total: instance.area(),
            count: 0,
            steps,
            seen,
            map,
        })
    }

    /// Keeps the decided steps of this box. Their least values are computed anew from the first step on that differs.
    pub fn fill(&mut self, instance: &Instance, bx: &PlanBox)
        requires instance { bx.now.frame ≡ frame_of instance.now }
        requires of_instance { IsOf instance.now self.old }
        ensures { IsFor instance.now bx.now self.new }
    {
        let _items = instance.items();
        let _frame = bx.frame();
        let ranges = decided_ranges(instance, bx);
        let whole = ranges.len() == instance.items().len();
        let start = refill(instance, &mut self.steps, self.count, ranges);
        self.count = ranges.len();
        let asked = BoxGround {
            ground: Ground {
                instance,
                map: &self.map,
            },
            whole,
        };
        look(
            asked,
            &self.steps.as_slice()[..ranges.len()],
            ranges,
            start,
            &mut self.seen,
        );
    }

    /// The first reason that is a fact at a kept step, if one is.
    pub(crate) fn seen(&self) -> Option<Reason>
        ensures none { length self.now.steps ≡ 0 → result ≡ None }
        ensures some { 1 ≤ length self.now.steps → result
            ≡ slice_index_or self.now.seen (length self.now.steps - 1) None }
    {
        if self.count == 0 {
            return None;
        }
        self.seen.as_slice()[self.count - 1]
    }

    /// The kept steps.
    pub(crate) fn kept(&self) -> &[Kept]
        ensures { result.now ≡ self.now.steps }
    {
        &self.steps.as_slice()[..self.count]
    }

    /// The area of all items.
    pub(crate) fn total(&self) -> u64
        ensures { result ≡ self.now.total }
    {
        self.total
    }

    /// How many steps are kept.
    pub fn len(&self) -> usize
        ensures { result ≡ length self.now.steps }
    {
        self.count
    }

    /// How many numbers a cut can be from its least value to its high end; 0 where it can be nowhere, or the step is not kept.
    pub(crate) fn span(&self, step: u32, var: Var) -> u32
        ensures { result ≡ span_at self.now step var }
    {
        let Some(kept) = self.kept().get(step as usize) else {
            return 0;
        };
        let ends = &kept.ends;
        let (least, high) = match var {
            Var::A => (ends.least_a, ends.high_a),
            Var::B => (ends.least_b, ends.high_b),
            Var::C => (ends.least_c, ends.high_c),
            Var::D => (ends.least_d, ends.high_d),
            Var::E => (ends.least_e, ends.high_e),
            _ => return 0,
        };
        high.saturating_add(1).saturating_sub(least)
    }

    /// The least value of a cut of a kept step.
    pub fn least(&self, step: u32, var: Var) -> u32
        requires step { step < length self.now.steps }
        requires var { is_discrete var ≡ false }
        ensures { result ≡ least_of var (late (slice_index_or self.now.steps step blank)) }
    {
        let ends = self.kept()[step as usize].ends;
        match var {
            Var::A => ends.least_a,
            Var::B => ends.least_b,
            Var::C => ends.least_c,
            Var::D => ends.least_d,
            Var::E => ends.least_e,
            Var::Stack | Var::Turn | Var::Kind | Var::Lift => 0,
        }
    }
}
