//! Boxes: a range for each number of each step of a trace.

ghost use Rattle.std.specs.Prelude.{◌≡◌, ◌==◌, cond, false, ◌<◌, ◌≤◌, ◌+◌, ◌++◌, length, map, not, position, slice_index_or};
ghost use Rattle.plan_box.specs.Decisions.{decided as decided_of};
ghost use Rattle.plan_box.specs.Halves.{half_at};
ghost use Rattle.plan_box.specs.Packed.{unpacked};
ghost use Rattle.plan_box.specs.inner.Stored.{AreStored};
ghost use Rattle.plan_box.specs.Packed.{all_ranges};
ghost use Rattle.plan_box.specs.Ranges.{full_ranges, span_of};

use crate::blank::Blank;
use crate::frame::Frame;
use crate::packed::Packed;
use crate::room::Room;
use crate::var::Var;
use glass_base::{Instance, Memory, Run};
use std::alloc::Global;
use std::marker::Model;

/// A box: the traces of a frame's items whose numbers lie in its ranges. Steps behind the stored ones have full ranges.
#[derive(Drop)]
pub struct PlanBox {
    id: u64,
    frame: Frame,
    stored: Run<Packed>,
}

impl Model for PlanBox {
    ghost use Rattle.plan_box.specs.Ranges.{PlainBox};
    ghost use Rattle.plan_box.specs.inner.Stored.{box_of, AreStored};

    ghost Value = { PlainBox };

    ghost view = { λ x. box_of x.id x.frame x.stored.items };

    ghost invariant = { λ x. AreStored x.frame x.stored.items };
}

/// How many steps are decided of which these are stored: all but the last one, and that one too where its stack, turn, kind and
/// lift are known.
fn decided_of_stored(stored: &[Packed]) -> usize
    requires { length stored.now ≤ length (decided_of (map unpacked stored.now)) + 1 }
    ensures { result ≡ length (decided_of (map unpacked stored.now)) }
{
    match stored.split_last() {
        Some((last, before)) => {
            if last.is_drawn() {
                stored.len()
            } else {
                before.len()
            }
        }
        None => 0,
    }
}

/// Whether a range has more than one number, and a condition holds.
fn is_wide(ends: (u32, u32), condition: bool) -> bool
    ensures { result ≡ cond (ends.0 == ends.1) false condition }
{
    ends.0 != ends.1 && condition
}

/// These stored ranges in other memory, with the full ones of the next step where that one is not stored.
fn copied(stored: &[Packed], frame: Frame, step: u32, memory: Blank) -> Run<Packed>
    requires stored { AreStored frame stored.now }
    requires reached { step ≤ length (decided_of (map unpacked stored.now)) }
    requires inside { step < frame.items }
    requires room { length (decided_of (map unpacked stored.now)) < memory }
    ensures stored { AreStored frame result.items }
    ensures longer { step < length result.items }
    ensures ranges { all_ranges frame (map unpacked result.items)
        ≡ all_ranges frame (map unpacked stored.now) }
{
    let mut ranges = memory.list();
    ranges.put_all(stored);
    if stored.len() == step as usize {
        ranges.put(Packed::full(frame));
        return ranges;
    }
    ranges
}

/// Stored ranges which reach a step, with the memory that is left: these ranges where they do, else those in the other memory, with the
/// full ones of the step.
fn reaching(stored: Run<Packed>, frame: Frame, step: u32, memory: Blank) -> (Run<Packed>, Blank)
    requires stored { AreStored frame stored.items }
    requires reached { step ≤ length (decided_of (map unpacked stored.items)) }
    requires inside { step < frame.items }
    requires room { length (decided_of (map unpacked stored.items)) < memory }
    ensures stored { AreStored frame result.0.items }
    ensures longer { step < length result.0.items }
    ensures ranges { all_ranges frame (map unpacked result.0.items)
        ≡ all_ranges frame (map unpacked stored.items) }
{
    if (step as usize) < stored.len() {
        return (stored, memory);
    }
    let longer = copied(stored.as_slice(), frame, step, memory);
    (longer, Blank::of(stored))
}

/// Stored ranges with another range for a variable of a stored step, which lies in the old one.
fn narrowed(
    stored: Run<Packed>,
    frame: Frame,
    step: u32,
    var: Var,
    range: (u32, u32),
) -> Run<Packed>
    requires stored { AreStored frame stored.items }
    requires inside { step < length stored.items }
    requires order { range.0 ≤ range.1 }
    requires from { (span_of var (slice_index_or (all_ranges frame (map unpacked stored.items)) step
        (full_ranges frame))).low ≤ range.0 }
    requires within { range.1 ≤ (span_of var (slice_index_or
        (all_ranges frame (map unpacked stored.items)) step (full_ranges frame))).high }
    ensures stored { AreStored frame result.items }
    ensures ranges { all_ranges frame (map unpacked result.items)
        ≡ half_at (λ _. record { low = range.0; high = range.1 })
        (all_ranges frame (map unpacked stored.items)) step var }
{
    let mut ranges = stored;
    let old = ranges.as_slice()[step as usize];
    ranges.set(step as usize, old.with(var, range.0, range.1));
    ranges
}

impl PlanBox {
    ghost use Rattle.std.specs.Prelude.{◌≡◌, ◌<◌, ◌≤◌, ◌↔◌, IfOk, IfErr, IsTrue, OnOk, map, slice_index_or, length};
    ghost use Rattle.plan_box.specs.Decisions.{all_decided, decided as decided_of, is_free, IsPoint};
    ghost use Rattle.plan_box.specs.inner.Openings.{is_open as is_open_of};
    ghost use Rattle.plan_box.specs.Halves.{lower_half, upper_half, child_of};
    ghost use Rattle.plan_box.specs.Packed.{unpacked};
    ghost use Rattle.plan_box.specs.Ranges.{PlainBox, IsBox, full_ranges, root_of, span_of};
    ghost use Rattle.plan_box.specs.Packed.{all_ranges};
    ghost use Rattle.plan_box.specs.Frames.{frame_of, IsFrame};

    /// The box of an instance in which every range is full.
    pub fn root(alloc: Global, instance: &Instance, id: u64) -> Result<PlanBox, Memory>
        ensures { IfOk result (λ x. x ≡ root_of (frame_of instance.now) id) }
    {
        Ok(PlanBox {
            id,
            frame: Frame::of(instance),
            stored: Run::new(alloc),
        })
    }

    /// The box of a frame in which every range is full. The frame must be one that an instance can have. It takes no memory.
    pub fn of_frame(alloc: Global, frame: Frame, id: u64) -> PlanBox
        requires { IsFrame frame }
        ensures { result ≡ root_of frame id }
    {
        PlanBox {
            id,
            frame,
            stored: Run::new(alloc),
        }
    }

    pub fn id(&self) -> u64
        ensures { result ≡ self.now.id }
    {
        self.id
    }

    /// This box with another identity. It takes no memory.
    pub fn with_id(self, id: u64) -> PlanBox
        ensures { result ≡ record self { id = id } }
    {
        PlanBox {
            id,
            frame: self.frame,
            stored: self.stored,
        }
    }

    /// The frame, by which the full ranges and the number of items go.
    pub fn frame(&self) -> Frame
        ensures value { result ≡ self.now.frame }
        ensures rules { IsBox self.now }
    {
        self.frame
    }

    /// The least and the greatest number of a variable at a step; full behind the last step.
    pub fn range(&self, step: u32, var: Var) -> (u32, u32)
        ensures low { result.0 ≡ (span_of var (slice_index_or self.now.ranges step
            (full_ranges self.now.frame))).low }
        ensures high { result.1 ≡ (span_of var (slice_index_or self.now.ranges step
            (full_ranges self.now.frame))).high }
    {
        match self.stored.get(step as usize) {
            Some(packed) => packed.range(var),
            None => self.frame.full(var),
        }
    }

    /// The ranges that are stored, those of the first steps. The other steps have full ranges.
    pub fn stored(&self) -> &[Packed]
        ensures { all_ranges self.now.frame (map unpacked result.now) ≡ self.now.ranges }
    {
        self.stored.as_slice()
    }

    /// How many steps are decided: those from the first on whose stack, turn, kind and lift are known.
    pub fn decided(&self) -> u32
        ensures { result ≡ length (decided_of self.now.ranges) }
    {
        decided_of_stored(self.stored.as_slice()) as u32
    }

    /// Whether all steps are decided.
    pub fn is_decided(&self) -> bool
        ensures { result ≡ all_decided self.now.ranges }
    {
        self.decided() == self.frame.items
    }

    /// Whether a variable can be split: its range has more than one number, and it is one of those that a decided step opens, or
    /// a discrete number of the first undecided step.
    pub fn free(&self, step: u32, var: Var) -> bool
        ensures { result ≡ is_free self.now.ranges step var }
    {
        let decided = self.decided();
        if step >= self.frame.items {
            return false;
        }
        if step > decided {
            return false;
        }
        let ends = self.range(step, var);
        if step == decided {
            return is_wide(ends, var.is_discrete());
        }
        let kind = self.range(step, Var::Kind);
        is_wide(ends, var.is_opened(step, kind.0))
    }

    /// Whether some variable of a step can be split.
    fn is_open(&self, step: u32) -> bool
        ensures { result ≡ is_open_of self.now.ranges step }
    {
        self.free(step, Var::Stack)
            || self.free(step, Var::Turn)
            || self.free(step, Var::Kind)
            || self.free(step, Var::Lift)
            || self.free(step, Var::A)
            || self.free(step, Var::B)
            || self.free(step, Var::C)
            || self.free(step, Var::D)
            || self.free(step, Var::E)
    }

    /// Whether no variable can be split.
    pub fn is_point(&self) -> bool
        ensures { IsTrue result ↔ IsPoint self.now.ranges }
    {
        if self.decided() < self.frame.items {
            return false;
        }
        for step in 0..self.frame.items {
            if self.is_open(step) {
                return false;
            }
        }
        true
    }

    /// Memory for the two halves of this box, and for those of any other one of its frame.
    pub fn room(&self, alloc: Global) -> Result<Room, Memory>
        ensures { IfOk result (λ room. room ≡ self.now.frame) }
    {
        Room::new(alloc, self.frame)
    }

    /// Takes memory for a half of this box, where this is not enough yet.
    pub fn reserve_half(&self, memory: &mut Blank) -> Result<(), Memory>
        ensures { OnOk result (length (decided_of self.now.ranges) < memory.new) }
    {
        memory.reserve(self.stored.len() + 1)?;
        Ok(())
    }

    /// Memory for the two halves of this box.
    fn memory(&self, alloc: Global) -> Result<(Blank, Blank), Memory>
        ensures lower { IfOk result (λ memory. length (decided_of self.now.ranges) < memory.0) }
        ensures upper { IfOk result (λ memory. length (decided_of self.now.ranges) < memory.1) }
    {
        let mut lower = Blank::new(alloc);
        let mut upper = Blank::new(alloc);
        self.reserve_half(&mut lower)?;
        self.reserve_half(&mut upper)?;
        Ok((lower, upper))
    }

    /// The memory of this box, which is no longer wanted.
    pub fn into_blank(self) -> Blank {
        Blank::of(self.stored)
    }

    /// A copy of this box with another range for a variable, which lies in the old one.
    fn child(&self, step: u32, var: Var, id: u64, range: (u32, u32), memory: Blank) -> PlanBox
        requires reached { step ≤ length (decided_of self.now.ranges) }
        requires inside { step < self.now.frame.items }
        requires order { range.0 ≤ range.1 }
        requires from { (span_of var (slice_index_or self.now.ranges step
            (full_ranges self.now.frame))).low ≤ range.0 }
        requires within { range.1 ≤ (span_of var (slice_index_or self.now.ranges step
            (full_ranges self.now.frame))).high }
        requires room { length (decided_of self.now.ranges) < memory }
        ensures { result ≡ child_of (λ _. record { low = range.0; high = range.1 })
            self.now step var id }
    {
        let reached = copied(self.stored.as_slice(), self.frame, step, memory);
        PlanBox {
            id,
            frame: self.frame,
            stored: narrowed(reached, self.frame, step, var, range),
        }
    }

    /// This box with another range for a variable, which lies in the old one, and the memory that is left: its own stays with it where the
    /// step is stored.
    fn into_child(
        self,
        step: u32,
        var: Var,
        id: u64,
        range: (u32, u32),
        memory: Blank,
    ) -> (PlanBox, Blank)
        requires reached { step ≤ length (decided_of self.ranges) }
        requires inside { step < self.frame.items }
        requires order { range.0 ≤ range.1 }
        requires from { (span_of var (slice_index_or self.ranges step
            (full_ranges self.frame))).low ≤ range.0 }
        requires within { range.1 ≤ (span_of var (slice_index_or self.ranges step
            (full_ranges self.frame))).high }
        requires room { length (decided_of self.ranges) < memory }
        ensures { result.0 ≡ child_of (λ _. record { low = range.0; high = range.1 })
            self step var id }
    {
        let frame = self.frame;
        let (reached, left) = reaching(self.stored, frame, step, memory);
        let child = PlanBox {
            id,
            frame,
            stored: narrowed(reached, frame, step, var, range),
        };
        (child, left)
    }

    /// The range of a free variable.
    fn open_range(&self, step: u32, var: Var) -> (u32, u32)
        requires { IsTrue (is_free self.now.ranges step var) }
        ensures reached { step ≤ length (decided_of self.now.ranges) }
        ensures inside { step < self.now.frame.items }
        ensures low { result.0 ≡ (span_of var (slice_index_or self.now.ranges step
            (full_ranges self.now.frame))).low }
        ensures high { result.1 ≡ (span_of var (slice_index_or self.now.ranges step
            (full_ranges self.now.frame))).high }
        ensures wide { result.0 < result.1 }
    {
        let _ = &self.stored;
        self.range(step, var)
    }

    /// The halves of this box at a free variable, with these identities, in the memory that `reserve_half` took, the lower and the upper half
    /// in that order; and the memory that is left of it and of this box's own.
    pub fn split_over(
        self,
        _instance: &Instance,
        step: u32,
        var: Var,
        ids: (u64, u64),
        memory: (Blank, Blank),
    ) -> (PlanBox, PlanBox, Blank)
        requires instance { self.frame ≡ frame_of _instance.now }
        requires free { IsTrue (is_free self.ranges step var) }
        requires room { (length (decided_of self.ranges) < memory.0)
            × (length (decided_of self.ranges) < memory.1) }
        ensures lower { result.0 ≡ child_of lower_half self step var ids.0 }
        ensures upper { result.1 ≡ child_of upper_half self step var ids.1 }
    {
        let (low, high) = self.open_range(step, var);
        let middle = low + (high - low) / 2;
        let upper = self.child(step, var, ids.1, (middle + 1, high), memory.1);
        let (lower, left) = self.into_child(step, var, ids.0, (low, middle), memory.0);
        (lower, upper, left)
    }

    /// The halves of this box at a free variable, with these identities.
    pub fn split_in(
        self,
        instance: &Instance,
        step: u32,
        var: Var,
        ids: (u64, u64),
        room: Room,
    ) -> (PlanBox, PlanBox)
        requires instance { self.frame ≡ frame_of instance.now }
        requires free { IsTrue (is_free self.ranges step var) }
        requires room { room ≡ self.frame }
        ensures lower { result.0 ≡ child_of lower_half self step var ids.0 }
        ensures upper { result.1 ≡ child_of upper_half self step var ids.1 }
    {
        let _ = &self.stored;
        let (lower, upper, _) = self.split_over(instance, step, var, ids, room.blanks());
        (lower, upper)
    }

    /// The halves of this box at a free variable, with these identities, or the box itself where memory runs out.
    pub fn split(
        self,
        alloc: Global,
        instance: &Instance,
        step: u32,
        var: Var,
        ids: (u64, u64),
    ) -> Result<(PlanBox, PlanBox), (PlanBox, Memory)>
        requires instance { self.frame ≡ frame_of instance.now }
        requires free { IsTrue (is_free self.ranges step var) }
        ensures lower { IfOk result (λ halves. halves.0 ≡ child_of lower_half self step var ids.0) }
        ensures upper { IfOk result (λ halves. halves.1 ≡ child_of upper_half self step var ids.1) }
        ensures unchanged { IfErr result (λ refused. refused.0 ≡ self) }
    {
        match self.memory(alloc) {
            Ok(memory) => {
                let (lower, upper, _) = self.split_over(instance, step, var, ids, memory);
                Ok((lower, upper))
            }
            Err(refused) => Err((self, refused)),
        }
    }
}
