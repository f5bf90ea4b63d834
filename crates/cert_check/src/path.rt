//! The path from the root of a tree of boxes to the box at hand.
ghost use Rattle.std.specs.Prelude.{◌≡◌, ◌<◌, ◌≤◌, [], ◌∷◌, length, map, reverse, not, false, slice_index_or, IfOk, OnOk, IsTrue};
ghost use Rattle.plan_box.specs.Decisions.{is_free};
ghost use Rattle.plan_box.specs.Halves.{lower_half, upper_half, half_at};
ghost use Rattle.plan_box.specs.Packed.{unpacked};
ghost use Rattle.plan_box.specs.Frames.{IsFrame};
ghost use Rattle.cert_check.specs.inner.Paths.{AreStored};
ghost use Rattle.plan_box.specs.Ranges.{span_of, full_ranges};
ghost use Rattle.plan_box.specs.Ranges.{root_of};
ghost use Rattle.cert_check.specs.inner.Paths.{beside, boxes_of, IsPathOf};

use cert_log::Node;
use glass_base::{Instance, Memory, Run, append};
use plan_box::{Frame, Packed, Var};
use std::alloc::Global;
use std::marker::Model;

/// A range that was replaced by one of its halves.
#[derive(Clone, Copy, Debug, PartialEq, Eq)]
pub struct Turn {
    step: u32,
    var: Var,
    /// The range before.
    low: u32,
    high: u32,
    /// The upper half is at hand, and the lower one is done.
    upper: bool,
}

/// The ranges of the box at hand, and what leads back to the root. It grows with the depth of the box alone.
#[derive(Drop)]
pub struct Path {
    frame: Frame,
    stored: Run<Packed>,
    turns: Run<Turn>,
    /// No box waits.
    ended: bool,
}

impl Model for Path {
    ghost use Rattle.std.specs.Prelude.{map};
    ghost use Rattle.plan_box.specs.Packed.{unpacked};
    ghost use Rattle.cert_check.specs.inner.Paths.{Trail, boxes_of, IsPathOf};

    ghost Value = { Trail };

    ghost view = { λ p. record { frame = p.frame; boxes = boxes_of p.ended (map unpacked p.stored.items) p.turns.items } };

    ghost invariant = { λ p. IsPathOf p.frame p.stored.items p.turns.items };
}

/// The full ranges of each step.
fn full(alloc: Global, frame: Frame) -> Result<Run<Packed>, Memory>
    requires { IsFrame frame }
    ensures stored { IfOk result (λ run. AreStored frame run.items) }
    ensures each_step { IfOk result (λ run. length run.items ≡ frame.items) }
    ensures ranges { IfOk result (λ run. map unpacked run.items ≡ (root_of frame 0).ranges) }
{
    let mut run = Run::new(alloc);
    for _ in 0..frame.items {
        append(&mut run, Packed::full(frame))?;
    }
    Ok(run)
}

/// Replaces the range of a variable of a step by this one.
fn replace(stored: &mut Run<Packed>, frame: Frame, step: u32, var: Var, range: (u32, u32))
    requires stored { AreStored frame stored.old.items }
    requires inside { step < length stored.old.items }
    requires order { range.0 ≤ range.1 }
    requires within { range.1 ≤ (span_of var (full_ranges frame)).high }
    ensures stored { AreStored frame stored.new.items }
    ensures each_step { length stored.new.items ≡ length stored.old.items }
    ensures ranges { map unpacked stored.new.items
        ≡ half_at (λ _. record { low = range.0; high = range.1 })
        (map unpacked stored.old.items) step var }
{
    let old = stored.as_slice()[step as usize];
    stored.set(step as usize, old.with(var, range.0, range.1));
}

/// Leads from a done box to the next one that waits, if one does.
fn back(stored: &mut Run<Packed>, turns: &mut Run<Turn>, frame: Frame) -> bool
    requires path { IsPathOf frame stored.old.items turns.old.items }
    ensures path { IsPathOf frame stored.new.items turns.new.items }
    ensures boxes { boxes_of (not result) (map unpacked stored.new.items) turns.new.items
        ≡ beside (map unpacked stored.old.items) (reverse turns.old.items) }
{
    while let Some(&turn) = turns.as_slice().last() {
        if !turn.upper {
            let middle = turn.low + (turn.high - turn.low) / 2;
            replace(stored, frame, turn.step, turn.var, (middle + 1, turn.high));
            let last = turns.len() - 1;
            turns.set(
                last,
                Turn {
                    upper: true,
                    ..turn
                },
            );
            return true;
        }
        replace(stored, frame, turn.step, turn.var, (turn.low, turn.high));
        turns.pop();
    }
    false
}

/// Leads from a box to its lower half.
fn enter(
    stored: &mut Run<Packed>,
    turns: &mut Run<Turn>,
    frame: Frame,
    step: u32,
    var: Var,
) -> Result<(), Memory>
    requires path { IsPathOf frame stored.old.items turns.old.items }
    requires free { IsTrue (is_free (map unpacked stored.old.items) step var) }
    requires wide { (span_of var (slice_index_or (map unpacked stored.old.items) step
        (full_ranges frame))).low < (span_of var
        (slice_index_or (map unpacked stored.old.items) step (full_ranges frame))).high }
    ensures path { IsPathOf frame stored.new.items turns.new.items }
    ensures boxes { OnOk result (boxes_of false (map unpacked stored.new.items) turns.new.items
        ≡ half_at lower_half (map unpacked stored.old.items) step var
        ∷ half_at upper_half (map unpacked stored.old.items) step var
        ∷ beside (map unpacked stored.old.items) (reverse turns.old.items)) }
{
    let (low, high) = stored.as_slice()[step as usize].range(var);
    append(
        turns,
        Turn {
            step,
            var,
            low,
            high,
            upper: false,
        },
    )?;
    replace(stored, frame, step, var, (low, low + (high - low) / 2));
    Ok(())
}

impl Path {
    ghost use Rattle.std.specs.Prelude.{◌≡◌, ◌≢◌, ◌∷◌, [], IfOk, OnOk, IsTrue, map, length};
    ghost use Rattle.plan_box.specs.Decisions.{is_free};
    ghost use Rattle.plan_box.specs.Halves.{lower_half, upper_half, half_at};
    ghost use Rattle.plan_box.specs.Packed.{unpacked};
    ghost use Rattle.cert_check.specs.inner.Paths.{AreStored};
    ghost use Rattle.plan_box.specs.Frames.{frame_of};
    ghost use Rattle.plan_box.specs.Ranges.{root_of};
    ghost use Rattle.cert_check.specs.inner.Paths.{top, below};
    ghost use Rattle.cert_check.specs.inner.Walks.{MayGo, boxes_after};

    /// The path to the root box, whose ranges are full.
    pub fn new(alloc: Global, instance: &Instance) -> Result<Path, Memory>
        ensures frame { IfOk result (λ p. p.frame ≡ frame_of instance.now) }
        ensures boxes { IfOk result (λ p. p.boxes ≡
            (root_of (frame_of instance.now) 0).ranges ∷ []) }
    {
        let frame = Frame::of(instance);
        Ok(Path {
            frame,
            stored: full(alloc, frame)?,
            turns: Run::new(alloc),
            ended: false,
        })
    }

    /// The ranges of the box at hand.
    pub fn stored(&self) -> &[Packed]
        requires { self.now.boxes ≢ [] }
        ensures ranges { map unpacked result.now ≡ top self.now.boxes }
        ensures stored { AreStored self.now.frame result.now }
        ensures each_step { length result.now ≡ self.now.frame.items }
    {
        let _ended = self.ended;
        self.stored.as_slice()
    }

    /// Splits the box at hand. Its lower half is at hand then, and its upper half waits first.
    pub fn split(&mut self, step: u32, var: Var) -> Result<(), Memory>
        requires waits { self.old.boxes ≢ [] }
        requires free { IsTrue (is_free (top self.old.boxes) step var) }
        ensures frame { self.new.frame ≡ self.old.frame }
        ensures boxes { OnOk result (self.new.boxes
            ≡ half_at lower_half (top self.old.boxes) step var
            ∷ half_at upper_half (top self.old.boxes) step var ∷ below self.old.boxes) }
    {
        enter(&mut self.stored, &mut self.turns, self.frame, step, var)
    }

    /// Leaves the box at hand. The next one that waits is at hand then.
    pub fn leave(&mut self)
        requires waits { self.old.boxes ≢ [] }
        ensures frame { self.new.frame ≡ self.old.frame }
        ensures boxes { self.new.boxes ≡ below self.old.boxes }
    {
        self.ended = !back(&mut self.stored, &mut self.turns, self.frame);
    }

    /// Goes on behind a node that stands at the box at hand.
    pub fn pass(&mut self, node: Node) -> Result<(), Memory>
        requires waits { self.old.boxes ≢ [] }
        requires may_go { MayGo (top self.old.boxes) node }
        ensures frame { self.new.frame ≡ self.old.frame }
        ensures boxes { OnOk result (self.new.boxes
            ≡ boxes_after node (top self.old.boxes) (below self.old.boxes)) }
    {
        match node {
            Node::Split { step, var } => self.split(step, var),
            Node::Closed(_) | Node::Left => {
                self.leave();
                Ok(())
            }
        }
    }
}
