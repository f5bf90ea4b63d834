//! Labels: what a run of cells, or of bands, can become.

ghost use Rattle.std.specs.Prelude.{◌≡◌, ℕ, ◌+◌, ◌<◌, ◌≤◌, ◌⊎◌, length, IsTrue, OnOk};
ghost use Rattle.front_table.specs.Sets.{Fits, Held, HeldTo, Keeps, Stands};

use crate::halt::Halt;
use crate::sets::SizeSet;

/// The sizes that pieces which lie one behind the other can have: along the direction in which they follow each other, and across it, where they share
/// one size. Cells of a band follow each other along x and share a height; bands of a strip follow each other along y and share a width.
#[derive(Clone, Copy)]
pub struct FrontLabel {
    pub along: SizeSet,
    pub across: SizeSet,
    /// Around defects: where on the plate what comes next to the right can begin, and how far up they reach at least, in
    /// mm. Elsewhere all sizes, and 0.
    pub right: SizeSet,
    pub up: u32,
}

impl FrontLabel {
    /// Whether it stands for all that the other stands for.
    pub fn covers(&self, other: &FrontLabel) -> bool
        ensures { IsTrue result → (x y right up : ℕ) → Stands other.now x y right up
            → Stands self.now x y right up }
    {
        if self.up > other.up {
            return false;
        }
        if !self.along.covers(&other.along) {
            return false;
        }
        if !self.across.covers(&other.across) {
            return false;
        }
        self.right.covers(&other.right)
    }
}

/// Takes the label at this place away where this one covers it; the last one then stands there.
fn drop_covered(labels: &mut Vec<FrontLabel>, at: usize, label: &FrontLabel)
    requires { at < length labels.old.items }
    ensures held { (x y right up : ℕ) → HeldTo labels.old.items x y right up
        → HeldTo labels.new.items x y right up ⊎ Stands label.now x y right up }
    ensures len { length labels.old.items ≤ length labels.new.items + 1 }
{
    if label.covers(&labels[at]) {
        labels.swap_remove(at);
    }
}

/// Takes those labels away that this one covers.
fn thin(labels: &mut Vec<FrontLabel>, label: &FrontLabel)
    ensures { (x y right up : ℕ) → HeldTo labels.old.items x y right up
        → HeldTo labels.new.items x y right up ⊎ Stands label.now x y right up }
{
    let all = labels.len();
    for done in 0..all {
        drop_covered(labels, all - 1 - done, label);
    }
}

/// Whether one of the labels covers this one.
fn is_covered(labels: &[FrontLabel], label: &FrontLabel) -> bool
    ensures { IsTrue result → (x y right up : ℕ) → Stands label.now x y right up
        → HeldTo labels.now x y right up }
{
    for held in labels {
        if held.covers(label) {
            return true;
        }
    }
    false
}

/// Adds a label to a list, unless one that is there covers it; those that it covers go.
pub fn offer(labels: &mut Vec<FrontLabel>, label: &FrontLabel) -> Result<(), Halt>
    ensures kept { OnOk result (Keeps labels.old.items labels.new.items) }
    ensures stands { OnOk result ((x y right up : ℕ) → Stands label.now x y right up
        → HeldTo labels.new.items x y right up) }
    ensures held { OnOk result ((x y : ℕ) → Fits label.now x y → Held labels.new.items x y) }
{
    if is_covered(labels.as_slice(), label) {
        return Ok(());
    }
    thin(labels, label);
    labels.push(*label)?;
    Ok(())
}

/// Puts labels in the order of their least sizes along.
pub fn sort_by_least(labels: &mut Vec<FrontLabel>)
    ensures { Keeps labels.old.items labels.new.items }
{
    labels.sort_unstable_by_key(|label| label.along.least);
}

/// Puts right sides in the order of their plates, and on each from the left on. Of a list in which none covers another no
/// two are at the same place, so it is the same order wherever they came from.
pub fn sort_by_plate(labels: &mut Vec<FrontLabel>)
    ensures { Keeps labels.old.items labels.new.items }
{
    labels.sort_unstable_by_key(|label| (label.across.least, label.along.least));
}
