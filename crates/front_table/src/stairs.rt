//! The ends of a row, from those of the rows at which one item more is taken.

ghost use Rattle.std.specs.Prelude.{◌≡◌, ℕ, ◌+◌, ◌<◌, ◌≤◌, Contains, IsTrue, IfOk, OnOk, length};
ghost use Rattle.front_table.specs.Ends.{Ended, EndsBehind, EndsFrom, Falls, LinksBelow};
ghost use Rattle.front_table.specs.Lattice.{links_at};
ghost use Rattle.front_table.specs.Levels.{Gathered, ends_at, to_go_at};

use crate::ends::{End, falls, shift_of, step_of};
use crate::fronts::Fronts;
use crate::halt::Halt;
use crate::levels::ends_of;
use crate::rows::{area_left, links_of};
use std::alloc::Global;

/// Whether the last of the ends serves as well as this one.
fn is_served(ends: &[End], end: &End) -> bool
    ensures { IsTrue result → Ended ends.now end.now.area end.now.to_go }
{
    let len = ends.len();
    if len == 0 {
        return false;
    }
    let last = ends[len - 1];
    if last.area > end.area {
        return false;
    }
    if last.to_go > end.to_go {
        return false;
    }
    true
}

/// Appends an end.
fn append_end(ends: &mut Vec<End>, end: &End) -> Result<(), Halt>
    ensures kept { OnOk result ((a t : ℕ) → Ended ends.old.items a t → Ended ends.new.items a t) }
    ensures new { OnOk result (Ended ends.new.items end.now.area end.now.to_go) }
{
    ends.push(*end)?;
    Ok(())
}

/// A number, or the greatest that has room where that is less: an end that serves for more than it has to is no mistake.
fn narrow(number: u64) -> u32
    ensures { result ≤ number }
{
    number.min(u64::from(u32::MAX)) as u32
}

/// Takes the last of the ends away and appends one that serves for it and for this one.
fn merge_end(ends: &mut Vec<End>, end: &End) -> Result<(), Halt>
    ensures kept { OnOk result ((a t : ℕ) → Ended ends.old.items a t → Ended ends.new.items a t) }
    ensures new { OnOk result (Ended ends.new.items end.now.area end.now.to_go) }
{
    let Some(last) = ends.pop() else {
        append_end(ends, end)?;
        return Ok(());
    };
    let both = End {
        area: last.area.min(end.area),
        to_go: last.to_go.min(end.to_go),
    };
    append_end(ends, &both)?;
    Ok(())
}

/// Appends ends for the steps before this one that have none, from which as much is to go as from the last of them: so the end of each step is found by its place.
fn fill_steps(ends: &mut Vec<End>, step: usize, shift: u32) -> Result<(), Halt>
    ensures { OnOk result ((a t : ℕ) → Ended ends.old.items a t → Ended ends.new.items a t) }
{
    let to_go = match ends.as_slice().last() {
        Some(last) => last.to_go,
        None => u32::MAX,
    };
    for at in ends.len()..step {
        let filled = End {
            area: narrow((at as u64).wrapping_shl(shift)),
            to_go,
        };
        append_end(ends, &filled)?;
    }
    Ok(())
}

/// Appends an end, unless the last one serves as well. Steps are 2^`shift` mm² wide, and each has one end, with the least area before it of those that lie in it.
fn push_end(ends: &mut Vec<End>, end: &End, shift: u32) -> Result<(), Halt>
    ensures kept { OnOk result ((a t : ℕ) → Ended ends.old.items a t → Ended ends.new.items a t) }
    ensures new { OnOk result (Ended ends.new.items end.now.area end.now.to_go) }
{
    if is_served(ends.as_slice(), end) {
        return Ok(());
    }
    let step = step_of(u64::from(end.area), shift);
    if step < ends.len() {
        merge_end(ends, end)?;
        return Ok(());
    }
    fill_steps(ends, step, shift)?;
    append_end(ends, end)
}

/// Appends those of the ends that the ones before them do not serve for.
fn push_ends(stairs: &mut Vec<End>, ends: &[End], shift: u32) -> Result<(), Halt>
    ensures kept { OnOk result ((a t : ℕ) → Ended stairs.old.items a t
        → Ended stairs.new.items a t) }
    ensures new { OnOk result ((a t : ℕ) → Ended ends.now a t → Ended stairs.new.items a t) }
{
    for end in ends {
        push_end(stairs, end, shift)?;
    }
    Ok(())
}

/// Appends an end with more area before it, where that is not too much.
fn append_behind(all: &mut Vec<End>, end: &End, area: u64, most: u64) -> Result<(), Halt>
    ensures kept { OnOk result ((a t : ℕ) → Ended all.old.items a t → Ended all.new.items a t) }
    ensures new { OnOk result (end.now.area + area ≤ most
        → Ended all.new.items (end.now.area + area) end.now.to_go) }
{
    let Some(sum) = u64::from(end.area).checked_add(area) else {
        return Ok(());
    };
    if sum > most {
        return Ok(());
    }
    let behind = End {
        area: narrow(sum),
        to_go: end.to_go,
    };
    append_end(all, &behind)?;
    Ok(())
}

/// Appends ends with more area before them, where that is not too much.
fn append_all_behind(all: &mut Vec<End>, ends: &[End], area: u64, most: u64) -> Result<(), Halt>
    ensures kept { OnOk result ((a t : ℕ) → Ended all.old.items a t → Ended all.new.items a t) }
    ensures new { OnOk result ((a t : ℕ) → Ended ends.now a t → a + area ≤ most
        → Ended all.new.items (a + area) t) }
{
    for end in ends {
        append_behind(all, end, area, most)?;
    }
    Ok(())
}

/// Appends the ends of a row at which one item more is taken, as seen from a row.
fn gather_from(all: &mut Vec<End>, fronts: &Fronts<'_>, row: usize, to: usize) -> Result<(), Halt>
    ensures kept { OnOk result ((a t : ℕ) → Ended all.old.items a t → Ended all.new.items a t) }
    ensures new { OnOk result (to < length fronts.now.levels.now → Gathered fronts.now.rows.now
        fronts.now.levels.now row fronts.now.cover all.new.items to) }
{
    if to >= fronts.levels.len() {
        return Ok(());
    }
    let area = area_left(fronts.rows, row).saturating_sub(area_left(fronts.rows, to));
    append_all_behind(all, ends_of(fronts.levels, to), area, fronts.cover)?;
    Ok(())
}

/// The ends of those rows at which one item more is taken, as seen from a row.
fn gather_ends(alloc: Global, fronts: &Fronts<'_>, row: usize) -> Result<Vec<End>, Halt>
    requires row { row < length fronts.now.rows.now }
    ensures { IfOk result (λ all. (to : ℕ) → Contains (links_at fronts.now.rows.now row) to
        → to < length fronts.now.levels.now → Gathered fronts.now.rows.now fronts.now.levels.now
        row fronts.now.cover all.items to) }
{
    let mut all = Vec::new(alloc);
    for to in links_of(fronts.rows, row) {
        gather_from(&mut all, fronts, row, *to as usize)?;
    }
    Ok(all)
}

/// A staircase of these ends.
fn staircase(alloc: Global, ends: &[End], shift: u32) -> Result<Vec<End>, Halt>
    ensures falls { IfOk result (λ stairs. Falls stairs.items) }
    ensures ends { IfOk result (λ stairs. (a t : ℕ) → Ended ends.now a t → Ended stairs.items a t) }
{
    let mut stairs = Vec::new(alloc);
    push_ends(&mut stairs, ends, shift)?;
    if !falls(stairs.as_slice()) {
        return Err(Halt::Limit);
    }
    Ok(stairs)
}

/// The ends of a row from which items lead to the first rows alone, at which at least one item is taken, with no more
/// area before them than a strip can have.
pub fn ends_behind(alloc: Global, fronts: &Fronts<'_>, row: usize) -> Result<Vec<End>, Halt>
    requires row { row < length fronts.now.rows.now }
    requires below { LinksBelow fronts.now.rows.now row (length fronts.now.levels.now) }
    requires ends { (n : ℕ) → n < length fronts.now.levels.now → EndsFrom fronts.now.instance.now
        fronts.now.rows.now fronts.now.cover (to_go_at fronts.now.levels.now) n
        (ends_at fronts.now.levels.now n) }
    ensures falls { IfOk result (λ stairs. Falls stairs.items) }
    ensures ends { IfOk result (λ stairs. EndsBehind fronts.now.instance.now fronts.now.rows.now
        fronts.now.cover (to_go_at fronts.now.levels.now) row stairs.items) }
{
    let mut all = gather_ends(alloc, fronts, row)?;
    all.sort_unstable_by_key(|end| end.area);
    let stairs = staircase(alloc, all.as_slice(), shift_of(fronts.cover))?;
    Ok(stairs)
}

/// The ends of a row with itself, from which this is to go; no more than `most` area is before them.
pub fn with_itself(alloc: Global, behind: &[End], to_go: u64, most: u64) -> Result<Vec<End>, Halt>
    ensures falls { IfOk result (λ stairs. Falls stairs.items) }
    ensures own { IfOk result (λ stairs. Ended stairs.items 0 to_go) }
    ensures ends { IfOk result (λ stairs. (a t : ℕ) → Ended behind.now a t
        → Ended stairs.items a t) }
{
    let mut stairs = Vec::new(alloc);
    let own = End {
        area: 0,
        to_go: narrow(to_go),
    };
    let shift = shift_of(most);
    push_end(&mut stairs, &own, shift)?;
    push_ends(&mut stairs, behind, shift)?;
    if !falls(stairs.as_slice()) {
        return Err(Halt::Limit);
    }
    // (a row keeps them for as long as there is a table)
    stairs.shrink_to_fit();
    Ok(stairs)
}
