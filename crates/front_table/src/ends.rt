//! Where strips can end: staircases of the area before an end and of what is to go from there.

ghost use Rattle.std.specs.Prelude.{◌≡◌, ℕ, ◌+◌, ◌-◌, ◌<◌, ◌≤◌, Contains, IsTrue, IfNone, IfSome, IfOk, OnOk, length, ◌⊎◌};
ghost use Rattle.front_table.specs.declared.ends.End.{End as EndOf};
ghost use Rattle.front_table.specs.Ends.{Ended, Falls, area_of, to_go_of};

use crate::halt::Halt;
use std::alloc::Global;

/// A front that a strip can end at, seen from an earlier one.
#[derive(Clone, Copy)]
pub struct End {
    /// No more than the area of the items between the two, in mm².
    pub area: u32,
    /// No more than the least width of strips from there to the last front, in mm.
    pub to_go: u32,
}

/// The area before the end at this place.
fn area_in(ends: &[End], at: usize) -> u64
    requires { at < length ends.now }
    ensures { result ≡ area_of ends.now at }
{
    u64::from(ends[at].area)
}

/// What is to go from the end at this place.
fn to_go_in(ends: &[End], at: usize) -> u64
    requires { at < length ends.now }
    ensures { result ≡ to_go_of ends.now at }
{
    u64::from(ends[at].to_go)
}

/// Halves the places of which it is not known whether more is to go from there than this.
fn halve_within(ends: &[End], low: usize, high: usize, within: u64) -> (usize, usize)
    requires some { low < high }
    requires bound { high ≤ length ends.now }
    requires falls { Falls ends.now }
    ensures bound { result.1 ≤ length ends.now }
    ensures below { (i : ℕ) → i < result.0 → (i < low) ⊎ (within < to_go_of ends.now i) }
{
    let middle = low + (high - low) / 2;
    if to_go_in(ends, middle) > within {
        (middle + 1, high)
    } else {
        (low, middle)
    }
}

/// A place before which more is to go from each end than this.
fn first_within(ends: &[End], within: u64) -> usize
    requires { Falls ends.now }
    ensures { (i : ℕ) → i < result → within < to_go_of ends.now i }
{
    let mut low = 0;
    let mut high = ends.len();
    for _ in 0..64 {
        if low >= high {
            break;
        }
        let halves = halve_within(ends, low, high, within);
        low = halves.0;
        high = halves.1;
    }
    low
}

/// The least area before an end from which no more than this is to go.
pub fn near(ends: &[End], within: u64) -> Option<u64>
    requires { Falls ends.now }
    ensures none { IfNone result ((area to_go : ℕ) → Ended ends.now area to_go → within < to_go) }
    ensures least { IfSome result (λ least. (area to_go : ℕ) → Ended ends.now area to_go
        → to_go ≤ within → least ≤ area) }
{
    let low = first_within(ends, within);
    if low < ends.len() {
        Some(area_in(ends, low))
    } else {
        None
    }
}

/// How wide steps are that ends stand in, as a power of 2 in mm², where no more than this area is before them: there are less than 128.
pub fn shift_of(most: u64) -> u32
    ensures { result ≤ 57 }
{
    (64 - most.leading_zeros()).saturating_sub(7)
}

/// The step that an area lies in, where each is 2^`shift` mm² wide.
pub fn step_of(area: u64, shift: u32) -> usize
    ensures { result ≤ area }
{
    area.wrapping_shr(shift) as usize
}

/// Whether the ends with more before them have less to go.
pub fn falls(ends: &[End]) -> bool
    ensures { IsTrue result → Falls ends.now }
{
    for at in 1..ends.len() {
        if area_in(ends, at - 1) > area_in(ends, at) {
            return false;
        }
        if to_go_in(ends, at) > to_go_in(ends, at - 1) {
            return false;
        }
    }
    true
}
