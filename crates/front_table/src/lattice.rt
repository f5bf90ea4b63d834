//! Whether a table of rows has a row for each front that items can be taken to, with each cell from there on.

ghost use Rattle.std.specs.Prelude.{◌≡◌, ℕ, ◌+◌, ◌*◌, ◌<◌, ◌≤◌, ◌↔◌, All, Contains, IsTrue, IfSome, Some, length};
ghost use Rattle.glass_base.specs.Problem.{item_at};
ghost use Rattle.plan_trace.specs.Marks.{item_height, item_width};
ghost use Rattle.front_course.specs.Cells.{Stands};
ghost use Rattle.front_table.specs.Lattice.{AllPairsLed, AloneLed, HasLeft, IsLattice, IsLighter, IsLink, IsOneMore, IsRow, ItemLed, LedBy, PairLed, PairsLed, StackLed, count_at, links_at, moves_at, weight_from};
ghost use Rattle.front_table.specs.Sets.{Fits, Has};

use crate::moves::Move;
use crate::rows::{FrontRow, area_left, count, links_of, moves_of};
use crate::sets::SizeSet;
use glass_base::{Instance, Item};

/// The item that comes next off a stack.
pub fn due(instance: &Instance, rows: &[FrontRow], row: usize, stack: u32) -> Option<Item>
    ensures { result ≡ item_at instance.now stack (count_at rows.now row stack) }
{
    instance.item_of(stack, count(rows, row, stack) as usize)
}

/// The sides along x and y of an item in this turn.
pub fn sides(item: &Item, turn: u32) -> (u32, u32)
    ensures wide { result.0 ≡ item_width turn (Some item.now) }
    ensures high { result.1 ≡ item_height turn (Some item.now) }
{
    if turn == 0 {
        (item.length, item.width)
    } else {
        (item.width, item.length)
    }
}

/// Whether the other row has one item more of this stack, or of another stack as many.
#[tactic(auto, unfolding(crate::specs::Lattice::IsOneMore))]
fn is_one_more(rows: &[FrontRow], row: usize, stack: u32, to: usize, other: u32) -> bool
    ensures { IsTrue result ↔ IsOneMore rows.now row stack to other }
{
    let before = u64::from(count(rows, row, other));
    let after = u64::from(count(rows, to, other));
    if stack == other {
        after == before + 1
    } else {
        after == before
    }
}

/// Whether the other row has one item more of this stack, and of the others as many.
fn is_more(instance: &Instance, rows: &[FrontRow], row: usize, stack: u32, to: usize) -> bool
    ensures { IsTrue result → (other : ℕ) → other < length instance.now.stacks
        → IsOneMore rows.now row stack to other }
{
    for other in 0..instance.stacks() {
        if !is_one_more(rows, row, stack, to, other) {
            return false;
        }
    }
    true
}

/// Whether at the other row this item of a stack is taken too.
fn is_link(
    instance: &Instance,
    rows: &[FrontRow],
    row: usize,
    stack: u32,
    item: &Item,
    to: usize,
) -> bool
    ensures { IsTrue result → IsLink instance.now rows.now row stack item.now to }
{
    let before = area_left(rows, row);
    let after = area_left(rows, to);
    let own = u64::from(item.length) * u64::from(item.width);
    to < row && after <= before && before - after == own && is_more(instance, rows, row, stack, to)
}

/// The link that takes this item of a stack.
fn link_of(
    instance: &Instance,
    rows: &[FrontRow],
    row: usize,
    stack: u32,
    item: &Item,
) -> Option<u32>
    requires { row < length rows.now }
    ensures { IfSome result (λ to. Contains (links_at rows.now row) to
        × IsLink instance.now rows.now row stack item.now to) }
{
    for to in links_of(rows, row) {
        if is_link(instance, rows, row, stack, item, *to as usize) {
            return Some(*to);
        }
    }
    None
}

/// Whether a move leads there with this width, and with each of these heights.
fn leads(next: &Move, to: u32, wide: u32, high: &SizeSet) -> bool
    ensures { IsTrue result → (next.now.to ≡ to)
        × ((y : ℕ) → Has high.now y → Fits next.now.label wide y) }
{
    if next.to != to {
        return false;
    }
    if !next.label.along.has(wide) {
        return false;
    }
    next.label.across.covers(high)
}

/// Whether one of the moves does.
fn led(moves: &[Move], to: u32, wide: u32, high: &SizeSet) -> bool
    ensures { IsTrue result → LedBy moves.now to wide (λ y. Has high.now y) }
{
    for next in moves {
        if leads(next, to, wide, high) {
            return true;
        }
    }
    false
}

/// The heights of bands in which an item can stand alone: its own, and with a waste over or below it where it is wide enough.
pub fn heights(wide: u32, high: u32, waste: u32) -> SizeSet
    ensures { (y : ℕ) → Stands waste wide high y → Has result y }
{
    let more = if wide >= waste { waste } else { u32::MAX };
    SizeSet { least: high, more }
}

/// Whether the moves have the item alone, in this turn.
#[tactic(auto, unfolding(crate::specs::Lattice::AloneLed))]
fn alone_led(moves: &[Move], to: u32, item: &Item, turn: u32, waste: u32) -> bool
    ensures { IsTrue result → AloneLed waste moves.now to item.now turn }
{
    let own = sides(item, turn);
    led(moves, to, own.0, &heights(own.0, own.1, waste))
}

/// Whether they have both items, one over the other, where these are of one width in these turns.
#[tactic(auto, unfolding(crate::specs::Lattice::PairLed))]
fn pair_led(moves: &[Move], to: u32, item: &Item, other: &Item, turn: u32, over: u32) -> bool
    ensures { IsTrue result → PairLed moves.now to item.now other.now turn over }
{
    let low = sides(item, turn);
    let high = sides(other, over);
    if low.0 != high.0 {
        return true;
    }
    match low.1.checked_add(high.1) {
        Some(both) => led(
            moves,
            to,
            low.0,
            &SizeSet {
                least: both,
                more: u32::MAX,
            },
        ),
        None => false,
    }
}

/// Whether they have this item and that one over it, in each turn.
fn pairs_led(
    instance: &Instance,
    rows: &[FrontRow],
    moves: &[Move],
    item: &Item,
    mid: usize,
    stack: u32,
    other: &Item,
) -> bool
    requires { mid < length rows.now }
    ensures { IsTrue result → PairsLed instance.now rows.now moves.now item.now mid
        stack other.now }
{
    match link_of(instance, rows, mid, stack, other) {
        Some(to) => {
            pair_led(moves, to, item, other, 0, 0)
                && pair_led(moves, to, item, other, 0, 1)
                && pair_led(moves, to, item, other, 1, 0)
                && pair_led(moves, to, item, other, 1, 1)
        }
        None => false,
    }
}

/// Whether they have each pair of this item and the next one of a stack.
#[tactic(auto, unfolding(crate::specs::Lattice::AllPairsLed))]
fn stack_pairs_led(
    instance: &Instance,
    rows: &[FrontRow],
    moves: &[Move],
    item: &Item,
    mid: usize,
    stack: u32,
) -> bool
    requires { mid < length rows.now }
    ensures { IsTrue result → AllPairsLed instance.now rows.now moves.now item.now mid stack }
{
    match due(instance, rows, mid, stack) {
        Some(other) => pairs_led(instance, rows, moves, item, mid, stack, &other),
        None => true,
    }
}

/// Whether they have each pair of this item and another.
fn all_pairs_led(
    instance: &Instance,
    rows: &[FrontRow],
    moves: &[Move],
    item: &Item,
    mid: usize,
) -> bool
    requires { mid < length rows.now }
    ensures { IsTrue result → (other : ℕ) → other < length instance.now.stacks
        → AllPairsLed instance.now rows.now moves.now item.now mid other }
{
    for other in 0..instance.stacks() {
        if !stack_pairs_led(instance, rows, moves, item, mid, other) {
            return false;
        }
    }
    true
}

/// Whether the row's moves have each cell whose first item is this one.
fn item_led(instance: &Instance, rows: &[FrontRow], row: usize, stack: u32, item: &Item) -> bool
    requires { row < length rows.now }
    ensures { IsTrue result → ItemLed instance.now rows.now row stack item.now }
{
    let moves = moves_of(rows, row);
    let waste = instance.params().waste;
    match link_of(instance, rows, row, stack, item) {
        Some(to) => {
            alone_led(moves, to, item, 0, waste)
                && alone_led(moves, to, item, 1, waste)
                && all_pairs_led(instance, rows, moves, item, to as usize)
        }
        None => false,
    }
}

/// Whether they have each cell whose first item is the next one of a stack.
#[tactic(auto, unfolding(crate::specs::Lattice::StackLed))]
fn stack_led(instance: &Instance, rows: &[FrontRow], row: usize, stack: u32) -> bool
    requires { row < length rows.now }
    ensures { IsTrue result → StackLed instance.now rows.now row stack }
{
    match due(instance, rows, row, stack) {
        Some(item) => item_led(instance, rows, row, stack, &item),
        None => true,
    }
}

/// Whether they have each cell.
fn stacks_led(instance: &Instance, rows: &[FrontRow], row: usize) -> bool
    requires { row < length rows.now }
    ensures { IsTrue result → (stack : ℕ) → stack < length instance.now.stacks
        → StackLed instance.now rows.now row stack }
{
    for stack in 0..instance.stacks() {
        if !stack_led(instance, rows, row, stack) {
            return false;
        }
    }
    true
}

/// Whether a stack has an item left.
#[tactic(auto, unfolding(crate::specs::Lattice::HasLeft))]
fn has_left(instance: &Instance, rows: &[FrontRow], row: usize) -> bool
    ensures { IsTrue result → HasLeft instance.now rows.now row }
{
    for stack in 0..instance.stacks() {
        if due(instance, rows, row, stack).is_some() {
            return true;
        }
    }
    false
}

/// Whether all moves lead to rows of smaller numbers.
fn lead_down(moves: &[Move], row: usize) -> bool
    ensures { IsTrue result → All (λ m. m.to < row) moves.now }
{
    for next in moves {
        if next.to as usize >= row {
            return false;
        }
    }
    true
}

/// The number that this weight adds to a sum, or none where it is too large.
fn added(sum: u64, weight: u64, count: u32) -> Option<u64>
    ensures { IfSome result (λ s. s ≡ sum + weight * count) }
{
    sum.checked_add(weight.checked_mul(u64::from(count))?)
}

/// What the items taken at a row weigh, by these weights of the stacks, or none where it is too large.
fn weight_of(instance: &Instance, weights: &[u64], rows: &[FrontRow], row: usize) -> Option<u64>
    requires { length weights.now ≡ length instance.now.stacks }
    ensures { IfSome result (λ w. w ≡ weight_from weights.now 0 (count_at rows.now row)) }
{
    let mut sum = 0;
    for stack in 0..instance.stacks() {
        sum = added(sum, weights[stack as usize], count(rows, row, stack))?;
    }
    Some(sum)
}

/// Whether what is taken at a row weighs less than at the row before it.
#[tactic(auto, unfolding(crate::specs::Lattice::IsLighter))]
fn is_lighter(instance: &Instance, weights: &[u64], rows: &[FrontRow], row: usize) -> bool
    requires { length weights.now ≡ length instance.now.stacks }
    ensures { IsTrue result → IsLighter weights.now rows.now row }
{
    if row == 0 {
        return true;
    }
    let Some(before) = weight_of(instance, weights, rows, row - 1) else {
        return false;
    };
    match weight_of(instance, weights, rows, row) {
        Some(own) => own < before,
        None => false,
    }
}

/// Whether the row keeps all that is asked of it.
fn is_row(instance: &Instance, weights: &[u64], rows: &[FrontRow], row: usize) -> bool
    requires row { row < length rows.now }
    requires weights { length weights.now ≡ length instance.now.stacks }
    ensures { IsTrue result → IsRow instance.now weights.now rows.now row }
{
    let left = row == 0 || has_left(instance, rows, row);
    left && is_lighter(instance, weights, rows, row)
        && lead_down(moves_of(rows, row), row)
        && stacks_led(instance, rows, row)
}

/// Whether each row keeps all that is asked of it.
fn are_rows(instance: &Instance, weights: &[u64], rows: &[FrontRow]) -> bool
    requires { length weights.now ≡ length instance.now.stacks }
    ensures { IsTrue result → (n : ℕ) → n < length rows.now
        → IsRow instance.now weights.now rows.now n }
{
    for row in 0..rows.len() {
        if !is_row(instance, weights, rows, row) {
            return false;
        }
    }
    true
}

/// Whether nothing is taken at a row.
fn is_first(instance: &Instance, rows: &[FrontRow], row: usize) -> bool
    ensures { IsTrue result → (stack : ℕ) → stack < length instance.now.stacks
        → count_at rows.now row stack ≡ 0 }
{
    for stack in 0..instance.stacks() {
        if count(rows, row, stack) != 0 {
            return false;
        }
    }
    true
}

/// Whether the table has a row for each front that items can be taken to, and each cell from there on. What is taken at
/// a row weighs less than at the row before it, by these weights of the stacks.
pub fn is_lattice(instance: &Instance, weights: &[u64], rows: &[FrontRow]) -> bool
    ensures { IsTrue result → IsLattice instance.now rows.now }
{
    if rows.is_empty() || weights.len() != instance.stacks() as usize {
        return false;
    }
    is_first(instance, rows, rows.len() - 1) && are_rows(instance, weights, rows)
}
