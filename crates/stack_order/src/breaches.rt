//! Each rule on the order of items, as a search for its first breach among the items that a plan cuts.
//!
//! They are asked one after another: an item of a list that keeps the rules before stands in it once, so the list has at most as
//! many places as the batch has items. Nested loops are short for this reason, also where the plan is a hostile one.

ghost use Rattle.std.specs.Prelude.{◌≡◌, ◌≢◌, ◌<◌, ◌≤◌, ◌==◌, find, length, map, All, AllPairs, Contains, IsSome, Some, MatchOption};
ghost use Rattle.glass_base.specs.Items.{DifferentPlaces};
ghost use Rattle.glass_base.specs.declared.item.Item.{Item as GlassItem};
ghost use Rattle.cut_model.specs.Order.{KeepsStacks};
ghost use Rattle.stack_order.specs.Breaches.{numbers, numbers_cut, items_of, HasItem, breach as breach_of, last_of_stack as last_of, NamesUnknown, NamesTwice, NamesMissing, NamesEmptyPlate, IsLate, NamesLate};
ghost use Rattle.stack_order.specs.declared.order_rule.OrderRule.TheVariants.{L9Plates};

use crate::cuts::ItemCut;
use crate::order_rule::OrderRule;
use cut_model::{Broken, Row, Rule};
use glass_base::{Item, Params};

/// A breach of this rule at this place, with the two numbers that disagree.
fn breach(rule: OrderRule, plate: u32, node: u64, left: u64, right: u64) -> Broken
    ensures { result ≡ breach_of rule plate node left right }
{
    Broken {
        rule: Rule::from(rule),
        plate,
        node,
        left,
        right,
    }
}

/// A breach of this rule at an item that is cut.
fn breach_at(rule: OrderRule, cut: &ItemCut, left: u64, right: u64) -> Broken
    ensures { result ≡ breach_of rule cut.now.plate cut.now.node left right }
{
    breach(rule, cut.plate, cut.node, left, right)
}

/// The first item that the batch does not have.
pub fn first_unknown(cuts: &[ItemCut]) -> Option<Broken>
    ensures { MatchOption result (All (λ c. IsSome c.item) cuts.now) (NamesUnknown cuts.now) }
{
    for cut in cuts {
        if cut.item.is_none() {
            return Some(breach_at(OrderRule::L9Unknown, cut, u64::from(cut.number), 0));
        }
    }
    None
}

/// The first of these cuts whose item has this number.
fn first_of_number(cuts: &[ItemCut], number: u32) -> Option<ItemCut>
    ensures { result ≡ find (λ c. c.number == number) cuts.now }
{
    cuts.iter().copied().find(|c| c.number == number)
}

/// The first item that was cut before.
pub fn first_repeat(cuts: &[ItemCut]) -> Option<Broken>
    ensures { MatchOption result (AllPairs (λ a c. a.number ≢ c.number) cuts.now)
        (NamesTwice cuts.now) }
{
    for (place, cut) in cuts.iter().enumerate() {
        if let Some(first) = first_of_number(&cuts[..place], cut.number) {
            return Some(breach_at(OrderRule::L9Twice, cut, u64::from(cut.number), first.node));
        }
    }
    None
}

/// The first item of the batch that is not cut.
pub fn first_missing(items: &[Item], cuts: &[ItemCut]) -> Option<Broken>
    ensures { MatchOption result (All (Contains (numbers_cut cuts.now)) (numbers items.now))
        (NamesMissing items.now cuts.now) }
{
    for item in items {
        if !cuts.iter().any(|c| c.number == item.id) {
            return Some(breach(OrderRule::L9Missing, 0, 0, u64::from(item.id), 0));
        }
    }
    None
}

/// The first plate from which no item is cut.
pub fn first_empty_plate(cuts: &[ItemCut], plates: &[Row]) -> Option<Broken>
    ensures { MatchOption result (All (HasItem cuts.now) plates.now)
        (NamesEmptyPlate cuts.now plates.now) }
{
    for plate in plates {
        if !cuts.iter().any(|c| c.plate == plate.plate) {
            return Some(breach(
                OrderRule::L9EmptyPlate,
                plate.plate,
                plate.node,
                u64::from(plate.plate),
                0,
            ));
        }
    }
    None
}

/// Whether there are too many plates.
pub fn plates_too_many(params: &Params, plates: &[Row]) -> Option<Broken>
    ensures { MatchOption result (length plates.now
        ≤ params.now.plates) (λ broken. (params.now.plates < length plates.now)
        × (broken ≡ breach_of L9Plates 0 0 (length plates.now) params.now.plates)) }
{
    if plates.len() <= params.plates as usize {
        return None;
    }
    Some(breach(
        OrderRule::L9Plates,
        0,
        0,
        plates.len() as u64,
        u64::from(params.plates),
    ))
}

/// The last of these items that belongs to a stack.
fn last_of_stack(cuts: &[ItemCut], stack: u32) -> Option<Item>
    ensures { result ≡ last_of stack cuts.now }
{
    cuts.iter()
        .rev()
        .filter_map(|c| c.item)
        .find(|item| item.stack == stack)
}

/// Whether an item that is cut behind these comes too late.
fn late(before: &[ItemCut], cut: &ItemCut) -> Option<Broken>
    ensures { MatchOption result ((item last : GlassItem) → cut.now.item ≡ Some item
        → last_of item.stack before.now ≡ Some last
        → last.sequence ≤ item.sequence) (IsLate before.now cut.now) }
{
    let item = cut.item?;
    let last = last_of_stack(before, item.stack)?;
    if item.sequence < last.sequence {
        Some(breach_at(
            OrderRule::L10,
            cut,
            u64::from(last.id),
            u64::from(cut.number),
        ))
    } else {
        None
    }
}

/// The first item that is cut after one of its stack with a higher sequence. No two items of the batch have one place in a stack.
pub fn first_late(cuts: &[ItemCut]) -> Option<Broken>
    requires { AllPairs DifferentPlaces (items_of cuts.now) }
    ensures { MatchOption result (KeepsStacks (items_of cuts.now)) (NamesLate cuts.now) }
{
    for (place, cut) in cuts.iter().enumerate() {
        if let Some(broken) = late(&cuts[..place], cut) {
            return Some(broken);
        }
    }
    None
}
