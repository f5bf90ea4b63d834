//! What a plan is drawn for: the instance, the layout, and the breach that is shown.

ghost use Rattle.std.specs.Prelude.{◌≡◌, ◌==◌, position, option_to_list};
ghost use Rattle.glass_base.specs.Stacks.{stack_numbers as stack_numbers_of};
ghost use Rattle.cut_model.specs.Order.{item_with};
ghost use Rattle.plan_picture.specs.Pictures.{breach_by, breach_of, is_breach, look_of, stack_numbered, struck_by, struck_in};
ghost use Rattle.plan_picture.specs.Texts.{is_turned_from};

use crate::layout::Layout;
use crate::mark::PieceLook;
use cut_model::{Broken, Row, Rule, Sort, Verdict, item_numbered};
use glass_base::{Defect, Instance, Item};

/// What a plan is drawn for.
#[derive(Clone, Copy)]
pub(crate) struct Subject<'a> {
    pub instance: &'a Instance,
    /// The numbers of the stacks, by their first appearance.
    pub stacks: &'a [u32],
    pub layout: Layout,
    /// The breach whose piece is outlined, if there is one.
    pub broken: Option<Broken>,
    ghost numbered: { stacks.now ≡ stack_numbers_of instance.now.items },
    ghost high: { layout.height ≡ instance.now.params.height },
}

/// A breach, if it is that of a piece. A missing item and a plate too many are not.
fn breach_by(rule: Rule, broken: Broken) -> Option<Broken>
    ensures { result ≡ breach_by rule broken }
{
    match rule {
        Rule::L9Missing | Rule::L9Plates => None,
        _ => Some(broken),
    }
}

/// The breach of which a piece is outlined, if there is one.
pub(crate) fn broken_in(verdict: &Verdict) -> Option<Broken>
    ensures { result ≡ breach_of verdict.now }
{
    match *verdict {
        Verdict::Lawful(_) => None,
        Verdict::Broken(broken) => breach_by(broken.rule, broken),
    }
}

/// Where this number stands among the numbers of the stacks.
fn place_of(stacks: &[u32], number: u32) -> Option<usize>
    ensures { result ≡ position (λ other. other == number) stacks.now }
{
    stacks.iter().position(|other| *other == number)
}

/// Whether a piece is turned: its sides are not the length and the width of its item. One whose item the batch does not have is not.
fn is_turned(row: &Row, item: Option<Item>) -> bool
    ensures { result ≡ is_turned_from row.now item }
{
    match item {
        None => false,
        Some(item) => row.width != item.length || row.height != item.width,
    }
}

impl<'a> Subject<'a> {
    /// The stack of the item of this number, counted from 0 by the first appearance of the stacks, if the batch has the item.
    fn stack(&self, number: u32) -> Option<usize>
        ensures { result ≡ stack_numbered self.now.instance.now number }
    {
        match item_numbered(self.instance.items(), number) {
            None => None,
            Some(item) => place_of(self.stacks, item.stack),
        }
    }

    /// What a piece of this sort looks like.
    pub fn look(&self, sort: Sort) -> PieceLook
        ensures { result ≡ look_of self.now.instance.now sort }
    {
        match sort {
            Sort::Item(number) => PieceLook::Item(number, self.stack(number)),
            Sort::Waste => PieceLook::Waste,
            Sort::Branch => PieceLook::Branch,
            Sort::Residual => PieceLook::Residual,
        }
    }

    /// Whether a piece that is the item of this number is turned.
    pub fn is_turned(&self, row: &Row, number: u32) -> bool
        ensures { result ≡ is_turned_from row.now (item_with self.now.instance.now.items number) }
    {
        is_turned(row, item_numbered(self.instance.items(), number))
    }

    /// Whether a row is the piece that breaks a rule.
    pub fn is_breach(&self, row: &Row) -> bool
        ensures { result ≡ is_breach self.now.broken row.now }
    {
        match self.broken {
            None => false,
            Some(broken) => broken.plate == row.plate && broken.node == row.node,
        }
    }

    /// The defect at this place in the list, where this is a rule on defects.
    fn struck_in(&self, rule: Rule, place: u64) -> Option<Defect>
        ensures { option_to_list result ≡ struck_in self.now.instance.now rule place }
    {
        match rule {
            Rule::L7 | Rule::L8 => self.instance.defects().get(place as usize).copied(),
            _ => None,
        }
    }

    /// The defect by which a piece breaks a rule, if it is by one.
    pub fn struck(&self) -> Option<Defect>
        ensures { option_to_list result ≡ struck_by self.now.instance.now self.now.broken }
    {
        match self.broken {
            None => None,
            Some(broken) => self.struck_in(broken.rule, broken.right),
        }
    }
}
