//! The judge of the order in which a plan cuts its items.

ghost use Rattle.std.specs.Prelude.{◌≡◌, ◌↔◌, All, IsOk, IfOk, IfErr, MatchOption};
ghost use Rattle.cut_model.specs.Families.{rows_of};
ghost use Rattle.cut_model.specs.Fits.{Fits};
ghost use Rattle.cut_model.specs.Lawful.{KeepsOrderRules, plate_rows};
ghost use Rattle.cut_model.specs.Tree.{tree};
ghost use Rattle.stack_order.specs.Breaches.{IsBreach, KeepsOrderRule, order_rules};
ghost use Rattle.stack_order.specs.Cuts.{cuts_of, AreCuts};

use crate::breaches::{
    first_empty_plate, first_late, first_missing, first_repeat, first_unknown, plates_too_many,
};
use crate::cuts::{ItemCut, gather};
use cut_model::{Broken, Plan, Row};
use glass_base::{Instance, Memory};
use std::alloc::Global;

/// The first rule on the order of items that is broken, at its first place.
fn first_breach(instance: &Instance, cuts: &[ItemCut], plates: &[Row]) -> Option<Broken>
    requires { AreCuts instance.now.items cuts.now }
    ensures { let b = instance.now in MatchOption result
        (All (KeepsOrderRule b cuts.now plates.now) order_rules) (IsBreach b cuts.now plates.now) }
{
    if let Some(broken) = first_unknown(cuts) {
        return Some(broken);
    }
    if let Some(broken) = first_repeat(cuts) {
        return Some(broken);
    }
    if let Some(broken) = first_missing(instance.items(), cuts) {
        return Some(broken);
    }
    if let Some(broken) = first_empty_plate(cuts, plates) {
        return Some(broken);
    }
    if let Some(broken) = plates_too_many(instance.params(), plates) {
        return Some(broken);
    }
    first_late(cuts)
}

/// Whether a plan keeps the rules L9 and L10: each item of the batch is cut once and nothing else, each plate has an item, no
/// plate is too many, and the items of one stack are cut in ascending sequence. Else the first of these that it breaks, in the
/// order of `Rule`, with the least node that breaks it and the two numbers that disagree:
///
/// - `L9Unknown`: the item's number, and 0;
/// - `L9Twice`: the item's number, and the node where it was cut first;
/// - `L9Missing`: the number of the first item of the batch that is missing, and 0; node and plate are 0;
/// - `L9EmptyPlate`: the plate's number, and 0;
/// - `L9Plates`: the number of plates used, and the number of plates that there are; node and plate are 0;
/// - `L10`: the number of the item of its stack that was cut last before it, and its own.
///
/// It fails only where memory runs out.
pub fn judge_order(
    alloc: Global,
    instance: &Instance,
    plan: &Plan,
) -> Result<Result<(), Broken>, Memory>
    requires { Fits (tree plan.now) }
    ensures lawful { let b = instance.now in IfOk result (λ answer. IsOk answer
        ↔ KeepsOrderRules b (rows_of b (tree plan.now))) }
    ensures first { let b = instance.now in let rows = rows_of b (tree plan.now) in
        IfOk result (λ answer. IfErr answer (IsBreach b (cuts_of b.items rows) (plate_rows rows))) }
{
    let gathered = gather(alloc, instance, plan)?;
    match first_breach(
        instance,
        gathered.cuts.as_slice(),
        gathered.plates.as_slice(),
    ) {
        Some(broken) => Ok(Err(broken)),
        None => Ok(Ok(())),
    }
}
