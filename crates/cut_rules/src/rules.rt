//! Each rule on cuts as a test of one piece: the two numbers that disagree, where the piece breaks the rule.

ghost use Rattle.std.specs.Prelude.{◌≡◌, ◌+◌, ◌<◌, ◌≤◌, ◌↔◌, IsTrue, IfSome, MatchOption, Some, position};
ghost use Rattle.glass_base.specs.Problem.{Problem};
ghost use Rattle.cut_model.specs.Families.{turned, side_along};
ghost use Rattle.cut_model.specs.Order.{item_with};
ghost use Rattle.cut_model.specs.Rules.{HasClearBorder, IsSound, IsTurnOf};
ghost use Rattle.cut_model.specs.Visits.{IsSmall};
ghost use Rattle.cut_model.specs.declared.family.Along.TheVariants.{X, Y};
ghost use Rattle.cut_rules.specs.declared.cut_rule.CutRule.TheVariants.{L1, L2, L3, L4, L5, L6, L7, L8};
ghost use Rattle.cut_rules.specs.Breaches.{border as border_of, crosses as crosses_of, least_side as least_side_of, meets as meets_of};
ghost use Rattle.cut_rules.specs.inner.Tests.{Tests};

use crate::cut_rule::CutRule;
use cut_model::{Along, Family, Row, Sort, item_numbered};
use defect_map::{DefectMap, Ground};
use glass_base::limits::MOST_SIDE;
use glass_base::{Instance, Item};

/// The side of a piece that its children are to add up to.
fn side_to_fill(family: &Family) -> u32
    ensures { result ≡ side_along (turned family.now.along) family.now.row }
{
    match family.along {
        Along::Plates | Along::Y => family.row.width,
        Along::X => family.row.height,
    }
}

/// L1: the children add up.
fn adds_up(family: &Family) -> Option<(u64, u64)>
    ensures { (b : Problem) → Tests b L1 family.now result }
{
    let side = side_to_fill(family);
    match family.sort {
        Sort::Branch => {
            if !family.children.empty && family.children.total == side {
                None
            } else {
                Some((u64::from(family.children.total), u64::from(side)))
            }
        }
        Sort::Item(_) | Sort::Waste | Sort::Residual => None,
    }
}

/// Whether the row has the item's sides, in one of the two turns.
fn is_turn(row: &Row, item: &Item) -> bool
    ensures { IsTrue result ↔ IsTurnOf row.now item.now }
{
    (row.width == item.length && row.height == item.width)
        || (row.width == item.width && row.height == item.length)
}

/// Whether the row has the sides of the item of this number, where the batch has it.
fn has_its_sides(items: &[Item], number: u32, row: &Row) -> bool
    ensures { IsTrue result ↔ IfSome (item_with items.now number) (IsTurnOf row.now) }
{
    match item_numbered(items, number) {
        Some(item) => is_turn(row, &item),
        None => true,
    }
}

/// L2: an item piece has its item's sides.
fn has_sides(instance: &Instance, family: &Family) -> Option<(u64, u64)>
    ensures { Tests instance.now L2 family.now result }
{
    match family.sort {
        Sort::Item(number) => {
            if has_its_sides(instance.items(), number, &family.row) {
                None
            } else {
                Some((u64::from(family.row.width), u64::from(family.row.height)))
            }
        }
        Sort::Waste | Sort::Branch | Sort::Residual => None,
    }
}

/// The side that the least waste is asked of, where it is asked.
fn least_side(family: &Family) -> Option<u32>
    ensures { result ≡ least_side_of family.now.row family.now.sort }
{
    match family.sort {
        Sort::Waste => Some(family.row.width.min(family.row.height)),
        Sort::Residual => Some(family.row.width),
        Sort::Item(_) | Sort::Branch => None,
    }
}

/// L3: a waste, and the residual, is broad enough.
fn is_broad(instance: &Instance, family: &Family) -> Option<(u64, u64)>
    ensures { Tests instance.now L3 family.now result }
{
    let least = instance.params().waste;
    let side = least_side(family)?;
    if side < least {
        Some((u64::from(side), u64::from(least)))
    } else {
        None
    }
}

/// L4: a strip is neither too narrow nor too wide.
fn is_strip(instance: &Instance, family: &Family) -> Option<(u64, u64)>
    ensures { Tests instance.now L4 family.now result }
{
    let params = instance.params();
    let row = &family.row;
    match family.sort {
        Sort::Item(_) | Sort::Branch => {
            if row.cut != 1 {
                None
            } else if row.width < params.min1 {
                Some((u64::from(row.width), u64::from(params.min1)))
            } else if params.max1 < row.width {
                Some((u64::from(row.width), u64::from(params.max1)))
            } else {
                None
            }
        }
        Sort::Waste | Sort::Residual => None,
    }
}

/// L5: a band is high enough.
fn is_band(instance: &Instance, family: &Family) -> Option<(u64, u64)>
    ensures { Tests instance.now L5 family.now result }
{
    let least = instance.params().min2;
    let row = &family.row;
    match family.sort {
        Sort::Item(_) | Sort::Branch => {
            if row.cut == 2 && row.height < least {
                Some((u64::from(row.height), u64::from(least)))
            } else {
                None
            }
        }
        Sort::Waste | Sort::Residual => None,
    }
}

/// L6: a cell that is cut holds an item, and a residual is the last strip of the last plate.
fn is_in_place(family: &Family) -> Option<(u64, u64)>
    ensures { (b : Problem) → Tests b L6 family.now result }
{
    let level = u64::from(family.row.cut);
    match family.sort {
        Sort::Branch => {
            if family.row.cut == 3 && !family.children.has_item {
                Some((level, 0))
            } else {
                None
            }
        }
        Sort::Residual => {
            if family.row.cut == 1 && family.ends {
                None
            } else {
                Some((level, 0))
            }
        }
        Sort::Item(_) | Sort::Waste => None,
    }
}

/// The position of the first defect that a row meets. One without an inside meets none.
fn first_met(map: &DefectMap, row: &Row) -> Option<usize>
    requires x { row.now.x ≤ 100000 }
    requires y { row.now.y ≤ 100000 }
    requires width { row.now.width ≤ MOST_SIDE }
    requires height { row.now.height ≤ MOST_SIDE }
    ensures { MatchOption result (IsSound map.now row.now) (λ i. (¬ IsSound map.now row.now)
        × (position (meets_of row.now) map.now ≡ Some i)) }
{
    if row.width == 0 || row.height == 0 {
        return None;
    }
    map.first_hit(
        row.plate,
        row.x,
        row.y,
        row.x + row.width,
        row.y + row.height,
    )
}

/// L7: an item meets no defect.
fn avoids_defects(ground: Ground<'_>, family: &Family) -> Option<(u64, u64)>
    requires small { IsSmall family.now }
    ensures { Tests ground.entry.instance.now L7 family.now result }
{
    match family.sort {
        Sort::Item(number) => {
            let place = first_met(ground.map, &family.row)?;
            Some((u64::from(number), place as u64))
        }
        Sort::Waste | Sort::Branch | Sort::Residual => None,
    }
}

/// The position of the first defect that crosses the upright border on the left of a row. One without a length is crossed by
/// none.
fn first_crossing_upright(map: &DefectMap, row: &Row) -> Option<usize>
    requires y { row.now.y ≤ 100000 }
    requires height { row.now.height ≤ MOST_SIDE }
    ensures { MatchOption result (HasClearBorder map.now X row.now)
        (λ i. (¬ HasClearBorder map.now X row.now)
        × (position (crosses_of X row.now) map.now ≡ Some i)) }
{
    if row.height == 0 {
        return None;
    }
    map.first_crossing_x(row.plate, row.x, row.y, row.y + row.height)
}

/// The position of the first defect that crosses the level border below a row. One without a length is crossed by none.
fn first_crossing_level(map: &DefectMap, row: &Row) -> Option<usize>
    requires x { row.now.x ≤ 100000 }
    requires width { row.now.width ≤ MOST_SIDE }
    ensures { MatchOption result (HasClearBorder map.now Y row.now)
        (λ i. (¬ HasClearBorder map.now Y row.now)
        × (position (crosses_of Y row.now) map.now ≡ Some i)) }
{
    if row.width == 0 {
        return None;
    }
    map.first_crossing_y(row.plate, row.y, row.x, row.x + row.width)
}

/// The position of the first defect that crosses the border between a row and its neighbour before. Plates have none.
fn first_crossing(map: &DefectMap, along: Along, row: &Row) -> Option<usize>
    requires x { row.now.x ≤ 100000 }
    requires y { row.now.y ≤ 100000 }
    requires width { row.now.width ≤ MOST_SIDE }
    requires height { row.now.height ≤ MOST_SIDE }
    ensures { MatchOption result (HasClearBorder map.now along row.now)
        (λ i. (¬ HasClearBorder map.now along row.now)
        × (position (crosses_of along row.now) map.now ≡ Some i)) }
{
    match along {
        Along::Plates => None,
        Along::X => first_crossing_upright(map, row),
        Along::Y => first_crossing_level(map, row),
    }
}

/// Where the border between a row and its neighbour before lies.
fn border(along: Along, row: &Row) -> u32
    ensures { result ≡ border_of along row.now }
{
    match along {
        Along::Plates | Along::X => row.x,
        Along::Y => row.y,
    }
}

/// L8: no cut runs through a defect.
fn cuts_clear(ground: Ground<'_>, family: &Family) -> Option<(u64, u64)>
    requires small { IsSmall family.now }
    ensures { Tests ground.entry.instance.now L8 family.now result }
{
    if family.first {
        return None;
    }
    let place = first_crossing(ground.map, family.along, &family.row)?;
    let line = border(family.along, &family.row);
    Some((u64::from(line), place as u64))
}

/// The two numbers that disagree, where a piece breaks this rule on cuts.
pub fn breach(ground: Ground<'_>, rule: CutRule, family: &Family) -> Option<(u64, u64)>
    requires small { IsSmall family.now }
    ensures { Tests ground.entry.instance.now rule family.now result }
{
    match rule {
        CutRule::L1 => adds_up(family),
        CutRule::L2 => has_sides(ground.instance, family),
        CutRule::L3 => is_broad(ground.instance, family),
        CutRule::L4 => is_strip(ground.instance, family),
        CutRule::L5 => is_band(ground.instance, family),
        CutRule::L6 => is_in_place(family),
        CutRule::L7 => avoids_defects(ground, family),
        CutRule::L8 => cuts_clear(ground, family),
    }
}
