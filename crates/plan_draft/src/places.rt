//! The first place of an item at one left side of a strip.

ghost use Rattle.std.specs.Prelude.{◌≡◌, ◌↔◌, ◌+◌, ◌≤◌, IsTrue, MatchOption, Some};
ghost use Rattle.glass_base.specs.Items.{HasSides, IsItemInRange};
ghost use Rattle.plan_trace.specs.Marks.{item_height, item_width};
ghost use Rattle.plan_trace.specs.TraceRules.{Gap};
ghost use Rattle.plan_draft.specs.inner.Places.{HasNoPlace, IsFirstOf, IsRight, StandsAt, StandsBeside, StandsSo, StandsTo};

use crate::bands::band_from;
use crate::place::{ItemPlace, Sides, first_of};
use crate::site::Site;
use crate::strips::right_from;
use glass_base::Item;
use glass_base::limits::MOST_SIDE;

/// The first place of an item at the left side of a strip that ends at `right`.
fn place_to(site: Site, left: u32, right: u32, item: Sides, turn: u32) -> Option<ItemPlace>
    requires left { left ≤ MOST_SIDE }
    requires wide { left + site.ground.instance.now.params.min1 ≤ right }
    requires right { IsRight site.ground.instance.now site.plate
        (left + site.ground.instance.now.params.max1) right }
    requires behind { Gap site.ground.instance.now.params.waste (left + item.w) right }
    ensures { let b = site.entry.ground.instance.now in
        MatchOption result (HasNoPlace (StandsTo b site.entry.plate left turn item.w item.h right))
        (IsFirstOf (StandsTo b site.entry.plate left turn item.w item.h right)) }
{
    match band_from(site, left, right, item) {
        None => None,
        Some(band) => Some(ItemPlace {
            a: left,
            b: right,
            c: band.c,
            d: band.d,
            turn,
        }),
    }
}

/// Whether a strip may end here.
fn is_right(site: Site, most: u32, right: u32) -> bool
    ensures { IsTrue result ↔ IsRight site.entry.ground.instance.now site.entry.plate most right }
{
    let params = site.ground.instance.params();
    let width = site.ground.instance.width(site.plate);
    right <= most
        && (right == width
            || u64::from(right) + u64::from(params.waste) <= u64::from(width)
                && site.ground.is_clear_x(site.plate, right, 0, params.height))
}

/// The first place of an item at the left side of a strip that is as wide as the item.
fn place_alone(site: Site, left: u32, item: Sides, turn: u32) -> Option<ItemPlace>
    requires left { left ≤ MOST_SIDE }
    ensures { let b = site.entry.ground.instance.now in
        MatchOption result (HasNoPlace (StandsTo b site.entry.plate left turn item.w item.h
        (left + item.w))) (IsFirstOf (StandsTo b site.entry.plate left turn item.w item.h
        (left + item.w))) }
{
    let params = site.ground.instance.params();
    let right = left + item.w;
    if item.w < params.min1 || !is_right(site, left + params.max1, right) {
        return None;
    }
    place_to(site, left, right, item, turn)
}

/// The first place of an item at the left side of a strip in which a waste stands beside it.
fn place_beside(site: Site, left: u32, item: Sides, turn: u32) -> Option<ItemPlace>
    requires left { left ≤ MOST_SIDE }
    ensures { let b = site.entry.ground.instance.now in
        MatchOption result (HasNoPlace (StandsBeside b site.entry.plate left turn item.w item.h))
        (IsFirstOf (StandsBeside b site.entry.plate left turn item.w item.h)) }
{
    let params = site.ground.instance.params();
    let least = left + params.min1.max(item.w + params.waste);
    match right_from(site, least, left + params.max1) {
        None => None,
        Some(right) => place_to(site, left, right, item, turn),
    }
}

/// The first place of an item of these sides at the left side of a strip.
fn place_in_turn(site: Site, left: u32, item: Sides, turn: u32) -> Option<ItemPlace>
    requires left { left ≤ MOST_SIDE }
    ensures { let b = site.entry.ground.instance.now in
        MatchOption result (HasNoPlace (StandsSo b site.entry.plate left turn item.w item.h))
        (IsFirstOf (StandsSo b site.entry.plate left turn item.w item.h)) }
{
    match place_alone(site, left, item, turn) {
        Some(place) => Some(place),
        None => place_beside(site, left, item, turn),
    }
}

/// The first place of an item at this left side of its strip, in one of its turns.
pub fn place_at(site: Site, left: u32, item: &Item) -> Option<ItemPlace>
    requires left { left ≤ MOST_SIDE }
    requires range { IsItemInRange item.now }
    requires sides { HasSides item.now }
    ensures { let b = site.entry.ground.instance.now in
        MatchOption result (HasNoPlace (StandsAt b site.entry.plate left item.now))
        (IsFirstOf (StandsAt b site.entry.plate left item.now)) }
{
    let unturned = Sides {
        w: item.length,
        h: item.width,
    };
    let first = place_in_turn(site, left, unturned, 0);
    if item.length == item.width {
        return first;
    }
    let turned = Sides {
        w: item.width,
        h: item.length,
    };
    first_of(first, place_in_turn(site, left, turned, 1))
}
