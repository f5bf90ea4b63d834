//! The first place of an item on a plate.

ghost use Rattle.std.specs.Prelude.{◌≡◌, ◌≤◌, MatchOption};
ghost use Rattle.glass_base.specs.Items.{HasSides, IsItemInRange};
ghost use Rattle.glass_base.specs.Plates.{Width};
ghost use Rattle.plan_draft.specs.inner.Least.{IsSkip};
ghost use Rattle.plan_draft.specs.inner.Places.{HasNoPlace, IsFirstOf, IsLeft, IsPlace, IsUpright, end_of};

use crate::lines::blocked_upright;
use crate::place::{ItemPlace, first_of};
use crate::places::place_at;
use crate::site::Site;
use glass_base::Item;
use glass_base::limits::MOST_SIDE;

/// The right side of a defect through which the left side of a strip at `left` would run, if there is one.
fn blocked_line(site: Site, left: u32) -> Option<u32>
    ensures { let b = site.entry.ground.instance.now in
        MatchOption result (IsUpright b site.entry.plate 0 left)
        (IsSkip (IsUpright b site.entry.plate 0) left) }
{
    if left == 0 {
        None
    } else {
        blocked_upright(site, left)
    }
}

/// The next place behind `left` where the left side of a strip may stand behind what ends at `from`, if it may not stand at `left`.
fn blocked_left(site: Site, from: u32, left: u32) -> Option<u32>
    requires from { from ≤ left }
    requires left { left ≤ MOST_SIDE }
    ensures { let b = site.entry.ground.instance.now in
        MatchOption result (IsLeft b site.entry.plate from left)
        (IsSkip (IsLeft b site.entry.plate from) left) }
{
    if left == from {
        return blocked_line(site, left);
    }
    let next = from + site.ground.instance.params().waste;
    if left < next {
        return Some(next);
    }
    blocked_line(site, left)
}

/// Where the left side of a strip is too far right to be of use: at the plate's end, or at the right side of the best place so far.
fn far_end(site: Site, best: Option<ItemPlace>) -> u32
    ensures { result ≡ end_of (Width site.entry.ground.instance.now site.entry.plate) best }
{
    match best {
        None => site.ground.instance.width(site.plate),
        Some(place) => place.b,
    }
}

/// The first place of an item on a plate, behind what ends at `from`.
pub fn first_place(site: Site, from: u32, item: &Item) -> Option<ItemPlace>
    requires range { IsItemInRange item.now }
    requires sides { HasSides item.now }
    ensures { let b = site.entry.ground.instance.now in
        MatchOption result (HasNoPlace (IsPlace b site.entry.plate from item.now))
        (IsFirstOf (IsPlace b site.entry.plate from item.now)) }
{
    if from > site.ground.instance.width(site.plate) {
        return None;
    }
    let least = site
        .ground
        .instance
        .params()
        .min1
        .max(item.length.min(item.width));
    let mut best: Option<ItemPlace> = None;
    let mut left = from;
    while left + least <= far_end(site, best) {
        match blocked_left(site, from, left) {
            Some(next) => left = next,
            None => {
                best = first_of(best, place_at(site, left, item));
                left += 1;
            }
        }
    }
    best
}
