//! The sides of a band in which an item stands alone.

ghost use Rattle.std.specs.Prelude.{◌≡◌, ◌↔◌, ◌+◌, ◌<◌, ◌≤◌, ◌^◌, IsTrue, MatchOption};
ghost use Rattle.plan_draft.specs.inner.Least.{HasNone, IsLeast, IsSkip};
ghost use Rattle.plan_draft.specs.inner.Places.{HasBand, IsBeside, IsBottomOf, IsLeastBand, IsOver, IsTop, IsTopOf};

use crate::lines::{blocked_item, blocked_level, level_from};
use crate::place::{Band, Sides};
use crate::site::Site;
use glass_base::limits::MOST_REACH;

/// The least upper side of a band from `least` on, in a strip from `left` to `right`.
fn top_from(site: Site, left: u32, right: u32, least: u32) -> Option<u32>
    requires { left < right }
    ensures { let b = site.entry.ground.instance.now in
        MatchOption result (HasNone (IsTop b site.entry.plate left right) least)
        (IsLeast (IsTop b site.entry.plate left right) least) }
{
    let params = site.ground.instance.params();
    let top = level_from(site, least, left, right);
    if u64::from(top) + u64::from(params.waste) <= u64::from(params.height) {
        return Some(top);
    }
    if least <= params.height {
        Some(params.height)
    } else {
        None
    }
}

/// Whether the upper side of a band may stand here, in a strip from `left` to `right`.
fn is_top(site: Site, left: u32, right: u32, top: u32) -> bool
    requires { left < right }
    ensures { IsTrue result ↔ IsTop site.entry.ground.instance.now site.entry.plate left right top }
{
    let params = site.ground.instance.params();
    top == params.height
        || u64::from(top) + u64::from(params.waste) <= u64::from(params.height)
            && site.ground.is_clear_y(site.plate, top, left, right)
}

/// Whether the line beside an item at `left` in this band runs through no defect, where the strip goes on behind the
/// item.
fn is_beside(site: Site, left: u32, right: u32, item: Sides, band: Band) -> bool
    requires left { left ≤ MOST_REACH }
    requires band { band.c < band.d }
    ensures { IsTrue result ↔ IsBeside site.entry.ground.instance.now site.entry.plate left
        right item.w band.c band.d }
{
    left + item.w == right
        || site
            .ground
            .is_clear_x(site.plate, left + item.w, band.c, band.d)
}

/// Whether a band from c on that the item fills may stand, in a strip from `left` to `right`.
fn fills(site: Site, left: u32, right: u32, item: Sides, c: u32) -> bool
    requires strip { left < right }
    requires left { left ≤ MOST_REACH }
    requires low { c ≤ MOST_REACH }
    ensures { IsTrue result ↔ IsTopOf site.entry.ground.instance.now site.entry.plate left right
        item.w item.h c (c + item.h) }
{
    let top = c + item.h;
    site.ground.instance.params().min2 <= item.h
        && is_top(site, left, right, top)
        && is_beside(site, left, right, item, Band { c, d: top })
}

/// The least upper side of a band from c on that leaves a waste over the item.
fn top_over(site: Site, left: u32, right: u32, item: Sides, c: u32) -> Option<u32>
    requires strip { left < right }
    requires left { left ≤ MOST_REACH }
    requires low { c ≤ MOST_REACH }
    ensures { let b = site.entry.ground.instance.now in
        MatchOption result (HasNone (IsOver b site.entry.plate left right item.w item.h c) 0)
        (IsLeast (IsOver b site.entry.plate left right item.w item.h c) 0) }
{
    let params = site.ground.instance.params();
    if item.w < params.waste
        || !site
            .ground
            .is_clear_y(site.plate, c + item.h, left, left + item.w)
    {
        return None;
    }
    let least = c + params.min2.max(item.h + params.waste);
    match top_from(site, left, right, least) {
        None => None,
        Some(top) => {
            if is_beside(site, left, right, item, Band { c, d: top }) {
                Some(top)
            } else {
                None
            }
        }
    }
}

/// The least upper side of the band of an item that stands at (left, c), in a strip from `left` to `right`.
fn top_of(site: Site, left: u32, right: u32, item: Sides, c: u32) -> Option<u32>
    requires strip { left < right }
    requires left { left ≤ MOST_REACH }
    requires low { c ≤ MOST_REACH }
    ensures { let b = site.entry.ground.instance.now in
        MatchOption result (HasNone (IsTopOf b site.entry.plate left right item.w item.h c) 0)
        (IsLeast (IsTopOf b site.entry.plate left right item.w item.h c) 0) }
{
    if fills(site, left, right, item, c) {
        Some(c + item.h)
    } else {
        top_over(site, left, right, item, c)
    }
}

/// The next place above c where the lower side of the item's band may stand, if it may not stand at c.
fn blocked_bottom(site: Site, left: u32, right: u32, item: Sides, c: u32) -> Option<u32>
    requires strip { left < right }
    requires left { left ≤ MOST_REACH }
    requires low { c ≤ MOST_REACH }
    ensures { let b = site.entry.ground.instance.now in
        MatchOption result (IsBottomOf b site.entry.plate left right item.w item.h c)
        (IsSkip (IsBottomOf b site.entry.plate left right item.w item.h) c) }
{
    if c == 0 {
        return blocked_item(site, left, 0, item);
    }
    let waste = site.ground.instance.params().waste;
    if c < waste {
        return Some(waste);
    }
    match blocked_level(site, c, left, right) {
        Some(next) => Some(next),
        None => blocked_item(site, left, c, item),
    }
}

/// The least band of an item that stands at the left side of a strip from `left` to `right`, from this lower side on.
pub fn band_from(site: Site, left: u32, right: u32, item: Sides) -> Option<Band>
    requires strip { left < right }
    requires left { left ≤ MOST_REACH }
    ensures { let b = site.entry.ground.instance.now in
        MatchOption result (HasNone (HasBand b site.entry.plate left right item.w item.h) 0)
        (IsLeastBand b site.entry.plate left right item.w item.h 0) }
{
    let height = site.ground.instance.params().height;
    let mut c = 0;
    while c + item.h <= height {
        match blocked_bottom(site, left, right, item, c) {
            Some(next) => c = next,
            None => match top_of(site, left, right, item, c) {
                Some(d) => return Some(Band { c, d }),
                None => c += 1,
            },
        }
    }
    None
}
