//! Lines that run through no defect.

ghost use Rattle.std.specs.Prelude.{◌≡◌, ◌+◌, ◌<◌, ◌≤◌, ℕ, MatchOption};
ghost use Rattle.defect_map.specs.Queries.{CrossesNoneX, CrossesNoneY, HitsNone};
ghost use Rattle.plan_draft.specs.inner.Least.{IsLeast, IsSkip};

use crate::place::Sides;
use crate::site::Site;
use glass_base::limits::MOST_REACH;

/// The right side of a defect through which the upright line at x runs, if there is one. All lines from x to there run through it.
pub fn blocked_upright(site: Site, x: u32) -> Option<u32>
    ensures { let b = site.entry.ground.instance.now in
        MatchOption result (CrossesNoneX b.defects site.entry.plate x 0 b.params.height)
        (IsSkip (λ m. CrossesNoneX b.defects site.entry.plate m 0 b.params.height) x) }
{
    let height = site.ground.instance.params().height;
    match site.ground.map.first_crossing_x(site.plate, x, 0, height) {
        None => None,
        Some(at) => Some(site.ground.instance.defects()[at].x1),
    }
}

/// The least x from this one on at which an upright line over the whole plate runs through no defect.
pub fn upright_from(site: Site, x: u32) -> u32
    ensures { let b = site.entry.ground.instance.now in
        IsLeast (λ m. CrossesNoneX b.defects site.entry.plate m 0 b.params.height) x result }
{
    let mut x = x;
    while let Some(next) = blocked_upright(site, x) {
        x = next;
    }
    x
}

/// The upper side of a defect through which the level line at y from x0 to x1 runs, if there is one. All lines from y to there run
/// through it.
pub fn blocked_level(site: Site, y: u32, x0: u32, x1: u32) -> Option<u32>
    requires { x0 < x1 }
    ensures { let b = site.entry.ground.instance.now in
        MatchOption result (CrossesNoneY b.defects site.entry.plate y x0 x1)
        (IsSkip (λ m. CrossesNoneY b.defects site.entry.plate m x0 x1) y) }
{
    match site.ground.map.first_crossing_y(site.plate, y, x0, x1) {
        None => None,
        Some(at) => Some(site.ground.instance.defects()[at].y1),
    }
}

/// The least y from this one on at which a level line from x0 to x1 runs through no defect.
pub fn level_from(site: Site, y: u32, x0: u32, x1: u32) -> u32
    requires { x0 < x1 }
    ensures { let b = site.entry.ground.instance.now in
        IsLeast (λ m. CrossesNoneY b.defects site.entry.plate m x0 x1) y result }
{
    let mut y = y;
    while let Some(next) = blocked_level(site, y, x0, x1) {
        y = next;
    }
    y
}

/// The upper side of a defect that an item at (x, y) meets, if there is one. The item meets it from y to there.
pub fn blocked_item(site: Site, x: u32, y: u32, item: Sides) -> Option<u32>
    requires right { x ≤ MOST_REACH }
    requires upper { y ≤ MOST_REACH }
    ensures { let b = site.entry.ground.instance.now in
        MatchOption result (HitsNone b.defects site.entry.plate x y (x + item.w) (y + item.h))
        (IsSkip (λ m. HitsNone b.defects site.entry.plate x m (x + item.w) (m + item.h)) y) }
{
    match site
        .ground
        .map
        .first_hit(site.plate, x, y, x + item.w, y + item.h)
    {
        None => None,
        Some(at) => Some(site.ground.instance.defects()[at].y1),
    }
}
