//! The sides of a strip.

ghost use Rattle.std.specs.Prelude.{◌≡◌, ◌+◌, ◌<◌, ◌≤◌, ◌^◌, MatchOption};
ghost use Rattle.plan_draft.specs.inner.Least.{HasNone, IsLeast};
ghost use Rattle.plan_draft.specs.inner.Places.{IsRight};

use crate::lines::upright_from;
use crate::site::Site;

/// The least right side of a strip from `least` on and up to `most`.
pub fn right_from(site: Site, least: u32, most: u32) -> Option<u32>
    requires { most < 2 ^ 20 }
    ensures { let b = site.entry.ground.instance.now in
        MatchOption result (HasNone (IsRight b site.entry.plate most) least)
        (IsLeast (IsRight b site.entry.plate most) least) }
{
    let width = site.ground.instance.width(site.plate);
    let right = upright_from(site, least);
    if right <= most && right + site.ground.instance.params().waste <= width {
        return Some(right);
    }
    if least <= width && width <= most {
        return Some(width);
    }
    None
}
