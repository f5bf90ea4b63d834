//! Where an item stands alone in a strip of its own.

ghost use Rattle.std.specs.Prelude.{◌≡◌, ◌≤◌};
ghost use Rattle.plan_draft.specs.inner.Places.{lesser, not_after, rank_of};
ghost use Rattle.glass_base.specs.declared.limits.TheConstants.{MOST_SIDE};

/// The sides of an item's strip and band, in mm, and the item's turn. The item stands at (a, c).
#[derive(Clone, Copy)]
pub struct ItemPlace {
    /// The left side of the strip.
    pub a: u32,
    /// The right side of the strip.
    pub b: u32,
    /// The lower side of the band.
    pub c: u32,
    /// The upper side of the band.
    pub d: u32,
    /// 0 where the item's length lies along x, else 1.
    pub turn: u32,
}

/// The sides of an item as it lies, in mm.
#[derive(Clone, Copy)]
pub struct Sides {
    pub w: u32,
    pub h: u32,
    ghost wide: { (1 ≤ w) × (w ≤ MOST_SIDE) },
    ghost high: { (1 ≤ h) × (h ≤ MOST_SIDE) },
}

/// The lower and the upper side of a band, in mm.
#[derive(Clone, Copy)]
pub struct Band {
    pub c: u32,
    pub d: u32,
}

/// Whether a place does not come after another one: by b, a, c, d and turn, the first that differs deciding.
fn is_not_after(place: &ItemPlace, other: &ItemPlace) -> bool
    ensures { result ≡ not_after (rank_of place.now) (rank_of other.now) }
{
    if place.b != other.b {
        return place.b < other.b;
    }
    if place.a != other.a {
        return place.a < other.a;
    }
    if place.c != other.c {
        return place.c < other.c;
    }
    if place.d != other.d {
        return place.d < other.d;
    }
    place.turn <= other.turn
}

/// The one of two places that comes first, where there is one.
pub fn first_of(one: Option<ItemPlace>, other: Option<ItemPlace>) -> Option<ItemPlace>
    ensures { result ≡ lesser one other }
{
    match one {
        None => other,
        Some(place) => match other {
            None => Some(place),
            Some(next) => {
                if is_not_after(&place, &next) {
                    Some(place)
                } else {
                    Some(next)
                }
            }
        },
    }
}
