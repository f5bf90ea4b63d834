//! The first step of an item, on the plate in use or the next one.

ghost use Rattle.std.specs.Prelude.{◌≡◌, ◌-◌, ◌<◌, ◌≤◌, MatchOption};
ghost use Rattle.glass_base.specs.Items.{HasSides, IsItemInRange};
ghost use Rattle.plan_draft.specs.inner.Places.{HasNoPlace, IsFirstOf, IsPlace};
ghost use Rattle.plan_draft.specs.inner.Steps.{HasNoStep, IsFirstStep};

use crate::lefts::first_place;
use crate::place::ItemPlace;
use crate::site::Site;
use cut_model::Step;
use defect_map::Ground;
use glass_base::{Instance, Item};

/// The step of an item that stands alone at this place.
fn step_at(stack: u32, kind: u32, place: ItemPlace) -> Step
    ensures { result ≡ record {
      stack = stack;
      turn = place.turn;
      kind = kind;
      lift = 0;
      a =
          place.a;
      b = place.b;
      c = place.c;
      d = place.d;
      e = place.a;
    } }
{
    Step {
        stack,
        turn: place.turn,
        kind,
        lift: 0,
        a: place.a,
        b: place.b,
        c: place.c,
        d: place.d,
        e: place.a,
    }
}

/// The first place of an item on this plate, behind what ends at `from`.
fn place_on(ground: Ground<'_>, plate: u32, from: u32, item: &Item) -> Option<ItemPlace>
    requires range { IsItemInRange item.now }
    requires sides { HasSides item.now }
    ensures { let b = ground.entry.instance.now in
        MatchOption result (HasNoPlace (IsPlace b plate from item.now))
        (IsFirstOf (IsPlace b plate from item.now)) }
{
    let site = Site { ground, plate };
    first_place(site, from, item)
}

/// The first place of an item on the plate in use, if there is one, behind the last strip, which ends at `right`.
fn place_in_use(ground: Ground<'_>, plates: u32, right: u32, item: &Item) -> Option<ItemPlace>
    requires range { IsItemInRange item.now }
    requires sides { HasSides item.now }
    ensures { let b = ground.entry.instance.now in
        MatchOption result (1 ≤ plates → HasNoPlace (IsPlace b (plates - 1) right item.now))
        (λ p. (1 ≤ plates) × IsFirstOf (IsPlace b (plates - 1) right item.now) p) }
{
    if plates == 0 {
        return None;
    }
    place_on(ground, plates - 1, right, item)
}

/// The first place of an item on the next plate, if there is one.
fn place_on_next(ground: Ground<'_>, plates: u32, item: &Item) -> Option<ItemPlace>
    requires range { IsItemInRange item.now }
    requires sides { HasSides item.now }
    ensures { let b = ground.entry.instance.now in
        MatchOption result (plates < b.params.plates
        → HasNoPlace (IsPlace b plates 0 item.now)) (λ p. (plates < b.params.plates)
        × IsFirstOf (IsPlace b plates 0 item.now) p) }
{
    if plates >= ground.instance.params().plates {
        return None;
    }
    place_on(ground, plates, 0, item)
}

/// The first step of an item, where so many plates are begun and the last strip ends at `right`.
pub fn next_step(
    ground: Ground<'_>,
    plates: u32,
    right: u32,
    stack: u32,
    item: &Item,
) -> Option<Step>
    requires range { IsItemInRange item.now }
    requires sides { HasSides item.now }
    ensures { let b = ground.entry.instance.now in
        MatchOption result (HasNoStep b plates right stack item.now)
        (IsFirstStep b plates right stack item.now) }
{
    match place_in_use(ground, plates, right, item) {
        Some(place) => Some(step_at(stack, 1, place)),
        None => match place_on_next(ground, plates, item) {
            None => None,
            Some(place) => Some(step_at(stack, 0, place)),
        },
    }
}
