//! Whether the items of each stack are in its home, a stack of another instance, so that each can come off it when its turn has come.

ghost use Rattle.std.specs.Prelude.{◌≡◌, ℕ, ◌+◌, ◌<◌, ◌≤◌, IsTrue, length};
ghost use Rattle.glass_base.specs.Problem.{item_at};
ghost use Rattle.joined_stacks.specs.inner.Homes.{AreAlike, AreAtHome, AreHomes, AreWhole, FitsIn, at_home, home_of as home_of_stack, items_in};

use glass_base::{Instance, Item};

/// The home of a stack.
fn home_of(homes: &[u32], stack: u32) -> u32
    ensures { result ≡ home_of_stack homes.now stack }
{
    homes.get(stack as usize).copied().unwrap_or(0)
}

/// Whether there are two items, of the same sides.
fn are_alike(one: Option<Item>, other: Option<Item>) -> bool
    ensures { IsTrue result → AreAlike one other }
{
    match (one, other) {
        (Some(one), Some(other)) => one.length == other.length && one.width == other.width,
        _ => false,
    }
}

/// Whether an item of a stack is like that of its home at the same place, and like the next ones there, so many of them.
fn is_like_all(
    instance: &Instance,
    other: &Instance,
    stack: u32,
    home: u32,
    place: usize,
    most: usize,
) -> bool
    ensures { IsTrue result → (more : ℕ) → more ≤ most
        → AreAlike (item_at instance.now stack place) (item_at other.now home (place + more)) }
{
    let item = instance.item_of(stack, place);
    for more in 0..=most {
        let Some(there) = place.checked_add(more) else {
            return false;
        };
        if !are_alike(item, other.item_of(home, there)) {
            return false;
        }
    }
    true
}

/// Whether each item of a stack is like those that can come off its home when its turn has come.
fn fits_in(instance: &Instance, other: &Instance, stack: u32, home: u32) -> bool
    requires stack { stack < length instance.now.stacks }
    requires home { home < length other.now.stacks }
    ensures { IsTrue result → FitsIn instance.now other.now stack home }
{
    let own = instance.stack(stack).len();
    let Some(most) = other.stack(home).len().checked_sub(own) else {
        return false;
    };
    for place in 0..own {
        if !is_like_all(instance, other, stack, home, place, most) {
            return false;
        }
    }
    true
}

/// Whether each stack has a home, and its items fit in there.
fn are_at_home(instance: &Instance, other: &Instance, homes: &[u32]) -> bool
    ensures { IsTrue result → AreAtHome instance.now other.now homes.now }
{
    for stack in 0..instance.stacks() {
        let home = home_of(homes, stack);
        if home >= other.stacks() || !fits_in(instance, other, stack, home) {
            return false;
        }
    }
    true
}

/// Whether the stacks that have this home have as many items as it.
fn is_whole(instance: &Instance, other: &Instance, homes: &[u32], home: u32) -> bool
    requires { home < length other.now.stacks }
    ensures { IsTrue result
        → at_home homes.now (items_in instance.now) home (length instance.now.stacks)
        ≡ items_in other.now home }
{
    let mut left = other.stack(home).len();
    for stack in 0..instance.stacks() {
        if home_of(homes, stack) == home {
            let Some(less) = left.checked_sub(instance.stack(stack).len()) else {
                return false;
            };
            left = less;
        }
    }
    left == 0
}

/// Whether each home has as many items as the stacks whose home it is.
fn are_whole(instance: &Instance, other: &Instance, homes: &[u32]) -> bool
    ensures { IsTrue result → AreWhole instance.now other.now homes.now }
{
    for home in 0..other.stacks() {
        if !is_whole(instance, other, homes, home) {
            return false;
        }
    }
    true
}

/// Whether the items of each stack are in its home, and nothing else is.
pub fn are_homes(instance: &Instance, other: &Instance, homes: &[u32]) -> bool
    ensures { IsTrue result → AreHomes instance.now other.now homes.now }
{
    are_whole(instance, other, homes) && are_at_home(instance, other, homes)
}
