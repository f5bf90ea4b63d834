//! Where strips can begin behind the sides of a row.

ghost use Rattle.std.specs.Prelude.{◌≡◌, ℕ, suc, ◌+◌, ◌-◌, ◌<◌, ◌≤◌, OnOk};
ghost use Rattle.front_table.specs.Sets.{Fits, Held, Keeps};
ghost use Rattle.front_bound.specs.Sides.{NextHeld};

use front_table::halt::Halt;
use front_table::labels::{FrontLabel, offer};
use front_table::sets::SizeSet;
use glass_base::Instance;
use glass_base::limits::MOST_PLATES;

/// Offers a begin of strips behind a side, and one on the next plate where this one can end there.
fn offer_begin(
    instance: &Instance,
    begins: &mut Vec<FrontLabel>,
    side: &FrontLabel,
    far: u64,
    most: u64,
) -> Result<(), Halt>
    ensures kept { OnOk result (Keeps begins.old.items begins.new.items) }
    ensures own { OnOk result ((from plate : ℕ) → Fits side.now from plate
        → Held begins.new.items from plate) }
    ensures next { OnOk result ((from plate : ℕ) → Fits side.now from plate
        → NextHeld instance.now far most begins.new.items from plate) }
{
    offer(begins, side)?;
    let params = instance.params();
    // (as all sides have it that are offered)
    if side.across.more != u32::MAX || params.plates > MOST_PLATES {
        return Err(Halt::Limit);
    }
    let plate = side.across.least;
    if plate >= params.plates - 1 {
        return Ok(());
    }
    if !side.along.closed(params.waste).has(instance.width(plate)) {
        return Ok(());
    }
    if instance.before(plate + 1).saturating_add(far) > most {
        return Ok(());
    }
    let next = FrontLabel {
        along: SizeSet::only(0),
        across: SizeSet::only(plate + 1),
        right: SizeSet::all(),
        up: 0,
    };
    offer(begins, &next)?;
    Ok(())
}

/// All begins of strips behind these sides.
pub fn begins_of(
    instance: &Instance,
    begins: &mut Vec<FrontLabel>,
    sides: &[FrontLabel],
    far: u64,
    most: u64,
) -> Result<(), Halt>
    ensures own { OnOk result ((from plate : ℕ) → Held sides.now from plate
        → Held begins.new.items from plate) }
    ensures next { OnOk result ((from plate : ℕ) → Held sides.now from plate
        → NextHeld instance.now far most begins.new.items from plate) }
{
    begins.clear();
    for side in sides {
        offer_begin(instance, begins, side, far, most)?;
    }
    Ok(())
}

/// The least of these and of where strips can begin by a label on a plate.
fn first_by(begin: &FrontLabel, plate: u32, least: u32) -> u32
    ensures least { result ≤ least }
    ensures begin { (from : ℕ) → Fits begin.now from plate → result ≤ from }
{
    if !begin.across.has(plate) {
        return least;
    }
    least.min(begin.along.least)
}

/// No strip can begin on a plate before this.
pub fn first_at(begins: &[FrontLabel], plate: u32) -> u32
    ensures { (from : ℕ) → Held begins.now from plate → result ≤ from }
{
    let mut least = u32::MAX;
    for begin in begins {
        least = first_by(begin, plate, least);
    }
    least
}
