//! What is to go from a row: the least width of strips to the last front.

ghost use Rattle.std.specs.Prelude.{◌≡◌, ℕ, ◌+◌, ◌<◌, ◌≤◌, length, slice_index_or, IfOk, OnOk};
ghost use Rattle.front_table.specs.Levels.{to_go_at};
ghost use Rattle.front_table.specs.Packed.{unpacked_all};
ghost use Rattle.front_table.specs.Pools.{HeldAt};
ghost use Rattle.front_table.specs.Ready.{Fitting, IsLeast, LeavesLeast, TailsBelow};
ghost use Rattle.front_table.specs.Sets.{Fits, Held};
ghost use Rattle.front_table.specs.Tries.{Searchable};

use crate::behind::Behind;
use crate::halt::Halt;
use crate::labels::FrontLabel;
use crate::levels::{RowFacts, tails_of_class, to_go};
use crate::pools::LabelPool;
use crate::strips::{Limits, StripSearch, strips_behind};
use crate::tails::{tail_in, unit_of, units_in};

/// More than there is to go from any front.
pub const FAR: u64 = 1 << 40;

/// How much longer than that of the rows behind it what is to go from a row is first allowed to be, in mm.
const FIRST_STEP: u64 = 64;

/// How often that is doubled before any length is allowed.
const ROUNDS: u32 = 10;

/// The lesser of a number and of what a label's strip leaves to go, where it fills the plate.
fn least_by(label: &FrontLabel, height: u32, to_go: u64, found: u64) -> u64
    ensures found { result ≤ found }
    ensures label { (w : ℕ) → Fits label.now height w → result ≤ w + to_go }
{
    if !label.along.has(height) {
        return found;
    }
    found.min(u64::from(label.across.least).saturating_add(to_go))
}

/// The least that strips which end at a row leave to go, or a number where that is less.
fn least_in(labels: &[FrontLabel], height: u32, to_go: u64, found: u64) -> u64
    ensures found { result ≤ found }
    ensures labels { (w : ℕ) → Held labels.now height w → result ≤ w + to_go }
{
    let mut least = found;
    for label in labels {
        least = least_by(label, height, to_go, least);
    }
    least
}

/// The least that the strips of a search leave to go.
fn least_end(pool: &LabelPool, levels: &[RowFacts], height: u32) -> u64
    requires pool { length levels.now ≤ length pool.now }
    ensures { (m w : ℕ) → m < length levels.now → HeldAt pool.now m height w
        → result ≤ w + to_go_at levels.now m }
{
    let mut least = FAR;
    let low = pool.low();
    for row in low..levels.len() {
        least = least_in(pool.labels(row), height, to_go(levels, row), least);
    }
    least
}

/// The least that strips of a class leave to go from a row, as far as they and that are within the limits; any number where none is.
fn least_of_class(
    behind: &Behind<'_>,
    pool: &mut LabelPool,
    limits: &Limits,
    low: u32,
) -> Result<u64, Halt>
    requires pool { behind.now.start < length pool.old }
    requires searchable { Searchable behind.now.fronts.levels.now limits.now behind.now.start
        (length behind.now.fronts.levels.now) (unpacked_all behind.now.facts.now.bands.items)
        behind.now.facts.now.ends.items }
    requires fitting { Fitting behind.now.fronts.instance.now limits.now behind.now.fronts.cover }
    requires tails { TailsBelow behind.now.fronts.instance.now behind.now.fronts.rows.now
        behind.now.fronts.levels.now limits.now.class limits.now.bound
        (to_go_at behind.now.fronts.levels.now) (length behind.now.fronts.levels.now) }
    ensures len { OnOk result (length pool.new ≡ length pool.old) }
    ensures least { IfOk result (IsLeast behind.now.fronts.instance.now behind.now.fronts.rows.now
        (to_go_at behind.now.fronts.levels.now) behind.now.start low limits.now.bound
        limits.now.most) }
{
    let fronts = behind.fronts;
    let search = StripSearch {
        fronts,
        limits: *limits,
        start: behind.start,
    };
    strips_behind(pool, &search, behind.facts, low)?;
    Ok(least_end(pool, fronts.levels, limits.height))
}

/// The least that strips of a class that are at least `low` wide leave to go from a row, as far as that is within `most`; any number where none is.
fn least_in_class(
    behind: &Behind<'_>,
    pool: &mut LabelPool,
    class: usize,
    low: u32,
    most: u64,
) -> Result<u64, Halt>
    requires pool { behind.now.start < length pool.old }
    requires class { class < length behind.now.fronts.tops.now }
    ensures len { OnOk result (length pool.new ≡ length pool.old) }
    ensures least { IfOk result (IsLeast behind.now.fronts.instance.now behind.now.fronts.rows.now
        (to_go_at behind.now.fronts.levels.now) behind.now.start low
        (slice_index_or behind.now.fronts.tops.now class 0) most) }
{
    let params = behind.fronts.instance.params();
    let top = behind.fronts.tops[class];
    let limits = Limits {
        class,
        top,
        bound: top.min(params.max1),
        height: params.height,
        most,
    };
    let tails = tails_of_class(behind.facts, class);
    let tail = tail_in(tails, units_in(params.height, unit_of(params.height)));
    if tail + u64::from(low) > most {
        return Ok(FAR);
    }
    let least = least_of_class(behind, pool, &limits, low)?;
    Ok(least)
}

/// The least width of a class of strips, where the narrowest of all are so wide.
pub fn low_of(tops: &[u32], class: usize, min1: u32) -> u32
    ensures { class ≡ 0 → result ≡ min1 }
{
    if class == 0 {
        return min1;
    }
    match tops.get(class - 1) {
        Some(top) => top.saturating_add(1),
        None => min1,
    }
}

/// What strips of one class leave to go from a row; any number where none is within the limit.
fn least_hinted(
    behind: &Behind<'_>,
    pool: &mut LabelPool,
    class: usize,
    limit: u64,
) -> Result<u64, Halt>
    requires { behind.now.start < length pool.old }
    ensures { OnOk result (length pool.new ≡ length pool.old) }
{
    if class >= behind.fronts.tops.len() {
        return Ok(FAR);
    }
    let low = low_of(
        behind.fronts.tops,
        class,
        behind.fronts.instance.params().min1,
    );
    least_in_class(behind, pool, class, low, limit)
}

/// The least that strips leave to go from a row, where it is no more than `limit`, else more than that. `hint` is the class in which a strip was found last: it is
/// looked at first, since what is found there bounds the search in the others.
fn least_strip(
    behind: &Behind<'_>,
    pool: &mut LabelPool,
    limit: u64,
    hint: &mut usize,
) -> Result<u64, Halt>
    requires { behind.now.start < length pool.old }
    ensures len { OnOk result (length pool.new ≡ length pool.old) }
    ensures least { IfOk result
        (LeavesLeast behind.now.fronts.instance.now behind.now.fronts.rows.now
        (to_go_at behind.now.fronts.levels.now) behind.now.start) }
{
    let params = behind.fronts.instance.params();
    let tops = behind.fronts.tops;
    let first = least_hinted(behind, pool, *hint, limit)?;
    let mut found = first;
    let mut low = params.min1;
    for class in 0..tops.len() {
        let most = limit.min(found.saturating_sub(1));
        let least = least_in_class(behind, pool, class, low, most)?;
        if least < found {
            *hint = class;
        }
        found = found.min(least);
        let Some(next) = tops[class].checked_add(1) else {
            return Ok(0);
        };
        low = next;
    }
    if low <= params.max1 {
        return Ok(0);
    }
    Ok(found.min(limit.saturating_add(1)))
}

/// What is to go from a row at least, by growing limits: a search within a limit is the cheaper the lower that is.
pub fn far_from(
    behind: &Behind<'_>,
    pool: &mut LabelPool,
    base: u64,
    hint: &mut usize,
) -> Result<u64, Halt>
    requires { behind.now.start < length pool.old }
    ensures len { OnOk result (length pool.new ≡ length pool.old) }
    ensures least { IfOk result
        (LeavesLeast behind.now.fronts.instance.now behind.now.fronts.rows.now
        (to_go_at behind.now.fronts.levels.now) behind.now.start) }
{
    let mut step = FIRST_STEP;
    for _ in 0..ROUNDS {
        let limit = base.saturating_add(step);
        let least = least_strip(behind, pool, limit, hint)?;
        if least <= limit {
            return Ok(least);
        }
        step = step.saturating_mul(2);
    }
    least_strip(behind, pool, FAR, hint)
}
