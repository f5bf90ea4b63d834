//! Where strips can end within a length, level by level from the last row down.

ghost use Rattle.std.specs.Prelude.{◌≡◌, ℕ, ◌+◌, ◌-◌, ◌<◌, ◌≤◌, All, length, IfOk, OnOk};
ghost use Rattle.glass_base.specs.Plates.{Before, Width};
ghost use Rattle.plan_trace.specs.TraceRules.{Gap};
ghost use Rattle.front_course.specs.Claims.{NoCourseShorter};
ghost use Rattle.front_bound.specs.inner.SideLanes.{HasRoom};
ghost use Rattle.front_bound.specs.Sides.{SidesGoOn};
ghost use Rattle.front_table.specs.Levels.{to_go_at};
ghost use Rattle.front_table.specs.Pools.{HeldAt, Spreads};
ghost use Rattle.front_table.specs.Ready.{AreFronts};
ghost use Rattle.front_table.specs.Sets.{Fits, Held};

use crate::side_lanes::{SideLane, handle_level, join_lanes, labels_left_behind, new_side_lanes};
use crate::side_level::{SideLevel, level_start};
use front_table::fronts::Fronts;
use front_table::halt::Halt;
use front_table::labels::FrontLabel;
use front_table::pools::LabelPool;
use front_table::probe::Probe;
use front_table::sets::SizeSet;
use glass_base::limits::MOST_PLATES;
use glass_base::{Instance, Listener, News};
use std::thread::Threads;

/// The lesser of a length and of where a plate can end at a side, with all plates before it in one line.
pub fn end_by(instance: &Instance, side: &FrontLabel, least: u64) -> u64
    ensures least { result ≤ least }
    ensures side { (right plate : ℕ) → Fits side.now right plate
        → plate < instance.now.params.plates
        → Gap instance.now.params.waste right (Width instance.now plate)
        → result ≤ Before instance.now plate + right }
{
    let params = instance.params();
    let plate = side.across.least;
    if side.across.more != u32::MAX || plate >= params.plates || params.plates > MOST_PLATES {
        return 0;
    }
    let width = instance.width(plate);
    let before = instance.before(plate);
    let first = u64::from(side.along.least);
    if first + u64::from(params.waste) <= u64::from(width) {
        return least.min(before.saturating_add(first));
    }
    if side.along.has(width) {
        return least.min(before.saturating_add(u64::from(width)));
    }
    least
}

/// The least length at which a plate can end at one of the sides, or a length where that is less.
fn least_end(instance: &Instance, sides: &[FrontLabel], most: u64) -> u64
    ensures most { result ≤ most }
    ensures ends { (right plate : ℕ) → Held sides.now right plate
        → plate < instance.now.params.plates
        → Gap instance.now.params.waste right (Width instance.now plate)
        → result ≤ Before instance.now plate + right }
{
    let mut least = most;
    for side in sides {
        least = end_by(instance, side, least);
    }
    least
}

/// Puts the right sides at the rows of a level in an order that does not depend on how many lanes have found them.
fn sort_level(sides: &mut LabelPool, first: usize, end: usize)
    requires { end ≤ length sides.old }
    ensures { Spreads end sides.old sides.new }
{
    for row in first..end {
        sides.sort_by_plate(row);
    }
}

/// What is left to be done.
#[derive(Clone, Copy)]
struct Rest {
    /// Strips from the rows before this one.
    end: usize,
    /// So many labels may still be looked at.
    labels: u64,
}

/// Adds the right sides of strips from the rows of the next level, and gives what is left then.
fn add_sides<R: Threads + Sync, L>(
    probe: &Probe<'_, R, L>,
    fronts: &Fronts<'_>,
    most: u64,
    sides: &mut LabelPool,
    lanes: &mut [SideLane],
    rest: Rest,
) -> Result<Rest, Halt>
    requires rest { 1 < rest.end }
    requires inside { rest.end ≤ length fronts.now.rows.now }
    requires fronts { AreFronts fronts.now }
    requires sides { length sides.old ≡ length fronts.now.rows.now }
    requires some { 1 ≤ length lanes.old }
    requires room { All (HasRoom fronts.now.rows.now) lanes.old }
    ensures some { IfOk result (λ left. 1 ≤ left.end) }
    ensures down { IfOk result (λ left. left.end < rest.end) }
    ensures len { OnOk result (length lanes.new ≡ length lanes.old) }
    ensures room { OnOk result (All (HasRoom fronts.now.rows.now) lanes.new) }
    ensures spreads { OnOk result (Spreads rest.end sides.old sides.new) }
    ensures goes_on { IfOk result (λ left. (n : ℕ) → left.end ≤ n → n < rest.end
        → SidesGoOn fronts.now.instance.now fronts.now.rows.now
        (to_go_at fronts.now.levels.now) most sides.new n) }
{
    let first = level_start(fronts.rows, rest.end);
    sort_level(sides, first, rest.end);
    let level = SideLevel {
        fronts: *fronts,
        sides: &*sides,
        first,
        end: rest.end,
        lanes: lanes.len(),
        most,
        labels: rest.labels,
    };
    handle_level(probe.rt, &level, lanes);
    let labels = labels_left_behind(lanes, rest.labels)?;
    join_lanes(sides, lanes, first)?;
    Ok(Rest { end: first, labels })
}

/// Adds the right sides of strips from all rows, level by level.
fn add_all_sides<R: Threads + Sync, L: Listener>(
    probe: &Probe<'_, R, L>,
    fronts: &Fronts<'_>,
    most: u64,
    sides: &mut LabelPool,
    lanes: &mut [SideLane],
) -> Result<(), Halt>
    requires some { 1 < length fronts.now.rows.now }
    requires fronts { AreFronts fronts.now }
    requires sides { length sides.old ≡ length fronts.now.rows.now }
    requires lanes { 1 ≤ length lanes.old }
    requires room { All (HasRoom fronts.now.rows.now) lanes.old }
    ensures spreads { OnOk result (Spreads (length fronts.now.rows.now) sides.old sides.new) }
    ensures goes_on { OnOk result ((n : ℕ) → 0 < n → n < length fronts.now.rows.now
        → SidesGoOn fronts.now.instance.now fronts.now.rows.now
        (to_go_at fronts.now.levels.now) most sides.new n) }
{
    let all = fronts.rows.len();
    let mut rest = Rest {
        end: all,
        labels: probe.limit,
    };
    while rest.end > 1 {
        probe.listener.hear(News::Fronts {
            done: all - rest.end,
            all: all - 1,
        });
        rest = add_sides(probe, fronts, most, sides, lanes, rest)?;
    }
    sides.sort_by_plate(0);
    Ok(())
}

/// The right sides at which strips can end, front by front, as far as they and what is to go are within `most`.
pub fn sides_within<R: Threads + Sync, L: Listener>(
    probe: &Probe<'_, R, L>,
    fronts: &Fronts<'_>,
    most: u64,
) -> Result<LabelPool, Halt>
    requires some { 1 < length fronts.now.rows.now }
    requires fronts { AreFronts fronts.now }
    ensures len { IfOk result (λ sides. length sides ≡ length fronts.now.rows.now) }
    ensures start { IfOk result (λ sides. HeldAt sides (length fronts.now.rows.now - 1) 0 0) }
    ensures goes_on { IfOk result (λ sides. (n : ℕ) → 0 < n → n < length fronts.now.rows.now
        → SidesGoOn fronts.now.instance.now fronts.now.rows.now
        (to_go_at fronts.now.levels.now) most sides n) }
{
    // (what is joined was counted where it was offered)
    let mut sides = LabelPool::new(probe.alloc, fronts.rows.len(), u64::MAX)?;
    let mut lanes = new_side_lanes(probe.alloc, fronts.rows, probe.threads)?;
    let start = FrontLabel {
        along: SizeSet::only(0),
        across: SizeSet::only(0),
        right: SizeSet::all(),
        up: 0,
    };
    sides.offer(fronts.rows.len() - 1, &start)?;
    add_all_sides(probe, fronts, most, &mut sides, lanes.as_mut_slice())?;
    Ok(sides)
}

/// A length that no course is below, as far as what is known of all fronts tells: the least one up to `most`, or more than that where none is so short.
pub fn least_reached<R: Threads + Sync, L: Listener>(
    probe: &Probe<'_, R, L>,
    fronts: &Fronts<'_>,
    most: u64,
) -> Result<u64, Halt>
    requires { AreFronts fronts.now }
    ensures { IfOk result (NoCourseShorter fronts.now.instance.now) }
{
    if fronts.rows.len() <= 1 {
        return Ok(0);
    }
    let sides = sides_within(probe, fronts, most)?;
    Ok(least_end(fronts.instance, sides.labels(0), most.saturating_add(1)))
}
