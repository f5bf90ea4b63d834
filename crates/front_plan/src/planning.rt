//! A plan along the fronts, strip by strip from its end back. What comes of it is a guess, which has to be asked of the
//! rules.

ghost use Rattle.std.specs.Prelude.{◌≡◌, ◌<◌, length, OnOk};

use crate::ends_at::{Between, Side, Strip, begins_behind, lefts_of, side_before, strips_between};
use crate::piling::pile_strip;
use crate::plan_search::PlanSearch;
use cut_model::{Step, Trace};
use front_table::far::low_of;
use front_table::halt::Halt;
use front_table::labels::FrontLabel;
use front_table::pools::LabelPool;
use front_table::rows::{area_left, glass_of};
use glass_base::{Run, append};

/// For a plan so many strips, and piles of bands in them, are tried.
const TRIES: u64 = 1_000;

/// What may still be tried for a plan.
#[derive(Drop)]
struct Efforts {
    tries: u64,
    /// The sides to which no strips lead.
    dead: Vec<Side>,
}

/// The end of a strip that was found, and how many steps there were before it was.
#[derive(Clone, Copy)]
struct Turn {
    end: Side,
    steps: usize,
}

/// The strips of a class that may follow a side of a row, up to one of another row.
#[derive(Clone, Copy)]
struct Candidates<'a> {
    /// The side behind which they begin.
    side: &'a FrontLabel,
    between: Between,
    /// The class of their widths.
    class: usize,
}

/// The steps of a strip, and the side that it begins behind.
#[derive(Drop)]
struct FoundStrip {
    steps: Run<Step>,
    before: Side,
}

/// Whether no strips lead to a side.
fn is_dead(dead: &[Side], side: &Side) -> bool {
    for known in dead {
        if known.row == side.row && known.plate == side.plate && known.right == side.right {
            return true;
        }
    }
    false
}

/// A strip that begins here.
fn strip_at(
    pool: &mut LabelPool,
    search: &PlanSearch<'_>,
    candidates: &Candidates<'_>,
    left: u32,
    efforts: &mut Efforts,
) -> Result<Option<FoundStrip>, Halt>
    requires from { candidates.now.between.from < length search.now.fronts.rows.now }
    requires class { candidates.now.class < length search.now.fronts.tops.now }
    requires pool { length pool.old ≡ length search.now.fronts.rows.now }
    ensures { OnOk result (length pool.new ≡ length pool.old) }
{
    let between = candidates.between;
    let from = between.from;
    let end = between.end;
    let before = side_before(
        search.fronts.instance,
        from,
        candidates.side,
        end.plate,
        left,
    );
    if efforts.tries == 0 || is_dead(efforts.dead.as_slice(), &before) {
        return Ok(None);
    }
    efforts.tries -= 1;
    let is_first = from + 1 == search.fronts.rows.len();
    let kind = if is_first || before.plate != end.plate {
        0
    } else {
        1
    };
    let strip = Strip {
        from,
        class: candidates.class,
        left,
        end,
    };
    let Some(steps) = pile_strip(pool, search, &strip, kind, &mut efforts.tries)? else {
        return Ok(None);
    };
    Ok(Some(FoundStrip { steps, before }))
}

/// A strip of a class.
fn strip_of_class(
    pool: &mut LabelPool,
    search: &PlanSearch<'_>,
    candidates: &Candidates<'_>,
    efforts: &mut Efforts,
) -> Result<Option<FoundStrip>, Halt>
    requires from { candidates.now.between.from < length search.now.fronts.rows.now }
    requires class { candidates.now.class < length search.now.fronts.tops.now }
    requires pool { length pool.old ≡ length search.now.fronts.rows.now }
    ensures { OnOk result (length pool.new ≡ length pool.old) }
{
    let between = candidates.between;
    let end = between.end;
    strips_between(pool, search, &between, candidates.class)?;
    let lefts = lefts_of(
        search.alloc,
        pool.labels(end.row),
        search.fronts.instance.params().height,
        &between.begins,
        end.right,
    )?;
    for left in &lefts {
        let found = strip_at(pool, search, candidates, *left, efforts)?;
        if found.is_some() {
            return Ok(found);
        }
    }
    Ok(None)
}

/// A strip behind a side.
fn strip_of(
    pool: &mut LabelPool,
    search: &PlanSearch<'_>,
    side: &FrontLabel,
    between: &Between,
    efforts: &mut Efforts,
) -> Result<Option<FoundStrip>, Halt>
    requires from { between.now.from < length search.now.fronts.rows.now }
    requires pool { length pool.old ≡ length search.now.fronts.rows.now }
    ensures { OnOk result (length pool.new ≡ length pool.old) }
{
    let params = search.fronts.instance.params();
    let rows = search.fronts.rows;
    let end = between.end;
    let room = end
        .right
        .saturating_sub(between.begins.least)
        .min(params.max1);
    let area = area_left(rows, between.from).saturating_sub(area_left(rows, end.row));
    if glass_of(room, params.height) < area {
        return Ok(None);
    }
    for class in 0..search.fronts.tops.len() {
        if low_of(search.fronts.tops, class, params.min1) > room {
            return Ok(None);
        }
        let candidates = Candidates {
            side,
            between: *between,
            class,
        };
        let found = strip_of_class(pool, search, &candidates, efforts)?;
        if found.is_some() {
            return Ok(found);
        }
    }
    Ok(None)
}

/// A strip behind one of the sides of a row that ends at a side of another one.
fn strip_from(
    pool: &mut LabelPool,
    search: &PlanSearch<'_>,
    sides: &LabelPool,
    from: usize,
    end: Side,
    efforts: &mut Efforts,
) -> Result<Option<FoundStrip>, Halt>
    requires from { from < length search.now.fronts.rows.now }
    requires down { end.row < from }
    requires pool { length pool.old ≡ length search.now.fronts.rows.now }
    requires sides { length sides.now ≡ length search.now.fronts.rows.now }
    ensures { OnOk result (length pool.new ≡ length pool.old) }
{
    for side in sides.labels(from) {
        if let Some(begins) = begins_behind(search.fronts.instance, side, end.plate) {
            let between = Between { from, begins, end };
            let found = strip_of(pool, search, side, &between, efforts)?;
            if found.is_some() {
                return Ok(found);
            }
        }
    }
    Ok(None)
}

/// A strip that ends at a side.
fn strip_to(
    pool: &mut LabelPool,
    search: &PlanSearch<'_>,
    sides: &LabelPool,
    end: Side,
    efforts: &mut Efforts,
) -> Result<Option<FoundStrip>, Halt>
    requires pool { length pool.old ≡ length search.now.fronts.rows.now }
    requires sides { length sides.now ≡ length search.now.fronts.rows.now }
    ensures { OnOk result (length pool.new ≡ length pool.old) }
{
    for from in end.row.saturating_add(1)..search.fronts.rows.len() {
        if efforts.tries == 0 {
            return Ok(None);
        }
        let found = strip_from(pool, search, sides, from, end, efforts)?;
        if found.is_some() {
            return Ok(found);
        }
    }
    Ok(None)
}

/// Appends steps, the last one first.
fn append_back(all: &mut Run<Step>, steps: &[Step]) -> Result<(), Halt> {
    for step in steps.iter().rev() {
        append(all, *step)?;
    }
    Ok(())
}

/// Takes back the strip that was found last, and its end, which is the next one to be tried again; none where there is
/// no strip.
fn turn_back(steps: &mut Run<Step>, turns: &mut Vec<Turn>) -> Option<Side> {
    let turn = turns.pop()?;
    for _ in turn.steps..steps.len() {
        let _step = steps.pop();
    }
    Some(turn.end)
}

/// A trace that ends at a side, by the right sides that a search within its length left, where strips are found. A side
/// to which none lead is left out, and other strips are looked for before it.
pub fn trace_to(
    pool: &mut LabelPool,
    search: &PlanSearch<'_>,
    sides: &LabelPool,
    last: Side,
) -> Result<Option<Trace>, Halt>
    requires pool { length pool.old ≡ length search.now.fronts.rows.now }
    requires sides { length sides.now ≡ length search.now.fronts.rows.now }
    ensures { OnOk result (length pool.new ≡ length pool.old) }
{
    let mut steps = Run::new(search.alloc);
    let mut turns = Vec::new(search.alloc);
    let mut end = last;
    let mut efforts = Efforts {
        tries: TRIES,
        dead: Vec::new(search.alloc),
    };
    for _ in 0..TRIES {
        if end.row >= search.fronts.rows.len() - 1 {
            steps.reverse();
            return Ok(Some(Trace { steps }));
        }
        if let Some(found) = strip_to(pool, search, sides, end, &mut efforts)? {
            turns.push(Turn {
                end,
                steps: steps.len(),
            })?;
            append_back(&mut steps, found.steps.as_slice())?;
            end = found.before;
        } else {
            efforts.dead.push(end)?;
            let Some(back) = turn_back(&mut steps, &mut turns) else {
                return Ok(None);
            };
            end = back;
        }
    }
    Ok(None)
}
