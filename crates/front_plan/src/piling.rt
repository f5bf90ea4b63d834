//! The steps of a strip, from its lower end up: bands one on the other. What comes of it is a guess, which has to be
//! asked of the rules.

ghost use Rattle.std.specs.Prelude.{◌≡◌, ◌<◌, length, OnOk};

use crate::cells::FrontBand;
use crate::cutting::{NextPiece, cut_band};
use crate::ends_at::{Between, Strip, strips_between};
use crate::heights::{SoughtBand, StripFrame, bottoms_of, tops_of};
use crate::needs::{need_at, needs_of};
use crate::plan_search::PlanSearch;
use cut_model::Step;
use front_table::bands::bands_from;
use front_table::halt::Halt;
use front_table::moves::Move;
use front_table::pools::LabelPool;
use front_table::sets::SizeSet;
use glass_base::Run;

/// In a strip so many piles are gone on from,
const PILES: usize = 64;

/// and so many bands are tried,
const BANDS: u32 = 1_000;

/// each with so many choices of its cells.
const CELLS: u64 = 8;

/// Bands one on the other.
#[derive(Drop)]
struct Pile {
    /// The row that they lead to, and where they end, in mm.
    row: usize,
    top: u32,
    /// The place of the pile that the last band stands on, and the steps of that band.
    below: usize,
    steps: Run<Step>,
}

/// The piles that were found in a strip.
#[derive(Drop)]
struct Piles {
    all: Vec<Pile>,
    /// The places of those that were not gone on from.
    waiting: Vec<usize>,
    /// So many bands may still be tried.
    bands: u32,
}

/// Whether some pile leads to a row and ends there.
fn is_held(piles: &[Pile], row: usize, top: u32) -> bool {
    for pile in piles {
        if pile.row == row && pile.top == top {
            return true;
        }
    }
    false
}

/// The first piece of a strip. `kind` is 0 where it begins a plate, else 1.
fn first_piece(strip: &Strip, kind: u32) -> NextPiece {
    NextPiece {
        plate: strip.end.plate,
        step: Step {
            kind,
            a: strip.left,
            b: strip.end.right,
            e: strip.left,
            ..Step::NONE
        },
    }
}

/// A strip's width, in mm.
fn width_of(frame: &StripFrame<'_>) -> u32 {
    frame.spot.step.b.saturating_sub(frame.spot.step.a)
}

/// The first piece of a band.
fn piece_of(frame: &StripFrame<'_>, sought: &SoughtBand) -> NextPiece {
    let strip = frame.strip;
    let mut spot = frame.spot;
    spot.step.c = sought.bottom;
    spot.step.d = sought.top;
    if sought.from != strip.from {
        spot.step.kind = 2;
    }
    spot
}

/// The steps of a band, by the cells that a search from its row left, where some are found clear of defects.
fn steps_of_band(
    pool: &LabelPool,
    frame: &StripFrame<'_>,
    sought: &SoughtBand,
) -> Result<Option<Run<Step>>, Halt>
    requires { length pool.now ≡ length frame.now.search.now.fronts.rows.now }
{
    let search = frame.search;
    let band = FrontBand {
        from: sought.from,
        to: sought.to,
        width: width_of(frame),
        height: sought.top.saturating_sub(sought.bottom),
    };
    let spot = piece_of(frame, sought);
    for choice in 0..CELLS {
        let mut left = choice;
        let steps = cut_band(pool, search, &band, &spot, &mut left)?;
        if steps.is_some() {
            return Ok(steps);
        }
    }
    Ok(None)
}

/// Whether the sides of a band from one side of its strip to the other run through no defect.
fn are_lines_clear(frame: &StripFrame<'_>, sought: &SoughtBand) -> bool {
    let search = frame.search;
    let at = &frame.spot.step;
    if at.a >= at.b {
        return false;
    }
    let height = search.fronts.instance.params().height;
    let ground = search.ground;
    let plate = frame.spot.plate;
    (sought.bottom == 0 || ground.is_clear_y(plate, sought.bottom, at.a, at.b))
        && (sought.top >= height || ground.is_clear_y(plate, sought.top, at.a, at.b))
}

/// Tries a band, where no pile leads to its row and ends where it does.
fn try_band(
    pool: &LabelPool,
    frame: &StripFrame<'_>,
    piles: &mut Piles,
    sought: &SoughtBand,
) -> Result<(), Halt>
    requires { length pool.now ≡ length frame.now.search.now.fronts.rows.now }
{
    if piles.bands == 0
        || is_held(piles.all.as_slice(), sought.to, sought.top)
        || !are_lines_clear(frame, sought)
    {
        return Ok(());
    }
    piles.bands -= 1;
    let Some(steps) = steps_of_band(pool, frame, sought)? else {
        return Ok(());
    };
    piles.waiting.push(piles.all.len())?;
    piles.all.push(Pile {
        row: sought.to,
        top: sought.top,
        below: sought.below,
        steps,
    })?;
    Ok(())
}

/// Tries a band with each of the ends that it can have where it begins.
fn try_tops(
    pool: &LabelPool,
    frame: &StripFrame<'_>,
    piles: &mut Piles,
    least: &SoughtBand,
    band: &Move,
) -> Result<(), Halt>
    requires { length pool.now ≡ length frame.now.search.now.fronts.rows.now }
{
    let search = frame.search;
    let strip = frame.strip;
    let need = need_at(frame.needs, strip.end.row, least.to);
    let most = search.fronts.instance.params().height.saturating_sub(need);
    if least.top > most {
        return Ok(());
    }
    let tops = tops_of(frame, least, most)?;
    for top in &tops {
        if band.label.along.has(top.saturating_sub(least.bottom)) {
            let sought = SoughtBand {
                top: *top,
                ..*least
            };
            try_band(pool, frame, piles, &sought)?;
        }
    }
    Ok(())
}

/// Tries each band that begins here, of some that lead from the row.
fn try_bands(
    pool: &LabelPool,
    frame: &StripFrame<'_>,
    piles: &mut Piles,
    base: &SoughtBand,
    bands: &[Move],
) -> Result<(), Halt>
    requires { length pool.now ≡ length frame.now.search.now.fronts.rows.now }
{
    let width = width_of(frame);
    for band in bands {
        if band.label.across.has(width) {
            let least = SoughtBand {
                to: band.to as usize,
                top: base.bottom.saturating_add(band.label.along.least),
                ..*base
            };
            try_tops(pool, frame, piles, &least, band)?;
        }
    }
    Ok(())
}

/// Tries each band on a pile.
fn pile_on(
    pool: &mut LabelPool,
    frame: &StripFrame<'_>,
    piles: &mut Piles,
    base: &SoughtBand,
) -> Result<(), Halt>
    requires { length pool.old ≡ length frame.now.search.now.fronts.rows.now }
    ensures { OnOk result (length pool.new ≡ length pool.old) }
{
    let search = frame.search;
    let strip = frame.strip;
    if base.from >= search.fronts.rows.len() {
        return Ok(());
    }
    let need = need_at(frame.needs, strip.end.row, base.from);
    let most = search.fronts.instance.params().height.saturating_sub(need);
    let bands = bands_from(search.alloc, &search.fronts, pool, base.from)?;
    let bottoms = bottoms_of(frame, base.bottom, most)?;
    for bottom in bottoms.iter().rev() {
        let above = SoughtBand {
            bottom: *bottom,
            ..*base
        };
        try_bands(pool, frame, piles, &above, bands.as_slice())?;
    }
    Ok(())
}

/// The places of a pile and of those below it, the lowest one last.
fn places_below(search: &PlanSearch<'_>, piles: &[Pile], at: usize) -> Result<Vec<usize>, Halt> {
    let mut places = Vec::new(search.alloc);
    let mut next = at;
    for _ in 0..piles.len() {
        if next == 0 {
            return Ok(places);
        }
        places.push(next)?;
        next = match piles.get(next) {
            Some(pile) => pile.below,
            None => 0,
        };
    }
    Ok(places)
}

/// The steps of a pile, from its lowest band on.
fn steps_to(search: &PlanSearch<'_>, piles: &[Pile], at: usize) -> Result<Run<Step>, Halt> {
    let places = places_below(search, piles, at)?;
    let mut steps = Run::new(search.alloc);
    for place in places.iter().rev() {
        if let Some(pile) = piles.get(*place) {
            steps.extend_from_slice(pile.steps.as_slice())?;
        }
    }
    Ok(steps)
}

/// What begins on a pile.
fn base_on(piles: &[Pile], at: usize) -> Option<SoughtBand> {
    let pile = piles.get(at)?;
    Some(SoughtBand {
        below: at,
        from: pile.row,
        to: pile.row,
        bottom: pile.top,
        top: pile.top,
    })
}

/// Whether a pile fills its strip: what it leaves is nothing or a waste.
fn is_filled(frame: &StripFrame<'_>, base: &SoughtBand) -> bool {
    let search = frame.search;
    let strip = frame.strip;
    let params = search.fronts.instance.params();
    base.from == strip.end.row
        && (base.bottom == params.height
            || base.bottom.saturating_add(params.waste) <= params.height)
}

/// The pile of no bands.
fn empty_piles(frame: &StripFrame<'_>) -> Result<Piles, Halt> {
    let search = frame.search;
    let strip = frame.strip;
    let mut all = Vec::new(search.alloc);
    let mut waiting = Vec::new(search.alloc);
    all.push(Pile {
        row: strip.from,
        top: 0,
        below: 0,
        steps: Run::new(search.alloc),
    })?;
    waiting.push(0)?;
    Ok(Piles {
        all,
        waiting,
        bands: BANDS,
    })
}

/// The steps of a pile that fills a strip, where one is found while tries are left: each pile that is gone on from is
/// one.
fn filled(
    pool: &mut LabelPool,
    frame: &StripFrame<'_>,
    tries: &mut u64,
) -> Result<Option<Run<Step>>, Halt>
    requires { length pool.old ≡ length frame.now.search.now.fronts.rows.now }
    ensures { OnOk result (length pool.new ≡ length pool.old) }
{
    let search = frame.search;
    let mut piles = empty_piles(frame)?;
    for _ in 0..PILES {
        let Some(at) = piles.waiting.pop() else {
            return Ok(None);
        };
        let Some(base) = base_on(piles.all.as_slice(), at) else {
            return Ok(None);
        };
        if is_filled(frame, &base) {
            let steps = steps_to(search, piles.all.as_slice(), at)?;
            return Ok(Some(steps));
        }
        if *tries == 0 {
            return Ok(None);
        }
        *tries -= 1;
        pile_on(pool, frame, &mut piles, &base)?;
    }
    Ok(None)
}

/// Whether a side of a strip runs through no defect.
fn is_side_clear(search: &PlanSearch<'_>, plate: u32, x: u32) -> bool {
    let height = search.fronts.instance.params().height;
    if x == 0 || x >= search.fronts.instance.width(plate) || height == 0 {
        return true;
    }
    search.ground.is_clear_x(plate, x, 0, height)
}

/// The steps of a strip, where its bands and cells are found, clear of defects, while tries are left. `kind` is 0 where
/// it begins a plate, else 1.
pub fn pile_strip(
    pool: &mut LabelPool,
    search: &PlanSearch<'_>,
    strip: &Strip,
    kind: u32,
    tries: &mut u64,
) -> Result<Option<Run<Step>>, Halt>
    requires from { strip.now.from < length search.now.fronts.rows.now }
    requires class { strip.now.class < length search.now.fronts.tops.now }
    requires pool { length pool.old ≡ length search.now.fronts.rows.now }
    ensures { OnOk result (length pool.new ≡ length pool.old) }
{
    let end = strip.end;
    if !is_side_clear(search, end.plate, strip.left)
        || !is_side_clear(search, end.plate, end.right)
    {
        return Ok(None);
    }
    let between = Between {
        from: strip.from,
        begins: SizeSet::only(strip.left),
        end,
    };
    strips_between(pool, search, &between, strip.class)?;
    let needs = needs_of(pool, search, strip)?;
    let frame = StripFrame {
        search,
        strip,
        spot: first_piece(strip, kind),
        needs: needs.as_slice(),
    };
    filled(pool, &frame, tries)
}
