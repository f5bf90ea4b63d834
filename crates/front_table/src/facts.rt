//! What is known of one row: its bands, its ends, what is to go from it, and its tails.

ghost use Rattle.std.specs.Prelude.{◌≡◌, ◌<◌, ◌≤◌, length, IfOk, OnOk};
ghost use Rattle.front_table.specs.Ends.{LinksBelow};
ghost use Rattle.front_table.specs.Levels.{to_go_at};
ghost use Rattle.front_table.specs.Ready.{Built, IsClosed, IsKnown, IsOpen, LeavesLeast};

use crate::bands::bands_from;
use crate::behind::Behind;
use crate::far::far_from;
use crate::fronts::Fronts;
use crate::halt::Halt;
use crate::levels::RowFacts;
use crate::packed::pack_all;
use crate::pools::LabelPool;
use crate::rows::{links_lead_below, links_of};
use crate::stairs::{ends_behind, with_itself};
use crate::tails::{all_tails_behind, lower_all, unit_of};
use std::alloc::Global;

/// What leads on from a row, and its ends, of which it is not known what is to go from it.
fn open_row(
    alloc: Global,
    fronts: &Fronts<'_>,
    pool: &mut LabelPool,
    row: usize,
) -> Result<RowFacts, Halt>
    requires rows { row < length fronts.now.rows.now }
    requires pool { length pool.old ≡ length fronts.now.rows.now }
    requires below { LinksBelow fronts.now.rows.now row (length fronts.now.levels.now) }
    requires built { Built fronts.now.instance.now fronts.now.rows.now fronts.now.tops.now
        fronts.now.cover fronts.now.levels.now }
    ensures len { OnOk result (length pool.new ≡ length pool.old) }
    ensures open { IfOk result (IsOpen fronts.now.instance.now fronts.now.rows.now
        fronts.now.tops.now fronts.now.cover (to_go_at fronts.now.levels.now) row) }
{
    let bands = bands_from(alloc, fronts, pool, row)?;
    let ends = ends_behind(alloc, fronts, row)?;
    let unit = unit_of(fronts.instance.params().height);
    let tails = all_tails_behind(alloc, fronts.levels, fronts.tops, bands.as_slice(), unit)?;
    let packed = pack_all(alloc, bands.as_slice())?;
    Ok(RowFacts {
        bands: packed,
        ends,
        to_go: 0,
        class: 0,
        tails,
    })
}

/// The same with what is to go from the row, in strips of which the first is of a class, and with the row as an end of
/// its own.
fn close_row(
    alloc: Global,
    opened: RowFacts,
    far: u64,
    class: usize,
    cover: u64,
) -> Result<RowFacts, Halt>
    ensures { IfOk result (λ closed. IsClosed opened closed far) }
{
    let ends = with_itself(alloc, opened.ends.as_slice(), far, cover)?;
    let mut tails = opened.tails;
    lower_all(tails.as_mut_slice(), far);
    Ok(RowFacts {
        bands: opened.bands,
        ends,
        to_go: far,
        class,
        tails,
    })
}

/// What is to go at the most, and the class of the first strip of that, from those rows at which one item more is
/// taken: from the row itself it is much the same.
fn guess_of(fronts: &Fronts<'_>, row: usize) -> (u64, usize)
    requires { row < length fronts.now.rows.now }
{
    let mut most = (0, 0);
    for to in links_of(fronts.rows, row) {
        if let Some(facts) = fronts.levels.get(*to as usize) {
            if facts.to_go > most.0 {
                most = (facts.to_go, facts.class);
            }
        }
    }
    most
}

/// What is to go from a row at least; nothing from the first one, at which nothing is left.
fn far_of(
    behind: &Behind<'_>,
    pool: &mut LabelPool,
    base: u64,
    hint: &mut usize,
) -> Result<u64, Halt>
    requires { behind.now.start < length pool.old }
    ensures len { OnOk result (length pool.new ≡ length pool.old) }
    ensures least { IfOk result
        (LeavesLeast behind.now.fronts.instance.now behind.now.fronts.rows.now
        (to_go_at behind.now.fronts.levels.now) behind.now.start) }
{
    if behind.start == 0 {
        return Ok(0);
    }
    far_from(behind, pool, base, hint)
}

/// All that is known of a row, from which items lead to the first rows alone.
pub(crate) fn facts_of(
    alloc: Global,
    fronts: &Fronts<'_>,
    pool: &mut LabelPool,
    row: usize,
) -> Result<RowFacts, Halt>
    requires low { length fronts.now.levels.now ≤ row }
    requires rows { row < length fronts.now.rows.now }
    requires pool { length pool.old ≡ length fronts.now.rows.now }
    requires built { Built fronts.now.instance.now fronts.now.rows.now fronts.now.tops.now
        fronts.now.cover fronts.now.levels.now }
    ensures len { OnOk result (length pool.new ≡ length pool.old) }
    ensures known { IfOk result (IsKnown fronts.now.instance.now fronts.now.rows.now
        fronts.now.tops.now fronts.now.cover fronts.now.levels.now row) }
{
    if !links_lead_below(fronts.rows, row, fronts.levels.len()) {
        return Err(Halt::Limit);
    }
    let opened = open_row(alloc, fronts, pool, row)?;
    let behind = Behind {
        fronts: *fronts,
        start: row,
        facts: &opened,
    };
    let (base, mut class) = guess_of(fronts, row);
    let far = far_of(&behind, pool, base, &mut class)?;
    let facts = close_row(alloc, opened, far, class, fronts.cover)?;
    Ok(facts)
}
