//! Fronts, each a row of a table with what leads on from it.

ghost use Rattle.std.specs.Prelude.{◌≡◌, ◌*◌, ◌-◌, ◌<◌, All, IsTrue, length};
ghost use Rattle.front_table.specs.Ends.{LinksBelow};
ghost use Rattle.front_table.specs.Lattice.{area_at, count_at, links_at, moves_at};

use crate::moves::Move;

/// A front. Rows are numbered from the front at which nothing is left.
#[derive(Drop)]
pub struct FrontRow {
    /// How many items of each stack are taken.
    pub taken: Vec<u32>,
    /// The area of the items that are left, in mm².
    pub area: u64,
    /// The rows at which one item more is taken.
    pub links: Vec<u32>,
    /// The cells from this front on: along is their width, across the heights of the bands in which they can stand.
    pub moves: Vec<Move>,
}

/// How many items of a stack are taken at a row.
pub fn count(rows: &[FrontRow], row: usize, stack: u32) -> u32
    ensures { result ≡ count_at rows.now row stack }
{
    let Some(found) = rows.get(row) else {
        return 0;
    };
    let taken = found.taken.as_slice();
    if (stack as usize) < taken.len() {
        taken[stack as usize]
    } else {
        0
    }
}

/// The area of the items that are left at a row, in mm².
pub fn area_left(rows: &[FrontRow], row: usize) -> u64
    ensures { result ≡ area_at rows.now row }
{
    match rows.get(row) {
        Some(found) => found.area,
        None => 0,
    }
}

/// The rows at which one item more is taken than at this one.
pub fn links_of(rows: &[FrontRow], row: usize) -> &[u32]
    requires { row < length rows.now }
    ensures { result.now ≡ links_at rows.now row }
{
    rows[row].links.as_slice()
}

/// Whether all of these rows are below another one.
fn are_below(links: &[u32], below: usize) -> bool
    ensures { IsTrue result → All (λ to. to < below) links.now }
{
    for to in links {
        if *to as usize >= below {
            return false;
        }
    }
    true
}

/// Whether all rows at which one item more is taken are below another one.
pub fn links_lead_below(rows: &[FrontRow], row: usize, below: usize) -> bool
    requires { row < length rows.now }
    ensures { IsTrue result → LinksBelow rows.now row below }
{
    are_below(links_of(rows, row), below)
}

/// The cells from a row on.
pub fn moves_of(rows: &[FrontRow], row: usize) -> &[Move]
    requires { row < length rows.now }
    ensures { result.now ≡ moves_at rows.now row }
{
    rows[row].moves.as_slice()
}

/// The area of a piece of glass, in mm².
pub fn glass_of(wide: u32, high: u32) -> u64
    ensures { result ≡ wide * high }
{
    u64::from(wide) * u64::from(high)
}

/// What a band so high, whose cells lead from a row to another, leaves beside and over them in a strip of this width, in mm².
pub fn waste_left(rows: &[FrontRow], row: usize, to: usize, top: u32, high: u32) -> u64
    ensures { result ≡ top * high - (area_at rows.now row - area_at rows.now to) }
{
    let own = area_left(rows, row).saturating_sub(area_left(rows, to));
    glass_of(top, high).saturating_sub(own)
}
