//! Where a walk over a plan stands, as the next step tells it.

ghost use Rattle.std.specs.Prelude.{◌≡◌};
ghost use Rattle.cut_model.specs.Visits.{IsSmall};
ghost use Rattle.plan_trace.specs.inner.Tellings.{newer as newer_of, place_at as place_at_of, place_behind as place_behind_of};

use cut_model::{Family, Sort};

/// The place of a piece. All lengths are in mm.
#[derive(Clone, Copy)]
pub struct Here {
    /// The outermost level of a piece since the last item.
    pub kind: u32,
    /// 1 behind a waste of a 4-cut, else 0.
    pub lift: u32,
    /// The left side of the strip.
    pub a: u32,
    /// The right side of the strip.
    pub b: u32,
    /// The lower side of the band.
    pub c: u32,
    /// The upper side of the band.
    pub d: u32,
    /// The left side of the cell.
    pub e: u32,
}

/// The side of a piece that a cut of this level makes, where one of at most the other level decides it, else what it was.
fn newer(cut: u32, level: u32, side: u32, before: u32) -> u32
    ensures { result ≡ newer_of cut level side before }
{
    if cut <= level { side } else { before }
}

/// The place of a piece.
pub fn place_at(here: Here, family: &Family) -> Here
    requires { IsSmall family.now }
    ensures { result ≡ place_at_of here family.now.row }
{
    let row = &family.row;
    Here {
        kind: here.kind.min(row.cut),
        lift: newer(4, row.cut, here.lift, 0),
        a: newer(row.cut, 1, row.x, here.a),
        b: newer(row.cut, 1, row.x + row.width, here.b),
        c: newer(row.cut, 2, row.y, here.c),
        d: newer(row.cut, 2, row.y + row.height, here.d),
        e: newer(row.cut, 3, row.x, here.e),
    }
}

/// The place behind a piece of this sort.
pub fn place_behind(here: Here, sort: Sort) -> Here
    ensures { result ≡ place_behind_of here sort }
{
    match sort {
        Sort::Item(_) => Here {
            kind: 4,
            lift: 0,
            ..here
        },
        Sort::Waste => Here { lift: 1, ..here },
        Sort::Branch => Here { lift: 0, ..here },
        Sort::Residual => Here { lift: 0, ..here },
    }
}
