//! How many cuts a sheet makes, and what of the glass is waste.

ghost use Rattle.std.specs.Prelude.{◌≡◌, ◌<◌, ◌^◌};
ghost use Rattle.cut_sheet.specs.Areas.{cut_count, is_cut as is_cut_of, made_area, waste_area as waste_area_of, wasted as wasted_of};

use crate::instr::{Instr, Made};

/// Whether an instruction cuts a part off.
fn is_cut(instr: &Instr) -> bool
    ensures { result ≡ is_cut_of instr.now }
{
    matches!(instr, Instr::Off(_))
}

/// How many cuts a sheet makes.
pub fn cuts(sheet: &[Instr]) -> u64
    ensures { result ≡ cut_count sheet.now }
{
    sheet.iter().filter(|instr| is_cut(instr)).count() as u64
}

/// What a piece wastes, in mm².
fn wasted(piece: &Made) -> u64
    ensures { result ≡ wasted_of piece.now }
{
    match piece.kind {
        -1 => u64::from(piece.width) * u64::from(piece.height),
        _ => 0,
    }
}

/// The area of the wastes, in mm². It takes no memory.
pub fn waste(made: &[Made]) -> u64
    requires { made_area made.now < 2 ^ 64 }
    ensures { result ≡ waste_area_of made.now }
{
    let mut area = 0;
    for piece in made {
        area += wasted(piece);
    }
    area
}
