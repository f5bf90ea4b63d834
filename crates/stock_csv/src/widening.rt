//! Defects widened to whole millimetres.

ghost use Rattle.std.specs.Prelude.{◌≡◌, ◌==◌, ◌+◌, IfOk};
ghost use Rattle.csv_table.specs.Numbers.{IsAtMost, millionths_in};
ghost use Rattle.glass_base.specs.Items.{IsDefectInRange};
ghost use Rattle.stock_csv.specs.DefectRows.{down, up, widened as widened_of};

use csv_table::Decimal;
use glass_base::limits::MOST_SIDE;
use glass_base::{BadText, Defect};

/// The greatest whole number that is not above a number.
fn floor(number: Decimal) -> u32
    requires { IsAtMost MOST_SIDE number }
    ensures { result ≡ down (millionths_in number) }
{
    number.whole
}

/// The least whole number that is not below the sum of two numbers.
fn ceiling_of_sum(corner: Decimal, side: Decimal) -> u32
    requires corner { IsAtMost MOST_SIDE corner }
    requires side { IsAtMost MOST_SIDE side }
    ensures { result ≡ up (millionths_in corner + millionths_in side) }
{
    corner.whole + side.whole + (corner.millionths + side.millionths).div_ceil(1_000_000)
}

/// Whether a number is 0.
fn is_zero(number: Decimal) -> bool
    ensures { result ≡ (millionths_in number == 0) }
{
    number.whole == 0 && number.millionths == 0
}

/// The rectangle of a defect as it is written: its lower left corner and its sides, in mm.
#[derive(Clone, Copy)]
pub(crate) struct Rectangle {
    pub x: Decimal,
    pub y: Decimal,
    pub width: Decimal,
    pub height: Decimal,
}

/// The least defect with whole sides in mm that covers the written one. `EmptyDefect` comes where a side is 0.
pub(crate) fn widened(row: u64, plate: u32, written: Rectangle) -> Result<Defect, BadText>
    requires x { IsAtMost MOST_SIDE written.x }
    requires y { IsAtMost MOST_SIDE written.y }
    requires width { IsAtMost MOST_SIDE written.width }
    requires height { IsAtMost MOST_SIDE written.height }
    ensures value { result ≡ widened_of row plate (millionths_in written.x)
        (millionths_in written.y) (millionths_in written.width) (millionths_in written.height) }
    ensures range { IfOk result IsDefectInRange }
{
    if is_zero(written.width) || is_zero(written.height) {
        return Err(BadText::EmptyDefect(row));
    }
    Ok(Defect {
        plate,
        x0: floor(written.x),
        y0: floor(written.y),
        x1: ceiling_of_sum(written.x, written.width),
        y1: ceiling_of_sum(written.y, written.height),
    })
}
