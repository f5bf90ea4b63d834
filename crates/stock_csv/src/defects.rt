//! The defects that a defects file says.

ghost use Rattle.std.specs.Prelude.{◌≡◌, ◌<◌, ◌^◌, drop, length, All, IfOk};
ghost use Rattle.csv.specs.Records.{fields_of};
ghost use Rattle.glass_base.specs.Items.{IsDefectInRange};
ghost use Rattle.csv_table.specs.Readings.{Gives, each_row};
ghost use Rattle.stock_csv.specs.DefectRows.{defect_at, defects_of};

use crate::widening::{Rectangle, widened};
use csv::ByteRecord;
use csv_table::{Rows, measure_at, whole_at};
use glass_base::limits::{MOST_NUMBER, MOST_SIDE};
use glass_base::{BadText, Defect, Run, append};
use std::alloc::Global;

/// The defect of a row, whose number is `row`, widened to whole millimetres on all four sides.
///
/// The row has the six fields DEFECT_ID, PLATE_ID, X, Y, WIDTH and HEIGHT: two whole numbers up to 999,999,999, and
/// four of 0 to 20,000 mm that may have decimals. `Record` comes where it has another number of fields, `Number` where
/// one of them is no such number, `Range` where one is too large; the first column in error decides. `EmptyDefect`
/// comes where no column is in error and the width or the height is 0 as it is written.
#[tactic(auto, unfolding(crate::specs::DefectRows::defect_at))]
pub fn defect_of(row: u64, fields: &ByteRecord) -> Result<Defect, BadText>
    ensures value { result ≡ defect_at row (fields_of fields.now) }
    ensures range { IfOk result IsDefectInRange }
{
    if fields.len() != 6 {
        return Err(BadText::Record(row, fields.len() as u64));
    }
    let _number = whole_at(row, 1, MOST_NUMBER, fields)?;
    let plate = whole_at(row, 2, MOST_NUMBER, fields)?;
    let x = measure_at(row, 3, MOST_SIDE, fields)?;
    let y = measure_at(row, 4, MOST_SIDE, fields)?;
    let width = measure_at(row, 5, MOST_SIDE, fields)?;
    let height = measure_at(row, 6, MOST_SIDE, fields)?;
    let written = Rectangle {
        x,
        y,
        width,
        height,
    };
    widened(row, plate, written)
}

/// The defects of a table in the order of its rows, or the first refusal. The first row is the header.
fn defects_in(alloc: Global, rows: &mut Rows<'_>) -> Result<Run<Defect>, BadText>
    requires few { length rows.old < 2 ^ 63 }
    ensures defects { Gives (λ run. run.items) result (each_row defect_at 2 (drop 1 rows.old)) }
    ensures ranges { IfOk result (λ run. All IsDefectInRange run.items) }
{
    let mut defects = Run::new(alloc);
    let mut row = 1u64;
    rows.next_row()?;
    'rows: while let Some(fields) = rows.next_row()? {
        row += 1;
        append(&mut defects, defect_of(row, &fields)?)?;
    }
    Ok(defects)
}

/// The defects of a defects file in the order of its rows, or the first refusal.
///
/// The first row is the header and is skipped, whatever it says. Every other row has the six fields DEFECT_ID, PLATE_ID, X, Y,
/// WIDTH and HEIGHT; the last four are 0 to 20,000 mm and may have decimals. A defect is widened to whole millimetres on all
/// four sides. `EmptyDefect` comes where its width or height is 0 as it is written.
pub fn read_defects(alloc: Global, bytes: &[u8]) -> Result<Run<Defect>, BadText>
    ensures defects { Gives (λ run. run.items) result (defects_of bytes.now) }
    ensures ranges { IfOk result (λ run. All IsDefectInRange run.items) }
{
    let mut rows = Rows::new(alloc, bytes);
    defects_in(alloc, &mut rows)
}
