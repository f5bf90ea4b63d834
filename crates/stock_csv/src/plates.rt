//! The widths of plates that a plates file says.

ghost use Rattle.std.specs.Prelude.{◌≡◌, ◌<◌, ◌^◌, drop, length, IfOk};
ghost use Rattle.csv.specs.Records.{fields_of};
ghost use Rattle.glass_base.specs.Widths.{AreWidths, IsWidth};
ghost use Rattle.csv_table.specs.Readings.{Gives, each_row};
ghost use Rattle.stock_csv.specs.PlateRows.{plate_at, widths_said, with_width};
ghost use Rattle.stock_csv.specs.inner.WidthRows.{widths_by};

use csv::ByteRecord;
use csv_table::{Rows, whole_at};
use glass_base::limits::{MOST_NUMBER, MOST_SIDE};
use glass_base::{BadText, Params, Run, same_widths};
use std::alloc::Global;

/// A plate of a width of its own.
#[derive(Clone, Copy, Debug)]
pub struct PlateWidth {
    /// The number of the plate, from 0.
    pub plate: u32,
    /// In mm.
    pub width: u32,
}

/// The plate of a row, whose number is `row`, and its width.
///
/// The row has two fields, the number of a plate and its width in mm, which are whole numbers up to 999,999,999 and
/// 20,000. `Record` comes where it has another number of fields, `Number` where one of them is no whole number, `Range`
/// where one is too large; the first column in error decides. `ZeroWidth` comes where no column is in error and the
/// width is 0.
#[tactic(auto, unfolding(crate::specs::PlateRows::plate_at))]
pub fn plate_of(row: u64, fields: &ByteRecord) -> Result<PlateWidth, BadText>
    ensures value { result ≡ plate_at row (fields_of fields.now) }
    ensures range { IfOk result (λ p. IsWidth p.width) }
{
    if fields.len() != 2 {
        return Err(BadText::Record(row, fields.len() as u64));
    }
    let plate = whole_at(row, 1, MOST_NUMBER, fields)?;
    let width = whole_at(row, 2, MOST_SIDE, fields)?;
    if width == 0 {
        return Err(BadText::ZeroWidth(row));
    }
    Ok(PlateWidth { plate, width })
}

/// Sets the width of a plate, if there is such a plate.
fn set_width(widths: &mut Run<u32>, plate: PlateWidth)
    ensures { widths.new.items ≡ with_width widths.old.items plate }
{
    if (plate.plate as usize) < widths.len() {
        widths.set(plate.plate as usize, plate.width);
    }
}

/// The widths of all plates by the rows of a table, or the first refusal. The first row is the header.
fn widths_in(alloc: Global, params: &Params, rows: &mut Rows<'_>) -> Result<Run<u32>, BadText>
    requires few { length rows.old < 2 ^ 63 }
    ensures widths { Gives (λ run. run.items) result
        (widths_by params.now (each_row plate_at 2 (drop 1 rows.old))) }
    ensures ranges { IfOk result (λ run. AreWidths params.now run.items) }
{
    let mut widths = same_widths(alloc, params)?;
    let mut row = 1u64;
    rows.next_row()?;
    'rows: while let Some(fields) = rows.next_row()? {
        row += 1;
        set_width(&mut widths, plate_of(row, &fields)?);
    }
    Ok(widths)
}

/// The widths of all plates by a plates file, or the first refusal.
///
/// The first row is the header and is skipped, whatever it says. Every other row has two fields, the number of a plate and its
/// width in mm, which are whole numbers up to 999,999,999 and 20,000. `ZeroWidth` comes where a width is 0. A row whose plate is
/// not below the number of plates changes nothing; a plate without a row has the parameters' width; of a repeated plate the last row
/// counts.
pub fn read_plates(alloc: Global, params: &Params, bytes: &[u8]) -> Result<Run<u32>, BadText>
    ensures widths { Gives (λ run. run.items) result (widths_said params.now bytes.now) }
    ensures ranges { IfOk result (λ run. AreWidths params.now run.items) }
{
    let mut rows = Rows::new(alloc, bytes);
    widths_in(alloc, params, &mut rows)
}
