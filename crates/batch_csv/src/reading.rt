//! The items that a batch file says.

ghost use Rattle.std.specs.Prelude.{◌≡◌, ◌<◌, ◌^◌, length, All, IfOk};
ghost use Rattle.csv.specs.Records.{fields_of};
ghost use Rattle.glass_base.specs.Items.{IsItemInRange};
ghost use Rattle.csv_table.specs.Readings.{Gives, each_row};
ghost use Rattle.batch_csv.specs.Batches.{item_at, items_of};

use csv::ByteRecord;
use csv_table::{Rows, whole_at};
use glass_base::limits::{MOST_NUMBER, MOST_SIDE};
use glass_base::{BadText, Item, Run, append};
use std::alloc::Global;

/// The item of a row, whose number is `row`.
///
/// The row has the five fields ITEM_ID, LENGTH_ITEM, WIDTH_ITEM, STACK and SEQUENCE, each a whole number; the two sides
/// are at most 20,000 mm, the others at most 999,999,999. `Record` comes where it has another number of fields,
/// `Number` where one of them is no whole number, `Range` where one is too large; the first column in error decides.
#[tactic(auto, unfolding(crate::specs::Batches::item_at))]
pub fn item_of(row: u64, fields: &ByteRecord) -> Result<Item, BadText>
    ensures value { result ≡ item_at row (fields_of fields.now) }
    ensures range { IfOk result IsItemInRange }
{
    if fields.len() != 5 {
        return Err(BadText::Record(row, fields.len() as u64));
    }
    let id = whole_at(row, 1, MOST_NUMBER, fields)?;
    let length = whole_at(row, 2, MOST_SIDE, fields)?;
    let width = whole_at(row, 3, MOST_SIDE, fields)?;
    let stack = whole_at(row, 4, MOST_NUMBER, fields)?;
    let sequence = whole_at(row, 5, MOST_NUMBER, fields)?;
    Ok(Item {
        id,
        length,
        width,
        stack,
        sequence,
    })
}

/// The items of the rows that are left below the header, or the first refusal.
fn items_below(alloc: Global, rows: &mut Rows<'_>) -> Result<Run<Item>, BadText>
    requires few { length rows.old < 2 ^ 63 }
    ensures items { Gives (λ run. run.items) result (each_row item_at 2 rows.old) }
    ensures ranges { IfOk result (λ run. All IsItemInRange run.items) }
{
    let mut items = Run::new(alloc);
    let mut row = 1u64;
    'rows: while let Some(fields) = rows.next_row()? {
        row += 1;
        append(&mut items, item_of(row, &fields)?)?;
    }
    Ok(items)
}

/// The items of a batch file in the order of its rows, or the first refusal.
///
/// The first row is the header and is skipped, whatever it says. Every other row has the five fields ITEM_ID, LENGTH_ITEM,
/// WIDTH_ITEM, STACK and SEQUENCE, each a whole number; the two sides are at most 20,000 mm, the others at most 999,999,999.
/// `Record`, `Number` and `Range` come as `BadText` says; the first row in error decides, and in it the first column.
pub fn read_batch(alloc: Global, bytes: &[u8]) -> Result<Run<Item>, BadText>
    ensures items { Gives (λ run. run.items) result (items_of bytes.now) }
    ensures ranges { IfOk result (λ run. All IsItemInRange run.items) }
{
    let mut rows = Rows::new(alloc, bytes);
    rows.next_row()?;
    items_below(alloc, &mut rows)
}
