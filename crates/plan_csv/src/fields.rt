//! The fields of a row of a solution text.

ghost use Rattle.std.specs.Prelude.{◌≡◌, ◌<◌, ◌-◌, IfOk, IfSome, option_map, pos};
ghost use Rattle.csv.specs.Records.{field_at, fields_of};
ghost use Rattle.plan_csv.specs.PlanRows.{number_in, parent_in, row_in, signed_type as signed_type_of, type_in, type_text, whole_text};
ghost use Rattle.cut_model.specs.Tree.{IsRowType};

use crate::bad_plan::BadPlan;
use csv::ByteRecord;
use csv_table::{plain_number, trim, whole_at};
use cut_model::Row;
use glass_base::limits::{MOST_NUMBER, MOST_SIDE};

/// The greatest level of a cut.
const LEVEL_LIMIT: u32 = 4;

/// The whole number in a column of a row, counted from 1.
fn number_at(row: u64, column: u64, most: u32, fields: &ByteRecord) -> Result<u32, BadPlan>
    requires { 0 < column }
    ensures { result ≡ number_in row column most (field_at (fields_of fields.now) (column - 1)) }
{
    match whole_at(row, column, most, fields) {
        Ok(number) => Ok(number),
        Err(_) => Err(BadPlan::Number(row, column)),
    }
}

/// The whole number that a text says which has no blanks at its ends.
fn whole_of(text: &[u8]) -> Option<u32>
    ensures { result ≡ whole_text text.now }
{
    match plain_number(text) {
        None => None,
        Some(number) => {
            if number.millionths == 0 {
                Some(number.whole)
            } else {
                None
            }
        }
    }
}

/// The type of an item of this number.
fn item_type(number: Option<u32>) -> Option<i64>
    ensures value { result ≡ option_map (λ n. pos n) number }
    ensures typed { IfSome result IsRowType }
{
    match number {
        None => None,
        Some(number) => Some(i64::from(number)),
    }
}

/// The type that a minus sign before this number says.
fn signed_type(number: Option<u32>) -> Option<i64>
    ensures value { result ≡ signed_type_of number }
    ensures typed { IfSome result IsRowType }
{
    match number {
        Some(0) => Some(0),
        Some(1) => Some(-1),
        Some(2) => Some(-2),
        Some(3) => Some(-3),
        _ => None,
    }
}

/// The type that a text says which has no blanks at its ends.
fn type_of(text: &[u8]) -> Option<i64>
    ensures value { result ≡ type_text text.now }
    ensures typed { IfSome result IsRowType }
{
    match text {
        [] => None,
        [b'-', digits @ ..] => signed_type(whole_of(digits)),
        _ => item_type(whole_of(text)),
    }
}

/// The type of a row.
fn type_at(row: u64, fields: &ByteRecord) -> Result<i64, BadPlan>
    ensures value { result ≡ type_in row (field_at (fields_of fields.now) 6) }
    ensures typed { IfOk result IsRowType }
{
    match fields.get(6) {
        None => Err(BadPlan::Number(row, 7)),
        Some(field) => match type_of(trim(field)) {
            None => Err(BadPlan::Number(row, 7)),
            Some(kind) => Ok(kind),
        },
    }
}

/// The level of the cut that made the piece of a row.
fn level_at(row: u64, fields: &ByteRecord) -> Result<u32, BadPlan>
    ensures { result ≡ number_in row 8 4 (field_at (fields_of fields.now) 7) }
{
    number_at(row, 8, LEVEL_LIMIT, fields)
}

/// The node number of a row's parent, if its field has a byte.
fn parent_at(row: u64, fields: &ByteRecord) -> Result<Option<u64>, BadPlan>
    ensures { result ≡ parent_in row (field_at (fields_of fields.now) 8) }
{
    match fields.get(8) {
        None => Err(BadPlan::Number(row, 9)),
        Some([]) => Ok(None),
        Some(_) => Ok(Some(u64::from(number_at(row, 9, MOST_NUMBER, fields)?))),
    }
}

/// The row of these fields.
#[tactic(auto, unfolding(crate::specs::PlanRows::row_in))]
pub fn row_of(row: u64, fields: &ByteRecord) -> Result<Row, BadPlan>
    ensures value { result ≡ row_in row (fields_of fields.now) }
    ensures typed { IfOk result (λ r. IsRowType r.kind) }
{
    if fields.len() != 9 {
        return Err(BadPlan::Record(row, fields.len() as u64));
    }
    let plate = number_at(row, 1, MOST_NUMBER, fields)?;
    let node = number_at(row, 2, MOST_NUMBER, fields)?;
    let x = number_at(row, 3, MOST_SIDE, fields)?;
    let y = number_at(row, 4, MOST_SIDE, fields)?;
    let width = number_at(row, 5, MOST_SIDE, fields)?;
    let height = number_at(row, 6, MOST_SIDE, fields)?;
    let kind = type_at(row, fields)?;
    let cut = level_at(row, fields)?;
    let parent = parent_at(row, fields)?;
    Ok(Row {
        plate,
        node: u64::from(node),
        x,
        y,
        width,
        height,
        kind,
        cut,
        parent,
    })
}
