//! The fields of a row by their columns.

ghost use Rattle.std.specs.Prelude.{◌≡◌, ◌<◌, ◌≤◌, ◌-◌, IfOk};
ghost use Rattle.csv.specs.Records.{field_at, fields_of};
ghost use Rattle.csv_table.specs.Numbers.{IsAtMost, decimal};
ghost use Rattle.csv_table.specs.Readings.{measure_in, measured, whole_in, whole_number};

use crate::number::{Decimal, decimal_of};
use csv::ByteRecord;
use glass_base::BadText;

/// The whole number, at most `most`, of a field.
fn whole_of(row: u64, column: u64, most: u32, field: &[u8]) -> Result<u32, BadText>
    ensures value { result ≡ whole_number row column most (decimal field.now) }
    ensures range { IfOk result (λ number. number ≤ most) }
{
    match decimal_of(field) {
        Some(number) if number.millionths == 0 => {
            if number.whole <= most {
                Ok(number.whole)
            } else {
                Err(BadText::Range(row, column))
            }
        }
        _ => Err(BadText::Number(row, column)),
    }
}

/// The whole number in a column of a row, counted from 1. Zeros alone may stand behind a point. `Number` comes where the
/// field is no whole number, `Range` where the number is above `most`.
pub fn whole_at(row: u64, column: u64, most: u32, fields: &ByteRecord) -> Result<u32, BadText>
    requires { 0 < column }
    ensures value { result ≡ whole_in row column most
        (field_at (fields_of fields.now) (column - 1)) }
    ensures range { IfOk result (λ number. number ≤ most) }
{
    match fields.get((column - 1) as usize) {
        Some(field) => whole_of(row, column, most, field),
        None => Err(BadText::Number(row, column)),
    }
}

/// The number, at most `most`, of a field that may have decimals.
fn measure_of(row: u64, column: u64, most: u32, field: &[u8]) -> Result<Decimal, BadText>
    ensures value { result ≡ measured row column most (decimal field.now) }
    ensures range { IfOk result (IsAtMost most) }
{
    match decimal_of(field) {
        Some(number) => {
            if number.whole < most || (number.whole == most && number.millionths == 0) {
                Ok(number)
            } else {
                Err(BadText::Range(row, column))
            }
        }
        None => Err(BadText::Number(row, column)),
    }
}

/// The number in a column of a row, counted from 1, that may have decimals. `Number` comes where the field is no number,
/// `Range` where the number is above `most`.
pub fn measure_at(row: u64, column: u64, most: u32, fields: &ByteRecord) -> Result<Decimal, BadText>
    requires { 0 < column }
    ensures value { result ≡ measure_in row column most
        (field_at (fields_of fields.now) (column - 1)) }
    ensures range { IfOk result (IsAtMost most) }
{
    match fields.get((column - 1) as usize) {
        Some(field) => measure_of(row, column, most, field),
        None => Err(BadText::Number(row, column)),
    }
}
