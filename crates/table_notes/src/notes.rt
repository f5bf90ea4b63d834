//! What is to be noted of a table.

ghost use Rattle.std.specs.Prelude.{◌≡◌, ◌↔◌, ◌≢◌, [], IfOk, IsTrue};
ghost use Rattle.csv.specs.Records.{fields_of};
ghost use Rattle.table_notes.specs.Notes.{has_more_lines as has_more_lines_of, is_row as is_row_of, is_table as is_table_of, note_of, noted as noted_of};

use crate::lines::has_more_lines;
use batch_csv::reading::item_of;
use csv::ByteRecord;
use csv_table::Rows;
use glass_base::{Memory, Role};
use std::alloc::Global;
use stock_csv::defects::defect_of;
use stock_csv::parameters::setting_of;
use stock_csv::plates::plate_of;

/// What is to be noted of a table.
#[derive(Clone, Copy, Debug, PartialEq, Eq)]
pub enum TableNote {
    /// Its first row, which is taken for the header, is itself a row that would be read.
    HeaderIsRow,
    /// All its lines, and it has more than one, are taken for the header: a quoted field there goes on over lines.
    NoRow,
}

/// Whether the header of a file of this role is not read.
fn is_table(role: Role) -> bool
    ensures { result ≡ is_table_of role }
{
    match role {
        Role::Batch | Role::Defects | Role::Params | Role::Plates => true,
        Role::Plan | Role::Cert | Role::Sheet => false,
    }
}

/// Whether fields are a row that is read of a table of this role.
fn is_row(role: Role, fields: &ByteRecord) -> bool
    ensures { result ≡ is_row_of role (fields_of fields.now) }
{
    match role {
        Role::Batch => item_of(1, fields).is_ok(),
        Role::Defects => defect_of(1, fields).is_ok(),
        Role::Params => matches!(setting_of(1, fields), Ok(Some(_))),
        Role::Plates => plate_of(1, fields).is_ok(),
        Role::Plan | Role::Cert | Role::Sheet => false,
    }
}

/// Whether a table has a row left.
fn has_row(rows: &mut Rows<'_>) -> Result<bool, Memory>
    ensures { IfOk result (λ has. IsTrue has ↔ (rows.old ≢ [])) }
{
    Ok(rows.next_row()?.is_some())
}

/// What is to be noted of a table of this role whose text is this one and whose rows are these.
fn noted(role: Role, text: &[u8], rows: &mut Rows<'_>) -> Result<Option<TableNote>, Memory>
    ensures { IfOk result (λ note. note
        ≡ noted_of role (has_more_lines_of text.now) rows.old) }
{
    let Some(header) = rows.next_row()? else {
        return Ok(None);
    };
    if is_row(role, &header) {
        return Ok(Some(TableNote::HeaderIsRow));
    }
    if !has_row(rows)? && has_more_lines(text) {
        return Ok(Some(TableNote::NoRow));
    }
    Ok(None)
}

/// What is to be noted of the text of a file of this role, if anything. Of files that are no table of items, defects,
/// parameters or plates it is nothing.
pub fn note_on(alloc: Global, role: Role, text: &[u8]) -> Result<Option<TableNote>, Memory>
    ensures { IfOk result (λ note. note ≡ note_of role text.now) }
{
    if !is_table(role) {
        return Ok(None);
    }
    let mut rows = Rows::new(alloc, text);
    noted(role, text, &mut rows)
}
