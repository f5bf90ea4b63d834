//! The rows of a table, one at a time.

ghost use Rattle.std.specs.Prelude.{◌≡◌, ◌≤◌, length, [], ◌∷◌, ℕ, List, IfOk, OnErr, MatchOption, false, if◌then◌else◌};
ghost use Rattle.csv.specs.Records.{fields_of};
ghost use Rattle.csv_table.specs.Rows.{IsOpen, rows_left, table_rows};

use csv::{ByteRecord, ByteRecordsIntoIter, ErrorKind, ReaderBuilder};
use glass_base::Memory;
use std::alloc::Global;
use std::marker::Model;

/// The rows that are left of a table, the header included.
///
/// Fields stand between semicolons, in quotes where they are quoted. A row ends with CR, LF or CR LF; the last one may end
/// with the text. Empty lines are no rows, and a byte order mark at the start is dropped. Rows may have any number of
/// fields. After an error there are no more rows.
#[derive(Drop)]
pub struct Rows<'a> {
    records: ByteRecordsIntoIter<&'a [u8]>,
    ended: bool,
}

impl<'a> Model for Rows<'a> {
    ghost Value = { List (List (List ℕ)) };

    ghost view = { λ r. if r.ended then [] else rows_left r.records };

    ghost invariant = { λ r. r.ended ≡ false → IsOpen r.records };
}

impl<'a> Rows<'a> {
    /// All the rows of a table.
    pub fn new(alloc: Global, bytes: &'a [u8]) -> Self
        ensures value { result ≡ table_rows bytes.now }
        ensures few { length result ≤ length bytes.now }
    {
        let records = ReaderBuilder::new()
            .delimiter(b';')
            .has_headers(false)
            .flexible(true)
            .from_reader(alloc, bytes)
            .into_byte_records();
        Rows {
            records,
            ended: false,
        }
    }

    /// The next row, or none at the end. After an error there are no more rows.
    pub fn next_row(&mut self) -> Result<Option<ByteRecord>, Memory>
        ensures ok { IfOk result (λ o. MatchOption o ((self.old ≡ [])
            × (self.new ≡ [])) (λ r. self.old ≡ fields_of r ∷ self.new)) }
        ensures err { OnErr result (self.new ≡ []) }
    {
        if self.ended {
            return Ok(None);
        }
        match self.records.next() {
            None => {
                self.ended = true;
                Ok(None)
            }
            Some(Ok(row)) => Ok(Some(row)),
            Some(Err(e)) => {
                self.ended = true;
                match e.into_kind() {
                    // Bytes in memory can't fail to be read, but no contract of the reader says so.
                    ErrorKind::Io(_) => Err(Memory),
                    ErrorKind::OutOfMemory => Err(Memory),
                    _ => unreachable!(),
                }
            }
        }
    }
}
