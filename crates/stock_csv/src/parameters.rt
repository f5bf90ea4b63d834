//! The parameters that a parameters file says.

ghost use Rattle.std.specs.Prelude.{◌≡◌, ◌<◌, ◌^◌, drop, length, IfOk, IfErr};
ghost use Rattle.std.specs.Str.{bytes_eq};
ghost use Rattle.csv.specs.Records.{field_at, fields_of};
ghost use Rattle.csv_table.specs.Readings.{each_row};
ghost use Rattle.stock_csv.specs.Settings.{ReadAs, GivesSizes, RefusesSettings, parameter_in, parameter_named, set_by, set_to, setting_at, settings_of};

use csv::ByteRecord;
use csv_table::{Rows, trim, whole_at};
use glass_base::limits::MOST_NUMBER;
use glass_base::{BadText, Params, Sizes};
use std::alloc::Global;

/// A parameter.
#[derive(Clone, Copy, Debug, PartialEq, Eq)]
pub enum Name {
    Plates,
    Width,
    Height,
    Min1,
    Max1,
    Min2,
    Waste,
}

/// A parameter and its value.
#[derive(Clone, Copy, Debug)]
pub struct ParameterRow {
    pub name: Name,
    pub value: u32,
}

/// Sizes with one of them set.
fn with_value(sizes: Sizes, name: Name, value: u32) -> Sizes
    ensures { result ≡ set_to sizes name value }
{
    match name {
        Name::Plates => Sizes {
            plates: value,
            ..sizes
        },
        Name::Width => Sizes {
            width: value,
            ..sizes
        },
        Name::Height => Sizes {
            height: value,
            ..sizes
        },
        Name::Min1 => Sizes {
            min1: value,
            ..sizes
        },
        Name::Max1 => Sizes {
            max1: value,
            ..sizes
        },
        Name::Min2 => Sizes {
            min2: value,
            ..sizes
        },
        Name::Waste => Sizes {
            waste: value,
            ..sizes
        },
    }
}

/// Sizes with what a row sets.
fn with_setting(sizes: Sizes, setting: Option<ParameterRow>) -> Sizes
    ensures { result ≡ set_by sizes setting }
{
    match setting {
        None => sizes,
        Some(setting) => with_value(sizes, setting.name, setting.value),
    }
}

/// Whether these bytes are this word.
fn is(name: &[u8], word: &str) -> bool
    ensures { result ≡ bytes_eq name.now word.now }
{
    name == word.as_bytes()
}

/// The parameter of this name.
fn parameter_of(name: &[u8]) -> Option<Name>
    ensures { result ≡ parameter_named name.now }
{
    if is(name, "nPlates") {
        Some(Name::Plates)
    } else if is(name, "widthPlates") {
        Some(Name::Width)
    } else if is(name, "heightPlates") {
        Some(Name::Height)
    } else if is(name, "min1Cut") {
        Some(Name::Min1)
    } else if is(name, "max1Cut") {
        Some(Name::Max1)
    } else if is(name, "min2Cut") {
        Some(Name::Min2)
    } else if is(name, "minWaste") {
        Some(Name::Waste)
    } else {
        None
    }
}

/// The parameter that the first field of a row names.
fn parameter_at(fields: &ByteRecord) -> Option<Name>
    ensures { result ≡ parameter_in (field_at (fields_of fields.now) 0) }
{
    match fields.get(0) {
        None => None,
        Some(field) => parameter_of(trim(field)),
    }
}

/// What a row, whose number is `row`, sets, if anything.
///
/// The row has two fields, a name and a value. The names are `nPlates`, `widthPlates`, `heightPlates`, `min1Cut`,
/// `max1Cut`, `min2Cut` and `minWaste`, perhaps between blanks; a row of another name sets nothing, whatever its value
/// is. `Record` comes where the row has another number of fields. Where its name is one of these, `Number` comes where
/// the value is no whole number, and `Range` where it is above 999,999,999.
#[tactic(auto, unfolding(crate::specs::Settings::setting_at))]
pub fn setting_of(row: u64, fields: &ByteRecord) -> Result<Option<ParameterRow>, BadText>
    ensures { result ≡ setting_at row (fields_of fields.now) }
{
    if fields.len() != 2 {
        return Err(BadText::Record(row, fields.len() as u64));
    }
    match parameter_at(fields) {
        None => Ok(None),
        Some(name) => {
            let value = whole_at(row, 2, MOST_NUMBER, fields)?;
            Ok(Some(ParameterRow { name, value }))
        }
    }
}

/// The usual sizes with those that the rows of a table set, or its first refusal. The first row is the header.
fn sizes_in(rows: &mut Rows<'_>) -> Result<Sizes, BadText>
    requires few { length rows.old < 2 ^ 63 }
    ensures { GivesSizes result (each_row setting_at 2 (drop 1 rows.old)) }
{
    let mut sizes = Sizes::usual();
    let mut row = 1u64;
    rows.next_row()?;
    'rows: while let Some(fields) = rows.next_row()? {
        row += 1;
        sizes = with_setting(sizes, setting_of(row, &fields)?);
    }
    Ok(sizes)
}

/// The usual sizes with those that a file sets, or its first refusal.
fn read_sizes(alloc: Global, bytes: &[u8]) -> Result<Sizes, BadText>
    ensures { GivesSizes result (settings_of bytes.now) }
{
    let mut rows = Rows::new(alloc, bytes);
    sizes_in(&mut rows)
}

/// The parameters of a parameters file, or the first refusal.
///
/// The first row is the header and is skipped, whatever it says. Every other row has two fields, a name and a value. The names are
/// `nPlates`, `widthPlates`, `heightPlates`, `min1Cut`, `max1Cut`, `min2Cut` and `minWaste`; the value of one of these is a whole
/// number up to 999,999,999. A row of another name is ignored with its value. A parameter without a row is the challenge's, and of
/// a repeated name the last row counts. `Params` comes where `Params::check` refuses what was read.
pub fn read_params(alloc: Global, bytes: &[u8]) -> Result<Params, BadText>
    ensures params { IfOk result (λ p. ReadAs p (settings_of bytes.now)) }
    ensures refused { IfErr result (λ e. RefusesSettings e (settings_of bytes.now)) }
{
    match read_sizes(alloc, bytes)?.check() {
        Ok(params) => Ok(params),
        Err(reason) => Err(BadText::Params(reason)),
    }
}
