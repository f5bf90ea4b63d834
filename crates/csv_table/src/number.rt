//! Numbers as a table writes them.

ghost use Rattle.std.specs.Prelude.{◌≡◌, ◌+◌, ◌-◌, ◌*◌, ◌<◌, ◌≤◌, ◌^◌, IsTrue, IfSome, Some, length, position};
ghost use Rattle.std.specs.Char.{is_ascii_digit};
ghost use Rattle.std.specs.List.{list_all, prefix_len, suffix_len};
ghost use Rattle.std.specs.Str.Parse.{digits_value};
ghost use Rattle.csv_table.specs.Numbers.{decimal, digits, is_blank as blank, is_point, number_at, trimmed};

use glass_base::are_digits;

/// A number with up to six decimals.
#[derive(Clone, Copy, Debug, PartialEq, Eq)]
pub struct Decimal {
    pub whole: u32,
    /// Below 1,000,000.
    pub millionths: u32,
}

/// Whether a byte is a space or a tab.
fn is_blank(byte: u8) -> bool
    ensures { result ≡ blank byte }
{
    byte == b' ' || byte == b'\t'
}

/// How many blanks a text begins with.
fn blanks_before(text: &[u8]) -> usize
    ensures value { result ≡ prefix_len blank text.now }
    ensures within { result ≤ length text.now }
{
    text.iter().take_while(|byte| is_blank(**byte)).count()
}

/// How many blanks a text ends with.
fn blanks_behind(text: &[u8]) -> usize
    ensures value { result ≡ suffix_len blank text.now }
    ensures within { result ≤ length text.now }
{
    text.iter()
        .rev()
        .take_while(|byte| is_blank(**byte))
        .count()
}

/// The text without spaces and tabs at both ends.
pub fn trim(text: &[u8]) -> &[u8]
    ensures { result.now ≡ trimmed text.now }
{
    let text = &text[blanks_before(text)..];
    &text[..text.len() - blanks_behind(text)]
}

/// The number that digits write.
fn value_of(text: &[u8]) -> u32
    requires digits { IsTrue (list_all is_ascii_digit text.now) }
    requires short { length text.now ≤ 9 }
    ensures value { result ≡ digits_value 10 text.now }
    ensures below { result < 10 ^ length text.now }
{
    let mut value = 0u32;
    for byte in text {
        value = value * 10 + u32::from(*byte - b'0');
    }
    value
}

/// The number that one to `most` digits write. Leading zeros are allowed.
fn digits_of(text: &[u8], most: usize) -> Option<u32>
    requires { most ≤ 9 }
    ensures value { result ≡ digits most text.now }
    ensures below { IfSome result (λ n. n < 10 ^ length text.now) }
    ensures length { IfSome result (λ n. (0 < length text.now) × (length text.now ≤ most)) }
{
    if !text.is_empty() && text.len() <= most && are_digits(text) {
        Some(value_of(text))
    } else {
        None
    }
}

/// Where the first point of a text stands.
fn point_of(text: &[u8]) -> Option<usize>
    ensures value { result ≡ position is_point text.now }
    ensures within { IfSome result (λ at. at < length text.now) }
{
    text.iter().position(|byte| *byte == b'.')
}

/// The fraction that so many digits behind the point write, in millionths.
fn millionths_of(value: u32, places: usize) -> u32
    requires some { 0 < places }
    requires places { places ≤ 6 }
    requires below { value < 10 ^ places }
    ensures value { result ≡ value * 10 ^ (6 - places) }
    ensures below { result < 1000000 }
{
    match places {
        1 => value * 100_000,
        2 => value * 10_000,
        3 => value * 1_000,
        4 => value * 100,
        5 => value * 10,
        _ => value,
    }
}

/// The number of digits around a point.
fn around_point(text: &[u8], at: usize) -> Option<Decimal>
    requires { at < length text.now }
    ensures value { result ≡ number_at text.now (Some at) }
    ensures below { IfSome result (λ number. number.millionths < 1000000) }
{
    let behind = &text[at + 1..];
    match digits_of(&text[..at], 9) {
        None => None,
        Some(whole) => match digits_of(behind, 6) {
            None => None,
            Some(value) => Some(Decimal {
                whole,
                millionths: millionths_of(value, behind.len()),
            }),
        },
    }
}

/// The number that a text says which has no blanks at its ends: one to nine digits, and perhaps a point and one to six digits
/// behind it. Leading zeros are allowed.
pub fn plain_number(text: &[u8]) -> Option<Decimal>
    ensures value { result ≡ number_at text.now (position is_point text.now) }
    ensures below { IfSome result (λ number. number.millionths < 1000000) }
{
    match point_of(text) {
        Some(at) => around_point(text, at),
        None => match digits_of(text, 9) {
            None => None,
            Some(whole) => Some(Decimal {
                whole,
                millionths: 0,
            }),
        },
    }
}

/// The number that a field says between spaces and tabs, as `plain_number` reads it.
pub fn decimal_of(field: &[u8]) -> Option<Decimal>
    ensures value { result ≡ decimal field.now }
    ensures below { IfSome result (λ number. number.millionths < 1000000) }
{
    plain_number(trim(field))
}
