//! Numbers in a line.

ghost use Rattle.std.specs.Prelude.{◌≤◌};
ghost use Rattle.cut_sheet.specs.inner.Lines.{Counts, Says};

use glass_base::limits::MOST_NUMBER;
use glass_base::number_within;

/// The type that a text says: a number, or that of a residual or of waste.
pub(crate) fn piece_type(text: &[u8]) -> Option<i64>
    ensures { Says text.now result }
{
    if text == b"-1".as_slice() {
        return Some(-1);
    }
    if text == b"-3".as_slice() {
        return Some(-3);
    }
    Some(i64::from(count(text, MOST_NUMBER)?))
}

/// The number that a text says in decimal digits, without leading zeros, if it is no more than this.
pub(crate) fn count(text: &[u8], most: u32) -> Option<u32>
    requires { most ≤ MOST_NUMBER }
    ensures { Counts most text.now result }
{
    let number = number_within(text, 0, u64::from(most))?;
    Some(number as u32)
}
