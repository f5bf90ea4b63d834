//! Texts of digits.

ghost use Rattle.std.specs.Prelude.{◌≡◌, ◌≤◌, IfSome};
ghost use Rattle.std.specs.Char.{is_ascii_digit};
ghost use Rattle.std.specs.List.{list_all};
ghost use Rattle.glass_base.specs.Digits.{has_leading_zero as has_leading_zero_of, is_number as is_number_of, number_within as number_within_of};

/// Whether a text has no other bytes than digits.
pub fn are_digits(text: &[u8]) -> bool
    ensures { result ≡ list_all is_ascii_digit text.now }
{
    text.iter().all(|byte| byte.is_ascii_digit())
}

/// Whether a zero stands before other digits.
fn has_leading_zero(text: &[u8]) -> bool
    ensures { result ≡ has_leading_zero_of text.now }
{
    match text {
        [first, _, ..] => *first == b'0',
        _ => false,
    }
}

/// Whether a text is a number: one digit or more, without a sign and without a zero at the front.
fn is_number(text: &[u8]) -> bool
    ensures { result ≡ is_number_of text.now }
{
    !text.is_empty() && are_digits(text) && !has_leading_zero(text)
}

/// The number that a text says, from the least to the greatest that it may be. A text is read only as it would be
/// written: in decimal digits, without a sign and without a zero at the front.
pub fn number_within(text: &[u8], least: u64, most: u64) -> Option<u64>
    ensures value { result ≡ number_within_of least most text.now }
    ensures within { IfSome result (λ n. (least ≤ n) × (n ≤ most)) }
{
    if !is_number(text) {
        return None;
    }
    let number = std::str::from_utf8(text).ok()?.parse::<u64>().ok()?;
    if least <= number && number <= most {
        Some(number)
    } else {
        None
    }
}
