//! The fields of a line.

ghost use Rattle.std.specs.Prelude.{◌≡◌, ◌∷◌, ◌++◌, ◌<◌, ◌↔◌, ◌⊎◌, IsTrue, MatchOption};
ghost use Rattle.std.specs.Fmt.{decimal};
ghost use Rattle.cert_log.specs.Texts.{letter, loss_text};
ghost use Rattle.cert_log.specs.Values.{IsLoss, IsNumber, IsVersionNumber};
ghost use Rattle.cert_log.specs.inner.Fields.{IsAny, Lacks, Takes, Tells, reason_text};

use glass_base::number_within;
use plan_box::{Reason, Var};

/// Whether a text is this word.
pub(crate) fn is_word(text: &[u8], word: &[u8]) -> bool
    ensures { IsTrue result ↔ (text.now ≡ word.now) }
{
    text == word
}

/// What stands before a mark's first place, and behind it.
pub(crate) fn field(text: &[u8], mark: u8) -> Option<(&[u8], &[u8])>
    ensures { MatchOption result (Lacks mark text.now) (λ p. (text.now ≡ p.0.now ++ mark ∷ p.1.now)
        × Lacks mark p.0.now) }
{
    for (at, byte) in text.iter().enumerate() {
        if *byte == mark {
            return Some((&text[..at], &text[at + 1..]));
        }
    }
    None
}

/// The number that a text says in decimal digits, without leading zeros.
pub(crate) fn number(text: &[u8]) -> Option<u64>
    ensures { Tells decimal IsNumber text.now result }
{
    number_within(text, 0, u64::MAX)
}

/// The loss or bound that a text says.
fn loss(text: &[u8]) -> Option<Option<u64>>
    ensures { Tells loss_text IsLoss text.now result }
{
    if is_word(text, b"none") {
        return Some(None);
    }
    let value = number(text)?;
    Some(Some(value))
}

/// The version that a text says.
fn version(text: &[u8]) -> Option<u32>
    ensures { Tells decimal IsVersionNumber text.now result }
{
    match number(text)? {
        1 => Some(1),
        2 => Some(2),
        3 => Some(3),
        _ => None,
    }
}

/// The variable whose letter a text is.
pub(crate) fn variable(text: &[u8]) -> Option<Var>
    ensures { Tells letter IsAny text.now result }
{
    match text {
        b"s" => Some(Var::Stack),
        b"t" => Some(Var::Turn),
        b"k" => Some(Var::Kind),
        b"l" => Some(Var::Lift),
        b"a" => Some(Var::A),
        b"b" => Some(Var::B),
        b"c" => Some(Var::C),
        b"d" => Some(Var::D),
        b"e" => Some(Var::E),
        _ => None,
    }
}

/// The reason whose number a text says.
pub(crate) fn reason(text: &[u8]) -> Option<Reason>
    ensures { Tells reason_text IsAny text.now result }
{
    match number(text)? {
        1 => Some(Reason::R1),
        2 => Some(Reason::R2),
        3 => Some(Reason::R3),
        4 => Some(Reason::R4),
        5 => Some(Reason::R5),
        6 => Some(Reason::R6),
        7 => Some(Reason::R7),
        _ => None,
    }
}

/// The number before a mark, and what stands behind it.
pub(crate) fn take_number(text: &[u8], mark: u8) -> Option<(u64, &[u8])>
    requires { mark < 48 ⊎ 57 < mark }
    ensures { Takes decimal IsNumber mark text.now result }
{
    let (before, behind) = field(text, mark)?;
    Some((number(before)?, behind))
}

/// The version before a semicolon, and what stands behind it.
pub(crate) fn take_version(text: &[u8]) -> Option<(u32, &[u8])>
    ensures { Takes decimal IsVersionNumber 59 text.now result }
{
    let (before, behind) = field(text, b';')?;
    Some((version(before)?, behind))
}

/// The loss or bound before a semicolon, and what stands behind it.
pub(crate) fn take_loss(text: &[u8]) -> Option<(Option<u64>, &[u8])>
    ensures { Takes loss_text IsLoss 59 text.now result }
{
    let (before, behind) = field(text, b';')?;
    Some((loss(before)?, behind))
}
