//! The first line.

ghost use Rattle.cert_log.specs.inner.FirstLine.{BeginsWithHead, BehindWord, TakesCounts};

use crate::fields::{field, is_word, take_loss, take_number, take_version};

/// What the first line says of a certificate.
#[derive(Clone, Copy)]
pub struct Head {
    /// 1, 2 or 3.
    pub version: u32,
    /// In mm², as the bound.
    pub loss: Option<u64>,
    pub bound: Option<u64>,
    /// The number of open nodes.
    pub left: u64,
    /// In mm²; 0 before version 3.
    pub floor: u64,
}

/// The text behind the first line's word.
fn behind_word(text: &[u8]) -> Option<&[u8]>
    ensures { BehindWord text.now result }
{
    let (word, rest) = field(text, b';')?;
    if is_word(word, b"glasscert") {
        Some(rest)
    } else {
        None
    }
}

/// The number of open nodes, the floor, and the text behind the first line, which ends with them. Before version 3 no floor is said.
fn take_counts(version: u32, text: &[u8]) -> Option<(u64, u64, &[u8])>
    ensures { TakesCounts version text.now result }
{
    if version < 3 {
        let (left, rest) = take_number(text, b'\n')?;
        return Some((left, 0, rest));
    }
    let (left, behind) = take_number(text, b';')?;
    let (floor, rest) = take_number(behind, b'\n')?;
    Some((left, floor, rest))
}

/// The first line, and the text behind it.
pub(crate) fn read_head(text: &[u8]) -> Option<(Head, &[u8])>
    ensures { BeginsWithHead text.now result }
{
    let rest = behind_word(text)?;
    let (version, rest) = take_version(rest)?;
    let (loss, rest) = take_loss(rest)?;
    let (bound, rest) = take_loss(rest)?;
    let (left, floor, rest) = take_counts(version, rest)?;
    let head = Head {
        version,
        loss,
        bound,
        left,
        floor,
    };
    Some((head, rest))
}
