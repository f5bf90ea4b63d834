//! The lines that tell of checks of certificates.

ghost use Rattle.std.specs.Prelude.{◌≡◌, IfOk};
ghost use Rattle.std.specs.String.{string_bytes};
ghost use Rattle.cert_log.specs.Texts.{loss_text};
ghost use Rattle.run_checks.specs.Checks.{bound_line as bound_line_of, refused_line as refused_line_of, why_text as why_text_of, word_with as word_with_of};
ghost use Rattle.run_checks.specs.inner.Checked.{line_with_bound as line_with_bound_of};

use cert_check::Why;
use cert_log::Certificate;
use glass_base::Memory;
use std::alloc::Global;

/// A number, or `none`.
pub fn number_or_none(alloc: Global, number: Option<u64>) -> Result<String, Memory>
    ensures { IfOk result (λ text. string_bytes text ≡ loss_text number) }
{
    match number {
        None => Ok(format!(in alloc; "none")?),
        Some(number) => Ok(format!(in alloc; "{number}")?),
    }
}

/// A word and two values; what there is none of is `none`.
fn word_with(
    alloc: Global,
    word: &str,
    first: Option<u64>,
    second: Option<u64>,
) -> Result<String, Memory>
    ensures { IfOk result (λ text. string_bytes text
        ≡ word_with_of word.now (loss_text first) (loss_text second)) }
{
    let first = number_or_none(alloc, first)?;
    let second = number_or_none(alloc, second)?;
    Ok(format!(in alloc; "{word} {first} {second}")?)
}

/// Which check failed, and its two values.
fn why_text(alloc: Global, why: Why) -> Result<String, Memory>
    ensures { IfOk result (λ text. string_bytes text ≡ why_text_of why) }
{
    match why {
        Why::WrongLoss(said, found) => word_with(alloc, "wrongloss", said, found),
        Why::Split(step, var) => {
            let (step, var) = (u64::from(step), u64::from(var.number()));
            word_with(alloc, "split", Some(step), Some(var))
        }
        Why::NotClosed(bound, loss) => word_with(alloc, "notclosed", Some(bound), loss),
        Why::WrongCause(said, found) => {
            let (said, found) = (u64::from(said), u64::from(found));
            word_with(alloc, "wrongcause", Some(said), Some(found))
        }
        Why::WrongOpen(said, found) => word_with(alloc, "wrongopen", Some(said), Some(found)),
        Why::WrongBound(said, found) => word_with(alloc, "wrongbound", said, found),
        Why::WrongFloor(said, found) => word_with(alloc, "wrongfloor", Some(said), Some(found)),
    }
}

/// The line that tells the first check that a certificate fails.
pub(crate) fn refused_line(alloc: Global, line: u64, why: Why) -> Result<String, Memory>
    ensures { IfOk result (λ text. string_bytes text ≡ refused_line_of line why) }
{
    let why = why_text(alloc, why)?;
    Ok(format!(in alloc; "refused line {line} {why}\n")?)
}

/// The line that tells a bound and a number of open boxes, behind a word.
pub(crate) fn line_with_bound(
    alloc: Global,
    word: &str,
    bound: Option<u64>,
    left: u64,
) -> Result<String, Memory>
    ensures { IfOk result (λ line. string_bytes line ≡ line_with_bound_of word.now bound left) }
{
    let bound = number_or_none(alloc, bound)?;
    Ok(format!(in alloc; "{word} bound {bound} open {left}\n")?)
}

/// The line that tells the bound of a certificate and its number of open boxes, behind a word.
pub(crate) fn bound_line(
    alloc: Global,
    word: &str,
    certificate: &Certificate,
) -> Result<String, Memory>
    ensures { IfOk result (λ line. string_bytes line ≡ bound_line_of word.now certificate.now) }
{
    line_with_bound(alloc, word, certificate.bound, certificate.left)
}
