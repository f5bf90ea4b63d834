//! The lines that tell of searches.

ghost use Rattle.std.specs.Prelude.{◌≡◌, ◌++◌, IfOk, OnOk, map};
ghost use Rattle.std.specs.String.{string_bytes};
ghost use Rattle.run_frame.specs.Codes.{word_of};
ghost use Rattle.run_search.specs.Plans.{counted_lines as counted_lines_of, ended_lines as ended_lines_of, ending as ending_of, entry_lines, handled, history_lines, search_lines as search_lines_of};
ghost use Rattle.run_search.specs.inner.Searches.{losses_in};

use best_board::Entry;
use cert_log::Certificate;
use glass_base::{Memory, Run};
use run_checks::number_or_none;
use std::alloc::Global;

/// The lines that tell how a search ended, with its loss and its bound.
fn ended_lines(
    alloc: Global,
    ending: &str,
    loss: Option<u64>,
    bound: Option<u64>,
) -> Result<String, Memory>
    ensures { IfOk result (λ lines. string_bytes lines ≡ ended_lines_of ending.now loss bound) }
{
    let loss = number_or_none(alloc, loss)?;
    let bound = number_or_none(alloc, bound)?;
    Ok(format!(in alloc; "status {ending}\nloss {loss}\nbound {bound}\n")?)
}

/// The lines that tell how many plates a plan uses, and how many boxes of a search were closed or split, and how many are open.
fn counted_lines(
    alloc: Global,
    plates: Option<u64>,
    boxes: u64,
    left: u64,
) -> Result<String, Memory>
    ensures { IfOk result (λ lines. string_bytes lines ≡ counted_lines_of plates boxes left) }
{
    let plates = number_or_none(alloc, plates)?;
    Ok(format!(in alloc; "plates {plates}\nboxes {boxes}\nopen {left}\n")?)
}

/// Appends a line for each improvement, with its loss.
fn put_entries(alloc: Global, improvements: &[Entry], lines: &mut String) -> Result<(), Memory>
    ensures { OnOk result (string_bytes lines.new
        ≡ string_bytes lines.old ++ entry_lines (map (λ e. e.loss) improvements.now)) }
{
    for entry in improvements {
        let loss = entry.loss;
        let line = format!(in alloc; "entry {loss}\n")?;
        lines.push_str(line.as_str())?;
    }
    Ok(())
}

/// Appends the lines that tell of the improvements of a search: how many there are, and the loss of each.
fn put_history(alloc: Global, improvements: &[Entry], lines: &mut String) -> Result<(), Memory>
    ensures { OnOk result (string_bytes lines.new
        ≡ string_bytes lines.old ++ history_lines (map (λ e. e.loss) improvements.now)) }
{
    let count = improvements.len();
    let line = format!(in alloc; "history {count}\n")?;
    lines.push_str(line.as_str())?;
    put_entries(alloc, improvements, lines)
}

/// The six lines that tell of a search with this loss and this bound.
pub(crate) fn six_lines(
    alloc: Global,
    ending: &str,
    loss: Option<u64>,
    bound: Option<u64>,
    plates: Option<u64>,
    boxes: u64,
    left: u64,
) -> Result<String, Memory>
    ensures { IfOk result (λ lines. string_bytes lines
        ≡ ended_lines_of ending.now loss bound ++ counted_lines_of plates boxes left) }
{
    let mut lines = ended_lines(alloc, ending, loss, bound)?;
    let counted = counted_lines(alloc, plates, boxes, left)?;
    lines.push_str(counted.as_str())?;
    Ok(lines)
}

/// The six lines that tell of a search.
fn summary_of(
    alloc: Global,
    ending: &str,
    certificate: &Certificate,
    plates: Option<u64>,
    boxes: u64,
) -> Result<String, Memory>
    ensures { let c = certificate.now in IfOk result (λ lines. string_bytes lines
        ≡ ended_lines_of ending.now c.loss c.bound ++ counted_lines_of plates boxes c.left) }
{
    let (loss, bound) = (certificate.loss, certificate.bound);
    six_lines(alloc, ending, loss, bound, plates, boxes, certificate.left)
}

/// The lines that tell of a search: the six, and behind them those of its improvements, where they are watched.
pub(crate) fn search_lines(
    alloc: Global,
    ending: &str,
    certificate: &Certificate,
    plates: Option<u64>,
    boxes: u64,
    improvements: &Option<Run<Entry>>,
) -> Result<String, Memory>
    requires ending { ending.now ≡ word_of (ending_of certificate.now) }
    requires boxes { boxes ≡ handled certificate.now }
    ensures { IfOk result (λ lines. string_bytes lines
        ≡ search_lines_of certificate.now plates (losses_in improvements.now)) }
{
    let mut lines = summary_of(alloc, ending, certificate, plates, boxes)?;
    match improvements {
        None => Ok(lines),
        Some(list) => {
            put_history(alloc, list.as_slice(), &mut lines)?;
            Ok(lines)
        }
    }
}
