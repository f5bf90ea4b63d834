//! Reading a certificate.

ghost use Rattle.std.specs.Prelude.{◌++◌, ◌<◌, ◌^◌, length, IfOk};
ghost use Rattle.cert_log.specs.Good.{HasVersion};
ghost use Rattle.cert_log.specs.Outcomes.{IsHead, IsReading};
ghost use Rattle.cert_log.specs.Texts.{first_line};
ghost use Rattle.cert_log.specs.Trees.{IsTree};

use crate::bad_cert::BadCert;
use crate::certificate::Certificate;
use crate::head::{Head, read_head};
use crate::node_lines::{append_line, next_line};
use crate::place::{Place, place_behind};
use glass_base::Run;
use std::alloc::Global;

/// The certificate of this first line whose nodes' lines the text is, or the first refusal.
fn read_nodes(alloc: Global, head: Head, text: &[u8]) -> Result<Certificate, BadCert>
    requires head { IsHead head }
    requires short { length text.now < 2 ^ 63 }
    ensures { IsReading (first_line head ++ text.now) result }
{
    let mut nodes = Run::new(alloc);
    let mut at = Place {
        places: 1,
        after_open: false,
    };
    let mut rest = text;
    let mut line = 2u64;
    while at.places > 0 {
        let (found, behind) = next_line(head.version, at, line, rest)?;
        append_line(&mut nodes, found)?;
        at = place_behind(at, found);
        rest = behind;
        line += 1;
    }
    if rest.is_empty() {
        Ok(Certificate {
            version: head.version,
            loss: head.loss,
            bound: head.bound,
            left: head.left,
            floor: head.floor,
            nodes,
        })
    } else {
        Err(BadCert::Trailing(line))
    }
}

/// The certificate that a text stands for, of version 1, 2 or 3, or the first refusal.
///
/// Each line ends with a line feed, and its fields are parted by semicolons. Numbers have 64 bits and no leading zeros.
/// - The first line is `glasscert`, the version, the loss, the bound and the number of open nodes; a loss or bound is a number or `none`.
///   In version 3 the floor stands behind them, a number.
/// - Then come the nodes in pre-order, up to the last one of the tree:
///   - `S`, a step below 800 and the letter of a variable stand for a split: `s`, `t`, `k`, `l` for stack, turn, kind and lift, `a` to `e`
///     for the cuts.
///   - A closed node is `C` alone in version 1. From version 2 on its cause stands behind it: `b` for the bound, or the number of the reason;
///     in version 3 also `f` for the floor.
///   - An open node is `O` alone in version 1. From version 2 on a line `O` with a number stands for so many open nodes in a row, one at least,
///     and no such line stands right behind another one.
///
/// The refusals count lines from 1; the first line is line 1.
/// - `Head`: the first line is missing, has no line feed or is not of this form.
/// - `Line(line)`: the first further line before the tree is complete that is not of this form or may not come there, or has no line feed.
/// - `Short(lines)`: the text ends at the end of a line before the tree is complete; it has so many lines.
/// - `Trailing(line)`: bytes stand behind the complete tree; the line at which they begin.
/// - `Memory`: memory ran out.
///
/// It takes time linear in the text, and memory for the nodes alone.
pub fn read_cert(alloc: Global, bytes: &[u8]) -> Result<Certificate, BadCert>
    ensures reading { IsReading bytes.now result }
    ensures tree { IfOk result (λ c. IsTree c.nodes.items) }
    ensures version { IfOk result HasVersion }
{
    let (head, rest) = read_head(bytes).ok_or(BadCert::Head)?;
    read_nodes(alloc, head, rest)
}
