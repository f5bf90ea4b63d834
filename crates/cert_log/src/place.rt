//! Where a reader stands in the tree, and which line may come there.

ghost use Rattle.std.specs.Prelude.{◌≡◌, ◌+◌, ◌<◌, ◌↔◌, ◌^◌, IsTrue};
ghost use Rattle.cert_log.specs.Follow.{MayCome, behind};
ghost use Rattle.cert_log.specs.inner.LineForms.{ComesIn, said};

use crate::history::Cause;
use glass_base::limits::MOST_ITEMS;
use plan_box::Var;

/// A line for a node, or for open nodes in a row.
#[derive(Clone, Copy)]
pub enum TextLine {
    Split { step: u32, var: Var },
    Closed(Cause),
    Open,
    Opens(u64),
}

/// Where a reader stands between two lines of nodes.
#[derive(Clone, Copy)]
pub struct Place {
    /// The places that are left in the tree.
    pub places: u64,
    /// Whether the last line was of open nodes with their number.
    pub after_open: bool,
}

/// Whether the line may come here, where the tree is not complete.
pub(crate) fn may_come(version: u32, at: Place, line: TextLine) -> bool
    ensures { IsTrue result ↔ MayCome version at (said line) }
{
    match line {
        TextLine::Split { step, .. } => step < MOST_ITEMS as u32,
        TextLine::Closed(Cause::Unsaid) | TextLine::Open => version == 1,
        TextLine::Closed(Cause::Bound | Cause::Reason(_)) => version >= 2,
        TextLine::Closed(Cause::Floor) => version >= 3,
        TextLine::Opens(count) => {
            version >= 2 && 0 < count && count <= at.places && !at.after_open
        }
    }
}

/// The place behind a line.
pub(crate) fn place_behind(at: Place, line: TextLine) -> Place
    requires may { ComesIn at (said line) }
    requires some { 0 < at.places }
    requires fits { at.places + 1 < 2 ^ 64 }
    ensures value { result ≡ behind at (said line) }
    ensures most { result.places < at.places + 2 }
{
    match line {
        TextLine::Split { .. } => Place {
            places: at.places + 1,
            after_open: false,
        },
        TextLine::Closed(_) | TextLine::Open => Place {
            places: at.places - 1,
            after_open: false,
        },
        TextLine::Opens(count) => Place {
            places: at.places - count,
            after_open: true,
        },
    }
}
