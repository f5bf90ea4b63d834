//! Why a text is no certificate's.

ghost use Rattle.std.specs.Prelude.{◌≡◌};
ghost use Rattle.cert_log.specs.declared.bad_cert.BadCert.TheVariants.{Memory as OutOfMemory};

use glass_base::Memory;

/// The first refusal of a text. Lines are counted from 1; the first line is line 1.
#[derive(Clone, Copy, Debug, PartialEq, Eq)]
pub enum BadCert {
    /// Memory ran out.
    Memory,
    /// The first line is missing, has no line feed or is not of its form.
    Head,
    /// The first further line before the tree is complete that is not of its form or may not come there, or has no line feed.
    Line(u64),
    /// The text ends at the end of a line before the tree is complete: the number of its lines.
    Short(u64),
    /// Bytes stand behind the complete tree: the line at which they begin.
    Trailing(u64),
}

impl From<Memory> for BadCert {
    ghost from_gives = { λ _ e. e ≡ OutOfMemory };

    fn from(_refused: Memory) -> BadCert {
        BadCert::Memory
    }
}
