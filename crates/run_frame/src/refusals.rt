//! Which numbers the refusals of texts and of instances have. Those of plans, certificates and sheets stand beside the commands that read them.

ghost use Rattle.std.specs.Prelude.{◌≡◌};
ghost use Rattle.run_frame.specs.Answers.{lists_refusal as lists_refusal_of, params_refusal as params_refusal_of, refusal as refusal_of, text_refusal as text_refusal_of};

use glass_base::{BadInstance, BadParams, BadText, Role};

/// A refusal of what a file says: the file, the number of the refusal, and two values, which are 0 where there is nothing to say.
#[derive(Clone, Copy, Debug, PartialEq, Eq)]
pub struct Refusal {
    pub role: Role,
    pub number: u32,
    pub first: u64,
    pub second: u64,
}

/// The refusal of this file with this number and these two values.
pub fn numbered(role: Role, number: u32, first: u64, second: u64) -> Option<Refusal>
    ensures { result ≡ refusal_of role number first second }
{
    Some(Refusal {
        role,
        number,
        first,
        second,
    })
}

/// The refusal of parameters.
fn params_refusal(reason: BadParams) -> Option<Refusal>
    ensures { result ≡ params_refusal_of reason }
{
    match reason {
        BadParams::ZeroSide => numbered(Role::Params, 1, 0, 0),
        BadParams::Order(left, right) => {
            numbered(Role::Params, 2, u64::from(left), u64::from(right))
        }
        BadParams::OverLimit(value, limit) => {
            numbered(Role::Params, 3, u64::from(value), u64::from(limit))
        }
    }
}

/// The refusal of lists that make no instance, none where memory ran out.
pub fn lists_refusal(reason: BadInstance) -> Option<Refusal>
    ensures { result ≡ lists_refusal_of reason }
{
    match reason {
        BadInstance::Memory => None,
        BadInstance::NoItems => numbered(Role::Batch, 4, 0, 0),
        BadInstance::TooMany { of, count, limit } => numbered(of, 5, count, limit),
        BadInstance::DoubleId(first, second) => {
            numbered(Role::Batch, 6, u64::from(first), u64::from(second))
        }
        BadInstance::DoubleSequence(first, second) => {
            numbered(Role::Batch, 7, u64::from(first), u64::from(second))
        }
        BadInstance::ZeroItem(position) => numbered(Role::Batch, 8, u64::from(position), 0),
    }
}

/// The refusal of a text of this role, none where memory ran out.
pub fn text_refusal(role: Role, reason: BadText) -> Option<Refusal>
    ensures { result ≡ text_refusal_of role reason }
{
    match reason {
        BadText::Memory => None,
        BadText::Record(row, fields) => numbered(role, 10, row, fields),
        BadText::Number(row, column) => numbered(role, 11, row, column),
        BadText::Range(row, column) => numbered(role, 12, row, column),
        BadText::EmptyDefect(row) => numbered(role, 13, row, 0),
        BadText::ZeroWidth(row) => numbered(role, 14, row, 0),
        BadText::Params(reason) => params_refusal(reason),
    }
}
