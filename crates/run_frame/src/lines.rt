//! The lines that tell of words and files.

ghost use Rattle.std.specs.Prelude.{◌≡◌, IfOk};
ghost use Rattle.std.specs.String.{string_bytes};
ghost use Rattle.run_frame.specs.Answers.{absent_line as absent_line_of, bad_input_line as bad_input_line_of, too_long_line as too_long_line_of};
ghost use Rattle.run_frame.specs.Runs.{read_fault_line as read_fault_line_of};

use command_line::role_word;
use glass_base::{Memory, Role};
use std::alloc::Global;

/// The line for words that are no command line.
pub const USAGE_LINE: &str = "usage\n";

/// The line for a file that cannot be read. It stands ready, so that a fault is told without asking for memory.
pub fn read_fault_line(role: Role) -> &'static str
    ensures { result.now ≡ read_fault_line_of role }
{
    match role {
        Role::Batch => "read fault batch\n",
        Role::Defects => "read fault defects\n",
        Role::Params => "read fault params\n",
        Role::Plan => "read fault plan\n",
        Role::Cert => "read fault cert\n",
        Role::Plates => "read fault plates\n",
        Role::Sheet => "read fault sheet\n",
    }
}

/// The line for a file that is not there.
pub(crate) fn absent_line(alloc: Global, role: Role) -> Result<String, Memory>
    ensures { IfOk result (λ line. string_bytes line ≡ absent_line_of role) }
{
    let word = role_word(role);
    Ok(format!(in alloc; "absent {word}\n")?)
}

/// The line for a file that is longer than its limit.
pub(crate) fn too_long_line(alloc: Global, role: Role) -> Result<String, Memory>
    ensures { IfOk result (λ line. string_bytes line ≡ too_long_line_of role) }
{
    let word = role_word(role);
    Ok(format!(in alloc; "too long {word}\n")?)
}

/// The line for a refusal, with its number and its two values.
pub(crate) fn bad_input_line(
    alloc: Global,
    role: Role,
    number: u32,
    first: u64,
    second: u64,
) -> Result<String, Memory>
    ensures { IfOk result (λ line. string_bytes line ≡ bad_input_line_of role number first second) }
{
    let word = role_word(role);
    Ok(format!(in alloc; "bad input {word} {number} {first} {second}\n")?)
}
