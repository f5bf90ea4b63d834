//! Replies that only print, and why a command has none.

ghost use Rattle.std.specs.Prelude.{◌≡◌, ℕ, List, IfOk};
ghost use Rattle.command_line.specs.declared.kinds.Product.{Product as ProductOf};
ghost use Rattle.run_frame.specs.Answers.{Refused, absent as absent_of, bad_input as bad_input_of, too_long as too_long_of};
ghost use Rattle.run_frame.specs.Forms.{OnTold, Tells, answer_in, notice_in};
ghost use Rattle.run_frame.specs.declared.notices.Stop.TheVariants.{Memory as OutOfReach};

use crate::lines::{absent_line, bad_input_line, too_long_line};
use crate::refusals::Refusal;
use crate::reply::{Notice, Reply};
use crate::status::Status;
use glass_base::{Memory, Role, Run};
use std::alloc::Global;

/// Why a command was not answered to the end.
#[derive(Drop)]
pub enum Stop {
    /// What is to be told of a refusal.
    Told(Notice),
    /// Memory ran out.
    Memory,
}

impl From<Memory> for Stop {
    ghost from_gives = { λ _ e. e ≡ OutOfReach };

    fn from(_refused: Memory) -> Stop {
        Stop::Memory
    }
}

/// The reply that only prints.
pub fn reply_with(alloc: Global, notice: Notice) -> Reply
    ensures { (name : ProductOf → List ℕ) → answer_in name result ≡ notice_in notice }
{
    Reply {
        status: notice.status,
        outputs: Run::new(alloc),
        lines: notice.lines,
    }
}

/// The reply that tells why a command was not answered to the end.
pub fn reply_at(alloc: Global, stop: Stop) -> Result<Reply, Memory>
    ensures { IfOk result (λ r. (name : ProductOf → List ℕ) → Tells stop (answer_in name r)) }
{
    match stop {
        Stop::Told(notice) => Ok(reply_with(alloc, notice)),
        Stop::Memory => Err(Memory),
    }
}

/// The notice of a file that is not there.
pub(crate) fn absent(alloc: Global, role: Role) -> Result<Notice, Memory>
    ensures { IfOk result (λ n. notice_in n ≡ absent_of role) }
{
    Ok(Notice {
        status: Status::Absent,
        lines: absent_line(alloc, role)?,
    })
}

/// The notice of a file that is longer than its limit.
pub(crate) fn too_long(alloc: Global, role: Role) -> Result<Notice, Memory>
    ensures { IfOk result (λ n. notice_in n ≡ too_long_of role) }
{
    Ok(Notice {
        status: Status::TooLong,
        lines: too_long_line(alloc, role)?,
    })
}

/// The notice of a refusal with this number and these two values.
pub fn bad_input(
    alloc: Global,
    role: Role,
    number: u32,
    first: u64,
    second: u64,
) -> Result<Notice, Memory>
    ensures { IfOk result (λ n. notice_in n ≡ bad_input_of role number first second) }
{
    Ok(Notice {
        status: Status::BadInput,
        lines: bad_input_line(alloc, role, number, first, second)?,
    })
}

/// The notice of a refusal. Where there is none, memory ran out.
pub fn refused(alloc: Global, refusal: Option<Refusal>) -> Result<Notice, Memory>
    ensures { IfOk result (λ n. Refused refusal (notice_in n)) }
{
    match refusal {
        None => Err(Memory),
        Some(r) => bad_input(alloc, r.role, r.number, r.first, r.second),
    }
}

/// What is told of a refusal. Where there is none, memory ran out.
pub fn stop_at(alloc: Global, refusal: Option<Refusal>) -> Stop
    ensures { OnTold (Refused refusal) result }
{
    match refused(alloc, refusal) {
        Ok(notice) => Stop::Told(notice),
        Err(memory) => Stop::from(memory),
    }
}
