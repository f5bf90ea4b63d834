//! What `replay` answers to an instance and the text of a sheet.

ghost use Rattle.std.specs.Prelude.{◌≡◌, ◌<◌, ◌^◌, IfOk};
ghost use Rattle.cut_sheet.specs.Areas.{made_area};
ghost use Rattle.cut_sheet.specs.Replays.{replayed};
ghost use Rattle.run_plans.specs.Replays.{Follows, ReplaysText, followed as followed_of, sheet_refusal as sheet_refusal_of};
ghost use Rattle.run_frame.specs.Forms.{notice_in};

use crate::lines::replay_line;
use cut_sheet::{BadSheet, Instr, Made, read_sheet, replay};
use glass_base::{Instance, Memory, Role};
use run_frame::{Notice, Refusal, Status, bad_input, numbered, refused};
use std::alloc::Global;

/// The refusal of a text that is no sheet, none where memory ran out.
fn sheet_refusal(reason: BadSheet) -> Option<Refusal>
    ensures { result ≡ sheet_refusal_of reason }
{
    match reason {
        BadSheet::Memory => None,
        BadSheet::Head => numbered(Role::Sheet, 40, 1, 0),
        BadSheet::Line(line) => numbered(Role::Sheet, 41, line, 0),
    }
}

/// The notice of a sheet that was followed to its end, by the pieces that left the table.
fn followed(alloc: Global, sheet: &[Instr], made: &[Made]) -> Result<Notice, Memory>
    requires { made_area made.now < 2 ^ 64 }
    ensures { IfOk result (λ n. notice_in n ≡ followed_of sheet.now made.now) }
{
    Ok(Notice {
        status: Status::Done,
        lines: replay_line(alloc, sheet, made)?,
    })
}

/// The notice of a sheet: what it makes, or where it gets stuck.
fn follow_sheet(alloc: Global, instance: &Instance, sheet: &[Instr]) -> Result<Notice, Memory>
    ensures { IfOk result (λ n. Follows sheet.now (replayed instance.now sheet.now) (notice_in n)) }
{
    match replay(alloc, instance, sheet)? {
        Ok(made) => followed(alloc, sheet, made.as_slice()),
        Err(stuck) => bad_input(alloc, Role::Sheet, 42, stuck.line, u64::from(stuck.why)),
    }
}

/// The notice of the text of a sheet.
pub fn replay_text(alloc: Global, instance: &Instance, bytes: &[u8]) -> Result<Notice, Memory>
    ensures { IfOk result (λ n. ReplaysText instance.now bytes.now (notice_in n)) }
{
    match read_sheet(alloc, bytes) {
        Ok(sheet) => follow_sheet(alloc, instance, sheet.as_slice()),
        Err(reason) => refused(alloc, sheet_refusal(reason)),
    }
}
