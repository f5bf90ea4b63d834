//! The sheet of a plan.

ghost use Rattle.std.specs.Prelude.{◌≡◌, All, IfOk, Ok};
ghost use Rattle.cut_model.specs.Fits.{Fits};
ghost use Rattle.cut_model.specs.Tree.{tree};
ghost use Rattle.cut_sheet.specs.Replays.{replayed};
ghost use Rattle.cut_sheet.specs.Sheets.{IsCuttable, pieces_of, sheet_in};
ghost use Rattle.cut_sheet.specs.Texts.{IsWritable};

use crate::instr::Instr;
use crate::parts::put_plate;
use cut_model::Plan;
use glass_base::{Instance, Memory, Run};
use std::alloc::Global;

/// The instructions by which a cutting table makes a plan, in cutting order: each plate is loaded, each piece but the last is cut off the
/// one that it is in, the last one is what is left, and a piece that is not cut any further leaves the table.
///
/// A table that follows them is never stuck, and the pieces that leave it are the plan's pieces that are not cut any further.
pub fn sheet_of(alloc: Global, instance: &Instance, plan: &Plan) -> Result<Run<Instr>, Memory>
    requires fits { Fits (tree plan.now) }
    requires cuttable { IsCuttable instance.now (tree plan.now) }
    ensures sheet { IfOk result (λ sheet. sheet.items ≡ sheet_in (tree plan.now)) }
    ensures replayed { IfOk result (λ sheet. replayed instance.now sheet.items
        ≡ Ok (pieces_of instance.now (tree plan.now))) }
    ensures writable { IfOk result (λ sheet. All IsWritable sheet.items) }
{
    let mut sheet = Run::new(alloc);
    for (place, plate) in plan.plates.as_slice().iter().enumerate() {
        put_plate(&mut sheet, place as u32, plate)?;
    }
    Ok(sheet)
}
