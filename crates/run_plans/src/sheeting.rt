//! What `sheet` answers to an instance and the text of a plan.

ghost use Rattle.std.specs.Prelude.{◌≡◌, [], ℕ, List, IfOk, MatchResult};
ghost use Rattle.cut_model.specs.Fits.{Fits};
ghost use Rattle.cut_model.specs.Lawful.{IsLawful};
ghost use Rattle.cut_model.specs.Tree.{tree};
ghost use Rattle.cut_sheet.specs.Sheets.{sheet_in};
ghost use Rattle.run_plans.specs.Sheets.{SheetsText, sheeted};
ghost use Rattle.run_frame.specs.Forms.{OnTold, answer_in};

use crate::lines::instructions_line;
use crate::reading::{lawful, read_plan_of};
use command_line::Product;
use cut_model::Plan;
use cut_sheet::{sheet_of, write_sheet};
use defect_map::Ground;
use glass_base::{Instance, Memory};
use run_frame::{Reply, Status, Stop, one_output, reply_at};
use std::alloc::Global;

/// The reply that stores the sheet of a lawful plan, and tells how many instructions it has.
fn store_sheet(alloc: Global, instance: &Instance, plan: &Plan) -> Result<Reply, Memory>
    requires fits { Fits (tree plan.now) }
    requires lawful { IsLawful instance.now (tree plan.now) }
    ensures { IfOk result (λ r. (name : Product → List ℕ)
        → answer_in name r ≡ sheeted (name Product.Sheet) (sheet_in (tree plan.now))) }
{
    let _params = instance.params();
    let sheet = sheet_of(alloc, instance, plan)?;
    let lines = instructions_line(alloc, sheet.as_slice())?;
    let bytes = write_sheet(alloc, sheet.as_slice())?;
    Ok(Reply {
        status: Status::Done,
        outputs: one_output(alloc, Product::Sheet, bytes)?,
        lines,
    })
}

/// The reply that stores the sheet of the plan that a text says, where it is lawful; or what is told of the text, or of the plan.
fn store_sheet_of(alloc: Global, ground: Ground<'_>, bytes: &[u8]) -> Result<Reply, Stop>
    ensures { let b = ground.entry.instance.now in
        MatchResult result (λ r. (name : Product → List ℕ)
        → SheetsText b (name Product.Sheet) bytes.now (answer_in name r))
        (OnTold (λ answer. (name : List ℕ) → SheetsText b name bytes.now answer)) }
{
    let plan = read_plan_of(alloc, ground.instance, bytes)?;
    lawful(alloc, ground, &plan)?;
    Ok(store_sheet(alloc, ground.instance, &plan)?)
}

/// The reply to the text of a plan of this instance: its sheet is stored where it is lawful.
pub fn sheet_text(alloc: Global, ground: Ground<'_>, bytes: &[u8]) -> Result<Reply, Memory>
    ensures { IfOk result (λ r. (name : Product → List ℕ)
        → SheetsText ground.entry.instance.now (name Product.Sheet) bytes.now (answer_in name r)) }
{
    match store_sheet_of(alloc, ground, bytes) {
        Ok(reply) => Ok(reply),
        Err(stop) => reply_at(alloc, stop),
    }
}
