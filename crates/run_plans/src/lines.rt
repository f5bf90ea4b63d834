//! The lines that tell of plans and sheets.

ghost use Rattle.std.specs.Prelude.{◌≡◌, ◌<◌, ◌^◌, IfOk};
ghost use Rattle.std.specs.String.{string_bytes};
ghost use Rattle.cut_sheet.specs.Areas.{made_area};
ghost use Rattle.run_plans.specs.Drafts.{no_draft_line as no_draft_line_of, summary};
ghost use Rattle.run_plans.specs.Judgements.{lawful_line as lawful_line_of, unlawful_line as unlawful_line_of};
ghost use Rattle.run_plans.specs.Replays.{replay_line as replay_line_of};
ghost use Rattle.run_plans.specs.Sheets.{instructions_line as instructions_line_of};

use cut_model::Broken;
use cut_sheet::{Instr, Made, cuts, waste};
use glass_base::Memory;
use std::alloc::Global;

/// The line that names an item without a place.
pub(crate) fn no_draft_line(alloc: Global, number: u32) -> Result<String, Memory>
    ensures { IfOk result (λ line. string_bytes line ≡ no_draft_line_of number) }
{
    Ok(format!(in alloc; "no draft {number}\n")?)
}

/// The lines that tell of a plan.
pub(crate) fn summary_lines(alloc: Global, loss: u64, plates: u64) -> Result<String, Memory>
    ensures { IfOk result (λ lines. string_bytes lines ≡ summary loss plates) }
{
    Ok(format!(in alloc; "loss {loss}\nplates {plates}\n")?)
}

/// The line that names the first breach of a plan.
pub fn unlawful_line(alloc: Global, broken: &Broken) -> Result<String, Memory>
    ensures { IfOk result (λ line. string_bytes line ≡ unlawful_line_of broken.now) }
{
    let word = broken.rule.word();
    let (plate, node) = (broken.plate, broken.node);
    let (left, right) = (broken.left, broken.right);
    Ok(format!(in alloc; "unlawful {word} plate {plate} node {node} {left} {right}\n")?)
}

/// The line that tells the loss of a lawful plan.
pub fn lawful_line(alloc: Global, loss: u64) -> Result<String, Memory>
    ensures { IfOk result (λ line. string_bytes line ≡ lawful_line_of loss) }
{
    Ok(format!(in alloc; "lawful loss {loss}\n")?)
}

/// The line that tells how many instructions a sheet has.
pub(crate) fn instructions_line(alloc: Global, sheet: &[Instr]) -> Result<String, Memory>
    ensures { IfOk result (λ line. string_bytes line ≡ instructions_line_of sheet.now) }
{
    let count = sheet.len();
    Ok(format!(in alloc; "instructions {count}\n")?)
}

/// The line that tells what a sheet makes.
pub(crate) fn replay_line(alloc: Global, sheet: &[Instr], made: &[Made]) -> Result<String, Memory>
    requires { made_area made.now < 2 ^ 64 }
    ensures { IfOk result (λ line. string_bytes line ≡ replay_line_of sheet.now made.now) }
{
    let pieces = made.len();
    let parted = cuts(sheet);
    let wasted = waste(made);
    Ok(format!(in alloc; "pieces {pieces} cuts {parted} waste {wasted}\n")?)
}
