//! What the program that draws answers to an instance and the text of a plan.

ghost use Rattle.std.specs.Prelude.{◌≡◌, [], ℕ, List, IfOk};
ghost use Rattle.std.specs.String.{string_bytes};
ghost use Rattle.cut_model.specs.Fits.{Fits};
ghost use Rattle.cut_model.specs.Tree.{tree};
ghost use Rattle.picture_run.specs.Pictures.{Draws, DrawsText};
ghost use Rattle.run_frame.specs.Forms.{answer_in};
ghost use Rattle.run_plans.specs.Verdicts.{verdict_line as verdict_line_of};

use command_line::Product;
use cut_model::{Plan, Verdict};
use defect_map::Ground;
use glass_base::Memory;
use plan_picture::picture;
use run_frame::{Reply, Status, one_output, reply_at};
use run_plans::{lawful_line, read_plan_of, unlawful_line, verdict_on};
use std::alloc::Global;

/// The line that tells what was found of a plan: its loss, or its first breach.
fn verdict_line(alloc: Global, verdict: &Verdict) -> Result<String, Memory>
    ensures { IfOk result (λ line. string_bytes line ≡ verdict_line_of verdict.now) }
{
    match verdict {
        Verdict::Lawful(loss) => lawful_line(alloc, *loss),
        Verdict::Broken(broken) => unlawful_line(alloc, broken),
    }
}

/// The reply that stores the picture of a plan, and tells its loss or its first breach.
fn draw_plan(alloc: Global, ground: Ground<'_>, plan: &Plan) -> Result<Reply, Memory>
    requires { Fits (tree plan.now) }
    ensures { IfOk result (λ r. (name : Product → List ℕ)
        → Draws ground.entry.instance.now (name Product.Picture) (tree plan.now) (answer_in name r)) }
{
    let verdict = verdict_on(alloc, ground, plan)?;
    let lines = verdict_line(alloc, &verdict)?;
    let bytes = picture(alloc, ground.instance, plan, &verdict)?;
    Ok(Reply {
        status: Status::Done,
        outputs: one_output(alloc, Product::Picture, bytes)?,
        lines,
    })
}

/// The reply to the text of a plan of this instance: its picture is stored, whether it is lawful or not.
pub(crate) fn draw_text(alloc: Global, ground: Ground<'_>, bytes: &[u8]) -> Result<Reply, Memory>
    ensures { IfOk result (λ r. (name : Product → List ℕ)
        → DrawsText ground.entry.instance.now (name Product.Picture) bytes.now (answer_in name r)) }
{
    match read_plan_of(alloc, ground.instance, bytes) {
        Ok(plan) => draw_plan(alloc, ground, &plan),
        Err(stop) => reply_at(alloc, stop),
    }
}
