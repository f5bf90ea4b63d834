//! What `draft` answers to an instance.

ghost use Rattle.std.specs.Prelude.{◌≡◌, [], ◌∷◌, ℕ, List, IfOk, MatchResult};
ghost use Rattle.cut_model.specs.Fits.{Fits};
ghost use Rattle.cut_model.specs.Tree.{tree};
ghost use Rattle.plan_draft.specs.Drafts.{HasNoDraft, IsDraftPlan};
ghost use Rattle.plan_trace.specs.Claims.{IsGoodPlan};
ghost use Rattle.run_plans.specs.Drafts.{Drafts, drafted, no_draft as no_draft_of};
ghost use Rattle.run_frame.specs.Forms.{answer_in, notice_in};

use crate::lines::{no_draft_line, summary_lines};
use command_line::Product;
use cut_model::{Plan, plates_used};
use defect_map::Ground;
use glass_base::{Instance, Memory};
use loss_area::loss;
use plan_csv::write_plan;
use plan_draft::draft;
use plan_trace::plan_of;
use run_frame::{Notice, Reply, Status, one_output, reply_with};
use std::alloc::Global;

/// The notice of an item that has no place.
fn no_draft(alloc: Global, number: u32) -> Result<Notice, Memory>
    ensures { IfOk result (λ n. notice_in n ≡ no_draft_of number) }
{
    Ok(Notice {
        status: Status::NoDraft,
        lines: no_draft_line(alloc, number)?,
    })
}

/// The reply that stores a plan.
fn reply_with_plan(alloc: Global, instance: &Instance, plan: &Plan) -> Result<Reply, Memory>
    requires { Fits (tree plan.now) }
    ensures { IfOk result (λ r. (name : Product → List ℕ)
        → answer_in name r ≡ drafted instance.now (name Product.Plan) (tree plan.now)) }
{
    let lines = summary_lines(alloc, loss(instance, plan), plates_used(plan))?;
    let text = write_plan(alloc, instance, plan)?;
    Ok(Reply {
        status: Status::Done,
        outputs: one_output(alloc, Product::Plan, text)?,
        lines,
    })
}

/// The plan of the draft, or the number of the first item without a place.
fn draft_plan(alloc: Global, ground: Ground<'_>) -> Result<Result<Plan, u32>, Memory>
    ensures drafted { let b = ground.entry.instance.now in
        IfOk result (λ drafted. MatchResult drafted
        (λ plan. IsDraftPlan b (tree plan)) (HasNoDraft b)) }
    ensures good { IfOk result (λ drafted. IfOk drafted
        (λ plan. IsGoodPlan ground.entry.instance.now (tree plan))) }
{
    match draft(alloc, ground.instance, ground.map)? {
        Ok(trace) => {
            let plan = plan_of(alloc, ground.instance, &trace)?;
            Ok(Ok(plan))
        }
        Err(number) => Ok(Err(number)),
    }
}

/// The reply to an instance: the plan of its draft, which is lawful, or the first item without a place.
pub fn draft_instance(alloc: Global, ground: Ground<'_>) -> Result<Reply, Memory>
    ensures { IfOk result (λ r. (name : Product → List ℕ)
        → Drafts ground.entry.instance.now (name Product.Plan) (answer_in name r)) }
{
    match draft_plan(alloc, ground)? {
        Ok(plan) => reply_with_plan(alloc, ground.instance, &plan),
        Err(number) => Ok(reply_with(alloc, no_draft(alloc, number)?)),
    }
}
