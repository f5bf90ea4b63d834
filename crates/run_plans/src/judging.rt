//! What `judge` answers to an instance and the text of a plan.

ghost use Rattle.std.specs.Prelude.{◌≡◌, IfOk, All};
ghost use Rattle.cut_model.specs.Families.{families_of};
ghost use Rattle.cut_model.specs.Fits.{Fits};
ghost use Rattle.cut_model.specs.Rules.{KeepsCutRules};
ghost use Rattle.cut_model.specs.Tree.{tree};
ghost use Rattle.run_plans.specs.Breaches.{IsBreachIfAny};
ghost use Rattle.run_frame.specs.Forms.{notice_in};
ghost use Rattle.run_plans.specs.Verdicts.{IsVerdict};
ghost use Rattle.run_plans.specs.Judgements.{Judges, JudgesText, lawful as lawful_of, plan_refusal as plan_refusal_of, unlawful as unlawful_of};

use crate::lines::{lawful_line, unlawful_line};
use cut_model::{Broken, Plan, Verdict};
use cut_rules::judge_cuts;
use defect_map::Ground;
use glass_base::{Instance, Memory, Role};
use loss_area::loss;
use plan_csv::{BadPlan, read_plan};
use run_frame::{Notice, Refusal, Status, numbered, refused};
use stack_order::judge_order;
use std::alloc::Global;

/// The notice of a plan that breaks a rule.
pub(crate) fn unlawful_notice(alloc: Global, broken: &Broken) -> Result<Notice, Memory>
    ensures { IfOk result (λ n. notice_in n ≡ unlawful_of broken.now) }
{
    Ok(Notice {
        status: Status::Unlawful,
        lines: unlawful_line(alloc, broken)?,
    })
}

/// The notice of a lawful plan of this loss.
fn lawful_notice(alloc: Global, loss: u64) -> Result<Notice, Memory>
    ensures { IfOk result (λ n. notice_in n ≡ lawful_of loss) }
{
    Ok(Notice {
        status: Status::Done,
        lines: lawful_line(alloc, loss)?,
    })
}

/// The refusal of a text that is no plan, none where memory ran out.
pub(crate) fn plan_refusal(reason: BadPlan) -> Option<Refusal>
    ensures { result ≡ plan_refusal_of reason }
{
    match reason {
        BadPlan::Memory => None,
        BadPlan::Record(row, fields) => numbered(Role::Plan, 20, row, fields),
        BadPlan::Number(row, column) => numbered(Role::Plan, 21, row, column),
        BadPlan::Parent(row) => numbered(Role::Plan, 22, row, 0),
        BadPlan::Level(row, cut) => numbered(Role::Plan, 23, row, cut),
        BadPlan::Size(row, column) => numbered(Role::Plan, 24, row, column),
        BadPlan::Kind(row) => numbered(Role::Plan, 25, row, 0),
    }
}

/// The first breach of a rule on the order of items, of a plan that keeps the rules on cuts, if there is one.
fn order_breach(alloc: Global, instance: &Instance, plan: &Plan) -> Result<Option<Broken>, Memory>
    requires fits { Fits (tree plan.now) }
    requires cuts { All (KeepsCutRules instance.now) (families_of instance.now (tree plan.now)) }
    ensures { IfOk result (IsBreachIfAny instance.now (tree plan.now)) }
{
    match judge_order(alloc, instance, plan)? {
        Ok(()) => Ok(None),
        Err(broken) => Ok(Some(broken)),
    }
}

/// The first breach of a plan, if there is one. The rules on cuts come before those on the order of items.
pub(crate) fn first_breach(
    alloc: Global,
    ground: Ground<'_>,
    plan: &Plan,
) -> Result<Option<Broken>, Memory>
    requires fits { Fits (tree plan.now) }
    ensures { IfOk result (IsBreachIfAny ground.entry.instance.now (tree plan.now)) }
{
    match judge_cuts(ground.instance, ground.map, plan) {
        Ok(()) => order_breach(alloc, ground.instance, plan),
        Err(broken) => Ok(Some(broken)),
    }
}

/// What is found of a plan: its loss, or its first breach.
pub fn verdict_on(alloc: Global, ground: Ground<'_>, plan: &Plan) -> Result<Verdict, Memory>
    requires { Fits (tree plan.now) }
    ensures { IfOk result (IsVerdict ground.entry.instance.now (tree plan.now)) }
{
    match first_breach(alloc, ground, plan)? {
        None => Ok(Verdict::Lawful(loss(ground.instance, plan))),
        Some(broken) => Ok(Verdict::Broken(broken)),
    }
}

/// The notice of a plan: its loss, or its first breach.
fn judge_plan(alloc: Global, ground: Ground<'_>, plan: &Plan) -> Result<Notice, Memory>
    requires { Fits (tree plan.now) }
    ensures { IfOk result (λ n. Judges ground.entry.instance.now (tree plan.now) (notice_in n)) }
{
    match verdict_on(alloc, ground, plan)? {
        Verdict::Lawful(loss) => lawful_notice(alloc, loss),
        Verdict::Broken(broken) => unlawful_notice(alloc, &broken),
    }
}

/// The notice of the text of a plan of this instance.
pub fn judge_text(alloc: Global, ground: Ground<'_>, bytes: &[u8]) -> Result<Notice, Memory>
    ensures { IfOk result (λ n. JudgesText ground.entry.instance.now bytes.now (notice_in n)) }
{
    match read_plan(alloc, ground.instance, bytes) {
        Ok(plan) => judge_plan(alloc, ground, &plan),
        Err(reason) => refused(alloc, plan_refusal(reason)),
    }
}
