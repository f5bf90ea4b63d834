//! Plans that texts say, and whether they are lawful.

ghost use Rattle.std.specs.Prelude.{◌≡◌, ◌≤◌, ℕ, Ok, IfOk, MatchResult};
ghost use Rattle.cut_model.specs.Fits.{Fits};
ghost use Rattle.cut_model.specs.Lawful.{IsLawful};
ghost use Rattle.cut_model.specs.Tree.{count, tree};
ghost use Rattle.plan_csv.specs.PlanTexts.{plan_said};
ghost use Rattle.run_frame.specs.Forms.{OnTold};
ghost use Rattle.run_plans.specs.Judgements.{TellsBreach, TellsNoPlan};

use crate::judging::{first_breach, plan_refusal, unlawful_notice};
use cut_model::Plan;
use defect_map::Ground;
use glass_base::Instance;
use plan_csv::read_plan;
use run_frame::{Stop, stop_at};
use std::alloc::Global;

/// The plan of this instance that a text says, or what is told of a text that says none.
pub fn read_plan_of(alloc: Global, instance: &Instance, bytes: &[u8]) -> Result<Plan, Stop>
    ensures plan { MatchResult result (λ plan. plan_said instance.now bytes.now ≡ Ok (tree plan))
        (OnTold (TellsNoPlan instance.now bytes.now)) }
    ensures fits { IfOk result (λ plan. Fits (tree plan)) }
    ensures rows { IfOk result (λ plan. count (tree plan) ≤ 1000000000) }
{
    match read_plan(alloc, instance, bytes) {
        Ok(plan) => Ok(plan),
        Err(reason) => Err(stop_at(alloc, plan_refusal(reason))),
    }
}

/// Goes on where a plan is lawful; else its first breach is told.
pub fn lawful(alloc: Global, ground: Ground<'_>, plan: &Plan) -> Result<(), Stop>
    requires { Fits (tree plan.now) }
    ensures { let b = ground.entry.instance.now in
        MatchResult result (λ _. IsLawful b (tree plan.now))
        (OnTold (TellsBreach b (tree plan.now))) }
{
    match first_breach(alloc, ground, plan)? {
        None => Ok(()),
        Some(broken) => Err(Stop::Told(unlawful_notice(alloc, &broken)?)),
    }
}
