//! Laws of the draft. The functions do nothing: their contracts are the laws.

ghost use Rattle.std.specs.Prelude.{◌≡◌, ℕ, List};
ghost use Rattle.glass_base.specs.Problem.{Problem, IsProblem};
ghost use Rattle.cut_model.specs.Lawful.{IsLawful};
ghost use Rattle.cut_model.specs.Tree.{Forest};
ghost use Rattle.cut_model.specs.declared.steps.Step.{Step};
ghost use Rattle.plan_draft.specs.Drafts.{IsDraft, IsDraftPlan, HasNoDraft};
ghost use Rattle.plan_trace.specs.Claims.{IsComplete};

/// There is one draft at the most, and none where an item has no step.
pub fn drafts_are_one()
    ensures one { (b : Problem) → (steps others : List Step) → IsDraft b steps → IsDraft b others
        → steps ≡ others }
    ensures none { (b : Problem) → (steps : List Step) → (number : ℕ) → IsDraft b steps
        → HasNoDraft b number → ⊥ }
    ensures first { (b : Problem) → (number other : ℕ) → HasNoDraft b number → HasNoDraft b other
        → number ≡ other }
{}

/// A draft has a step for each item and meets the rules of a trace, whatever defects the plates have.
pub fn drafts_are_complete()
    ensures { (b : Problem) → (steps : List Step) → IsProblem b → IsDraft b steps
        → IsComplete b steps }
{}

/// The plan of a draft obeys the ten rules of a lawful plan.
pub fn drafts_are_lawful()
    ensures { (b : Problem) → (plan : Forest) → IsProblem b → IsDraftPlan b plan → IsLawful b plan }
{}
