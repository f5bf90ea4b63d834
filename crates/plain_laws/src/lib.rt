//! What the plant may rely on, one law for each command that searches or checks, each with what its sentence says and no more. The functions do
//! nothing: their contracts are the laws. Each is a part of a law of `glass_run::laws`, which says more, of certificates, budgets and drafts.
#![tactic(auto)]

ghost use Rattle.std.specs.Prelude.{◌≡◌, ℕ, List, suc};
ghost use Rattle.command_line.specs.Grammar.{Line, count_in};
ghost use Rattle.command_line.specs.declared.kinds.Count.TheVariants as count;
ghost use Rattle.command_line.specs.declared.kinds.Verb.{Verb};
ghost use Rattle.command_line.specs.declared.kinds.Verb.TheVariants as verb;
ghost use Rattle.glass_io.specs.Told.{Contents};
ghost use Rattle.glass_run.specs.Headlines.{Ended, IsSearch, IsSearchEnd};
ghost use Rattle.run_frame.specs.Runs.{World};
ghost use Rattle.run_frame.specs.declared.status.Status.{Status};
ghost use Rattle.run_frame.specs.declared.status.Status.TheVariants as status;
ghost use Rattle.plain_laws.specs.Plain.{AcceptsPlan, AcceptsPlanBehind, FindsPlan, FindsPlanBehind, ResumesPlan};

use glass_run::laws::{
    done_checks_are_right, resumptions_are_right, searches_are_right,
    searches_behind_first_plates_are_right,
};

/// Where `plan` or `gen` ends with `optimal`, `stopped` or `infeasible`: a printed plan is lawful and has the printed loss, and OUT holds its text;
/// every lawful plan loses at least the printed bound. `optimal`: none loses less than the printed plan; `infeasible`: there is none.
pub fn plans_are_lawful_and_bounded()
    ensures { (words : List (List ℕ)) → (line : Line) → (held : Contents) → (old new : World)
        → (result : Status) → (search : Verb) → IsSearch search → IsSearchEnd result
        → Ended words search line held old new result → FindsPlan line held old new result }
{
    searches_are_right();
}

/// The same where `resume` ends; and the printed plan loses no more than that of PLAN, which is lawful, if there is one.
pub fn resumed_plans_are_lawful_and_bounded()
    ensures { (words : List (List ℕ)) → (line : Line) → (held : Contents) → (old new : World)
        → (result : Status) → IsSearchEnd result → Ended words verb.Resume line held old new result
        → ResumesPlan line held old new result }
{
    resumptions_are_right();
}

/// Where `freeze` ends with `optimal` or `stopped`: PLAN is lawful, and OUT holds the text of a lawful plan that begins with its first plates, has the
/// printed loss and loses no more; every lawful plan that begins with these plates loses at least the printed bound. `optimal`: none of them loses
/// less.
pub fn frozen_plans_are_lawful_and_bounded()
    ensures { (words : List (List ℕ)) → (line : Line) → (held : Contents) → (old new : World)
        → (result : Status) → IsSearchEnd result → Ended words verb.Freeze line held old new result
        → FindsPlanBehind line held old new result }
{
    searches_behind_first_plates_are_right();
}

/// Where `verify` without `--frozen` is done: the plan that PLAN says is lawful, if PLAN is no dash, and every lawful plan loses at least the printed
/// bound.
pub fn accepted_plans_are_lawful_and_bounded()
    ensures { (words : List (List ℕ)) → (line : Line) → (held : Contents) → (old new : World)
        → count_in line count.Frozen ≡ 0 → Ended words verb.Verify line held old new status.Done
        → AcceptsPlan line held old new }
{
    done_checks_are_right();
}

/// Where `verify --frozen=K` is done: the plan that PLAN says is lawful, and every lawful plan that begins with its first K plates loses at least the
/// printed bound.
pub fn accepted_plans_behind_first_plates_are_lawful_and_bounded()
    ensures { (words : List (List ℕ)) → (line : Line) → (held : Contents) → (old new : World)
        → (k : ℕ) → count_in line count.Frozen ≡ suc k
        → Ended words verb.Verify line held old new status.Done
        → AcceptsPlanBehind (suc k) line held old new }
{
    done_checks_are_right();
}
