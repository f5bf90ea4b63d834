//! Laws of the definitions on solution texts. The functions do nothing: their contracts are the laws.

ghost use Rattle.std.specs.Prelude.{◌≡◌, ◌≤◌, ◌*◌, ◌+◌, ℕ, List, All, Ok, length};
ghost use Rattle.glass_base.specs.Problem.{Problem, IsProblem};
ghost use Rattle.cut_model.specs.declared.plan.Plan.{Plan};
ghost use Rattle.cut_model.specs.Families.{families_of, rows_of};
ghost use Rattle.cut_model.specs.Fits.{Fits};
ghost use Rattle.cut_model.specs.Rules.{AddsUp};
ghost use Rattle.cut_model.specs.Tree.{Forest, count, tree};
ghost use Rattle.plan_csv.specs.PlanTexts.{IsWritable, IsWithin, plan_said};
ghost use Rattle.plan_csv.specs.Solutions.{solution_text};

/// What is written is read again as the same plan, for each plan that is writable: it fits, its rows begin within 20,000 mm of
/// the plate's corner, and it has at most 1,000,000,000 rows.
pub fn plans_are_read_again()
    ensures { (b : Problem) → (plan : Plan) → IsProblem b → IsWritable b (tree plan)
        → plan_said b (solution_text b (tree plan)) ≡ Ok (tree plan) }
{}

/// Where the children of each piece add up to its size, the rows of a plan that fits begin within 20,000 mm.
pub fn plans_that_add_up_are_within()
    ensures { (b : Problem) → (plan : Plan) → Fits (tree plan)
        → All (λ f. AddsUp f f.sort) (families_of b (tree plan))
        → All IsWithin (rows_of b (tree plan)) }
{}

/// The tree that a text says fits, and has at most 1,000,000,000 rows, and no more than the text has bytes.
pub fn plans_that_are_read_fit()
    ensures { (b : Problem) → (bytes : List ℕ) → (plan : Forest) → plan_said b bytes ≡ Ok plan
        → Fits plan × (count plan ≤ 1000000000) × (count plan ≤ length bytes) }
{}

/// The text of a plan that is writable has at most 100 bytes for each row, and 100 for the names of the columns.
pub fn texts_of_plans_are_short()
    ensures { (b : Problem) → (plan : Plan) → IsProblem b → IsWritable b (tree plan)
        → length (solution_text b (tree plan)) ≤ 100 * (count (tree plan) + 1) }
{}
