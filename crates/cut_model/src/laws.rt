//! Laws of the definitions on plans. The functions do nothing: their contracts are the laws.

ghost use Rattle.std.specs.Prelude.{◌≡◌, ℕ, ◌+◌, map, drop, take, slice_get, All};
ghost use Rattle.glass_base.specs.Problem.{Problem};
ghost use Rattle.cut_model.specs.Families.{families_of, rows_of};
ghost use Rattle.cut_model.specs.Neighbourhood.{KnowsIfFirst, KnowsIfItEnds, LiesByItsCut, StandsInItsParent};
ghost use Rattle.cut_model.specs.declared.family.Family.{Family};
ghost use Rattle.cut_model.specs.ItemSteps.{TracesTellOfRows};
ghost use Rattle.cut_model.specs.Shape.{IsPlanShaped};
ghost use Rattle.cut_model.specs.Tree.{Forest, count, neighbour_count, tree};
ghost use Rattle.cut_model.specs.Numbers.{numbers_from};
ghost use Rattle.cut_model.specs.declared.plan.Plan.{Plan};
ghost use Rattle.cut_model.specs.Parents.{NamedByChildren};

/// What a family says of its children is what the rows say that name it as their parent: whether there are any, the sum of
/// their sizes in the direction of the cut, and whether one is an item.
pub fn families_know_their_children()
    ensures { (b : Problem) → (plan : Forest)
        → All (NamedByChildren (rows_of b plan)) (families_of b plan) }
{}

/// The rows of a plan have the node numbers from 0 on, in their order.
pub fn rows_are_numbered()
    ensures { (b : Problem) → (plan : Forest)
        → map (λ r. r.node) (rows_of b plan) ≡ numbers_from 0 (count plan) }
{}

/// The tree of each plan has the shape of a plan.
pub fn plans_are_shaped()
    ensures { (plan : Plan) → IsPlanShaped (tree plan) }
{}

/// Each piece knows whether it is the first one of those that are cut from the same piece.
pub fn families_know_if_first()
    ensures { (b : Problem) → (plan : Forest) → (place : ℕ) → (f : Family)
        → slice_get (families_of b plan) place ≡ Some f
        → KnowsIfFirst (take place (rows_of b plan)) f }
{}

/// A plate stands in the corner of its own glass, and each other piece in the one that it is cut from: pieces side by side, or one
/// over the other, each where those before it end.
pub fn families_stand_in_their_parents()
    ensures { (b : Problem) → (plan : Forest) → (place : ℕ) → (f : Family)
        → slice_get (families_of b plan) place ≡ Some f
        → StandsInItsParent b (take place (rows_of b plan)) f }
{}

/// Each piece of a 1-cut knows whether it is the last one of the last plate.
pub fn strips_know_if_they_end()
    ensures { (b : Problem) → (plan : Forest) → (place : ℕ) → (f : Family)
        → slice_get (families_of b plan) place ≡ Some f
        → KnowsIfItEnds (neighbour_count plan) (drop (place + 1) (rows_of b plan)) f }
{}

/// The pieces of odd cuts lie side by side, those of even cuts one over the other.
pub fn families_lie_by_their_cuts()
    ensures { (b : Problem) → (plan : Forest) → All LiesByItsCut (families_of b plan) }
{}

/// Each step of a plan's trace tells of the row of its item: the sides of the strip, the band and the cell in which the item lies,
/// the outermost level at which its piece is not that of the item before, and whether waste lies under it in its cell.
pub fn traces_tell_of_their_rows()
    ensures { TracesTellOfRows }
{}
