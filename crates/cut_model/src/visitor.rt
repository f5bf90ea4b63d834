//! Who is told the pieces of a plan.

ghost use Rattle.std.specs.Prelude.{◌≡◌, [], ◌∷◌, List, OnOk};
ghost use Rattle.cut_model.specs.Tree.{type_number};
ghost use Rattle.cut_model.specs.Visits.{Tells, IsSmall};
ghost use Rattle.cut_model.specs.declared.family.Family.{Family};

use crate::family::Family;

/// What a walk tells the families of a plan, one after another: each piece before the pieces that it is cut into, plates
/// first.
pub trait Visitor {
    /// Why it may stop the walk before the end.
    type Stop;

    // how it was at some start, how it is now, and what it was told in between
    ghost has_seen: { Self → Self → List Family → Type 0 };

    /// Takes the next family.
    fn visit(&mut self, family: &Family) -> Result<(), Self::Stop>
        requires small { IsSmall family.now }
        requires named { family.now.row.kind ≡ type_number family.now.sort }
        ensures { OnOk result (Tells has_seen self.old self.new (family.now ∷ [])) };
}
