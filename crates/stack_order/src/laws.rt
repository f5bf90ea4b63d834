//! A law of the definition of a breach. The function does nothing: its contract is the law.

ghost use Rattle.std.specs.Prelude.{◌≡◌, List};
ghost use Rattle.glass_base.specs.Problem.{Problem};
ghost use Rattle.cut_model.specs.declared.broken.Broken.{Broken};
ghost use Rattle.cut_model.specs.declared.family.Row.{Row};
ghost use Rattle.stack_order.specs.Breaches.{IsBreach};
ghost use Rattle.stack_order.specs.declared.cuts.ItemCut.{ItemCut};

/// There is one breach at the most: the definition leaves the judge no choice.
pub fn breaches_are_one()
    ensures { (b : Problem) → (cuts : List ItemCut) → (plates : List Row) → (x y : Broken)
        → IsBreach b cuts plates x → IsBreach b cuts plates y → x ≡ y }
{}
