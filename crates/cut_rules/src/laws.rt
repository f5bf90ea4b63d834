//! A law of the definition of a breach. The function does nothing: its contract is the law.

ghost use Rattle.std.specs.Prelude.{◌≡◌, List};
ghost use Rattle.glass_base.specs.Problem.{Problem};
ghost use Rattle.cut_model.specs.declared.broken.Broken.{Broken};
ghost use Rattle.cut_model.specs.declared.family.Family.{Family};
ghost use Rattle.cut_rules.specs.Breaches.{IsBreach};

/// There is one breach at the most: the definition leaves the judge no choice.
pub fn breaches_are_one()
    ensures { (b : Problem) → (fs : List Family) → (x y : Broken) → IsBreach b fs x
        → IsBreach b fs y → x ≡ y }
{}
