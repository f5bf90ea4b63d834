//! The rules that the judge of cuts judges.

ghost use Rattle.std.specs.Prelude.{◌≡◌};

use cut_model::Rule;

/// A rule on cuts, in the order in which they are judged. `Rule` says what each asks.
#[derive(Clone, Copy)]
pub enum CutRule {
    L1,
    L2,
    L3,
    L4,
    L5,
    L6,
    L7,
    L8,
}

impl From<CutRule> for Rule {
    ghost use Rattle.cut_rules.specs.Breaches.{rule_of};

    ghost from_gives = { λ rule among. among ≡ rule_of rule };

    fn from(rule: CutRule) -> Rule {
        match rule {
            CutRule::L1 => Rule::L1,
            CutRule::L2 => Rule::L2,
            CutRule::L3 => Rule::L3,
            CutRule::L4 => Rule::L4,
            CutRule::L5 => Rule::L5,
            CutRule::L6 => Rule::L6,
            CutRule::L7 => Rule::L7,
            CutRule::L8 => Rule::L8,
        }
    }
}
