//! The rules that the judge of order judges.

ghost use Rattle.std.specs.Prelude.{◌≡◌};

use cut_model::Rule;

/// A rule on the order of items, in the order in which they are judged. `Rule` says what each asks.
#[derive(Clone, Copy)]
pub enum OrderRule {
    L9Unknown,
    L9Twice,
    L9Missing,
    L9EmptyPlate,
    L9Plates,
    L10,
}

impl From<OrderRule> for Rule {
    ghost use Rattle.stack_order.specs.Breaches.{rule_of};

    ghost from_gives = { λ rule among. among ≡ rule_of rule };

    fn from(rule: OrderRule) -> Rule {
        match rule {
            OrderRule::L9Unknown => Rule::L9Unknown,
            OrderRule::L9Twice => Rule::L9Twice,
            OrderRule::L9Missing => Rule::L9Missing,
            OrderRule::L9EmptyPlate => Rule::L9EmptyPlate,
            OrderRule::L9Plates => Rule::L9Plates,
            OrderRule::L10 => Rule::L10,
        }
    }
}
