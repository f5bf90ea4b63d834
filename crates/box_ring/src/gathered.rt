//! The deques of a ring once its arms are put together.
ghost use Rattle.std.specs.Prelude.{◌≡◌, MatchOption, ◌∷◌, []};
ghost use Rattle.box_ring.specs.Tallies.{AllWhole};
ghost use Rattle.box_ring.specs.Gathers.{IsLeft, Drains};
ghost use Rattle.box_ring.specs.inner.Deques.{views};

use crate::deque::{Boxes, pop};
use plan_box::PlanBox;
use std::marker::Model;

/// The deques of a ring, each with both parts of its pass. Contracts see it as the `Tally` of each.
#[derive(Drop)]
pub struct Gathered {
    pub(crate) deques: Vec<Boxes>,
}

impl Model for Gathered {
    ghost use Rattle.std.specs.Prelude.{List};
    ghost use Rattle.box_ring.specs.declared.tally.Tally.{Tally};
    ghost use Rattle.box_ring.specs.Tallies.{AllWhole};
    ghost use Rattle.box_ring.specs.inner.Deques.{views};

    ghost Value = { List Tally };

    ghost view = { λ g. views g.deques.items };

    ghost invariant = { λ g. AllWhole (views g.deques.items) };
}

/// Takes one box of those that are left, from the last deque that has one. Deques that are empty are dropped on the way.
fn drain(deques: &mut Vec<Boxes>) -> Option<PlanBox>
    requires { AllWhole (views deques.old.items) }
    ensures whole { AllWhole (views deques.new.items) }
    ensures left { MatchOption result (IsLeft (views deques.old.items) [])
        (λ x. Drains x (views deques.old.items) (views deques.new.items)) }
{
    while let Some(last) = deques.pop() {
        let mut last = last;
        match pop(&mut last) {
            Some(bx) => {
                deques.push_reserved(last);
                return Some(bx);
            }
            None => {}
        }
    }
    None
}

impl Gathered {
    ghost use Rattle.std.specs.Prelude.{MatchOption, []};
    ghost use Rattle.box_ring.specs.Gathers.{IsLeft, Drains};

    /// Takes one box of those that are left, which has the ring's frame. None exactly where none is left. Takes no memory.
    pub fn drain_one(&mut self) -> Option<PlanBox>
        ensures { MatchOption result (IsLeft self.old []) (λ x. Drains x self.old self.new) }
    {
        drain(&mut self.deques)
    }
}
