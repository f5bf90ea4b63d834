//! The deque that an arm steals from.
ghost use Rattle.std.specs.Prelude.{◌≡◌, ◌<◌, true, MatchOption, ◌∷◌, [], IfOk};
ghost use Rattle.box_ring.specs.Tallies.{FoundFew, all_parts};
ghost use Rattle.box_ring.specs.inner.Rule.{TakeThen, both_tallies, owner_tally, thief_tally};
ghost use Rattle.crossbeam_deque.specs.Handles.{view, IsPassOf, stealer_deque, worker_deque, worker_view, SameWorker};

use crate::deque::{Boxes, PassPart, Thief, join, split, steal};
use plan_box::PlanBox;
use std::alloc::AllocError;
use std::sync::Wait;

/// The way to another worker's deque, with a part of its pass.
#[derive(Drop)]
pub struct Neighbour {
    thief: Thief,
    pass: PassPart,
    ghost fits: { IsPassOf (stealer_deque thief) pass },
    ghost part: { (view pass).parts ≡ 1 },
    ghost framed: { (view pass).framed ≡ true },
}

impl Neighbour {
    /// The way to steal from this deque, which has not been split yet.
    pub(crate) fn of(deque: &mut Boxes) -> Result<Neighbour, AllocError>
        requires { ((worker_view deque.old).parts ≡ all_parts)
            × ((worker_view deque.old).framed ≡ true) }
        ensures same { SameWorker deque.old deque.new }
        ensures owner { IfOk result (λ _. worker_view deque.new
            ≡ owner_tally (worker_view deque.old)) }
        ensures thief { IfOk result (λ n. (view n.pass ≡ thief_tally (worker_view deque.old))
            × (stealer_deque n.thief ≡ worker_deque deque.old)) }
    {
        let thief = deque.stealer()?;
        let pass = split(deque);
        Ok(Neighbour { thief, pass })
    }

    /// Takes the first box of the deque.
    pub(crate) fn steal<R: Wait>(&mut self, rt: &R) -> Option<PlanBox>
        ensures thief { self.new.thief ≡ self.old.thief }
        ensures rule { MatchOption result ((view self.new.pass ≡ view self.old.pass)
            × FoundFew 1 (view self.old.pass))
            (λ x. TakeThen (view self.old.pass) (x ∷ []) (view self.new.pass)) }
    {
        steal(rt, &self.thief, &mut self.pass)
    }

    /// Gives the part of the pass back to its deque.
    pub(crate) fn give(self, deque: &mut Boxes)
        requires { (stealer_deque self.thief ≡ worker_deque deque.old)
            × (0 < (worker_view deque.old).parts) }
        ensures same { SameWorker deque.old deque.new }
        ensures rule { worker_view deque.new ≡ both_tallies (worker_view deque.old)
            (view self.pass) }
    {
        let Neighbour { thief: _, pass } = self;
        join(deque, pass);
    }
}
