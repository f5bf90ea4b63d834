//! One worker's part of the ring.
ghost use Rattle.std.specs.Prelude.{◌≡◌, ◌<◌, true};
ghost use Rattle.crossbeam_deque.specs.Handles.{worker_view};
ghost use Rattle.box_ring.specs.Neighbours.{IsAlike};

use crate::deque::{Boxes, is_empty, pop, push};
use crate::neighbour::Neighbour;
use http_server::Log;
use plan_box::PlanBox;
use std::marker::Model;
use std::sync::Wait;

/// A worker's own deque, and the way to the next worker's. Contracts see it as an `ArmState`: which deques these are, what the arm
/// has put into them and taken from them, and how often it missed.
///
/// The boxes in the deque of an arm that is dropped are lost, and its ring can be gathered no more.
#[derive(Drop)]
pub struct Arm {
    own: Boxes,
    /// None where there is one worker.
    other: Option<Neighbour>,
    misses: u64,
    /// Whether the last call was a pop that gave None.
    missed: bool,
    /// The boxes that were pushed and popped at once. It takes no memory: contracts alone read it.
    passed: Log<PlanBox, ()>,
    ghost part: { 0 < (worker_view own).parts },
    ghost framed: { (worker_view own).framed ≡ true },
    ghost alike: { IsAlike (worker_view own).frame other },
}

impl Model for Arm {
    ghost use Rattle.std.specs.Prelude.{map};
    ghost use Rattle.crossbeam_deque.specs.Handles.{worker_deque, worker_view};
    ghost use Rattle.box_ring.specs.Arms.{ArmState};
    ghost use Rattle.box_ring.specs.Neighbours.{deque_of, tally_of};

    ghost Value = { ArmState };

    ghost view = { λ a. record { deque = worker_deque a.own; own = worker_view a.own; next = deque_of a.other; other = tally_of a.other; misses = a.misses; missed = a.missed; passed = map (λ p. p.0) a.passed.items } };
}

impl Arm {
    ghost use Rattle.std.specs.Prelude.{◌≡◌, ◌<◌, true, MatchOption, OnOk, IfErr, IfSome, IfNone, MatchBool, ⊤};
    ghost use Rattle.crossbeam_deque.specs.Handles.{worker_deque, worker_view};
    ghost use Rattle.box_ring.specs.Tallies.{FoundFew, HeldMany, IsWhole, HasRest};
    ghost use Rattle.box_ring.specs.Arms.{new_arm, frame, after_push, after_push_pop, after_refusal, after_pop, after_no_pop, after_steal, after_no_steal, Stays};
    ghost use Rattle.box_ring.specs.Neighbours.{IsAlike, deque_of, tally_of};

    /// A new arm over its own deque and the way to the next one.
    pub(crate) fn new(own: Boxes, other: Option<Neighbour>) -> Arm
        requires part { (0 < (worker_view own).parts) × ((worker_view own).framed ≡ true) }
        requires alike { IsAlike (worker_view own).frame other }
        ensures { result ≡ new_arm (worker_deque own) (worker_view own) (deque_of other)
            (tally_of other) }
    {
        Arm {
            own,
            other,
            misses: 0,
            missed: false,
            passed: Log::new(),
        }
    }

    /// Puts a box at the back of the arm's own deque. The box must have the ring's frame. It comes back where the deque finds no memory,
    /// and that is the only refusal; limits of the deque itself, of 2^39 boxes at a time and 2^62 in all, count as that.
    pub fn push(&mut self, bx: PlanBox) -> Result<(), PlanBox>
        requires { bx.frame ≡ frame self.old }
        ensures ok { OnOk result (self.new ≡ after_push self.old bx) }
        ensures err { IfErr result (λ x. (x ≡ bx) × (self.new ≡ after_refusal self.old)) }
        ensures stays { Stays self.old self.new }
    {
        self.missed = false;
        push(&mut self.own, bx)
    }

    /// Pushes a box and pops it at once, as a call of its own. No other worker could tell whether the box was in the deque in between; so
    /// the deque is left alone, and no memory is taken. The box must have the ring's frame.
    pub fn push_pop(&mut self, bx: PlanBox) -> PlanBox
        requires { bx.frame ≡ frame self.old }
        ensures same { result ≡ bx }
        ensures arm { self.new ≡ after_push_pop self.old bx }
        ensures stays { Stays self.old self.new }
    {
        self.misses = 0;
        self.missed = false;
        self.passed = self.passed.and(&bx, &());
        bx
    }

    /// Takes the last box of the arm's own deque, which has the ring's frame. None only where that deque held no box at a step of this
    /// call. Takes no memory.
    pub fn pop(&mut self) -> Option<PlanBox>
        ensures some { IfSome result (λ x. self.new ≡ after_pop self.old x) }
        ensures frame { IfSome result (λ x. x.frame ≡ frame self.old) }
        ensures rest { IfSome result (λ _. IsWhole self.old.own → HasRest self.new.own) }
        ensures none { IfNone result ((self.new ≡ after_no_pop self.old)
            × FoundFew 0 self.old.own) }
        ensures stays { Stays self.old self.new }
    {
        match pop(&mut self.own) {
            Some(bx) => {
                self.misses = 0;
                self.missed = false;
                Some(bx)
            }
            None => {
                self.missed = true;
                None
            }
        }
    }

    /// Whether the arm's own deque held no box at a step of this call; else it held one at that step.
    pub fn is_empty(&mut self) -> bool
        ensures same { self.new ≡ self.old }
        ensures found { MatchBool result (FoundFew 0 self.old.own) (HeldMany 1 self.old.own) }
    {
        is_empty(&mut self.own)
    }

    /// Takes the first box of the next arm's deque, which has the ring's frame. None only where that deque held at most one box at a
    /// step of this call, or where there is one worker. Takes no memory. It may wait for another thread, which is at the same deque.
    pub fn steal<R: Wait>(&mut self, rt: &R) -> Option<PlanBox>
        ensures some { IfSome result (λ x. self.new ≡ after_steal self.old x) }
        ensures frame { IfSome result (λ x. x.frame ≡ frame self.old) }
        ensures none { IfNone result (self.new ≡ after_no_steal self.old) }
        ensures few { IfNone result (MatchOption self.old.next ⊤ (λ _. FoundFew 1 self.old.other)) }
        ensures stays { Stays self.old self.new }
    {
        let found = match &mut self.other {
            Some(neighbour) => neighbour.steal(rt),
            None => None,
        };
        if found.is_some() {
            self.misses = 0;
        } else if self.missed {
            self.misses = self.misses.saturating_add(1);
        }
        self.missed = false;
        found
    }

    /// How often since the last box a pop that gave None was followed at once by a steal that gave None. It stops at the greatest `u64`.
    pub fn misses(&self) -> u64
        ensures { result ≡ self.now.misses }
    {
        self.misses
    }

    /// The arm's own deque and the way to the next one.
    pub(crate) fn apart(self) -> (Boxes, Option<Neighbour>)
        ensures own { (worker_deque result.0 ≡ self.deque) × (worker_view result.0 ≡ self.own) }
        ensures other { (deque_of result.1 ≡ self.next) × (tally_of result.1 ≡ self.other) }
        ensures framed { (worker_view result.0).framed ≡ true }
    {
        let Arm {
            own,
            other,
            misses: _,
            missed: _,
            passed: _,
        } = self;
        (own, other)
    }
}
