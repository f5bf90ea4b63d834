//! One deque of boxes: its owner pushes and pops at the back, and one thief takes at the front.
ghost use Rattle.std.specs.Prelude.{◌≡◌, ◌<◌, [], ◌∷◌, MatchOption, MatchBool, MatchResult, true, IfOk};
ghost use Rattle.crossbeam_deque.specs.Handles.{view, IsPassOf, SamePass, SameWorker, worker_deque, stealer_deque, worker_view};
ghost use Rattle.plan_box.specs.Frames.{IsFrame};
ghost use Rattle.box_ring.specs.Tallies.{Balanced, FoundFew, HeldMany, HasRest, all_parts, no_tally, putting};
ghost use Rattle.box_ring.specs.inner.Rule.{PutThen, TakeThen, SeedThen, UnseedThen, TotalFact, NumberFact, owner_tally, thief_tally, both_tallies, blank_tally, ready_tally};

use crate::tally::Tally;
use crossbeam_deque::protocol::{Join, Lesson, Outcome, Protocol, Split};
use crossbeam_deque::{Pass, Steal, Stealer, Worker};
use plan_box::{Frame, PlanBox};
use std::alloc::{AllocError, Global};
use std::sync::Wait;

/// How many boxes a deque has memory for at first.
const FIRST_SLOTS: usize = 16;

/// The rule of a deque: what was put in is what was taken out and what it holds.
pub struct Counted;

impl Protocol<PlanBox, Tally> for Counted {
    ghost holds = { Balanced };

    ghost first = { blank_tally };

    ghost guest = { no_tally };
}

/// A box is put in.
struct Puts;

impl Outcome<PlanBox, Tally> for Puts {
    ghost then = { PutThen };
}

/// The last box is taken.
struct Pops;

impl Outcome<PlanBox, Tally> for Pops {
    ghost then = { TakeThen };

    ghost empty = { FoundFew 0 };
}

/// The first box is taken.
struct Steals;

impl Outcome<PlanBox, Tally> for Steals {
    ghost then = { TakeThen };

    ghost empty = { FoundFew 1 };
}

/// A pass is split in two, or two are joined.
struct Halves;

impl Split<Tally> for Halves {
    ghost left = { owner_tally };

    ghost right = { thief_tally };
}

impl Join<Tally> for Halves {
    ghost both = { both_tallies };

    ghost spent = { no_tally };
}

/// A first box is put in, which tells the frame.
struct Seeds;

impl Outcome<PlanBox, Tally> for Seeds {
    ghost then = { SeedThen };
}

/// The first box is taken back, and counts no more.
struct Unseeds;

impl Outcome<PlanBox, Tally> for Unseeds {
    ghost then = { UnseedThen };

    ghost empty = { FoundFew 0 };
}

/// What the number of boxes tells one who has both parts of the pass.
struct Total;

impl Lesson<PlanBox, Tally> for Total {
    ghost fact = { TotalFact };
}

/// What the number of boxes tells.
struct Number;

impl Lesson<PlanBox, Tally> for Number {
    ghost fact = { NumberFact };
}

/// The owner's end of a deque, with its part of the pass.
pub(crate) type Boxes = Worker<PlanBox, Global, Tally, Counted>;

/// The thief's end of a deque.
pub(crate) type Thief = Stealer<PlanBox, Global, Tally, Counted>;

/// The thief's part of the pass.
pub(crate) type PassPart = Pass<PlanBox, Tally, Global>;

/// An empty deque for boxes of this frame, with both parts of its pass. A first box tells the rule the frame, and is taken back.
pub(crate) fn open(alloc: Global, frame: Frame) -> Result<Boxes, AllocError>
    requires { IsFrame frame }
    ensures { IfOk result (λ deque. worker_view deque ≡ ready_tally frame) }
{
    let mut deque = Boxes::lifo_as(alloc, FIRST_SLOTS)?;
    let seed = PlanBox::of_frame(alloc, frame, 0);
    let Ok(()) = deque.push_as::<Seeds>(seed) else {
        return Err(AllocError);
    };
    let Some(_) = deque.pop_as::<Unseeds>() else {
        unreachable!()
    };
    Ok(deque)
}

/// Puts a box at the back, or gives it back where the deque finds no memory.
pub(crate) fn push(deque: &mut Boxes, bx: PlanBox) -> Result<(), PlanBox>
    requires part { (0 < (worker_view deque.old).parts) × ((worker_view deque.old).framed ≡ true) }
    requires frame { bx.frame ≡ (worker_view deque.old).frame }
    ensures same { SameWorker deque.old deque.new }
    ensures rule { MatchResult result (λ _. worker_view deque.new
        ≡ putting (worker_view deque.old) (bx ∷ [])) (λ x. (x ≡ bx)
        × (worker_view deque.new ≡ worker_view deque.old)) }
{
    deque.push_as::<Puts>(bx)
}

/// Takes the last box.
pub(crate) fn pop(deque: &mut Boxes) -> Option<PlanBox>
    requires { 0 < (worker_view deque.old).parts }
    ensures same { SameWorker deque.old deque.new }
    ensures rule { MatchOption result ((worker_view deque.new ≡ worker_view deque.old)
        × FoundFew 0 (worker_view deque.old))
        (λ x. TakeThen (worker_view deque.old) (x ∷ []) (worker_view deque.new)) }
{
    deque.pop_as::<Pops>()
}

/// Whether the deque holds no box.
pub(crate) fn is_empty(deque: &mut Boxes) -> bool
    ensures same { SameWorker deque.old deque.new }
    ensures view { worker_view deque.new ≡ worker_view deque.old }
    ensures found { MatchBool result (FoundFew 0 (worker_view deque.old))
        (HeldMany 1 (worker_view deque.old)) }
{
    deque.len_as::<Number>() == 0
}

/// Takes the first box. Asks again while another thread was faster.
pub(crate) fn steal<R: Wait>(rt: &R, thief: &Thief, pass: &mut PassPart) -> Option<PlanBox>
    requires { IsPassOf (stealer_deque thief.now) pass.old × (0 < (view pass.old).parts) }
    ensures same { SamePass pass.old pass.new }
    ensures rule { MatchOption result ((view pass.new ≡ view pass.old)
        × FoundFew 1 (view pass.old)) (λ x. TakeThen (view pass.old) (x ∷ []) (view pass.new)) }
{
    for _ in rt.forever() {
        match thief.steal_as::<Steals>(pass) {
            Steal::Success(bx) => return Some(bx),
            Steal::Empty => return None,
            Steal::Retry => {}
        }
    }
    unreachable!()
}

/// Splits a part off the pass.
pub(crate) fn split(deque: &mut Boxes) -> PassPart
    requires { (worker_view deque.old).parts ≡ all_parts }
    ensures same { SameWorker deque.old deque.new × IsPassOf (worker_deque deque.old) result }
    ensures rule { (worker_view deque.new ≡ owner_tally (worker_view deque.old))
        × (view result ≡ thief_tally (worker_view deque.old)) }
{
    deque.another::<Halves>()
}

/// Joins a part of the pass into the owner's.
pub(crate) fn join(deque: &mut Boxes, pass: PassPart)
    requires { IsPassOf (worker_deque deque.old) pass × (0 < (worker_view deque.old).parts) }
    ensures same { SameWorker deque.old deque.new }
    ensures rule { worker_view deque.new ≡ both_tallies (worker_view deque.old) (view pass) }
{
    deque.absorb::<Halves>(pass);
}

/// Changes nothing. The join itself tells nothing of the boxes; this look at their number shows that what was put and not taken is
/// some boxes.
pub(crate) fn settle(deque: &mut Boxes)
    requires { (worker_view deque.old).parts ≡ all_parts }
    ensures same { SameWorker deque.old deque.new }
    ensures view { worker_view deque.new ≡ worker_view deque.old }
    ensures rest { HasRest (worker_view deque.new) }
{
    deque.len_as::<Total>();
}
