//! All arms of a ring, made and put together.
ghost use Rattle.std.specs.Prelude.{◌≡◌, ◌≤◌, ◌<◌, true, MatchOption, IfOk, IfErr, length};
ghost use Rattle.crossbeam_deque.specs.Handles.{worker_deque, worker_view};
ghost use Rattle.plan_box.specs.Frames.{IsFrame};
ghost use Rattle.box_ring.specs.Tallies.{IsWhole, HasRest, AllWhole};
ghost use Rattle.box_ring.specs.Arms.{IsRing, AllOfFrame, AllFresh};
ghost use Rattle.box_ring.specs.Gathers.{Gathers};
ghost use Rattle.box_ring.specs.inner.Rule.{both_tallies};
ghost use Rattle.box_ring.specs.Neighbours.{deque_of, tally_of};
ghost use Rattle.box_ring.specs.inner.Deques.{views};
ghost use Rattle.box_ring.specs.inner.Rings.{Completes};

use crate::arm::Arm;
use crate::deque::{Boxes, open, settle};
use crate::gathered::Gathered;
use crate::neighbour::Neighbour;
use glass_base::{Memory, Run, append};
use plan_box::Frame;
use std::alloc::Global;

/// The arms of a ring for boxes of this frame, for 1 to 8 workers, each of whose deques is empty. Each arm steals from the next one,
/// and the last from the first. The frame must be one that an instance can have. Only want of memory is refused.
pub fn ring(alloc: Global, workers: u32, frame: Frame) -> Result<Run<Arm>, Memory>
    requires workers { (1 ≤ workers) × (workers ≤ 8) }
    requires frame { IsFrame frame }
    ensures ring { IfOk result (λ arms. IsRing arms.items) }
    ensures len { IfOk result (λ arms. length arms.items ≡ workers) }
    ensures frame { IfOk result (λ arms. AllOfFrame frame arms.items) }
    ensures fresh { IfOk result (λ arms. AllFresh arms.items) }
{
    let mut arms = Run::new(alloc);
    let mut own = open(alloc, frame)?;
    if workers == 1 {
        append(&mut arms, Arm::new(own, None))?;
        return Ok(arms);
    }
    let first = Neighbour::of(&mut own)?;
    for _ in 1..workers {
        let mut next = open(alloc, frame)?;
        let neighbour = Neighbour::of(&mut next)?;
        append(&mut arms, Arm::new(own, Some(neighbour)))?;
        own = next;
    }
    append(&mut arms, Arm::new(own, Some(first)))?;
    Ok(arms)
}

/// A deque with both parts of its pass: that of its owner, and the other one where it was split off.
fn joined(own: Boxes, other: Option<Neighbour>) -> Boxes
    requires { Completes (deque_of other) (worker_deque own) (worker_view own) }
    ensures parts { IsWhole (worker_view result) }
    ensures view { worker_view result ≡ both_tallies (worker_view own) (tally_of other) }
{
    match other {
        Some(neighbour) => {
            let mut deque = own;
            neighbour.give(&mut deque);
            deque
        }
        None => own,
    }
}

/// The same, once it is known that what was put and not taken is some boxes.
fn whole(own: Boxes, other: Option<Neighbour>) -> Boxes
    requires { Completes (deque_of other) (worker_deque own) (worker_view own) }
    ensures parts { IsWhole (worker_view result) }
    ensures view { worker_view result ≡ both_tallies (worker_view own) (tally_of other) }
    ensures rest { HasRest (worker_view result) }
{
    let mut deque = joined(own, other);
    settle(&mut deque);
    deque
}

/// The deques of a ring's arms, each with both parts of its pass. The arms are taken from the last one on, and each has the other part
/// for the deque of the arm taken before it; the last arm has that for the first one's deque.
fn collect(alloc: Global, arms: Run<Arm>) -> Result<Vec<Boxes>, (Run<Arm>, Memory)>
    requires { IsRing arms.items }
    ensures whole { IfOk result (λ deques. AllWhole (views deques.items)) }
    ensures gathers { IfOk result (λ deques. Gathers arms.items (views deques.items)) }
    ensures err { IfErr result (λ refused. refused.0.items ≡ arms.items) }
{
    let mut deques = Vec::new(alloc);
    if deques.reserve(arms.len()).is_err() {
        return Err((arms, Memory));
    }
    let mut arms = arms;
    let Some(last) = arms.pop() else {
        unreachable!()
    };
    let (mut current, first_other) = last.apart();
    while let Some(arm) = arms.pop() {
        let (own, other) = arm.apart();
        deques.push_reserved(whole(current, other));
        current = own;
    }
    deques.push_reserved(whole(current, first_other));
    Ok(deques)
}

/// Puts the arms of a ring together, all of them, in the order in which `ring` gave them. What was pushed is then what was taken and
/// what is left. Only want of memory is refused: the arms come back as they were.
pub fn gather(alloc: Global, arms: Run<Arm>) -> Result<Gathered, (Run<Arm>, Memory)>
    requires { IsRing arms.items }
    ensures ok { IfOk result (λ gathered. Gathers arms.items gathered) }
    ensures err { IfErr result (λ refused. refused.0.items ≡ arms.items) }
{
    match collect(alloc, arms) {
        Ok(deques) => Ok(Gathered { deques }),
        Err(refused) => Err(refused),
    }
}
