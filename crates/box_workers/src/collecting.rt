//! What several workers did is put together.
ghost use Rattle.std.specs.Prelude.{◌≡◌, ℕ, ◌≤◌, ◌++◌, [], All, List, IfOk, OnOk, reverse, Some};
ghost use Rattle.glass_base.specs.Problem.{Problem};
ghost use Rattle.shared_best.specs.Seats.{IsSeatOf};
ghost use Rattle.shared_best.specs.Words.{joined};
ghost use Rattle.box_workers.specs.declared.member.Member.{Member as MemberOf};
ghost use Rattle.box_workers.specs.declared.working.Rest.{Rest as RestOf};
ghost use Rattle.box_workers.specs.inner.Members.{IsNew, EachDone, arms_of};
ghost use Rattle.box_workers.specs.inner.Teamwork.{IsTeamwork, Joins, Collects};

use crate::hand::Hand;
use crate::member::Member;
use box_ring::Arm;
use cert_log::{Left, Note};
use glass_base::{Memory, Run, append};
use shared_best::{Seat, SharedBest};
use std::alloc::Global;
use std::mem;

/// Puts boxes that were left open to others, the last one first.
fn move_left(from: &mut Run<Left>, to: &mut Run<Left>) -> Result<(), Memory>
    ensures { OnOk result (to.new.items ≡ to.old.items ++ reverse from.old.items) }
{
    while let Some(left) = from.pop() {
        append(to, left)?;
    }
    Ok(())
}

/// Puts notes behind others. Where there are no others, they stay in their memory.
fn join_log(from: &mut Run<Note>, to: &mut Run<Note>) -> Result<(), Memory>
    ensures { OnOk result (to.new.items ≡ to.old.items ++ from.old.items) }
{
    if to.is_empty() {
        mem::swap(from, to);
        return Ok(());
    }
    to.extend_from_slice(from.as_slice())?;
    Ok(())
}

/// Moves what one hand holds to what another holds. That one's plan stays where the other is not better.
fn move_hand(other: &mut Hand, hand: &mut Hand) -> Result<(), Memory>
    ensures { OnOk result (Joins other.old hand.old hand.new) }
{
    join_log(&mut other.log, &mut hand.log)?;
    move_left(&mut other.left, &mut hand.left)?;
    if other.loss < hand.loss {
        hand.plan = other.plan.take();
        hand.loss = other.loss;
    }
    Ok(())
}

/// Puts what one hand holds to what another holds. That one's plan stays where the other is not better.
fn join_hand(other: Hand, hand: &mut Hand) -> Result<(), Memory>
    ensures { OnOk result (Joins other hand.old hand.new) }
{
    let mut other = other;
    move_hand(&mut other, hand)
}

/// Puts what one worker did into this seat and this hand. Its arm comes back. A worker that found no memory is refused.
fn join_member(
    shared: &SharedBest,
    seat: &mut Seat,
    hand: &mut Hand,
    member: Member,
) -> Result<Arm, Memory>
    requires seats { IsSeatOf shared.now seat.old × IsSeatOf shared.now member.seat }
    ensures arm { IfOk result (λ a. a ≡ member.arm) }
    ensures rest { OnOk result ((rest : RestOf) × (member.rest ≡ Some rest)) }
    ensures seat { OnOk result (IsSeatOf shared.now seat.new) }
    ensures view { OnOk result (seat.new.view ≡ joined seat.old.view member.seat.view) }
    ensures joins { OnOk result (Joins member.hand hand.old hand.new) }
{
    let Member {
        seat: own,
        hand: other,
        arm,
        rest,
        apart: _,
    } = member;
    if rest.is_none() {
        return Err(Memory);
    }
    shared.join_seat(seat, own);
    join_hand(other, hand)?;
    Ok(arm)
}

/// Puts what all workers did into this seat and this hand, which hold nothing yet. Their arms come back, the last worker's first.
pub(crate) fn collect(
    alloc: Global,
    shared: &SharedBest,
    seat: &mut Seat,
    hand: &mut Hand,
    members: Vec<Member>,
) -> Result<Run<Arm>, Memory>
    requires seat { IsSeatOf shared.now seat.old }
    requires seats { All (λ (m : MemberOf). IsSeatOf shared.now m.seat) members.items }
    ensures seat { OnOk result (IsSeatOf shared.now seat.new) }
    ensures allowance { OnOk result (seat.old.view.allowance ≤ seat.new.view.allowance) }
    ensures hand { OnOk result ((hand.new.worker ≡ hand.old.worker)
        × (hand.new.scratch ≡ hand.old.scratch) × (hand.new.leasts ≡ hand.old.leasts)) }
    ensures arms { IfOk result (λ arms. arms.items ≡ reverse (arms_of members.items)) }
    ensures collects { OnOk result ((b : Problem) (starts : ℕ) (olds : List MemberOf)
        → EachDone b shared.now starts olds members.items → All (IsNew b) olds
        → IsTeamwork b shared.now seat.old.view hand.old [] []
        → Collects b shared.now starts olds members.items seat.old seat.new hand.new) }
{
    let mut arms = Run::new(alloc);
    let mut members = members;
    while let Some(member) = members.pop() {
        let arm = join_member(shared, seat, hand, member)?;
        append(&mut arms, arm)?;
    }
    Ok(arms)
}
