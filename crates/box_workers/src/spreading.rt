//! The work is spread over several workers.
ghost use Rattle.std.specs.Prelude.{◌≡◌, ℕ, ◌+◌, ◌≤◌, [], All, List, length, reverse, sum_by, IfOk, OnOk};
ghost use Rattle.glass_base.specs.Problem.{Problem};
ghost use Rattle.std.specs.List.{range_with_len};
ghost use Rattle.plan_box.specs.declared.frame.Frame.{Frame as PlainFrame};
ghost use Rattle.plan_box.specs.Frames.{frame_of};
ghost use Rattle.plan_box.specs.Ranges.{PlainBox};
ghost use Rattle.box_bound.specs.Leastings.{IsOf};
ghost use Rattle.box_ring.specs.Arms.{IsRing, AllOfFrame, put, taken};
ghost use Rattle.shared_best.specs.Seats.{IsSeatOf};
ghost use Rattle.shared_best.specs.Words.{newcomer, share};
ghost use Rattle.box_workers.specs.declared.member.Member.{Member as MemberOf};
ghost use Rattle.box_workers.specs.inner.Dealing.{AreSetUp};
ghost use Rattle.box_workers.specs.inner.Hands.{IsFresh};
ghost use Rattle.box_workers.specs.inner.Members.{IsNew, IsUnused, EachDone, arms_of, numbers_of, share_of};
ghost use Rattle.box_workers.specs.inner.Teamwork.{IsTeamwork, Collects, HasBegun};

use crate::collecting::collect;
use crate::dealing::deal;
use crate::desk::Desk;
use crate::draining::drain_all;
use crate::enlisting::enlist;
use crate::gate::Gate;
use crate::hand::Hand;
use crate::member::Member;
use crate::poster::Poster;
use crate::teaming::work_all;
use crate::workers::Workers;
use box_ring::{gather, ring};
use glass_base::{Memory, Run};
use plan_box::{Frame, PlanBox};
use shared_best::{Seat, SharedBest};
use std::alloc::Global;
use std::sync::Wait;
use std::thread::Threads;

/// The workers, each with a seat that is split off the given one, once the start boxes are dealt out. The worker of the last arm stands
/// first.
fn set_up<G: Gate>(
    desk: &Desk<'_, G>,
    start: Run<PlanBox>,
    workers: u32,
    seat: &mut Seat,
) -> Result<Vec<Member>, Memory>
    requires workers { (1 ≤ workers) × (workers ≤ 8) }
    requires frames { All (λ (x : PlainBox). x.frame
        ≡ frame_of desk.now.ground.instance.now) start.items }
    requires seat { IsSeatOf desk.now.shared.now seat.old }
    requires newcomer { seat.old.view ≡ newcomer desk.now.shared.now.first }
    ensures seat { OnOk result (IsSeatOf desk.now.shared.now seat.new) }
    ensures unused { OnOk result (IsUnused seat.new.view) }
    ensures allowance { OnOk result (10000001 ≤ seat.new.view.allowance) }
    ensures share { IfOk result (λ ms. share seat.new.view + share_of ms.items
        ≡ share seat.old.view) }
    ensures numbers { IfOk result (λ ms. numbers_of ms.items ≡ reverse (range_with_len 0 workers)) }
    ensures set { IfOk result (λ ms. AreSetUp desk.now.ground.instance.now desk.now.shared.now
        start.items ms.items) }
{
    let instance = desk.ground.instance;
    let arms = ring(desk.alloc, workers, Frame::of(instance))?;
    let members = enlist(desk.alloc, instance, desk.shared, seat, arms)?;
    deal(members, start)
}

/// Puts what all workers did into this seat and this hand, which hold nothing yet. The boxes that are left come back.
fn wind_up(
    alloc: Global,
    shared: &SharedBest,
    seat: &mut Seat,
    hand: &mut Hand,
    members: Vec<Member>,
) -> Result<Run<PlanBox>, Memory>
    requires seat { IsSeatOf shared.now seat.old }
    requires seats { All (λ (m : MemberOf). IsSeatOf shared.now m.seat) members.items }
    requires ring { IsRing (reverse (arms_of members.items)) }
    ensures seat { OnOk result (IsSeatOf shared.now seat.new) }
    ensures allowance { OnOk result (seat.old.view.allowance ≤ seat.new.view.allowance) }
    ensures hand { OnOk result ((hand.new.worker ≡ hand.old.worker)
        × (hand.new.scratch ≡ hand.old.scratch) × (hand.new.leasts ≡ hand.old.leasts)) }
    ensures collects { OnOk result ((b : Problem) (starts : ℕ) (olds : List MemberOf)
        → EachDone b shared.now starts olds members.items → All (IsNew b) olds
        → IsTeamwork b shared.now seat.old.view hand.old [] []
        → Collects b shared.now starts olds members.items seat.old seat.new hand.new) }
    ensures rest { IfOk result (λ boxes. (weight : PlainBox → ℕ)
        → sum_by (put weight) (arms_of members.items)
        ≡ sum_by (taken weight) (arms_of members.items) + sum_by weight boxes.items) }
    ensures frames { IfOk result (λ boxes. (f : PlainFrame)
        → AllOfFrame f (reverse (arms_of members.items))
        → All (λ (x : PlainBox). x.frame ≡ f) boxes.items) }
{
    let arms = collect(alloc, shared, seat, hand, members)?;
    let Ok(gathered) = gather(alloc, arms) else {
        return Err(Memory);
    };
    drain_all(alloc, gathered)
}

/// Several workers handle boxes, from the start boxes on, until each of them rests. What they did is put into this seat and this hand,
/// and the boxes that are left come back.
fn work_together<R: Threads + Wait + Sync, G: Gate + Sync, Q: Poster + Copy + Drop + Sync>(
    workers: &Workers<'_, R, Q>,
    desk: &Desk<'_, G>,
    start: Run<PlanBox>,
    seat: &mut Seat,
    hand: &mut Hand,
) -> Result<Run<PlanBox>, Memory>
    requires starts { desk.now.starts ≡ length start.items }
    requires frames { All (λ (x : PlainBox). x.frame
        ≡ frame_of desk.now.ground.instance.now) start.items }
    requires several { 2 ≤ workers.now.count }
    requires seat { IsSeatOf desk.now.shared.now seat.old }
    requires newcomer { seat.old.view ≡ newcomer desk.now.shared.now.first }
    requires hand { IsFresh desk.now.ground.instance.now hand.old × (hand.old.left.items ≡ []) }
    ensures seat { OnOk result (IsSeatOf desk.now.shared.now seat.new) }
    ensures hand { OnOk result ((hand.new.scratch ≡ hand.old.scratch)
        × (hand.new.leasts ≡ hand.old.leasts)) }
    ensures frames { IfOk result (λ boxes. All (λ (x : PlainBox). x.frame
        ≡ frame_of desk.now.ground.instance.now) boxes.items) }
    ensures begun { IfOk result (λ boxes. HasBegun desk.now.ground.instance.now desk.now.shared.now
        (length start.items) start.items workers.now.count seat.old seat.new hand.old hand.new
        boxes.items) }
{
    let members = set_up(desk, start, workers.count, seat)?;
    let members = work_all(workers.rt, desk, workers.poster, members);
    wind_up(desk.alloc, desk.shared, seat, hand, members)
}

/// The boxes that are left for the caller, who holds this seat and this hand: all start boxes, where there is to be no other worker; else
/// those that are left once several workers have handled boxes. What they did is then in the seat and the hand.
pub(crate) fn spread<R: Threads + Wait + Sync, G: Gate + Sync, Q: Poster + Copy + Drop + Sync>(
    workers: &Workers<'_, R, Q>,
    desk: &Desk<'_, G>,
    start: Run<PlanBox>,
    seat: &mut Seat,
    hand: &mut Hand,
) -> Result<Run<PlanBox>, Memory>
    requires starts { desk.now.starts ≡ length start.items }
    requires frames { All (λ (x : PlainBox). x.frame
        ≡ frame_of desk.now.ground.instance.now) start.items }
    requires seat { IsSeatOf desk.now.shared.now seat.old }
    requires newcomer { seat.old.view ≡ newcomer desk.now.shared.now.first }
    requires hand { IsFresh desk.now.ground.instance.now hand.old × (hand.old.left.items ≡ []) }
    ensures seat { OnOk result (IsSeatOf desk.now.shared.now seat.new) }
    ensures hand { OnOk result ((hand.new.scratch ≡ hand.old.scratch)
        × (hand.new.leasts ≡ hand.old.leasts)) }
    ensures frames { IfOk result (λ boxes. All (λ (x : PlainBox). x.frame
        ≡ frame_of desk.now.ground.instance.now) boxes.items) }
    ensures begun { IfOk result (λ boxes. HasBegun desk.now.ground.instance.now desk.now.shared.now
        (length start.items) start.items workers.now.count seat.old seat.new hand.old hand.new
        boxes.items) }
{
    if workers.count == 1 {
        // The box that waits last is handled first: so the start boxes are handled in their order.
        let mut waiting = start;
        waiting.reverse();
        return Ok(waiting);
    }
    work_together(workers, desk, start, seat, hand)
}
