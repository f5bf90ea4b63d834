//! The end of a search: the boxes that then wait are left open, and what was done becomes its history.
ghost use Rattle.std.specs.Prelude.{◌≡◌, ℕ, ◌+◌, ◌≤◌, All, min, sum_by, OnOk, IfOk};
ghost use Rattle.plan_box.specs.Frames.{frame_of};
ghost use Rattle.plan_box.specs.Ranges.{PlainBox};
ghost use Rattle.box_bound.specs.Leastings.{IsOf};
ghost use Rattle.cert_log.specs.declared.history.Left.{Left as LeftBox};
ghost use Rattle.cert_log.specs.Lawful.{IsBest, no_loss};
ghost use Rattle.shared_best.specs.Seats.{IsSeatOf};
ghost use Rattle.shared_best.specs.Words.{none_known, IsWhole, Settles};
ghost use Rattle.box_workers.specs.Runs.{IsFirst, first_loss};
ghost use Rattle.box_workers.specs.inner.Teamwork.{HaveBounds};
ghost use Rattle.box_workers.specs.inner.Searched.{Finishes};

use crate::desk::Desk;
use crate::gate::Gate;
use crate::hand::Hand;
use box_bound::{Leasts, bound_at};
use cert_log::{History, Left, trace_loss};
use cut_model::Trace;
use glass_base::{Instance, Memory, Run, append};
use plan_box::PlanBox;
use shared_best::{Seat, SharedBest};
use std::mem;

/// Changes nothing. A seat that was split and joined again shows what a whole seat knows.
pub(crate) fn settle(shared: &SharedBest, seat: &mut Seat)
    requires seat { IsSeatOf shared.now seat.old }
    requires small { seat.old.view.announced ≤ none_known }
    ensures same { seat.new ≡ seat.old }
    ensures whole { IsWhole seat.new.view → Settles seat.new.view }
{
    let other = shared.split_seat(seat);
    shared.join_seat(seat, other);
}

/// Puts the boxes that wait to those that were left open, each with its bound, until none waits.
fn leave(
    instance: &Instance,
    leasts: &mut Leasts,
    left: &mut Run<Left>,
    waiting: &mut Run<PlanBox>,
) -> Result<(), Memory>
    requires leasts { IsOf instance.now leasts.old }
    requires bounds { HaveBounds instance.now left.old.items }
    requires frames { All (λ (x : PlainBox). x.frame ≡ frame_of instance.now) waiting.old.items }
    ensures weighs { OnOk result ((weight : PlainBox → ℕ)
        → sum_by (λ (l : LeftBox). weight l.bx) left.new.items
        ≡ sum_by (λ (l : LeftBox). weight l.bx) left.old.items + sum_by weight waiting.old.items) }
    ensures bounds { OnOk result (HaveBounds instance.now left.new.items) }
{
    while let Some(bx) = waiting.pop() {
        leasts.fill(instance, &bx);
        let bound = bound_at(instance, leasts, &bx);
        append(left, Left { bx, bound })?;
    }
    Ok(())
}

/// Puts the boxes that wait to those that the hand left open, each with its bound.
fn leave_all(instance: &Instance, hand: &mut Hand, waiting: Run<PlanBox>) -> Result<(), Memory>
    requires leasts { IsOf instance.now hand.old.leasts }
    requires bounds { HaveBounds instance.now hand.old.left.items }
    requires frames { All (λ (x : PlainBox). x.frame ≡ frame_of instance.now) waiting.items }
    ensures weighs { OnOk result ((weight : PlainBox → ℕ)
        → sum_by (λ (l : LeftBox). weight l.bx) hand.new.left.items
        ≡ sum_by (λ (l : LeftBox). weight l.bx) hand.old.left.items + sum_by weight waiting.items) }
    ensures bounds { OnOk result (HaveBounds instance.now hand.new.left.items) }
    ensures same { (hand.new.log ≡ hand.old.log) × (hand.new.plan ≡ hand.old.plan)
        × (hand.new.loss ≡ hand.old.loss) }
{
    let mut waiting = waiting;
    leave(instance, &mut hand.leasts, &mut hand.left, &mut waiting)
}

/// The better of the plan that was found and the first trace, with its loss.
fn better(
    instance: &Instance,
    plan: Option<Trace>,
    loss: u64,
    first: Option<Trace>,
) -> (Option<Trace>, u64)
    requires best { IsBest instance.now loss plan }
    requires first { IsFirst instance.now first }
    ensures best { IsBest instance.now result.1 result.0 }
    ensures least { result.1 ≡ min (first_loss instance.now first) loss }
    ensures small { first_loss instance.now first ≤ no_loss }
{
    match first {
        None => (plan, loss),
        Some(trace) => {
            let first = trace_loss(instance, &trace);
            if loss < first {
                (plan, loss)
            } else {
                (Some(trace), first)
            }
        }
    }
}

/// The history of a search at this desk, with this first trace. The rest of it is moved out of a hand.
fn history_of<G: Gate>(desk: &Desk<'_, G>, hand: &mut Hand, first: Option<Trace>) -> History
    requires best { IsBest desk.now.ground.instance.now hand.old.loss hand.old.plan }
    requires first { IsFirst desk.now.ground.instance.now first }
    ensures starts { result.starts ≡ desk.now.starts }
    ensures floor { result.floor ≡ desk.now.shared.now.floor }
    ensures log { result.log ≡ hand.old.log }
    ensures left { result.left ≡ hand.old.left }
    ensures plan { IsBest desk.now.ground.instance.now result.best result.plan }
    ensures best { result.best ≡ min (first_loss desk.now.ground.instance.now first) hand.old.loss }
    ensures small { first_loss desk.now.ground.instance.now first ≤ no_loss }
{
    let (plan, best) = better(desk.ground.instance, hand.plan.take(), hand.loss, first);
    History {
        starts: desk.starts,
        log: mem::replace(&mut hand.log, Run::new(desk.alloc)),
        left: mem::replace(&mut hand.left, Run::new(desk.alloc)),
        plan,
        best,
        floor: desk.shared.floor(),
    }
}

/// The history of a search at this desk, with this first trace, once this hand holds what was done, and these boxes wait. Then the hand
/// holds neither notes nor a plan.
fn finish_with<G: Gate>(
    desk: &Desk<'_, G>,
    hand: &mut Hand,
    waiting: Run<PlanBox>,
    first: Option<Trace>,
) -> Result<History, Memory>
    requires leasts { IsOf desk.now.ground.instance.now hand.old.leasts }
    requires bounds { HaveBounds desk.now.ground.instance.now hand.old.left.items }
    requires frames { All (λ (x : PlainBox). x.frame
        ≡ frame_of desk.now.ground.instance.now) waiting.items }
    requires best { IsBest desk.now.ground.instance.now hand.old.loss hand.old.plan }
    requires first { IsFirst desk.now.ground.instance.now first }
    ensures { IfOk result (λ h. Finishes desk.now.ground.instance.now desk.now.starts
        desk.now.shared.now.floor hand.old waiting.items first h) }
{
    leave_all(desk.ground.instance, hand, waiting)?;
    Ok(history_of(desk, hand, first))
}

/// The history of a search at this desk, with this first trace, once this hand holds what was done, and these boxes wait.
pub(crate) fn finish<G: Gate>(
    desk: &Desk<'_, G>,
    hand: Hand,
    waiting: Run<PlanBox>,
    first: Option<Trace>,
) -> Result<History, Memory>
    requires leasts { IsOf desk.now.ground.instance.now hand.leasts }
    requires bounds { HaveBounds desk.now.ground.instance.now hand.left.items }
    requires frames { All (λ (x : PlainBox). x.frame
        ≡ frame_of desk.now.ground.instance.now) waiting.items }
    requires best { IsBest desk.now.ground.instance.now hand.loss hand.plan }
    requires first { IsFirst desk.now.ground.instance.now first }
    ensures { IfOk result (λ h. Finishes desk.now.ground.instance.now desk.now.starts
        desk.now.shared.now.floor hand waiting.items first h) }
{
    let mut hand = hand;
    finish_with(desk, &mut hand, waiting, first)
}
