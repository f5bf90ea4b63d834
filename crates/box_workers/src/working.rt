//! The work of one worker beside others.
ghost use Rattle.std.specs.Prelude.{◌≡◌, ℕ, ◌+◌, ◌-◌, ◌≤◌, ◌<◌, ◌++◌, ◌∷◌, [], All, drop, length, IfOk, OnErr, OnOk, IfSome, MatchBool, MatchOption, option_to_list};
ghost use Rattle.std.specs.VecDeque.{deque_len, deque_capacity};
ghost use Rattle.plan_box.specs.Frames.{frame_of};
ghost use Rattle.plan_box.specs.Ranges.{PlainBox};
ghost use Rattle.box_bound.specs.Leastings.{IsOf};
ghost use Rattle.box_ring.specs.Arms.{frame, Stays};
ghost use Rattle.shared_best.specs.Seats.{IsSeatOf};
ghost use Rattle.box_workers.specs.Works.{BrokeOff, Works};
ghost use Rattle.box_workers.specs.inner.Rounds.{BreaksOff, Leaves, Moves, Stops, Turns};

use crate::desk::Desk;
use crate::gate::Gate;
use crate::hand::Hand;
use crate::handling::Done;
use crate::poster::Poster;
use crate::turning::turn;
use box_bound::bound_at;
use box_ring::Arm;
use cert_log::Left;
use defect_map::{DefectMap, Ground};
use glass_base::limits::{MOST_BUDGET, MOST_CERT_BYTES};
use glass_base::{Instance, Memory};
use plan_box::PlanBox;
use shared_best::{Seat, SharedBest};
use std::alloc::Global;
use std::collections::VecDeque;
use std::sync::Wait;

/// After so many turns in a row without a box a worker rests.
const IDLE_TURNS: u64 = 100_000;

/// Why a worker rests.
#[derive(Clone, Copy, Debug, PartialEq, Eq)]
pub enum Rest {
    /// It found no box in 100,000 turns in a row.
    Idle,
    /// A ticket that it drew reached the budget.
    Spent,
}

/// Takes the box that came to those at hand last; else pops one of the arm's own deque, or else steals one of the next arm's.
fn find<R: Wait>(rt: &R, arm: &mut Arm, at_hand: &mut VecDeque<PlanBox>) -> Option<PlanBox>
    requires frames { All (λ (x : PlainBox). x.frame ≡ frame arm.old) at_hand.old.items }
    ensures stays { Stays arm.old arm.new }
    ensures moves { Moves at_hand.old.items at_hand.new.items
        (option_to_list result) arm.old arm.new }
    ensures frames { All (λ (x : PlainBox). x.frame ≡ frame arm.new) at_hand.new.items }
    ensures misses { arm.old.misses < 100000 → MatchOption result (arm.new.misses
        ≡ arm.old.misses + 1) (λ _. arm.new.misses ≡ 0) }
    ensures frame { IfSome result (λ x. x.frame ≡ frame arm.old) }
{
    if let Some(bx) = at_hand.pop_back() {
        return Some(arm.push_pop(bx));
    }
    if let Some(bx) = arm.pop() {
        return Some(bx);
    }
    arm.steal(rt)
}

/// Pushes the box that has been at hand longest, if there is one.
fn push_oldest(arm: &mut Arm, at_hand: &mut VecDeque<PlanBox>) -> Result<(), Memory>
    requires frames { All (λ (x : PlainBox). x.frame ≡ frame arm.old) at_hand.old.items }
    ensures stays { Stays arm.old arm.new }
    ensures moves { OnOk result (Moves at_hand.old.items at_hand.new.items [] arm.old arm.new) }
    ensures frames { All (λ (x : PlainBox). x.frame ≡ frame arm.new) at_hand.new.items }
    ensures len { deque_len at_hand.new ≡ deque_len at_hand.old - 1 }
    ensures oldest { at_hand.new.items ≡ drop 1 at_hand.old.items }
    ensures misses { arm.new.misses ≡ arm.old.misses }
{
    let Some(bx) = at_hand.pop_front() else {
        return Ok(());
    };
    match arm.push(bx) {
        Ok(()) => Ok(()),
        Err(_) => Err(Memory),
    }
}

/// Pushes a box where the deque holds none, so that there is one to steal.
fn offer(arm: &mut Arm, at_hand: &mut VecDeque<PlanBox>) -> Result<(), Memory>
    requires frames { All (λ (x : PlainBox). x.frame ≡ frame arm.old) at_hand.old.items }
    ensures stays { Stays arm.old arm.new }
    ensures moves { OnOk result (Moves at_hand.old.items at_hand.new.items [] arm.old arm.new) }
    ensures frames { All (λ (x : PlainBox). x.frame ≡ frame arm.new) at_hand.new.items }
{
    if at_hand.is_empty() || !arm.is_empty() {
        return Ok(());
    }
    push_oldest(arm, at_hand)
}

/// Pushes all boxes that are at hand.
fn push_all(arm: &mut Arm, at_hand: VecDeque<PlanBox>) -> Result<(), Memory>
    requires frames { All (λ (x : PlainBox). x.frame ≡ frame arm.old) at_hand.items }
    ensures stays { Stays arm.old arm.new }
    ensures moves { OnOk result (Moves at_hand.items [] [] arm.old arm.new) }
    ensures misses { arm.new.misses ≡ arm.old.misses }
{
    let mut at_hand = at_hand;
    while !at_hand.is_empty() {
        push_oldest(arm, &mut at_hand)?;
    }
    Ok(())
}

/// Puts the halves of a box to the boxes at hand. The box that came last is handled first: so the lower half before the upper one.
fn put_halves(at_hand: &mut VecDeque<PlanBox>, lower: PlanBox, upper: PlanBox)
    requires { deque_len at_hand.old + 2 ≤ deque_capacity at_hand.old }
    ensures { at_hand.new.items ≡ at_hand.old.items ++ upper ∷ lower ∷ [] }
{
    at_hand.push_back_reserved(upper);
    at_hand.push_back_reserved(lower);
}

/// Leaves a box open, with its bound.
fn leave_open(instance: &Instance, hand: &mut Hand, bx: PlanBox)
    requires frame { bx.frame ≡ frame_of instance.now }
    requires leasts { IsOf instance.now hand.old.leasts }
    requires room { 1 ≤ hand.old.left.spare }
    ensures leaves { Leaves instance.now bx hand.old hand.new }
    ensures leasts { IsOf instance.now hand.new.leasts }
    ensures scratch { hand.new.scratch ≡ hand.old.scratch }
{
    hand.leasts.fill(instance, &bx);
    let bound = bound_at(instance, &hand.leasts, &bx);
    hand.left.put(Left { bx, bound });
}

/// Handles a box, and puts its halves to the boxes at hand. Where the budget is spent the box is left open; that is told by `false`.
fn handle_at_hand<G: Gate, Q: Poster>(
    desk: &Desk<'_, G>,
    seat: &mut Seat,
    hand: &mut Hand,
    at_hand: &mut VecDeque<PlanBox>,
    bx: PlanBox,
    poster: &mut Q,
) -> Result<bool, Memory>
    requires frame { bx.frame ≡ frame_of desk.now.ground.instance.now }
    requires frames { All (λ (x : PlainBox). x.frame
        ≡ frame_of desk.now.ground.instance.now) at_hand.old.items }
    requires leasts { IsOf desk.now.ground.instance.now hand.old.leasts }
    requires scratch { length hand.old.scratch.steps.items
        ≡ length desk.now.ground.instance.now.items }
    requires room { 1 ≤ hand.old.left.spare }
    requires seat { IsSeatOf desk.now.shared.now seat.old }
    requires allowance { 1 ≤ seat.old.view.allowance }
    ensures seat { IsSeatOf desk.now.shared.now seat.new }
    ensures scratch { length hand.new.scratch.steps.items
        ≡ length desk.now.ground.instance.now.items }
    ensures leasts { IsOf desk.now.ground.instance.now hand.new.leasts }
    ensures frames { OnOk result (All (λ (x : PlainBox). x.frame
        ≡ frame_of desk.now.ground.instance.now) at_hand.new.items) }
    ensures turns { let b = desk.now.ground.instance.now in
        IfOk result (λ more. MatchBool more
        (Turns b desk.now.shared.now desk.now.starts bx seat.old seat.new hand.old hand.new
        at_hand.old.items at_hand.new.items)
        (Stops b desk.now.shared.now bx seat.old seat.new hand.old hand.new
        × (at_hand.new.items ≡ at_hand.old.items))) }
    ensures lost { OnErr result (BreaksOff desk.now.ground.instance.now desk.now.shared.now bx
        seat.old seat.new hand.old hand.new) }
{
    at_hand.reserve(2)?;
    match turn(desk, seat, hand, bx, poster)? {
        Done::Closed => Ok(true),
        Done::Split(lower, upper) => {
            put_halves(at_hand, lower, upper);
            Ok(true)
        }
        Done::Spent(bx) => {
            leave_open(desk.ground.instance, hand, bx);
            Ok(false)
        }
    }
}

/// `work`, at the desk that all workers share.
pub(crate) fn work_at<R: Wait, G: Gate, Q: Poster>(
    rt: &R,
    desk: &Desk<'_, G>,
    seat: &mut Seat,
    hand: &mut Hand,
    arm: &mut Arm,
    poster: &mut Q,
) -> Result<Rest, Memory>
    requires ring { frame arm.old ≡ frame_of desk.now.ground.instance.now }
    requires misses { arm.old.misses ≡ 0 }
    requires leasts { IsOf desk.now.ground.instance.now hand.old.leasts }
    requires scratch { length hand.old.scratch.steps.items
        ≡ length desk.now.ground.instance.now.items }
    requires seat { IsSeatOf desk.now.shared.now seat.old }
    requires allowance { desk.now.shared.now.budget < seat.old.view.allowance }
    ensures seat { IsSeatOf desk.now.shared.now seat.new }
    ensures scratch { length hand.new.scratch.steps.items
        ≡ length desk.now.ground.instance.now.items }
    ensures leasts { IsOf desk.now.ground.instance.now hand.new.leasts }
    ensures stays { Stays arm.old arm.new }
    ensures lost { OnErr result (BrokeOff desk.now.ground.instance.now desk.now.shared.now seat.old
        seat.new hand.old hand.new) }
    ensures works { IfOk result (λ rest. Works desk.now.ground.instance.now desk.now.shared.now
        desk.now.starts seat.old seat.new hand.old hand.new arm.old arm.new rest) }
{
    // Read for its range.
    let _best = hand.loss;
    hand.left.reserve(1)?;
    let mut at_hand = VecDeque::new(desk.alloc);
    while arm.misses() < IDLE_TURNS {
        match find(rt, arm, &mut at_hand) {
            None => desk.gate.idle(hand.worker),
            Some(bx) => {
                offer(arm, &mut at_hand)?;
                if !handle_at_hand(desk, seat, hand, &mut at_hand, bx, poster)? {
                    push_all(arm, at_hand)?;
                    return Ok(Rest::Spent);
                }
            }
        }
    }
    push_all(arm, at_hand)?;
    Ok(Rest::Idle)
}

/// The work of one worker beside others, each with an arm of one ring and a seat of its own: it pops a box from its deque, or else steals
/// one from the next worker's; the box passes the gate and is handled, and its halves are pushed. After a turn without a box the gate is
/// told so.
///
/// Boxes that it will pop again itself are kept at hand: those are pushed and popped at once when their turn comes. Only where its deque
/// is found empty the oldest of them is pushed, so that another worker can steal it, and at the end all that are left.
///
/// The poster is told of each plan that is better than the hand's before, once its box is handled.
///
/// It rests, `Spent`, where a ticket that it drew reached the budget: then the box that it was drawn for is left open in the hand. It
/// rests, `Idle`, where the arm has missed 100,000 times in a row.
///
/// The ring must be for boxes of this instance, the arm must not have missed yet, and the seat must be free to draw more tickets than the
/// budget has. `starts` is the number of start boxes, as for `handle`.
///
/// Only want of memory is refused: seat, hand and arm are then as the turns up to then left them, but the boxes at hand may be lost. It may
/// wait for another thread, which is at the same deque, and for what the poster waits for.
pub fn work<'d, R: Wait, G: Gate, Q: Poster>(
    rt: &R,
    alloc: Global,
    instance: &'d Instance,
    map: &'d DefectMap,
    shared: &'d SharedBest,
    seat: &mut Seat,
    hand: &mut Hand,
    starts: u64,
    arm: &mut Arm,
    gate: &'d G,
    poster: &mut Q,
) -> Result<Rest, Memory>
    requires map { map.now ≡ instance.now.defects }
    requires ring { frame arm.old ≡ frame_of instance.now }
    requires misses { arm.old.misses ≡ 0 }
    requires leasts { IsOf instance.now hand.old.leasts }
    requires scratch { length hand.old.scratch.steps.items ≡ length instance.now.items }
    requires limits { (starts ≤ MOST_CERT_BYTES) × (shared.now.budget ≤ MOST_BUDGET) }
    requires seat { IsSeatOf shared.now seat.old }
    requires allowance { shared.now.budget < seat.old.view.allowance }
    ensures seat { IsSeatOf shared.now seat.new }
    ensures scratch { length hand.new.scratch.steps.items ≡ length instance.now.items }
    ensures leasts { IsOf instance.now hand.new.leasts }
    ensures stays { Stays arm.old arm.new }
    ensures lost { OnErr result (BrokeOff instance.now shared.now seat.old seat.new
        hand.old hand.new) }
    ensures works { IfOk result (λ rest. Works instance.now shared.now starts seat.old seat.new
        hand.old hand.new arm.old arm.new rest) }
{
    let desk = Desk {
        alloc,
        ground: Ground { instance, map },
        shared,
        starts,
        gate,
    };
    work_at(rt, &desk, seat, hand, arm, poster)
}
