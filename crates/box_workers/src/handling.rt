//! The handling of one box.
ghost use Rattle.std.specs.Prelude.{◌≡◌, ℕ, ◌≤◌, ◌<◌, ◌↔◌, length, IfOk, IfErr, IsTrue, MatchOption};
ghost use Rattle.plan_box.specs.Decisions.{is_free, IsPoint};
ghost use Rattle.plan_box.specs.Frames.{frame_of};
ghost use Rattle.plan_box.specs.Reasons.{IsRefuted};
ghost use Rattle.box_bound.specs.Leastings.{IsOf, IsFor};
ghost use Rattle.cert_log.specs.Lawful.{no_loss};
ghost use Rattle.cert_log.specs.Events.{SplitsFree};
ghost use Rattle.shared_best.specs.Seats.{IsSeatOf};
ghost use Rattle.shared_best.specs.Words.{share};
ghost use Rattle.box_workers.specs.Handling.{IsIdle, Gives, Answers};
ghost use Rattle.box_workers.specs.inner.Hands.{CanKeep, IsNoted};
ghost use Rattle.box_workers.specs.inner.Spares.{HasRoomFor};
ghost use Rattle.box_workers.specs.inner.Deciding.{ClosesBy, Improves, Decides};

use crate::desk::Desk;
use crate::gate::{Gate, OpenGate};
use crate::hand::{Hand, keep, prepare};
use box_bound::{Leasts, bound_at, broken_at, choose_at, refuted_at};
use cert_log::{Act, Cause, Note, trace_loss};
use cut_model::Trace;
use defect_map::{DefectMap, Ground};
use glass_base::limits::{MOST_BUDGET, MOST_CERT_BYTES};
use glass_base::{Instance, Memory};
use plan_box::{PlanBox, Var};
use plan_trace::TraceBroken;
use shared_best::{NONE, Seat, SharedBest};
use std::alloc::Global;

/// What became of a box.
#[derive(Drop)]
pub enum Done {
    /// It was closed: no plan in it is better than the best that is known.
    Closed,
    /// It was split into its lower and its upper half.
    Split(PlanBox, PlanBox),
    /// The budget was spent: the box comes back as it was.
    Spent(PlanBox),
}

/// The variable at which a box that is no point is split, where its least values break this rule, or none is known to be broken.
fn choose(leasts: &Leasts, bx: &PlanBox, broken: Option<TraceBroken>) -> (u32, Var)
    requires { ¬ IsPoint bx.now.ranges }
    ensures { IsTrue (is_free bx.now.ranges result.0 result.1) }
{
    let Some(choice) = choose_at(leasts, bx, broken) else {
        unreachable!();
    };
    choice
}

/// Probes a box whose steps are all decided. Where the trace at its least values meets the rules and loses less than the hand's plan, the
/// hand keeps it, and then its loss is announced. Else the first rule that it breaks comes back, if it breaks one.
#[tactic(auto, using(crate::proofs::Probing::probe_long))]
fn improve(
    ground: Ground<'_>,
    shared: &SharedBest,
    seat: &mut Seat,
    hand: &mut Hand,
    bx: &PlanBox,
) -> Option<TraceBroken>
    requires frame { bx.now.frame ≡ frame_of ground.instance.now }
    requires leasts { IsFor ground.instance.now bx.now hand.old.leasts }
    requires scratch { length hand.old.scratch.steps.items ≡ length ground.instance.now.items }
    requires trace { CanKeep ground.instance.now hand.old.plan hand.old.spare }
    requires unrefuted { ¬ IsRefuted ground.instance.now bx.now.ranges }
    requires seat { IsSeatOf shared.now seat.old }
    requires share { 0 < share seat.old.view }
    ensures seat { IsSeatOf shared.now seat.new }
    ensures scratch { length hand.new.scratch.steps.items ≡ length ground.entry.instance.now.items }
    ensures same { (hand.new.leasts ≡ hand.old.leasts) × (hand.new.worker ≡ hand.old.worker)
        × (hand.new.log ≡ hand.old.log) × (hand.new.left ≡ hand.old.left)
        × (hand.new.spares ≡ hand.old.spares) }
    ensures improves { (probed : ℕ) × Improves ground.entry.instance.now bx.now.ranges probed
        seat.old.view seat.new.view hand.old hand.new }
{
    // Read for its rules.
    let _frame = bx.frame();
    let best = hand.loss;
    if !bx.is_decided() {
        return None;
    }
    if let Some(broken) = broken_at(ground, &hand.leasts, bx, &mut hand.scratch) {
        return Some(broken);
    }
    let loss = trace_loss(ground.instance, &hand.scratch);
    if loss >= best {
        return None;
    }
    keep(hand, loss, ground.instance);
    shared.lower(seat, loss);
    None
}

/// Whether there is a floor that reaches a loss, so that no plan beats it.
fn reaches_floor(floor: u64, loss: u64) -> bool
    ensures { IsTrue result ↔ ((0 < floor) × (loss ≤ floor) × (loss < no_loss)) }
{
    0 < floor && loss <= floor && loss < NONE
}

/// By what a box is closed that is not refuted: by its bound, or for the floor, where that reaches the loss that is to be beaten.
fn closing_cause(bound: u64, floor: u64, loss: u64) -> Option<Cause>
    ensures { MatchOption result (bound < loss) (ClosesBy bound floor loss) }
{
    if bound >= loss {
        Some(Cause::Bound)
    } else if reaches_floor(floor, loss) {
        Some(Cause::Floor)
    } else {
        None
    }
}

/// What is to be done with a box, by what is seen and probed now. It is closed for the first reason by which it is refuted; else, after
/// its probe, by its bound, or by the floor, where that reaches the lesser of what was seen and the hand's loss; else it is split.
fn decide(
    ground: Ground<'_>,
    shared: &SharedBest,
    seat: &mut Seat,
    hand: &mut Hand,
    bx: &PlanBox,
) -> Act
    requires frame { bx.now.frame ≡ frame_of ground.instance.now }
    requires leasts { IsOf ground.instance.now hand.old.leasts }
    requires scratch { length hand.old.scratch.steps.items ≡ length ground.instance.now.items }
    requires trace { CanKeep ground.instance.now hand.old.plan hand.old.spare }
    requires seat { IsSeatOf shared.now seat.old }
    requires share { 0 < share seat.old.view }
    ensures seat { IsSeatOf shared.now seat.new }
    ensures scratch { length hand.new.scratch.steps.items ≡ length ground.entry.instance.now.items }
    ensures leasts { IsOf ground.entry.instance.now hand.new.leasts }
    ensures decides { (seen : ℕ) × (probed : ℕ) × Decides ground.entry.instance.now shared.now
        bx.now seat.old seat.new hand.old hand.new seen probed result }
{
    // Read for their rules, and the last for its range.
    let _frame = bx.frame();
    let _params = ground.instance.params();
    let _before = hand.loss;
    let seen = shared.look(seat);
    hand.leasts.fill(ground.instance, bx);
    if let Some(reason) = refuted_at(ground.instance, ground.map, &hand.leasts, bx) {
        return Act::Closed {
            threshold: seen,
            cause: Cause::Reason(reason),
        };
    }
    let broken = improve(ground, shared, seat, hand, bx);
    let threshold = seen.min(hand.loss);
    let bound = bound_at(ground.instance, &hand.leasts, bx);
    if let Some(cause) = closing_cause(bound, shared.floor(), threshold) {
        return Act::Closed { threshold, cause };
    }
    let (step, var) = choose(&hand.leasts, bx, broken);
    Act::Split { step, var }
}

/// Notes what is done with a box, for which this ticket was drawn, and does it.
fn carry_out<G: Gate>(
    desk: &Desk<'_, G>,
    hand: &mut Hand,
    ticket: u64,
    bx: PlanBox,
    act: Act,
) -> Done
    requires frame { bx.frame ≡ frame_of desk.now.ground.instance.now }
    requires free { SplitsFree bx.ranges act }
    requires log { 1 ≤ hand.old.log.spare }
    requires room { HasRoomFor bx hand.old.spares }
    requires ticket { ticket < MOST_BUDGET }
    ensures noted { IsNoted record { id = bx.id; ticket = ticket; act = act } hand.old hand.new }
    ensures gives { (seen : ℕ) → (probed : ℕ) → Gives desk.now.starts record
        { box = bx; ticket = ticket; seen = seen; probed = probed; act = act } result }
{
    let id = bx.id();
    hand.log.put(Note { id, ticket, act });
    match act {
        Act::Closed { .. } => {
            hand.spares.keep(bx);
            Done::Closed
        }
        Act::Split { step, var } => {
            let first = desk.starts + 2 * ticket;
            let ids = (first, first + 1);
            let (lower, upper) = hand.spares.split(desk, bx, (step, var), ids);
            Done::Split(lower, upper)
        }
    }
}

/// `handle`, at the desk that all workers share.
pub(crate) fn handle_at<G: Gate>(
    desk: &Desk<'_, G>,
    seat: &mut Seat,
    hand: &mut Hand,
    bx: PlanBox,
) -> Result<Done, (PlanBox, Memory)>
    requires frame { bx.frame ≡ frame_of desk.now.ground.instance.now }
    requires leasts { IsOf desk.now.ground.instance.now hand.old.leasts }
    requires scratch { length hand.old.scratch.steps.items
        ≡ length desk.now.ground.instance.now.items }
    requires seat { IsSeatOf desk.now.shared.now seat.old }
    requires allowance { 1 ≤ seat.old.view.allowance }
    ensures seat { IsSeatOf desk.now.shared.now seat.new }
    ensures scratch { length hand.new.scratch.steps.items
        ≡ length desk.now.ground.instance.now.items }
    ensures leasts { IsOf desk.now.ground.instance.now hand.new.leasts }
    ensures done { IfOk result (λ d. Answers desk.now.ground.instance.now desk.now.shared.now
        desk.now.starts bx seat.old seat.new hand.old hand.new d) }
    ensures refused { IfErr result (λ e. (e.0 ≡ bx) × (seat.new ≡ seat.old)
        × IsIdle hand.old hand.new) }
{
    if let Err(refused) = prepare(desk.alloc, desk.ground.instance, hand, &bx) {
        return Err((bx, refused));
    }
    let ticket = desk.shared.draw(seat);
    if ticket >= desk.shared.budget() {
        return Ok(Done::Spent(bx));
    }
    let act = decide(desk.ground, desk.shared, seat, hand, &bx);
    Ok(carry_out(desk, hand, ticket, bx, act))
}

/// Handles a box of this instance: draws a ticket for it, looks at the best loss, and closes the box or splits it into its halves, as the
/// note at the end of the hand's log then tells. A plan that the box's probe finds is kept where it is better than the hand's, and its loss
/// is announced. Where the ticket is not below the budget nothing is done, and the box comes back.
///
/// `starts` is the number of start boxes: the halves get the identities `starts + 2 * ticket` and `starts + 2 * ticket + 1`.
///
/// All memory is taken before the ticket is drawn; where it runs out the box comes back, and nothing has changed.
pub fn handle<'d>(
    alloc: Global,
    instance: &'d Instance,
    map: &'d DefectMap,
    shared: &'d SharedBest,
    seat: &mut Seat,
    hand: &mut Hand,
    starts: u64,
    bx: PlanBox,
) -> Result<Done, (PlanBox, Memory)>
    requires map { map.now ≡ instance.now.defects }
    requires frame { bx.frame ≡ frame_of instance.now }
    requires leasts { IsOf instance.now hand.old.leasts }
    requires scratch { length hand.old.scratch.steps.items ≡ length instance.now.items }
    requires limits { (starts ≤ MOST_CERT_BYTES) × (shared.now.budget ≤ MOST_BUDGET) }
    requires seat { IsSeatOf shared.now seat.old }
    requires allowance { 1 ≤ seat.old.view.allowance }
    ensures seat { IsSeatOf shared.now seat.new }
    ensures scratch { length hand.new.scratch.steps.items ≡ length instance.now.items }
    ensures leasts { IsOf instance.now hand.new.leasts }
    ensures done { IfOk result (λ d. Answers instance.now shared.now starts bx seat.old seat.new
        hand.old hand.new d) }
    ensures refused { IfErr result (λ e. (e.0 ≡ bx) × (seat.new ≡ seat.old)
        × IsIdle hand.old hand.new) }
{
    let desk = Desk {
        alloc,
        ground: Ground { instance, map },
        shared,
        starts,
        gate: &OpenGate,
    };
    handle_at(&desk, seat, hand, bx)
}
