//! The turn of a worker.
ghost use Rattle.std.specs.Prelude.{◌≡◌, ◌≤◌, length, IfOk, OnErr};
ghost use Rattle.plan_box.specs.Frames.{frame_of};
ghost use Rattle.box_bound.specs.Leastings.{IsOf};
ghost use Rattle.shared_best.specs.Seats.{IsSeatOf};
ghost use Rattle.box_workers.specs.Handling.{Answers};
ghost use Rattle.box_workers.specs.inner.Rounds.{BreaksOff};

use crate::desk::Desk;
use crate::gate::Gate;
use crate::hand::Hand;
use crate::handling::{Done, handle_at};
use crate::poster::Poster;
use crate::posting::post_better;
use glass_base::{Memory, News};
use plan_box::PlanBox;
use shared_best::Seat;

/// Has a box pass the gate, and handles it; where the hand's plan became better, the poster is told.
pub(crate) fn turn<G: Gate, Q: Poster>(
    desk: &Desk<'_, G>,
    seat: &mut Seat,
    hand: &mut Hand,
    bx: PlanBox,
    poster: &mut Q,
) -> Result<Done, Memory>
    requires frame { bx.frame ≡ frame_of desk.now.ground.instance.now }
    requires leasts { IsOf desk.now.ground.instance.now hand.old.leasts }
    requires scratch { length hand.old.scratch.steps.items
        ≡ length desk.now.ground.instance.now.items }
    requires seat { IsSeatOf desk.now.shared.now seat.old }
    requires allowance { 1 ≤ seat.old.view.allowance }
    ensures seat { IsSeatOf desk.now.shared.now seat.new }
    ensures scratch { length hand.new.scratch.steps.items
        ≡ length desk.now.ground.instance.now.items }
    ensures leasts { IsOf desk.now.ground.instance.now hand.new.leasts }
    ensures done { IfOk result (λ d. Answers desk.now.ground.instance.now desk.now.shared.now
        desk.now.starts bx seat.old seat.new hand.old hand.new d) }
    ensures lost { OnErr result (BreaksOff desk.now.ground.instance.now desk.now.shared.now bx
        seat.old seat.new hand.old hand.new) }
{
    desk.gate.pass(hand.worker, bx.id());
    desk.gate.hear(News::Loss(hand.loss));
    let before = hand.loss;
    match handle_at(desk, seat, hand, bx) {
        Ok(Done::Closed) => {
            post_better(hand, before, poster)?;
            Ok(Done::Closed)
        }
        Ok(Done::Split(lower, upper)) => {
            post_better(hand, before, poster)?;
            Ok(Done::Split(lower, upper))
        }
        Ok(Done::Spent(bx)) => Ok(Done::Spent(bx)),
        Err((_, memory)) => Err(memory),
    }
}
