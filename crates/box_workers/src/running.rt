//! The work of one worker over a list of boxes that wait.
ghost use Rattle.std.specs.Prelude.{◌≡◌, ◌≤◌, ◌<◌, ◌++◌, ◌∷◌, [], All, length, OnOk, IfOk, MatchBool};
ghost use Rattle.plan_box.specs.Frames.{frame_of};
ghost use Rattle.plan_box.specs.Ranges.{PlainBox};
ghost use Rattle.box_bound.specs.Leastings.{IsOf};
ghost use Rattle.shared_best.specs.Seats.{IsSeatOf};
ghost use Rattle.box_workers.specs.Handling.{Spends};
ghost use Rattle.box_workers.specs.inner.Rounds.{Turns, HasEnded};

use crate::desk::Desk;
use crate::gate::Gate;
use crate::hand::Hand;
use crate::handling::Done;
use crate::poster::Poster;
use crate::turning::turn;
use glass_base::{Memory, Run};
use plan_box::PlanBox;
use shared_best::Seat;

/// Puts the halves of a box to the boxes that wait. The box that was put last is handled first: so the lower half before the upper one.
fn put_halves(waiting: &mut Run<PlanBox>, lower: PlanBox, upper: PlanBox)
    requires { 2 ≤ waiting.old.spare }
    ensures { waiting.new.items ≡ waiting.old.items ++ upper ∷ lower ∷ [] }
{
    waiting.put(upper);
    waiting.put(lower);
}

/// Handles a box, and puts its halves to the boxes that wait. Where the budget is spent the box waits on; that is told by `false`.
fn handle_waiting<G: Gate, Q: Poster>(
    desk: &Desk<'_, G>,
    seat: &mut Seat,
    hand: &mut Hand,
    waiting: &mut Run<PlanBox>,
    bx: PlanBox,
    poster: &mut Q,
) -> Result<bool, Memory>
    requires frame { bx.frame ≡ frame_of desk.now.ground.instance.now }
    requires frames { All (λ (x : PlainBox). x.frame
        ≡ frame_of desk.now.ground.instance.now) waiting.old.items }
    requires leasts { IsOf desk.now.ground.instance.now hand.old.leasts }
    requires scratch { length hand.old.scratch.steps.items
        ≡ length desk.now.ground.instance.now.items }
    requires seat { IsSeatOf desk.now.shared.now seat.old }
    requires allowance { 1 ≤ seat.old.view.allowance }
    ensures seat { IsSeatOf desk.now.shared.now seat.new }
    ensures scratch { length hand.new.scratch.steps.items
        ≡ length desk.now.ground.instance.now.items }
    ensures leasts { IsOf desk.now.ground.instance.now hand.new.leasts }
    ensures frames { OnOk result (All (λ (x : PlainBox). x.frame
        ≡ frame_of desk.now.ground.instance.now) waiting.new.items) }
    ensures turns { IfOk result (λ more. MatchBool more
        (Turns desk.now.ground.instance.now desk.now.shared.now desk.now.starts bx seat.old seat.new
        hand.old hand.new waiting.old.items waiting.new.items)
        (Spends desk.now.shared.now seat.old seat.new hand.old hand.new
        × (waiting.new.items ≡ waiting.old.items ++ bx ∷ []))) }
{
    waiting.reserve(2)?;
    match turn(desk, seat, hand, bx, poster)? {
        Done::Closed => Ok(true),
        Done::Split(lower, upper) => {
            put_halves(waiting, lower, upper);
            Ok(true)
        }
        Done::Spent(bx) => {
            waiting.put(bx);
            Ok(false)
        }
    }
}

/// Handles boxes until none waits or the budget is spent.
pub(crate) fn run<G: Gate, Q: Poster>(
    desk: &Desk<'_, G>,
    seat: &mut Seat,
    hand: &mut Hand,
    waiting: &mut Run<PlanBox>,
    poster: &mut Q,
) -> Result<(), Memory>
    requires frames { All (λ (x : PlainBox). x.frame
        ≡ frame_of desk.now.ground.instance.now) waiting.old.items }
    requires leasts { IsOf desk.now.ground.instance.now hand.old.leasts }
    requires scratch { length hand.old.scratch.steps.items
        ≡ length desk.now.ground.instance.now.items }
    requires seat { IsSeatOf desk.now.shared.now seat.old }
    requires allowance { desk.now.shared.now.budget < seat.old.view.allowance }
    ensures ends { OnOk result (HasEnded desk.now.ground.instance.now desk.now.shared.now
        desk.now.starts waiting.old.items seat.old seat.new hand.old hand.new waiting.new.items) }
{
    // Read for its range.
    let _best = hand.loss;
    while let Some(bx) = waiting.pop() {
        if !handle_waiting(desk, seat, hand, waiting, bx, poster)? {
            return Ok(());
        }
    }
    Ok(())
}
