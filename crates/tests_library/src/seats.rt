ghost use Rattle.std.specs.Prelude.{◌≡◌, ◌≤◌};
ghost use Rattle.shared_best.specs.Seats.{IsSeatOf};
ghost use Rattle.shared_best.specs.Words.{share};

use shared_best::{Seat, SharedBest};
use std::test::Fail;
use std::thread::join;

#[test]
fn a_seat_lowers_the_loss_and_draws(rt: HostRuntime) -> Result<(), Fail> {
    let (shared, mut seat) = SharedBest::new(rt.alloc(), 10, 3)?;
    let first = shared.look(&mut seat);
    shared.lower(&mut seat, 7);
    let second = shared.look(&mut seat);
    shared.lower(&mut seat, 9);
    let third = shared.look(&mut seat);
    assert_eq!(rt; (shared.budget(), first, second, third), (3, 10, 7, 7));
    let tickets = [
        shared.draw(&mut seat),
        shared.draw(&mut seat),
        shared.draw(&mut seat),
        shared.draw(&mut seat),
    ];
    assert_eq!(rt; tickets, [0, 1, 2, 3]);
    Ok(())
}

/// Lowers the loss and draws twice.
fn use_seat(shared: &SharedBest, seat: Seat, loss: u64) -> Seat
    requires { IsSeatOf shared.now seat × (2 ≤ seat.view.allowance) }
    ensures { IsSeatOf shared.now result × (share result.view ≡ share seat.view) }
{
    let mut seat = seat;
    shared.lower(&mut seat, loss);
    shared.draw(&mut seat);
    shared.draw(&mut seat);
    seat
}

#[test]
fn seats_of_two_threads_are_joined(rt: HostRuntime) -> Result<(), Fail> {
    let (shared, mut seat) = SharedBest::new(rt.alloc(), 10, 3)?;
    let other = shared.split_seat(&mut seat);
    let words = &shared;
    let (mut seat, other) = join(
        &rt,
        move || use_seat(words, seat, 9),
        move || use_seat(words, other, 7),
    );
    shared.join_seat(&mut seat, other);
    assert_eq!(rt; shared.close(seat), (7, 4));
    Ok(())
}
