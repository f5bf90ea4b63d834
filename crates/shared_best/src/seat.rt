//! Seats: the right to change the two words.
ghost use Rattle.std.specs.Prelude.{◌≡◌, true, []};

use crate::view::View;
use std::marker::Model;

/// The right to look at the two words and to change them, with what is known of them. Each worker has a seat of its own, which may go
/// from one thread to another. Contracts see it as a `Seated`: the words that it is of, and its view.
///
/// A seat is whole where all draws are its own, made or free, so that no other seat has any. The draws of a seat that is dropped are
/// lost: no seat is whole from then on.
#[derive(Drop)]
pub struct Seat {
    pub(crate) inner: atomic_table::Seat<u8, View>,
    /// That of the view, for the program.
    pub(crate) allowance: u64,
    ghost counted: { allowance ≡ inner.me.0.allowance },
    ghost live: { inner.me.0.live ≡ true },
    ghost bare: { inner.me.1 ≡ [] },
}

impl Model for Seat {
    ghost use Rattle.shared_best.specs.Seats.{Seated};

    ghost Value = { Seated };

    ghost view = { λ s. record { table = s.inner.table_id; view = s.inner.me.0 } };
}

impl Seat {
    ghost use Rattle.std.specs.Prelude.{◌≡◌};

    /// How many tickets this seat may still draw: 2^62 for the first one, before it draws or is split.
    pub fn allowance(&self) -> u64
        ensures { result ≡ self.now.view.allowance }
    {
        self.allowance
    }
}
