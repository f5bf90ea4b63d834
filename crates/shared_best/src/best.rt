//! The two words, and the kinds of step that read and change them.
ghost use Rattle.std.specs.Prelude.{◌≡◌, [], ◌∷◌};
ghost use Rattle.shared_best.specs.Words.{newcomer, kept_half, new_half, joined};
ghost use Rattle.shared_best.specs.inner.Plays.{look_then, lower_then, draw_then, settle_then};
ghost use Rattle.shared_best.specs.Rule.{Kept, spent_view};

use crate::seat::Seat;
use crate::view::View;
use atomic_table::{Join, Play, Split, Table, TableRule};
use glass_base::Memory;
use std::alloc::Global;
use std::marker::Model;

/// Stands for "no plan is known" where a loss is a number: no plan loses so much.
pub const NONE: u64 = u64::MAX;

/// The allowance of the first seat: no run draws so often, and the next ticket stays far below 2^64.
const ALL_DRAWS: u64 = 1 << 62;

/// How many words the table has. Those before and behind the two that are used keep other memory out of their cache line, and out of the
/// one beside it, which a processor may load with it: else whoever reads that memory waits whenever another thread draws a ticket.
const WORDS: usize = 32;

/// The place of the best loss among the words.
const BEST: usize = 16;

/// The place of the next ticket.
const TICKET: usize = 17;

/// The rule of the words. A slot, of which there is none, would hold a byte.
struct TwoWords;

impl TableRule<u8, View, u64> for TwoWords {
    ghost holds = { Kept };

    ghost first = { newcomer };
}

/// A load of the best loss.
struct Look;

impl Play<u8, View> for Look {
    ghost then = { look_then };
}

/// A loss that takes the place of the best one, where it is less.
struct Lower;

impl Play<u8, View> for Lower {
    ghost then = { lower_then };
}

/// The next ticket is drawn.
struct Draw;

impl Play<u8, View> for Draw {
    ghost then = { draw_then };
}

/// A load of the best loss, which shows what a whole seat knows.
struct Settle;

impl Play<u8, View> for Settle {
    ghost then = { settle_then };
}

/// A seat is split in two, or two are joined.
struct Halves;

impl Split<View> for Halves {
    ghost left = { kept_half };

    ghost right = { new_half };
}

impl Join<View> for Halves {
    ghost both = { joined };

    ghost spent = { spent_view };
}

/// The best loss and the next ticket, which the seats of all workers share. Contracts see it as the `Words`: which they are, the first
/// value of the best loss, the budget, and the floor.
#[derive(Drop)]
pub struct SharedBest {
    table: Table<u8, View, u64, TwoWords, Global>,
    first: u64,
    budget: u64,
    floor: u64,
    ghost key: { table.shared.key ≡ first },
    ghost words: { (table.shared.table_id.words ≡ 32) × (table.shared.table_id.slots ≡ 0) },
}

impl Model for SharedBest {
    ghost use Rattle.shared_best.specs.Seats.{Words};

    ghost Value = { Words };

    ghost view = { λ w. record { table = w.table.shared.table_id; first = w.first; budget = w.budget; floor = w.floor } };
}

impl SharedBest {
    ghost use Rattle.std.specs.Prelude.{◌≡◌, ℕ, ◌<◌, ◌≤◌, min, length, IfOk};
    ghost use Rattle.shared_best.specs.Words.{newcomer, kept_half, new_half, joined, looked, lowered, drawn, IsWhole, IsEachOnce, Settles, times, share};
    ghost use Rattle.shared_best.specs.Seats.{IsSeatOf};

    /// Two words and their first seat, which has drawn and announced nothing. The best loss is `first`, in mm², or `NONE` where no plan
    /// is known; the next ticket is 0; the seat may draw 2^62 tickets. `budget` is kept for those who ask, and bounds no draw. There is no floor: it is 0. Only want
    /// of memory is refused.
    pub fn new(alloc: Global, first: u64, budget: u64) -> Result<(SharedBest, Seat), Memory>
        ensures words { IfOk result (λ r. (r.0.first ≡ first) × (r.0.budget ≡ budget)) }
        ensures floor { IfOk result (λ r. r.0.floor ≡ 0) }
        ensures seat { IfOk result (λ r. IsSeatOf r.0 r.1 × (r.1.view ≡ newcomer first)) }
    {
        SharedBest::with_floor(alloc, first, budget, 0)
    }

    /// The same, with a floor, a loss in mm² that no plan is below: it is kept for those who ask, as the budget is.
    pub fn with_floor(
        alloc: Global,
        first: u64,
        budget: u64,
        floor: u64,
    ) -> Result<(SharedBest, Seat), Memory>
        ensures words { IfOk result (λ r. (r.0.first ≡ first) × (r.0.budget ≡ budget)) }
        ensures floor { IfOk result (λ r. r.0.floor ≡ floor) }
        ensures seat { IfOk result (λ r. IsSeatOf r.0 r.1 × (r.1.view ≡ newcomer first)) }
    {
        let mut words = [0; WORDS];
        words[BEST] = first;
        let (table, inner) = Table::of_words(alloc, &words, &first)?;
        let shared = SharedBest {
            table,
            first,
            budget,
            floor,
        };
        let seat = Seat {
            inner,
            allowance: ALL_DRAWS,
        };
        Ok((shared, seat))
    }

    /// How many tickets are to be used: those below this number.
    pub fn budget(&self) -> u64
        ensures { result ≡ self.now.budget }
    {
        self.budget
    }

    /// The floor: a loss in mm² that no plan is below, or 0.
    pub fn floor(&self) -> u64
        ensures { result ≡ self.now.floor }
    {
        self.floor
    }

    /// The best loss at this moment: at most the first value, all that this seat announced and what it saw before. Where the seat is
    /// whole, it is the least of the first value and all that was announced. The seat must be one of this `SharedBest`.
    pub fn look(&self, seat: &mut Seat) -> u64
        requires { IsSeatOf self.now seat.old }
        ensures seat { IsSeatOf self.now seat.new }
        ensures view { seat.new.view ≡ looked seat.old.view result }
        ensures seen { result ≤ seat.old.view.seen }
        ensures announced { result ≤ seat.old.view.announced }
        ensures first { result ≤ self.now.first }
        ensures whole { IsWhole seat.old.view → result
            ≡ min self.now.first seat.old.view.announced }
    {
        self.table.shared.load::<Look>(&mut seat.inner, BEST)
    }

    /// Announces a loss, in mm²: the best loss becomes the lesser of itself and `loss`. The seat must be one of this `SharedBest`, and
    /// have drawn a ticket or be free to draw one: so a seat that is whole knows all that was announced.
    pub fn lower(&self, seat: &mut Seat, loss: u64)
        requires seat { IsSeatOf self.now seat.old }
        requires share { 0 < share seat.old.view }
        ensures seat { IsSeatOf self.now seat.new }
        ensures view { seat.new.view ≡ lowered seat.old.view loss }
    {
        self.table
            .shared
            .fetch_min::<Lower>(&mut seat.inner, BEST, loss);
    }

    /// The next ticket, counted from 0 on, which no other draw gives. It is above those that this seat drew before. The seat must be one
    /// of this `SharedBest` and have an allowance, which falls by one.
    pub fn draw(&self, seat: &mut Seat) -> u64
        requires seat { IsSeatOf self.now seat.old }
        requires allowance { 0 < seat.old.view.allowance }
        ensures seat { IsSeatOf self.now seat.new }
        ensures view { seat.new.view ≡ drawn seat.old.view result }
        ensures above { (x : ℕ) → 0 < times x seat.old.view.tickets → x < result }
    {
        let ticket = self
            .table
            .shared
            .fetch_add::<Draw>(&mut seat.inner, TICKET, 1);
        seat.allowance -= 1;
        ticket
    }

    /// A new seat, which has drawn and announced nothing, has looked at nothing itself but knows what this one saw, and takes half of
    /// this one's allowance, rounded down. The seat must be one of this `SharedBest`.
    pub fn split_seat(&self, seat: &mut Seat) -> Seat
        requires { IsSeatOf self.now seat.old }
        ensures seats { IsSeatOf self.now seat.new × IsSeatOf self.now result }
        ensures old { seat.new.view ≡ kept_half seat.old.view }
        ensures new { result.view ≡ new_half seat.old.view }
    {
        let half = seat.allowance / 2;
        let inner = self.table.shared.split_seat::<Halves>(&mut seat.inner);
        seat.allowance -= half;
        Seat {
            inner,
            allowance: half,
        }
    }

    /// Joins a seat into another one, which then knows what both knew, and may draw what both might. Where it is whole afterwards, its
    /// tickets are those below their number, each once, and no look found less than the least of the first value and all that was
    /// announced. Both must be seats of this `SharedBest`.
    pub fn join_seat(&self, into: &mut Seat, from: Seat)
        requires { IsSeatOf self.now into.old × IsSeatOf self.now from }
        ensures seat { IsSeatOf self.now into.new }
        ensures view { into.new.view ≡ joined into.old.view from.view }
        ensures whole { IsWhole into.new.view → Settles into.new.view }
    {
        let Seat { inner, allowance } = from;
        self.table
            .shared
            .join_seat::<Halves>(&mut into.inner, inner);
        // The join itself reads no word. This load shows what a whole seat knows, and that the sum below is small.
        self.table.shared.load::<Settle>(&mut into.inner, BEST);
        into.allowance += allowance;
    }

    /// The best loss and the next ticket at the end: the least of the first value and all that was announced, and the number of tickets
    /// drawn. The seat must be one of this `SharedBest` and whole: all others that may draw, or have drawn, were joined into it.
    pub fn close(self, seat: Seat) -> (u64, u64)
        requires seat { IsSeatOf self seat }
        requires whole { IsWhole seat.view }
        ensures best { result.0 ≡ min self.first seat.view.announced }
        ensures seen { result.0 ≤ seat.view.seen }
        ensures next { result.1 ≡ length seat.view.tickets }
        ensures once { IsEachOnce seat.view.tickets }
    {
        let SharedBest {
            table,
            first: _,
            budget: _,
            floor: _,
        } = self;
        let Seat {
            inner,
            allowance: _,
        } = seat;
        let closed = table.close_with(inner);
        let best = closed.word(BEST);
        let next = closed.word(TICKET);
        closed.free();
        (best, next)
    }
}
