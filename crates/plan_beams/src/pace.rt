//! How far the work is that a beam is a part of, and what the clock leaves of it.

use glass_base::{Listener, News};

/// How many ticks an effort of one is.
pub const TICKS: u64 = 1_000_000;

/// How many ticks go by in a millisecond, as long as that is not measured.
const USUAL_TICKS: u64 = 30_000;

/// How many milliseconds are enough to measure it.
const MEASURED_FROM: u64 = 100;

const MILLISECONDS: u64 = 1_000;

/// How far the work is that a beam is a part of, who is told so, and until when it may go on.
#[derive(Clone, Copy)]
pub struct Pace<'l, L> {
    listener: &'l L,
    /// How many millions of ticks all of the work may take.
    effort: u64,
    /// At which second of the listener's clock its time is over; none where it is not timed.
    seconds: Option<u32>,
    /// How many ticks were spent before this beam.
    before: u64,
    /// How many milliseconds were left when it began; none where it is not timed.
    time: Option<u64>,
}

/// How many ticks will go by in `left` milliseconds, where so many did in those that are gone.
fn ticks_in(left: u64, ticks: u64, gone: u64) -> u64 {
    let measured = ticks.checked_div(gone).filter(|_| gone >= MEASURED_FROM);
    left.saturating_mul(measured.unwrap_or(USUAL_TICKS))
}

impl<'l, L: Listener> Pace<'l, L> {
    /// The pace of work that may take so many millions of ticks, and goes on until so many seconds of the listener's
    /// clock have gone, if there is one and they are said.
    pub fn new(listener: &'l L, effort: u64, seconds: Option<u32>) -> Pace<'l, L> {
        Pace {
            listener,
            effort,
            seconds,
            before: 0,
            time: None,
        }
    }

    /// The same work when so many ticks were spent, from now on.
    pub fn behind(self, ticks: u64) -> Pace<'l, L> {
        Pace {
            before: ticks,
            time: self.time_left(),
            ..self
        }
    }

    /// How many milliseconds are left; none where the work is not timed.
    pub fn time_left(&self) -> Option<u64> {
        let until = u64::from(self.seconds?).saturating_mul(MILLISECONDS);
        Some(until.saturating_sub(self.listener.elapsed()?))
    }

    /// Tells how far the work is where this beam has spent so many ticks.
    pub fn tell(&self, ticks: u64) {
        let spent = self.before.saturating_add(ticks) / TICKS;
        self.listener.hear(News::Ticks {
            spent,
            of: self.effort,
            seconds: self.seconds,
        });
    }

    /// How many more ticks this beam may spend at the most, by the clock, where it has spent so many.
    pub fn left(&self, ticks: u64) -> u64 {
        match (self.time, self.time_left()) {
            (Some(time), Some(left)) => ticks_in(left, ticks, time.saturating_sub(left)),
            _ => u64::MAX,
        }
    }
}
