//! What the program tells on standard error of a long search: how far it is.

use box_workers::{Gate, PatientGate};
use cert_log::NO_LOSS;
use glass_base::{Instance, Item, Listener, News};
use std::io::Eprint;
use std::sync::atomic::{AtomicU32, AtomicU64, Ordering};
use std::time::{Clock, Instant};

/// How many boxes pass between two looks at the clock.
const BOXES_BETWEEN_LOOKS: u64 = 4_096;

/// How many seconds pass before the first line, and between two lines.
const SECONDS_BETWEEN_LINES: u64 = 3;

const MILLISECONDS: u64 = 1_000;

/// Whether an item fits between two lines that lie so far apart along x, and two along y, in one way or the other.
fn fits(item: &Item, along: u32, up: u32) -> bool {
    (item.length <= along && item.width <= up) || (item.width <= along && item.length <= up)
}

/// Tells a gate of each item that is too large for every plate: for its height, or for the width of the widest one and of
/// a strip.
pub(crate) fn tell_misfits<G: Gate>(instance: &Instance, gate: &G) {
    let params = instance.params();
    let along = instance.widest().min(params.max1);
    for item in instance.items() {
        if !fits(item, along, params.height) {
            gate.hear(News::Misfit(item.id));
        }
    }
}

/// A gate for programs, which is patient, knows the time, tells of items that are too large, and where that is wanted tells
/// every few seconds how far the search is: how many fronts of this pass were looked at, how much of the effort or of the
/// time is over, and then how many boxes of the budget were taken, and the best loss that was seen.
#[derive(Drop)]
pub struct TellingGate<'a, R> {
    rt: &'a R,
    patient: PatientGate,
    /// When it was made; none where there is no clock.
    begun: Option<Instant>,
    /// Whether it is to tell how far the search is.
    tells: bool,
    budget: AtomicU32,
    boxes: AtomicU64,
    /// The least loss that was seen, in mm².
    loss: AtomicU64,
    /// The second from which on the next line may come.
    due: AtomicU64,
}

impl<'a, R: Clock> TellingGate<'a, R> {
    /// A gate that no worker has come to. It does not tell how far the search is where that is not wanted, or where there is no clock.
    pub fn new(rt: &'a R, tells: bool) -> TellingGate<'a, R> {
        TellingGate {
            rt,
            patient: PatientGate::new(),
            begun: Instant::now(rt).ok(),
            tells,
            budget: AtomicU32::new(0),
            boxes: AtomicU64::new(0),
            loss: AtomicU64::new(NO_LOSS),
            due: AtomicU64::new(SECONDS_BETWEEN_LINES),
        }
    }
}

impl<'a, R: Clock + Eprint> TellingGate<'a, R> {
    /// Tells how many boxes were taken.
    fn tell_boxes(&self, boxes: u64) {
        let budget = self.budget.load(Ordering::Relaxed);
        let _told = match self.loss.load(Ordering::Relaxed) {
            NO_LOSS => eprintln!(self.rt; "{boxes} of {budget} boxes, no plan yet"),
            loss => eprintln!(self.rt; "{boxes} of {budget} boxes, best loss {loss}"),
        };
    }

    /// Tells how many fronts were looked at, where a line is due.
    fn tell_fronts(&self, done: usize, all: usize) {
        if self.due().is_some() {
            let _told = eprintln!(self.rt; "{done} of {all} fronts looked at");
        }
    }

    /// Tells that a search over fronts gave up.
    fn tell_too_many(&self, most: u64, what: &str) {
        let _told = eprintln!(self.rt; "the search over fronts gave up: more than {most} {what}");
    }

    /// Tells how much of the effort is spent, or what is left of the time, where a line is due.
    fn tell_ticks(&self, spent: u64, of: u64, seconds: Option<u32>) {
        let Some(elapsed) = self.due() else {
            return;
        };
        let loss = self.loss.load(Ordering::Relaxed);
        let _told = match seconds {
            Some(seconds) => {
                let left = u64::from(seconds).saturating_sub(elapsed);
                eprintln!(self.rt; "{left} of {seconds} seconds left, best loss {loss}")
            }
            None => eprintln!(self.rt; "{spent} of {of} million ticks spent, best loss {loss}"),
        };
    }

    /// Tells that an item is too large.
    fn tell_misfit(&self, item: u32) {
        let _told = eprintln!(self.rt; "item {item} is too large for every plate");
    }

    /// Takes note of a loss.
    fn note_loss(&self, loss: u64) {
        if loss < self.loss.load(Ordering::Relaxed) {
            self.loss.store(loss, Ordering::Relaxed);
        }
    }

    /// How many seconds have gone since it was made, where a line is due. Of several workers only the one that sets the
    /// next time is told so.
    fn due(&self) -> Option<u64> {
        if !self.tells {
            return None;
        }
        let elapsed = self.elapsed()? / MILLISECONDS;
        let due = self.due.load(Ordering::Relaxed);
        let next = elapsed.saturating_add(SECONDS_BETWEEN_LINES);
        if elapsed < due {
            return None;
        }
        let set = self
            .due
            .compare_exchange(due, next, Ordering::Relaxed, Ordering::Relaxed);
        set.ok().map(|_| elapsed)
    }
}

impl<'a, R: Clock + Eprint> Listener for TellingGate<'a, R> {
    fn hear(&self, news: News) {
        match news {
            News::Fronts { done, all } => self.tell_fronts(done, all),
            News::TooManyFronts { most } => self.tell_too_many(most, "fronts"),
            News::TooManyLabels { most } => self.tell_too_many(most, "labels"),
            News::Ticks { spent, of, seconds } => self.tell_ticks(spent, of, seconds),
            News::Loss(loss) => self.note_loss(loss),
            News::Boxes { budget } => self.budget.store(budget, Ordering::Relaxed),
            News::Misfit(item) => self.tell_misfit(item),
        }
    }

    fn elapsed(&self) -> Option<u64> {
        let elapsed = self.begun?.elapsed(self.rt).ok()?;
        Some(elapsed.as_millis().min(u128::from(u64::MAX)) as u64)
    }
}

impl<'a, R: Clock + Eprint> Gate for TellingGate<'a, R> {
    fn pass(&self, worker: u32, id: u64) {
        self.patient.pass(worker, id);
        if self.tells {
            let boxes = self.boxes.fetch_add(1, Ordering::Relaxed);
            if boxes % BOXES_BETWEEN_LOOKS == 0 && self.due().is_some() {
                self.tell_boxes(boxes);
            }
        }
    }

    fn idle(&self, worker: u32) {
        self.patient.idle(worker);
    }
}
