//! Who works through a list: several threads, or the caller alone.

ghost use Rattle.std.specs.Thread.{IsSend, IsSync};

use std::sync::Mutex;
use std::sync::atomic::{AtomicUsize, Ordering};
use std::thread::{Threads, join};

/// At most so many threads.
const MOST_THREADS: u32 = 8;

/// What is to be done to each element of a list.
pub trait Labour<T> {
    /// Does it to the element of this number.
    fn work(&self, number: usize, element: &mut T);
}

/// At most so many threads, from 1 to 8, and the caller itself where none can be made.
#[derive(Drop)]
pub struct Crew<'r, R> {
    pub rt: &'r R,
    pub threads: u32,
}

/// The caller alone.
#[derive(Clone, Copy)]
pub struct Alone;

/// Does it to one element after the other that nobody has begun with.
fn take_each<T, L: Labour<T>>(list: &[Mutex<T>], next: &AtomicUsize, labour: &L) {
    for _ in 0..list.len() {
        let number = next.fetch_add(1, Ordering::Relaxed);
        let Some(element) = list.get(number) else {
            return;
        };
        if let Some(mut element) = element.try_lock() {
            labour.work(number, &mut element);
        }
    }
}

/// Does it by so many threads, of which the caller makes all others. A system that places them one after the other
/// gives each a processor of its own; where they make one another it may put two on one.
#[cycle(hands)]
fn by_hands<R: Threads + Sync, T: Send, L: Labour<T> + Sync>(
    rt: &R,
    hands: u32,
    list: &[Mutex<T>],
    next: &AtomicUsize,
    labour: &L,
) {
    if hands <= 1 {
        return take_each(list, next, labour);
    }
    let rest = hands - 1;
    let mine = ||
        requires { IsSync R.row × IsSend T.row × IsSync L.row }
    { by_hands(rt, rest, list, next, labour) };
    let ((), ()) = join(rt, || take_each(list, next, labour), mine);
}

impl<'r, R: Threads + Sync> Crew<'r, R> {
    /// Does it to each element of a list. Each thread takes the next one that nobody has begun with, so that none
    /// waits for one that came late.
    pub fn each<T: Send, L: Labour<T> + Sync>(&self, list: &[Mutex<T>], labour: &L) {
        let next = AtomicUsize::new(0);
        let hands = self.threads.min(MOST_THREADS);
        by_hands(self.rt, hands, list, &next, labour);
    }
}

impl Alone {
    /// Does it to each element of a list.
    pub fn each<T, L: Labour<T>>(&self, list: &[Mutex<T>], labour: &L) {
        let next = AtomicUsize::new(0);
        take_each(list, &next, labour);
    }
}
