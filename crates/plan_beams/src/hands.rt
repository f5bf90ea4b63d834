//! Who works on the levels of a beam.

ghost use Rattle.std.specs.Prelude.{⊤};
ghost use Rattle.std.specs.Thread.{IsSync};

use crate::crew::{Alone, Crew};
use crate::lanes::{Lane, Shift};
use crate::sieves::{Sieve, Sifting};
use std::sync::Mutex;
use std::thread::Threads;

/// Who works on the levels of a beam.
pub trait Hands {
    /// What it has to have: what starts threads may be shared by them.
    ghost can_work: { Type 0 };

    /// Expands each lane's share of a level.
    fn expand(&self, lanes: &[Mutex<Lane>], shift: &Shift)
        requires hands { Self.can_work };

    /// Passes over what is dominated in each sieve.
    fn sift(&self, sieves: &[Mutex<Sieve>], sifting: &Sifting)
        requires hands { Self.can_work };
}

impl<'r, R: Threads + Sync> Hands for Crew<'r, R> {
    ghost can_work = { IsSync R.row };

    fn expand(&self, lanes: &[Mutex<Lane>], shift: &Shift) {
        self.each(lanes, shift);
    }

    fn sift(&self, sieves: &[Mutex<Sieve>], sifting: &Sifting) {
        self.each(sieves, sifting);
    }
}

impl Hands for Alone {
    ghost can_work = { ⊤ };

    fn expand(&self, lanes: &[Mutex<Lane>], shift: &Shift) {
        self.each(lanes, shift);
    }

    fn sift(&self, sieves: &[Mutex<Sieve>], sifting: &Sifting) {
        self.each(sieves, sifting);
    }
}
