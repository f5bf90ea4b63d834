//! Where a worker tells of the plans that it finds.

use best_board::Board;
use cut_model::Trace;
use glass_base::Memory;
use std::alloc::AllocError;
use std::sync::Wait;

/// Is told of each plan that is better than all that its worker found before. Its calls change nothing of the search.
pub trait Poster {
    /// A worker found this plan. Only want of memory is refused, and then the worker ends.
    fn found(&mut self, trace: &Trace) -> Result<(), Memory>;
}

/// A poster that does nothing.
#[derive(Clone, Copy)]
pub struct NoPoster;

impl Poster for NoPoster {
    fn found(&mut self, _trace: &Trace) -> Result<(), Memory> {
        Ok(())
    }
}

/// A poster that posts to a board. It waits for the board's lock.
pub struct BoardPoster<'a, R: Wait> {
    pub board: &'a Board,
    pub rt: &'a R,
}

impl<'a, R: Wait> Clone for BoardPoster<'a, R> {
    fn clone(&self) -> Result<BoardPoster<'a, R>, AllocError> {
        Ok(*self)
    }
}

impl<'a, R: Wait> Copy for BoardPoster<'a, R> {}

impl<'a, R: Wait> Poster for BoardPoster<'a, R> {
    fn found(&mut self, trace: &Trace) -> Result<(), Memory> {
        self.board.post(self.rt, trace)
    }
}
