//! What one of several workers has.
use crate::hand::Hand;
use crate::working::Rest;
use box_ring::Arm;
use crossbeam_utils::CachePadded;
use shared_best::Seat;

/// What one of several workers has: a seat and a hand of its own, and its arm of the ring.
#[derive(Drop)]
#[repr(C)]
pub struct Member {
    pub seat: Seat,
    pub hand: Hand,
    pub arm: Arm,
    /// Why it rests. None before it has worked, and where it found no memory.
    pub rest: Option<Rest>,
    /// Unused bytes: what a worker writes for each box shares no cache line with what the next one in a list does.
    pub apart: CachePadded<()>,
}
