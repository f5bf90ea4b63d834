//! A worker tells of the plan that it found.

use crate::hand::Hand;
use crate::poster::Poster;
use glass_base::Memory;

/// Tells a poster of the hand's plan, where it loses less than the hand's plan did before.
pub(crate) fn post_better<Q: Poster>(
    hand: &Hand,
    before: u64,
    poster: &mut Q,
) -> Result<(), Memory> {
    if hand.loss >= before {
        return Ok(());
    }
    match &hand.plan {
        Some(plan) => poster.found(plan),
        None => Ok(()),
    }
}
