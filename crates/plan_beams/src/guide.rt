//! By what a beam goes.

use crate::measure::{Amount, Length};

/// When one length is taken as no more than another.
#[derive(Clone, Copy)]
pub enum Tolerance {
    /// Where it is more by so much at the most.
    Slack(Length),
    /// Where it is equal, or less by so much at least: what is left between the two has to be nothing or a waste.
    Gap(Length),
}

/// What differs from beam to beam.
#[derive(Clone, Copy)]
pub struct Guide {
    /// The loss that is expected of an area, in 1/1024.
    pub rate: u64,
    /// How much more an item is worth for what stands behind it in its stack, in 1/1024.
    pub even: u64,
    /// How much worse a front may be and still be taken as no worse.
    pub tolerance: Tolerance,
    /// What a free place of the open strip is charged, in 1/1024 mm² of waste for each mm²: right of the band where
    /// an item may fit, and above the band.
    pub right: Amount,
    pub above: Amount,
    /// Whether all places around defects are tried, and not the first ones alone.
    pub more: bool,
    /// Whether a form that fits is tried further up and further right too.
    pub loose: bool,
}

impl Tolerance {
    /// Whether no front is taken as no worse that is.
    pub fn is_exact(self) -> bool {
        match self {
            Tolerance::Slack(slack) => slack == Length::ZERO,
            Tolerance::Gap(_) => true,
        }
    }
}
