//! Who is told how far a long piece of work is.

/// What is told of a long piece of work.
#[derive(Clone, Copy, Debug)]
pub enum News {
    /// So many of all fronts were looked at. Work over fronts goes over all of them several times: once to see what leads
    /// on from each, and then once for each length that is tried.
    Fronts {
        done: usize,
        all: usize,
    },
    /// Fronts say nothing, since there are more than so many.
    TooManyFronts {
        most: u64,
    },
    /// A search over fronts ends before it is done, since more labels than so many would be looked at.
    TooManyLabels {
        most: u64,
    },
    /// So many millions of ticks were spent on a better first plan, of so many at the most; and where the clock ends that,
    /// after how many seconds.
    Ticks {
        spent: u64,
        of: u64,
        seconds: Option<u32>,
    },
    /// A plan of this loss in mm² is known.
    Loss(u64),
    /// A search begins that handles so many boxes at the most.
    Boxes {
        budget: u32,
    },
    /// The item of this number is too large for every plate.
    Misfit(u32),
}

/// Who is told how far a long piece of work is, and is asked for the time. What is told changes nothing of the work.
pub trait Listener {
    /// Hears this. A listener that does not say otherwise takes no notice.
    fn hear(&self, _news: News) {}

    /// How many milliseconds of the clock have gone since the work began; none where there is no clock, as at a listener
    /// that does not say otherwise.
    fn elapsed(&self) -> Option<u64> {
        None
    }
}

/// Nobody listens.
#[derive(Clone, Copy)]
pub struct Nobody;

impl Listener for Nobody {}
