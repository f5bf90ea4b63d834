//! Which beams there are: two of a first plan, and wide ones behind them, in rounds. Their guides and sizes hang on the
//! instance alone and not on how many of them are run, so that more of them never find less.

ghost use Rattle.std.specs.Prelude.{◌≤◌};

use crate::guide::{Guide, Tolerance};
use crate::measure::{Amount, Length};
use crate::rest::Remainder;

/// The loss that the first beam expects of an area, in 1/1024.
const FIRST_RATE: u64 = 102;

/// At most so many nodes of a level are expanded by the beams of a first plan.
const FIRST_WIDEST: u64 = 12_000;

/// Up to how many items there is no tolerance, since the beams are wide enough without any.
const FEW_ITEMS: usize = 60;

/// Up to how many items a wide beam sees almost all plans, and takes no front as better that reaches a little less far.
const VERY_FEW_ITEMS: usize = 30;

/// With the wide beam of the first round the effort comes to so many ticks, or to twice those of the first plan where that
/// takes as many.
const WIDE_TICKS: u64 = 300_000_000;

/// A wide beam over all plates that is followed by some over the last ones has at most so many ticks, doubled in the second
/// round and in each one behind it.
const ROUND_TICKS: u64 = 200_000_000;

/// A wide beam takes at most so many times a first plan's ticks, with which its levels come to about the greatest
/// width; and one over the last plates so many times.
const MOST_TIMES: u64 = 12;

const MOST_TAIL_TIMES: u64 = 3;

/// At most so many nodes of a level are expanded by a wide beam.
const WIDEST: u64 = 32_768;

/// How often the ticks of wide beams are doubled, and how often these limits.
const MOST_GROWN: u32 = 20;

const MOST_DOUBLED: u32 = 6;

/// A guide: the share of the best plan's loss that is expected, in 1/1024; the tolerance in mm; the charges; how much
/// the rest of a stack counts; and whether all places are tried.
#[derive(Clone, Copy)]
struct GuideRow {
    share: u64,
    tolerance: u32,
    right: u64,
    above: u64,
    even: u64,
    more: bool,
    loose: bool,
}

const USUAL: GuideRow = GuideRow {
    share: 717,
    tolerance: 20,
    right: 102,
    above: 10,
    even: 1024,
    more: false,
    loose: false,
};

/// The guides of the wide beams, in turn. Those of a first plan go by the first one.
const ROWS: [GuideRow; 6] = [
    USUAL,
    GuideRow {
        share: 800,
        tolerance: 5,
        ..USUAL
    },
    GuideRow {
        share: 1075,
        tolerance: 5,
        ..USUAL
    },
    GuideRow {
        share: 500,
        tolerance: 10,
        even: 1400,
        ..USUAL
    },
    GuideRow {
        tolerance: 0,
        more: true,
        ..USUAL
    },
    GuideRow {
        tolerance: 0,
        right: 40,
        above: 4,
        more: true,
        loose: true,
        ..USUAL
    },
];

/// What a beam is to do, whatever the instance: by what it goes, what it is to lose less than, its effort in ticks,
/// and how many nodes of a level it expands at the most.
#[derive(Clone, Copy)]
pub struct BeamTurn {
    pub guide: Guide,
    pub best: Amount,
    pub ticks: u64,
    pub widest: u64,
}

/// A wide beam that is to lose less than a plan that is known. Wide beams are numbered from 0 on; the number says by
/// which of six guides one goes, and how wide its levels are at the most.
#[derive(Clone, Copy)]
pub struct WideBeam {
    pub number: u32,
    /// What the best plan so far loses, in mm².
    pub lost: u64,
    pub ticks: u64,
}

impl GuideRow {
    /// The guide that expects a loss at this rate.
    fn guide(&self, rate: u64, tolerance: Tolerance) -> Guide {
        Guide {
            rate,
            even: self.even,
            tolerance,
            right: Amount(self.right),
            above: Amount(self.above),
            more: self.more,
            loose: self.loose,
        }
    }

    /// The part of a loss and of the items' area together that its share of the loss is, in 1/1024.
    fn rate(&self, lost: u64, area: u64) -> Option<u64> {
        let glass = lost.saturating_add(area);
        lost.saturating_mul(self.share).checked_div(glass)
    }

    fn slack(&self) -> Tolerance {
        Tolerance::Slack(Length(self.tolerance))
    }

    /// The tolerance with so many items.
    fn slack_for(&self, items: usize) -> Tolerance {
        if items <= FEW_ITEMS {
            Tolerance::Slack(Length::ZERO)
        } else {
            self.slack()
        }
    }

    /// The tolerance of a wide beam for so many items.
    fn tolerance_for(&self, items: usize, waste: Length) -> Tolerance {
        if items <= VERY_FEW_ITEMS {
            Tolerance::Gap(waste)
        } else {
            self.slack_for(items)
        }
    }
}

/// The first beam of a first plan, whose loss tells the second one what to expect.
pub fn first_turn(ticks: u64) -> BeamTurn {
    BeamTurn {
        guide: USUAL.guide(FIRST_RATE, USUAL.slack()),
        best: Amount::FAR,
        ticks,
        widest: FIRST_WIDEST,
    }
}

/// The second beam of a first plan, where the first one lost so much, in mm².
pub fn second_turn(rest: &Remainder, lost: Option<u64>, ticks: u64) -> BeamTurn {
    let (rate, best) = match lost {
        Some(lost) => (
            USUAL.rate(lost, rest.area).unwrap_or(FIRST_RATE),
            Amount(lost),
        ),
        None => (FIRST_RATE, Amount::FAR),
    };
    BeamTurn {
        guide: USUAL.guide(rate, USUAL.slack_for(rest.items)),
        best,
        ticks,
        widest: FIRST_WIDEST,
    }
}

/// How often the limits are doubled for the wide beam of this number: once each guide has had its turn.
fn doubled(number: u32) -> u32
    ensures { result ≤ 6 }
{
    (number / 6).min(MOST_DOUBLED)
}

/// A wide beam's turn, where `waste` is the least one.
pub fn wide_turn(rest: &Remainder, waste: Length, beam: WideBeam) -> BeamTurn {
    let row = ROWS[(beam.number % 6) as usize];
    let rate = row.rate(beam.lost, rest.area).unwrap_or(0);
    BeamTurn {
        guide: row.guide(rate, row.tolerance_for(rest.items, waste)),
        best: Amount(beam.lost),
        ticks: beam.ticks,
        widest: WIDEST << doubled(beam.number),
    }
}

/// How many ticks the wide beam over all plates has in the round of this number, where the first plan takes so many: in the
/// first round what is left of the effort, then twice as many as in the one before, as far as that is allowed; and less
/// where beams over the last plates follow it.
pub fn round_ticks(first: u64, round: u32, has_tails: bool) -> u64 {
    let ticks = wide_ticks(first, round);
    if has_tails {
        ticks.min(grown(ROUND_TICKS, round.max(1)))
    } else {
        ticks
    }
}

/// The same where none follow it.
fn wide_ticks(first: u64, round: u32) -> u64 {
    let rest = WIDE_TICKS.saturating_sub(first);
    if round == 0 && rest > 0 {
        return rest;
    }
    let most = first.saturating_mul(MOST_TIMES);
    grown(rest.max(first), round).min(twice(most, round))
}

/// How many ticks a wide beam over the last plates has in the round of this number, where a first plan of these takes so
/// many: as many, then twice as many as in the one before, as far as that is allowed.
pub fn tail_ticks(first: u64, round: u32) -> u64 {
    let most = first.saturating_mul(MOST_TAIL_TIMES);
    grown(first, round).min(twice(most, round))
}

/// So many ticks, doubled in each round.
fn grown(ticks: u64, round: u32) -> u64 {
    ticks.saturating_mul(1 << round.min(MOST_GROWN))
}

/// A limit, doubled once each guide has had its turn.
fn twice(limit: u64, round: u32) -> u64 {
    limit.saturating_mul(1 << doubled(round))
}
