//! What a line asks of a search.

ghost use Rattle.std.specs.Prelude.{◌≡◌, ◌≤◌};
ghost use Rattle.glass_base.specs.declared.limits.TheConstants.{MOST_BUDGET};

use box_workers::Gate;
use command_line::{CommandLine, Count, Flag};

/// Up to how many items a search begins with the first plan as it is, where the line says nothing of the work that is to
/// be done.
const FEW_ITEMS: usize = 60;

/// How much work is done for a better one where there are more, in millions of ticks: some ten seconds of one processor.
const USUAL_EFFORT: u32 = 300;

/// How much work a second stands for where there is no clock, in millions of ticks.
const EFFORT_OF_SECOND: u32 = 30;

/// What a line asks of a search: how it begins, how much it may do, and what is told of it.
#[derive(Clone, Copy)]
pub struct Options {
    /// How many workers handle boxes, from 1 to 8.
    pub workers: u32,
    /// How many boxes they may close or split together, from 1 to 10,000,000.
    pub budget: u32,
    /// Whether the losses on the way are told as well.
    pub watch: bool,
    /// Whether it is asked what fronts show.
    pub fronts: bool,
    /// How many labels are looked at in one search over fronts at the most.
    pub labels: u64,
    /// How much work is done for a better first plan, in millions of ticks of about 30 ns; where it is 0, none but what
    /// `seconds` asks for.
    pub effort: u32,
    /// For how many seconds of the gate's clock a better first plan is looked for at the most; none where the clock does
    /// not end that.
    pub seconds: Option<u32>,
    ghost manned: { (1 ≤ workers) × (workers ≤ 8) },
    ghost bounded: { (1 ≤ budget) × (budget ≤ MOST_BUDGET) },
}

/// How much work is done for a better first plan: what the line says, or what is usual for so many items where it sets
/// neither that nor a time nor a budget.
fn effort_of(line: &CommandLine<'_>, items: usize) -> u32 {
    let set = [Count::Effort, Count::Seconds, Count::Budget];
    if items > FEW_ITEMS && !set.iter().any(|count| line.sets(*count)) {
        USUAL_EFFORT
    } else {
        line.count(Count::Effort)
    }
}

/// For how many seconds a better first plan is looked for, if the line says so.
fn seconds_of(line: &CommandLine<'_>) -> Option<u32> {
    match line.count(Count::Seconds) {
        0 => None,
        seconds => Some(seconds),
    }
}

impl Options {
    ghost use Rattle.std.specs.Prelude.{◌≡◌};
    ghost use Rattle.command_line.specs.Grammar.{count_in, flag_in};
    ghost use Rattle.command_line.specs.Lines.{line_in};
    ghost use Rattle.command_line.specs.declared.kinds.Count.TheVariants as count;
    ghost use Rattle.command_line.specs.declared.kinds.Flag.TheVariants as flag;

    /// What this line asks of a search in an instance with so many items.
    pub fn of(line: &CommandLine<'_>, items: usize) -> Options
        ensures budget { result.budget ≡ count_in (line_in line.now) count.Budget }
        ensures watch { result.watch ≡ flag_in (line_in line.now) flag.Watch }
        ensures fronts { result.fronts ≡ flag_in (line_in line.now) flag.Fronts }
    {
        let (workers, budget) = (line.count(Count::Workers), line.count(Count::Budget));
        Options {
            workers,
            budget,
            watch: line.flag(Flag::Watch),
            fronts: line.flag(Flag::Fronts),
            labels: u64::from(line.count(Count::FrontsLimit)),
            effort: effort_of(line, items),
            seconds: seconds_of(line),
        }
    }

    /// Whether nothing is done before a search that goes on from a plan.
    pub(crate) fn is_idle(&self) -> bool {
        !self.fronts && self.effort == 0 && self.seconds.is_none()
    }

    /// How much work is done for a better first plan, in millions of ticks: with a clock the seconds limit it alone, where
    /// no effort does so too.
    pub(crate) fn millions<G: Gate>(&self, gate: &G) -> u32 {
        match self.seconds {
            Some(seconds) if self.effort == 0 => {
                if gate.elapsed().is_some() {
                    u32::MAX
                } else {
                    seconds.saturating_mul(EFFORT_OF_SECOND)
                }
            }
            _ => self.effort,
        }
    }
}
