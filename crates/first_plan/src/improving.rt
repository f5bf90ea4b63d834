//! A better first plan for more work: wide beams, one after the other, over all plates and over the last ones.

ghost use Rattle.std.specs.Prelude.{◌≡◌, ◌≤◌, IfOk, IfSome};
ghost use Rattle.cut_model.specs.Steps.{length_of};
ghost use Rattle.first_plan.specs.FirstPlans.{IsFirstPlan, IsImproved};
ghost use Rattle.glass_base.specs.Problem.{IsProblem};
ghost use Rattle.plan_trace.specs.Claims.{IsComplete};

use crate::beaming::{checked, trace_in};
use crate::choosing::effort as first_effort;
use crate::comparing::length_of_plan;
use crate::tails::{joined, lost_behind, plates_of, steps_on};
use cert_log::trace_loss;
use cut_model::Trace;
use defect_map::Ground;
use glass_base::{Instance, Listener, Memory, News};
use plan_beams::{Beams, Crew, Pace, TICKS, WideBeam, round_ticks, tail_ticks};
use std::alloc::Global;
use std::thread::Threads;

/// At most so many rounds.
const MOST_ROUNDS: u32 = 1000;

/// From so many plates on beams go over the last ones alone too.
const MANY_PLATES: u32 = 6;

/// Behind how many sixteenths of the plates those of a round begin, one after the other, each by a guide of its own.
const SIXTEENTHS: [u32; 5] = [4, 8, 12, 14, 15];

/// How many these are.
const TAILS: u32 = 5;

/// How much work is done: so many millions of ticks of about 30 ns, those of the first plan among them, by at most so many threads.
#[derive(Clone, Copy)]
pub struct Effort {
    pub millions: u32,
    pub threads: u32,
}

/// What works on a better first plan, and how much.
#[derive(Drop)]
pub struct Team<'t, R, L> {
    pub rt: &'t R,
    pub effort: Effort,
    /// At which second of the listener's clock the work is over; where it has no clock, or this says none, the effort alone ends it.
    pub seconds: Option<u32>,
    /// Who is told how far it is, and asked for the time.
    pub listener: &'t L,
}

impl<'t, R, L: Listener> Team<'t, R, L> {
    /// Its pace where so many ticks were spent, from now on.
    fn pace(&self, spent: u64) -> Pace<'t, L> {
        let effort = u64::from(self.effort.millions);
        Pace::new(self.listener, effort, self.seconds).behind(spent)
    }
}

/// What a better plan is looked for of, by whom, and how good it need be.
#[derive(Drop)]
struct Goal<'g, R, L> {
    alloc: Global,
    team: &'g Team<'g, R, L>,
    ground: Ground<'g>,
    /// The work is over once the best plan loses no more than this, in mm².
    floor: u64,
}

/// A wide beam that is to be run: over what is left behind so many plates of the best plan, which may be none.
#[derive(Clone, Copy)]
struct NextBeam {
    plates: u32,
    number: u32,
    ticks: u64,
}

/// The best plan so far, the ticks that were spent on it, and whether no more work is done.
#[derive(Drop)]
struct Work {
    best: Trace,
    spent: u64,
    is_over: bool,
}

/// The shorter one of a first plan and another trace, which is the first plan where both take the same glass.
fn shorter_of(instance: &Instance, first: Trace, other: Option<Trace>) -> Trace
    requires problem { IsProblem instance.now }
    requires plan { IsFirstPlan instance.now first.steps.items }
    requires other { IfSome other (λ trace. IsComplete instance.now trace.steps.items) }
    ensures improved { IsImproved instance.now first.steps.items result.steps.items }
    ensures as_short_as_other { IfSome other (λ trace. length_of instance.now result.steps.items
        ≤ length_of instance.now trace.steps.items) }
{
    match other {
        Some(other) => {
            if length_of_plan(instance, &other) < length_of_plan(instance, &first) {
                other
            } else {
                first
            }
        }
        None => first,
    }
}

/// The work after this beam: the better one of the best plan and of what the beam finds, behind the plates that stay, if that has a step for each item and meets the rules.
fn worked_on<R: Threads + Sync, L: Listener>(
    goal: &Goal<R, L>,
    work: Work,
    part: NextBeam,
) -> Result<Work, Memory>
    requires plan { IsFirstPlan goal.now.ground.instance.now work.best.steps.items }
    ensures { IfOk result (λ done. IsImproved goal.now.ground.instance.now work.best.steps.items
        done.best.steps.items) }
{
    let instance = goal.ground.instance;
    // Read for its rules.
    let _items = instance.items();
    let Work { best, spent, .. } = work;
    let kept = steps_on(&best, part.plates);
    let beams = Beams::behind(goal.alloc, instance, part.plates, kept)?;
    let length = length_of_plan(instance, &best);
    let beam = WideBeam {
        number: part.number,
        lost: lost_behind(instance, length, part.plates, beams.area()),
        ticks: part.ticks,
    };
    let crew = Crew {
        rt: goal.team.rt,
        threads: goal.team.effort.threads,
    };
    let pace = goal.team.pace(spent);
    let widely = beams.wide(goal.alloc, &crew, instance, beam, &pace)?;
    let whole = joined(goal.alloc, kept, widely.found)?;
    let found = trace_in(checked(goal.ground, whole));
    Ok(Work {
        best: shorter_of(instance, best, found),
        spent: spent.saturating_add(widely.ticks),
        is_over: false,
    })
}

/// The work after this beam, where it fits into the effort, time is left, and the best plan loses more than the goal's floor; else the work is over. How far it is, is told first.
fn work_on<R: Threads + Sync, L: Listener>(
    goal: &Goal<R, L>,
    work: Work,
    part: NextBeam,
) -> Result<Work, Memory>
    requires plan { IsFirstPlan goal.now.ground.instance.now work.best.steps.items }
    ensures { IfOk result (λ done. IsImproved goal.now.ground.instance.now work.best.steps.items
        done.best.steps.items) }
{
    let Goal { team, ground, .. } = goal;
    // Read for its rules.
    let _items = ground.instance.items();
    let lost = trace_loss(ground.instance, &work.best);
    let pace = team.pace(work.spent);
    pace.tell(0);
    team.listener.hear(News::Loss(lost));
    let most = u64::from(team.effort.millions).saturating_mul(TICKS);
    let is_late = pace.time_left() == Some(0);
    if is_late || lost <= goal.floor || work.spent.saturating_add(part.ticks) > most {
        let Work { best, spent, .. } = work;
        return Ok(Work {
            best,
            spent,
            is_over: true,
        });
    }
    worked_on(goal, work, part)
}

/// The beam over the last plates that has this number in a round.
fn tail_of(instance: &Instance, best: &Trace, round: u32, number: u32) -> NextBeam {
    let sixteenths = SIXTEENTHS[(number % TAILS) as usize];
    let plates = plates_of(best).saturating_mul(sixteenths) / 16;
    let kept = steps_on(best, plates).len();
    let left = instance.items().len().saturating_sub(kept);
    NextBeam {
        plates,
        number,
        ticks: tail_ticks(first_effort(left), round),
    }
}

/// The work after the beams over the last plates of a round, each of which keeps more plates than the one before. They take no more ticks together than the round's beam over all plates
/// has, and in the first round, which has no such beam, no more than twice as many; one that would take more by itself is passed over.
fn work_tails<R: Threads + Sync, L: Listener>(
    goal: &Goal<R, L>,
    before: Work,
    round: u32,
    ticks: u64,
) -> Result<Work, Memory>
    requires plan { IsFirstPlan goal.now.ground.instance.now before.best.steps.items }
    ensures { IfOk result (λ done. IsImproved goal.now.ground.instance.now before.best.steps.items
        done.best.steps.items) }
{
    let most = if round == 0 {
        ticks.saturating_mul(2)
    } else {
        ticks
    };
    let until = before.spent.saturating_add(most);
    let mut work = before;
    for number in 0..TAILS {
        let tail = tail_of(goal.ground.instance, &work.best, round, number);
        if tail.ticks > ticks {
            continue;
        }
        if work.is_over || work.spent.saturating_add(tail.ticks) > until {
            break;
        }
        work = work_on(goal, work, tail)?;
    }
    Ok(work)
}

/// The work after a round: a wide beam over all plates, and where there are many, some over the last ones. The first round then has these alone.
fn work_round<R: Threads + Sync, L: Listener>(
    goal: &Goal<R, L>,
    before: Work,
    round: u32,
) -> Result<Work, Memory>
    requires plan { IsFirstPlan goal.now.ground.instance.now before.best.steps.items }
    ensures { IfOk result (λ done. IsImproved goal.now.ground.instance.now before.best.steps.items
        done.best.steps.items) }
{
    let first = first_effort(goal.ground.instance.items().len());
    let has_tails = plates_of(&before.best) >= MANY_PLATES;
    let ticks = round_ticks(first, round, has_tails);
    let mut work = before;
    if round > 0 || !has_tails {
        let whole = NextBeam {
            plates: 0,
            number: round,
            ticks,
        };
        work = work_on(goal, work, whole)?;
    }
    if has_tails {
        work = work_tails(goal, work, round, ticks)?;
    }
    Ok(work)
}

/// A first plan that is no longer than this one, for more work: wide beams are run one after the other, of which each is to lose less than the best plan so far, as long as the next
/// one fits into the effort and that plan loses more than `floor`, in mm².
///
/// They go over all plates, or keep the first plates of the best plan and go over the others. Which they are, and their sizes, hangs on the instance and on what those before found alone:
/// the same effort has the same plan on each machine and with each number of threads, and a greater one never has a longer plan, but where the time is limited. How far it is, is told to
/// the team's listener. It fails only where memory runs out; where no thread can be made the caller does the work.
pub fn improve<'g, R: Threads + Sync, L: Listener>(
    alloc: Global,
    team: &'g Team<'g, R, L>,
    ground: Ground<'g>,
    first: Trace,
    floor: u64,
) -> Result<Trace, Memory>
    requires plan { IsFirstPlan ground.instance.now first.steps.items }
    ensures { IfOk result (λ trace. IsImproved ground.entry.instance.now first.steps.items
        trace.steps.items) }
{
    let goal = Goal {
        alloc,
        team,
        ground,
        floor,
    };
    let mut work = Work {
        best: first,
        spent: first_effort(ground.instance.items().len()),
        is_over: false,
    };
    for round in 0..MOST_ROUNDS {
        if work.is_over {
            break;
        }
        work = work_round(&goal, work, round)?;
    }
    let Work { best, .. } = work;
    Ok(best)
}
