//! Lengths that no lawful plan is below.

ghost use Rattle.std.specs.Prelude.{◌≡◌, ◌≤◌, IfOk, true};
ghost use Rattle.front_course.specs.Claims.{LosesAtLeast, NoCourseShorter};
ghost use Rattle.front_table.specs.Ready.{AreFronts};

use crate::front_search::FrontSearch;
use crate::runs::least_reached;
use front_course::laws::courses_bound_losses;
use front_table::fronts::Fronts;
use front_table::halt::Halt;
use front_table::levels::to_go;
use front_table::probe::Probe;
use front_table::table::table_of;
use glass_base::{Instance, Listener, Memory};
use joined_stacks::{join_stacks, joined_or};
use std::alloc::Global;
use std::thread::Threads;

/// By how much a length is first raised, in mm.
const FIRST_STEP: u64 = 8;

/// How often it is raised at the most, each time by half as much again.
const ROUNDS: u32 = 64;

/// What is to go from the first front.
fn base_of(fronts: &Fronts<'_>) -> u64 {
    if fronts.levels.is_empty() {
        return 0;
    }
    to_go(fronts.levels, fronts.levels.len() - 1)
}

/// Whether it is shown that no course is shorter than a length.
fn is_shown<R: Threads + Sync, L: Listener>(
    probe: &Probe<'_, R, L>,
    fronts: &Fronts<'_>,
    length: u64,
) -> Result<bool, Halt>
    requires { AreFronts fronts.now }
    ensures { IfOk result (λ shown. shown ≡ true
        → NoCourseShorter fronts.now.instance.now length) }
{
    if length == 0 {
        return Ok(true);
    }
    let least = least_reached(probe, fronts, length - 1)?;
    if least < length {
        return Ok(false);
    }
    Ok(true)
}

/// Whether it is shown that no course is shorter than a length, with the table of fronts made for it.
fn is_shown_at_all<R: Threads + Sync, L: Listener>(
    probe: &Probe<'_, R, L>,
    length: u64,
) -> Result<bool, Halt>
    ensures { IfOk result (λ shown. shown ≡ true
        → NoCourseShorter probe.now.instance.now length) }
{
    let table = table_of(probe)?;
    is_shown(probe, &table.lend(probe.instance), length)
}

/// Whether it is shown that no lawful plan is shorter than a length, in mm: a plan's length is where its last plate's
/// residual begins, with all plates before that in one line. `false` says that it was not shown: a plan may be shorter,
/// or more labels would be looked at in one of the searches than it may, or there are more fronts than one for each
/// 5,000 of them. So this bounds time and memory.
pub fn is_no_shorter<R: Threads + Sync, L: Listener>(
    alloc: Global,
    instance: &Instance,
    length: u64,
    search: &FrontSearch<'_, R, L>,
) -> Result<bool, Memory>
    ensures { IfOk result (λ shown. shown ≡ true → LosesAtLeast instance.now length) }
{
    let _rules = instance.items();
    courses_bound_losses();
    let joined = join_stacks(alloc, instance)?;
    let probe = search.probe(alloc, joined_or(&joined, instance));
    match is_shown_at_all(&probe, length) {
        Ok(shown) => Ok(shown),
        Err(halt) => halt.or(false),
    }
}

/// A length up to `most` of which it is shown that no course is shorter: the greatest that the searches come to.
pub fn longest<R: Threads + Sync, L: Listener>(
    probe: &Probe<'_, R, L>,
    fronts: &Fronts<'_>,
    most: u64,
) -> Result<u64, Halt>
    requires { AreFronts fronts.now }
    ensures shown { IfOk result (NoCourseShorter fronts.now.instance.now) }
    ensures most { IfOk result (λ least. least ≤ most) }
{
    let mut shown = 0;
    let mut next = base_of(fronts).min(most);
    let mut step = FIRST_STEP;
    for _ in 0..ROUNDS {
        let least = match least_reached(probe, fronts, next) {
            Ok(least) => least,
            Err(halt) => {
                probe.tell(halt);
                return Ok(halt.or(shown)?);
            }
        };
        shown = least.min(most);
        if least <= next || next == most {
            return Ok(shown);
        }
        next = next.saturating_add(step).min(most);
        step = step.saturating_add(step / 2);
    }
    Ok(shown)
}

/// Such a length, with the table of fronts made for it.
fn longest_of_all<R: Threads + Sync, L: Listener>(
    probe: &Probe<'_, R, L>,
    most: u64,
) -> Result<u64, Halt>
    ensures shown { IfOk result (NoCourseShorter probe.now.instance.now) }
    ensures most { IfOk result (λ least. least ≤ most) }
{
    let table = table_of(probe)?;
    longest(probe, &table.lend(probe.instance), most)
}

/// A length up to `most`, in mm, of which it is shown that no lawful plan is shorter, by searches within a growing
/// length, the last of which comes to an end; that no greater one can be shown is not promised. Where more labels would
/// be looked at in one of them than it may, it is what those before have shown; where there are more fronts than one
/// for each 5,000 of them, it is 0, which says nothing. How far that is, is told to the search's listener.
pub fn longest_shown<R: Threads + Sync, L: Listener>(
    alloc: Global,
    instance: &Instance,
    most: u64,
    search: &FrontSearch<'_, R, L>,
) -> Result<u64, Memory>
    ensures shown { IfOk result (LosesAtLeast instance.now) }
    ensures most { IfOk result (λ least. least ≤ most) }
{
    let _rules = instance.items();
    courses_bound_losses();
    let joined = join_stacks(alloc, instance)?;
    let probe = search.probe(alloc, joined_or(&joined, instance));
    match longest_of_all(&probe, most) {
        Ok(shown) => Ok(shown),
        Err(halt) => {
            probe.tell(halt);
            halt.or(0)
        }
    }
}
