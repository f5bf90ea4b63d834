//! Bounds by fronts, so that they can be compared and timed. Each line of standard input asks for one, and one line is printed for each. A line is
//!
//!     START ITEMS
//!     START ITEMS LENGTH
//!     gen START ITEMS DEFECTS
//!     PLATES WIDTH HEIGHT MIN1 MAX1 MIN2 WASTE / ITEMS
//!     PLATES WIDTH HEIGHT MIN1 MAX1 MIN2 WASTE / ITEMS / DEFECTS
//!     plan LINE
//!
//! The first three draw an instance from the start, with so many items, and no defects or so many; the others give one:
//! its parameters, for each item its length, its width and its stack, and for each defect its plate, its lower left
//! corner, its width and its height. All sizes are in mm. The answer is a loss in mm² of which it is shown that no
//! lawful plan loses less, the greatest that the search comes to; where a LENGTH is asked for, whether it is shown that
//! no lawful plan is shorter. Behind the word `plan` a line is answered by that loss and by what the plan loses that is
//! found along the fronts, or `none`.
#![tactic(auto)]

mod given;
mod numbers;

ghost use Rattle.glass_base.specs.Problem.{IsProblem};
ghost use Rattle.plan_trace.specs.Claims.{IsComplete};

use crate::given::given;
use crate::numbers::numbers_of;
use anyhow::{bail, ensure};
use cut_model::Trace;
use defect_map::{DefectMap, Ground};
use front_bound::bounds::{is_no_shorter, longest_shown};
use front_bound::front_search::FrontSearch;
use front_plan::plans::longest_with_plan;
use glass_base::{Instance, Nobody};
use glass_gen::generate;
use loss_area::length;
use plan_trace::laws::traces_keep_their_kinds;
use std::alloc::Global;
use std::thread::Threads;

/// No more labels than this are looked at in a search.
const LIMIT: u64 = 500_000_000;

/// The instance that is drawn.
fn drawn(alloc: Global, start: u32, items: u32, defects: u32) -> anyhow::Result<Instance> {
    ensure!(1 <= items && items <= 800, "1 to 800 items are drawn");
    ensure!(defects <= 20_000, "up to 20,000 defects are drawn");
    Ok(generate(alloc, start, items, defects)?)
}

/// No plan is longer, in mm.
fn most_of(instance: &Instance) -> u64 {
    let params = instance.params();
    u64::from(params.plates) * u64::from(params.width)
}

/// The glass of a length that is no item, in mm².
fn loss_at(instance: &Instance, length: u64) -> u64 {
    length
        .saturating_mul(u64::from(instance.params().height))
        .saturating_sub(instance.area())
}

/// How fronts are searched: on one thread.
fn search_on<R>(rt: &R) -> FrontSearch<'_, R, Nobody> {
    FrontSearch {
        labels: LIMIT,
        rt,
        threads: 1,
        listener: &Nobody,
    }
}

/// The loss of which it is shown that no lawful plan loses less, in mm².
fn loss_of<R: Threads + Sync>(rt: &R, alloc: Global, instance: &Instance) -> anyhow::Result<u64> {
    let length = longest_shown(alloc, instance, most_of(instance), &search_on(rt))?;
    Ok(loss_at(instance, length))
}

/// The length of a trace, in mm.
fn length_of_plan(instance: &Instance, trace: &Trace) -> u64
    requires problem { IsProblem instance.now }
    requires complete { IsComplete instance.now trace.now.steps.items }
{
    traces_keep_their_kinds();
    length(instance, trace)
}

/// The loss of which it is shown that no lawful plan loses less, and that of the plan along the fronts.
fn losses_of<R: Threads + Sync>(
    rt: &R,
    alloc: Global,
    instance: &Instance,
) -> anyhow::Result<String> {
    let map = DefectMap::new(alloc, instance)?;
    let shown = longest_with_plan(
        alloc,
        Ground {
            instance,
            map: &map,
        },
        most_of(instance),
        &search_on(rt),
    )?;
    let least = loss_at(instance, shown.length);
    let Some(plan) = shown.plan else {
        return Ok(format!(in alloc; "{least} none")?);
    };
    let _rules = instance.items();
    let loss = loss_at(instance, length_of_plan(instance, &plan));
    Ok(format!(in alloc; "{least} {loss}")?)
}

/// The instance of a line.
fn instance_of(alloc: Global, line: &str) -> anyhow::Result<Instance> {
    if line.contains('/') {
        return given(alloc, line);
    }
    let numbers = numbers_of(alloc, line)?;
    match numbers.as_slice() {
        [start, items] => drawn(alloc, *start, *items, 0),
        _ => bail!("a line that draws an instance for a plan has two numbers"),
    }
}

/// The answer to the numbers of a line that asks for a drawn instance.
fn drawn_answer<R: Threads + Sync>(
    rt: &R,
    alloc: Global,
    numbers: &[u32],
) -> anyhow::Result<String> {
    match numbers {
        [start, items] => {
            let instance = drawn(alloc, *start, *items, 0)?;
            let loss = loss_of(rt, alloc, &instance)?;
            Ok(format!(in alloc; "{loss}")?)
        }
        [start, items, length] => {
            let instance = drawn(alloc, *start, *items, 0)?;
            let shown = is_no_shorter(alloc, &instance, u64::from(*length), &search_on(rt))?;
            Ok(format!(in alloc; "{shown}")?)
        }
        _ => bail!("a line that draws an instance has two numbers or three"),
    }
}

/// The answer to the numbers of a line that asks for a drawn instance with defects.
fn drawn_around<R: Threads + Sync>(
    rt: &R,
    alloc: Global,
    numbers: &[u32],
) -> anyhow::Result<String> {
    let [start, items, defects] = numbers else {
        bail!("a line that draws an instance with defects has three numbers");
    };
    let instance = drawn(alloc, *start, *items, *defects)?;
    let loss = loss_of(rt, alloc, &instance)?;
    Ok(format!(in alloc; "{loss}")?)
}

/// The answer to a line.
fn answer<R: Threads + Sync>(rt: &R, alloc: Global, line: &str) -> anyhow::Result<String> {
    if let Some(line) = line.strip_prefix("plan ") {
        let instance = instance_of(alloc, line)?;
        return losses_of(rt, alloc, &instance);
    }
    if let Some(line) = line.strip_prefix("gen ") {
        let numbers = numbers_of(alloc, line)?;
        return drawn_around(rt, alloc, numbers.as_slice());
    }
    if line.contains('/') {
        let instance = given(alloc, line)?;
        let loss = loss_of(rt, alloc, &instance)?;
        return Ok(format!(in alloc; "{loss}")?);
    }
    let numbers = numbers_of(alloc, line)?;
    drawn_answer(rt, alloc, numbers.as_slice())
}

fn main(rt: HostRuntime) -> anyhow::Result<()> {
    for line in rt.lines(rt.alloc()) {
        let line = line?;
        let answer = answer(&rt, rt.alloc(), line.as_str())?;
        println!(rt; "{line}: {answer}")?;
    }
    Ok(())
}
