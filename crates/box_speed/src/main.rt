//! Searches of the product, so that they can be timed. Each line of standard input asks for one, and one line is printed for each: how many
//! boxes were handled, how many were left open, and the least loss in mm². A line is
//!
//!     search START ITEMS DEFECTS BUDGET WORKERS
//!     drafted START ITEMS DEFECTS BUDGET WORKERS
//!
//! The instance is drawn from the start, with so many items and defects, and at most BUDGET boxes are handled, by one to eight workers. The
//! word `search` asks for a search from the first plan on, as the product goes, and `drafted` for one from the draft on, so that hardly any
//! time goes by before it.
#![tactic(auto)]

mod count;
mod product;

use crate::count::Count;
use crate::product::{Beginning, search_by};
use anyhow::{bail, ensure};
use defect_map::DefectMap;
use glass_base::Instance;
use glass_gen::generate;
use std::alloc::Global;
use std::sync::Wait;
use std::thread::Threads;

/// The beginning with this word.
fn beginning_of(word: &str) -> anyhow::Result<Beginning> {
    match word {
        "search" => Ok(Beginning::FirstPlan),
        "drafted" => Ok(Beginning::Draft),
        _ => bail!("{word} is no search"),
    }
}

/// The numbers that are written so, one space between two.
fn numbers_of(alloc: Global, written: &str) -> anyhow::Result<Vec<u32>> {
    let mut numbers = Vec::new(alloc);
    for number in written.split(' ') {
        numbers.push(number.parse::<u32>()?)?;
    }
    Ok(numbers)
}

/// The instance that is drawn.
fn drawn(alloc: Global, start: u32, items: u32, defects: u32) -> anyhow::Result<Instance> {
    ensure!(1 <= items && items <= 800, "1 to 800 items are drawn");
    ensure!(defects <= 20_000, "at most 20,000 defects are drawn");
    Ok(generate(alloc, start, items, defects)?)
}

/// How a search goes, with this beginning, from these numbers and that of the workers on.
fn count_by_workers<R: Threads + Wait + Sync>(
    rt: &R,
    alloc: Global,
    beginning: Beginning,
    numbers: &[u32],
) -> anyhow::Result<Count> {
    let [start, items, defects, budget, workers] = numbers else {
        bail!("a search has five numbers");
    };
    ensure!(1 <= *workers && *workers <= 8, "1 to 8 workers search");
    ensure!(
        1 <= *budget && *budget <= 10_000_000,
        "1 to 10,000,000 boxes are handled"
    );
    let instance = drawn(alloc, *start, *items, *defects)?;
    let map = DefectMap::new(alloc, &instance)?;
    search_by(rt, alloc, &instance, &map, beginning, *workers, *budget)
}

/// How the search goes that a line asks for.
fn count_of<R: Threads + Wait + Sync>(rt: &R, alloc: Global, line: &str) -> anyhow::Result<Count> {
    let (word, written) = line.split_once(' ').unwrap_or((line, ""));
    let numbers = numbers_of(alloc, written)?;
    count_by_workers(rt, alloc, beginning_of(word)?, numbers.as_slice())
}

fn main(rt: HostRuntime) -> anyhow::Result<()> {
    for line in rt.lines(rt.alloc()) {
        let line = line?;
        let Count { boxes, open, loss } = count_of(&rt, rt.alloc(), line.as_str())?;
        match loss {
            Some(loss) => println!(rt; "{line}: {boxes} boxes, {open} open, loss {loss}")?,
            None => println!(rt; "{line}: {boxes} boxes, {open} open")?,
        }
    }
    Ok(())
}
