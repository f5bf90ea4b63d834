//! What wide beams find, so that it can be compared and timed. Each line of standard input is
//!
//!     START ITEMS DEFECTS MILLIONS THREADS
//!
//! and asks for the plans that an effort of so many millions of ticks finds, by so many threads, of the instance that is drawn so. The answer is that line, and behind it a line for the
//! first plan and for each wide beam: how many millions of ticks were spent then, and the loss of the best plan in mm².
#![tactic(auto)]

use anyhow::{Context, bail, ensure};
use defect_map::{DefectMap, Ground};
use first_plan::{Effort, Team, first_plan, improve};
use glass_base::{Instance, Listener, News};
use glass_gen::generate;
use std::alloc::Global;
use std::io::Print;
use std::sync::atomic::{AtomicU64, Ordering};
use std::thread::Threads;

/// Prints each loss that is told of.
#[derive(Drop)]
struct Telling<'a, R> {
    rt: &'a R,
    millions: AtomicU64,
}

impl<'a, R: Print> Listener for Telling<'a, R> {
    fn hear(&self, news: News) {
        match news {
            News::Ticks { spent, .. } => self.millions.store(spent, Ordering::Relaxed),
            News::Loss(loss) => {
                let millions = self.millions.load(Ordering::Relaxed);
                let _told = println!(self.rt; "  {millions} {loss}");
            }
            _ => {}
        }
    }
}

/// What a line asks for.
#[derive(Drop)]
struct Asked {
    instance: Instance,
    effort: Effort,
}

/// Reads a line.
fn read(alloc: Global, line: &str) -> anyhow::Result<Asked> {
    let mut numbers = Vec::new(alloc);
    for word in line.split(' ') {
        numbers.push(word.parse::<u32>()?)?;
    }
    let [start, items, defects, millions, threads] = numbers.as_slice() else {
        bail!("a line has five numbers");
    };
    ensure!(1 <= *items && *items <= 800, "1 to 800 items are drawn");
    ensure!(*defects <= 20_000, "at most 20,000 defects are drawn");
    Ok(Asked {
        instance: generate(alloc, *start, *items, *defects)?,
        effort: Effort {
            millions: *millions,
            threads: *threads,
        },
    })
}

/// Does what a line asks for.
fn answer<R: Threads + Print + Sync>(rt: &R, alloc: Global, asked: &Asked) -> anyhow::Result<()> {
    let map = DefectMap::new(alloc, &asked.instance)?;
    let first = first_plan(alloc, &asked.instance, &map)?.context("there is no first plan")?;
    let telling = Telling {
        rt,
        millions: AtomicU64::new(0),
    };
    let team = Team {
        rt,
        effort: asked.effort,
        seconds: None,
        listener: &telling,
    };
    let ground = Ground {
        instance: &asked.instance,
        map: &map,
    };
    let _best = improve(alloc, &team, ground, first, 0)?;
    Ok(())
}

fn main(rt: HostRuntime) -> anyhow::Result<()> {
    for line in rt.lines(rt.alloc()) {
        let line = line?;
        let asked = read(rt.alloc(), line.as_str())?;
        println!(rt; "{line}")?;
        answer(&rt, rt.alloc(), &asked)?;
    }
    Ok(())
}
