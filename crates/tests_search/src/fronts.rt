//! Fronts on several threads: what they show, and the plan along them, are the same for each number.

use cut_model::{Step, Trace};
use defect_map::{DefectMap, Ground};
use front_bound::front_search::FrontSearch;
use front_bound::losses::LONGEST;
use front_plan::plans::longest_with_plan;
use glass_base::{Instance, Nobody};
use glass_gen::generate;
use std::alloc::Global;
use std::test::Fail;
use std::thread::Threads;

/// What fronts came to.
#[derive(Drop)]
struct Outcome {
    length: u64,
    steps: Vec<Step>,
}

/// The steps of a plan, none where there is none.
fn steps_in(alloc: Global, plan: &Option<Trace>) -> Result<Vec<Step>, Fail> {
    let mut steps = Vec::new(alloc);
    if let Some(trace) = plan {
        steps.extend_from_slice(trace.steps.as_slice())?;
    }
    Ok(steps)
}

/// What they come to with so many labels and threads.
fn shown<R: Threads + Sync>(
    rt: &R,
    alloc: Global,
    instance: &Instance,
    labels: u64,
    threads: u32,
) -> Result<Outcome, Fail> {
    let map = DefectMap::new(alloc, instance)?;
    let ground = Ground {
        instance,
        map: &map,
    };
    let search = FrontSearch {
        labels,
        rt,
        threads,
        listener: &Nobody,
    };
    let shown = longest_with_plan(alloc, ground, LONGEST, &search)?;
    let steps = steps_in(alloc, &shown.plan)?;
    Ok(Outcome {
        length: shown.length,
        steps,
    })
}

/// The glass of a length that is no item, in mm².
fn loss_at(instance: &Instance, length: u64) -> u64 {
    length
        .saturating_mul(u64::from(instance.params().height))
        .saturating_sub(instance.area())
}

/// Whether both came to the same.
fn are_same(one: &Outcome, other: &Outcome) -> bool {
    one.length == other.length && one.steps.as_slice() == other.steps.as_slice()
}

#[test]
fn fronts_show_the_same_on_each_number_of_threads(rt: HostRuntime) -> Result<(), Fail> {
    // (the losses are those of a plain program; around these defects there are plans that lose no more)
    for (start, items, defects, loss) in [
        (12, 30, 0, 1_819_605),
        (7, 20, 0, 1_526_589),
        (7, 20, 10, 1_526_589),
        (12, 30, 5, 1_819_605),
    ] {
        let instance = generate(rt.alloc(), start, items, defects)?;
        let one = shown(&rt, rt.alloc(), &instance, 500_000_000, 1)?;
        assert_eq!(&rt; loss_at(&instance, one.length), loss);
        assert_eq!(&rt; one.steps.len(), items as usize);
        for threads in [2, 3, 4, 8, 9] {
            let more = shown(&rt, rt.alloc(), &instance, 500_000_000, threads)?;
            assert!(&rt; are_same(&one, &more));
        }
    }
    Ok(())
}

#[test]
fn labels_run_out_on_each_number_of_threads(rt: HostRuntime) -> Result<(), Fail> {
    let instance = generate(rt.alloc(), 7, 20, 0)?;
    // (there may be a front for each 5,000 of them, but not so many labels as the table takes)
    for labels in [1_000_000, 10_000_000] {
        let one = shown(&rt, rt.alloc(), &instance, labels, 1)?;
        for threads in [2, 4, 8] {
            let more = shown(&rt, rt.alloc(), &instance, labels, threads)?;
            assert!(&rt; are_same(&one, &more));
        }
    }
    Ok(())
}
