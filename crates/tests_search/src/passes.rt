//! A search is run once: its gate is told of as many boxes as are printed.

use crate::commands::{files, run};
use glass_base::{Listener, Memory};
use glass_run::{Gate, Status};
use std::alloc::Global;
use std::sync::Wait;
use std::sync::atomic::{AtomicU64, Ordering};
use std::test::Fail;
use std::thread::Threads;

/// One item.
const BATCH: &str = "ITEM_ID;LENGTH_ITEM;WIDTH_ITEM;STACK;SEQUENCE\n0;500;300;0;1\n";

const DEFECTS: &str = "DEFECT_ID;PLATE_ID;X;Y;WIDTH;HEIGHT\n";

/// What `plan` prints: 39 boxes are closed or split.
const OPTIMAL: &str = "status optimal\nloss 813000\nbound 813000\nplates 1\nboxes 39\nopen 0\n";

/// Counts the boxes that pass.
#[derive(Drop)]
struct Counter {
    passed: AtomicU64,
}

impl Listener for Counter {}

impl Gate for Counter {
    fn pass(&self, _worker: u32, _id: u64) {
        self.passed.fetch_add(1, Ordering::SeqCst);
    }

    fn idle(&self, _worker: u32) {}
}

/// How a line of `plan` ends, whether it prints what is wanted, and how many boxes pass.
fn passed<R: Threads + Wait + Sync>(
    rt: &R,
    alloc: Global,
    line: &str,
) -> Result<(Status, bool, u64), Memory> {
    let mut files = files(alloc, BATCH, DEFECTS)?;
    let counter = Counter {
        passed: AtomicU64::new(0),
    };
    let (status, is_as_wanted) = run(rt, alloc, line, &mut files, &counter, OPTIMAL)?;
    Ok((status, is_as_wanted, counter.passed.load(Ordering::SeqCst)))
}

#[test]
fn each_box_that_is_printed_passes_once(rt: HostRuntime) -> Result<(), Fail> {
    let alloc = rt.alloc();
    let wanted = (Status::Optimal, true, 39);
    let one = "plan batch defects out cert --workers=1";
    assert_eq!(rt; passed(&rt, alloc, one)?, wanted);
    let eight = "plan batch defects out cert --workers=8";
    assert_eq!(rt; passed(&rt, alloc, eight)?, wanted);
    Ok(())
}
