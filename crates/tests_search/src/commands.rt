//! `plan` with two workers, held so that both of them handle boxes.

use glass_base::{Memory, Run};
use glass_io::{MemFiles, MemSink};
use glass_run::{Gate, HeldGate, OpenGate, Status, glass};
use std::alloc::Global;
use std::collections::BTreeMap;
use std::sync::Wait;
use std::test::Fail;
use std::thread::Threads;

/// Two items in two stacks.
const BATCH: &str = "ITEM_ID;LENGTH_ITEM;WIDTH_ITEM;STACK;SEQUENCE\n0;500;300;0;1\n1;400;200;1;1\n";

/// A defect above the lower left corner.
const DEFECTS: &str = "DEFECT_ID;PLATE_ID;X;Y;WIDTH;HEIGHT\n0;0;100;600;10;10\n";

/// What `plan` prints first: the least loss is that of a strip 300 mm wide, 3210 * 300 - 230000.
const OPTIMAL: &str = "status optimal\nloss 733000\nbound 733000\nplates 1\n";

/// Puts a text under a name.
fn put(
    alloc: Global,
    files: &mut BTreeMap<String, Run<u8>>,
    name: &str,
    text: &str,
) -> Result<(), Memory> {
    let bytes = Run::from(text.as_bytes().to_vec(alloc)?);
    files.insert(String::from_str(alloc, name)?, bytes)?;
    Ok(())
}

/// A batch and its defects.
pub(crate) fn files(alloc: Global, batch: &str, defects: &str) -> Result<MemFiles, Memory> {
    let mut files = BTreeMap::new(alloc);
    put(alloc, &mut files, "batch", batch)?;
    put(alloc, &mut files, "defects", defects)?;
    Ok(MemFiles {
        alloc,
        files,
        fails: Run::new(alloc),
        calls: 0,
        read_faults: [0; 7],
        write_faults: 0,
    })
}

/// The words of a line, one space between two.
fn words(alloc: Global, line: &str) -> Result<Vec<String>, Memory> {
    let mut words = Vec::new(alloc);
    for word in line.split(' ') {
        words.push(String::from_str(alloc, word)?)?;
    }
    Ok(words)
}

/// Runs a command line: how it ends, and whether what it prints begins with this text and ends with the number of open boxes, which is 0.
pub(crate) fn run<R: Threads + Wait + Sync, G: Gate + Sync>(
    rt: &R,
    alloc: Global,
    line: &str,
    files: &mut MemFiles,
    gate: &G,
    printed: &str,
) -> Result<(Status, bool), Memory> {
    let words = words(alloc, line)?;
    let mut sink = MemSink {
        bytes: Run::new(alloc),
        fails: Run::new(alloc),
        calls: 0,
        faults: 0,
    };
    let status = glass(rt, alloc, words.as_slice(), files, &mut sink, gate);
    let bytes = sink.bytes.as_slice();
    let is_as_wanted = bytes.starts_with(printed.as_bytes()) && bytes.ends_with(b"open 0\n");
    Ok((status, is_as_wanted))
}

#[test]
fn two_workers_share_the_work(rt: HostRuntime) -> Result<(), Fail> {
    let alloc = rt.alloc();
    let mut files = files(alloc, BATCH, DEFECTS)?;
    let gate = HeldGate::new()?;
    let plan = "plan batch defects out cert --workers=2";
    let ended = run(&rt, alloc, plan, &mut files, &gate, OPTIMAL)?;
    assert_eq!(rt; ended, (Status::Optimal, true));
    assert_eq!(rt; (gate.met(), gate.gave_up()), (true, false));
    let verify = "verify batch defects out cert";
    let accepted = "accepted bound 733000 open 0\n";
    let ended = run(&rt, alloc, verify, &mut files, &OpenGate, accepted)?;
    assert_eq!(rt; ended, (Status::Done, true));
    Ok(())
}

#[test]
fn one_worker_finds_the_same_loss(rt: HostRuntime) -> Result<(), Fail> {
    let mut files = files(rt.alloc(), BATCH, DEFECTS)?;
    let plan = "plan batch defects out cert --workers=1";
    let ended = run(&rt, rt.alloc(), plan, &mut files, &OpenGate, OPTIMAL)?;
    assert_eq!(rt; ended, (Status::Optimal, true));
    Ok(())
}
