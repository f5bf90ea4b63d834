//! The improvement board.

use crate::workers::small;
use best_board::{Board, Entries, Offered};
use cut_model::{Step, Trace};
use glass_base::{Memory, Run, append};
use std::alloc::Global;
use std::hint::spin_loop;
use std::process::Abort;
use std::sync::Wait;
use std::sync::atomic::{AtomicBool, Ordering};
use std::test::Fail;
use std::thread::{Threads, join};

/// The list on which nothing is entered yet.
fn empty(alloc: Global) -> Result<Entries, Fail> {
    let instance = small(alloc)?;
    Ok(Entries::new(alloc, &instance)?)
}

/// The trace in which an item lies at the lower left corner of the first plate, turned or not, in a strip and a band of these sizes.
fn lying(alloc: Global, turn: u32, width: u32, height: u32) -> Result<Trace, Memory> {
    let mut steps = Run::new(alloc);
    let step = Step {
        turn,
        b: width,
        d: height,
        ..Step::NONE
    };
    append(&mut steps, step)?;
    Ok(Trace { steps })
}

/// The loss of the entry in this place.
fn loss_at(entries: &Entries, place: usize) -> Option<u64> {
    entries.list().get(place).map(|entry| entry.loss)
}

/// The losses of the first three entries.
fn losses(entries: &Entries) -> [Option<u64>; 3] {
    [
        loss_at(entries, 0),
        loss_at(entries, 1),
        loss_at(entries, 2),
    ]
}

/// The answer where such a trace is offered.
fn offered(
    alloc: Global,
    entries: &mut Entries,
    turn: u32,
    width: u32,
    height: u32,
) -> Result<Offered, Memory> {
    let trace = lying(alloc, turn, width, height)?;
    entries.offer(&trace)
}

/// The answers where the item is offered as it lies, turned, as it lies once more, and turned in a strip that is too narrow for it.
fn four_offered(alloc: Global, entries: &mut Entries) -> Result<[Offered; 4], Memory> {
    Ok([
        offered(alloc, entries, 0, 500, 300)?,
        offered(alloc, entries, 1, 300, 500)?,
        offered(alloc, entries, 0, 500, 300)?,
        offered(alloc, entries, 1, 299, 500)?,
    ])
}

/// The four plans are answered and entered as wanted.
fn enters_as_wanted(rt: &impl Abort, alloc: Global, entries: &mut Entries) -> Result<(), Memory> {
    let answers = four_offered(alloc, entries)?;
    assert_eq!(rt;
        answers,
        [
            Offered::Entered,
            Offered::Entered,
            Offered::Late(813_000),
            Offered::Broken
        ]
    );
    assert_eq!(rt; losses(entries), [Some(1_455_000), Some(813_000), None]);
    Ok(())
}

#[test]
fn a_plan_is_entered_where_it_loses_less(rt: HostRuntime) -> Result<(), Fail> {
    let mut entries = empty(rt.alloc())?;
    Ok(enters_as_wanted(&rt, rt.alloc(), &mut entries)?)
}

/// Posts a trace, and then tells so.
fn post_first<R: Wait>(
    rt: &R,
    board: &Board,
    trace: &Trace,
    posted: &AtomicBool,
) -> Result<(), Memory> {
    board.post(rt, trace)?;
    posted.store(true, Ordering::SeqCst);
    Ok(())
}

/// Posts a trace once it is told that the other one was posted, or after 400,000,000 looks.
fn post_second<R: Wait>(
    rt: &R,
    board: &Board,
    trace: &Trace,
    posted: &AtomicBool,
) -> Result<(), Memory> {
    for _ in 0..400_000_000 {
        if posted.load(Ordering::SeqCst) {
            break;
        }
        spin_loop();
    }
    board.post(rt, trace)
}

/// Posts these traces, each from a thread of its own.
fn post_from_threads<R: Threads + Wait + Sync>(
    rt: &R,
    board: &Board,
    earlier: &Trace,
    later: &Trace,
) -> Result<(), Memory> {
    let posted = AtomicBool::new(false);
    let (first, second) = join(
        rt,
        || post_first(rt, board, earlier, &posted),
        || post_second(rt, board, later, &posted),
    );
    first?;
    second
}

/// Posts the item as it lies and then turned.
fn post_both<R: Threads + Wait + Sync>(rt: &R, alloc: Global, board: &Board) -> Result<(), Memory> {
    let unturned = lying(alloc, 0, 500, 300)?;
    let turned = lying(alloc, 1, 300, 500)?;
    post_from_threads(rt, board, &unturned, &turned)
}

#[test]
fn what_two_threads_post_is_entered(rt: HostRuntime) -> Result<(), Fail> {
    let board = Board::new(empty(rt.alloc())?);
    post_both(&rt, rt.alloc(), &board)?;
    let entries = board.close();
    assert_eq!(rt; losses(&entries), [Some(1_455_000), Some(813_000), None]);
    Ok(())
}
