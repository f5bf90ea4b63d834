//! A whole sheet on the table.

ghost use Rattle.std.specs.Prelude.{◌≡◌, ◌<◌, ◌^◌, IfOk};
ghost use Rattle.cut_sheet.specs.Areas.{MakesUp, made_area};
ghost use Rattle.cut_sheet.specs.Replays.{ended as ended_of, made_items, replayed};
ghost use Rattle.cut_sheet.specs.Table.{why_number};

use crate::instr::{Instr, Made, Stuck};
use crate::table::Table;
use crate::why::Why;
use glass_base::{Instance, Memory, Run};
use std::alloc::Global;

/// Where a table gets stuck.
fn stuck(line: u64, why: Why) -> Stuck
    ensures { result ≡ record { line = line; why = why_number why } }
{
    Stuck {
        line,
        why: why.number(),
    }
}

/// What there is once the last of so many lines is done.
fn ended(lines: u64, table: Table) -> Result<Run<Made>, Stuck>
    ensures { made_items result ≡ ended_of lines table.made table.pile }
{
    if table.is_bare() {
        Ok(table.into_made())
    } else {
        Err(stuck(lines, Why::Kept))
    }
}

/// The pieces that leave the table, in their order, where it can follow the sheet to the end; else the line of the first instruction that it
/// cannot follow, and why. A sheet that leaves a piece on the table is stuck at its last line. The pieces make up the plates that were loaded.
///
/// The lines are those of the sheet's text: the first one is the head, and each instruction has one.
pub fn replay(
    alloc: Global,
    instance: &Instance,
    sheet: &[Instr],
) -> Result<Result<Run<Made>, Stuck>, Memory>
    ensures made { IfOk result (λ r. made_items r ≡ replayed instance.now sheet.now) }
    ensures whole { IfOk result (λ r. IfOk r (λ made. MakesUp instance.now made.items)) }
    ensures small { IfOk result (λ r. IfOk r (λ made. made_area made.items < 2 ^ 64)) }
{
    let _params = instance.params();
    let mut table = Table::new(alloc);
    let mut lines = 1u64;
    for instr in sheet {
        if let Err(why) = table.follow(instance, *instr)? {
            return Ok(Err(stuck(lines + 1, why)));
        }
        lines += 1;
    }
    Ok(ended(lines, table))
}
