//! The last steps of a run: what a reply stores, and what it prints.

ghost use Rattle.std.specs.Prelude.{◌≡◌, ◌≢◌, ◌⊎◌, map, OnOk, IsErrOf};
ghost use Rattle.glass_io.specs.Told.{CountsStore};
ghost use Rattle.glass_io.specs.declared.files.Trouble.TheVariants.{Failed, Memory as OutOfMemory};
ghost use Rattle.command_line.specs.Grammar.{stored_as};
ghost use Rattle.command_line.specs.Lines.{line_in};
ghost use Rattle.run_frame.specs.Deliveries.{Delivers, Ends};
ghost use Rattle.run_frame.specs.Forms.{answer_in, store_in};
ghost use Rattle.run_frame.specs.Runs.{CutShort, Stands, StandsInPart, world};

use crate::reply::{Output, Reply};
use crate::status::Status;
use command_line::CommandLine;
use glass_io::{Files, Sink, Trouble};

/// Stores outputs one after another, each under the name that the line has for what it is.
fn store_all<F: Files, V>(
    files: &mut F,
    line: &CommandLine<'_, V>,
    outputs: &[Output],
) -> Result<(), Trouble>
    ensures stands { OnOk result (Stands (map (store_in (stored_as (line_in line.now))) outputs.now)
        (F.shelf files.old).contents (F.shelf files.new).contents) }
    ensures failed { IsErrOf result Failed → CutShort
        (map (store_in (stored_as (line_in line.now))) outputs.now) (F.shelf files.old).contents
        (F.shelf files.new).contents }
    ensures memory { IsErrOf result OutOfMemory → StandsInPart
        (map (store_in (stored_as (line_in line.now))) outputs.now) (F.shelf files.old).contents
        (F.shelf files.new).contents }
    ensures counts { CountsStore (F.shelf files.old) (F.shelf files.new) result }
    ensures keeps { F.reliable files.old → F.reliable files.new × (IsErrOf result Failed → ⊥) }
{
    for output in outputs {
        let name = line.stored_as(output.product);
        files.store(name, output.bytes.as_slice())?;
    }
    Ok(())
}

/// How a run ends whose last step is to print these lines, and which then has this status.
pub fn print<S: Sink>(out: &mut S, lines: &str, status: Status) -> Status
    ensures ends { Ends lines.now status (S.paper out.old) (S.paper out.new) result }
    ensures keeps { S.reliable out.old → result ≢ Status.WriteFault ⊎ (status ≡ Status.WriteFault) }
{
    match out.write(lines.as_bytes()) {
        Ok(()) => status,
        Err(Trouble::Failed) => Status::WriteFault,
        Err(Trouble::Memory) => Status::Memory,
    }
}

/// Stores what a reply has to store, and then prints its lines.
pub fn deliver<F: Files, S: Sink, V>(
    files: &mut F,
    out: &mut S,
    line: &CommandLine<'_, V>,
    reply: &Reply,
) -> Status
    ensures delivers { Delivers (answer_in (stored_as (line_in line.now)) reply.now)
        (world (F.shelf files.old) (S.paper out.old))
        (world (F.shelf files.new) (S.paper out.new)) result }
    ensures keeps { F.reliable files.old → S.reliable out.old → result ≢ Status.WriteFault }
{
    match store_all(files, line, reply.outputs.as_slice()) {
        Ok(()) => print(out, reply.lines.as_str(), reply.status),
        Err(Trouble::Failed) => Status::WriteFault,
        Err(Trouble::Memory) => Status::Memory,
    }
}
