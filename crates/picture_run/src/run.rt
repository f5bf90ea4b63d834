//! The call of the program that draws.

ghost use Rattle.std.specs.Prelude.{◌≡◌, ◌≢◌, ℕ, List, map, IfOk, IfErr, IfSome};
ghost use Rattle.std.specs.String.{string_bytes};
ghost use Rattle.glass_io.specs.Told.{SameContents};
ghost use Rattle.command_line.specs.Grammar.{files_of, picture_line_of, stored_as};
ghost use Rattle.command_line.specs.Lines.{line_in};
ghost use Rattle.command_line.specs.Manual.{question_of};
ghost use Rattle.run_frame.specs.Forms.{CountsFetches, OnFault, answer_in, texts_in};
ghost use Rattle.run_frame.specs.Runs.{LineRun, RunsTo, world};
ghost use Rattle.run_frame.specs.Texts.{Reaches};
ghost use Rattle.picture_run.specs.Pictures.{Answers, DrawsTexts};

use crate::drawing::draw_text;
use command_line::{CommandLine, Product, Program, picture_line, question_asked};
use glass_base::{Memory, Role};
use glass_io::{Files, Sink};
use run_frame::delivering::print;
use run_frame::{
    NoReply, Reply, Status, Text, answer_otherwise, deliver, fetch_files, read_fault_line,
    reply_at, reply_with, text_of_role, text_or_empty,
};
use run_plans::{Grounded, instance_of};
use std::alloc::Global;

/// The reply to the texts of the files: to the plan of the instance that they say, or to the first text that is
/// refused.
fn reply_to_texts(alloc: Global, texts: &[Text]) -> Result<Reply, Memory>
    ensures { IfOk result (λ r. (name : Product → List ℕ)
        → DrawsTexts (name Product.Picture) (texts_in texts.now) (answer_in name r)) }
{
    match instance_of(alloc, texts, text_of_role(texts, Role::Defects)) {
        Ok(instance) => {
            let grounded = Grounded::new(alloc, instance)?;
            draw_text(alloc, grounded.ground(), text_or_empty(texts, Role::Plan))
        }
        Err(stop) => reply_at(alloc, stop),
    }
}

/// The reply of a line to what stands under the names of its files.
fn reply_of<F: Files>(
    alloc: Global,
    files: &mut F,
    line: &CommandLine<'_, ()>,
) -> Result<Reply, NoReply>
    ensures same { SameContents (F.shelf files.old).contents (F.shelf files.new).contents }
    ensures reply { IfOk result (λ r. IfSome (F.shelf files.old).contents
        (λ contents. Answers contents (line_in line.now)
        (answer_in (stored_as (line_in line.now)) r))) }
    ensures reached { IfErr result (OnFault (λ of.
        IfSome (F.shelf files.old).contents
        (λ contents. Reaches contents of (files_of (line_in line.now))))) }
    ensures faults { CountsFetches (F.shelf files.old) (F.shelf files.new) result }
    ensures keeps { F.reliable files.old → F.reliable files.new × IfErr result (OnFault (λ _. ⊥)) }
{
    match fetch_files(alloc, files, line)? {
        Ok(texts) => {
            let reply = reply_to_texts(alloc, texts.as_slice())?;
            Ok(reply)
        }
        Err(notice) => Ok(reply_with(alloc, notice)),
    }
}

/// Runs a line of the program that draws.
fn run_line<F: Files, S: Sink>(
    alloc: Global,
    line: &CommandLine<'_, ()>,
    files: &mut F,
    out: &mut S,
) -> Status
    ensures runs { LineRun Answers (line_in line.now)
        (world (F.shelf files.old) (S.paper out.old))
        (world (F.shelf files.new) (S.paper out.new)) result }
    ensures no_fault { F.reliable files.old → S.reliable out.old → (result ≢ Status.ReadFault)
        × (result ≢ Status.WriteFault) }
{
    match reply_of(alloc, files, line) {
        Ok(reply) => deliver(files, out, line, &reply),
        Err(NoReply::Memory) => Status::Memory,
        Err(NoReply::ReadFault(of)) => print(out, read_fault_line(of), Status::ReadFault),
    }
}

/// Draws a plan, the words being those after the name of the program that draws: `BATCH DEFECTS PLAN OUT`, and behind
/// them the options `--params=FILE` and `--plates=FILE`, as in the line of `judge`. `--help`, `-h` and `--version`
/// are answered as by `glass`.
///
/// It judges the plan that PLAN says as `judge` does, stores a picture of it as OUT, whether it is lawful or not, and
/// prints the loss of a lawful plan, or the first rule that it breaks. A text that is no plan is refused as `judge`
/// refuses it, and so are all other files.
///
/// It starts no thread and waits for none.
pub fn glass_picture<F: Files, S: Sink>(
    alloc: Global,
    words: &[String],
    files: &mut F,
    out: &mut S,
) -> Status
    // what is stored, printed and counted, by the status
    ensures runs { let said = map string_bytes words.now in
        RunsTo Answers Program.Picture (picture_line_of said) (question_of said)
        (world (F.shelf files.old) (S.paper out.old))
        (world (F.shelf files.new) (S.paper out.new)) result }

    // where nothing fails there is no fault
    ensures no_fault { F.reliable files.old → S.reliable out.old → (result ≢ Status.ReadFault)
        × (result ≢ Status.WriteFault) }
{
    match picture_line(words) {
        Some(line) => run_line(alloc, &line, files, out),
        None => answer_otherwise(alloc, out, Program::Picture, question_asked(words)),
    }
}
