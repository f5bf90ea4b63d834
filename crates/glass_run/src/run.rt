//! The top call.

ghost use Rattle.std.specs.Prelude.{◌≡◌, ◌≢◌, map, IfOk, IfErr, IfSome};
ghost use Rattle.std.specs.String.{string_bytes};
ghost use Rattle.glass_io.specs.Told.{Contents, SameContents};
ghost use Rattle.command_line.specs.Grammar.{files_of, line_of, stored_as};
ghost use Rattle.command_line.specs.Lines.{line_in};
ghost use Rattle.command_line.specs.Manual.{question_of};
ghost use Rattle.glass_run.specs.Commands.{Answers, AnswersInstance, Searches};
ghost use Rattle.run_frame.specs.Runs.{LineRun, RunsTo, world};
ghost use Rattle.run_frame.specs.Texts.{Reaches};
ghost use Rattle.glass_run.specs.inner.Asked.{IsAskedOf, MaySearch};
ghost use Rattle.run_frame.specs.Forms.{CountsFetches, OnFault, answer_in, texts_in};

use crate::answering::{Asked, asked_of_texts};
use crate::telling::tell_misfits;
use box_workers::Gate;
use command_line::{CommandLine, Lead, Program, Verb, line_named, question_asked};
use defect_map::Ground;
use glass_base::{Memory, Role};
use glass_io::{Files, Sink};
use run_frame::delivering::print;
use run_frame::{
    NoReply, Reply, Status, Text, answer_otherwise, deliver, fetch_files, read_fault_line,
    reply_with, text_of_role, text_or_empty,
};
use run_search::{Options, Workforce, freeze_text, plan_instance, resume_texts};
use std::alloc::Global;
use std::sync::Wait;
use std::thread::Threads;

/// The reply of a command that searches to its instance.
fn reply_by_search<R: Threads + Wait + Sync, G: Gate + Sync>(
    rt: &R,
    alloc: Global,
    line: &CommandLine<'_>,
    texts: &[Text],
    ground: Ground<'_>,
    gate: &G,
) -> Result<Reply, Memory>
    requires { Searches (line_in line.now).verb }
    ensures { let said = line_in line.now in IfOk result
        (λ r. AnswersInstance said.verb said (texts_in texts.now) ground.entry.instance.now
        (answer_in (stored_as said) r)) }
{
    let options = Options::of(line, ground.instance.items().len());
    let workforce = Workforce { rt, gate, options };
    tell_misfits(ground.instance, gate);
    let plan = text_of_role(texts, Role::Plan);
    match line.verb {
        Verb::Plan => plan_instance(alloc, &workforce, ground, plan),
        Verb::Gen => plan_instance(alloc, &workforce, ground, plan),
        Verb::Resume => {
            let cert = text_or_empty(texts, Role::Cert);
            resume_texts(alloc, &workforce, ground, plan, cert)
        }
        Verb::Freeze => {
            let plan = text_or_empty(texts, Role::Plan);
            let k = line.lead(Lead::Frozen);
            freeze_text(alloc, &workforce, ground, plan, k)
        }
        Verb::Draft | Verb::Judge | Verb::Verify | Verb::Convert | Verb::Sheet | Verb::Replay =>
            unreachable!(),
    }
}

/// What a command line comes to with what stands under the names of its files, as far as that takes no search.
fn asked_of_files<R: Threads + Sync, F: Files, G: Gate>(
    rt: &R,
    alloc: Global,
    files: &mut F,
    line: &CommandLine<'_>,
    gate: &G,
) -> Result<Asked, NoReply>
    ensures same { SameContents (F.shelf files.old).contents (F.shelf files.new).contents }
    ensures asked { IfOk result (λ asked. IfSome (F.shelf files.old).contents
        (λ contents. IsAskedOf contents (line_in line.now) asked)) }
    ensures searches { IfOk result (MaySearch (line_in line.now)) }
    ensures reached { IfErr result (OnFault (λ of.
        IfSome (F.shelf files.old).contents
        (λ contents. Reaches contents of (files_of (line_in line.now))))) }
    ensures faults { CountsFetches (F.shelf files.old) (F.shelf files.new) result }
    ensures keeps { F.reliable files.old → F.reliable files.new × IfErr result (OnFault (λ _. ⊥)) }
{
    match fetch_files(alloc, files, line)? {
        Ok(texts) => Ok(asked_of_texts(rt, alloc, line, texts, gate)?),
        Err(notice) => Ok(Asked::Reply(reply_with(alloc, notice))),
    }
}

/// The reply to what a command came to.
fn reply_to_asked<R: Threads + Wait + Sync, G: Gate + Sync>(
    rt: &R,
    alloc: Global,
    line: &CommandLine<'_>,
    asked: Asked,
    gate: &G,
) -> Result<Reply, Memory>
    requires { MaySearch (line_in line.now) asked }
    ensures { let said = line_in line.now in IfOk result (λ r. (contents : Contents)
        → IsAskedOf contents said asked → Answers contents said (answer_in (stored_as said) r)) }
{
    match asked {
        Asked::Reply(reply) => Ok(reply),
        Asked::Search { grounded, texts } => {
            reply_by_search(rt, alloc, line, texts.as_slice(), grounded.ground(), gate)
        }
    }
}

/// The reply of a command line to what stands under the names of its files.
fn reply_of<R: Threads + Wait + Sync, F: Files, G: Gate + Sync>(
    rt: &R,
    alloc: Global,
    files: &mut F,
    line: &CommandLine<'_>,
    gate: &G,
) -> Result<Reply, NoReply>
    ensures same { SameContents (F.shelf files.old).contents (F.shelf files.new).contents }
    ensures reply { IfOk result (λ r. IfSome (F.shelf files.old).contents
        (λ contents. Answers contents (line_in line.now)
        (answer_in (stored_as (line_in line.now)) r))) }
    ensures reached { IfErr result (OnFault (λ of.
        IfSome (F.shelf files.old).contents
        (λ contents. Reaches contents of (files_of (line_in line.now))))) }
    ensures faults { CountsFetches (F.shelf files.old) (F.shelf files.new) result }
    ensures keeps { F.reliable files.old → F.reliable files.new × IfErr result (OnFault (λ _. ⊥)) }
{
    let asked = asked_of_files(rt, alloc, files, line, gate)?;
    Ok(reply_to_asked(rt, alloc, line, asked, gate)?)
}

/// Runs a command line.
fn run_line<R: Threads + Wait + Sync, F: Files, S: Sink, G: Gate + Sync>(
    rt: &R,
    alloc: Global,
    line: &CommandLine<'_>,
    files: &mut F,
    out: &mut S,
    gate: &G,
) -> Status
    ensures runs { LineRun Answers (line_in line.now)
        (world (F.shelf files.old) (S.paper out.old))
        (world (F.shelf files.new) (S.paper out.new)) result }
    ensures no_fault { F.reliable files.old → S.reliable out.old → (result ≢ Status.ReadFault)
        × (result ≢ Status.WriteFault) }
{
    match reply_of(rt, alloc, files, line, gate) {
        Ok(reply) => deliver(files, out, line, &reply),
        Err(NoReply::Memory) => Status::Memory,
        Err(NoReply::ReadFault(role)) => print(out, read_fault_line(role), Status::ReadFault),
    }
}

/// Runs a command line, its words being those after the program's name. `--help` and `-h`, alone, print the commands
/// and options, `--version`, alone, the version.
///
/// `draft` stores the plan of the draft of a batch, on plates without defects. `plan` searches for a plan that loses
/// little, closing or splitting as many boxes as `--budget=` says at the most, with as many workers as `--workers=`
/// says; it stores the best plan and the certificate of the search, and prints how the search ended, the loss, the
/// bound on the loss of every lawful plan, the number of plates, and how many boxes were handled and are open; with
/// `--watch` also the losses of the plans that it came by; with `--fronts` it begins with what fronts show, and with
/// `--effort` with what more work finds. `gen` does the same with an instance that is drawn from numbers. `resume`
/// goes on from a certificate, `freeze` plans anew what stands behind the first plates of a plan. `judge` judges
/// anybody's solution file: it prints the loss of a lawful plan, or the first rule that the plan breaks. `verify`
/// checks a plan and a certificate, and `convert` names the causes in one. `sheet` stores by which instructions a
/// table cuts a plan, and `replay` follows such instructions.
///
/// The parameters are the challenge's, or those of the file that `--params=FILE` names; each plate is as wide as they
/// say, or as the file of `--plates=FILE` says of it. All is computed before anything is stored, and a run writes
/// once at the most. A refusal stores nothing and prints its one line.
///
/// Only the commands that search, `plan`, `gen`, `resume` and `freeze`, and those that check a certificate, `verify`
/// and `convert`, start threads and may wait for them.
pub fn glass<R: Threads + Wait + Sync, F: Files, S: Sink, G: Gate + Sync>(
    rt: &R,
    alloc: Global,
    words: &[String],
    files: &mut F,
    out: &mut S,
    gate: &G,
) -> Status
    // what is stored, printed and counted, by the status
    ensures runs { let said = map string_bytes words.now in
        RunsTo Answers Program.Glass (line_of said) (question_of said)
        (world (F.shelf files.old) (S.paper out.old))
        (world (F.shelf files.new) (S.paper out.new)) result }

    // where nothing fails there is no fault
    ensures no_fault { F.reliable files.old → S.reliable out.old → (result ≢ Status.ReadFault)
        × (result ≢ Status.WriteFault) }
{
    match line_named(words) {
        Some(line) => run_line(rt, alloc, &line, files, out, gate),
        None => answer_otherwise(alloc, out, Program::Glass, question_asked(words)),
    }
}
