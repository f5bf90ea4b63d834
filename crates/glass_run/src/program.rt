//! What the program does behind its runtime.

ghost use Rattle.std.specs.Prelude.{◌≡◌, ℕ, List, [], IfErr, IfOk, map};
ghost use Rattle.std.specs.String.{string_bytes};
ghost use Rattle.glass_run.specs.Commands.{Answers};
ghost use Rattle.run_frame.specs.Exits.{Exits};
ghost use Rattle.command_line.specs.Grammar.{line_of};
ghost use Rattle.command_line.specs.Manual.{question_of};
ghost use Rattle.command_line.specs.declared.questions.Program.TheVariants as program;
ghost use Rattle.run_frame.specs.Runs.{World, world};

use crate::run::glass;
use crate::telling::TellingGate;
use box_workers::Gate;
use command_line::{Program, Verb, verb_named};
use glass_io::{Files, Sink, StdFiles, StdSink};
use run_frame::words::{words_given, words_taken};
use run_frame::{Status, tell_usage};
use std::alloc::Global;
use std::env::Env;
use std::io::Eprint;
use std::sync::Wait;
use std::thread::Threads;
use std::time::Clock;
use std::{io, rt};
use table_notes::NotingFiles;

/// The code that a program ends with that was given these words: that of the status of their run. Words of which one
/// is not text are taken as none, which are as wrong.
pub fn exit_code<R: Threads + Wait + Sync, F: Files, S: Sink, G: Gate + Sync>(
    rt: &R,
    alloc: Global,
    words: io::Result<Vec<String>>,
    files: &mut F,
    out: &mut S,
    gate: &G,
) -> u8
    ensures given { IfOk words (λ given. let said = map string_bytes given.items in
        Exits Answers program.Glass (line_of said) (question_of said)
        (world (F.shelf files.old) (S.paper out.old))
        (world (F.shelf files.new) (S.paper out.new)) result) }
    ensures wrong { IfErr words (λ _. Exits Answers program.Glass (line_of []) (question_of [])
        (world (F.shelf files.old) (S.paper out.old))
        (world (F.shelf files.new) (S.paper out.new)) result) }
{
    let status = match words_taken(&words) {
        Some(words) => glass(rt, alloc, words, files, out, gate),
        None => Status::Memory,
    };
    status.code()
}

/// The command that these words begin with, if they begin with one.
fn command(words: &io::Result<Vec<String>>) -> Option<Verb> {
    let word = words_taken(words).and_then(|words| words.first())?;
    verb_named(word.as_str())
}

/// Runs the words of `glass` over the files of the system and standard output, and gives the code that the program ends
/// with. On standard error it tells which words are right where they are wrong, which table may lack its header, and,
/// where that is a terminal, how far a long search is.
pub fn run_program<
    R: Env + Print + Eprint + Clock + rt::Files + AllocGlobal + Threads + Wait + Sync,
>(rt: &R, terminal: bool) -> u8
    ensures { (words : List (List ℕ)) × (old : World) × (new : World)
        × Exits Answers program.Glass (line_of words) (question_of words) old new result }
{
    let alloc = rt.alloc();
    let mut files = NotingFiles {
        rt,
        alloc,
        files: StdFiles::new(rt, alloc),
    };
    let mut out = StdSink::new(rt);
    let words = words_given(rt);
    let command = command(&words);
    let gate = TellingGate::new(rt, terminal);
    let code = exit_code(rt, alloc, words, &mut files, &mut out, &gate);
    if code == Status::Usage.code() {
        tell_usage(rt, alloc, Program::Glass, command);
    }
    code
}
