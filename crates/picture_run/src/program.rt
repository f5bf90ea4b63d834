//! What the program that draws does behind its runtime.

ghost use Rattle.std.specs.Prelude.{◌≡◌, ℕ, List, [], IfErr, IfOk, map};
ghost use Rattle.std.specs.String.{string_bytes};
ghost use Rattle.command_line.specs.Grammar.{picture_line_of};
ghost use Rattle.command_line.specs.Manual.{question_of};
ghost use Rattle.command_line.specs.declared.questions.Program.TheVariants as program;
ghost use Rattle.run_frame.specs.Exits.{Exits};
ghost use Rattle.run_frame.specs.Runs.{World, world};
ghost use Rattle.picture_run.specs.Pictures.{Answers};

use crate::run::glass_picture;
use command_line::Program;
use glass_io::{Files, Sink, StdFiles, StdSink};
use run_frame::words::{words_given, words_taken};
use run_frame::{Status, tell_usage};
use std::alloc::Global;
use std::env::Env;
use std::io::Eprint;
use std::{io, rt};
use table_notes::NotingFiles;

/// The code that the program that draws ends with that was given these words: that of the status of their run. Words
/// of which one is not text are taken as none, which are as wrong.
pub fn exit_code<F: Files, S: Sink>(
    alloc: Global,
    words: io::Result<Vec<String>>,
    files: &mut F,
    out: &mut S,
) -> u8
    ensures given { IfOk words (λ given. let said = map string_bytes given.items in
        Exits Answers program.Picture (picture_line_of said) (question_of said)
        (world (F.shelf files.old) (S.paper out.old))
        (world (F.shelf files.new) (S.paper out.new)) result) }
    ensures wrong { IfErr words (λ _. Exits Answers program.Picture (picture_line_of [])
        (question_of [])
        (world (F.shelf files.old) (S.paper out.old))
        (world (F.shelf files.new) (S.paper out.new)) result) }
{
    let ended = match words_taken(&words) {
        Some(words) => glass_picture(alloc, words, files, out),
        None => Status::Memory,
    };
    ended.code()
}

/// Runs the words of the program that draws over the files of the system and standard output, and gives the code that
/// the program ends with. On standard error it tells which words are right where they are wrong, and which table may
/// lack its header.
pub fn run_picture<R: Env + Print + Eprint + rt::Files + AllocGlobal>(rt: &R) -> u8
    ensures { (words : List (List ℕ)) × (old : World) × (new : World)
        × Exits Answers program.Picture (picture_line_of words) (question_of words) old new result }
{
    let alloc = rt.alloc();
    let mut files = NotingFiles {
        rt,
        alloc,
        files: StdFiles::new(rt, alloc),
    };
    let mut out = StdSink::new(rt);
    let code = exit_code(alloc, words_given(rt), &mut files, &mut out);
    if code == Status::Usage.code() {
        tell_usage(rt, alloc, Program::Picture, None);
    }
    code
}
