//! What a program does with words that are no command line.

ghost use Rattle.std.specs.Prelude.{◌≢◌};
ghost use Rattle.glass_io.specs.Told.{Shelf};
ghost use Rattle.run_frame.specs.Runs.{OtherRun, world};

use crate::delivering::print;
use crate::lines::USAGE_LINE;
use crate::status::Status;
use command_line::{Program, Question, Verb, answer_to, picture_usage_line, usage_line};
use glass_base::Memory;
use glass_io::Sink;
use std::alloc::Global;
use std::io::Eprint;

/// Answers the question that words ask of a program, or tells that they are neither a command line nor a question.
pub fn answer_otherwise<S: Sink>(
    alloc: Global,
    out: &mut S,
    program: Program,
    asked: Option<Question>,
) -> Status
    ensures runs { (shelf : Shelf) → OtherRun program asked (world shelf (S.paper out.old))
        (world shelf (S.paper out.new)) result }
    ensures unread { result ≢ Status.ReadFault }
    ensures keeps { S.reliable out.old → result ≢ Status.WriteFault }
{
    match asked {
        None => print(out, USAGE_LINE, Status::Usage),
        Some(question) => match answer_to(alloc, program, question) {
            Ok(text) => print(out, text.as_str(), Status::Done),
            Err(_) => Status::Memory,
        },
    }
}

/// What is told of words that are wrong: the line of the command that they begin with, or all that there is. The program
/// that draws has one line, with which no word begins.
fn usage_text(alloc: Global, program: Program, command: Option<Verb>) -> Result<String, Memory> {
    let line = match (program, command) {
        (Program::Picture, _) => picture_usage_line(alloc)?,
        (Program::Glass, Some(verb)) => usage_line(alloc, verb)?,
        (Program::Glass, None) => return answer_to(alloc, program, Question::Help),
    };
    Ok(format!(in alloc; "usage: {line}\n")?)
}

/// Tells on standard error which words are right: those of the command of `glass` that wrong words begin with, or of all
/// its commands, or those of the program that draws. That they cannot be told changes nothing of a run.
pub fn tell_usage(rt: &impl Eprint, alloc: Global, program: Program, command: Option<Verb>) {
    if let Ok(text) = usage_text(alloc, program, command) {
        let _told = eprint!(rt; "{text}");
    }
}
