//! Runs a book of cases of the two programs, which comes on standard input, and prints those that do not go as the book says.
//!
//! A case is a paragraph: a line `case` with its name, and then lines that begin with a word.
//!
//! | Line | What it says |
//! |---|---|
//! | `case NAME` | a case begins |
//! | `then NAME` | a case begins whose run is on the files that the run of the case before it left |
//! | `wrong NAME` | a case begins whose expectation is wrong on purpose: it is as it should be where the run differs from it |
//! | `then-wrong NAME` | a case begins that is both: its run is on the files that were left, and must differ |
//! | `words WORD WORD ..` | the words of the command line, one space between two; without this line there are none |
//! | `picture WORD WORD ..` | the same, of the second program, which draws |
//! | `file NAME` | a file before the run, with the text below; in a case that follows another one it is put over what was left |
//! | `fails files N N ..` | the calls of the files that fail; fetches and stores are counted together, from 0 |
//! | `fails sink N N ..` | the writes that fail, counted from 0 |
//! | `status NAME NAME ..` | how the run ends, by the name of a `Status`, or by several of which any will do; each case has it |
//! | `printed` | what is printed is the text below; a case without it prints nothing |
//! | `stored NAME` | this file has the text below after the run |
//! | `more` | behind the text above anything may stand |
//! | `repeat N` | the lines of the text that stand below, to the next word, stand N times |
//! | `\| LINE` | a line of a text: LINE and a line feed; `\|` alone is an empty line |
//! | `# ..`, and an empty line | nothing |
//!
//! Every file that is not named by `stored` is after the run as it was before, and there is no other. Each run prints by one
//! call at the most.
//!
//! A chain is a case that begins with `case` or `wrong`, and those behind it that begin with `then` or `then-wrong`, each on the
//! files that the one before it left.
//!
//! In words, names and texts `\s` is a space, `\t` a tab, `\r` a carriage return, `\n` a line feed, `\\` a backslash, `\{` a
//! brace, `\xHH` the byte of two hexadecimal digits, and `\e` nothing (so it is the empty word). A `\` at the end of a line of a
//! text takes its line feed away. In the lines of a text `{n}` is how often its block stood before, and `{3n+2}` is three times
//! that and two.
//!
//! In the lines of a text of a case that follows another one, `{loss}`, and any other word of small letters but `n`, is what the
//! first case of the chain printed behind this word and one space, to the end of the line, in the first line that begins so.
//! Where it printed no such line, the case is not as it should be.
#![tactic(auto)]

mod book;
mod comparing;
mod escapes;
mod expanding;
mod fault;
mod parsing;
mod report;
mod running;

use crate::book::Case;
use crate::parsing::read_book;
use crate::running::{Chain, differences_of};
use std::io;
use std::process::ExitCode;
use std::sync::Wait;
use std::thread::Threads;

/// Runs the cases one after another, and prints a paragraph for each that is not as it should be. Whether all are.
fn run_cases(
    rt: &(impl Print + AllocGlobal + Threads + Wait + Sync),
    cases: &[Case],
) -> anyhow::Result<bool> {
    let mut good: usize = 0;
    let mut chain = Chain::new(rt.alloc());
    for case in cases {
        let differences = differences_of(rt, rt.alloc(), case, &mut chain)?;
        if differences.is_empty() != case.heading.wrong {
            good = good.saturating_add(1);
        } else {
            rt.print(report::paragraph(rt.alloc(), case, differences.as_slice())?)?;
        }
    }
    println!(rt; "{} cases, {good} as they should be", cases.len())?;
    Ok(good == cases.len())
}

fn main(rt: HostRuntime) -> anyhow::Result<ExitCode> {
    let text = io::read_to_string(rt.alloc(), rt.reader())?;
    let cases = read_book(rt.alloc(), text.as_str())?;
    if run_cases(&rt, cases.as_slice())? {
        Ok(ExitCode::SUCCESS)
    } else {
        Ok(ExitCode::FAILURE)
    }
}
