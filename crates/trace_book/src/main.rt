//! Runs a book of traces, which comes on standard input, and prints the cases that do not go as the book says. The head of
//! `stdin` explains what stands in a book.
#![tactic(auto)]

mod answering;
mod book;
mod bounds;
mod boxes;
mod steps;
mod telling;
mod vars;

use crate::answering::answer;
use crate::book::{heading, is_wrong, read_case};
use std::alloc::Global;
use std::io;
use std::process::ExitCode;

/// What is to be printed of a case that can be run, if it is not as it should be.
fn difference(alloc: Global, heading: &str, paragraph: &str) -> anyhow::Result<Option<String>> {
    let wrong = is_wrong(heading)?;
    let case = read_case(alloc, heading, paragraph)?;
    let found = answer(alloc, &case)?;
    if case.is_as_said(found.as_str()) != wrong {
        Ok(None)
    } else if wrong {
        Ok(Some(String::from_str(alloc, "nothing differs\n")?))
    } else {
        Ok(Some(found))
    }
}

/// What is to be printed of a case, if it is not as it should be. A case that cannot be run never is.
fn complaint(alloc: Global, heading: &str, paragraph: &str) -> anyhow::Result<Option<String>> {
    match difference(alloc, heading, paragraph) {
        Ok(difference) => Ok(difference),
        Err(error) => Ok(Some(format!(in alloc; "it cannot be run: {error}\n")?)),
    }
}

/// Runs the cases one after another, and adds those that are not as they should be to the report. Whether all are.
fn run_cases(alloc: Global, report: &mut String, book: &str) -> anyhow::Result<bool> {
    let mut cases: usize = 0;
    let mut good: usize = 0;
    for paragraph in book.split("\n\n") {
        if let Some(heading) = heading(paragraph) {
            cases = cases.saturating_add(1);
            match complaint(alloc, heading, paragraph)? {
                None => good = good.saturating_add(1),
                Some(found) => writeln!(report, "{heading}\n{found}")?,
            }
        }
    }
    writeln!(report, "{cases} cases, {good} as they should be")?;
    Ok(good == cases)
}

fn main(rt: HostRuntime) -> anyhow::Result<ExitCode> {
    let book = io::read_to_string(rt.alloc(), rt.reader())?;
    let mut report = String::new(rt.alloc());
    let good = run_cases(rt.alloc(), &mut report, book.as_str())?;
    rt.print(report)?;
    if good {
        Ok(ExitCode::SUCCESS)
    } else {
        Ok(ExitCode::FAILURE)
    }
}
