//! Reading a book.

use crate::book::{Case, Heading, NamedText, Program, Text};
use crate::escapes::{put_line, word_of};
use crate::fault::{BadBook, Fault};
use glass_run::Status;
use std::alloc::Global;

/// The text to which the next line of a text belongs.
#[derive(Clone, Copy)]
enum Place {
    Nowhere,
    /// The last file of the case.
    File,
    Printed,
    /// The last stored file of the case.
    Stored,
}

/// A book that is being read.
#[derive(Drop)]
struct Reading {
    alloc: Global,
    cases: Vec<Case>,
    place: Place,
}

/// The status of this name.
fn status_named(name: &str) -> Result<Status, Fault> {
    match name {
        "Optimal" => Ok(Status::Optimal),
        "Stopped" => Ok(Status::Stopped),
        "Infeasible" => Ok(Status::Infeasible),
        "Usage" => Ok(Status::Usage),
        "ReadFault" => Ok(Status::ReadFault),
        "Absent" => Ok(Status::Absent),
        "TooLong" => Ok(Status::TooLong),
        "BadInput" => Ok(Status::BadInput),
        "Memory" => Ok(Status::Memory),
        "Unlawful" => Ok(Status::Unlawful),
        "Refused" => Ok(Status::Refused),
        "NoDraft" => Ok(Status::NoDraft),
        "WriteFault" => Ok(Status::WriteFault),
        "Done" => Ok(Status::Done),
        _ => Err(Fault::Status),
    }
}

/// The statuses that are written so, one space between two.
fn statuses_of(alloc: Global, written: &str) -> Result<Vec<Status>, Fault> {
    let mut statuses = Vec::new(alloc);
    for name in written.split(' ') {
        statuses.push(status_named(name)?)?;
    }
    Ok(statuses)
}

/// The number that is written so.
fn number_of(written: &str) -> Result<u64, Fault> {
    written.parse::<u64>().map_err(|_| Fault::Number)
}

/// The words that are written so, one space between two.
fn words_of(alloc: Global, written: &str) -> Result<Vec<String>, Fault> {
    let mut words = Vec::new(alloc);
    if written.is_empty() {
        return Ok(words);
    }
    for word in written.split(' ') {
        words.push(word_of(alloc, word)?)?;
    }
    Ok(words)
}

/// The numbers that are written so, one space between two.
fn numbers_of(alloc: Global, written: &str) -> Result<Vec<u64>, Fault> {
    let mut numbers = Vec::new(alloc);
    for number in written.split(' ') {
        numbers.push(number_of(number)?)?;
    }
    Ok(numbers)
}

/// A text of this name, of which no line has been read.
fn named(alloc: Global, name: &str) -> Result<NamedText, Fault> {
    Ok(NamedText {
        name: word_of(alloc, name)?,
        text: Text::new(alloc),
    })
}

/// Puts a line behind the last block of a text, and the words in its braces behind `told`.
fn put_line_of_text(
    alloc: Global,
    text: &mut Text,
    line: &str,
    told: &mut Vec<String>,
) -> Result<(), Fault> {
    if text.blocks.is_empty() {
        text.begin_block(alloc, 1)?;
    }
    match text.blocks.last_mut() {
        None => Ok(()),
        Some(block) => put_line(alloc, block, line, told),
    }
}

/// What a line of the book adds to a text.
#[derive(Clone, Copy)]
enum Addition<'a> {
    Line(&'a str),
    /// From here on the lines stand so often.
    Repeat(u64),
    /// Behind the lines anything may stand.
    More,
}

impl Addition<'_> {
    /// Puts it into a text, and the words in braces behind `told`.
    fn put(&self, alloc: Global, text: &mut Text, told: &mut Vec<String>) -> Result<(), Fault> {
        match self {
            Addition::Line(line) => put_line_of_text(alloc, text, line, told),
            Addition::Repeat(times) => Ok(text.begin_block(alloc, *times)?),
            Addition::More => {
                text.more = true;
                Ok(())
            }
        }
    }
}

/// Adds to the text at this place of a case.
fn add_to_text(
    alloc: Global,
    case: &mut Case,
    place: Place,
    addition: Addition,
) -> Result<(), Fault> {
    match place {
        Place::Nowhere => Err(Fault::NoText),
        Place::Printed => addition.put(alloc, &mut case.printed, &mut case.told),
        Place::File => match case.files.last_mut() {
            None => Err(Fault::NoText),
            Some(file) => addition.put(alloc, &mut file.text, &mut case.told),
        },
        Place::Stored => match case.stored.last_mut() {
            None => Err(Fault::NoText),
            Some(file) => addition.put(alloc, &mut file.text, &mut case.told),
        },
    }
}

/// A case that follows none has no words in braces.
fn check_told(case: &Case) -> Result<(), Fault> {
    if case.heading.follows || case.told.is_empty() {
        Ok(())
    } else {
        Err(Fault::FollowsNone)
    }
}

/// Takes which calls fail.
fn take_fails(alloc: Global, case: &mut Case, rest: &str) -> Result<(), Fault> {
    match rest.split_once(' ') {
        Some(("files", numbers)) => case.failing_calls = numbers_of(alloc, numbers)?,
        Some(("sink", numbers)) => case.failing_writes = numbers_of(alloc, numbers)?,
        _ => return Err(Fault::Keyword),
    }
    Ok(())
}

/// Takes a line of a case that begins with this word, and says to which text the lines below belong.
fn take_keyword(alloc: Global, case: &mut Case, keyword: &str, rest: &str) -> Result<Place, Fault> {
    match keyword {
        "words" => case.words = words_of(alloc, rest)?,
        "picture" => {
            case.program = Program::Picture;
            case.words = words_of(alloc, rest)?;
        }
        "fails" => take_fails(alloc, case, rest)?,
        "status" => case.statuses = statuses_of(alloc, rest)?,
        "printed" if rest.is_empty() => return Ok(Place::Printed),
        "file" => {
            case.files.push(named(alloc, rest)?)?;
            return Ok(Place::File);
        }
        "stored" => {
            case.stored.push(named(alloc, rest)?)?;
            return Ok(Place::Stored);
        }
        _ => return Err(Fault::Keyword),
    }
    Ok(Place::Nowhere)
}

/// What this word says of the case that begins with it, if one does.
fn heading_of(keyword: &str) -> Option<Heading> {
    let (follows, wrong) = match keyword {
        "case" => (false, false),
        "wrong" => (false, true),
        "then" => (true, false),
        "then-wrong" => (true, true),
        _ => return None,
    };
    Some(Heading { follows, wrong })
}

impl Reading {
    /// Begins a case.
    fn begin(&mut self, heading: Heading, name: &str, line: u64) -> Result<(), Fault> {
        if heading.follows && self.cases.is_empty() {
            return Err(Fault::NothingToFollow);
        }
        let name = String::from_str(self.alloc, name)?;
        self.cases.push(Case::new(self.alloc, name, line, heading))?;
        self.place = Place::Nowhere;
        Ok(())
    }

    /// Adds to the text that stands open.
    fn add(&mut self, addition: Addition) -> Result<(), Fault> {
        match self.cases.last_mut() {
            None => Err(Fault::NoCase),
            Some(case) => {
                add_to_text(self.alloc, case, self.place, addition)?;
                check_told(case)
            }
        }
    }

    /// Takes a line that begins with this word, within a case.
    fn take_keyword(&mut self, keyword: &str, rest: &str) -> Result<(), Fault> {
        match self.cases.last_mut() {
            None => Err(Fault::NoCase),
            Some(case) => {
                self.place = take_keyword(self.alloc, case, keyword, rest)?;
                Ok(())
            }
        }
    }

    /// Takes the next line, which has this number.
    fn take(&mut self, number: u64, line: &str) -> Result<(), Fault> {
        if line.is_empty() || line.starts_with('#') {
            return Ok(());
        }
        let (keyword, rest) = line.split_once(' ').unwrap_or((line, ""));
        if let Some(heading) = heading_of(keyword) {
            return self.begin(heading, rest, number);
        }
        match keyword {
            "|" => self.add(Addition::Line(rest)),
            "repeat" => self.add(Addition::Repeat(number_of(rest)?)),
            "more" if rest.is_empty() => self.add(Addition::More),
            _ => self.take_keyword(keyword, rest),
        }
    }
}

/// The first case without a status is a fault of the line where it begins.
fn check_statuses(cases: &[Case]) -> Result<(), BadBook> {
    for case in cases {
        if case.statuses.is_empty() {
            return Err(BadBook {
                line: case.line,
                fault: Fault::NoStatus,
            });
        }
    }
    Ok(())
}

/// The cases of a book.
pub fn read_book(alloc: Global, text: &str) -> Result<Vec<Case>, BadBook> {
    let mut reading = Reading {
        alloc,
        cases: Vec::new(alloc),
        place: Place::Nowhere,
    };
    let mut number: u64 = 0;
    for line in text.lines() {
        number = number.saturating_add(1);
        if let Err(fault) = reading.take(number, line) {
            return Err(BadBook {
                line: number,
                fault,
            });
        }
    }
    let Reading { cases, .. } = reading;
    check_statuses(cases.as_slice())?;
    Ok(cases)
}
