//! What a paragraph of the book says.

use crate::steps::{numbers_of, step_of};
use crate::vars::var_of;
use anyhow::bail;
use cut_model::Trace;
use glass_base::{Run, append};
use plan_box::Var;
use std::alloc::{AllocError, Global};

/// What a case tells of.
#[derive(Clone, Copy, PartialEq, Eq)]
pub enum Subject {
    /// A trace that it gives.
    Trace,
    /// A plan that it gives.
    Plan,
    Draft,
    FirstPlan,
    Box,
}

/// What is drawn.
#[derive(Clone, Copy)]
pub struct Draw {
    pub start: u32,
    pub items: u32,
    pub defects: u32,
}

/// A half of a box at a variable.
#[derive(Clone, Copy)]
pub struct Half {
    pub step: u32,
    pub var: Var,
    pub is_upper: bool,
}

/// A case: the texts that it gives, and what it says of them.
#[derive(Drop)]
pub struct Case {
    /// The text of a batch.
    pub items: String,
    /// The text of a parameters file.
    pub params: String,
    /// The text of a plates file.
    pub plates: String,
    /// The text of a defects file.
    pub defects: String,
    /// The items and defects that are drawn in place of these: the start, and how many of each.
    pub drawn: Option<Draw>,
    pub subject: Subject,
    /// The text of a solution, where the case gives a plan.
    pub plan: String,
    /// The steps that it gives, where it tells of a trace.
    pub trace: Trace,
    /// The halves that are taken, one after another, where it tells of a box.
    pub halves: Run<Half>,
    /// The lines that say what is to be found.
    said: String,
}

/// The first word of a line, and what stands behind it.
fn first_word(line: &str) -> (&str, &str) {
    line.split_once(' ').unwrap_or((line, ""))
}

/// Whether a line says something: empty lines and comments do not.
fn is_spoken(line: &str) -> bool {
    !line.is_empty() && !line.starts_with('#')
}

/// The line with which a case begins; a paragraph of comments has none.
pub fn heading(paragraph: &str) -> Option<&str> {
    for line in paragraph.lines() {
        if is_spoken(line) {
            return Some(line);
        }
    }
    None
}

/// Whether the heading is that of a case that is wrong on purpose.
pub fn is_wrong(heading: &str) -> anyhow::Result<bool> {
    match first_word(heading).0 {
        "case" => Ok(false),
        "wrong" => Ok(true),
        _ => bail!("it begins with another word than case or wrong"),
    }
}

/// Adds a line to a text.
fn add_line(text: &mut String, line: &str) -> Result<(), AllocError> {
    text.push_str(line)?;
    text.push('\n')?;
    Ok(())
}

/// What is drawn where this is written, one space between two numbers.
fn draw_of(alloc: Global, written: &str) -> anyhow::Result<Draw> {
    let numbers = numbers_of(alloc, written)?;
    match numbers.as_slice() {
        [start, items, defects] => Ok(Draw {
            start: *start,
            items: *items,
            defects: *defects,
        }),
        _ => bail!("what is drawn has three numbers"),
    }
}

/// The half that is written so.
fn half_of(written: &str) -> anyhow::Result<Half> {
    let (step, rest) = first_word(written);
    let (name, part) = first_word(rest);
    let Some(var) = var_of(name) else {
        bail!("{name} is no variable");
    };
    let is_upper = match part {
        "lower" => false,
        "upper" => true,
        _ => bail!("a half is lower or upper"),
    };
    Ok(Half {
        step: step.parse::<u32>()?,
        var,
        is_upper,
    })
}

/// Whether a line with this first word says what is found, and asks for nothing.
fn is_finding(word: &str) -> bool {
    matches!(
        word,
        "decided"
            | "ranges"
            | "free"
            | "point"
            | "least"
            | "again"
            | "bound"
            | "refuted"
            | "open"
            | "probe"
            | "step"
            | "none"
            | "row"
            | "meets"
            | "breaks"
            | "length"
            | "loss"
            | "lost"
            | "plan"
    )
}

impl Case {
    /// A case of which no line is read.
    fn new(alloc: Global) -> Result<Case, AllocError> {
        Ok(Case {
            items: String::from_str(alloc, "ITEM_ID;LENGTH_ITEM;WIDTH_ITEM;STACK;SEQUENCE\n")?,
            params: String::from_str(alloc, "NAME;VALUE\n")?,
            plates: String::from_str(alloc, "PLATE_ID;WIDTH\n")?,
            defects: String::from_str(alloc, "DEFECT_ID;PLATE_ID;X;Y;WIDTH;HEIGHT\n")?,
            plan: String::from_str(alloc, "PLATE_ID;NODE_ID;X;Y;WIDTH;HEIGHT;TYPE;CUT;PARENT\n")?,
            drawn: None,
            subject: Subject::Trace,
            trace: Trace {
                steps: Run::new(alloc),
            },
            halves: Run::new(alloc),
            said: String::new(alloc),
        })
    }

    /// Whether the case says a line with this first word.
    fn says(&self, word: &str) -> bool {
        for line in self.said.as_str().lines() {
            if first_word(line).0 == word {
                return true;
            }
        }
        false
    }

    /// Takes a line that asks for something.
    fn ask(&mut self, subject: Subject, line: &str) -> Result<(), AllocError> {
        self.subject = subject;
        add_line(&mut self.said, line)
    }

    /// Takes the next line.
    fn take(&mut self, alloc: Global, line: &str) -> anyhow::Result<()> {
        let (word, rest) = first_word(line);
        match word {
            "drawn" => self.drawn = Some(draw_of(alloc, rest)?),
            "item" => add_line(&mut self.items, rest)?,
            "param" => add_line(&mut self.params, rest)?,
            "plate" => add_line(&mut self.plates, rest)?,
            "defect" => add_line(&mut self.defects, rest)?,
            "row" if !self.says("plan") => {
                self.subject = Subject::Plan;
                add_line(&mut self.plan, rest)?;
            }
            "half" => append(&mut self.halves, half_of(rest)?)?,
            "box" => self.ask(Subject::Box, line)?,
            "draft" => self.ask(Subject::Draft, line)?,
            "first" => self.ask(Subject::FirstPlan, line)?,
            "step" if self.subject == Subject::Trace => append(
                &mut self.trace.steps,
                step_of(alloc, rest)?,
            )?,
            _ if is_finding(word) => add_line(&mut self.said, line)?,
            _ => bail!("{word} is no word of the book"),
        }
        Ok(())
    }

    /// Whether a line that was found is compared: where the case says something of its kind, or must.
    fn compares(&self, line: &str) -> bool {
        let word = first_word(line).0;
        match word {
            "meets" | "breaks" => {
                self.subject == Subject::Trace || self.says("meets") || self.says("breaks")
            }
            "step" => {
                !matches!(self.subject, Subject::FirstPlan | Subject::Box) || self.says("step")
            }
            "refuted" | "open" => self.says("refuted") || self.says("open"),
            "decided"
            | "ranges"
            | "free"
            | "point"
            | "least"
            | "again"
            | "bound"
            | "probe"
            | "length"
            | "loss"
            | "lost" => self.says(word),
            "plan" | "row" => self.says("plan"),
            _ => true,
        }
    }

    /// Whether what was found is what the case says.
    pub fn is_as_said(&self, found: &str) -> bool {
        let mut said = self.said.as_str().lines();
        for line in found.lines() {
            if self.compares(line) && said.next() != Some(line) {
                return false;
            }
        }
        said.next().is_none()
    }
}

/// The case of a paragraph with this heading.
pub fn read_case(alloc: Global, heading: &str, paragraph: &str) -> anyhow::Result<Case> {
    let mut case = Case::new(alloc)?;
    for line in paragraph.lines() {
        if is_spoken(line) && line != heading {
            case.take(alloc, line)?;
        }
    }
    Ok(case)
}
