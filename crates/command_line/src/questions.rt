//! What words can ask of a program in the place of a command.

ghost use Rattle.std.specs.Prelude.{◌≡◌, map};
ghost use Rattle.std.specs.String.{string_bytes};
ghost use Rattle.command_line.specs.Manual.{question_of, question_said as question_said_of};

/// A program.
#[derive(Clone, Copy, Debug)]
pub enum Program {
    /// `glass`, with the commands of `Verb`.
    Glass,
    /// `glass-picture`, which draws a plan.
    Picture,
}

/// What a word that stands alone asks of a program.
#[derive(Clone, Copy, Debug)]
pub enum Question {
    /// Which commands and options there are: `--help` or `-h`.
    Help,
    /// Which version it is: `--version`.
    Version,
}

/// The question that the words are, if they are one.
pub fn question_asked(words: &[String]) -> Option<Question>
    ensures { result ≡ question_of (map string_bytes words.now) }
{
    match words {
        [word] => question_said(word.as_str()),
        _ => None,
    }
}

/// The question that a word asks, if it asks one.
fn question_said(word: &str) -> Option<Question>
    ensures { result ≡ question_said_of word.now }
{
    if word == "--help" || word == "-h" {
        Some(Question::Help)
    } else if word == "--version" {
        Some(Question::Version)
    } else {
        None
    }
}
