//! What the programs tell of themselves, made from the table of commands, so that no command and no option is left out.

ghost use Rattle.std.specs.Prelude.{◌≡◌, ◌++◌, ℕ, List, IfOk, OnOk};
ghost use Rattle.std.specs.List.{flat_map};
ghost use Rattle.std.specs.String.{string_bytes};
ghost use Rattle.command_line.specs.Lines.{pattern_in};
ghost use Rattle.command_line.specs.Manual.{answer_of, cert_name as cert_name_of, count_about as count_about_of, count_told as count_told_of, commands_text as commands_text_of, options_text as options_text_of, entries_of, entry as entry_of, flag_about as flag_about_of, help_text as help_text_of, lead_name as lead_name_of, lead_piece as lead_piece_of, line_front as line_front_of, option_about as option_about_of, option_entry as option_entry_of, option_piece as option_piece_of, option_text as option_text_of, options_of as options_of_program, file_about as file_about_of, read_name as read_name_of, read_piece as read_piece_of, stored_name as stored_name_of, stored_piece as stored_piece_of, usage_of, named_line as named_line_of, picture_entry as picture_entry_of, picture_usage, program_name as program_name_of, row_line as row_line_of, verb_about as verb_about_of, verb_entry as verb_entry_of, version_line as version_line_of};
ghost use Rattle.command_line.specs.inner.Tellings.{Tells};

use crate::kinds::{Count, Flag, Lead, LineOption, Product, Verb};
use crate::options::{flag_word, option_front};
use crate::questions::{Program, Question};
use crate::rows::{Form, PICTURE, VERBS};
use crate::words::is_among;
use glass_base::{Memory, Role};
use std::alloc::Global;

/// The name that a line has for a number before its names.
fn lead_name(lead: Lead) -> &'static str
    ensures { result.now ≡ lead_name_of lead }
{
    match lead {
        Lead::Start => "START",
        Lead::Items => "ITEMS",
        Lead::Defects => "DEFECTS",
        Lead::Frozen => "K",
    }
}

/// The name that a line has for a file that is read.
fn read_name(role: Role) -> &'static str
    ensures { result.now ≡ read_name_of role }
{
    match role {
        Role::Batch => "BATCH",
        Role::Defects => "DEFECTS",
        Role::Params => "PARAMS",
        Role::Plan => "PLAN",
        Role::Cert => "CERT",
        Role::Plates => "PLATES",
        Role::Sheet => "SHEET",
    }
}

/// The name that a line has for a certificate that is stored: the new one, where one is read.
fn cert_name(reads: &[Role]) -> &'static str
    ensures { result.now ≡ cert_name_of reads.now }
{
    if is_among(Role::Cert, reads) {
        "NEW"
    } else {
        "CERT"
    }
}

/// The name that a line has for what is stored.
fn stored_name(reads: &[Role], product: Product) -> &'static str
    ensures { result.now ≡ stored_name_of reads.now product }
{
    match product {
        Product::Certificate => cert_name(reads),
        Product::Plan | Product::Sheet | Product::Picture => "OUT",
    }
}

/// What a line says of a number.
fn lead_piece(alloc: Global, lead: Lead) -> Result<String, Memory>
    ensures { IfOk result (λ piece. string_bytes piece ≡ lead_piece_of lead) }
{
    let name = lead_name(lead);
    Ok(format!(in alloc; " {name}")?)
}

/// What a line says of a file that is read.
fn read_piece(alloc: Global, role: Role) -> Result<String, Memory>
    ensures { IfOk result (λ piece. string_bytes piece ≡ read_piece_of role) }
{
    let name = read_name(role);
    Ok(format!(in alloc; " {name}")?)
}

/// What a line says of a file that is stored.
fn stored_piece(alloc: Global, reads: &[Role], product: Product) -> Result<String, Memory>
    ensures { IfOk result (λ piece. string_bytes piece ≡ stored_piece_of reads.now product) }
{
    let name = stored_name(reads, product);
    Ok(format!(in alloc; " {name}")?)
}

/// An option as a line says it.
fn option_text(alloc: Global, option: LineOption) -> Result<String, Memory>
    ensures { IfOk result (λ text. string_bytes text ≡ option_text_of option) }
{
    match option {
        LineOption::File(role) => {
            let front = option_front(role);
            Ok(format!(in alloc; "{front}FILE")?)
        }
        LineOption::Number(count) => {
            let front = count.setting().front;
            Ok(format!(in alloc; "{front}N")?)
        }
        LineOption::Word(flag) => Ok(String::from_str(alloc, flag_word(flag))?),
    }
}

/// What a line says of an option.
fn option_piece(alloc: Global, option: LineOption) -> Result<String, Memory>
    ensures { IfOk result (λ piece. string_bytes piece ≡ option_piece_of option) }
{
    let text = option_text(alloc, option)?;
    Ok(format!(in alloc; " [{text}]")?)
}

/// Appends what is told of each of these.
fn push_each<T: Copy, F: Fn(T) -> Result<String, Memory>>(
    text: &mut String,
    all: &[T],
    told: F,
) -> Result<(), Memory>
    requires { F.IsAlwaysCallable told }
    ensures { OnOk result ((say : T → List ℕ) → Tells (λ x r. F.post told x r) say
        → string_bytes text.new ≡ string_bytes text.old ++ flat_map say all.now) }
{
    for one in all {
        let piece = told(*one)?;
        text.push_str(piece.as_str())?;
    }
    Ok(())
}

/// The line of a row that begins so, with its numbers and its files.
fn named_line(alloc: Global, front: &str, form: Form) -> Result<String, Memory>
    ensures { IfOk result (λ line. string_bytes line ≡ named_line_of front.now (pattern_in form)) }
{
    let mut line = String::from_str(alloc, front)?;
    push_each(&mut line, form.leads, |lead| lead_piece(alloc, lead))?;
    push_each(&mut line, form.reads, |role| read_piece(alloc, role))?;
    push_each(&mut line, form.stores, |product| {
        stored_piece(alloc, form.reads, product)
    })?;
    Ok(line)
}

/// The line of a row that begins so: its numbers, its files, and in brackets its options.
fn row_line(alloc: Global, front: &str, form: Form) -> Result<String, Memory>
    ensures { IfOk result (λ line. string_bytes line ≡ row_line_of front.now (pattern_in form)) }
{
    let mut line = named_line(alloc, front, form)?;
    push_each(
        &mut line,
        form.options,
        |option| option_piece(alloc, option),
    )?;
    Ok(line)
}

/// With what the line of a command begins.
fn line_front(alloc: Global, verb: Verb) -> Result<String, Memory>
    ensures { IfOk result (λ front. string_bytes front ≡ line_front_of verb) }
{
    let word = verb.form().word;
    Ok(format!(in alloc; "glass {word}")?)
}

/// The line of a command: its numbers, its files, and in brackets its options.
pub fn usage_line(alloc: Global, verb: Verb) -> Result<String, Memory>
    ensures { IfOk result (λ line. string_bytes line ≡ usage_of verb) }
{
    let front = line_front(alloc, verb)?;
    row_line(alloc, front.as_str(), verb.form())
}

/// The line of the program that draws.
pub fn picture_usage_line(alloc: Global) -> Result<String, Memory>
    ensures { IfOk result (λ line. string_bytes line ≡ picture_usage) }
{
    row_line(alloc, "glass-picture", PICTURE)
}

/// What a command does.
fn verb_about(verb: Verb) -> &'static str
    ensures { result.now ≡ verb_about_of verb }
{
    match verb {
        Verb::Draft => "a first plan, on plates without defects",
        Verb::Plan => "a plan that loses little, and a certificate of the bound on the loss",
        Verb::Gen => "the same of an instance that is drawn from numbers",
        Verb::Judge => "the loss of a plan, or the first rule that it breaks",
        Verb::Verify => "checks a plan, or a dash in its place, and a certificate",
        Verb::Convert => "checks them as well, and names the causes in the certificate",
        Verb::Resume => "checks them as well, and goes on with the search",
        Verb::Freeze => "plans anew what stands behind the first K plates",
        Verb::Sheet => "the instructions by which a table cuts a plan",
        Verb::Replay => "follows such instructions",
    }
}

/// What an option does that names a file.
fn file_about(role: Role) -> &'static str
    ensures { result.now ≡ file_about_of role }
{
    match role {
        Role::Params => "other sizes of plates and other least sizes of pieces",
        Role::Plates => "plates with widths of their own",
        Role::Plan => "a plan to go on from, so that what is stored loses no more",
        Role::Batch | Role::Defects | Role::Cert | Role::Sheet => "another file",
    }
}

/// What an option does that sets a number.
fn count_about(count: Count) -> &'static str
    ensures { result.now ≡ count_about_of count }
{
    match count {
        Count::Workers => "how many workers search",
        Count::Budget => "how many boxes a search handles at the most",
        Count::Frozen => "how many plates are cut already",
        Count::Effort => {
            "a better first plan, for so many million ticks (300 are ten seconds, and usual above 60 items)"
        }
        Count::Seconds => "a better first plan, until so many seconds are over",
        Count::Checkers =>
            "how many threads show the floor of a certificate, where it is only checked",
        Count::FrontsLimit => "how many labels a search over fronts looks at, to show a floor",
    }
}

/// What an option does that has no value.
fn flag_about(flag: Flag) -> &'static str
    ensures { result.now ≡ flag_about_of flag }
{
    match flag {
        Flag::Watch => "tells the losses on the way as well",
        Flag::Fronts => "begins with what fronts show: mostly optimal, where stacks are few",
    }
}

/// A line, and indented below it what it is for.
fn entry(alloc: Global, line: &str, about: &str) -> Result<String, Memory>
    ensures { IfOk result (λ entry. string_bytes entry ≡ entry_of line.now about.now) }
{
    Ok(format!(in alloc; "  {line}\n      {about}\n")?)
}

/// What is told of a command.
fn verb_entry(alloc: Global, verb: Verb) -> Result<String, Memory>
    ensures { IfOk result (λ entry. string_bytes entry ≡ verb_entry_of verb) }
{
    let line = usage_line(alloc, verb)?;
    entry(alloc, line.as_str(), verb_about(verb))
}

/// What is told of the program that draws.
fn picture_entry(alloc: Global) -> Result<String, Memory>
    ensures { IfOk result (λ entry. string_bytes entry ≡ picture_entry_of) }
{
    let line = picture_usage_line(alloc)?;
    let about = "a picture of a plan, with its loss or the first rule that it breaks";
    entry(alloc, line.as_str(), about)
}

/// What an option does that sets a number, the numbers that can be set, and the one that is set where the option is
/// not there.
fn count_told(alloc: Global, count: Count) -> Result<String, Memory>
    ensures { IfOk result (λ told. string_bytes told ≡ count_told_of count) }
{
    let about = count_about(count);
    let most = count.setting().most;
    let usual = count.setting().usual;
    Ok(format!(in alloc; "{about}: 1 to {most}, usually {usual}")?)
}

/// What an option does.
fn option_about(alloc: Global, option: LineOption) -> Result<String, Memory>
    ensures { IfOk result (λ about. string_bytes about ≡ option_about_of option) }
{
    match option {
        LineOption::File(role) => Ok(String::from_str(alloc, file_about(role))?),
        LineOption::Number(count) => count_told(alloc, count),
        LineOption::Word(flag) => Ok(String::from_str(alloc, flag_about(flag))?),
    }
}

/// What is told of an option.
fn option_entry(alloc: Global, option: LineOption) -> Result<String, Memory>
    ensures { IfOk result (λ entry. string_bytes entry ≡ option_entry_of option) }
{
    let text = option_text(alloc, option)?;
    let about = option_about(alloc, option)?;
    entry(alloc, text.as_str(), about.as_str())
}

/// The name of a program.
fn program_name(program: Program) -> &'static str
    ensures { result.now ≡ program_name_of program }
{
    match program {
        Program::Glass => "glass",
        Program::Picture => "glass-picture",
    }
}

/// The options of the commands of a program.
fn options_of(program: Program) -> &'static [LineOption]
    ensures { result.now ≡ options_of_program program }
{
    match program {
        Program::Glass => &[
            LineOption::File(Role::Params),
            LineOption::File(Role::Plates),
            LineOption::File(Role::Plan),
            LineOption::Number(Count::Workers),
            LineOption::Number(Count::Budget),
            LineOption::Number(Count::Effort),
            LineOption::Number(Count::Seconds),
            LineOption::Number(Count::Frozen),
            LineOption::Number(Count::Checkers),
            LineOption::Number(Count::FrontsLimit),
            LineOption::Word(Flag::Watch),
            LineOption::Word(Flag::Fronts),
        ],
        Program::Picture => &[
            LineOption::File(Role::Params),
            LineOption::File(Role::Plates),
        ],
    }
}

/// Appends what is told of the commands of a program.
fn push_entries(alloc: Global, text: &mut String, program: Program) -> Result<(), Memory>
    ensures { OnOk result (string_bytes text.new ≡ string_bytes text.old ++ entries_of program) }
{
    match program {
        Program::Glass => push_each(text, &VERBS, |verb| verb_entry(alloc, verb))?,
        Program::Picture => text.push_str(picture_entry(alloc)?.as_str())?,
    }
    Ok(())
}

/// The commands of a program.
#[tactic(auto, unfolding(crate::specs::Manual::commands_text))]
fn commands_text(alloc: Global, program: Program) -> Result<String, Memory>
    ensures { IfOk result (λ text. string_bytes text ≡ commands_text_of program) }
{
    let mut text = String::from_str(alloc, "usage:\n")?;
    push_entries(alloc, &mut text, program)?;
    Ok(text)
}

/// The options of the commands of a program.
fn options_text(alloc: Global, program: Program) -> Result<String, Memory>
    ensures { IfOk result (λ text. string_bytes text ≡ options_text_of program) }
{
    let options = options_of(program);
    let mut text = String::from_str(alloc, "\noptions, behind the names and in any order:\n")?;
    push_each(&mut text, options, |option| option_entry(alloc, option))?;
    Ok(text)
}

/// The commands and options of a program.
fn help_text(alloc: Global, program: Program) -> Result<String, Memory>
    ensures { IfOk result (λ text. string_bytes text ≡ help_text_of program) }
{
    let commands = commands_text(alloc, program)?;
    let options = options_text(alloc, program)?;
    Ok(format!(in alloc;
        "{commands}{options}\n--help, -h and --version, alone, tell this and the version\n"
    )?)
}

/// The version of a program, and the toolchain that it is proved with.
fn version_line(alloc: Global, program: Program) -> Result<String, Memory>
    ensures { IfOk result (λ line. string_bytes line ≡ version_line_of program) }
{
    let name = program_name(program);
    Ok(format!(in alloc; "{name} 1.0 rattle-kit-13f\n")?)
}

/// The answer of a program to a question.
pub fn answer_to(alloc: Global, program: Program, question: Question) -> Result<String, Memory>
    ensures { IfOk result (λ text. string_bytes text ≡ answer_of program question) }
{
    match question {
        Question::Help => help_text(alloc, program),
        Question::Version => version_line(alloc, program),
    }
}
