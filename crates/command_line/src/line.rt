//! A command line, and the one parser of words.

ghost use Rattle.std.specs.Prelude.{◌≡◌, ◌+◌, ◌≤◌, true, map, count_by, position, slice_get, take, drop, option_and_then, option_map, is_some};
ghost use Rattle.std.specs.List.{list_all, list_any};
ghost use Rattle.std.specs.Option.{option_map_or};
ghost use Rattle.std.specs.Str.{bytes_eq};
ghost use Rattle.std.specs.String.{string_bytes};
ghost use Rattle.command_line.specs.Grammar.{line_if, line_of, line_with, picture_line_of, verb_of};
ghost use Rattle.command_line.specs.Lines.{line_in, pattern_in};
ghost use Rattle.command_line.specs.Words.{is_option, lead_range, setting_of};

use crate::kinds::{Count, Flag, Lead, LineOption, Product, Verb};
use crate::rows::{Form, PICTURE, VERBS};
use crate::words::{
    are_names, are_names_or_dashes, are_options, count_set, first_option, has_option, is_among,
    lead_among, lead_value, name_said, option_name, option_names, place_among, product_among,
    word_at,
};
use glass_base::Role;

/// A command with its numbers and the names of its files, and its options, which name further files, set numbers, or
/// have no value. `V` says which command it is; the program that draws has one, and so nothing to say.
#[derive(Clone, Copy)]
pub struct CommandLine<'a, V = Verb> {
    pub verb: V,
    /// The row of the command.
    pub form: Form,
    pub leads: &'a [String],
    pub names: &'a [String],
    pub options: &'a [String],
}

impl<'a, V> CommandLine<'a, V> {
    ghost use Rattle.command_line.specs.Lines.{line_in};
    ghost use Rattle.command_line.specs.Grammar.{are_files_named, are_leads_said, is_served, is_line, is_named_once, is_read_named, lead_at, lead_in, name_at, name_by_option, name_of, count_in, flag_in, stored_as, stored_names};
    ghost use Rattle.command_line.specs.Rows.{is_product};
    ghost use Rattle.command_line.specs.Words.{option_names as option_names_of};

    /// The number of this kind that the line says before its names.
    fn lead_at(&self, lead: Lead) -> Option<u32>
        ensures { result ≡ lead_at (line_in self.now) lead }
    {
        let place = lead_among(lead, self.form.leads)?;
        let word = word_at(self.leads, place)?;
        lead_value(lead, word)
    }

    /// Whether the line says this number before its names.
    fn says_lead(&self, lead: Lead) -> bool
        ensures { result ≡ is_some (lead_at (line_in self.now) lead) }
    {
        self.lead_at(lead).is_some()
    }

    /// Whether each number that stands before the names of the command is said.
    fn says_each_lead(&self) -> bool
        ensures { result ≡ list_all (λ of. is_some (lead_at (line_in self.now) of))
            (line_in self.now).pattern.leads }
    {
        self.form.leads.iter().all(|lead| self.says_lead(*lead))
    }

    /// Whether each number that stands before the names of the command is said, and no other word.
    fn says_leads(&self) -> bool
        ensures { result ≡ are_leads_said (line_in self.now) }
    {
        self.leads.len() == self.form.leads.len() && self.says_each_lead()
    }

    /// How often names and options name this file.
    fn namings(&self, name: &str) -> usize
        ensures { result ≡ count_by (λ n. bytes_eq n name.now) (line_in self.now).names
            + count_by (option_names_of (line_in self.now).pattern.options name.now)
            (line_in self.now).options }
    {
        let all = self.form.options;
        let names = self.names.iter().filter(|n| n.as_str() == name).count();
        let options = self
            .options
            .iter()
            .filter(|word| option_names(all, name, word.as_str()))
            .count();
        names + options
    }

    /// Whether names and options name this file once.
    fn names_once(&self, name: &str) -> bool
        ensures { result ≡ is_named_once (line_in self.now) name.now }
    {
        self.namings(name) == 1
    }

    /// The names under which the command stores.
    fn stored(&self) -> &'a [String]
        ensures { map string_bytes result.now ≡ stored_names (line_in self.now) }
    {
        let (_, stored) = split_at(self.names, self.form.reads.len());
        stored
    }

    /// The name under which the command stores this, if it does.
    fn stored_at(&self, product: Product) -> Option<&'a str>
        ensures { option_map (λ name. name.now) result
            ≡ option_and_then (slice_get (stored_names (line_in self.now)))
            (position (is_product product) (line_in self.now).pattern.stores) }
    {
        let place = product_among(product, self.form.stores)?;
        word_at(self.stored(), place)
    }

    /// The name under which the command stores this, empty where it does not.
    pub fn stored_as(&self, product: Product) -> &'a str
        ensures { result.now ≡ stored_as (line_in self.now) product }
    {
        match self.stored_at(product) {
            Some(name) => name,
            None => "",
        }
    }

    /// Whether each name under which the command stores is named once.
    fn stores_apart(&self) -> bool
        ensures { result ≡ list_all (is_named_once (line_in self.now))
            (stored_names (line_in self.now)) }
    {
        self.stored().iter().all(
            |name: &String| -> bool
                ensures { result ≡ is_named_once (line_in self.entry.now) (string_bytes name.now) }
            { self.names_once(name.as_str()) },
        )
    }

    /// The name of the file of this role, where it is one of the names.
    fn name_at(&self, role: Role) -> Option<&'a str>
        ensures { option_map (λ name. name.now) result ≡ name_at (line_in self.now) role }
    {
        let place = place_among(role, self.form.reads)?;
        let word = word_at(self.names, place)?;
        name_said(word)
    }

    /// Whether the line names the file of this role that the command reads, or the command can do without it.
    fn names_read(&self, role: Role) -> bool
        ensures { result ≡ is_read_named (line_in self.now) role }
    {
        self.name_at(role).is_some() || is_among(role, self.form.without)
    }

    /// Whether the line names each file that the command reads, or the command can do without it.
    fn names_all_read(&self) -> bool
        ensures { result ≡ list_all (is_read_named (line_in self.now))
            (line_in self.now).pattern.reads }
    {
        self.form.reads.iter().all(|role| self.names_read(*role))
    }

    /// Whether the names are those of the command.
    fn names_files(&self) -> bool
        ensures { result ≡ are_files_named (line_in self.now) }
    {
        let form = self.form;
        self.names.len() == form.names()
            && are_names_or_dashes(self.names)
            && self.names_all_read()
            && are_names(self.stored())
    }

    /// Whether the line names the file without which this number says nothing.
    fn names_needed(&self, count: Count) -> bool
        ensures { result ≡ option_map_or (λ needed. is_some (name_at (line_in self.now) needed))
            (setting_of count).needs true }
    {
        match count.setting().needs {
            Some(role) => self.name_at(role).is_some(),
            None => true,
        }
    }

    /// Whether the line names the file without which an option says nothing, where it has the option.
    fn serves(&self, option: LineOption) -> bool
        ensures { result ≡ is_served (line_in self.now) option }
    {
        match option {
            LineOption::Number(count) => {
                !has_option(option, self.options) || self.names_needed(count)
            }
            LineOption::File(_) | LineOption::Word(_) => true,
        }
    }

    /// Whether the line names the file that each of its options needs.
    fn serves_all(&self) -> bool
        ensures { result ≡ list_all (is_served (line_in self.now))
            (line_in self.now).pattern.options }
    {
        self.form.options.iter().all(|option| self.serves(*option))
    }

    /// Whether numbers, names and options are those of the command.
    fn is_whole(&self) -> bool
        ensures { result ≡ is_line (line_in self.now) }
    {
        self.says_leads()
            && self.names_files()
            && are_options(self.form.options, self.options)
            && self.serves_all()
            && self.stores_apart()
    }

    /// The number of this kind that stands before the names.
    pub fn lead(&self, lead: Lead) -> u32
        ensures value { result ≡ lead_in (line_in self.now) lead }
        ensures least { (lead_range lead).0 ≤ result }
        ensures most { result ≤ (lead_range lead).1 }
    {
        match self.lead_at(lead) {
            Some(number) => number,
            None => lead.least(),
        }
    }

    /// The number that the line sets, or the usual one.
    pub fn count(&self, count: Count) -> u32
        ensures value { result ≡ count_in (line_in self.now) count }
        ensures least { (setting_of count).least ≤ result }
        ensures most { result ≤ (setting_of count).most }
    {
        match count_set(count, self.options) {
            Some(number) => number,
            None => count.setting().usual,
        }
    }

    /// Whether the line sets this number.
    pub fn sets(&self, count: Count) -> bool
        ensures { result ≡ list_any (is_option (LineOption.Number count))
            (line_in self.now).options }
    {
        has_option(LineOption::Number(count), self.options)
    }

    /// Whether the line has this option without a value.
    pub fn flag(&self, flag: Flag) -> bool
        ensures { result ≡ flag_in (line_in self.now) flag }
    {
        has_option(LineOption::Word(flag), self.options)
    }

    /// The name of the file of this role, where an option names it.
    fn name_by_option(&self, role: Role) -> Option<&'a str>
        ensures { option_map (λ name. name.now) result ≡ name_by_option (line_in self.now) role }
    {
        let word = first_option(LineOption::File(role), self.options)?;
        option_name(role, word)
    }

    /// The name of the file of this role, if the line names it.
    pub fn name_of(&self, role: Role) -> Option<&'a str>
        ensures { option_map (λ name. name.now) result ≡ name_of (line_in self.now) role }
    {
        match self.name_at(role) {
            Some(name) => Some(name),
            None => self.name_by_option(role),
        }
    }
}

/// The first words, so many or all, and the others.
fn split_at(words: &[String], many: usize) -> (&[String], &[String])
    ensures first { map string_bytes result.0.now ≡ take many (map string_bytes words.now) }
    ensures others { map string_bytes result.1.now ≡ drop many (map string_bytes words.now) }
{
    words.split_at(many.min(words.len()))
}

/// The words behind the word of a command, as its numbers, its names and its options.
fn split_words<V>(verb: V, form: Form, words: &[String]) -> CommandLine<'_, V>
    ensures { line_in result ≡ line_with verb (pattern_in form) (map string_bytes words.now) }
{
    let (leads, behind) = split_at(words, form.leads.len());
    let (names, options) = split_at(behind, form.names());
    CommandLine {
        verb,
        form,
        leads,
        names,
        options,
    }
}

/// The line of a command with this row, if the words behind its own are those of such a line.
fn line_behind<V: Copy>(verb: V, form: Form, words: &[String]) -> Option<CommandLine<'_, V>>
    ensures { option_map line_in result
        ≡ line_if (line_with verb (pattern_in form) (map string_bytes words.now)) }
{
    let line = split_words(verb, form, words);
    if line.is_whole() { Some(line) } else { None }
}

/// The command of this word.
pub fn verb_named(word: &str) -> Option<Verb>
    ensures { result ≡ verb_of word.now }
{
    VERBS.iter().copied().find(|verb| word == verb.form().word)
}

/// The command line that the words are, if they are one.
pub fn line_named(words: &[String]) -> Option<CommandLine<'_>>
    ensures { option_map line_in result ≡ line_of (map string_bytes words.now) }
{
    let verb = verb_named(words.first()?.as_str())?;
    line_behind(verb, verb.form(), &words[1..])
}

/// The line of the program that draws, if the words are one.
pub fn picture_line(words: &[String]) -> Option<CommandLine<'_, ()>>
    ensures { option_map line_in result ≡ picture_line_of (map string_bytes words.now) }
{
    line_behind((), PICTURE, words)
}
