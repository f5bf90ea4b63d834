//! Questions on single words of a command line, and on all words of one kind.

ghost use Rattle.std.specs.Prelude.{◌≡◌, ◌≤◌, ◌||◌, map, count_by, option_map, option_and_then, find, nat_le, position, slice_get, IfSome};
ghost use Rattle.std.specs.List.{list_all, list_any};
ghost use Rattle.std.specs.String.{string_bytes};
ghost use Rattle.glass_base.specs.Digits.{number_within as number_within_of};
ghost use Rattle.glass_base.specs.Roles.{is_role};
ghost use Rattle.command_line.specs.Rows.{is_lead, is_product};
ghost use Rattle.command_line.specs.Words.{are_options as are_options_of, is_dash as is_dash_of, lead_value as lead_value_of, name_said as name_said_of, count_value as count_value_of, is_option_for as is_option_for_of, is_name as is_name_of, is_option as is_option_of, option_name as option_name_of, option_names as option_names_of, setting_of, is_any_of as is_any_of_these};

use crate::kinds::{Count, Lead, LineOption, Product};
use crate::options::{flag_word, option_front};
use glass_base::{Role, digits};

/// Whether a word is a file name: not empty, no dash alone, and without two dashes at its front.
fn is_name(word: &str) -> bool
    ensures { result ≡ is_name_of word.now }
{
    match word.as_bytes() {
        [] => false,
        [only] => *only != b'-',
        [b'-', b'-', ..] => false,
        _ => true,
    }
}

/// Whether a word is a dash alone.
fn is_dash(word: &str) -> bool
    ensures { result ≡ is_dash_of word.now }
{
    match word.as_bytes() {
        [only] => *only == b'-',
        _ => false,
    }
}

/// The file that a word in the place of a name stands for: a dash stands for none.
pub(crate) fn name_said(word: &str) -> Option<&str>
    ensures { option_map (λ name. name.now) result ≡ name_said_of word.now }
{
    if is_dash(word) { None } else { Some(word) }
}

/// Whether each word is a file name.
pub(crate) fn are_names(words: &[String]) -> bool
    ensures { result ≡ list_all is_name_of (map string_bytes words.now) }
{
    words.iter().all(|word| is_name(word.as_str()))
}

/// Whether a word may stand in the place of a name.
fn is_name_or_dash(word: &str) -> bool
    ensures { result ≡ is_name_of word.now || is_dash_of word.now }
{
    is_name(word) || is_dash(word)
}

/// Whether each word may stand in the place of a name.
pub(crate) fn are_names_or_dashes(words: &[String]) -> bool
    ensures { result ≡ list_all (λ word. is_name_of word || is_dash_of word)
        (map string_bytes words.now) }
{
    words.iter().all(|word| is_name_or_dash(word.as_str()))
}

/// The file that a word names as an option of this role.
pub(crate) fn option_name(role: Role, word: &str) -> Option<&str>
    ensures { option_map (λ name. name.now) result ≡ option_name_of role word.now }
{
    match word.strip_prefix(option_front(role)) {
        Some(name) => { if is_name(name) { Some(name) } else { None } }
        None => None,
    }
}

/// The number that a text says, from the least to the greatest that it may be.
fn number_within(least: u32, most: u32, text: &str) -> Option<u32>
    ensures value { result ≡ number_within_of least most text.now }
    ensures within { IfSome result (λ n. (least ≤ n) × (n ≤ most)) }
{
    let number = digits::number_within(text.as_bytes(), u64::from(least), u64::from(most))?;
    Some(number as u32)
}

/// The number that a word before the names is.
pub(crate) fn lead_value(lead: Lead, word: &str) -> Option<u32>
    ensures { result ≡ lead_value_of lead word.now }
{
    number_within(lead.least(), lead.most(), word)
}

/// The number that a word sets.
fn count_value(count: Count, word: &str) -> Option<u32>
    ensures value { result ≡ count_value_of count word.now }
    ensures within { IfSome result (λ n. (1 ≤ n) × (n ≤ (setting_of count).most)) }
{
    let setting = count.setting();
    match word.strip_prefix(setting.front) {
        Some(text) => number_within(1, setting.most, text),
        None => None,
    }
}

/// Whether a word is this option: it names a further file that is read, sets a number, or has no value.
fn is_option(option: LineOption, word: &str) -> bool
    ensures { result ≡ is_option_of option word.now }
{
    match option {
        LineOption::File(role) => option_name(role, word).is_some(),
        LineOption::Number(count) => count_value(count, word).is_some(),
        LineOption::Word(flag) => word == flag_word(flag),
    }
}

/// Whether one of the words is this option.
pub(crate) fn has_option(option: LineOption, words: &[String]) -> bool
    ensures { result ≡ list_any (is_option_of option) (map string_bytes words.now) }
{
    words.iter().any(|word| is_option(option, word.as_str()))
}

/// The first word that is this option.
pub(crate) fn first_option(option: LineOption, words: &[String]) -> Option<&str>
    ensures { option_map (λ word. word.now) result
        ≡ find (is_option_of option) (map string_bytes words.now) }
{
    words
        .iter()
        .map(|word| word.as_str())
        .find(|word| is_option(option, word))
}

/// The number that the first word sets that sets this number.
pub(crate) fn count_set(count: Count, words: &[String]) -> Option<u32>
    ensures value { result ≡ option_and_then (count_value_of count)
        (find (is_option_of (LineOption.Number count)) (map string_bytes words.now)) }
    ensures within { IfSome result (λ n. (1 ≤ n) × (n ≤ (setting_of count).most)) }
{
    let word = first_option(LineOption::Number(count), words)?;
    count_value(count, word)
}

/// Whether a word is one of these options.
fn is_any_of(options: &[LineOption], word: &str) -> bool
    ensures { result ≡ is_any_of_these options.now word.now }
{
    options.iter().any(|option| is_option(*option, word))
}

/// Whether each word is one of these options.
fn are_all_of(options: &[LineOption], words: &[String]) -> bool
    ensures { result ≡ list_all (is_any_of_these options.now) (map string_bytes words.now) }
{
    words.iter().all(|word| is_any_of(options, word.as_str()))
}

/// How many words are this option.
fn times(option: LineOption, words: &[String]) -> usize
    ensures { result ≡ count_by (is_option_of option) (map string_bytes words.now) }
{
    words
        .iter()
        .filter(|word| is_option(option, word.as_str()))
        .count()
}

/// Whether each of these options is there once at the most.
fn are_once(options: &[LineOption], words: &[String]) -> bool
    ensures { result ≡ list_all (λ of. nat_le (count_by (is_option_of of)
        (map string_bytes words.now)) 1) options.now }
{
    options.iter().all(|option| times(*option, words) <= 1)
}

/// Whether words are some of these options, each of them once at the most.
pub(crate) fn are_options(options: &[LineOption], words: &[String]) -> bool
    ensures { result ≡ are_options_of options.now (map string_bytes words.now) }
{
    are_all_of(options, words) && are_once(options, words)
}

/// Whether a word is this option and names this file.
fn is_option_for(option: LineOption, name: &str, word: &str) -> bool
    ensures { result ≡ is_option_for_of option name.now word.now }
{
    match option {
        LineOption::File(role) => option_name(role, word) == Some(name),
        LineOption::Number(_) | LineOption::Word(_) => false,
    }
}

/// Whether one of these options names this file.
pub(crate) fn option_names(options: &[LineOption], name: &str, word: &str) -> bool
    ensures { result ≡ option_names_of options.now name.now word.now }
{
    options
        .iter()
        .any(|option| is_option_for(*option, name, word))
}

/// The place of a role among others.
pub(crate) fn place_among(role: Role, roles: &[Role]) -> Option<usize>
    ensures { result ≡ position (is_role role) roles.now }
{
    roles.iter().position(|other| role.is(*other))
}

/// Whether a role is among others.
pub(crate) fn is_among(role: Role, roles: &[Role]) -> bool
    ensures { result ≡ list_any (is_role role) roles.now }
{
    roles.iter().any(|other| role.is(*other))
}

/// The place of a number among others.
pub(crate) fn lead_among(lead: Lead, leads: &[Lead]) -> Option<usize>
    ensures { result ≡ position (is_lead lead) leads.now }
{
    leads.iter().position(|other| lead.is(*other))
}

/// The place of what is stored among others.
pub(crate) fn product_among(product: Product, products: &[Product]) -> Option<usize>
    ensures { result ≡ position (is_product product) products.now }
{
    products.iter().position(|other| product.is(*other))
}

/// The word at a place, if there is one.
pub(crate) fn word_at(words: &[String], place: usize) -> Option<&str>
    ensures { option_map (λ word. word.now) result ≡ slice_get (map string_bytes words.now) place }
{
    words.get(place).map(|word| word.as_str())
}
