//! The fixed words of a picture.

ghost use Rattle.std.specs.Prelude.{◌≡◌};
ghost use Rattle.plan_picture.specs.Words.{class_text as class_of_words, key_text, reason_text};

use crate::mark::{Key, Words};
use cut_model::Rule;

/// What it means to break a rule.
pub(crate) fn reason(rule: Rule) -> &'static str
    ensures { result.now ≡ reason_text rule }
{
    match rule {
        Rule::L1 => "the pieces do not add up to the piece that is cut",
        Rule::L2 => "the piece has not the sides of its item",
        Rule::L3 => "a waste or the residual is too small",
        Rule::L4 => "the strip is too narrow or too wide",
        Rule::L5 => "the band is too low",
        Rule::L6 => "a cell is cut that holds no item, or the residual is out of place",
        Rule::L7 => "the item meets a defect",
        Rule::L8 => "the cut before the piece runs through a defect",
        Rule::L9Unknown => "the batch does not have the item",
        Rule::L9Twice => "the item is cut twice",
        Rule::L9Missing => "an item is not cut",
        Rule::L9EmptyPlate => "the plate has no item",
        Rule::L9Plates => "too many plates are used",
        Rule::L10 => "the item is cut too late for its stack",
    }
}

/// What a spot or a line of the legend stands for.
pub(crate) fn key_word(key: Key) -> &'static str
    ensures { result.now ≡ key_text key }
{
    match key {
        Key::Stacks => "items, a colour for each stack",
        Key::Waste => "waste",
        Key::Residual => "residual",
        Key::Defect => "defect",
        Key::Turned => "T turned",
        Key::Cuts => "cuts 1 to 4",
    }
}

/// The class by which a text is set.
pub(crate) fn class_of(words: &Words) -> &'static str
    ensures { result.now ≡ class_of_words words.now }
{
    match *words {
        Words::Number(_, _) | Words::Residual => "number",
        Words::Sides(_, _) | Words::Item(_, _, _, _) => "sides",
        Words::Plate(_, _, _) | Words::Loss(_, _) => "heading",
        Words::Unlawful(_) => "breach",
        Words::Reason(_) | Words::Counts(_, _) | Words::Key(_) => "key",
    }
}
