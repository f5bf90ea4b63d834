//! The variables of a step.

use plan_box::Var;

/// The variables of a step with their words in the book.
pub const VARS: [(Var, &str); 9] = [
    (Var::Stack, "stack"),
    (Var::Turn, "turn"),
    (Var::Kind, "kind"),
    (Var::Lift, "lift"),
    (Var::A, "a"),
    (Var::B, "b"),
    (Var::C, "c"),
    (Var::D, "d"),
    (Var::E, "e"),
];

/// The variable with this word.
pub fn var_of(word: &str) -> Option<Var> {
    for (var, name) in VARS {
        if name == word {
            return Some(var);
        }
    }
    None
}
