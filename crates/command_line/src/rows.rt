//! The rows of the commands: which words each of them has.

ghost use Rattle.std.specs.Prelude.{◌≡◌};

use crate::kinds::{Count, Flag, Lead, LineOption, Product, Verb};
use glass_base::Role;

/// What the words of a command are: its own word, then a number for each of `leads`, a name for each file that it reads
/// and for each that it stores, in this order, and then options. A dash may stand in the place of a file that it can do
/// without.
#[derive(Clone, Copy)]
pub struct Form {
    pub word: &'static str,
    pub leads: &'static [Lead],
    pub reads: &'static [Role],
    pub without: &'static [Role],
    pub stores: &'static [Product],
    pub options: &'static [LineOption],
}

impl Form {
    ghost use Rattle.std.specs.Prelude.{◌+◌, length};
    ghost use Rattle.command_line.specs.Lines.{pattern_in};

    /// How many names there are: those of the files that are read, and those of the files that are stored.
    pub(crate) fn names(self) -> usize
        ensures { result ≡ length (pattern_in self).reads + length (pattern_in self).stores }
    {
        self.reads.len() + self.stores.len()
    }
}

/// What most commands are: they read a batch and its defects, and options name files of other parameters and other
/// plates.
const USUAL: Form = Form {
    word: "",
    leads: &[],
    reads: &[Role::Batch, Role::Defects],
    without: &[],
    stores: &[],
    options: &[
        LineOption::File(Role::Params),
        LineOption::File(Role::Plates),
    ],
};

/// What commands are that check a certificate: they can do without a plan, and a search over fronts may show the
/// certificate's floor.
const CHECK: Form = Form {
    reads: &[Role::Batch, Role::Defects, Role::Plan, Role::Cert],
    without: &[Role::Plan],
    options: &[
        LineOption::File(Role::Params),
        LineOption::File(Role::Plates),
        LineOption::Number(Count::Checkers),
        LineOption::Number(Count::FrontsLimit),
    ],
    ..USUAL
};

/// What commands store that search for a plan.
const FOUND: [Product; 2] = [Product::Plan, Product::Certificate];

/// The one command of the program that draws, which has no word of its own.
pub(crate) const PICTURE: Form = Form {
    reads: &[Role::Batch, Role::Defects, Role::Plan],
    stores: &[Product::Picture],
    ..USUAL
};

/// The commands of `glass`.
pub(crate) const VERBS: [Verb; 10] = [
    Verb::Draft,
    Verb::Plan,
    Verb::Gen,
    Verb::Judge,
    Verb::Verify,
    Verb::Convert,
    Verb::Resume,
    Verb::Freeze,
    Verb::Sheet,
    Verb::Replay,
];

/// The order in which the files of a command line are fetched and read.
pub const FETCH_ORDER: [Role; 7] = [
    Role::Batch,
    Role::Defects,
    Role::Params,
    Role::Plates,
    Role::Plan,
    Role::Cert,
    Role::Sheet,
];

impl Verb {
    ghost use Rattle.command_line.specs.Rows.{pattern_of};
    ghost use Rattle.command_line.specs.Lines.{pattern_in};

    /// The row of the command.
    pub(crate) fn form(self) -> Form
        ensures { pattern_in result ≡ pattern_of self }
    {
        match self {
            Verb::Draft => Form {
                word: "draft",
                reads: &[Role::Batch],
                stores: &[Product::Plan],
                ..USUAL
            },
            Verb::Plan => Form {
                word: "plan",
                stores: &FOUND,
                options: &[
                    LineOption::File(Role::Params),
                    LineOption::File(Role::Plates),
                    LineOption::File(Role::Plan),
                    LineOption::Number(Count::Workers),
                    LineOption::Number(Count::Budget),
                    LineOption::Number(Count::Effort),
                    LineOption::Number(Count::Seconds),
                    LineOption::Word(Flag::Watch),
                    LineOption::Word(Flag::Fronts),
                ],
                ..USUAL
            },
            Verb::Gen => Form {
                word: "gen",
                leads: &[Lead::Start, Lead::Items, Lead::Defects],
                reads: &[],
                stores: &FOUND,
                options: &[
                    LineOption::Number(Count::Workers),
                    LineOption::Number(Count::Budget),
                    LineOption::Number(Count::Effort),
                    LineOption::Number(Count::Seconds),
                    LineOption::Word(Flag::Fronts),
                ],
                ..USUAL
            },
            Verb::Judge => Form {
                word: "judge",
                reads: &[Role::Batch, Role::Defects, Role::Plan],
                ..USUAL
            },
            Verb::Verify => Form {
                word: "verify",
                options: &[
                    LineOption::File(Role::Params),
                    LineOption::File(Role::Plates),
                    LineOption::Number(Count::Frozen),
                    LineOption::Number(Count::Checkers),
                    LineOption::Number(Count::FrontsLimit),
                ],
                ..CHECK
            },
            Verb::Convert => Form {
                word: "convert",
                stores: &[Product::Certificate],
                ..CHECK
            },
            Verb::Resume => Form {
                word: "resume",
                stores: &FOUND,
                options: &[
                    LineOption::File(Role::Params),
                    LineOption::File(Role::Plates),
                    LineOption::Number(Count::Workers),
                    LineOption::Number(Count::Budget),
                    LineOption::Number(Count::Effort),
                    LineOption::Number(Count::Seconds),
                    LineOption::Number(Count::FrontsLimit),
                    LineOption::Word(Flag::Fronts),
                ],
                ..CHECK
            },
            Verb::Freeze => Form {
                word: "freeze",
                leads: &[Lead::Frozen],
                reads: &[Role::Batch, Role::Defects, Role::Plan],
                stores: &FOUND,
                options: &[
                    LineOption::File(Role::Params),
                    LineOption::File(Role::Plates),
                    LineOption::Number(Count::Workers),
                    LineOption::Number(Count::Budget),
                    LineOption::Number(Count::Effort),
                    LineOption::Number(Count::Seconds),
                    LineOption::Word(Flag::Fronts),
                ],
                ..USUAL
            },
            Verb::Sheet => Form {
                word: "sheet",
                reads: &[Role::Batch, Role::Defects, Role::Plan],
                stores: &[Product::Sheet],
                ..USUAL
            },
            Verb::Replay => Form {
                word: "replay",
                reads: &[Role::Batch, Role::Defects, Role::Sheet],
                ..USUAL
            },
        }
    }
}
