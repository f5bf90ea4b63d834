//! How a run ends.

ghost use Rattle.std.specs.Prelude.{◌≡◌};
ghost use Rattle.run_frame.specs.Codes.{code_of, word_of};

/// How a run ended.
#[derive(Clone, Copy, Debug, PartialEq, Eq)]
pub enum Status {
    /// A plan was found, and no box is open.
    Optimal,
    /// A box is open; the budget was spent.
    Stopped,
    /// No box is open, and there is no plan.
    Infeasible,
    /// The words are no command.
    Usage,
    /// A file could not be read.
    ReadFault,
    /// There is no file of a name.
    Absent,
    /// A file is longer than its limit.
    TooLong,
    /// A text, or the instance, is refused.
    BadInput,
    /// Memory ran out.
    Memory,
    /// A plan is not lawful.
    Unlawful,
    /// A certificate is refused.
    Refused,
    /// An item has no place in the draft.
    NoDraft,
    /// A file could not be stored, or the lines not written.
    WriteFault,
    /// The command did what it is for.
    Done,
}

impl Status {
    /// The status that the program ends with: 0 to 12 in the order of the variants, and 0 for `Done`.
    pub fn code(&self) -> u8
        ensures { result ≡ code_of self.now }
    {
        match self {
            Status::Optimal => 0,
            Status::Stopped => 1,
            Status::Infeasible => 2,
            Status::Usage => 3,
            Status::ReadFault => 4,
            Status::Absent => 5,
            Status::TooLong => 6,
            Status::BadInput => 7,
            Status::Memory => 8,
            Status::Unlawful => 9,
            Status::Refused => 10,
            Status::NoDraft => 11,
            Status::WriteFault => 12,
            Status::Done => 0,
        }
    }

    /// The word that is printed for how a search ended; the other statuses have none.
    pub fn word(&self) -> &'static str
        ensures { result.now ≡ word_of self.now }
    {
        match self {
            Status::Optimal => "optimal",
            Status::Stopped => "stopped",
            Status::Infeasible => "infeasible",
            _ => "",
        }
    }
}
