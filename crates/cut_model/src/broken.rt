//! Which rule a plan breaks, and what is found of a plan.

ghost use Rattle.std.specs.Prelude.{◌≡◌};
ghost use Rattle.cut_model.specs.Words.{rule_word};

/// The rules of a lawful plan, in the order in which they are judged. L9 has five ways to be broken.
#[derive(Clone, Copy, Debug, PartialEq, Eq)]
pub enum Rule {
    /// A plate or a piece that is cut has no child, or its children do not add up to its size.
    L1,
    /// An item piece has not its item's sides, in one of the two turns.
    L2,
    /// A side of a waste, or the width of the residual, is less than the least waste.
    L3,
    /// A 1-piece that is neither waste nor residual is too narrow or too wide.
    L4,
    /// A 2-piece that is no waste is not high enough.
    L5,
    /// A 3-piece that is cut holds no item, or a residual is not the last 1-piece of the last plate.
    L6,
    /// An item meets a defect.
    L7,
    /// A cut between two neighbours runs through a defect.
    L8,
    /// An item is cut that the batch does not have.
    L9Unknown,
    /// An item is cut again.
    L9Twice,
    /// An item of the batch is not cut.
    L9Missing,
    /// A plate has no item.
    L9EmptyPlate,
    /// There are more plates than the parameters allow.
    L9Plates,
    /// An item is cut after one of its stack that has a higher sequence.
    L10,
}

impl Rule {
    /// The word by which lines and pictures name the rule.
    pub fn word(self) -> &'static str
        ensures { result.now ≡ rule_word self }
    {
        match self {
            Rule::L1 => "L1",
            Rule::L2 => "L2",
            Rule::L3 => "L3",
            Rule::L4 => "L4",
            Rule::L5 => "L5",
            Rule::L6 => "L6",
            Rule::L7 => "L7",
            Rule::L8 => "L8",
            Rule::L9Unknown => "L9unknown",
            Rule::L9Twice => "L9twice",
            Rule::L9Missing => "L9missing",
            Rule::L9EmptyPlate => "L9emptyplate",
            Rule::L9Plates => "L9plates",
            Rule::L10 => "L10",
        }
    }
}

/// The rule that a plan breaks, the plate and the node that break it, and the two numbers that disagree.
#[derive(Clone, Copy, Debug, PartialEq, Eq)]
pub struct Broken {
    pub rule: Rule,
    pub plate: u32,
    pub node: u64,
    pub left: u64,
    pub right: u64,
}

/// What is found of a plan.
#[derive(Clone, Copy)]
pub enum Verdict {
    /// The plan is lawful and loses this much glass, in mm².
    Lawful(u64),
    /// The plan is not lawful: its first breach.
    Broken(Broken),
}
