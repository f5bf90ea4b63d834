//! What a command line can speak of: the commands, what they store, their numbers, and the options.

use glass_base::Role;
use glass_base::limits::{MOST_DEFECTS, MOST_ITEMS, MOST_PLATES};

/// A command of `glass`.
#[derive(Clone, Copy, Debug)]
pub enum Verb {
    /// Stores the plan of the draft of a batch.
    Draft,
    /// Searches for a plan, and stores it with its certificate.
    Plan,
    /// Searches for a plan of an instance that is drawn.
    Gen,
    /// Judges a solution file.
    Judge,
    /// Judges a solution file and checks a certificate.
    Verify,
    /// Does what `Verify` does, and stores the certificate with its causes named.
    Convert,
    /// Does what `Verify` does, searches on in the boxes that the certificate leaves open, and stores the best plan and the joined certificate.
    Resume,
    /// Plans anew what stands behind the first plates of a plan, which are cut already.
    Freeze,
    /// Stores the sheet of a plan.
    Sheet,
    /// Follows a sheet.
    Replay,
}

/// What a command stores.
#[derive(Clone, Copy, Debug)]
pub enum Product {
    /// A plan.
    Plan,
    /// A certificate.
    Certificate,
    /// The sheet of a plan.
    Sheet,
    /// A picture of a plan.
    Picture,
}

impl Product {
    ghost use Rattle.std.specs.Prelude.{◌≡◌};
    ghost use Rattle.command_line.specs.Rows.{is_product, product_place};

    /// Its place in the order of what can be stored, from 0.
    fn place(self) -> usize
        ensures { result ≡ product_place self }
    {
        match self {
            Product::Plan => 0,
            Product::Certificate => 1,
            Product::Sheet => 2,
            Product::Picture => 3,
        }
    }

    /// Whether this is the same as another one.
    pub(crate) fn is(self, other: Product) -> bool
        ensures { result ≡ is_product self other }
    {
        self.place() == other.place()
    }
}

/// A number that stands before the names.
#[derive(Clone, Copy, Debug)]
pub enum Lead {
    /// The start from which an instance is drawn.
    Start,
    /// How many items are drawn.
    Items,
    /// How many defects are drawn.
    Defects,
    /// How many plates of a plan are cut already.
    Frozen,
}

impl Lead {
    ghost use Rattle.std.specs.Prelude.{◌≡◌};
    ghost use Rattle.command_line.specs.Rows.{is_lead, lead_place};
    ghost use Rattle.command_line.specs.Words.{lead_range};

    /// Its place in the order in which the numbers stand, from 0.
    fn place(self) -> usize
        ensures { result ≡ lead_place self }
    {
        match self {
            Lead::Start => 0,
            Lead::Items => 1,
            Lead::Defects => 2,
            Lead::Frozen => 3,
        }
    }

    /// Whether this is the same number as another one.
    pub(crate) fn is(self, other: Lead) -> bool
        ensures { result ≡ is_lead self other }
    {
        self.place() == other.place()
    }

    /// The least number of this kind.
    pub(crate) fn least(self) -> u32
        ensures { result ≡ (lead_range self).0 }
    {
        match self {
            Lead::Start => 0,
            Lead::Items => 1,
            Lead::Defects => 0,
            Lead::Frozen => 1,
        }
    }

    /// The greatest number of this kind.
    pub(crate) fn most(self) -> u32
        ensures { result ≡ (lead_range self).1 }
    {
        match self {
            Lead::Start => u32::MAX,
            Lead::Items => MOST_ITEMS as u32,
            Lead::Defects => MOST_DEFECTS as u32,
            Lead::Frozen => MOST_PLATES,
        }
    }
}

/// A count that an option sets.
#[derive(Clone, Copy, Debug)]
pub enum Count {
    /// How many workers a search has.
    Workers,
    /// How many boxes a search may close or split.
    Budget,
    /// How many plates of a plan are cut already.
    Frozen,
    /// How much work is done for a better first plan, in millions of ticks.
    Effort,
    /// For how many seconds a better first plan is looked for.
    Seconds,
    /// How many threads a search over fronts has that is to show the floor of a certificate, where no search for a plan
    /// follows.
    Checkers,
    /// How many labels are looked at in one search over fronts that is to show the floor of a certificate.
    FrontsLimit,
}

/// An option that has no value.
#[derive(Clone, Copy, Debug)]
pub enum Flag {
    /// The improvements of a search are printed as well.
    Watch,
    /// A search begins with what fronts show.
    Fronts,
}

/// An option of a command: it names a further file that is read, sets a number, or is a word without a value.
#[derive(Clone, Copy, Debug)]
pub enum LineOption {
    /// It names the file of this role.
    File(Role),
    /// It sets this number.
    Number(Count),
    /// It has no value.
    Word(Flag),
}
