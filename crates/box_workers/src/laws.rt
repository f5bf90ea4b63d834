//! Laws of what workers did. The functions do nothing: their contracts are the laws.
ghost use Rattle.box_workers.specs.Histories.{AccountsAreLawful};

/// What workers did together, whatever their number and the order of their notes, is a lawful history.
pub fn accounts_are_lawful()
    ensures { AccountsAreLawful }
{}
