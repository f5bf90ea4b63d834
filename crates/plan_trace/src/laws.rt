//! Laws of traces and of their canonical plans. The functions do nothing: their contracts are the laws.

ghost use Rattle.plan_trace.specs.Claims.{CanonicalIsGood, CanonicalLoses, CanonicalIsTraced, MeetsKeepsKinds, BrokenDoesNotMeet, BrokenIsOne, CompleteExactly, LawfulLoses, LawfulMeets};

/// The canonical plan of a trace that has a step for each item and meets the rules is lawful, fits, and has at most
/// 1,000,000,000 rows.
pub fn canonical_plans_are_good()
    ensures { CanonicalIsGood }
{}

/// The canonical plan of such a trace loses the area of all that lies before the trace's end, less the items.
pub fn canonical_plans_lose_their_length()
    ensures { CanonicalLoses }
{}

/// The trace of the canonical plan of a trace that meets the rules is that trace.
pub fn canonical_plans_have_their_trace()
    ensures { CanonicalIsTraced }
{}

/// A trace that meets the rules begins with a plate, has kinds 0 to 4, and begins no plate too many.
pub fn traces_keep_their_kinds()
    ensures { MeetsKeepsKinds }
{}

/// A trace has one first broken rule and step at the most, and then it does not meet the rules.
pub fn breaches_are_one()
    ensures one { BrokenIsOne }
    ensures broken { BrokenDoesNotMeet }
{}

/// The trace of a lawful plan has a step for each item and meets the nine rules.
pub fn lawful_plans_meet()
    ensures { LawfulMeets }
{}

/// The trace of a lawful plan loses no more than the plan.
pub fn lawful_plans_lose()
    ensures { LawfulLoses }
{}

/// A trace has a step for each item and meets the nine rules exactly where some lawful plan has it.
pub fn complete_traces_are_those_of_lawful_plans()
    ensures { CompleteExactly }
{}
