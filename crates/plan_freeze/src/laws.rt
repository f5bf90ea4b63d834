//! Laws of plates that are cut already. The functions do nothing: their contracts are the laws.

ghost use Rattle.plan_freeze.specs.Claims.{RestIsOne, RestIsPlanned, RestIsSame, RestLoses, WholeIsFound};

/// A plan that begins with the first plates of a lawful plan is lawful exactly where its other plates are a lawful plan of the instance that is
/// left; and it loses what those first plates lose, and what its other plates lose.
pub fn frozen_plans_are_plans_of_the_rest()
    ensures lawful { RestIsPlanned }
    ensures loss { RestLoses }
{}

/// The first plates of a plan, with others behind them, begin as the plan does, and behind them are these others.
pub fn joined_plans_begin_as_the_first()
    ensures { WholeIsFound }
{}

/// What is left behind the first plates of a lawful plan, and of any other plan that begins with them, is one instance.
pub fn rests_are_one()
    ensures { RestIsOne }
{}

/// What is left behind the first plates of a lawful plan is left behind those of every plan that begins with them and has more, and they lose the
/// same there.
pub fn rests_are_left_by_all()
    ensures { RestIsSame }
{}
