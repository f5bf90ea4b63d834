//! What holds of rings.
ghost use Rattle.std.specs.Prelude.{List};
ghost use Rattle.box_ring.specs.Arms.{ArmState, Stays, EachStays, IsRing};

/// A ring stays one, whatever its arms push, pop and steal, and however often.
pub fn rings_stay()
    ensures none { (a : ArmState) → Stays a a }
    ensures twice { (a b c : ArmState) → Stays a b → Stays b c → Stays a c }
    ensures ring { (old new : List ArmState) → EachStays old new → IsRing old → IsRing new }
{}
