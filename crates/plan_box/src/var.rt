//! The nine numbers of a step, as variables of a box.

/// A number of a step.
#[derive(Clone, Copy, Debug, PartialEq, Eq)]
pub enum Var {
    /// The stack whose next item is cut.
    Stack,
    /// 1 where the item is turned.
    Turn,
    /// The outermost piece that is new since the item before.
    Kind,
    /// 1 where a waste lies under the item in its cell.
    Lift,
    /// The left side of the strip.
    A,
    /// The right side of the strip.
    B,
    /// The lower side of the band.
    C,
    /// The upper side of the band.
    D,
    /// The left side of the cell.
    E,
}

impl Var {
    ghost use Rattle.std.specs.Prelude.{◌≡◌};
    ghost use Rattle.plan_box.specs.Decisions.{is_discrete as is_discrete_var, level_at, opens};
    ghost use Rattle.plan_box.specs.Vars.{var_number};

    /// Its place in their order, from 0.
    pub fn number(self) -> u32
        ensures { result ≡ var_number self }
    {
        match self {
            Var::Stack => 0,
            Var::Turn => 1,
            Var::Kind => 2,
            Var::Lift => 3,
            Var::A => 4,
            Var::B => 5,
            Var::C => 6,
            Var::D => 7,
            Var::E => 8,
        }
    }

    /// Whether it is one of the numbers that are known of every decided step.
    pub fn is_discrete(self) -> bool
        ensures { result ≡ is_discrete_var self }
    {
        match self {
            Var::Stack => true,
            Var::Turn => true,
            Var::Kind => true,
            Var::Lift => true,
            Var::A => false,
            Var::B => false,
            Var::C => false,
            Var::D => false,
            Var::E => false,
        }
    }

    /// Whether a decided step of this kind opens it. The first step begins a plate whatever its kind.
    pub fn is_opened(self, step: u32, kind: u32) -> bool
        ensures { result ≡ opens (level_at step kind) self }
    {
        let level = if step == 0 { 0 } else { kind };
        match self {
            Var::Stack => false,
            Var::Turn => false,
            Var::Kind => false,
            Var::Lift => false,
            Var::A => level < 2,
            Var::B => level < 2,
            Var::C => level < 3,
            Var::D => level < 3,
            Var::E => level < 4,
        }
    }
}
