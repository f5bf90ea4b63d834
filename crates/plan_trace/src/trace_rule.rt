//! The rules of a trace.

ghost use Rattle.std.specs.Prelude.{◌≡◌};
ghost use Rattle.plan_trace.specs.TraceRules.{rule_number};

/// A rule of a trace, in the order in which they are asked.
#[derive(Clone, Copy)]
pub enum TraceRule {
    TR1,
    TR2,
    TR3,
    TR4,
    TR5,
    TR6,
    TR7,
    TR8,
    TR9,
}

impl TraceRule {
    /// All of them, in their order.
    pub const ALL: [TraceRule; 9] = [
        TraceRule::TR1,
        TraceRule::TR2,
        TraceRule::TR3,
        TraceRule::TR4,
        TraceRule::TR5,
        TraceRule::TR6,
        TraceRule::TR7,
        TraceRule::TR8,
        TraceRule::TR9,
    ];

    /// Its number, from 1 on.
    pub fn number(self) -> u32
        ensures { result ≡ rule_number self }
    {
        match self {
            TraceRule::TR1 => 1,
            TraceRule::TR2 => 2,
            TraceRule::TR3 => 3,
            TraceRule::TR4 => 4,
            TraceRule::TR5 => 5,
            TraceRule::TR6 => 6,
            TraceRule::TR7 => 7,
            TraceRule::TR8 => 8,
            TraceRule::TR9 => 9,
        }
    }
}
