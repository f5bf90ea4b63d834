//! Sets of sizes, as the rule of least waste makes them. All sizes are in mm.

ghost use Rattle.std.specs.Prelude.{◌≡◌, ℕ, ◌+◌, ◌≤◌, ◌<◌, ◌↔◌, IsTrue, IfSome, IfNone};
ghost use Rattle.plan_trace.specs.TraceRules.{Gap};
ghost use Rattle.front_table.specs.Sets.{Has};

/// The least size, and all that are at least `more` greater. A piece that has to be filled or else leave the least waste can have these sizes; so
/// can the sums and the common sizes of such sets.
#[derive(Clone, Copy)]
pub struct SizeSet {
    pub least: u32,
    pub more: u32,
}

impl SizeSet {
    /// Where all sizes are in it.
    fn from(&self) -> u64
        ensures { result ≡ self.now.least + self.now.more }
    {
        u64::from(self.least) + u64::from(self.more)
    }

    /// Whether it has this size.
    pub fn has(&self, size: u32) -> bool
        ensures { IsTrue result ↔ Has self.now size }
    {
        size == self.least || self.from() <= u64::from(size)
    }

    /// The sums of a size of each, or none where all are above `most`.
    pub fn plus(&self, other: &SizeSet, most: u32) -> Option<SizeSet>
        ensures sums { IfSome result (λ s. (x y : ℕ) → Has self.now x → Has other.now y
            → Has s (x + y)) }
        ensures none { IfNone result ((x y : ℕ) → Has self.now x → Has other.now y → most < x + y) }
    {
        let least = u64::from(self.least) + u64::from(other.least);
        if least > u64::from(most) {
            return None;
        }
        Some(SizeSet {
            least: least as u32,
            more: self.more.min(other.more),
        })
    }

    /// This size, and all from there on.
    fn reaching(least: u32, from: u64) -> SizeSet
        requires { least ≤ from }
        ensures least { result.least ≡ least }
        ensures from { result.least + result.more ≤ from }
    {
        let more = (from - u64::from(least)).min(u64::from(u32::MAX));
        SizeSet {
            least,
            more: more as u32,
        }
    }

    /// All sizes from there on.
    pub fn above(from: u64) -> SizeSet
        ensures { result.least + result.more ≤ from }
    {
        SizeSet::reaching(from.min(u64::from(u32::MAX)) as u32, from)
    }

    /// All sizes.
    pub fn all() -> SizeSet
        ensures value { result ≡ record { least = 0; more = 0 } }
        ensures each { (x : ℕ) → Has result x }
    {
        SizeSet { least: 0, more: 0 }
    }

    /// A size of each that come to this sum, where there are such.
    pub fn parts(&self, other: &SizeSet, sum: u32) -> Option<(u32, u32)>
        ensures { IfSome result (λ p. Has self.now p.0 × Has other.now p.1 × (p.0 + p.1 ≡ sum)) }
    {
        let behind = sum.saturating_sub(self.least);
        if self.least <= sum && other.has(behind) {
            return Some((self.least, behind));
        }
        let before = sum.saturating_sub(other.least);
        if other.least <= sum && self.has(before) {
            return Some((before, other.least));
        }
        None
    }

    /// The sizes that both have.
    pub fn meet(&self, other: &SizeSet) -> SizeSet
        ensures { (x : ℕ) → Has self.now x → Has other.now x → Has result x }
    {
        let from = self.from().max(other.from());
        if other.has(self.least) {
            return SizeSet::reaching(self.least, from);
        }
        if self.has(other.least) {
            return SizeSet::reaching(other.least, from);
        }
        SizeSet::above(from)
    }

    /// With each size that one of them leaves a gap to: nothing, or at least this waste.
    pub fn closed(&self, waste: u32) -> SizeSet
        ensures least { result.least ≡ self.now.least }
        ensures gaps { (x y : ℕ) → Has self.now x → Gap waste x y → Has result y }
    {
        SizeSet {
            least: self.least,
            more: self.more.min(waste),
        }
    }

    /// This size alone, of those below 2^32 - 1.
    pub fn only(size: u32) -> SizeSet
        ensures { Has result size }
    {
        SizeSet {
            least: size,
            more: u32::MAX,
        }
    }

    /// Whether it has each size that the other has.
    pub fn covers(&self, other: &SizeSet) -> bool
        ensures { IsTrue result → (x : ℕ) → Has other.now x → Has self.now x }
    {
        self.has(other.least) && self.from() <= other.from()
    }
}
