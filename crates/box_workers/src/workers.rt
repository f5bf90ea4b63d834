//! The workers of a search.

ghost use Rattle.std.specs.Prelude.{◌≤◌};

/// The workers of a search: on what they run, how many there are, and the poster of which each has a copy that it tells of its plans.
#[derive(Drop)]
pub(crate) struct Workers<'w, R, Q> {
    pub(crate) rt: &'w R,
    pub(crate) count: u32,
    pub(crate) poster: &'w Q,
    ghost few: { (1 ≤ count) × (count ≤ 8) },
}
