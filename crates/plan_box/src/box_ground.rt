//! What the reasons of a box are asked of.

use defect_map::Ground;

/// What the reasons of a box are asked of at its decided steps.
#[derive(Clone, Copy)]
pub struct BoxGround<'a> {
    pub ground: Ground<'a>,
    /// Whether all steps of the box are decided, so that its last pieces are known to be the last ones.
    pub whole: bool,
}
