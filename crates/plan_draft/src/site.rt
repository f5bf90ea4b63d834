//! A plate of an instance, with its defects.

use defect_map::Ground;

/// A plate on which a strip is to begin.
#[derive(Clone, Copy)]
pub struct Site<'a> {
    pub ground: Ground<'a>,
    pub plate: u32,
}
