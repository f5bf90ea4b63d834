//! What a search runs on.

use crate::options::Options;

/// What a search runs on: its threads, the gate that its workers pass, and what is asked of it.
#[derive(Drop)]
pub struct Workforce<'a, R, G> {
    pub rt: &'a R,
    pub gate: &'a G,
    pub options: Options,
}
