//! Beams over partial traces: two for a first plan, and wide ones behind them. What they find is only a guess, which
//! has to be asked of the rules.
#![tactic(auto)]

mod arena;
mod chains;
mod clearance;
mod crew;
mod demands;
mod expanding;
mod fitting;
mod form;
mod gaps;
mod guide;
mod hands;
mod lanes;
mod ledger;
mod lists;
mod measure;
mod node;
mod pace;
mod paths;
mod placing;
mod planning;
mod pools;
mod rest;
mod scene;
mod schedule;
mod searching;
mod seats;
mod shapes;
mod sheet;
mod sieves;
mod stock;
mod stretching;
mod strip;
mod taken;
mod task;
mod ticks;

pub use crew::Crew;
pub use pace::{Pace, TICKS};
pub use planning::{BeamPlan, Beams, Widely};
pub use schedule::{WideBeam, round_ticks, tail_ticks};
