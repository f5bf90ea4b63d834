//! A lower bound on the length of every lawful plan, by a search over fronts.
#![tactic(auto)]

mod begins;
pub mod bounds;
mod classes;
mod ending;
pub mod front_search;
mod holes;
pub mod losses;
mod nearby;
mod onward;
mod outset;
mod placed_bands;
mod placed_cells;
mod placed_sides;
mod placed_strips;
mod places;
pub mod runs;
mod side_lanes;
mod side_level;
mod sides;
mod slack;
mod stretch;
