//! Tests of the search with several workers: that they share the work, the loss that they know, and the budget.
#![tactic(auto)]

#[cfg(test)]
mod boxes;
#[cfg(test)]
mod commands;
#[cfg(test)]
mod counts;
#[cfg(test)]
mod efforts;
#[cfg(test)]
mod fronts;
#[cfg(test)]
mod passes;
#[cfg(test)]
mod searched;
#[cfg(test)]
mod shares;
#[cfg(test)]
mod turns;
#[cfg(test)]
mod watched;
