//! Tests of calls of the libraries that no command makes, or whose answers no command shows.
#![tactic(auto)]

#[cfg(test)]
mod arms;
#[cfg(test)]
mod board;
#[cfg(test)]
mod seats;
#[cfg(test)]
mod tests;
#[cfg(test)]
mod workers;
