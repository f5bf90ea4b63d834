//! Tests of the system's files and of standard output.
#![tactic(auto)]

#[cfg(test)]
mod tests;
