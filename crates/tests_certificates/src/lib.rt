//! Tests of the reader and of the checker of certificates, called as a library.
#![tactic(auto)]

#[cfg(test)]
mod tests;
