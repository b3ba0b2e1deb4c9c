//! Tests that go through more than one crate, and nothing else.
#![tactic(auto)]

pub mod own;
#[cfg(test)]
mod tests;
