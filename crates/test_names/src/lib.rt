//! Tests that call each public name by way of `tera` alone, and nothing else.
#![tactic(auto)]

pub mod own;
#[cfg(test)]
mod tests;
