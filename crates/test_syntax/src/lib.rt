//! Tests of the reader, and nothing else.
#![tactic(auto)]

#[cfg(test)]
mod tests;
