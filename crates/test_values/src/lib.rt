//! Tests of values, of arguments by name, of operators and of the contexts of components: each call that takes memory once
//! with ample memory, and the rows that no clause says.
#![tactic(auto)]

#[cfg(test)]
mod arguments;
#[cfg(test)]
mod components;
#[cfg(test)]
mod constructors;
#[cfg(test)]
mod names;
#[cfg(test)]
mod numbers;
#[cfg(test)]
mod operators;
#[cfg(test)]
mod order;
#[cfg(test)]
mod parts;
#[cfg(test)]
mod sample;
