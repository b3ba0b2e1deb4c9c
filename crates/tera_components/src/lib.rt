//! Components as they are defined, and the contexts in which they run.
#![tactic(auto)]

pub mod argument;
pub mod definition;
pub mod faults;
pub mod info;
pub mod literals;

pub use argument::ComponentArg;
pub use definition::ComponentDefinition;
pub use info::ComponentInfo;
