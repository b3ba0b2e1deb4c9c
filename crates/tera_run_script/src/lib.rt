//! Scripts for the template engine: their commands, what each is answered, and a whole run from bytes to bytes.
#![tactic(auto)]

mod body;
pub mod command;
mod execute;
mod lines;
pub mod outcome;
mod output;
mod preview;
pub mod program;
mod reading;
pub mod reply;
mod script;
pub mod standard;
pub mod stream;
mod trace;

pub use command::Command;
pub use execute::run_commands;
pub use outcome::{Outcome, complaint};
pub use program::run;
pub use reply::Reply;
pub use standard::{ReaderInput, WriterOutput};
pub use stream::{Failure, Input, Output};
