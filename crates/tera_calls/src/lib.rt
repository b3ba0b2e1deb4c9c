//! Calls of an engine as data, and the law over lists of them: what a rendering answers after any calls that configure and add.
#![tactic(auto)]

pub mod after_calls;
pub mod call;
pub mod laws;
pub mod object_types;
pub mod rendering;

pub use after_calls::{AppendedOutcome, CallsOutcome, render_after, render_to_after};
pub use call::{Call, CallOver, make_call, make_calls};
pub use object_types::ObjectTypes;
pub use rendering::{EngineRendering, Rendering, render_call, render_call_to};
