//! An engine for callers that lend bytes and take bytes: beside the engine it keeps what waits to be added, and what the last call
//! made. `tera_c` hands it to C.
#![tactic(auto)]

pub mod answer;
pub mod naming;
pub mod numbers;
pub mod one_off;
pub mod output;
pub mod renderer;
pub mod rendering;
pub mod report;
pub mod settings;

pub use answer::{Answer, NO_RENDERER};
pub use numbers::floats_if;
pub use one_off::render_once;
pub use output::CallOutput;
pub use renderer::Renderer;
pub use report::{Report, placeless};
