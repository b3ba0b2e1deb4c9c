// An open loop of the body that runs.
use tera_values::Value;

/// Where the body of an open loop starts in the code, how many instructions it has, and what a comprehension kept so far.
#[derive(Drop)]
pub struct LoopPlace {
    pub start: usize,
    pub size: usize,
    pub kept: Vec<Value>,
}
