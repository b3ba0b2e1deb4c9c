// Where the machine stands in the code that it runs.
use tera_code::{Chunk, Steps, Tally};

/// A position in a chunk, with the count of the instructions that were handed out.
#[derive(Drop)]
pub(crate) struct Cursor<'c, 's, T: Tally> {
    pub(crate) chunk: &'c Chunk,
    pub(crate) at: usize,
    pub(crate) steps: &'s mut Steps<T>,
}
