// The blocks that ended, for contracts alone.
ghost use Rattle.std.specs.Prelude.{◌≡◌, ◌++◌, [], ◌∷◌, List};
ghost use Rattle.std.specs.Borrow.{ftrue};
ghost use Rattle.tera_errors.specs.Prelude.{Name, Text};

use std::marker::Model;

/// The blocks that ended so far, each with its text. It takes no memory, and its functions do nothing when they run. Only
/// contracts say what it holds.
#[derive(Drop)]
pub struct EndedBlocks {
    pub ghost all: { List (Name × Text) },
}

impl Model for EndedBlocks {
    ghost also_owns = { λ _. ftrue };
}

impl EndedBlocks {
    /// No block ended yet.
    pub fn new() -> EndedBlocks
        ensures { result.all ≡ [] }
    {
        EndedBlocks {}
    }

    /// These, those that ended in a body, and the block of that body, with its text.
    pub fn with_block(
        before: &EndedBlocks,
        inside: &EndedBlocks,
        name: &[u8],
        text: &[u8],
    ) -> EndedBlocks
        ensures { result.all ≡ before.now.all ++ (inside.now.all ++ (name.now, text.now) ∷ []) }
    {
        EndedBlocks {}
    }

    /// These, and those that ended in a body.
    pub fn join(before: &EndedBlocks, inside: &EndedBlocks) -> EndedBlocks
        ensures { result.all ≡ before.now.all ++ inside.now.all }
    {
        EndedBlocks {}
    }
}
