// What went through a stream, for contracts alone.
ghost use Rattle.std.specs.Prelude.{◌≡◌, ◌+◌, ◌++◌, ℕ, List, []};
ghost use Rattle.std.specs.Borrow.{ftrue};

use crate::stream::Failure;
use std::marker::Model;

/// The bytes that went through a stream so far, and how often it failed. It takes no memory, and its functions do
/// nothing when they run. Only their contracts say what it holds.
#[derive(Drop)]
pub struct Trace {
    pub ghost bytes: { List ℕ },
    pub ghost failures: { ℕ },
}

impl Model for Trace {
    ghost also_owns = { λ _. ftrue };
}

impl Trace {
    /// Nothing went through yet.
    pub fn new() -> Trace
        ensures { (result.bytes ≡ []) × (result.failures ≡ 0) }
    {
        Trace {}
    }

    /// A piece more, and so many failures more.
    pub fn with_piece(before: &Trace, piece: &[u8], failures: usize) -> Trace
        ensures { (result.bytes ≡ before.now.bytes ++ piece.now)
            × (result.failures ≡ before.now.failures + failures) }
    {
        Trace {}
    }

    /// Nothing more went through, and one failure more.
    pub fn fail(&mut self) -> Failure
        ensures { (self.new.bytes ≡ self.old.bytes)
            × (self.new.failures ≡ self.old.failures + 1) }
    {
        *self = Trace::with_piece(self, &[], 1);
        Failure
    }
}
