// What a run reads from, and what it writes to.
ghost use Rattle.std.specs.Prelude.{◌≡◌, ◌<◌, ◌↔◌, IfOk, OnOk, length};
ghost use Rattle.std.specs.Io.KnownBytes.{Keeps, ReadConsumes, WriteAppends};
ghost use Rattle.tera_run_script.specs.Passage.{Passes, Flushes};

/// A read or a write failed.
#[derive(Clone, Copy, Debug, PartialEq, Eq)]
pub struct Failure;

/// What a run reads from. It tells its bytes and its failures to contracts alone.
pub trait Input {
    ghost use Rattle.std.specs.Prelude.{List, None, Option, ℕ};
    ghost use Rattle.tera_run_script.specs.Passage.{Passage};

    /// The bytes that it has given so far, and how often it has failed.
    ghost passed: { Self → Passage };

    /// Whether it has told that it has no more to give.
    ghost ended: { Self → Type 0 };

    /// The bytes that its device has left to give, where they are known.
    ghost remaining: { Self → Option (List ℕ) } = { λ _. None };

    /// Puts the next bytes into the front of the buffer, and answers how many. None into a buffer that has room tells
    /// that there are no more.
    fn read(&mut self, buffer: &mut [u8]) -> Result<usize, Failure>
        ensures passed { Passes (passed self.old) (passed self.new) buffer.new result }
        ensures device { ReadConsumes (remaining self.old) (remaining self.new) result buffer.new }
        ensures end { IfOk result (λ n. (ended self.new) ↔ ((n ≡ 0) × (0 < length buffer.new))) };
}

/// What a run writes to. It tells its bytes and its failures to contracts alone.
pub trait Output {
    ghost use Rattle.std.specs.Prelude.{List, None, Option, ℕ};
    ghost use Rattle.tera_run_script.specs.Passage.{Passage};

    /// The bytes that it has taken so far, and how often it has failed.
    ghost passed: { Self → Passage };

    /// Whether it holds nothing back of what it took.
    ghost settled: { Self → Type 0 };

    /// The bytes that its device has taken, where they are known.
    ghost contents: { Self → Option (List ℕ) } = { λ _. None };

    /// Takes bytes from the front of the piece, and answers how many. To take none of a piece that is not empty is a
    /// failure.
    fn write(&mut self, piece: &[u8]) -> Result<usize, Failure>
        ensures passed { Passes (passed self.old) (passed self.new) piece.now result }
        ensures device { WriteAppends (contents self.old) (contents self.new) result piece.now }
        ensures progress { IfOk result (λ n. n ≡ 0 → length piece.now ≡ 0) };

    /// Hands on what it holds back.
    fn flush(&mut self) -> Result<(), Failure>
        ensures passed { Flushes (passed self.old) (passed self.new) result }
        ensures device { Keeps (contents self.old) (contents self.new) }
        ensures settled { OnOk result (settled self.new) };
}
