// Readers and writers of the standard library as inputs and outputs.
ghost use Rattle.std.specs.Prelude.{◌≡◌, IsTrue};
ghost use Rattle.tera_run_script.specs.Passage.{unused};
ghost use Rattle.tera_run_script.specs.Standard.{device_inside, passed_through};

use crate::stream::{Failure, Input, Output};
use crate::trace::Trace;
use std::io::{ErrorKind, Read, Write};

/// Does this with what the first attempt takes that is not interrupted. One that fails ends the attempts.
macro_rules! uninterrupted {
    ($attempt:expr, $taken:ident => $done:block) => {
        for _ in 0..u64::MAX {
            match $attempt {
                Ok($taken) => $done,
                Err(error) if error.kind() == ErrorKind::Interrupted => {}
                Err(_) => break,
            }
        }
    };
}

/// A reader as an input, or a writer as an output. A read or a write that was interrupted is tried again.
#[derive(Drop)]
pub struct Standard<D> {
    device: D,
    /// Whether nothing is owed any more: the reader has told its end, or the writer holds nothing back.
    is_settled: bool,
    trace: Trace,
}

/// A reader as an input.
pub type ReaderInput<R> = Standard<R>;

/// A writer as an output.
pub type WriterOutput<W> = Standard<W>;

impl<D> Standard<D> {
    /// Takes the device where it stands.
    pub fn new(device: D) -> Standard<D>
        ensures passed { passed_through result ≡ unused }
        ensures device { device_inside result ≡ device }
    {
        Standard {
            device,
            is_settled: false,
            trace: Trace::new(),
        }
    }

    /// The device, as it stands now.
    pub fn into_inner(self) -> D
        ensures { result ≡ device_inside self }
    {
        let Standard {
            device,
            is_settled: _,
            trace: _,
        } = self;
        device
    }
}

impl<R: Read> Input for Standard<R> {
    ghost passed = { passed_through };

    ghost ended = { λ s. IsTrue s.is_settled };

    ghost remaining = { λ s. R.remaining (device_inside s) };

    fn read(&mut self, buffer: &mut [u8]) -> Result<usize, Failure> {
        uninterrupted!(self.device.read(buffer), taken => {
            self.trace = Trace::with_piece(&self.trace, &buffer[..taken], 0);
            self.is_settled = taken == 0 && !buffer.is_empty();
            return Ok(taken);
        });
        Err(self.trace.fail())
    }
}

impl<W: Write> Output for Standard<W> {
    ghost passed = { passed_through };

    ghost settled = { λ s. IsTrue s.is_settled };

    ghost contents = { λ s. W.contents (device_inside s) };

    fn write(&mut self, piece: &[u8]) -> Result<usize, Failure> {
        self.is_settled = false;
        uninterrupted!(self.device.write(piece), taken => {
            if taken == 0 && !piece.is_empty() {
                break;
            }
            self.trace = Trace::with_piece(&self.trace, &piece[..taken], 0);
            return Ok(taken);
        });
        Err(self.trace.fail())
    }

    fn flush(&mut self) -> Result<(), Failure> {
        if self.device.flush().is_ok() {
            self.is_settled = true;
            return Ok(());
        }
        Err(self.trace.fail())
    }
}
