// What a run comes to.
ghost use Rattle.std.specs.Prelude.{◌≡◌};
ghost use Rattle.tera_run_script.specs.Device.{ToDevice};
ghost use Rattle.tera_run_script.specs.Run.{status_of, Complains};

use crate::output::write_and_flush;
use crate::stream::Output;
use itoa::Buffer;

/// What a run came to.
#[derive(Clone, Copy, Debug, PartialEq, Eq)]
pub enum Outcome {
    /// Every line was readable, and every command was answered.
    Done,
    /// The line with this number, counted from 1, is no command; those before it were answered.
    Unreadable(usize),
    /// A read or a write failed.
    Device,
    /// The input, its commands or their replies found no room.
    NoMemory,
}

impl Outcome {
    /// The exit status of the program.
    pub fn status(&self) -> u8
        ensures { result ≡ status_of self.now }
    {
        match self {
            Outcome::Done => 0,
            Outcome::Unreadable(_) => 2,
            Outcome::Device => 3,
            Outcome::NoMemory => 4,
        }
    }
}

/// Writes a line for an unreadable command, and has it handed on; for any other outcome it writes nothing. It takes no memory,
/// and a failure of the writer is ignored.
pub fn complaint<W: Output>(outcome: &Outcome, writer: &mut W)
    ensures complains { Complains (W.passed writer.old) (W.passed writer.new)
        (W.settled writer.new) outcome.now }
    ensures device { ToDevice W.passed W.contents writer.old writer.new }
{
    if let Outcome::Unreadable(line) = outcome {
        let mut number = Buffer::new();
        let _ = write_and_flush(
            writer,
            &[
                b"unreadable command at line ",
                number.format(*line).as_bytes(),
                b"\n",
            ],
        );
    }
}
