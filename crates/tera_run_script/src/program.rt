// A whole run, from the bytes of a script to the bytes of its replies.
ghost use Rattle.std.specs.Prelude.{OnOk};
ghost use Rattle.std.specs.List.{flat_map};
ghost use Rattle.tera.specs.Prelude.{registry_of};
ghost use Rattle.tera_run_script.specs.Device.{FromDevice, HasEnded, ToDevice, Writes};
ghost use Rattle.tera_run_script.specs.Reply.{line_of, reply_seen};
ghost use Rattle.tera_run_script.specs.Run.{Ran};

use crate::execute::run_commands;
use crate::outcome::Outcome;
use crate::reading::{ReadError, read_all};
use crate::reply::{Reply, write_reply};
use crate::script::script_of;
use crate::stream::{Failure, Input, Output};
use std::alloc::Global;
use tera::{Objects, TeraOver};

/// Reads a script to its end, runs its commands on the engine, and then writes their replies. Commands are read up to
/// the first unreadable line. Room for all replies is taken before the first command, and writing takes none.
pub fn run<R: Input, W: Output, O: Objects>(
    alloc: Global,
    reader: &mut R,
    writer: &mut W,
    engine: &mut TeraOver<O>,
) -> Outcome
    ensures ran { Ran (registry_of O.engine engine.old) (registry_of O.engine engine.new)
        (R.passed reader.old) (R.passed reader.new) (HasEnded R.ended R.remaining reader.new)
        (W.passed writer.old) (W.passed writer.new) (W.settled writer.new) result }
    ensures input { FromDevice R.passed R.remaining reader.old reader.new }
    ensures output { ToDevice W.passed W.contents writer.old writer.new }
{
    let bytes = match read_all(alloc, reader) {
        Ok(bytes) => bytes,
        Err(ReadError::Device) => return Outcome::Device,
        Err(ReadError::NoMemory) => return Outcome::NoMemory,
    };
    let script = match script_of(alloc, bytes.as_slice()) {
        Ok(script) => script,
        Err(_) => return Outcome::NoMemory,
    };
    let replies = match run_commands(alloc, engine, script.commands.as_slice()) {
        Ok(replies) => replies,
        Err(_) => return Outcome::NoMemory,
    };
    match write_replies(writer, replies.as_slice()) {
        Ok(()) => match script.unreadable {
            None => Outcome::Done,
            Some(line) => Outcome::Unreadable(line),
        },
        Err(_) => Outcome::Device,
    }
}

/// Writes the replies in order, and has them handed on.
fn write_replies<W: Output>(writer: &mut W, replies: &[Reply]) -> Result<(), Failure>
    ensures written { Writes W.passed W.contents writer.old writer.new
        (flat_map (λ reply. line_of (reply_seen reply)) replies.now) result }
    ensures settled { OnOk result (W.settled writer.new) }
{
    for reply in replies {
        if let Err(failure) = write_reply(writer, reply) {
            return Err(failure);
        }
    }
    writer.flush()
}
