// All of an input.
ghost use Rattle.tera_run_script.specs.Device.{Reads};

use crate::stream::Input;
use std::alloc::Global;

/// How many bytes are asked for at once.
const CHUNK: usize = 8192;

/// Why an input was not read whole.
#[derive(Clone, Copy, Debug, PartialEq, Eq)]
pub enum ReadError {
    /// A read failed.
    Device,
    /// The bytes found no room.
    NoMemory,
}

/// Reads to the end of the input.
pub fn read_all<R: Input>(alloc: Global, reader: &mut R) -> Result<Vec<u8>, ReadError>
    ensures { Reads R.passed R.ended R.remaining reader.old reader.new result }
{
    let mut bytes = Vec::new(alloc);
    let mut chunk = [0; CHUNK];
    for _ in 0..u64::MAX {
        let taken = match reader.read(&mut chunk) {
            Ok(taken) => taken,
            Err(_) => return Err(ReadError::Device),
        };
        if taken == 0 {
            return Ok(bytes);
        }
        if bytes.extend_from_slice(&chunk[..taken]).is_err() {
            return Err(ReadError::NoMemory);
        }
    }
    // As many reads would have given more bytes than memory has.
    Err(ReadError::NoMemory)
}
