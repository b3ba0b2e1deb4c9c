// How a call ended, in numbers.
ghost use Rattle.std.specs.Prelude.{◌≡◌};
ghost use Rattle.tera.specs.Lent.{lent_text};
ghost use Rattle.tera_renderer.specs.Outcomes.{copied, told};

use crate::output::CallOutput;
use tera::{ErrorKind, TeraResult};

/// How a call ended, and how much it made or would have copied.
#[repr(C)]
#[derive(Clone, Copy)]
pub struct Answer {
    /// 0 where the call did what it was asked for.
    pub status: u32,
    /// The bytes of a text, or the number of names.
    pub size: usize,
}

/// The answer where there is no engine.
pub const NO_RENDERER: Answer = Answer { status: 3, size: 0 };

/// What is told of what a call made, or of why it made nothing.
pub(crate) fn answer_of(outcome: &TeraResult<CallOutput>) -> Answer
    ensures { result ≡ told outcome.now }
{
    match outcome {
        Ok(output) => Answer {
            status: 0,
            size: output.size(),
        },
        Err(error) => match error.kind() {
            ErrorKind::OutOfMemory => Answer { status: 2, size: 0 },
            _ => Answer { status: 1, size: 0 },
        },
    }
}

/// Copies a text to the start of the room, where that is large enough. What lies behind the text stays.
pub fn copy_text(text: Option<&str>, room: &mut [u8]) -> Answer
    ensures { (result, room.new) ≡ copied (lent_text text.entry) room.old }
{
    let Some(text) = text else {
        return Answer { status: 5, size: 0 };
    };
    let size = text.len();
    if room.len() < size {
        return Answer { status: 4, size };
    }
    let (start, _) = room.split_at_mut(size);
    start.copy_from_slice(text.as_bytes());
    Answer { status: 0, size }
}
