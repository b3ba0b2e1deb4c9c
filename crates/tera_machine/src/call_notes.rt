// What a fault is told of the bodies that are open around it.
ghost use Rattle.std.specs.Prelude.{◌≡◌};

use crate::block_bodies::Waiting;
use std::alloc::Global;
use tera_errors::Error;
use tera_state::Stack;

/// The same error, which tells where each of the bodies that wait requested the next one, the innermost first.
#[inline(never)]
pub(crate) fn with_call_notes(alloc: Global, error: Error, waiting: &Stack<Waiting<'_>>) -> Error
    ensures { result ≡ error }
{
    let mut error = error;
    let count = waiting.len();
    for below in 0..count {
        error = with_call_note(alloc, error, waiting.at_height(count - 1 - below));
    }
    error
}

// The same error, which tells where this body requested the one in which it came.
fn with_call_note(alloc: Global, error: Error, waiting: &Waiting<'_>) -> Error
    ensures { result ≡ error }
{
    let chunk = waiting.body.chunk();
    match chunk.span_at(waiting.at.saturating_sub(1)) {
        Some(span) => error.with_caller(alloc, chunk.file(), span),
        None => error,
    }
}
