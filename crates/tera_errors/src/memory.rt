// Answers that only want of memory makes errors.
ghost use Rattle.std.specs.Prelude.{◌≡◌, Ok, IfOk, OnErr, IsErr};

use crate::error::TeraResult;
use std::alloc::AllocError;

/// The answer of a call that nothing but want of memory stops, with an error that takes no room of its own: such answers are
/// handed on at each step of a compilation and of a rendering.
#[inline(always)]
pub fn alloc_result<T>(answer: TeraResult<T>) -> Result<T, AllocError>
    ensures ok { IfOk result (λ x. answer ≡ Ok x) }
    ensures err { OnErr result (IsErr answer) }
{
    match answer {
        Ok(x) => Ok(x),
        Err(_) => Err(AllocError),
    }
}
