//! How calls end to which memory is refused.
use tera::{Error, ErrorKind};
use test_memory::Tried;

/// How a call that found memory ended, by whether its answer is right.
pub fn answered_if(is_right: bool) -> Tried {
    if is_right {
        Tried::Answered
    } else {
        Tried::Wrong
    }
}

/// How a call ended that answered this error, by whether all is as it has to be after want of memory.
pub fn refused_if(error: &Error, is_unchanged: bool) -> Tried {
    match error.kind() {
        ErrorKind::OutOfMemory if is_unchanged => Tried::Refused,
        _ => Tried::Wrong,
    }
}
