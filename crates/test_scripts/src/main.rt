//! Runs the examples that standard input names, one a line, and tells of each whether it is answered as its file says. Then it
//! runs them again and again with memory refused, at the first request of the run, at the second one and so on, and tells
//! whether what is refused is told as such, and all else is answered as if it had not been there.
//!
//! A name with the word `large` behind it is that of a script whose run takes more than the 65,536 bytes that `test_memory` deals
//! out: it is run with all memory alone. All scripts are run so first, since the stack can't grow any more where memory is taken:
//! what they need of it is there by then, and more, since they are run some calls further down than later on.
#![tactic(auto)]

mod commands;
mod example;
mod judge;
mod replies;
mod trial;

use example::{Example, example_of, is_answered, is_right_where_refused};
use std::io;
use test_memory::with_pieces;

fn tell(rt: &HostRuntime, example: &Example) -> io::Result<()> {
    let name = example.name.as_str();
    if is_answered(rt, name)? {
        println!(rt; "{name}: as expected")
    } else {
        println!(rt; "{name}: other replies than expected")
    }
}

/// How many calls further down scripts are run first.
const CALLS: usize = 256;

// Tells of the example from so many calls further down. Each of them holds a text, and so a place on the stack.
fn tell_below(rt: &HostRuntime, example: &Example, calls: usize) -> io::Result<()> {
    match calls.checked_sub(1) {
        None => tell(rt, example),
        Some(fewer) => {
            let name = String::from_str(rt.alloc(), example.name.as_str())?;
            let told = tell_below(rt, example, fewer);
            drop(name);
            told
        }
    }
}

fn tell_where_refused(rt: &HostRuntime, example: &Example) -> io::Result<()> {
    let name = example.name.as_str();
    if example.is_large {
        return Ok(());
    }
    if is_right_where_refused(rt, name)? {
        println!(rt; "{name}: as expected where memory is refused")
    } else {
        println!(rt; "{name}: other replies than expected where memory is refused")
    }
}

fn tell_all_where_refused(rt: &HostRuntime, examples: &[Example]) -> io::Result<()> {
    for example in examples {
        tell_where_refused(rt, example)?;
    }
    Ok(())
}

/// How many pieces of memory are left free.
const PIECES: usize = 1_024;

fn main(rt: HostRuntime) -> io::Result<()> {
    let mut examples = Vec::new(rt.alloc());
    for line in rt.lines(rt.alloc()) {
        let example = example_of(rt.alloc(), line?.as_str())?;
        tell_below(&rt, &example, CALLS)?;
        examples.push(example)?;
    }
    // Taking all memory needs half a second, so it is done once for all of them.
    match with_pieces(
        rt.alloc(),
        PIECES,
        || tell_all_where_refused(&rt, examples.as_slice()),
    ) {
        Some(told) => told,
        None => println!(rt; "memory could not be taken"),
    }
}
