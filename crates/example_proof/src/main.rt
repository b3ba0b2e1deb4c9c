// Two pages with a text of the user in each, and what is proved of them. docs/USING.md walks through the proofs.
#![tactic(auto)]

mod pages;

use crate::pages::{greet, list_words};
use std::io;
use std::io::Write;
use tera::TeraResult;

/// A page on a line of its own.
fn print(rt: &HostRuntime, page: TeraResult<String>) -> io::Result<()> {
    match page {
        Ok(text) => println!(rt; "{text}"),
        Err(_) => println!(rt; "there was no memory for the page"),
    }
}

fn main(rt: HostRuntime) -> io::Result<()> {
    let hostile = r#"<script>"x"</script> & 'y'"#;
    print(&rt, greet(rt.alloc(), hostile))?;
    print(&rt, list_words(rt.alloc(), hostile))
}
