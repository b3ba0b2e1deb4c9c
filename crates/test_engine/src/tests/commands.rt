//! Commands in memory.
use std::alloc::Global;
use tera::Tera;
use tera_run_script::{Command, Reply, run_commands};

fn are_right(replies: &[Reply]) -> bool {
    matches!(
        replies,
        [Reply::Fault(_), Reply::Done, Reply::Text(text)] if text.as_str() == "&lt;"
    )
}

fn are_answered(alloc: Global, engine: &mut Tera) -> bool {
    let commands = [
        Command::Str {
            autoescape: true,
            body: "{{ name }}",
        },
        Command::Text {
            name: "name",
            body: "<",
        },
        Command::Str {
            autoescape: true,
            body: "{{ name }}",
        },
    ];
    match run_commands(alloc, engine, &commands) {
        Ok(replies) => are_right(replies.as_slice()),
        Err(_) => false,
    }
}

fn are_all_done(replies: &[Reply]) -> bool {
    matches!(
        replies,
        [Reply::Done, Reply::Done, Reply::Done, Reply::Done, Reply::Text(text)]
            if text.as_str() == "A"
    )
}

/// Whether the engine keeps what commands left.
fn are_kept(alloc: Global, engine: &mut Tera) -> bool {
    let (Ok(prefixes), Ok(suffixes)) = (vec![in alloc; "t/"], vec![in alloc; ".txt", ".csv"]) else {
        return false;
    };
    let commands = [
        Command::Prefix { prefixes },
        Command::Suffix { suffixes },
        Command::Template {
            name: "t/a",
            body: "A",
        },
        Command::Add,
        Command::Render { name: "a" },
    ];
    match run_commands(alloc, engine, &commands) {
        Ok(replies) => are_all_done(replies.as_slice()) && engine.contains_template("t/a"),
        Err(_) => false,
    }
}

fn has_answers(alloc: Global) -> bool {
    match Tera::new(alloc) {
        Ok(mut engine) => are_answered(alloc, &mut engine) && are_kept(alloc, &mut engine),
        Err(_) => false,
    }
}

#[test]
fn commands(rt: HostRuntime) {
    assert!(rt; has_answers(rt.alloc()));
}
