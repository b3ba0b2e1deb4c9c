//! Engines that are told other delimiters.
use super::cases::renders;
use super::templates::is_refused;
use std::alloc::Global;
use tera::{Context, Delimiters, Tera, TeraResult, Value};

/// What begins and ends statements, expressions and comments.
pub fn delimiters(
    alloc: Global,
    statement: (&str, &str),
    expression: (&str, &str),
    comment: (&str, &str),
) -> TeraResult<Delimiters> {
    let mut delimiters = Delimiters::standard(alloc)?;
    delimiters.block_start = String::from_str(alloc, statement.0)?;
    delimiters.block_end = String::from_str(alloc, statement.1)?;
    delimiters.variable_start = String::from_str(alloc, expression.0)?;
    delimiters.variable_end = String::from_str(alloc, expression.1)?;
    delimiters.comment_start = String::from_str(alloc, comment.0)?;
    delimiters.comment_end = String::from_str(alloc, comment.1)?;
    Ok(delimiters)
}

/// `<% %>`, `<< >>` and `<# #>`, or with another end of statements and another start of comments.
fn angle_delimiters(alloc: Global, block_end: &str, comment_start: &str) -> TeraResult<Delimiters> {
    delimiters(
        alloc,
        ("<%", block_end),
        ("<<", ">>"),
        (comment_start, "#>"),
    )
}

/// Whether the engine goes on as before where it refuses delimiters, and goes by those that it accepts.
fn is_obeyed(alloc: Global) -> TeraResult<bool> {
    let own = "Hello {{ name }}!<< name >>";
    let other = "Hello, <# This is a comment #><< name >>! {{ name }}";
    let mut context = Context::new(alloc);
    context.insert("name", Value::from_int(7))?;
    let mut engine = Tera::new(alloc)?;
    let is_empty_refused = is_refused(
        engine.set_delimiters(angle_delimiters(alloc, "", "<#")?),
        "Message",
    );
    let are_equal_refused = is_refused(
        engine.set_delimiters(angle_delimiters(alloc, "%>", "<<")?),
        "Message",
    );
    let is_as_before = renders(&engine, &context, true, own, "Hello 7!<< name >>");
    engine.set_delimiters(angle_delimiters(alloc, "%>", "<#")?)?;
    Ok(
        is_empty_refused
            && are_equal_refused
            && is_as_before
            && renders(&engine, &context, true, other, "Hello, 7! {{ name }}"),
    )
}

#[test]
fn other_delimiters(rt: HostRuntime) {
    assert!(rt; is_obeyed(rt.alloc()).unwrap_or(false));
}
