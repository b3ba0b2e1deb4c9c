//! Objects that take the place of others, and that are moved from one engine to another.
use super::cases::wrong_line_number;
use crate::own::{Holding, Holds, word_object};
use std::alloc::Global;
use std::rc::RcStr;
use tera::{Context, Tera, TeraResult};

/// An engine with a filter and a function `f`.
pub fn first_engine(alloc: Global) -> TeraResult<Tera> {
    let mut engine = Tera::new(alloc)?;
    engine.register_filter("f", Box::new(alloc, word_object(alloc, "f1", false))?)?;
    engine.register_function("f", Box::new(alloc, word_object(alloc, "f1", false))?)?;
    Ok(engine)
}

/// An engine with a filter `g`, a test `held` and a function `h` besides, and with objects by names of built-ins.
pub fn second_engine(alloc: Global) -> TeraResult<Tera> {
    let mut engine = Tera::new(alloc)?;
    engine.register_filter("f", Box::new(alloc, word_object(alloc, "f2", false))?)?;
    engine.register_filter("g", Box::new(alloc, word_object(alloc, "g2", false))?)?;
    engine.register_filter("trim", Box::new(alloc, word_object(alloc, "own", false))?)?;
    engine.register_function("f", Box::new(alloc, word_object(alloc, "f2", false))?)?;
    engine.register_function("h", Box::new(alloc, word_object(alloc, "h2", false))?)?;
    engine.register_function("range", Box::new(alloc, word_object(alloc, "own", false))?)?;
    engine.register_test("held", Box::new(alloc, Holding)?)?;
    engine.register_test("odd", Box::new(alloc, Holding)?)?;
    Ok(engine)
}

const MOVED: &str = r#"
{{ 1 | f }}{{ 1 | g }} => f1g2
{{ ' a ' | trim }} => a
{{ f() }}{{ h() }} => f1h2
{{ range(end=1) }} => [0]
{{ 1 is held }}{{ 2 is odd }} => truefalse
"#;

fn is_moved(alloc: Global) -> TeraResult<bool> {
    let mut engine = first_engine(alloc)?;
    engine.register_from(second_engine(alloc)?)?;
    let context = Context::new(alloc);
    Ok(wrong_line_number(&engine, &context, false, MOVED).is_none())
}

#[test]
fn objects_are_moved(rt: HostRuntime) {
    let is_right = matches!(is_moved(rt.alloc()), Ok(true));
    assert!(rt; is_right);
}

/// An object that holds the text.
pub fn holds(alloc: Global, held: &RcStr) -> TeraResult<Holds> {
    Ok(Holds {
        held: held.clone()?,
    })
}

// How many hold the text after each step: an object that is replaced, refused or not moved is dropped at once.
fn are_dropped(alloc: Global) -> TeraResult<bool> {
    let held = RcStr::from_str(alloc, "held")?;
    let mut engine = Tera::new(alloc)?;
    engine.register_filter("a", Box::new(alloc, holds(alloc, &held)?)?)?;
    let once = RcStr::strong_count(&held) == 2;
    engine.register_filter("a", Box::new(alloc, holds(alloc, &held)?)?)?;
    let replaced = RcStr::strong_count(&held) == 2;
    let mut other = Tera::new(alloc)?;
    other.register_filter("a", Box::new(alloc, holds(alloc, &held)?)?)?;
    other.register_filter("b", Box::new(alloc, holds(alloc, &held)?)?)?;
    let both = RcStr::strong_count(&held) == 4;
    engine.register_from(other)?;
    let moved = RcStr::strong_count(&held) == 3;
    drop(engine);
    Ok(once && replaced && both && moved && RcStr::strong_count(&held) == 1)
}

// The same of tests, functions and escapes.
fn others_are_dropped(alloc: Global) -> TeraResult<bool> {
    let held = RcStr::from_str(alloc, "held")?;
    let mut engine = Tera::new(alloc)?;
    engine.register_test("a", Box::new(alloc, holds(alloc, &held)?)?)?;
    engine.register_test("a", Box::new(alloc, holds(alloc, &held)?)?)?;
    let tests = RcStr::strong_count(&held) == 2;
    engine.register_function("a", Box::new(alloc, holds(alloc, &held)?)?)?;
    engine.register_function("a", Box::new(alloc, holds(alloc, &held)?)?)?;
    let functions = RcStr::strong_count(&held) == 3;
    engine.set_escape_fn(Box::new(alloc, holds(alloc, &held)?)?);
    engine.set_escape_fn(Box::new(alloc, holds(alloc, &held)?)?);
    let escapes = RcStr::strong_count(&held) == 4;
    engine.reset_escape_fn();
    Ok(tests && functions && escapes && RcStr::strong_count(&held) == 3)
}

#[test]
fn objects_are_dropped(rt: HostRuntime) {
    let is_right = matches!(are_dropped(rt.alloc()), Ok(true))
        && matches!(others_are_dropped(rt.alloc()), Ok(true));
    assert!(rt; is_right);
}
