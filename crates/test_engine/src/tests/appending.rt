//! Texts that are put into vectors.
use super::templates::adds;
use tera::{Context, Tera, TeraResult};

const TEXT: &str = "{{ 1 + 1 }} and more";

const SHOWN: &[u8] = b"2 and more";

const FAULT: &str = "some text {{ 7 // 0 }}";

/// Whether an empty vector takes over the text in the memory that it had, and stays empty after a fault.
fn lends_memory(engine: &Tera, context: &Context, out: &mut Vec<u8>) -> bool {
    let room = out.capacity();
    engine.render_to("text", context, out).is_ok()
        && out.as_slice() == SHOWN
        && out.capacity() == room
}

/// Whether a vector with these bytes has the text after them, and is as it was after a fault.
fn stands_after(engine: &Tera, context: &Context, out: &mut Vec<u8>, before: &[u8]) -> bool {
    out.clear();
    out.extend_from_slice(before).is_ok()
        && engine.render_to("fault", context, out).is_err()
        && out.as_slice() == before
        && engine.render_to("text", context, out).is_ok()
        && out.strip_prefix(before) == Some(SHOWN)
}

#[test]
fn texts_stand_after_what_is_there(rt: HostRuntime) -> TeraResult<()> {
    let mut engine = Tera::new(rt.alloc())?;
    let context = Context::new(rt.alloc());
    assert!(rt; adds(&mut engine, "text", TEXT) && adds(&mut engine, "fault", FAULT));
    let mut out = Vec::with_capacity(rt.alloc(), 100)?;
    assert!(rt; lends_memory(&engine, &context, &mut out));
    assert!(rt; stands_after(&engine, &context, &mut out, b"with room "));
    assert!(rt; stands_after(&engine, &context, &mut out, b""));
    let mut out = Vec::new(rt.alloc());
    assert!(rt; stands_after(&engine, &context, &mut out, b"\xff "));
    let mut out = Vec::new(rt.alloc());
    assert!(rt; stands_after(&engine, &context, &mut out, b"longer than the text "));
    Ok(())
}
