//! What every rendering of an engine reads.
use super::cases::{put, renders};
use std::alloc::Global;
use tera::{Context, Tera, Value};

fn is_read(alloc: Global, engine: &mut Tera, context: &mut Context) -> bool {
    renders(engine, context, true, "{{ name or 'none' }}", "none")
        && put(engine.global_context(), "name", Value::string(alloc, "<"))
        && renders(
            engine,
            context,
            true,
            "{{ name }}{{ __tera_context.name }}",
            "&lt;&lt;",
        )
        && put(engine.global_context(), "name", Value::string(alloc, "a"))
        && renders(
            engine,
            context,
            true,
            "{% set name = name ~ 'b' %}{{ name }}",
            "ab",
        )
        && renders(engine, context, true, "{{ name }}", "a")
        && put(context, "name", Value::string(alloc, "own"))
        && renders(engine, context, true, "{{ name }}", "own")
        && engine.global_context().get("name").is_some()
}

fn is_global(alloc: Global) -> bool {
    match Tera::new(alloc) {
        Ok(mut engine) => {
            let mut context = Context::new(alloc);
            is_read(alloc, &mut engine, &mut context)
        }
        Err(_) => false,
    }
}

#[test]
fn global_context(rt: HostRuntime) {
    assert!(rt; is_global(rt.alloc()));
}
