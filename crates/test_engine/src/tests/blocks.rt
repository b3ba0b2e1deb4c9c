//! The calls that render a block.
use super::cases::{is_text, put};
use super::templates::{adds, fails_with, is_refused, shows};
use std::alloc::Global;
use tera::{Context, Tera, TeraResult, Value};

const LISTED: &str = "{% for x in xs %}{% block b %}{{ x }}{% endblock %}{% endfor %}";

const NEVER: &str = "{% if no %}{% block b %}x{% endblock %}{% endif %}";

const CHILD: &str = "{% extends 'list' %}{% block b %}<{{ super() }}>{% endblock %}";

/// Whether the block of the template has this text.
fn shows_block(engine: &Tera, context: &Context, name: &str, block: &str, text: &str) -> bool {
    is_text(engine.render_block(name, block, context), text)
}

fn fails_block(engine: &Tera, context: &Context, name: &str, block: &str, want: &str) -> bool {
    fails_with(engine.render_block(name, block, context), want)
}

fn appends_blocks(alloc: Global, engine: &Tera, context: &Context) -> bool {
    let mut out = Vec::new(alloc);
    engine
        .render_block_to("child", "b", context, &mut out)
        .is_ok()
        && is_refused(
            engine.render_block_to("child", "c", context, &mut out),
            "Message",
        )
        && is_refused(
            engine.render_block_to("none", "b", context, &mut out),
            "TemplateNotFound",
        )
        && engine
            .render_block_to("list", "b", context, &mut out)
            .is_ok()
        && out.as_slice() == b"<2>2".as_slice()
}

fn shows_blocks(alloc: Global, engine: &mut Tera, context: &Context) -> bool {
    adds(engine, "list", LISTED)
        && adds(engine, "never", NEVER)
        && adds(engine, "child", CHILD)
        && shows(engine, context, "list", "12")
        && shows_block(engine, context, "list", "b", "2")
        && shows_block(engine, context, "never", "b", "")
        && shows_block(engine, context, "child", "b", "<2>")
        && fails_block(engine, context, "list", "c", "Message")
        && fails_block(engine, context, "none", "b", "TemplateNotFound")
        && appends_blocks(alloc, engine, context)
}

fn numbers(alloc: Global) -> TeraResult<Value> {
    let mut all = Vec::new(alloc);
    all.push(Value::from_int(1))?;
    all.push(Value::from_int(2))?;
    Ok(Value::array(all))
}

fn are_shown(alloc: Global) -> bool {
    match Tera::new(alloc) {
        Ok(mut engine) => {
            let mut context = Context::new(alloc);
            put(&mut context, "xs", numbers(alloc))
                && put(&mut context, "no", Ok(Value::from_bool(false)))
                && shows_blocks(alloc, &mut engine, &context)
        }
        Err(_) => false,
    }
}

#[test]
fn blocks_are_rendered(rt: HostRuntime) {
    assert!(rt; are_shown(rt.alloc()));
}
