//! Loops over many items.
use super::cases::{put, renders};
use std::alloc::Global;
use tera::{Context, Tera, Value};

const MANY: usize = 100_000;

fn numbers(alloc: Global) -> Option<Value> {
    let mut items = Vec::new(alloc);
    for number in 0..MANY {
        if items.push(Value::from_int(number as i128)).is_err() {
            return None;
        }
    }
    Some(Value::array(items))
}

fn context(alloc: Global) -> Option<Context> {
    let mut context = Context::new(alloc);
    if put(&mut context, "numbers", Ok(numbers(alloc)?)) {
        Some(context)
    } else {
        None
    }
}

fn is_walked(engine: &Tera, context: &Context) -> bool {
    renders(
        engine,
        context,
        true,
        "{% for x in numbers %}{% if loop.last %}{{ x }} of {{ loop.length }}{% endif %}{% endfor %}",
        "99999 of 100000",
    ) && renders(
        engine,
        context,
        true,
        "{{ [x for x in numbers if x >= 99998] }}",
        "[99998, 99999]",
    ) && renders(
        engine,
        context,
        true,
        "{% for x in numbers %}{% set y %}{{ x }}{% endset %}{% if x == 7 %}{{ y }}{% break %}{% endif %}{% endfor %}",
        "7",
    )
}

fn are_walked(alloc: Global) -> bool {
    match (Tera::new(alloc), context(alloc)) {
        (Ok(engine), Some(context)) => is_walked(&engine, &context),
        _ => false,
    }
}

#[test]
fn many_items(rt: HostRuntime) {
    assert!(rt; are_walked(rt.alloc()));
}
