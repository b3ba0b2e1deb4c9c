// The engine and the context that rows are rendered by.
use std::alloc::Global;
use tera::{Context, TeraOver, TeraResult, Value};
use tera_filters::{Clock, NoObject, PackObjects, extra_objects};

/// An engine with all of `tera_filters`.
pub type RowEngine = TeraOver<PackObjects<NoObject, NoObject, NoObject>>;

/// The engine, for which it is 2024-05-31T10:20:30Z.
pub fn engine_of(alloc: Global) -> TeraResult<RowEngine> {
    let clock = Clock {
        seconds: 1_717_150_830,
    };
    TeraOver::with_objects(alloc, extra_objects(alloc, Some(clock))?)
}

/// How often the text of `huge` is repeated.
const TIMES: usize = 20_000;

/// A context with `safe`, which is `<b>` marked safe; `unsafe`, the same without a mark; `bytes`; and `huge`, a long text.
pub fn variables(alloc: Global) -> TeraResult<Context> {
    let mut context = Context::new(alloc);
    context.insert("safe", Value::safe_string(alloc, "<b>a b</b>")?)?;
    context.insert("unsafe", Value::string(alloc, "<b>a b</b>")?)?;
    context.insert("bytes", Value::bytes(alloc, b"\x01\xff")?)?;
    let mut huge = String::new(alloc);
    for _ in 0..TIMES {
        huge.push_str("aé <b> ")?;
    }
    context.insert("huge", Value::string(alloc, huge.as_str())?)?;
    Ok(context)
}
