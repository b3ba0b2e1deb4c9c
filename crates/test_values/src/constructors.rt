// Values of Rust's own types, entries at text keys and at names, and entries one after another.
use crate::sample::is_value;
use std::alloc::Global;
use tera_values::{Context, Key, Map, TeraResult, Value};

fn scalars_are_made(alloc: Global) -> bool {
    is_value(alloc, &Value::from(true), "bool true")
        && is_value(alloc, &Value::from(-7_i32), "int -7")
        && is_value(alloc, &Value::from(i64::MIN), "int -9223372036854775808")
        && is_value(
            alloc,
            &Value::from(i128::MAX),
            "int 170141183460469231731687303715884105727",
        )
        && is_value(alloc, &Value::from(u32::MAX), "int 4294967295")
        && is_value(alloc, &Value::from(u64::MAX), "int 18446744073709551615")
        && is_value(alloc, &Value::from(7_usize), "int 7")
        && is_value(alloc, &Value::from(8), "int 8")
}

/// A key that is there gets a second value.
fn three_texts(alloc: Global) -> TeraResult<Map> {
    let mut all = Map::new(alloc);
    all.insert_text("b", Value::from(1_i32))?;
    all.insert_text("a", Value::from(false))?;
    all.insert_text("b", Value::from(3_i32))?;
    Ok(all)
}

fn containers_are_made(alloc: Global) -> TeraResult<bool> {
    let mut items = Vec::new(alloc);
    items.push(Value::from(1_i32))?;
    items.push(Value::from(three_texts(alloc)?))?;
    Ok(is_value(
        alloc,
        &Value::from(items),
        "array [1, {\"b\": 3, \"a\": false}]",
    ))
}

fn put_entry(out: &mut String, key: &Key, value: &Value) -> TeraResult<()> {
    if let Key::Text(name) = key {
        out.push_str(name.as_str())?;
    }
    value.print_to(out)?;
    Ok(())
}

fn entries_follow(alloc: Global) -> TeraResult<bool> {
    let all = three_texts(alloc)?;
    let mut out = String::new(alloc);
    for (key, value) in all.iter() {
        put_entry(&mut out, key, value)?;
    }
    for (key, value) in &all {
        put_entry(&mut out, key, value)?;
    }
    Ok(out.as_str() == "b3afalseb3afalse" && Map::new(alloc).iter().next().is_none())
}

/// A name that is there gets a second value.
fn three_names(alloc: Global) -> TeraResult<Context> {
    let mut context = Context::new(alloc);
    context.insert_text("word", "a")?;
    context.insert_int("count", -3)?;
    context.insert_bool("flag", true)?;
    context.insert_text("word", "<b>")?;
    Ok(context)
}

fn context_is_gone_over(alloc: Global) -> TeraResult<bool> {
    let context = three_names(alloc)?;
    let mut copy = Context::new(alloc);
    let mut names = String::new(alloc);
    for (name, value) in context.iter() {
        names.push_str(name)?;
        copy.insert(name, value.try_clone()?)?;
    }
    // Each name once: `count`, `flag` and `word`.
    Ok(
        names.as_str().len() == 13
            && is_value(
                alloc,
                &copy.to_value()?,
                "map {\"count\": -3, \"flag\": true, \"word\": \"<b>\"}",
            ),
    )
}

#[test]
fn values_are_made(rt: HostRuntime) {
    let alloc = rt.alloc();
    let right = scalars_are_made(alloc) && matches!(containers_are_made(alloc), Ok(true));
    assert!(rt; right);
}

#[test]
fn entries_are_gone_over(rt: HostRuntime) {
    let alloc = rt.alloc();
    let right = matches!(entries_follow(alloc), Ok(true))
        && matches!(context_is_gone_over(alloc), Ok(true));
    assert!(rt; right);
}
