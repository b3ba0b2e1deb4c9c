// Values, numbers, maps and arguments.
use super::{is_integer, is_true};
use std::alloc::Global;
use tera::{
    ArgFromValue, ErrorKind, Key, Kwargs, Map, StringInput, TeraResult, Value, ValueKind, number,
};

/// What the value is told to be, and what it is read as.
fn is_seven(alloc: Global, value: &Value) -> bool {
    value.kind() == ValueKind::Int
        && value.name() == "int"
        && value.is_safe()
        && value.is_truthy()
        && value.as_i128() == Some(7)
        && value.as_str().is_none()
        && value.len().is_none()
        && is_read_as_seven(alloc, value)
}

fn is_read_as_seven(alloc: Global, value: &Value) -> bool {
    matches!(i128::from_value(alloc, value), Ok(7))
        && matches!(u32::from_value(alloc, value), Ok(7))
        && matches!(usize::from_value(alloc, value), Ok(7))
        && bool::from_value(alloc, value).is_err()
        && String::from_value(alloc, value).is_err()
        && Map::from_value(alloc, value).is_err()
        && Vec::<Value>::from_value(alloc, value).is_err()
}

#[test]
fn a_number_is_told_and_read(rt: HostRuntime) {
    assert!(rt; is_seven(rt.alloc(), &Value::from_int(7)));
}

#[test]
fn nothing_is_told(rt: HostRuntime) {
    let nothing = Value::undefined();
    assert!(rt;
        nothing.kind() == ValueKind::Undefined && !nothing.is_truthy() && nothing.len().is_none()
    );
}

fn are_reckoned(alloc: Global, seven: &Value, two: &Value) -> bool {
    is_integer(number::add(alloc, seven, two), 9)
        && is_integer(number::sub(alloc, seven, two), 5)
        && is_integer(number::mul(alloc, seven, two), 14)
        && number::div(alloc, seven, two).is_err()
        && is_integer(number::floor_div(alloc, seven, two), 3)
        && is_integer(number::rem(alloc, seven, two), 1)
        && is_integer(number::pow(alloc, seven, two), 49)
        && is_integer(number::negate(alloc, seven), -7)
}

#[test]
fn integers_are_reckoned_with(rt: HostRuntime) {
    assert!(rt; are_reckoned(rt.alloc(), &Value::from_int(7), &Value::from_int(2)));
}

/// The texts and the bytes that a value is made of.
fn are_made(alloc: Global) -> TeraResult<bool> {
    let plain = Value::string(alloc, "<é>")?;
    let safe = Value::safe_string(alloc, "<é>")?;
    let bytes = Value::bytes(alloc, b"ab")?;
    let copy = plain.try_clone()?;
    Ok(
        plain == safe
            && !plain.is_safe()
            && copy.mark_safe().is_safe()
            && plain.comparable(&safe)
            && !plain.comparable(&bytes)
            && bytes.len() == Some(2)
            && plain.printed(alloc)?.as_str() == "<é>",
    )
}

#[test]
fn texts_are_made(rt: HostRuntime) {
    assert!(rt; is_true(are_made(rt.alloc())));
}

/// `{"a": [1, 2, 3], "b": none}`.
fn nested_value(alloc: Global) -> TeraResult<Value> {
    let mut items = Vec::new(alloc);
    items.push(Value::from_int(1))?;
    items.push(Value::from_int(2))?;
    items.push(Value::from_int(3))?;
    let mut map = Map::new(alloc);
    map.insert(
        Key::Text(String::from_str(alloc, "a")?),
        Value::array(items),
    )?;
    map.insert(Key::Text(String::from_str(alloc, "b")?), Value::none())?;
    Ok(Value::map(map))
}

/// What the array answers, in which 1, 2 and 3 stand.
fn is_walked(alloc: Global, items: &Value) -> TeraResult<bool> {
    let last = items.get_item(alloc, &Value::from_int(-1))?;
    let two = items.slice(alloc, None, Some(2), None)?;
    let turned = items.reverse(alloc)?;
    Ok(
        last.as_i128() == Some(3)
            && two.len() == Some(2)
            && *items < turned
            && items.contains(alloc, &last)?,
    )
}

fn is_found(alloc: Global, value: &Value) -> TeraResult<bool> {
    match (value.get_attr("a"), value.get_from_path("a.1")) {
        (Some(items), Some(two)) => {
            Ok(matches!(two.as_key(alloc)?, Key::Int(2)) && is_walked(alloc, items)?)
        }
        _ => Ok(false),
    }
}

fn is_nested(alloc: Global) -> TeraResult<bool> {
    let value = nested_value(alloc)?;
    is_found(alloc, &value)
}

#[test]
fn values_are_found_in_others(rt: HostRuntime) {
    assert!(rt; is_true(is_nested(rt.alloc())));
}

/// A map with `true` at `true`.
fn is_kept(alloc: Global) -> TeraResult<bool> {
    let mut map = Map::new(alloc);
    map.insert(Key::Bool(true), Value::from_bool(true))?;
    Ok(
        map.len() == 1
            && map.get(&Key::Bool(true)).is_some()
            && map.get(&Key::Int(1)).is_none()
            && matches!(map.entry_at(0), Some((Key::Bool(true), _)))
            && map.entry_at(1).is_none(),
    )
}

#[test]
fn maps_keep_entries(rt: HostRuntime) {
    assert!(rt; is_true(is_kept(rt.alloc())));
}

fn are_given(alloc: Global) -> TeraResult<bool> {
    let mut given = Kwargs::new(alloc);
    given.insert("n", Value::from_int(1))?;
    given.insert("s", Value::safe_string(alloc, "s")?)?;
    let text: StringInput = given.must_get("s")?;
    Ok(
        given.get::<bool>("none")?.is_none()
            && matches!(given.get::<u32>("n"), Ok(Some(1)))
            && text.as_str() == "s"
            && text.is_safe()
            && text.inherit_safety(alloc, "t")?.is_safe()
            && text.into_value().is_safe(),
    )
}

fn is_missing(alloc: Global) -> bool {
    match Kwargs::new(alloc).must_get::<Value>("none") {
        Ok(_) => false,
        Err(error) => matches!(error.kind(), ErrorKind::MissingArgument),
    }
}

#[test]
fn arguments_are_read(rt: HostRuntime) {
    assert!(rt; is_true(are_given(rt.alloc())) && is_missing(rt.alloc()));
}
