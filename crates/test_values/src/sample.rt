// Values in short, and what a call answers in words.
use std::alloc::Global;
use tera_values::{Error, ErrorKind, Key, Map, TeraResult, Value};

/// A value in short.
#[derive(Clone, Copy)]
pub(crate) enum Sample {
    Undefined,
    Nothing,
    Truth(bool),
    Int(i128),
    Text(&'static str),
    Safe(&'static str),
    Bytes(&'static [u8]),
    Ints(&'static [i128]),
    Pairs(&'static [(&'static str, i128)]),
}

pub(crate) fn value(alloc: Global, sample: Sample) -> Option<Value> {
    match sample {
        Sample::Undefined => Some(Value::undefined()),
        Sample::Nothing => Some(Value::none()),
        Sample::Truth(flag) => Some(Value::from_bool(flag)),
        Sample::Int(number) => Some(Value::from_int(number)),
        Sample::Text(text) => Value::string(alloc, text).ok(),
        Sample::Safe(text) => Value::safe_string(alloc, text).ok(),
        Sample::Bytes(bytes) => Value::bytes(alloc, bytes).ok(),
        Sample::Ints(numbers) => integers(alloc, numbers),
        Sample::Pairs(pairs) => map(alloc, pairs).map(Value::map),
    }
}

fn integers(alloc: Global, numbers: &[i128]) -> Option<Value> {
    let items = numbers.iter().map(|number| Value::from_int(*number));
    items.collect(alloc).ok().map(Value::array)
}

pub(crate) fn key(alloc: Global, name: &str) -> Option<Key> {
    String::from_str(alloc, name).ok().map(Key::Text)
}

/// Puts the value at the name, unless there was no memory for it.
pub(crate) fn put(alloc: Global, all: &mut Map, name: &str, value: Option<Value>) -> bool {
    match value {
        Some(value) => match key(alloc, name) {
            Some(key) => all.insert(key, value).is_ok(),
            None => false,
        },
        None => false,
    }
}

pub(crate) fn map(alloc: Global, pairs: &[(&str, i128)]) -> Option<Map> {
    let mut all = Map::new(alloc);
    let mut whole = true;
    for (name, number) in pairs {
        whole = whole && put(alloc, &mut all, *name, Some(Value::from_int(*number)));
    }
    if whole { Some(all) } else { None }
}

/// A map of one entry.
pub(crate) fn entry(alloc: Global, name: &str, value: Option<Value>) -> Option<Value> {
    let mut all = Map::new(alloc);
    if put(alloc, &mut all, name, value) {
        Some(Value::map(all))
    } else {
        None
    }
}

fn push(items: &mut Vec<Value>, value: Option<Value>) -> bool {
    match value {
        Some(value) => items.push(value).is_ok(),
        None => false,
    }
}

pub(crate) fn array(alloc: Global, samples: &[Sample]) -> Option<Value> {
    let mut items = Vec::new(alloc);
    let mut whole = true;
    for sample in samples {
        whole = whole && push(&mut items, value(alloc, *sample));
    }
    if whole {
        Some(Value::array(items))
    } else {
        None
    }
}

pub(crate) fn prints(alloc: Global, value: &Value, text: &str) -> bool {
    match value.printed(alloc) {
        Ok(printed) => printed.as_str() == text,
        Err(_) => false,
    }
}

/// The kind and the printed text, as `int 7`.
pub(crate) fn is_value(alloc: Global, value: &Value, want: &str) -> bool {
    match want.split_once(' ') {
        Some((kind, text)) => value.name() == kind && prints(alloc, value, text),
        None => false,
    }
}

pub(crate) fn refusal(error: &Error) -> &'static str {
    match error.kind() {
        ErrorKind::Message(_) => "message",
        ErrorKind::InvalidArgument => "invalid argument",
        ErrorKind::MissingArgument => "missing argument",
        _ => "another refusal",
    }
}

/// Whether the call answered this value, or refused in this way.
pub(crate) fn answers(alloc: Global, answer: TeraResult<Value>, want: &str) -> bool {
    match answer {
        Ok(value) => is_value(alloc, &value, want),
        Err(error) => refusal(&error) == want,
    }
}

/// The number of the first row of a table that is answered otherwise.
pub(crate) fn first_wrong_row<R: Copy, F: Fn(R) -> bool>(rows: &[R], is_right: F) -> Option<usize>
    requires { F.IsAlwaysCallable is_right }
{
    rows.iter().position(|row| !is_right(*row))
}
