// Arguments by name.
use crate::sample::Sample::{Int, Ints, Pairs, Text, Truth};
use crate::sample::{Sample, is_value, refusal, value};
use std::alloc::Global;
use tera_values::{ArgFromValue, Kwargs, Map, TeraResult, Value};

const WIDE: Sample = Int(4_294_967_296);

fn put(kwargs: &mut Kwargs, value: Option<Value>) -> bool {
    match value {
        Some(value) => kwargs.insert("x", value).is_ok(),
        None => false,
    }
}

/// The argument `x` alone.
fn kwargs_of(alloc: Global, sample: Sample) -> Option<Kwargs> {
    let mut kwargs = Kwargs::new(alloc);
    if put(&mut kwargs, value(alloc, sample)) {
        Some(kwargs)
    } else {
        None
    }
}

fn required_argument<T: ArgFromValue>(
    alloc: Global,
    sample: Sample,
    name: &str,
) -> Option<TeraResult<T>> {
    match kwargs_of(alloc, sample) {
        Some(kwargs) => Some(kwargs.must_get(name)),
        None => None,
    }
}

fn optional_argument<T: ArgFromValue>(
    alloc: Global,
    sample: Sample,
    name: &str,
) -> Option<TeraResult<Option<T>>> {
    match kwargs_of(alloc, sample) {
        Some(kwargs) => Some(kwargs.get(name)),
        None => None,
    }
}

fn is_refused<T: Drop>(answer: Option<TeraResult<T>>, want: &str) -> bool {
    match answer {
        Some(Err(error)) => refusal(&error) == want,
        _ => false,
    }
}

fn wrong_are_refused(alloc: Global) -> bool {
    let narrow: Option<TeraResult<u32>> = required_argument(alloc, WIDE, "x");
    let missing: Option<TeraResult<u32>> = required_argument(alloc, WIDE, "y");
    let wrong: Option<TeraResult<Option<bool>>> = optional_argument(alloc, WIDE, "x");
    is_refused(narrow, "invalid argument")
        && is_refused(missing, "missing argument")
        && is_refused(wrong, "invalid argument")
}

fn reads_numbers(alloc: Global) -> bool {
    let whole: Option<TeraResult<i128>> = required_argument(alloc, WIDE, "x");
    let size: Option<TeraResult<Option<usize>>> = optional_argument(alloc, WIDE, "x");
    let small = u32::from_value(alloc, &Value::from_int(7));
    matches!(whole, Some(Ok(4_294_967_296)))
        && matches!(size, Some(Ok(Some(4_294_967_296))))
        && matches!(small, Ok(7))
}

fn reads_flags(alloc: Global) -> bool {
    let flag: Option<TeraResult<bool>> = required_argument(alloc, Truth(true), "x");
    let absent: Option<TeraResult<Option<bool>>> = optional_argument(alloc, WIDE, "y");
    matches!(flag, Some(Ok(true))) && matches!(absent, Some(Ok(None)))
}

fn reads_text(alloc: Global) -> bool {
    let read: Option<TeraResult<String>> = required_argument(alloc, Text("<b>"), "x");
    match read {
        Some(Ok(text)) => text.as_str() == "<b>",
        _ => false,
    }
}

fn reads_items(alloc: Global) -> bool {
    let read: Option<TeraResult<Vec<Value>>> = required_argument(alloc, Ints(&[1, 2]), "x");
    match read {
        Some(Ok(items)) => items.len() == 2,
        _ => false,
    }
}

fn reads_map(alloc: Global) -> bool {
    let read: Option<TeraResult<Map>> = required_argument(alloc, Pairs(&[("a", 0)]), "x");
    match read {
        Some(Ok(all)) => all.len() == 1,
        _ => false,
    }
}

fn reads_value(alloc: Global) -> bool {
    let read: Option<TeraResult<Value>> = required_argument(alloc, Ints(&[1, 2]), "x");
    match read {
        Some(Ok(value)) => is_value(alloc, &value, "array [1, 2]"),
        _ => false,
    }
}

#[test]
fn arguments_are_read(rt: HostRuntime) {
    let alloc = rt.alloc();
    let right = wrong_are_refused(alloc)
        && reads_numbers(alloc)
        && reads_flags(alloc)
        && reads_text(alloc)
        && reads_items(alloc)
        && reads_map(alloc)
        && reads_value(alloc);
    assert!(rt; right);
}
