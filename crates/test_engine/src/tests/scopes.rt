//! Variables while loops, includes and components are open.
use std::alloc::Global;
use tera::{Context, Value};
use tera_state::{ForLoop, Scopes};
use tera_values::{Kwargs, Name, NameRef};

fn name(alloc: Global, text: &str) -> Option<Name> {
    Name::new(alloc, text).ok()
}

fn sets(alloc: Global, scopes: &mut Scopes<'_>, text: &str, number: i128) -> bool {
    match name(alloc, text) {
        Some(name) => scopes.set(name, Value::from_int(number)).is_ok(),
        None => false,
    }
}

fn sets_global(alloc: Global, scopes: &mut Scopes<'_>, text: &str, number: i128) -> bool {
    match name(alloc, text) {
        Some(name) => scopes.set_global(name, Value::from_int(number)).is_ok(),
        None => false,
    }
}

/// Whether the name stands for this number, or for nothing.
fn finds(alloc: Global, scopes: &Scopes<'_>, text: &str, want: Option<i128>) -> bool {
    match scopes.look(&NameRef::new(text)).to_value(alloc) {
        Ok(value) => value.as_i128() == want,
        Err(_) => false,
    }
}

fn numbers(alloc: Global) -> Option<Value> {
    let mut items = Vec::new(alloc);
    if items.push(Value::from_int(5)).is_ok() && items.push(Value::from_int(6)).is_ok() {
        Value::array(items).into_shared(alloc).ok()
    } else {
        None
    }
}

fn opens(alloc: Global, scopes: &mut Scopes<'_>) -> bool {
    match (name(alloc, "x"), numbers(alloc)) {
        (Some(name), Some(items)) => match ForLoop::new(alloc, name, None, items) {
            Ok(Some(opened)) => scopes.open_loop(opened).is_ok(),
            _ => false,
        },
        _ => false,
    }
}

fn first_turn(alloc: Global, scopes: &mut Scopes<'_>) -> bool {
    finds(alloc, scopes, "x", Some(5))
        && finds(alloc, scopes, "__tera_loop_index", Some(1))
        && finds(alloc, scopes, "__tera_loop_length", Some(2))
        && sets(alloc, scopes, "in_turn", 7)
        && sets_global(alloc, scopes, "outside", 8)
        && finds(alloc, scopes, "in_turn", Some(7))
}

fn second_turn(alloc: Global, scopes: &mut Scopes<'_>) -> bool {
    scopes.next_turn()
        && finds(alloc, scopes, "x", Some(6))
        && finds(alloc, scopes, "in_turn", None)
        && finds(alloc, scopes, "outside", Some(8))
        && !scopes.next_turn()
}

#[test]
fn turns_forget_what_was_set(rt: HostRuntime) {
    let alloc = rt.alloc();
    let context = Context::new(alloc);
    let mut scopes = Scopes::new(alloc, &context, None);
    let mut holds = opens(alloc, &mut scopes)
        && first_turn(alloc, &mut scopes)
        && second_turn(alloc, &mut scopes);
    if scopes.is_in_loop() {
        scopes.close_loop();
    }
    holds = holds && finds(alloc, &scopes, "x", None) && finds(alloc, &scopes, "outside", Some(8));
    assert!(rt; holds);
}

fn enters_include(alloc: Global, scopes: &mut Scopes<'_>) -> bool {
    sets(alloc, scopes, "a", 1)
        && scopes.enter_include().is_ok()
        && finds(alloc, scopes, "a", Some(1))
        && sets(alloc, scopes, "a", 2)
        && finds(alloc, scopes, "a", Some(2))
}

fn enters_component(alloc: Global, scopes: &mut Scopes<'_>) -> bool {
    sets(alloc, scopes, "a", 2)
        && scopes.enter_component(Kwargs::new(alloc)).is_ok()
        && finds(alloc, scopes, "a", None)
        && finds_above(alloc, scopes, "a", Some(2))
}

fn finds_above(alloc: Global, scopes: &Scopes<'_>, text: &str, want: Option<i128>) -> bool {
    match scopes.look_implicit(&NameRef::new(text)).to_value(alloc) {
        Ok(value) => value.as_i128() == want,
        Err(_) => false,
    }
}

#[test]
fn what_an_include_sets_ends_with_it(rt: HostRuntime) {
    let alloc = rt.alloc();
    let context = Context::new(alloc);
    let mut scopes = Scopes::new(alloc, &context, None);
    let inside = enters_include(alloc, &mut scopes);
    if scopes.below.len() > 0 {
        scopes.leave();
    }
    let holds = inside && finds(alloc, &scopes, "a", Some(1));
    assert!(rt; holds);
}

#[test]
fn a_component_asks_above_for_implicit_names(rt: HostRuntime) {
    let alloc = rt.alloc();
    let context = Context::new(alloc);
    let mut scopes = Scopes::new(alloc, &context, None);
    assert!(rt; enters_component(alloc, &mut scopes));
}
