//! Faulty templates, and the whole report of each.
//!
//! A case begins with a line of four signs `=`. The templates stand in it, each behind a line with four signs `-` and its name; then a
//! line with an arrow tells what is done with them, and what is told of it follows. All are added, and the template of the name is
//! rendered; `NAME#BLOCK` renders a block of it, and `text` alone renders the first as a text beside the templates. The sign ␍ stands for
//! a carriage return, and ␉ for a tab.
use super::{reports_of_reading, reports_of_templates, reports_of_values};
use std::alloc::{AllocError, Global};
use tera::{Context, Key, Map, Tera, TeraResult, Value};

fn put(map: &mut Map, alloc: Global, name: &str, value: Value) -> TeraResult<()> {
    map.insert(Key::Text(String::from_str(alloc, name)?), value)
}

// A user, the array of that one, a title, a number and none.
fn context(alloc: Global) -> TeraResult<Context> {
    let mut user = Map::new(alloc);
    put(&mut user, alloc, "name", Value::string(alloc, "Ada")?)?;
    put(&mut user, alloc, "age", Value::from_int(36))?;
    let user = Value::map(user).into_shared(alloc)?;
    let mut users = Vec::new(alloc);
    users.push(user.try_clone()?)?;
    let mut context = Context::new(alloc);
    context.insert("user", user)?;
    context.insert("users", Value::array(users).into_shared(alloc)?)?;
    context.insert("title", Value::string(alloc, "Home")?)?;
    context.insert("count", Value::from_int(3))?;
    context.insert("nothing", Value::none())?;
    Ok(context)
}

// Adds the templates of a case, and renders what it says.
fn answer(alloc: Global, texts: &str, what: &str) -> TeraResult<String> {
    let context = context(alloc)?;
    let mut engine = Tera::new(alloc)?;
    let mut batch = Vec::new(alloc);
    for text in texts.split("---- ").skip(1) {
        if let Some(template) = text.split_once("\n") {
            batch.push(template)?;
        }
    }
    if what == "text" {
        let text = batch.first().map_or("", |template| template.1);
        return engine.render_str(text, &context, true);
    }
    engine.add_raw_templates(batch.as_slice())?;
    match what.split_once("#") {
        Some((name, block)) => engine.render_block(name, block, &context),
        None => engine.render(what, &context),
    }
}

// Whether what is done is told so.
fn tells(alloc: Global, texts: &str, what: &str, want: &str) -> bool {
    match answer(alloc, texts, what) {
        Ok(_) => false,
        Err(error) => match format!(in alloc; "{error}\n") {
            Ok(told) => told.as_str() == want,
            Err(_) => false,
        },
    }
}

fn with_signs(alloc: Global, case: &str) -> Result<String, AllocError> {
    let case = case.replace(alloc, "␍", "\r")?;
    case.as_str().replace(alloc, "␉", "\t")
}

// Whether the case is told as it wants.
fn is_told(alloc: Global, case: &str) -> bool {
    let Ok(case) = with_signs(alloc, case) else {
        return false;
    };
    let Some((texts, rest)) = case.as_str().split_once("=> ") else {
        return false;
    };
    match rest.split_once("\n") {
        Some((what, want)) => tells(alloc, texts, what, want),
        None => false,
    }
}

// The first case that is told otherwise.
fn wrong_case(alloc: Global, cases: &'static str) -> Option<&'static str> {
    cases
        .split("====\n")
        .skip(1)
        .find(|case| !is_told(alloc, case))
}

#[test]
fn reports_values(rt: HostRuntime) {
    let case = wrong_case(rt.alloc(), reports_of_values::CASES);
    assert!(rt; case.is_none(), "in the case {case:?}");
}

#[test]
fn reports_templates(rt: HostRuntime) {
    let case = wrong_case(rt.alloc(), reports_of_templates::CASES);
    assert!(rt; case.is_none(), "in the case {case:?}");
}

#[test]
fn reports_reading(rt: HostRuntime) {
    let case = wrong_case(rt.alloc(), reports_of_reading::CASES);
    assert!(rt; case.is_none(), "in the case {case:?}");
}
