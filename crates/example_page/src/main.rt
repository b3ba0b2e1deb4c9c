// A page of two users, with objects of this program, and a template with a fault. docs/USING.md explains it.
#![tactic(auto)]

mod objects;

use crate::objects::{Adult, Masked, Place, Strong};
use std::alloc::Global;
use std::io;
use std::io::Write;
use tera::{Context, Key, Map, Tera, TeraResult, Value};

/// A user, as a template reads it.
fn user(alloc: Global, name: &str, age: i128) -> TeraResult<Value> {
    let mut map = Map::new(alloc);
    map.insert(
        Key::Text(String::from_str(alloc, "name")?),
        Value::string(alloc, name)?,
    )?;
    map.insert(
        Key::Text(String::from_str(alloc, "age")?),
        Value::from_int(age),
    )?;
    Value::map(map).into_shared(alloc)
}

fn context(alloc: Global) -> TeraResult<Context> {
    let mut users = Vec::new(alloc);
    users.push(user(alloc, "Ada", 36)?)?;
    users.push(user(alloc, "Tom & Jo", 7)?)?;
    let mut context = Context::new(alloc);
    context.insert("users", Value::array(users).into_shared(alloc)?)?;
    Ok(context)
}

const PAGE: &str = r#"{% for user in users -%}
<li>{{ user.name | strong }}: {{ user.age }}{% if user.age is adult %}, of age{% endif %}</li>
{% endfor %}<p>{{ place() }}</p>
"#;

/// The text, or what is wrong and where.
fn print(rt: &HostRuntime, answer: TeraResult<String>) -> io::Result<()> {
    match answer {
        Ok(text) => rt.stdout().write_all(text.as_str().as_bytes()),
        Err(error) => println!(rt; "{error}"),
    }
}

/// Renders a page, one that goes wrong, and one that is not there.
fn print_all(rt: &HostRuntime, engine: &Tera, context: &Context) -> io::Result<()> {
    print(rt, engine.render("page.html", context))?;
    print(rt, engine.render("wrong.html", context))?;
    print(rt, engine.render("none.html", context))
}

/// Registers a filter, a test and a function of this program, renders two templates and one that is not there, and renders the
/// first again by an escape of its own. What boxes an object for an engine has that engine to itself.
fn run(rt: &HostRuntime, alloc: Global) -> TeraResult<io::Result<()>> {
    let context = context(alloc)?;
    let name = String::from_str(alloc, "Bergen & Oslo")?;
    let mut engine = Tera::new(alloc)?;
    engine.register_filter("strong", Box::new(alloc, Strong { alloc })?)?;
    engine.register_test("adult", Box::new(alloc, Adult)?)?;
    engine.register_function("place", Box::new(alloc, Place { alloc, name })?)?;
    engine.add_raw_templates(&[("page.html", PAGE), ("wrong.html", "{{ users + 1 }}")])?;
    let printed = print_all(rt, &engine, &context);
    engine.set_escape_fn(Box::new(alloc, Masked)?);
    Ok(printed.and(print(rt, engine.render("page.html", &context))))
}

fn main(rt: HostRuntime) -> io::Result<()> {
    match run(&rt, rt.alloc()) {
        Ok(printed) => printed,
        Err(_) => println!(rt; "the templates or the values were refused"),
    }
}
