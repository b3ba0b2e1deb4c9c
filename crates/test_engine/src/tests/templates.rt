//! Templates by name: what they render to, and which batches are refused.
use super::cases::is_text;
use std::alloc::Global;
use tera::{Context, Error, ErrorKind, Tera, TeraResult, Value};
use tera_values::{Key, Map};

/// Two that extend one another, and one above which they stand.
const CIRCLE: [(&str, &str); 3] = [
    ("a", "{% extends 'b' %}"),
    ("b", "{% extends 'c' %}"),
    ("c", "{% extends 'b' %}"),
];

const TWICE: [(&str, &str); 2] = [("a", "1"), ("a", "2")];

/// A parent that escapes nothing by its own name, and children of it.
const FAMILY: [(&str, &str); 3] = [
    ("base.txt", "{{ html }}{{ nope or '' }}"),
    ("child.html", "{% extends 'base.txt' %}"),
    ("child.txt", "{% extends 'base.txt' %}"),
];

const USERS: &str =
    "{% for user in users %}<a href=\"{{ user.url }}\">{{ user.username }}</a>{% endfor %}";

fn kind(error: &Error) -> &'static str {
    match error.kind() {
        ErrorKind::SyntaxError(_) => "SyntaxError",
        ErrorKind::Message(_) => "Message",
        ErrorKind::CircularExtend => "CircularExtend",
        ErrorKind::MissingParent => "MissingParent",
        ErrorKind::TemplateNotFound => "TemplateNotFound",
        ErrorKind::ComponentNotFound => "ComponentNotFound",
        _ => "another",
    }
}

pub fn is_refused(answer: TeraResult<()>, want: &str) -> bool {
    match answer {
        Ok(()) => false,
        Err(error) => kind(&error) == want,
    }
}

/// A context with one text.
pub fn with_text(alloc: Global, name: &str, text: &str) -> TeraResult<Context> {
    let mut context = Context::new(alloc);
    context.insert(name, Value::string(alloc, text)?)?;
    Ok(context)
}

pub fn adds(engine: &mut Tera, name: &str, content: &str) -> bool {
    engine.add_raw_template(name, content).is_ok()
}

/// Whether the template renders to the text.
pub fn shows(engine: &Tera, context: &Context, name: &str, text: &str) -> bool {
    is_text(engine.render(name, context), text)
}

/// Whether a rendering is refused with an error of this kind.
pub fn fails_with(answer: TeraResult<String>, want: &str) -> bool {
    match answer {
        Ok(_) => false,
        Err(error) => kind(&error) == want,
    }
}

fn fails(engine: &Tera, context: &Context, name: &str, want: &str) -> bool {
    fails_with(engine.render(name, context), want)
}

fn falls_back(engine: &mut Tera, context: &Context) -> bool {
    engine
        .set_fallback_prefixes(&["other/", "themes/cool/"])
        .is_ok()
        && adds(engine, "themes/cool/base.html", "fallback")
        && adds(engine, "child.html", "{% extends \"base.html\" %}")
        && engine.contains_template("base.html")
        && !engine.contains_template("cool/base.html")
        && shows(engine, context, "child.html", "fallback")
        && shows(engine, context, "base.html", "fallback")
        && adds(engine, "base.html", "main")
        && shows(engine, context, "child.html", "main")
        && is_refused(engine.set_fallback_prefixes(&["other/"]), "Message")
        && shows(engine, context, "child.html", "main")
}

#[test]
fn names_fall_back_to_prefixes(rt: HostRuntime) -> TeraResult<()> {
    let mut engine = Tera::new(rt.alloc())?;
    assert!(rt; falls_back(&mut engine, &Context::new(rt.alloc())));
    Ok(())
}

fn has_names(engine: &Tera, count: usize) -> bool {
    match engine.get_template_names() {
        Ok(names) => names.len() == count,
        Err(_) => false,
    }
}

/// A good template, and one that calls what is not there.
const UNKNOWN: [(&str, &str); 2] = [
    ("good", "x"),
    (
        "bad",
        "{% block b %}{{ name | no_such_filter }}{% endblock %}",
    ),
];

fn refuses_unknown(engine: &mut Tera, context: &Context) -> bool {
    adds(engine, "good", "Hello {{ name }}!")
        && is_refused(engine.add_raw_templates(&UNKNOWN), "Message")
        && shows(engine, context, "good", "Hello !")
        && fails(engine, context, "bad", "TemplateNotFound")
}

#[test]
fn what_is_called_is_there(rt: HostRuntime) -> TeraResult<()> {
    let mut engine = Tera::new(rt.alloc())?;
    let context = with_text(rt.alloc(), "name", "")?;
    assert!(rt; refuses_unknown(&mut engine, &context));
    Ok(())
}

fn refuses(engine: &mut Tera, name: &str, content: &str, want: &str) -> bool {
    is_refused(engine.add_raw_template(name, content), want)
}

fn refuses_batches(engine: &mut Tera, context: &Context) -> bool {
    is_refused(engine.add_raw_templates(&CIRCLE), "CircularExtend")
        && has_names(engine, 0)
        && refuses(engine, "a", "{% extends \"no\" %}", "MissingParent")
        && refuses(engine, "a", "{% extends 'a' %}", "CircularExtend")
        && !engine.contains_template("a")
        && fails(engine, context, "no", "TemplateNotFound")
        && engine.add_raw_templates(&TWICE).is_ok()
        && shows(engine, context, "a", "2")
        && refuses(engine, "a", "{% if x %}oops", "SyntaxError")
        && refuses(engine, "b", "{% extends 'no' %}", "MissingParent")
        && shows(engine, context, "a", "2")
        && has_names(engine, 1)
}

#[test]
fn refused_batches_change_nothing(rt: HostRuntime) -> TeraResult<()> {
    let mut engine = Tera::new(rt.alloc())?;
    assert!(rt; refuses_batches(&mut engine, &Context::new(rt.alloc())));
    Ok(())
}

/// One user, with an address and a name.
fn user(alloc: Global) -> TeraResult<Value> {
    let mut user = Map::new(alloc);
    let url = Value::string(alloc, "/a")?;
    user.insert(Key::Text(String::from_str(alloc, "url")?), url)?;
    let name = Value::string(alloc, "A&B")?;
    user.insert(Key::Text(String::from_str(alloc, "username")?), name)?;
    Ok(Value::map(user))
}

fn users(alloc: Global) -> TeraResult<Value> {
    let mut all = Vec::new(alloc);
    all.push(user(alloc)?)?;
    Ok(Value::array(all))
}

fn lists_users(engine: &mut Tera, context: &Context) -> bool {
    adds(engine, "u.html", USERS)
        && adds(engine, "u.txt", USERS)
        && shows(engine, context, "u.html", "<a href=\"/a\">A&amp;B</a>")
        && shows(engine, context, "u.txt", "<a href=\"/a\">A&B</a>")
        && engine.autoescape_on(&[".txt"]).is_ok()
        && shows(engine, context, "u.html", "<a href=\"/a\">A&B</a>")
        && shows(engine, context, "u.txt", "<a href=\"/a\">A&amp;B</a>")
        && engine.autoescape_on(&[]).is_ok()
        && shows(engine, context, "u.txt", "<a href=\"/a\">A&B</a>")
}

#[test]
fn suffixes_say_what_escapes(rt: HostRuntime) -> TeraResult<()> {
    let mut engine = Tera::new(rt.alloc())?;
    let mut context = Context::new(rt.alloc());
    context.insert("users", users(rt.alloc())?)?;
    assert!(rt; lists_users(&mut engine, &context));
    Ok(())
}

fn appends(alloc: Global, engine: &Tera, context: &Context) -> bool {
    let mut out = Vec::new(alloc);
    engine.render_to("child.html", context, &mut out).is_ok()
        && is_refused(
            engine.render_to("no", context, &mut out),
            "TemplateNotFound",
        )
        && engine.render_to("child.txt", context, &mut out).is_ok()
        && out.as_slice() == b"&lt;<".as_slice()
}

/// Whether a child escapes as its own name says, in its parent's text too.
fn inherits(alloc: Global, engine: &mut Tera, context: &Context) -> bool {
    engine.add_raw_templates(&FAMILY).is_ok()
        && shows(engine, context, "child.html", "&lt;")
        && shows(engine, context, "child.txt", "<")
        && appends(alloc, engine, context)
        && is_message(engine, context, "{% extends 'base.txt' %}")
}

fn is_message(engine: &Tera, context: &Context, input: &str) -> bool {
    fails_with(engine.render_str(input, context, true), "Message")
}

#[test]
fn children_show_their_last_parent(rt: HostRuntime) -> TeraResult<()> {
    let mut engine = Tera::new(rt.alloc())?;
    let context = with_text(rt.alloc(), "html", "<")?;
    assert!(rt; inherits(rt.alloc(), &mut engine, &context));
    Ok(())
}
