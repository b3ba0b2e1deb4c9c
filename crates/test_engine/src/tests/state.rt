//! What objects of the caller are lent of a rendering.
use super::cases::is_text;
use std::alloc::Global;
use tera::{ArgFromValue, Context, ErrorKind, Kwargs, State, StringInput, Value};
use tera_state::Scopes;
use tera_values::Name;

/// A name, and the text that it stands for, if any.
#[derive(Clone, Copy)]
struct Look(&'static str, Option<&'static str>);

const LOOKS: [Look; 3] = [
    Look("name", Some("world")),
    Look("hidden", None),
    Look("nope", None),
];

/// A value that is written, whether it is safe, and what is written where text is escaped.
#[derive(Clone, Copy)]
struct WrittenRow(&'static str, bool, &'static str);

const ROWS: [WrittenRow; 3] = [
    WrittenRow("plain", false, "plain"),
    WrittenRow(
        "<a href=\"b\">'&'</a>",
        false,
        "&lt;a href=&quot;b&quot;&gt;&#x27;&amp;&#x27;&lt;/a&gt;",
    ),
    WrittenRow("<b>", true, "<b>"),
];

fn put(alloc: Global, context: &mut Context, name: &str, text: &str) -> bool {
    match Value::string(alloc, text) {
        Ok(value) => context.insert(name, value).is_ok(),
        Err(_) => false,
    }
}

fn caller_context(alloc: Global) -> Option<Context> {
    let mut context = Context::new(alloc);
    if put(alloc, &mut context, "name", "world")
        && context.insert("hidden", Value::undefined()).is_ok()
    {
        Some(context)
    } else {
        None
    }
}

fn finds(state: &State<'_>, look: Look) -> bool {
    match state.get::<String>(look.0) {
        Ok(Some(text)) => look.1 == Some(text.as_str()),
        Ok(None) => look.1.is_none(),
        Err(_) => false,
    }
}

fn finds_all(state: &State<'_>) -> bool {
    LOOKS.iter().all(|look| finds(state, *look))
}

// A name that stands for something else than what is asked for.
fn refuses_another_type(state: &State<'_>) -> bool {
    match state.get::<i128>("name") {
        Ok(_) => false,
        Err(error) => matches!(error.kind(), ErrorKind::InvalidArgument),
    }
}

#[test]
fn names_are_looked_up(rt: HostRuntime) {
    let alloc = rt.alloc();
    // With no room for its names the first row finds nothing.
    let context = match caller_context(alloc) {
        Some(context) => context,
        None => Context::new(alloc),
    };
    let state = State::new(&context);
    assert!(rt; finds_all(&state) && refuses_another_type(&state));
}

fn value_of(alloc: Global, row: WrittenRow) -> Option<Value> {
    if row.1 {
        Value::safe_string(alloc, row.0).ok()
    } else {
        Value::string(alloc, row.0).ok()
    }
}

fn writes(alloc: Global, state: &State<'_>, row: WrittenRow) -> bool {
    match value_of(alloc, row) {
        Some(value) => is_text(state.escape_if_needed(&value), row.2),
        None => false,
    }
}

fn refuses_undefined(state: &State<'_>) -> bool {
    match state.escape_if_needed(&Value::undefined()) {
        Ok(_) => false,
        Err(error) => matches!(error.kind(), ErrorKind::Message(_)),
    }
}

#[test]
fn values_are_written(rt: HostRuntime) {
    let alloc = rt.alloc();
    let context = Context::new(alloc);
    let state = State::new(&context);
    let holds = state.autoescaping_enabled()
        && Value::string(state.alloc(), "a").is_ok()
        && ROWS.iter().all(|row| writes(alloc, &state, *row))
        && is_text(state.escape("<b>"), "&lt;b&gt;")
        && refuses_undefined(&state);
    assert!(rt; holds);
}

fn replaces(alloc: Global, state: &State<'_>) -> bool {
    let mut arguments = Kwargs::new(alloc);
    match (
        Value::string(alloc, "a<b"),
        Value::string(alloc, "<"),
        Value::safe_string(alloc, "<br>"),
    ) {
        (Ok(value), Ok(from), Ok(to)) => {
            arguments.insert("from", from).is_ok()
                && arguments.insert("to", to).is_ok()
                && match state.call_filter("replace", &value, arguments) {
                    Ok(made) => made.is_safe() && made.as_str() == Some("a&lt;b"),
                    Err(_) => false,
                }
        }
        _ => false,
    }
}

fn refuses(alloc: Global, state: &State<'_>, name: &str) -> bool {
    match state.call_filter(name, &Value::none(), Kwargs::new(alloc)) {
        Ok(_) => false,
        Err(error) => matches!(error.kind(), ErrorKind::Message(_)),
    }
}

fn calls_filters(alloc: Global, scopes: &Scopes<'_>) -> bool {
    let state: State<'_> = scopes.state(true, None, Some(&[]));
    replaces(alloc, &state) && refuses(alloc, &state, "upper")
}

#[test]
fn filters_are_called(rt: HostRuntime) {
    let alloc = rt.alloc();
    let context = Context::new(alloc);
    let scopes = Scopes::new(alloc, &context, None);
    assert!(rt; calls_filters(alloc, &scopes));
}

fn refuses_taken(alloc: Global, scopes: &Scopes<'_>) -> bool {
    match Name::new(alloc, "default") {
        Ok(name) => {
            let taken = [name];
            let state: State<'_> = scopes.state(true, None, Some(&taken));
            refuses(alloc, &state, "default") && replaces(alloc, &state)
        }
        Err(_) => false,
    }
}

#[test]
fn taken_filters_are_refused(rt: HostRuntime) {
    let alloc = rt.alloc();
    let context = Context::new(alloc);
    let alone = State::new(&context);
    let scopes = Scopes::new(alloc, &context, None);
    assert!(rt; refuses_taken(alloc, &scopes) && refuses(alloc, &alone, "default"));
}

fn input_of(alloc: Global, row: WrittenRow) -> Option<StringInput> {
    let mut arguments = Kwargs::new(alloc);
    match value_of(alloc, row) {
        Some(value) => {
            if arguments.insert("of", value).is_ok() {
                arguments.must_get("of").ok()
            } else {
                None
            }
        }
        None => None,
    }
}

fn renders(alloc: Global, state: &State<'_>, row: WrittenRow) -> bool {
    match input_of(alloc, row) {
        Some(input) => is_text(input.render(state), row.2),
        None => false,
    }
}

fn keeps_mark(alloc: Global, row: WrittenRow) -> bool {
    match input_of(alloc, row) {
        Some(input) => {
            input.as_str() == row.0
                && input.is_safe() == row.1
                && match input.inherit_safety(alloc, "x") {
                    Ok(value) => value.is_safe() == row.1 && value.as_str() == Some("x"),
                    Err(_) => false,
                }
                && input.into_value().is_safe() == row.1
        }
        None => false,
    }
}

fn renders_all(alloc: Global, state: &State<'_>) -> bool {
    ROWS.iter().all(|row| renders(alloc, state, *row))
}

fn keeps_marks(alloc: Global) -> bool {
    ROWS.iter().all(|row| keeps_mark(alloc, *row))
}

fn refuses_other_kinds(alloc: Global) -> bool {
    match StringInput::from_value(alloc, &Value::none()) {
        Ok(_) => false,
        Err(error) => matches!(error.kind(), ErrorKind::InvalidArgument),
    }
}

#[test]
fn inputs_are_rendered(rt: HostRuntime) {
    let alloc = rt.alloc();
    let context = Context::new(alloc);
    let state = State::new(&context);
    assert!(rt; renders_all(alloc, &state) && keeps_marks(alloc) && refuses_other_kinds(alloc));
}
