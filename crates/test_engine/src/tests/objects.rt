//! Filters, tests, functions and escapes of the caller, where they are called.
use super::cases::{is_text, variables, wrong_line_number};
use crate::own::{Asks, LacksMemory, RefusalKind, Refuses, UsesState, word_object};
use std::alloc::Global;
use tera::{Context, ErrorKind, Kwargs, State, Tera, TeraResult, Value};

fn refusing_object(alloc: Global, with: RefusalKind) -> TeraResult<Box<Refuses>> {
    Ok(Box::new(alloc, Refuses { alloc, with })?)
}

fn with_filters(alloc: Global, engine: &mut Tera) -> TeraResult<()> {
    engine.register_filter(
        "bold",
        Box::new(alloc, word_object(alloc, "<b>x</b>", true))?,
    )?;
    engine.register_filter(
        "plain",
        Box::new(alloc, word_object(alloc, "<b>x</b>", false))?,
    )?;
    engine.register_filter("bad", refusing_object(alloc, RefusalKind::InvalidArgument)?)?;
    engine.register_filter("refused", refusing_object(alloc, RefusalKind::Message)?)?;
    engine.register_filter("trimmed", Box::new(alloc, UsesState { alloc })?)
}

fn with_functions(alloc: Global, engine: &mut Tera) -> TeraResult<()> {
    engine.register_function(
        "hello",
        Box::new(alloc, word_object(alloc, "<hello>", true))?,
    )?;
    engine.register_function(
        "super",
        Box::new(alloc, word_object(alloc, "never", false))?,
    )?;
    engine.register_function(
        "wrong",
        refusing_object(alloc, RefusalKind::InvalidArgument)?,
    )?;
    engine.register_function(
        "missing",
        refusing_object(alloc, RefusalKind::MissingArgument)?,
    )?;
    engine.register_function("refused", refusing_object(alloc, RefusalKind::Message)?)?;
    engine.register_function(
        "absent",
        refusing_object(alloc, RefusalKind::TemplateNotFound)?,
    )?;
    engine.register_function("esc_if_needed", Box::new(alloc, UsesState { alloc })?)
}

fn with_tests(alloc: Global, engine: &mut Tera) -> TeraResult<()> {
    engine.register_test(
        "wrong",
        refusing_object(alloc, RefusalKind::InvalidArgument)?,
    )?;
    engine.register_test(
        "missing",
        refusing_object(alloc, RefusalKind::MissingArgument)?,
    )
}

/// An object of each kind that says that memory was refused.
fn with_lacking(alloc: Global, engine: &mut Tera) -> TeraResult<()> {
    engine.register_filter("lacking", refusing_object(alloc, RefusalKind::OutOfMemory)?)?;
    engine.register_function("lacking", refusing_object(alloc, RefusalKind::OutOfMemory)?)?;
    engine.register_test("lacking", refusing_object(alloc, RefusalKind::OutOfMemory)?)
}

fn engine(alloc: Global) -> TeraResult<Tera> {
    let mut engine = Tera::new(alloc)?;
    with_filters(alloc, &mut engine)?;
    with_functions(alloc, &mut engine)?;
    with_tests(alloc, &mut engine)?;
    with_lacking(alloc, &mut engine)?;
    Ok(engine)
}

/// What the engine renders behind each line of the table, as before.
const AGAIN: &str = "{{ hello() }}{{ 1 | plain }} => <hello>&lt;b&gt;x&lt;/b&gt;";

const CASES: &str = r#"
{{ 1 | bold }}{{ 1 | plain }} => <b>x</b>&lt;b&gt;x&lt;/b&gt;
{{ name | bad }} !! 3 7
{{ name | refused }} !! 3 17
{{ name | lacking }} !! memory
{{ name | upper }} !! message
{{ wrong() }} !! 3 10
{{ missing() }} !! 3 12
{{ refused() }} !! 3 12
{{ absent() }} !! 3 11
{{ lacking() }} !! memory
{{ name is lacking }} !! memory
{{ unknown() }} !! message
{{ name is wrong }} !! 3 7
{{ name is missing }} !! 3 18
{{ name is unknown }} !! message
{{ hello() }} {{ name }} => <hello> world
{{ name | bold(a=1 // 0) }} !! 22 23
{{ super() }} !! 3 10
{{ " a " | trimmed }}! => a!
{% filter bold | trimmed %}{{ name }}{% endfilter %} => <b>x</b>
{% set s = html | safe %}{{ esc_if_needed(text=html) | safe }} - {{ esc_if_needed(text=s) | safe }} => &lt;script&gt; - <script>
{{ esc_if_needed(text=hidden) }} !! 3 29
{{ esc_if_needed() }} !! 3 18
"#;

fn are_answered(engine: &Tera, context: &Context) -> bool {
    CASES.lines().all(|line| {
        wrong_line_number(engine, context, true, line).is_none()
            && wrong_line_number(engine, context, true, AGAIN).is_none()
    })
}

fn answers(alloc: Global) -> bool {
    match (engine(alloc), variables(alloc)) {
        (Ok(engine), Some(context)) => are_answered(&engine, &context),
        _ => false,
    }
}

#[test]
fn objects_answer(rt: HostRuntime) {
    assert!(rt; answers(rt.alloc()));
}

const UNESCAPED: &str = r#"
{{ 1 | bold }}{{ 1 | plain }} => <b>x</b><b>x</b>
{{ esc_if_needed(text=html) }} => <script>
"#;

fn answers_unescaped(alloc: Global) -> bool {
    match (engine(alloc), variables(alloc)) {
        (Ok(engine), Some(context)) => wrong_line_number(
            &engine, &context, false, UNESCAPED,
        ).is_none(),
        _ => false,
    }
}

#[test]
fn objects_answer_where_nothing_is_escaped(rt: HostRuntime) {
    assert!(rt; answers_unescaped(rt.alloc()));
}

// A name of a built-in that an object takes: states have no filter of that name any more.
fn takes_names(alloc: Global) -> TeraResult<bool> {
    let mut engine = engine(alloc)?;
    engine.register_filter("trim", Box::new(alloc, word_object(alloc, "own", false))?)?;
    let context = Context::new(alloc);
    let lines = "{{ ' a ' | trim }} => own\n{{ ' a ' | trimmed }} !! 3 18\n{{ 'a' | escape }} => a";
    Ok(wrong_line_number(&engine, &context, true, lines).is_none())
}

#[test]
fn names_of_built_ins_are_taken(rt: HostRuntime) {
    let is_right = matches!(takes_names(rt.alloc()), Ok(true));
    assert!(rt; is_right);
}

/// Names of the caller's objects that are misspelled, and what is said of them.
const MISSPELLED: &str = "{{ 1 | bould }}{{ helo() }}{% if 1 is wrnog %}{% endif %}";

const MEANT: &str = "page.html:1:8: there is no filter `bould` (is `bold` meant?)
page.html:1:19: there is no function `helo` (is `hello` meant?)
page.html:1:39: there is no test `wrnog` (is `wrong` meant?)";

fn guesses(alloc: Global) -> TeraResult<bool> {
    let mut engine = engine(alloc)?;
    match engine.add_raw_template("page.html", MISSPELLED) {
        Ok(()) => Ok(false),
        Err(error) => match error.kind() {
            ErrorKind::Message(words) => Ok(words.as_str() == MEANT),
            _ => Ok(false),
        },
    }
}

#[test]
fn names_of_objects_are_guessed(rt: HostRuntime) {
    let is_right = matches!(guesses(rt.alloc()), Ok(true));
    assert!(rt; is_right);
}

fn has_no_filter(alloc: Global) -> bool {
    let context = Context::new(alloc);
    let state = State::new(&context);
    match state.call_filter("trim", &Value::none(), Kwargs::new(alloc)) {
        Ok(_) => false,
        Err(error) => matches!(error.kind(), ErrorKind::Message(_)),
    }
}

#[test]
fn states_alone_have_no_filters(rt: HostRuntime) {
    assert!(rt; has_no_filter(rt.alloc()));
}

fn greeting(alloc: Global) -> TeraResult<Context> {
    let mut context = Context::new(alloc);
    context.insert("content", Value::string(alloc, "Hello tera")?)?;
    Ok(context)
}

fn lacks(answer: TeraResult<String>) -> bool {
    match answer {
        Ok(_) => false,
        Err(error) => matches!(error.kind(), ErrorKind::OutOfMemory),
    }
}

// An escape takes the place of another, also in templates that are there.
fn escapes(alloc: Global) -> TeraResult<bool> {
    let context = greeting(alloc)?;
    let mut engine = Tera::new(alloc)?;
    engine.autoescape_on(&["js"])?;
    engine.add_raw_template("hello.js", "const data = \"{{ content }}\";")?;
    engine.set_escape_fn(Box::new(alloc, Asks { alloc })?);
    let asked = is_text(
        engine.render("hello.js", &context),
        "const data = \"Hello ter?\";",
    );
    let joined = is_text(
        engine.render_str("{{ [content, content] | join(sep='a') }}", &context, true),
        "Hello ter??Hello ter?",
    );
    engine.register_function("written", Box::new(alloc, UsesState { alloc })?)?;
    let lines =
        "{{ content | escape }} => Hello ter?\n{{ written(text=content) | safe }} => Hello ter?";
    let used = wrong_line_number(&engine, &context, true, lines).is_none();
    engine.set_escape_fn(Box::new(alloc, LacksMemory)?);
    let lacking = lacks(engine.render("hello.js", &context));
    let kept = is_text(engine.render_str("{{ 'a' | safe }}", &context, true), "a");
    engine.reset_escape_fn();
    let plain = is_text(
        engine.render("hello.js", &context),
        "const data = \"Hello tera\";",
    );
    Ok(asked && joined && used && lacking && kept && plain)
}

#[test]
fn texts_are_escaped_by_an_object(rt: HostRuntime) {
    let is_right = matches!(escapes(rt.alloc()), Ok(true));
    assert!(rt; is_right);
}

// A function that writes as the state does, in a template whose name escapes.
fn writes_by_name(alloc: Global) -> TeraResult<bool> {
    let mut context = Context::new(alloc);
    context.insert("name", Value::string(alloc, "<script>")?)?;
    let mut engine = engine(alloc)?;
    engine.add_raw_template(
        "tpl2.html",
        "{% set safe_name = name | safe %}{{ esc_if_needed(text=name) | safe }} - {{ esc_if_needed(text=safe_name) | safe }}",
    )?;
    Ok(is_text(
        engine.render("tpl2.html", &context),
        "&lt;script&gt; - <script>",
    ))
}

#[test]
fn functions_write_as_the_state_does(rt: HostRuntime) {
    let is_right = matches!(writes_by_name(rt.alloc()), Ok(true));
    assert!(rt; is_right);
}
