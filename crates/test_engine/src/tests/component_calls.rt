//! The calls that render a component, and those that tell of components.
use super::cases::{is_text, renders};
use super::templates::{adds, fails_with, is_refused, with_text};
use std::alloc::Global;
use tera::{ComponentArg, ComponentInfo, Context, ErrorKind, Tera, TeraResult, Value};

/// A component that takes all that is given to it, and one that looks for what isn't.
const LOOKING: &str =
    r#"{% component attrs(...rest) %}{% for k, v in rest %}{{k}}={{v}} {% endfor %} || {{ <show /> }}{% endcomponent attrs %}
{% component show(@name, @lang = "fr") %}{{ name }}-{{ lang }}{% endcomponent show %}"#;

const NAMES: &str = "{% component P() %}{{ name }}{% endcomponent %}\
    {% component S(@name) %}{{ name }}{% endcomponent %}";

const CARD: &str =
    "{% component Card(title) %}<div><h1>{{ title }}</h1>{{ body }}</div>{% endcomponent %}\
    {% component Quote(text) %}{% <Card title={text}> %}{{ body }}{% </Card> %}{% endcomponent %}";

const BUTTON: &str = "{% component Button(label: String, variant=\"primary\", ...rest) %}\
    <button>{{ label }}</button>{% endcomponent Button %}";

/// An engine with one template, a context with nothing, and one in which `name` is `Vincent`.
fn with_template(alloc: Global, name: &str, content: &str) -> TeraResult<(Tera, Context, Context)> {
    let mut engine = Tera::new(alloc)?;
    engine.add_raw_template(name, content)?;
    Ok((
        engine,
        Context::new(alloc),
        with_text(alloc, "name", "Vincent")?,
    ))
}

/// Whether the component has this text, with autoescape on.
fn shows(engine: &Tera, name: &str, args: &Context, implicits: &Context, text: &str) -> bool {
    is_text(
        engine.render_component(name, args, implicits, None, true),
        text,
    )
}

/// Whether the call is refused with an error of this kind.
fn refuses(engine: &Tera, name: &str, args: &Context, implicits: &Context, want: &str) -> bool {
    fails_with(
        engine.render_component(name, args, implicits, None, false),
        want,
    )
}

/// Whether the component faults in the template `p`, at these bytes.
fn faults(engine: &Tera, name: &str, args: &Context, start: usize, end: usize) -> bool {
    let Err(error) = engine.render_component(name, args, args, None, false) else {
        return false;
    };
    match error.kind() {
        ErrorKind::RenderingError(report) => {
            report.file() == "p" && report.span().start == start && report.span().end == end
        }
        _ => false,
    }
}

/// What is given goes before what is looked up, and a component that is called looks there too.
#[test]
fn arguments_and_implicits(rt: HostRuntime) -> TeraResult<()> {
    let alloc = rt.alloc();
    let (engine, none, vincent) = with_template(alloc, "c", LOOKING)?;
    let jane = with_text(alloc, "name", "Jane")?;
    let class = with_text(alloc, "class", "btn")?;
    let attrs = "class=btn  || Vincent-fr";
    assert!(rt;
        shows(&engine, "attrs", &class, &vincent, attrs)
            && shows(&engine, "show", &jane, &vincent, "Jane-fr")
            && refuses(&engine, "show", &class, &vincent, "Message")
            && refuses(&engine, "show", &none, &none, "Message")
            && refuses(&engine, "shown", &none, &none, "ComponentNotFound")
    );
    Ok(())
}

/// The look-up of implicits ends in the global context. A body reads no context of a caller.
#[test]
fn implicits_of_the_engine(rt: HostRuntime) -> TeraResult<()> {
    let alloc = rt.alloc();
    let (mut engine, none, vincent) = with_template(alloc, "p", NAMES)?;
    let name = Value::string(alloc, "John Doe")?;
    engine.global_context().insert("name", name)?;
    assert!(rt;
        renders(&engine, &none, false, "{{ name }}", "John Doe")
            && renders(&engine, &none, false, "{{ <S/> }}", "John Doe")
            && shows(&engine, "S", &none, &none, "John Doe")
            && shows(&engine, "S", &none, &vincent, "Vincent")
            && faults(&engine, "P", &none, 22, 26)
    );
    Ok(())
}

/// A text goes behind what is there. After a refusal that is as before.
#[test]
fn components_are_appended(rt: HostRuntime) -> TeraResult<()> {
    let alloc = rt.alloc();
    let (engine, none, vincent) = with_template(alloc, "p", NAMES)?;
    let mut out = b"a".to_vec(alloc)?;
    let mut kept = b"a".to_vec(alloc)?;
    engine.render_component_to("S", &none, &vincent, None, false, &mut out)?;
    let absent = engine.render_component_to("Nope", &none, &vincent, None, false, &mut kept);
    let unfit = engine.render_component_to("S", &none, &none, None, false, &mut kept);
    assert!(rt;
        is_refused(absent, "ComponentNotFound")
            && is_refused(unfit, "Message")
            && out.as_slice() == b"aVincent".as_slice()
            && kept.as_slice() == b"a".as_slice()
    );
    Ok(())
}

/// Whether the component has this text around the body, with autoescape on.
fn surrounds(engine: &Tera, name: &str, args: &Context, body: &str, text: &str) -> bool {
    is_text(
        engine.render_component(name, args, args, Some(body), true),
        text,
    )
}

/// A body that is handed in is put out as it is, and an argument isn't. Without one `body` is undefined.
#[test]
fn bodies_are_handed_in(rt: HostRuntime) -> TeraResult<()> {
    let alloc = rt.alloc();
    let mut engine = Tera::new(alloc)?;
    let title = with_text(alloc, "title", "T&")?;
    let text = with_text(alloc, "text", "<")?;
    let card = "<div><h1>T&amp;</h1><p>body</p></div>";
    engine.add_raw_template("p", CARD)?;
    assert!(rt;
        surrounds(&engine, "Card", &title, "<p>body</p>", card)
            && surrounds(&engine, "Quote", &text, "<", "<div><h1>&lt;</h1><</div>")
            && faults(&engine, "Card", &title, 55, 59)
    );
    Ok(())
}

/// Whether each has its name, in order, and there are no more of them.
fn are_named<T, F: Fn(&T, &str) -> bool>(all: &[T], names: &[&str], has_name: F) -> bool
    requires { F.IsAlwaysCallable has_name }
{
    all.len() == names.len()
        && all
            .iter()
            .zip(names)
            .all(|(one, name)| has_name(one, *name))
}

fn are_names(names: &[String], want: &[&str]) -> bool {
    are_named(names, want, |name, want| name.as_str() == want)
}

/// Whether this is told of a component.
fn tells(info: &Option<ComponentInfo>, name: &str, names: &[&str]) -> bool {
    match info {
        Some(info) => {
            info.name() == name
                && are_named(
                    info.args(),
                    names,
                    |arg: &ComponentArg, name| arg.name() == name,
                )
        }
        None => false,
    }
}

/// What is told stays as it is when templates change.
#[test]
fn what_is_told_of_components(rt: HostRuntime) -> TeraResult<()> {
    let alloc = rt.alloc();
    let mut engine = Tera::new(alloc)?;
    let before = engine.get_component_names()?;
    engine.add_raw_template("c", BUTTON)?;
    let alone = engine.get_component_names()?;
    let told = engine.get_component_definition("Button")?;
    let none = engine.get_component_definition("No")?;
    engine.add_raw_template("d", NAMES)?;
    let more = engine.get_component_names()?;
    let was_there = engine.contains_component("Button") && engine.contains_component("P");
    engine.add_raw_template("c", "{% component A(@a) %}{% endcomponent %}")?;
    let other = engine.get_component_definition("A")?;
    assert!(rt;
        are_names(before.as_slice(), &[])
            && are_names(alone.as_slice(), &["Button"])
            && are_names(more.as_slice(), &["Button", "P", "S"])
            && tells(&told, "Button", &["label", "variant"])
            && tells(&other, "A", &["a"])
            && none.is_none()
            && was_there
            && engine.contains_component("A")
            && !engine.contains_component("Button")
            && !engine.contains_component("c")
    );
    Ok(())
}

/// Ties between two templates are refused, and the components are those of before.
#[test]
fn components_of_refused_batches(rt: HostRuntime) -> TeraResult<()> {
    let alloc = rt.alloc();
    let foo = "{% component Foo() %}A{% endcomponent %}";
    let (mut engine, none, _) = with_template(alloc, "a", foo)?;
    let tie = "{% component Foo() %}B{% endcomponent %}{% component Bar() %}{% endcomponent %}";
    assert!(rt;
        is_refused(engine.add_raw_template("b", tie), "Message")
            && !engine.contains_component("Bar")
            && shows(&engine, "Foo", &none, &none, "A")
            && adds(&mut engine, "a", "{% component Foo() %}C{% endcomponent %}")
            && shows(&engine, "Foo", &none, &none, "C")
    );
    Ok(())
}
