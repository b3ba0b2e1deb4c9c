// Contexts in which components run.
use crate::sample::Sample::{Int, Safe, Text, Undefined};
use crate::sample::{Sample, is_value, map, refusal, value};
use std::alloc::Global;
use tera_components::{ComponentDefinition, ComponentInfo};
use tera_state::{Implicits, Scopes, State};
use tera_syntax_tree::{ArgumentType, Literal, Parameter, Quoted, Signature};
use tera_values::{Context, Error, Key, Map, TeraResult, Value};

fn parameter<'s>(
    name: &'s str,
    is_implicit: bool,
    of_type: Option<ArgumentType>,
    default: Option<Literal<'s>>,
) -> Parameter<'s> {
    Parameter {
        name,
        is_implicit,
        of_type,
        default,
    }
}

/// `show(@name, @lang = "fr", size: Number = 2)`, with `...rest` behind them where that is wanted.
fn show(alloc: Global, rest: Option<&str>) -> TeraResult<ComponentDefinition> {
    let french = Literal::Text(Quoted::Lent("fr"));
    let mut parameters = Vec::new(alloc);
    parameters.push(parameter("name", true, None, None))?;
    parameters.push(parameter("lang", true, None, Some(french)))?;
    let number = Some(ArgumentType::Number);
    parameters.push(parameter("size", false, number, Some(Literal::Int(2))))?;
    let signature = Signature {
        name: "show",
        parameters,
        rest,
    };
    ComponentDefinition::new(alloc, &signature)
}

fn context_of(alloc: Global, pairs: &[(&str, Sample)]) -> TeraResult<Context> {
    let mut all = Context::new(alloc);
    for (name, sample) in pairs {
        match value(alloc, *sample) {
            Some(value) => all.insert(*name, value)?,
            None => return Err(Error::out_of_memory()),
        }
    }
    Ok(all)
}

fn by_name(
    alloc: Global,
    rest: Option<&str>,
    given: &[(&str, Sample)],
    implicits: &[(&str, Sample)],
) -> TeraResult<Value> {
    let given = context_of(alloc, given)?;
    let implicits = context_of(alloc, implicits)?;
    let caller = Scopes::new(alloc, &implicits, None);
    let arguments = show(alloc, rest)?.bind_by_name(alloc, &given, &caller, None)?;
    arguments.to_context()?.to_value()
}

fn with_body(alloc: Global, given: &Map, body: Value) -> TeraResult<Value> {
    let implicits = context_of(alloc, &[("name", Text("Vincent"))])?;
    let context = show(alloc, None)?.build_context(alloc, given, &implicits, Some(body))?;
    context.to_value()
}

fn without_arguments<C: Implicits>(alloc: Global, caller: &C) -> TeraResult<Value> {
    let given = Map::new(alloc);
    let context = show(alloc, None)?.build_context(alloc, &given, caller, None)?;
    context.to_value()
}

/// Whether the call answered this value, or refused in this way.
fn answers(alloc: Global, answer: TeraResult<Value>, want: &str) -> bool {
    match answer {
        Ok(value) => is_value(alloc, &value, want),
        Err(error) => refusal(&error) == want,
    }
}

fn answers_with_body(alloc: Global, pairs: &[(&str, i128)], want: &str) -> bool {
    match map(alloc, pairs) {
        Some(given) => match value(alloc, Safe("<b>")) {
            Some(body) => answers(alloc, with_body(alloc, &given, body), want),
            None => false,
        },
        None => false,
    }
}

#[test]
fn arguments_are_bound(rt: HostRuntime) {
    let alloc = rt.alloc();
    let vincent = [("name", Text("Vincent")), ("size", Int(7))];
    let rest = Some("rest");
    let mut right = true;
    for (given, want) in [
        (
            [("class", Text("btn")), ("size", Int(3))],
            "map {\"lang\": \"fr\", \"name\": \"Vincent\", \"rest\": {\"class\": \"btn\"}, \"size\": 3}",
        ),
        (
            [("lang", Undefined), ("name", Text("Jane"))],
            "map {\"lang\": undefined, \"name\": \"Jane\", \"rest\": {}, \"size\": 2}",
        ),
        ([("lang", Int(1)), ("size", Text("big"))], "message"),
    ] {
        right = right && answers(alloc, by_name(alloc, rest, &given, &vincent), want);
    }
    assert!(rt; right);
}

#[test]
fn arguments_are_refused(rt: HostRuntime) {
    let alloc = rt.alloc();
    let missing = by_name(alloc, None, &[("lang", Int(1))], &[("name", Undefined)]);
    let unknown = by_name(alloc, None, &[("bad", Int(1))], &[("name", Int(1))]);
    assert!(rt; answers(alloc, missing, "message") && answers(alloc, unknown, "message"));
}

#[test]
fn bodies_are_bound(rt: HostRuntime) {
    let alloc = rt.alloc();
    let bound = "map {\"body\": \"<b>\", \"lang\": 4, \"name\": \"Vincent\", \"size\": 2}";
    assert!(rt; answers_with_body(alloc, &[("lang", 4)], bound));
    assert!(rt; answers_with_body(alloc, &[("lung", 4)], "message"));
}

/// The names of 100 parameters, in falling order.
fn falling_names(alloc: Global) -> TeraResult<Vec<String>> {
    let mut names = Vec::new(alloc);
    for number in 0..100_u32 {
        names.push(format!(in alloc; "p{}", 999 - number)?)?;
    }
    Ok(names)
}

/// What a call of a component with these parameters binds, of which one is given.
fn bound_context(alloc: Global, names: &[String]) -> TeraResult<Context> {
    let mut parameters = Vec::new(alloc);
    for name in names {
        parameters.push(parameter(name.as_str(), false, None, Some(Literal::Int(2))))?;
    }
    let signature = Signature {
        name: "many",
        parameters,
        rest: Some("all"),
    };
    let definition = ComponentDefinition::new(alloc, &signature)?;
    let mut given = Map::new(alloc);
    let key = Key::Text(String::from_str(alloc, "p950")?);
    given.insert(key, Value::from_int(7))?;
    definition.build_context(
        alloc,
        &given,
        &Context::new(alloc),
        Some(Value::from_int(1)),
    )
}

fn is_bound(context: &Context, name: &str, number: i128) -> bool {
    match context.get(name) {
        Some(value) => value.as_i128() == Some(number),
        None => false,
    }
}

fn many_are_bound(alloc: Global) -> TeraResult<bool> {
    let context = bound_context(alloc, falling_names(alloc)?.as_slice())?;
    Ok(
        context.names()?.len() == 102
            && is_bound(&context, "body", 1)
            && is_bound(&context, "p900", 2)
            && is_bound(&context, "p950", 7)
            && is_bound(&context, "p999", 2),
    )
}

#[test]
fn many_parameters_are_bound(rt: HostRuntime) {
    assert!(rt; matches!(many_are_bound(rt.alloc()), Ok(true)));
}

fn looks_up(alloc: Global, implicits: &Context, global: &Context) -> bool {
    let state: State<'_> = State::new(implicits);
    let alone = "map {\"lang\": \"fr\", \"name\": \"Vincent\", \"size\": 2}";
    let both = "map {\"lang\": \"en\", \"name\": \"Vincent\", \"size\": 2}";
    answers(alloc, without_arguments(alloc, implicits), alone)
        && answers(alloc, without_arguments(alloc, &state), alone)
        && answers(alloc, without_arguments(alloc, &(implicits, global)), both)
        && answers(alloc, without_arguments(alloc, global), "message")
}

#[test]
fn implicits_are_looked_up_in_contexts_and_states(rt: HostRuntime) {
    let alloc = rt.alloc();
    let implicits = context_of(alloc, &[("name", Text("Vincent"))]);
    let global = context_of(alloc, &[("lang", Text("en")), ("name", Undefined)]);
    match (implicits, global) {
        (Ok(implicits), Ok(global)) => assert!(rt; looks_up(alloc, &implicits, &global)),
        _ => assert!(rt; false),
    }
}

fn is_told(alloc: Global) -> TeraResult<bool> {
    let info = ComponentInfo::new(alloc, &show(alloc, Some("rest"))?)?;
    let mut names = String::from_str(alloc, info.name())?;
    for argument in info.args() {
        names.push_str(" ")?;
        names.push_str(argument.name())?;
    }
    Ok(names.as_str() == "show name lang size")
}

#[test]
fn components_are_told(rt: HostRuntime) {
    assert!(rt; matches!(is_told(rt.alloc()), Ok(true)));
}
