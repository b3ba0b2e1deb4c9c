// A component of a text, and the context of its body.
use super::is_true;
use std::alloc::Global;
use tera::{
    ComponentArg, ComponentDefinition, ComponentInfo, Context, Delimiters, Key, Map, TeraResult,
    Value, parse,
};

fn is_number(found: Option<&Value>, wanted: i128) -> bool {
    match found {
        Some(value) => value.as_i128() == Some(wanted),
        None => false,
    }
}

/// Whether the component is called with `n = 1`, and has `m = 2` by itself.
fn is_bound(alloc: Global, definition: &ComponentDefinition) -> TeraResult<bool> {
    let mut given = Map::new(alloc);
    given.insert(Key::Text(String::from_str(alloc, "n")?), Value::from_int(1))?;
    let context = definition.build_context(alloc, &given, &Context::new(alloc), None)?;
    Ok(is_number(context.get("n"), 1) && is_number(context.get("m"), 2))
}

fn is_told(alloc: Global, definition: &ComponentDefinition) -> TeraResult<bool> {
    let info = ComponentInfo::new(alloc, definition)?;
    let args: &[ComponentArg] = info.args();
    Ok(info.name() == "C" && args.len() == 2)
}

fn is_defined(alloc: Global) -> TeraResult<bool> {
    let delimiters = Delimiters::standard(alloc)?;
    let text = "{% component C(n, m=2) %}x{% endcomponent %}";
    let output = parse(alloc, "t", text, &delimiters)?;
    let Some(component) = output.component_definitions.as_slice().first() else {
        return Ok(false);
    };
    let definition = ComponentDefinition::new(alloc, &component.signature)?;
    Ok(
        output.nodes.is_empty()
            && component.body.len() == 1
            && is_bound(alloc, &definition)?
            && is_told(alloc, &definition)?,
    )
}

#[test]
fn components_are_read_and_bound(rt: HostRuntime) {
    assert!(rt; is_true(is_defined(rt.alloc())));
}
