// States, and what names of built-ins stand for.
use super::{is_integer, is_true};
use std::alloc::Global;
use tera::{
    CallerObjects, Context, Kwargs, State, StoredFilter, StoredFunction, StoredTest, StringInput,
    TeraResult, Value, escape_html,
};

/// What a state over this context tells, in which `name` is `<`.
fn tells(alloc: Global, context: &Context) -> TeraResult<bool> {
    let state: State<'_> = State::new(context);
    let name: Option<StringInput> = state.get("name")?;
    let Some(name) = name else {
        return Ok(false);
    };
    let value = Value::string(state.alloc(), "<")?;
    Ok(
        state.autoescaping_enabled()
            && state.escape("<")?.as_str() == "&lt;"
            && state.escape_if_needed(&value)?.as_str() == "&lt;"
            && name.render(&state)?.as_str() == "&lt;"
            && state
                .call_filter("length", &value, Kwargs::new(alloc))
                .is_err(),
    )
}

fn is_told(alloc: Global) -> TeraResult<bool> {
    let mut context = Context::new(alloc);
    context.insert("name", Value::string(alloc, "<")?)?;
    let names = context.names()?;
    let mut text = String::new(alloc);
    escape_html("'", &mut text)?;
    Ok(
        names.len() == 1
            && context.get("name").is_some()
            && text.as_str() == "&#x27;"
            && tells(alloc, &context)?,
    )
}

#[test]
fn states_tell_of_a_context(rt: HostRuntime) {
    assert!(rt; is_true(is_told(rt.alloc())));
}

/// Whether what names stand for where nothing was registered is called, and marks its own texts.
fn are_called(alloc: Global, objects: &CallerObjects) -> TeraResult<bool> {
    let context = Context::new(alloc);
    let state: State<'_> = State::new(&context);
    let filter: Option<StoredFilter<'_>> = objects.filter("abs");
    let function: Option<StoredFunction<'_>> = objects.function("range");
    let test: Option<StoredTest<'_>> = objects.test("odd");
    match (filter, function, test) {
        (Some(filter), Some(function), Some(test)) => Ok(
            !filter.is_safe()
                && !function.is_safe()
                && is_true(test.call(&Value::from_int(7), Kwargs::new(alloc), &state))
                && is_integer(
                    filter.call(&Value::from_int(-7), Kwargs::new(alloc), &state),
                    7,
                )
                && function.call(Kwargs::new(alloc), &state).is_err(),
        ),
        _ => Ok(false),
    }
}

#[test]
fn built_ins_are_stored(rt: HostRuntime) {
    assert!(rt; is_true(are_called(rt.alloc(), &CallerObjects::new(rt.alloc()))));
}
