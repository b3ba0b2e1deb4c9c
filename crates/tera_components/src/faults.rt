// Why a component is refused its arguments, in words.
ghost use Rattle.tera_errors.specs.Prelude.{Tells, message};

use crate::argument::ComponentArg;
use std::alloc::{AllocError, Global};
use tera_errors::{Guess, alloc_result};
use tera_operators::Entries;
use tera_syntax_tree::ArgumentType;
use tera_values::{Error, Key, Map};

/// A parameter has no value. It tells of an argument that is given and whose name is near.
#[inline(never)]
pub(crate) fn missing_argument(
    alloc: Global,
    component: &str,
    parameter: &str,
    given: &Entries<'_>,
) -> Error
    ensures { Tells result message }
{
    Error::message_from(missing_in_words(alloc, component, parameter, given))
}

fn missing_in_words(
    alloc: Global,
    component: &str,
    parameter: &str,
    given: &Entries<'_>,
) -> Result<String, AllocError> {
    let mut guess = Guess::new(alloc, parameter);
    match given.as_map() {
        Some(given) => add_names(given, &mut guess)?,
        None => {
            let given = alloc_result(given.to_map(alloc))?;
            add_names(&given, &mut guess)?;
        }
    }
    match guess.name() {
        Some(given) => format!(in alloc;
            "component `{component}` needs the argument `{parameter}`, and `{given}` is given"
        ),
        None => format!(in alloc; "component `{component}` needs the argument `{parameter}`"),
    }
}

// Tries the names of arguments.
fn add_names(given: &Map, guess: &mut Guess<'_>) -> Result<(), AllocError> {
    for position in 0..given.len() {
        if let Some((Key::Text(name), _)) = given.entry_at(position) {
            guess.add(name.as_str())?;
        }
    }
    Ok(())
}

/// A parameter's value is of another type.
#[inline(never)]
pub(crate) fn unfit_argument(
    alloc: Global,
    component: &str,
    parameter: &str,
    wanted: ArgumentType,
    given: &str,
) -> Error
    ensures { Tells result message }
{
    let wanted = type_name(wanted);
    Error::message_from(format!(in alloc;
        "component `{component}`: the argument `{parameter}` is {given}, and {wanted} is wanted"
    ))
}

/// No parameter takes an argument of this name. It tells of one whose name is near.
#[inline(never)]
pub(crate) fn unknown_argument(
    alloc: Global,
    component: &str,
    argument: &Key,
    parameters: &[ComponentArg],
) -> Error
    ensures { Tells result message }
{
    Error::message_from(unknown_in_words(alloc, component, argument, parameters))
}

fn unknown_in_words(
    alloc: Global,
    component: &str,
    argument: &Key,
    parameters: &[ComponentArg],
) -> Result<String, AllocError> {
    let name = match argument {
        Key::Text(name) => name.as_str(),
        _ => "",
    };
    let mut guess = Guess::new(alloc, name);
    for parameter in parameters {
        guess.add(parameter.name())?;
    }
    match guess.name() {
        Some(near) => format!(in alloc;
            "component `{component}` has no parameter `{name}` (is `{near}` meant?)"
        ),
        None => format!(in alloc;
            "component `{component}` has no parameter `{name}`, and is given an argument for it"
        ),
    }
}

fn type_name(of_type: ArgumentType) -> &'static str {
    match of_type {
        ArgumentType::String => "a string",
        ArgumentType::Bool => "a bool",
        ArgumentType::Integer => "an integer",
        ArgumentType::Number => "a number",
        ArgumentType::Array => "an array",
        ArgumentType::Map => "a map",
    }
}
