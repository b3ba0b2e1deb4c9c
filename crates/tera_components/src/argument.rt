// Parameters of components, and the values that they take.
ghost use Rattle.std.specs.Prelude.{◌≡◌, Ok, option_copied};
ghost use Rattle.tera_errors.specs.Prelude.{Gives};
ghost use Rattle.tera_syntax_tree.specs.Prelude.{parameter_of};
ghost use Rattle.tera_values.specs.Prelude.{at_name};
ghost use Rattle.tera_components.specs.Context.{is_of_type, looked_up};
ghost use Rattle.tera_components.specs.Definition.{formal_of, named_arguments, offered, formal_value, or_message};

use crate::faults;
use crate::literals::value_from;
use std::alloc::Global;
use std::marker::Model;
use tera_operators::Entries;
use tera_state::Implicits;
use tera_syntax_tree::{ArgumentType, Parameter};
use tera_values::{Name, Shape, TeraResult, Value};

/// A parameter of a component. Its default is kept as a value, so that a copy of that is a count.
#[derive(Drop)]
pub struct ComponentArg {
    name: Name,
    is_implicit: bool,
    of_type: Option<ArgumentType>,
    default: Option<Value>,
}

impl Model for ComponentArg {
    ghost use Rattle.tera_components.specs.Definition.{Formal, formal_coding};

    ghost Value = { Formal };

    ghost coded = { formal_coding };

    ghost view = { λ a. record {
      name = a.name;
      is_implicit = a.is_implicit;
      of_type = a.of_type;
      default = a.default;
    } };
}

fn is_of_type(value: &Value, of_type: ArgumentType) -> bool
    ensures { result ≡ is_of_type of_type value.now }
{
    match value.shape() {
        Shape::Text(..) => matches!(of_type, ArgumentType::String),
        Shape::Bool(_) => matches!(of_type, ArgumentType::Bool),
        Shape::Int(_) => matches!(of_type, ArgumentType::Integer | ArgumentType::Number),
        Shape::Array(_) => matches!(of_type, ArgumentType::Array),
        Shape::Map(_) => matches!(of_type, ArgumentType::Map),
        Shape::Undefined | Shape::None | Shape::Bytes(_) => false,
    }
}

impl ComponentArg {
    pub(crate) fn new(alloc: Global, parameter: &Parameter<'_>) -> TeraResult<ComponentArg>
        ensures { Gives (λ a. a) result (Ok (formal_of (parameter_of parameter.now))) }
    {
        let default = match &parameter.default {
            Some(literal) => Some(value_from(alloc, literal)?.into_shared(alloc)?),
            None => None,
        };
        Ok(ComponentArg {
            name: Name::new(alloc, parameter.name)?,
            is_implicit: parameter.is_implicit,
            of_type: parameter.of_type,
            default,
        })
    }

    /// The parameter's name.
    pub fn name(&self) -> &str
        ensures { result.now ≡ self.now.name }
    {
        self.name.as_str()
    }

    /// The parameter's name once more, which shares its text.
    pub(crate) fn shared_name(&self) -> TeraResult<Name>
        ensures { Gives (λ n. n) result (Ok self.now.name) }
    {
        self.name.share()
    }

    /// The same parameter.
    pub fn try_clone(&self) -> TeraResult<ComponentArg>
        ensures { Gives (λ a. a) result (Ok self.now) }
    {
        let default = match &self.default {
            Some(value) => Some(value.try_clone()?),
            None => None,
        };
        Ok(ComponentArg {
            name: self.name.share()?,
            is_implicit: self.is_implicit,
            of_type: self.of_type,
            default,
        })
    }

    // What an implicit parameter finds in the caller.
    #[inline(always)]
    fn look_up<C: Implicits>(&self, alloc: Global, caller: &C) -> TeraResult<Option<Value>>
        ensures { Gives (λ o. o) result
            (Ok (looked_up (C.implicit caller.now) self.now.is_implicit self.now.name)) }
    {
        if !self.is_implicit {
            return Ok(None);
        }
        let found = caller.look_implicit(&self.name.as_name_ref());
        if found.is_undefined() {
            return Ok(None);
        }
        Ok(Some(found.to_value(alloc)?))
    }

    // What is given, undefined too; else what is looked up; else the default.
    #[inline(always)]
    fn offer<C: Implicits>(
        &self,
        alloc: Global,
        given: &Entries<'_>,
        caller: &C,
    ) -> TeraResult<Option<Value>>
        ensures { Gives (λ o. o) result
            (Ok (offered (C.implicit caller.now) (named_arguments given.now) self.now)) }
    {
        if let Some(value) = argument_at(given, self.name.as_str()) {
            return Ok(Some(value.try_clone()?));
        }
        if let Some(value) = self.look_up(alloc, caller)? {
            return Ok(Some(value));
        }
        match &self.default {
            Some(value) => Ok(Some(value.try_clone()?)),
            None => Ok(None),
        }
    }

    /// The value that the parameter takes in a call of this component; a `Message` where there is none, or one of another type.
    #[inline(always)]
    pub(crate) fn value<C: Implicits>(
        &self,
        alloc: Global,
        component: &str,
        given: &Entries<'_>,
        caller: &C,
    ) -> TeraResult<Value>
        ensures { Gives (λ v. v) result (or_message
            (formal_value (C.implicit caller.now) (named_arguments given.now) self.now)) }
    {
        let value = match self.offer(alloc, given, caller)? {
            Some(value) => value,
            None => return Err(faults::missing_argument(
                alloc,
                component,
                self.name.as_str(),
                given,
            )),
        };
        match self.of_type {
            Some(of_type) if !is_of_type(&value, of_type) => {
                let name = self.name.as_str();
                Err(faults::unfit_argument(alloc, component, name, of_type, value.in_words()))
            }
            _ => Ok(value),
        }
    }
}

// The argument of this name.
#[tactic(auto, using(crate::proofs::Arguments::find_ktext))]
fn argument_at<'a>(given: &'a Entries<'_>, name: &str) -> Option<&'a Value>
    ensures { option_copied result ≡ at_name name.now (named_arguments given.entry.now) }
{
    given.get_text(name)
}
