// A text with its mark, as an argument.
ghost use Rattle.std.specs.Prelude.{◌≡◌, Ok, Some, IsTrue, string_bytes};
ghost use Rattle.tera_errors.specs.Prelude.{Gives, Text};
ghost use Rattle.tera_value_types.specs.Prelude.{Val, text};
ghost use Rattle.tera_value_types.specs.Access.{is_safe, text_of};
ghost use Rattle.tera_values.specs.Arguments.{as_marked_text, is_text, unless_undefined};

use crate::argument::ArgFromValue;
use std::alloc::Global;
use std::marker::Model;
use tera_errors::{Error, TeraResult};
use tera_value_types::{Shape, Value};

/// What values are written at: the state of a rendering.
pub trait WritesValues {
    // What is written for a value that is defined.
    ghost written: { Self → Val → Text };

    /// What is written for a value; an undefined one is refused.
    fn escape_if_needed(&self, value: &Value) -> TeraResult<String>
        ensures { Gives string_bytes result (unless_undefined (written self.now) value.now) };
}

/// A text with its mark, as an argument or the value of a name.
#[derive(Drop)]
pub struct StringInput {
    value: Value,
}

impl Model for StringInput {
    ghost use Rattle.std.specs.Prelude.{IsTrue};
    ghost use Rattle.tera_value_types.specs.Val.{Val};
    ghost use Rattle.tera_value_types.specs.Coding.{val_coding};
    ghost use Rattle.tera_values.specs.Arguments.{is_text};

    ghost Value = { Val };

    ghost coded = { val_coding };

    ghost view = { λ s. s.value };

    ghost invariant = { λ s. IsTrue (is_text s.value) };
}

impl StringInput {
    fn new(value: Value) -> StringInput
        requires { IsTrue (is_text value) }
        ensures { result ≡ value }
    {
        StringInput { value }
    }

    /// The text without its mark.
    pub fn as_str(&self) -> &str
        ensures { Some result.now ≡ text_of self.now }
    {
        self.value.as_str().unwrap()
    }

    /// Whether the text is marked safe.
    pub fn is_safe(&self) -> bool
        ensures { result ≡ is_safe self.now }
    {
        self.value.is_safe()
    }

    /// The text as a value, with its mark.
    pub fn into_value(self) -> Value
        ensures { result ≡ self }
    {
        let StringInput { value } = self;
        value
    }

    /// Another text with this one's mark.
    pub fn inherit_safety(&self, alloc: Global, content: &str) -> TeraResult<Value>
        ensures { Gives (λ v. v) result (Ok (text content.now (is_safe self.now))) }
    {
        if self.value.is_safe() {
            Value::safe_string(alloc, content)
        } else {
            Value::string(alloc, content)
        }
    }

    /// What is written for the text where the state stands: its escape where text is escaped and this is not safe.
    pub fn render<S: WritesValues>(&self, state: &S) -> TeraResult<String>
        ensures { Gives string_bytes result (Ok (S.written state.now self.now)) }
    {
        state.escape_if_needed(&self.value)
    }
}

impl ArgFromValue for StringInput {
    ghost stands_for = { λ input. input };

    ghost reading = { as_marked_text };

    fn from_value(_alloc: Global, value: &Value) -> TeraResult<StringInput> {
        match value.shape() {
            Shape::Text(_, _) => Ok(StringInput::new(value.try_clone()?)),
            _ => Err(Error::invalid_argument()),
        }
    }
}
