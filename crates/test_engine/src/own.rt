//! Filters, tests, functions and escapes of a caller, which the tests of objects register.
ghost use Rattle.std.specs.Prelude.{Ok, Err, true, false, not, codes, string_bytes};
ghost use Rattle.tera_errors.specs.Prelude.{Gives, Tells};
ghost use Rattle.tera_values.specs.Prelude.{is_undefined, bool, text, plain};
ghost use Rattle.tera_built_ins.specs.Prelude.{replaced};
ghost use Rattle.tera_state.specs.Prelude.{view_of};
ghost use Rattle.test_engine.specs.Own.{fault_of, shown, trimmed_by, asked, written_text};

use std::alloc::Global;
use std::rc::RcStr;
use tera::{Error, EscapeFn, Filter, Function, Kwargs, State, TeraResult, Test, Value};

/// A filter and a function that answers this text, for any value.
#[derive(Drop)]
pub struct Says {
    pub alloc: Global,
    pub word: &'static str,
    pub is_safe: bool,
}

/// A filter or a function that answers the word.
pub fn word_object(alloc: Global, word: &'static str, is_safe: bool) -> Says {
    Says {
        alloc,
        word,
        is_safe,
    }
}

impl Filter for Says {
    ghost meaning = { λ o v given view. Ok (text o.word.now false) };

    ghost safe = { λ o. o.is_safe };

    fn call(&self, _value: &Value, _kwargs: Kwargs, _state: &State<'_>) -> TeraResult<Value> {
        Value::string(self.alloc, self.word)
    }

    fn is_safe(&self) -> bool {
        self.is_safe
    }
}

impl Function for Says {
    ghost meaning = { λ o given view. Ok (text o.word.now false) };

    ghost safe = { λ o. o.is_safe };

    fn call(&self, _kwargs: Kwargs, _state: &State<'_>) -> TeraResult<Value> {
        Value::string(self.alloc, self.word)
    }

    fn is_safe(&self) -> bool {
        self.is_safe
    }
}

/// An object of each kind that holds a shared text, by whose count a test sees whether it was dropped.
#[derive(Drop)]
pub struct Holds {
    pub held: RcStr,
}

impl Filter for Holds {
    ghost meaning = { λ o v given view. Ok v };

    ghost safe = { λ _. false };

    fn call(&self, value: &Value, _kwargs: Kwargs, _state: &State<'_>) -> TeraResult<Value> {
        value.try_clone()
    }

    fn is_safe(&self) -> bool {
        false
    }
}

impl Test for Holds {
    ghost meaning = { λ o v given view. Ok true };

    fn call(&self, _value: &Value, _kwargs: Kwargs, _state: &State<'_>) -> TeraResult<bool> {
        Ok(true)
    }
}

impl Function for Holds {
    ghost meaning = { λ o given view. Ok (bool true) };

    ghost safe = { λ _. false };

    fn call(&self, _kwargs: Kwargs, _state: &State<'_>) -> TeraResult<Value> {
        Ok(Value::from_bool(true))
    }

    fn is_safe(&self) -> bool {
        false
    }
}

impl EscapeFn for Holds {
    ghost escaped = { λ o input. input };

    fn escape(&self, input: &str, out: &mut String) -> TeraResult<()> {
        out.push_str(input)?;
        Ok(())
    }
}

/// A filter and a function that answer what the name `x` stands for where they are called, or `-`, and a test of whether it stands
/// for something there.
#[derive(Drop)]
pub struct Shows {
    pub alloc: Global,
}

fn value_of_x(alloc: Global, state: &State<'_>) -> TeraResult<Value>
    ensures { Gives (λ v. v) result
        (Ok (shown ((view_of (λ e. escaped e.now) state.now).look (codes "x")))) }
{
    match state.get::<Value>("x") {
        Ok(Some(value)) => Ok(value),
        Ok(None) => Value::string(alloc, "-"),
        Err(error) => Err(error),
    }
}

impl Filter for Shows {
    ghost meaning = { λ o v given view. Ok (shown (view.look (codes "x"))) };

    ghost safe = { λ _. false };

    fn call(&self, _value: &Value, _kwargs: Kwargs, state: &State<'_>) -> TeraResult<Value> {
        value_of_x(self.alloc, state)
    }

    fn is_safe(&self) -> bool {
        false
    }
}

impl Test for Shows {
    ghost meaning = { λ o v given view. Ok (not (is_undefined (view.look (codes "x")))) };

    fn call(&self, _value: &Value, _kwargs: Kwargs, state: &State<'_>) -> TeraResult<bool> {
        match state.get::<Value>("x") {
            Ok(found) => Ok(found.is_some()),
            Err(error) => Err(error),
        }
    }
}

impl Function for Shows {
    ghost meaning = { λ o given view. Ok (shown (view.look (codes "x"))) };

    ghost safe = { λ _. false };

    fn call(&self, _kwargs: Kwargs, state: &State<'_>) -> TeraResult<Value> {
        value_of_x(self.alloc, state)
    }

    fn is_safe(&self) -> bool {
        false
    }
}

/// A function that answers what is written for its argument `text`, and a filter that calls the built-in filter `trim`.
#[derive(Drop)]
pub struct UsesState {
    pub alloc: Global,
}

impl Function for UsesState {
    ghost meaning = { λ o. written_text };

    ghost safe = { λ _. false };

    fn call(&self, kwargs: Kwargs, state: &State<'_>) -> TeraResult<Value> {
        let value = kwargs.must_get::<Value>("text")?;
        let written = state.escape_if_needed(&value)?;
        Value::string(self.alloc, written.as_str())
    }

    fn is_safe(&self) -> bool {
        false
    }
}

impl Filter for UsesState {
    ghost meaning = { λ o v given view. trimmed_by view v };

    ghost safe = { λ _. false };

    fn call(&self, value: &Value, _kwargs: Kwargs, state: &State<'_>) -> TeraResult<Value> {
        state.call_filter("trim", value, Kwargs::new(self.alloc))
    }

    fn is_safe(&self) -> bool {
        false
    }
}

/// With what an object refuses.
#[derive(Drop)]
pub enum RefusalKind {
    InvalidArgument,
    MissingArgument,
    Message,
    TemplateNotFound,
    OutOfMemory,
}

/// A filter, a test and a function that refuse.
#[derive(Drop)]
pub struct Refuses {
    pub alloc: Global,
    pub with: RefusalKind,
}

impl Refuses {
    fn error(&self) -> Error
        ensures { Tells result (fault_of self.now.with) }
    {
        match &self.with {
            RefusalKind::InvalidArgument => Error::invalid_argument(),
            RefusalKind::MissingArgument => Error::missing_argument(),
            RefusalKind::Message => Error::message(self.alloc, "no"),
            RefusalKind::TemplateNotFound => Error::template_not_found(),
            RefusalKind::OutOfMemory => Error::out_of_memory(),
        }
    }
}

impl Filter for Refuses {
    ghost meaning = { λ o v given view. Err (fault_of o.with) };

    ghost safe = { λ _. false };

    fn call(&self, _value: &Value, _kwargs: Kwargs, _state: &State<'_>) -> TeraResult<Value> {
        Err(self.error())
    }

    fn is_safe(&self) -> bool {
        false
    }
}

impl Test for Refuses {
    ghost meaning = { λ o v given view. Err (fault_of o.with) };

    fn call(&self, _value: &Value, _kwargs: Kwargs, _state: &State<'_>) -> TeraResult<bool> {
        Err(self.error())
    }
}

impl Function for Refuses {
    ghost meaning = { λ o given view. Err (fault_of o.with) };

    ghost safe = { λ _. false };

    fn call(&self, _kwargs: Kwargs, _state: &State<'_>) -> TeraResult<Value> {
        Err(self.error())
    }

    fn is_safe(&self) -> bool {
        false
    }
}

/// An escape that says that memory was refused.
#[derive(Drop)]
pub struct LacksMemory;

impl EscapeFn for LacksMemory {
    ghost escaped = { λ o input. input };

    fn escape(&self, _input: &str, _out: &mut String) -> TeraResult<()> {
        Err(Error::out_of_memory())
    }
}

/// A test that always holds.
#[derive(Drop)]
pub struct Holding;

impl Test for Holding {
    ghost meaning = { λ o v given view. Ok true };

    fn call(&self, _value: &Value, _kwargs: Kwargs, _state: &State<'_>) -> TeraResult<bool> {
        Ok(true)
    }
}

/// An escape that puts `?` for each `a`.
#[derive(Drop)]
pub struct Asks {
    pub alloc: Global,
}

impl EscapeFn for Asks {
    ghost escaped = { λ o. asked };

    fn escape(&self, input: &str, out: &mut String) -> TeraResult<()> {
        let text = replace(self.alloc, input, "a", "?")?;
        out.push_str(text.as_str())?;
        Ok(())
    }
}

/// The text with another one at all positions of a pattern.
fn replace(alloc: Global, text: &str, from: &str, to: &str) -> TeraResult<String>
    ensures { Gives string_bytes result (Ok (replaced plain.code from.now to.now text.now)) }
{
    Ok(text.replace(alloc, from, to)?)
}
