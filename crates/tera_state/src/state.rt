// What an object of the caller is lent of a rendering.
ghost use Rattle.std.specs.Prelude.{◌≡◌, [], true, Some, None, Ok, option_map, string_bytes, bytes_eq, unwrap_or, IsTrue, IsOk};
ghost use Rattle.std.specs.List.{list_any};
ghost use Rattle.tera_errors.specs.Prelude.{Gives, Tells, message};
ghost use Rattle.tera_values.specs.Prelude.{undefined, is_undefined, plain, escape_html};
ghost use Rattle.tera_built_ins.specs.Prelude.{escape_or_html, escaping_of, filter_in};
ghost use Rattle.tera_state.specs.FoundValue.{found_value};
ghost use Rattle.tera_state.specs.View.{filters_left};

use crate::found_value::FoundValue;
use crate::scopes::Scopes;
use crate::writing::write_value;
use std::alloc::Global;
use tera_built_ins::{BuiltInFilter, EscapeFn, Escaping};
use tera_values::{
    ArgFromValue, Context, Error, Kwargs, Name, NameRef, TeraResult, Value, WritesValues,
};

/// Where names are looked up: in a context alone, or in the scopes of a rendering.
#[derive(Drop)]
enum StateSource<'a, 'c> {
    Context(&'a Context),
    Scopes(&'a Scopes<'c>),
}

impl<'a, 'c> StateSource<'a, 'c> {
    ghost use Rattle.tera_state.specs.View.{look_in_source};

    fn look(&self, name: &str) -> FoundValue<'_>
        ensures { unwrap_or (found_value result) undefined ≡ look_in_source self.now name.now }
    {
        match self {
            StateSource::Context(context) => match context.get(name) {
                Some(value) => FoundValue::Kept(value),
                None => FoundValue::Unbound,
            },
            StateSource::Scopes(scopes) => scopes.look(&NameRef::new(name)),
        }
    }
}

// The built-in filter of this name, unless the name is taken.
fn filter_left(taken: &[Name], name: &str) -> Option<BuiltInFilter>
    ensures { result ≡ filters_left (Some taken.now) name.now }
{
    if is_among(taken, name) {
        return None;
    }
    BuiltInFilter::by_name(name)
}

fn is_among(names: &[Name], name: &str) -> bool
    ensures { result ≡ list_any (bytes_eq name.now) names.now }
{
    names.iter().any(|other| name == other.as_str())
}

/// What an object of the caller sees: the variables, whether text is escaped, the escape, and the built-in filters. It is lent
/// the scopes, and they are lent their contexts. Where it has no escape, that is `escape_html`. Where it is lent no list of names
/// that are taken, not even an empty one, there are no filters.
#[derive(Drop)]
pub struct StateOver<'a, 'c, E> {
    alloc: Global,
    source: StateSource<'a, 'c>,
    autoescape: bool,
    escape: Option<E>,
    taken: Option<&'a [Name]>,
}

/// What a method of an object is lent: all that lives as long as it is lent.
pub type State<'a> = StateOver<'a, 'a, &'a dyn EscapeFn>;

impl<'a, 'c, E: EscapeFn> StateOver<'a, 'c, E> {
    ghost use Rattle.tera_state.specs.Scope.{outside, nothing_set};
    ghost use Rattle.tera_state.specs.View.{view_of, view_at, read_defined, escaped_if_needed, escaping_in};

    /// A state over a context alone: text is escaped, by `escape_html`, and there are no filters. Takes no memory.
    pub fn new(context: &'a Context) -> StateOver<'a, 'c, E>
        ensures { view_of E.escaped result
            ≡ view_at (outside context.now []) nothing_set true escape_html (filters_left None) }
    {
        StateOver {
            alloc: context.alloc(),
            source: StateSource::Context(context),
            autoescape: true,
            escape: None,
            taken: None,
        }
    }

    /// The allocator of the rendering.
    pub fn alloc(&self) -> Global
        ensures { result ≡ self.now.alloc }
    {
        self.alloc
    }

    /// The value that the name stands for, read as `T`; none where it is undefined, which takes no memory.
    pub fn get<T: ArgFromValue>(&self, name: &str) -> TeraResult<Option<T>>
        ensures read { Gives (λ o. option_map T.stands_for o) result
            (read_defined T.reading ((view_of E.escaped self.now).look name.now)) }
        ensures undefined { IsTrue (is_undefined ((view_of E.escaped self.now).look name.now))
            → IsOk result }
    {
        let found = self.look(name);
        if found.is_undefined() {
            return Ok(None);
        }
        match &found {
            FoundValue::Kept(value) => Ok(Some(T::from_value(self.alloc, value)?)),
            _ => Ok(Some(T::from_value(self.alloc, &found.to_value(self.alloc)?)?)),
        }
    }

    /// Whether text is escaped where it is written.
    pub fn autoescaping_enabled(&self) -> bool
        ensures { result ≡ (view_of E.escaped self.now).autoescape }
    {
        self.autoescape
    }

    /// The escape of a text, whether or not texts are escaped here.
    pub fn escape(&self, text: &str) -> TeraResult<String>
        ensures { Gives string_bytes result (Ok ((view_of E.escaped self.now).escape text.now)) }
    {
        let mut out = String::new(self.alloc);
        self.escape.escape(text, &mut out)?;
        Ok(out)
    }

    /// What is written for a value: its printed text, escaped where text is escaped and the value is not safe. An undefined
    /// value is refused.
    pub fn escape_if_needed(&self, value: &Value) -> TeraResult<String>
        ensures { Gives string_bytes result
            (escaped_if_needed (view_of E.escaped self.now) value.now) }
    {
        if value.is_undefined() {
            return Err(Error::message(self.alloc, "an undefined value can't be written"));
        }
        let mut out = String::new(self.alloc);
        write_value(self.alloc, self.escaping(), value, &mut out)?;
        Ok(out)
    }

    /// What the built-in filter that the name stands for makes of the value, with its own faults; a `Message` where it stands for
    /// none.
    pub fn call_filter(&self, name: &str, value: &Value, kwargs: Kwargs) -> TeraResult<Value>
        ensures { let view = view_of E.escaped self.now in
            Gives (λ v. v) result
            (filter_in plain (escaping_in view) (view.filters name.now) value.now kwargs) }
    {
        match self.filter(name) {
            Some(filter) => match filter.call(
                self.alloc,
                value,
                &kwargs.as_arguments(),
                self.escaping(),
            ) {
                Ok(answer) => Ok(answer),
                Err(error) => Err(error.of_callee(self.alloc, "filter", name)),
            },
            None => Err(no_filter(self.alloc, name)),
        }
    }

    // What the name stands for.
    pub(crate) fn look(&self, name: &str) -> FoundValue<'_>
        ensures { unwrap_or (found_value result) undefined
            ≡ (view_of E.escaped self.now).look name.now }
    {
        self.source.look(name)
    }

    /// What a built-in sees of it.
    pub fn escaping(&self) -> Escaping<'_, Option<E>>
        ensures { escaping_of (escape_or_html E.escaped) result
            ≡ escaping_in (view_of E.escaped self.now) }
    {
        Escaping {
            autoescape: self.autoescape,
            escape: &self.escape,
        }
    }

    // The built-in filter that the name stands for.
    fn filter(&self, name: &str) -> Option<BuiltInFilter>
        ensures { result ≡ (view_of E.escaped self.now).filters name.now }
    {
        match self.taken {
            Some(taken) => filter_left(taken, name),
            None => None,
        }
    }
}

impl<'a, 'c, E: EscapeFn> WritesValues for StateOver<'a, 'c, E> {
    ghost use Rattle.tera_state.specs.View.{view_of, written as written_in};

    ghost written = { λ s v. written_in (view_of E.escaped s) v };

    fn escape_if_needed(&self, value: &Value) -> TeraResult<String> {
        StateOver::escape_if_needed(self, value)
    }
}

impl<'c> Scopes<'c> {
    ghost use Rattle.tera_state.specs.Scopes.{around_of, variables_of};
    ghost use Rattle.tera_state.specs.View.{view_of, view_at, lent_names};

    /// The state of the rendering, as it is lent to an object: with this escape, or `escape_html`, and with the built-in filters
    /// but those whose names are taken, or none. Takes no memory.
    pub fn state<'a, E: EscapeFn>(
        &'a self,
        autoescape: bool,
        escape: Option<E>,
        taken: Option<&'a [Name]>,
    ) -> StateOver<'a, 'c, E>
        ensures { view_of E.escaped result ≡ view_at (around_of self.now) (variables_of self.now)
            autoescape (escape_or_html E.escaped escape) (filters_left (lent_names taken.entry)) }
    {
        StateOver {
            alloc: self.alloc,
            source: StateSource::Scopes(self),
            autoescape,
            escape,
            taken,
        }
    }
}

// What the name stands for is no filter that is built in.
#[inline(never)]
fn no_filter(alloc: Global, name: &str) -> Error
    ensures { Tells result message }
{
    Error::message_from(format!(in alloc; "there is no built-in filter `{name}`"))
}
