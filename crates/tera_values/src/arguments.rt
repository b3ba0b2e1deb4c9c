// Arguments by name that lie elsewhere.
ghost use Rattle.std.specs.Prelude.{◌≡◌, ◌∷◌, [], Some, IfSome, IsErr, option_copied, option_map};
ghost use Rattle.tera_errors.specs.Prelude.{Gives, MemorySuffices, missing_argument};
ghost use Rattle.tera_values.specs.Named.{at_name, name_cmp, position, IsAscending};
ghost use Rattle.tera_values.specs.Arguments.{read, read_needed};

use crate::argument::ArgFromValue;
use crate::name::{Name, NameRef};
use crate::refusals::argument_error;
use std::alloc::{AllocError, Global};
use std::cmp::Ordering;
use std::marker::Model;
use std::slice;
use tera_errors::{Error, Guess, TeraResult};
use tera_value_types::Value;

/// Up to so many arguments are looked at one after the other.
const FEW: usize = 8;

/// Arguments by name, in byte order of their names, which are lent for a call.
#[derive(Drop)]
pub struct Arguments<'a> {
    alloc: Global,
    entries: &'a [(Name, Value)],
}

impl<'a> Model for Arguments<'a> {
    ghost use Rattle.tera_value_types.specs.Val.{Val};
    ghost use Rattle.tera_value_types.specs.Coding.{val_coding};
    ghost use Rattle.tera_values.specs.Named.{Named, named_code, IsAscending};

    ghost Value = { Named Val };

    ghost coded = { named_code val_coding };

    ghost view = { λ a. a.entries.now };

    ghost invariant = { λ a. IsAscending a.entries.now };
}

impl<'a> Arguments<'a> {
    /// The arguments in this order.
    pub(crate) fn of_entries(alloc: Global, entries: &'a [(Name, Value)]) -> Arguments<'a>
        requires { IsAscending entries.now }
        ensures { result ≡ entries.now }
    {
        Arguments { alloc, entries }
    }

    /// The allocator that was given at first.
    pub fn alloc(&self) -> Global {
        self.alloc
    }

    /// No arguments.
    pub fn of_none(alloc: Global) -> Arguments<'static>
        ensures { result ≡ [] }
    {
        Arguments {
            alloc,
            entries: &[],
        }
    }

    /// The only argument of a call.
    pub fn of_one(alloc: Global, argument: &'a (Name, Value)) -> Arguments<'a>
        ensures { result ≡ argument.now ∷ [] }
    {
        Arguments {
            alloc,
            entries: slice::from_ref(argument),
        }
    }

    /// The argument as it lies. Takes no memory.
    pub fn value(&self, name: &str) -> Option<&'a Value>
        ensures { option_copied result ≡ at_name name.now self.now }
    {
        if self.entries.len() <= FEW {
            value_among(self.entries, name)
        } else {
            search_value(self.entries, name)
        }
    }

    /// The same by a name whose hash is known. Takes no memory.
    pub fn look(&self, name: &NameRef<'_>) -> Option<&'a Value>
        ensures { option_copied result ≡ at_name name.now self.now }
    {
        if self.entries.len() <= FEW {
            find_among(self.entries, name)
        } else {
            self.value(name.as_str())
        }
    }

    /// The argument, or none where it is absent; `InvalidArgument` where it is of a wrong type. Only what is read takes memory.
    pub fn get<T: ArgFromValue>(&self, name: &str) -> TeraResult<Option<T>>
        ensures read { Gives (λ o. option_map T.stands_for o) result
            (read T.reading (at_name name.now self.now)) }
        ensures fault { IsErr (read T.reading (at_name name.now self.now)) →
            MemorySuffices result }
        ensures ready { IfSome (at_name name.now self.now) T.is_ready → MemorySuffices result }
    {
        match self.value(name) {
            Some(value) => match T::from_value(self.alloc, value) {
                Ok(argument) => Ok(Some(argument)),
                Err(error) => Err(argument_error(self.alloc, error, name, value)),
            },
            None => Ok(None),
        }
    }

    /// The argument; `MissingArgument` where it is absent, `InvalidArgument` where it is of a wrong type.
    pub fn must_get<T: ArgFromValue>(&self, name: &str) -> TeraResult<T>
        ensures read { Gives T.stands_for result
            (read_needed T.reading (at_name name.now self.now)) }
        ensures fault { IsErr (read_needed T.reading (at_name name.now self.now)) →
            MemorySuffices result }
        ensures ready { IfSome (at_name name.now self.now) T.is_ready → MemorySuffices result }
    {
        match self.value(name) {
            Some(value) => match T::from_value(self.alloc, value) {
                Ok(argument) => Ok(argument),
                Err(error) => Err(argument_error(self.alloc, error, name, value)),
            },
            None => Err(self.missing_error(name)),
        }
    }

    /// The fault of a call that needs the argument, which is absent. It suggests a given name that is spelled nearly so.
    #[inline(never)]
    pub fn missing_error(&self, name: &str) -> Error
        ensures { result ≡ Some missing_argument }
    {
        match self.missing_in_words(name) {
            Ok(words) => Error::missing_argument().with_message(self.alloc, words.as_str()),
            Err(_) => Error::missing_argument(),
        }
    }

    fn missing_in_words(&self, name: &str) -> Result<String, AllocError> {
        let alloc = self.alloc;
        let mut guess = Guess::new(alloc, name);
        for (given, _) in self.entries.iter() {
            guess.add(given.as_str())?;
        }
        match guess.name() {
            Some(given) => format!(in alloc;
                "the call needs the argument `{name}`, and `{given}` is given"
            ),
            None => format!(in alloc; "the call needs the argument `{name}`"),
        }
    }
}

// Where the name stands, or where it goes.
pub(crate) fn position(entries: &[(Name, Value)], name: &str) -> Result<usize, usize>
    requires { IsAscending entries.now }
    ensures { result ≡ position name.now entries.now }
{
    entries.binary_search_by(|entry| compare_name(entry, name))
}

// The value at the name, looked for from the first entry on.
fn find_among<'a>(entries: &'a [(Name, Value)], name: &NameRef<'_>) -> Option<&'a Value>
    ensures { option_copied result ≡ at_name name.now entries.now }
{
    for entry in entries {
        if name.is(&entry.0) {
            return Some(&entry.1);
        }
    }
    None
}

// The same by a name whose hash is not known.
fn value_among<'a>(entries: &'a [(Name, Value)], name: &str) -> Option<&'a Value>
    ensures { option_copied result ≡ at_name name.now entries.now }
{
    for entry in entries {
        if name == entry.0.as_str() {
            return Some(&entry.1);
        }
    }
    None
}

// The same of many.
fn search_value<'a>(entries: &'a [(Name, Value)], name: &str) -> Option<&'a Value>
    requires { IsAscending entries.now }
    ensures { option_copied result ≡ at_name name.now entries.now }
{
    match position(entries, name) {
        Ok(at) => match entries.get(at) {
            Some(entry) => Some(&entry.1),
            None => None,
        },
        Err(_) => None,
    }
}

fn compare_name(entry: &(Name, Value), name: &str) -> Ordering
    ensures { result ≡ name_cmp entry.now.0 name.now }
{
    entry.0.as_str().cmp(name)
}
