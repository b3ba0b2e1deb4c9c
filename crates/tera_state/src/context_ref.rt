// Names that belong to someone else.
ghost use Rattle.std.specs.Prelude.{◌≡◌, Ok, OnOk, IfErr, option_copied};
ghost use Rattle.tera_errors.specs.Prelude.{Gives, Lacks};

use std::alloc::Global;
use std::marker::Model;
use tera_values::{Context, Kwargs, NameRef, TeraResult, Value};

/// What lends names: a context, the arguments of a component, or nobody.
#[derive(Clone, Copy)]
enum NameSource<'c> {
    Empty,
    Context(&'c Context),
    Arguments(&'c Kwargs),
}

/// Names that live elsewhere, or none. A contract sees the names, and not where they lie.
#[derive(Drop)]
pub struct ContextRef<'c> {
    lender: NameSource<'c>,
}

impl<'c> Model for ContextRef<'c> {
    ghost use Rattle.tera_values.specs.Named.{Named, named_code};
    ghost use Rattle.tera_values.specs.Val.{Val};
    ghost use Rattle.tera_values.specs.Coding.{val_coding};
    ghost use Rattle.tera_state.specs.ContextRef.{lent_by};

    ghost Value = { Named Val };

    ghost coded = { named_code val_coding };

    ghost view = { λ l. lent_by l.lender };
}

impl<'c> ContextRef<'c> {
    ghost use Rattle.tera_values.specs.Named.{at_name, put_all};
    ghost use Rattle.tera_state.specs.ContextRef.{names_of};

    /// The names of the context. Takes no memory.
    pub fn new(context: Option<&'c Context>) -> ContextRef<'c>
        ensures { result ≡ names_of context.entry }
    {
        match context {
            Some(context) => ContextRef {
                lender: NameSource::Context(context),
            },
            None => ContextRef {
                lender: NameSource::Empty,
            },
        }
    }

    /// The names of a component's arguments. Takes no memory.
    pub fn of_arguments(arguments: &'c Kwargs) -> ContextRef<'c>
        ensures { result ≡ arguments.now }
    {
        ContextRef {
            lender: NameSource::Arguments(arguments),
        }
    }

    /// The same names, lent once more. Takes no memory.
    pub fn share(&self) -> ContextRef<'c>
        ensures { result ≡ self.now }
    {
        ContextRef {
            lender: self.lender,
        }
    }

    /// A context of its own with the same names.
    pub fn to_context(&self, alloc: Global) -> TeraResult<Context>
        ensures { Gives (λ c. c) result (Ok self.now) }
    {
        match self.lender {
            NameSource::Empty => Ok(Context::new(alloc)),
            NameSource::Context(context) => context.try_clone(),
            NameSource::Arguments(arguments) => arguments.to_context(),
        }
    }

    /// Puts all into the names.
    pub fn put_into(&self, names: &mut Context) -> TeraResult<()>
        ensures ok { OnOk result (names.new ≡ put_all self.now names.old) }
        ensures lacks { IfErr result Lacks }
    {
        match self.lender {
            NameSource::Empty => Ok(()),
            NameSource::Context(context) => names.put_all(context),
            NameSource::Arguments(arguments) => arguments.put_into(names),
        }
    }

    /// The value at a name.
    pub fn get(&self, name: &NameRef<'_>) -> Option<&'c Value>
        ensures { option_copied result ≡ at_name name.now self.now }
    {
        match self.lender {
            NameSource::Empty => None,
            NameSource::Context(context) => context.look(name),
            NameSource::Arguments(arguments) => arguments.look(name),
        }
    }
}
