// Data as a context: files, and texts at names.
ghost use Rattle.std.specs.Prelude.{◌≡◌, IfErr, IfOk, Ok, take};
ghost use Rattle.tera.specs.Answer.{GivesOneOf, SaysOneOf, Tells};
ghost use Rattle.tera.specs.Fault.{message};
ghost use Rattle.tera_job.specs.Data.{form_of_file, AreReadable, IsContextOf, Lays, MembersIn, ValueIn};

use std::alloc::Global;
use tera::{Context, Error, TeraResult, Value};
use tera_data::{Floats, csv_value, json_context, json_value, toml_context, toml_value};

/// What a file of data is written in.
#[derive(Clone, Copy, Debug, PartialEq, Eq)]
pub enum DataForm {
    Json,
    Toml,
    /// Records under the names of the first one. All of it is one array, which has no names of its own.
    Csv,
}

impl DataForm {
    /// By the last suffix of the file's name, if it is one of those that are read.
    pub fn of_file(path: &str) -> Option<DataForm>
        ensures { result ≡ form_of_file path.now }
    {
        if path.ends_with(".json") {
            Some(DataForm::Json)
        } else if path.ends_with(".toml") {
            Some(DataForm::Toml)
        } else if path.ends_with(".csv") {
            Some(DataForm::Csv)
        } else {
            None
        }
    }
}

/// What gives values to names.
#[derive(Clone, Copy, Debug)]
pub enum Datum<'a> {
    /// The members of a file, each at its name. A file of CSV is refused, since it has none.
    Members {
        form: DataForm,
        text: &'a str,
    },
    /// All of a file, at this name.
    Whole {
        name: &'a str,
        form: DataForm,
        text: &'a str,
    },
    /// A text as it stands, at this name.
    Words {
        name: &'a str,
        text: &'a str,
    },
}

/// The first of the data that can't be read.
#[derive(Debug, Drop)]
pub struct Unreadable {
    /// Which one, counted from 0.
    pub position: usize,
    /// Why: line, column and what was expected, or the path of what templates cannot have.
    pub error: Error,
}

/// The context that data gives: each datum over those before it, name by name.
pub fn context_of(alloc: Global, given: &[Datum<'_>], floats: Floats) -> Result<Context, Unreadable>
    ensures ok { IfOk result (λ c. IsContextOf floats given.now (Ok c)) }
    ensures err { IfErr result (λ e. AreReadable floats (take e.position given.now)
        × SaysOneOf e.error (IsContextOf floats given.now)) }
{
    let mut context = Context::new(alloc);
    let mut position = 0;
    for datum in given {
        if let Err(error) = lay(&mut context, datum, floats) {
            return Err(Unreadable { position, error });
        }
        position += 1;
    }
    Ok(context)
}

// Puts what the datum gives over the context. After an error nobody sees the context again.
fn lay(context: &mut Context, datum: &Datum<'_>, floats: Floats) -> TeraResult<()>
    ensures { GivesOneOf (λ _. context.new) result (Lays floats datum.now context.old) }
{
    match datum {
        Datum::Members { form, text } => {
            let members = members_of(context.alloc(), *form, text, floats)?;
            context.put_all(&members)
        }
        Datum::Whole { name, form, text } => {
            let value = value_of(context.alloc(), *form, text, floats)?;
            context.insert(name, value)
        }
        Datum::Words { name, text } => {
            let value = Value::string(context.alloc(), text)?;
            context.insert(name, value)
        }
    }
}

// One line for each form of data.
fn members_of(alloc: Global, form: DataForm, text: &str, floats: Floats) -> TeraResult<Context>
    ensures { GivesOneOf (λ c. c) result (MembersIn floats form text.now) }
{
    match form {
        DataForm::Json => json_context(alloc, text, floats),
        DataForm::Toml => toml_context(alloc, text, floats),
        DataForm::Csv => Err(no_members(alloc)),
    }
}

// One line for each form of data.
fn value_of(alloc: Global, form: DataForm, text: &str, floats: Floats) -> TeraResult<Value>
    ensures { GivesOneOf (λ v. v) result (ValueIn floats form text.now) }
{
    match form {
        DataForm::Json => json_value(alloc, text, floats),
        DataForm::Toml => toml_value(alloc, text, floats),
        DataForm::Csv => csv_value(alloc, text),
    }
}

// The refusal of a file that has no members.
fn no_members(alloc: Global) -> Error
    ensures { Tells result message }
{
    Error::message(
        alloc,
        "records of CSV have no names of their own: give all of them one name, as NAME=FILE",
    )
}
