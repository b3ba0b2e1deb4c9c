// Texts of JSON as values and as contexts.
ghost use Rattle.std.specs.Prelude.{◌≡◌, IfErr, IfOk, IsUtf8, OnErr, OnOk};
ghost use Rattle.json.specs.Value.{value_view};
ghost use Rattle.tera_errors.specs.Prelude.{Gives, Lacks, Tells, message};
ghost use Rattle.tera_values.specs.Named.{put_all};
ghost use Rattle.tera_data.specs.Contexts.{context_in, of_object, over};
ghost use Rattle.tera_data.specs.Values.{read, value_in};

use crate::conversion::{context_of, value_of};
use crate::number::Floats;
use crate::words::{no_object, no_text, unreadable_text, with_path};
use json::{Scratch, Value as Json};
use std::alloc::Global;
use tera_errors::{Error, TeraResult};
use tera_value_types::Value;
use tera_values::Context;

/// The value that the text spells. Arrays and objects may nest 128 deep. An object's members stand in the order of the text; of
/// two with one name the later gives the value, and the earlier the place. A refusal says where, and why.
pub fn json_value(alloc: Global, text: &str, floats: Floats) -> TeraResult<Value>
    ensures { Gives (λ v. v) result (value_in floats text.now) }
{
    let mut scratch = Scratch::new(alloc);
    let json = read(alloc, text, &mut scratch)?;
    match value_of(alloc, &json, floats) {
        Ok(value) => Ok(value),
        Err(error) => Err(with_path(alloc, error)),
    }
}

/// The context that the text spells: the members of an object at their names. A text of any other value is refused.
pub fn json_context(alloc: Global, text: &str, floats: Floats) -> TeraResult<Context>
    ensures { Gives (λ c. c) result (context_in floats text.now) }
{
    let mut scratch = Scratch::new(alloc);
    let json = read(alloc, text, &mut scratch)?;
    match object_of(alloc, &json, floats) {
        Ok(context) => Ok(context),
        Err(error) => Err(with_path(alloc, error)),
    }
}

/// Puts what the text spells over the context, name by name, all of it or nothing.
pub fn put_json(context: &mut Context, text: &str, floats: Floats) -> TeraResult<()>
    ensures put { Gives (λ _. context.new) result (over context.old (context_in floats text.now)) }
    ensures err { OnErr result (context.new ≡ context.old) }
{
    let data = json_context(context.alloc(), text, floats)?;
    lay_over(context, &data)
}

/// Puts all of the data over the context, name by name, all of it or nothing.
pub(crate) fn lay_over(context: &mut Context, members: &Context) -> TeraResult<()>
    ensures ok { OnOk result (context.new ≡ put_all members.now context.old) }
    ensures err { OnErr result (context.new ≡ context.old) }
    ensures lacks { IfErr result Lacks }
{
    let mut all = context.try_clone()?;
    all.put_all(members)?;
    *context = all;
    Ok(())
}

/// The bytes as a text, or a message that says where they are none.
pub fn text_of(alloc: Global, bytes: &[u8]) -> TeraResult<&str>
    ensures ok { IfOk result (λ t. (t.now ≡ bytes.now) × IsUtf8 bytes.now) }
    ensures told { IfErr result (λ e. Tells e message × ¬ IsUtf8 bytes.now) }
{
    match str::from_utf8(bytes) {
        Ok(text) => Ok(text),
        Err(error) => Err(no_text(alloc, bytes, error.valid_up_to())),
    }
}

fn read<'a>(alloc: Global, text: &'a str, scratch: &'a mut Scratch) -> TeraResult<Json<'a>>
    ensures { Gives value_view result (read text.now) }
{
    match Json::parse(alloc, text, scratch) {
        Ok(json) => Ok(json),
        Err(json::Error::OutOfMemory) => Err(Error::out_of_memory()),
        Err(_) => Err(unreadable_text(alloc, text)),
    }
}

fn object_of(alloc: Global, json: &Json<'_>, floats: Floats) -> TeraResult<Context>
    ensures { Gives (λ c. c) result (of_object floats (value_view json.now)) }
{
    match json {
        Json::Object(members) => context_of(alloc, members, floats),
        _ => Err(no_object(alloc, json)),
    }
}
