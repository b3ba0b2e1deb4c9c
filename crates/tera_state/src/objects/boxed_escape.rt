// The caller's boxes, and what they are lent.
ghost use Rattle.std.specs.Prelude.{◌≡◌, ◌++◌, Some, string_bytes, OnOk, OnErr};
ghost use Rattle.tera_errors.specs.Prelude.{Gives};
ghost use Rattle.tera_values.specs.Prelude.{plain};
ghost use Rattle.tera_built_ins.specs.Prelude.{escape_or_html};
ghost use Rattle.tera_built_ins.specs.Filters.{filter_of};
ghost use Rattle.tera_state.specs.Prelude.{rendered, view_of, view_at, filters_left, around_of, variables_of};

use crate::objects::caller_objects::CallerObjects;
use crate::objects::object_call::ObjectCall;
use crate::state::StateOver;
use crate::writing::write_value;
use std::alloc::{AllocError, Global};
use tera_built_ins::{BuiltInFilter, EscapeFn, Escaping};
use tera_errors::alloc_result;
use tera_values::{Arguments, TeraResult, Value};

/// The state that an object of these sees at a call: the scopes, the escape, and the built-in filters but those whose names are
/// taken.
pub(crate) fn state_of_call<'a>(
    objects: &'a CallerObjects,
    call: &ObjectCall<'a>,
) -> StateOver<'a, 'a, &'a dyn EscapeFn>
    ensures { view_of (λ e. escaped e.now) result
        ≡ view_at (around_of call.now.scopes.now) (variables_of call.now.scopes.now)
        call.now.autoescape
        (escape_or_html
        (λ b. (⟦<dyn EscapeFn as EscapeFn>⟧ b.vtable).escaped b.value) objects.now.escape)
        (filters_left (Some objects.now.filters.taken.items)) }
{
    let taken = objects.filters.taken.as_slice();
    match &objects.escape {
        Some(escape) => call
            .scopes
            .state(call.autoescape, Some(&**escape), Some(taken)),
        None => call.scopes.state(call.autoescape, None, Some(taken)),
    }
}

// The escape as it is lent to what is built in.
fn lent_escape<'a>(escape: &'a Option<Box<dyn EscapeFn>>) -> Option<&'a dyn EscapeFn>
    ensures { escape_or_html (λ e. escaped e.now) result
        ≡ escape_or_html (λ b. (⟦<dyn EscapeFn as EscapeFn>⟧ b.vtable).escaped b.value) escape.now }
{
    match escape {
        Some(escape) => Some(&**escape),
        None => None,
    }
}

/// Puts a text behind another, escaped by this.
#[inline(never)]
pub(crate) fn escape_by(
    escape: &Option<Box<dyn EscapeFn>>,
    text: &str,
    out: &mut String,
) -> Result<(), AllocError>
    ensures ok { OnOk result (string_bytes out.new ≡ string_bytes out.old
        ++ escape_or_html (λ b. (⟦<dyn EscapeFn as EscapeFn>⟧ b.vtable).escaped b.value) escape.now
        text.now) }
    ensures err { OnErr result (string_bytes out.new ≡ string_bytes out.old) }
{
    alloc_result(lent_escape(escape).escape(text, out))
}

/// Puts a value behind a text: its printed text, escaped by this where texts are escaped and the value is not safe.
#[inline(never)]
pub(crate) fn write_by(
    escape: &Option<Box<dyn EscapeFn>>,
    alloc: Global,
    autoescape: bool,
    value: &Value,
    out: &mut String,
) -> Result<(), AllocError>
    ensures ok { OnOk result (string_bytes out.new ≡ string_bytes out.old ++ rendered autoescape
        (escape_or_html (λ b. (⟦<dyn EscapeFn as EscapeFn>⟧ b.vtable).escaped b.value) escape.now)
        value.now) }
    ensures err { OnErr result (string_bytes out.new ≡ string_bytes out.old) }
{
    let lent = lent_escape(escape);
    let escaping = Escaping {
        autoescape,
        escape: &lent,
    };
    write_value(alloc, escaping, value, out)
}

/// What a filter that is built in makes of a value, where texts are escaped by this.
#[inline(never)]
pub(crate) fn apply_by(
    escape: &Option<Box<dyn EscapeFn>>,
    alloc: Global,
    autoescape: bool,
    filter: BuiltInFilter,
    value: &Value,
    arguments: &Arguments<'_>,
) -> TeraResult<Value>
    ensures { Gives (λ v. v) result (filter_of plain (record {
      autoescape = autoescape;
      escape = escape_or_html
          (λ b. (⟦<dyn EscapeFn as EscapeFn>⟧ b.vtable).escaped b.value) escape.now;
    }) filter value.now arguments.now) }
{
    let lent = lent_escape(escape);
    let escaping = Escaping {
        autoescape,
        escape: &lent,
    };
    filter.call(alloc, value, arguments, escaping)
}
