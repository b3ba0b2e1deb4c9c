// Pages of which the text is fixed, for any text of the user.
ghost use Rattle.std.specs.Prelude.{◌≡◌, Ok, IfErr, IfOk, true, codes, string_bytes};
ghost use Rattle.tera.specs.FixedText.{TextHasOwnMarkup};
ghost use Rattle.tera.specs.Prelude.{Gives, GivesOneOf, Lacks};
ghost use Rattle.tera.specs.Registry.{new_registry};
ghost use Rattle.tera.specs.Rendering.{OneOff};
ghost use Rattle.example_proof.specs.Pages.{context_of, greeting, word_list};

use std::alloc::Global;
use tera::{Context, Tera, TeraResult, Value};

/// What a page is given: a text of the user at a name. It is not marked safe.
fn context_of(alloc: Global, name: &str, text: &str) -> TeraResult<Context>
    ensures is { IfOk result (λ context. context ≡ context_of name.now text.now) }
    ensures lacks { IfErr result Lacks }
{
    let mut context = Context::new(alloc);
    context.insert(name, Value::string(alloc, text)?)?;
    Ok(context)
}

/// Exactly `<p>Hello ..!</p>` with the name, escaped; or want of memory.
pub fn greet(alloc: Global, name: &str) -> TeraResult<String>
    ensures { Gives string_bytes result (Ok (greeting name.now)) }
{
    let context = context_of(alloc, "name", name)?;
    Tera::one_off(alloc, "<p>Hello {{ name }}!</p>", &context, true)
}

/// The words of a message, each an item of a list: what the text of the page means. No `<`, `>`, `"` or `'` in it comes from the
/// message, but all are the page's own.
pub fn list_words(alloc: Global, message: &str) -> TeraResult<String>
    ensures is { let context = context_of (codes "message") message.now in
        GivesOneOf string_bytes result (OneOff new_registry word_list context true) }
    ensures own_markup { let context = context_of (codes "message") message.now in
        IfOk result (λ page. TextHasOwnMarkup new_registry word_list context (string_bytes page)) }
{
    let context = context_of(alloc, "message", message)?;
    let text = "<ul>{% for word in message | split(pat=' ') %}<li>{{ word }}</li>{% endfor %}</ul>";
    Tera::one_off(alloc, text, &context, true)
}
