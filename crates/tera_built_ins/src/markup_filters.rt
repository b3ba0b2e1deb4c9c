// Texts written as markup.
ghost use Rattle.std.specs.Prelude.{◌≡◌, ◌++◌, string_bytes, OnOk, IfErr};
ghost use Rattle.tera_errors.specs.Prelude.{Gives, Lacks};
ghost use Rattle.tera_values.specs.Prelude.{plain};
ghost use Rattle.tera_built_ins.specs.Markup.{escaped_by, escape_of, newlines_to_br_of};

use crate::arguments::as_text;
use crate::replace::replace_all;
use std::alloc::Global;
use tera_values::{TeraResult, Value, escape_html, escape_xml};

/// What a text is escaped for.
#[derive(Clone, Copy)]
pub enum Markup {
    Html,
    Xml,
}

/// The escape of a text, also of a safe one. It is not marked safe.
pub fn escape(alloc: Global, value: &Value, markup: Markup) -> TeraResult<Value>
    ensures { Gives (λ v. v) result (escaped_by (escape_of markup) plain value.now) }
{
    let given = as_text(alloc, value)?;
    let mut escaped = String::new(alloc);
    put_escape(given.text, markup, &mut escaped)?;
    Value::from_string(alloc, escaped, false)
}

fn put_escape(text: &str, markup: Markup, out: &mut String) -> TeraResult<()>
    ensures ok { OnOk result
        (string_bytes out.new ≡ string_bytes out.old ++ escape_of markup text.now) }
    ensures lacks { IfErr result Lacks }
{
    match markup {
        Markup::Html => escape_html(text, out),
        Markup::Xml => escape_xml(text, out),
    }
}

/// The text with `<br>` at the end of each line, be it CRLF, LF or CR. It is not marked safe.
pub fn newlines_to_br(alloc: Global, value: &Value) -> TeraResult<Value>
    ensures { Gives (λ v. v) result (newlines_to_br_of plain value.now) }
{
    let given = as_text(alloc, value)?;
    let without_pairs = replace_all(alloc, given.text, "\r\n", "<br>")?;
    let without_feeds = replace_all(alloc, without_pairs.as_str(), "\n", "<br>")?;
    let broken = replace_all(alloc, without_feeds.as_str(), "\r", "<br>")?;
    Value::from_string(alloc, broken, false)
}
