// The text that a value prints.
ghost use Rattle.std.specs.Prelude.{◌≡◌, ◌++◌, Ok, OnOk, OnErr, string_bytes};
ghost use Rattle.std.specs.Fmt.{signed_decimal};
ghost use Rattle.std.specs.Str.Lossy.{utf8_lossy};
ghost use Rattle.tera_errors.specs.Prelude.{Gives};
ghost use Rattle.tera_value_types.specs.Val.{array, map, vals, entries};
ghost use Rattle.tera_value_types.specs.View.{key_view, entry_views};
ghost use Rattle.tera_value_types.specs.Growth.{Keeps};
ghost use Rattle.tera_value_types.specs.Printed.{printed, inside, quoted, bool_text, key_text};

use crate::escape::{append, append_quoted};
use crate::key::Key;
use crate::shape::Shape;
use crate::value::{Entry, Value};
use itoa::Buffer;
use std::alloc::{AllocError, Global};
use tera_errors::TeraResult;

fn append_bool(flag: bool, out: &mut String) -> Result<(), AllocError>
    ensures ok { OnOk result (string_bytes out.new ≡ string_bytes out.old ++ bool_text flag) }
    ensures keeps { Keeps (string_bytes out.old) (string_bytes out.new) }
{
    if flag {
        append("true", out)
    } else {
        append("false", out)
    }
}

fn append_integer(number: i128, out: &mut String) -> Result<(), AllocError>
    ensures ok { OnOk result (string_bytes out.new ≡ string_bytes out.old
        ++ signed_decimal number) }
    ensures err { OnErr result (string_bytes out.new ≡ string_bytes out.old) }
    ensures keeps { Keeps (string_bytes out.old) (string_bytes out.new) }
{
    let mut buffer = Buffer::new();
    append(buffer.format(number), out)
}

/// What `String::from_utf8_lossy` makes of the bytes.
fn append_bytes(content: &[u8], out: &mut String) -> Result<(), AllocError>
    ensures ok { OnOk result (string_bytes out.new ≡ string_bytes out.old
        ++ utf8_lossy content.now) }
    ensures keeps { Keeps (string_bytes out.old) (string_bytes out.new) }
{
    let text = String::from_utf8_lossy(*out.allocator(), content)?;
    append(text.as_str(), out)
}

fn append_quoted_bytes(content: &[u8], out: &mut String) -> Result<(), AllocError>
    ensures ok { OnOk result (string_bytes out.new ≡ string_bytes out.old
        ++ quoted (utf8_lossy content.now)) }
    ensures keeps { Keeps (string_bytes out.old) (string_bytes out.new) }
{
    let text = String::from_utf8_lossy(*out.allocator(), content)?;
    append_quoted(text.as_str(), out)
}

fn append_key(key: &Key, out: &mut String) -> Result<(), AllocError>
    ensures ok { OnOk result (string_bytes out.new ≡ string_bytes out.old
        ++ key_text (key_view key.now)) }
    ensures keeps { Keeps (string_bytes out.old) (string_bytes out.new) }
{
    match key {
        Key::Bool(flag) => append_bool(*flag, out),
        Key::Int(number) => append_integer(*number, out),
        Key::Text(name) => append_quoted(name.as_str(), out),
    }
}

impl Value {
    /// The printed text: that of a text is the text itself, that of undefined and none is empty.
    pub fn printed(&self, alloc: Global) -> TeraResult<String>
        ensures { Gives string_bytes result (Ok (printed self.now)) }
    {
        let mut out = String::new(alloc);
        self.append_printed(&mut out)?;
        Ok(out)
    }

    /// Appends the printed text. Where memory is refused, what was there is there alone.
    #[inline(always)]
    pub fn print_to(&self, out: &mut String) -> Result<(), AllocError>
        ensures ok { OnOk result (string_bytes out.new ≡ string_bytes out.old ++ printed self.now) }
        ensures err { OnErr result (string_bytes out.new ≡ string_bytes out.old) }
    {
        match self.shape() {
            Shape::Int(number) => append_integer(number, out),
            Shape::Text(content, _) => append(content, out),
            _ => self.print_all_to(out),
        }
    }

    // The same for every kind: what a part wrote before memory was refused is taken off.
    fn print_all_to(&self, out: &mut String) -> Result<(), AllocError>
        ensures ok { OnOk result (string_bytes out.new ≡ string_bytes out.old ++ printed self.now) }
        ensures err { OnErr result (string_bytes out.new ≡ string_bytes out.old) }
    {
        let kept = out.len();
        match self.append_printed(out) {
            Ok(()) => Ok(()),
            Err(error) => {
                out.truncate(kept);
                Err(error)
            }
        }
    }

    fn append_printed(&self, out: &mut String) -> Result<(), AllocError>
        ensures ok { OnOk result (string_bytes out.new ≡ string_bytes out.old ++ printed self.now) }
        ensures keeps { Keeps (string_bytes out.old) (string_bytes out.new) }
    {
        match self.shape() {
            Shape::Undefined | Shape::None => append("", out),
            Shape::Int(number) => append_integer(number, out),
            Shape::Text(content, _) => append(content, out),
            Shape::Bytes(content) => append_bytes(content, out),
            _ => self.append_inside(out),
        }
    }

    /// The form inside an array or a map.
    #[cycle(printing)]
    fn append_inside(&self, out: &mut String) -> Result<(), AllocError>
        ensures ok { OnOk result (string_bytes out.new ≡ string_bytes out.old ++ inside self.now) }
        ensures keeps { Keeps (string_bytes out.old) (string_bytes out.new) }
    {
        match self.shape() {
            Shape::Undefined => append("undefined", out),
            Shape::None => append("none", out),
            Shape::Bool(flag) => append_bool(flag, out),
            Shape::Int(number) => append_integer(number, out),
            Shape::Text(content, _) => append_quoted(content, out),
            Shape::Bytes(content) => append_quoted_bytes(content, out),
            Shape::Array(items) => append_items(items, out),
            Shape::Map(all) => append_entries(all.entries(), out),
        }
    }
}

#[cycle(printing)]
fn append_items(items: &[Value], out: &mut String) -> Result<(), AllocError>
    ensures ok { OnOk result (string_bytes out.new ≡ string_bytes out.old
        ++ inside (array (vals items.now))) }
    ensures keeps { Keeps (string_bytes out.old) (string_bytes out.new) }
{
    match items {
        [] => append("[]", out),
        [first, rest @ ..] => {
            append("[", out)?;
            first.append_inside(out)?;
            for item in rest {
                append(", ", out)?;
                item.append_inside(out)?;
            }
            append("]", out)
        }
    }
}

#[cycle(printing)]
fn append_entries(all: &[Entry], out: &mut String) -> Result<(), AllocError>
    ensures ok { OnOk result (string_bytes out.new ≡ string_bytes out.old
        ++ inside (map (entries (entry_views all.now)))) }
    ensures keeps { Keeps (string_bytes out.old) (string_bytes out.new) }
{
    match all {
        [] => append("{}", out),
        [first, rest @ ..] => {
            append("{", out)?;
            append_key(&first.key, out)?;
            append(": ", out)?;
            first.value.append_inside(out)?;
            for entry in rest {
                append(", ", out)?;
                append_key(&entry.key, out)?;
                append(": ", out)?;
                entry.value.append_inside(out)?;
            }
            append("}", out)
        }
    }
}
