// Texts in which some bytes stand in another form: markup, and quoted texts.
ghost use Rattle.std.specs.Prelude.{◌≡◌, ◌++◌, ◌∷◌, [], ◌+◌, ◌<◌, ◌≤◌, ℕ, List, drop, length, true, false, IsTrue, IsFalse, Ok, OnOk, OnErr, IfOk, IfErr, slice_index_or, string_bytes};
ghost use Rattle.std.specs.Str.{IsCharBoundary};
ghost use Rattle.tera_errors.specs.Prelude.{Lacks};
ghost use Rattle.tera_value_types.specs.Escape.{escape_byte, escape_html, escape_xml_byte, escape_xml};
ghost use Rattle.tera_value_types.specs.Printed.{quoted, quoted_byte};
ghost use Rattle.tera_value_types.specs.Growth.{Keeps, IsPlain, IsNever, by_byte, is_one_of};

use std::alloc::AllocError;
use std::simd::prelude::*;
use tera_errors::TeraResult;

/// Appends the text; what was there stays whatever comes.
#[inline]
pub(crate) fn append(text: &str, out: &mut String) -> Result<(), AllocError>
    ensures ok { OnOk result (string_bytes out.new ≡ string_bytes out.old ++ text.now) }
    ensures err { OnErr result (string_bytes out.new ≡ string_bytes out.old) }
    ensures keeps { Keeps (string_bytes out.old) (string_bytes out.new) }
{
    out.push_str(text)
}

/// The same of a text that is often empty.
#[inline]
fn append_stretch(stretch: &str, out: &mut String) -> Result<(), AllocError>
    ensures ok { OnOk result (string_bytes out.new ≡ string_bytes out.old ++ stretch.now) }
    ensures keeps { Keeps (string_bytes out.old) (string_bytes out.new) }
{
    if stretch.is_empty() {
        Ok(())
    } else {
        append(stretch, out)
    }
}

/// Which bytes stand in another form.
trait Forms {
    ghost spelled: { ℕ → List ℕ };

    /// Whether the byte stands in another form.
    fn has_form(byte: u8) -> bool
        ensures plain { IsFalse result → spelled byte ≡ byte ∷ [] }
        ensures ascii { IsTrue result → byte < 128 };

    /// Appends the form of the byte, where it has one, and says whether it has. Each arm has a constant form, so that its
    /// length is known when this is compiled.
    fn append_form(byte: u8, out: &mut String) -> Result<bool, AllocError>
        ensures ok { result ≡ Ok true
            → string_bytes out.new ≡ string_bytes out.old ++ spelled byte }
        ensures ascii { result ≡ Ok true → byte < 128 }
        ensures unchanged { result ≡ Ok false → string_bytes out.new ≡ string_bytes out.old }
        ensures plain { result ≡ Ok false → spelled byte ≡ byte ∷ [] }
        ensures keeps { Keeps (string_bytes out.old) (string_bytes out.new) };

    /// How many of the sixteen bytes from a position on stand for themselves, before one that may not.
    fn plain_lanes(bytes: &[u8], from: usize) -> usize
        requires { from + 16 ≤ length bytes.now }
        ensures room { result ≤ 16 }
        ensures plain { IsPlain spelled bytes.now from (from + result) };
}

/// How many of the sixteen bytes from a position on stand before the first that is one of five.
#[inline(always)]
fn lanes_before(bytes: &[u8], from: usize, a: u8, b: u8, c: u8, d: u8, e: u8) -> usize
    requires { from + 16 ≤ length bytes.now }
    ensures room { result ≤ 16 }
    ensures others { IsNever (is_one_of a b c d e) bytes.now from (from + result) }
{
    let lanes = u8x16::from_slice(&bytes[from..]);
    let found = lanes.simd_eq(u8x16::splat(a))
        | lanes.simd_eq(u8x16::splat(b))
        | lanes.simd_eq(u8x16::splat(c))
        | lanes.simd_eq(u8x16::splat(d))
        | lanes.simd_eq(u8x16::splat(e));
    let mask = found.to_bitmask();
    if mask == 0 {
        16
    } else {
        mask.trailing_zeros() as usize
    }
}

/// Text as it stands in markup.
struct Html;

impl Forms for Html {
    ghost spelled = { escape_byte };

    #[inline]
    fn has_form(byte: u8) -> bool {
        // Signs that stand in arms of their own are asked for by one test of a bit.
        match byte {
            b'"' => true,
            b'&' => true,
            b'\'' => true,
            b'<' => true,
            b'>' => true,
            _ => false,
        }
    }

    #[inline(always)]
    fn append_form(byte: u8, out: &mut String) -> Result<bool, AllocError> {
        match byte {
            b'&' => append("&amp;", out)?,
            b'<' => append("&lt;", out)?,
            b'>' => append("&gt;", out)?,
            b'"' => append("&quot;", out)?,
            b'\'' => append("&#x27;", out)?,
            _ => return Ok(false),
        }
        Ok(true)
    }

    #[inline]
    fn plain_lanes(bytes: &[u8], from: usize) -> usize {
        lanes_before(bytes, from, b'&', b'<', b'>', b'"', b'\'')
    }
}

/// Text as it stands in XML.
struct Xml;

impl Forms for Xml {
    ghost spelled = { escape_xml_byte };

    #[inline]
    fn has_form(byte: u8) -> bool {
        Html::has_form(byte)
    }

    #[inline(always)]
    fn append_form(byte: u8, out: &mut String) -> Result<bool, AllocError> {
        match byte {
            b'\'' => append("&apos;", out)?,
            _ => return Html::append_form(byte, out),
        }
        Ok(true)
    }

    #[inline]
    fn plain_lanes(bytes: &[u8], from: usize) -> usize {
        Html::plain_lanes(bytes, from)
    }
}

/// Text as it stands between quotes.
struct Quotes;

impl Forms for Quotes {
    ghost spelled = { quoted_byte };

    #[inline]
    fn has_form(byte: u8) -> bool {
        matches!(byte, b'\\' | b'"' | b'\n' | b'\r' | b'\t')
    }

    #[inline(always)]
    fn append_form(byte: u8, out: &mut String) -> Result<bool, AllocError> {
        match byte {
            b'\\' => append("\\\\", out)?,
            b'"' => append("\\\"", out)?,
            b'\n' => append("\\n", out)?,
            b'\r' => append("\\r", out)?,
            b'\t' => append("\\t", out)?,
            _ => return Ok(false),
        }
        Ok(true)
    }

    #[inline]
    fn plain_lanes(bytes: &[u8], from: usize) -> usize {
        lanes_before(bytes, from, b'\\', b'"', b'\n', b'\r', b'\t')
    }
}

/// Past the bytes that stand for themselves, sixteen at a time: a position of one that may not, or of the last few.
#[inline]
fn plain_stretch<F: Forms>(bytes: &[u8], from: usize) -> usize
    requires { from ≤ length bytes.now }
    ensures low { from ≤ result }
    ensures high { result ≤ length bytes.now }
    ensures plain { IsPlain F.spelled bytes.now from result }
{
    let mut position = from;
    while bytes.len() - position >= 16 {
        let count = F::plain_lanes(bytes, position);
        position += count;
        if count < 16 {
            return position;
        }
    }
    position
}

/// Past the bytes that stand for themselves, to the next that has a form of its own, or to the end. It is not inlined, so that
/// what it compares with takes no registers of the loop that writes.
#[inline(never)]
fn next_form<F: Forms>(bytes: &[u8], from: usize) -> usize
    requires { from ≤ length bytes.now }
    ensures low { from ≤ result }
    ensures high { result ≤ length bytes.now }
    ensures plain { IsPlain F.spelled bytes.now from result }
    ensures ascii { result < length bytes.now → slice_index_or bytes.now result 0 < 128 }
{
    let mut position = plain_stretch::<F>(bytes, from);
    while position < bytes.len() && !F::has_form(bytes[position]) {
        position += 1;
    }
    position
}

/// So many bytes behind a form are appended one by one, since the next form is often near.
const NEAR: usize = 8;

/// Appends the text from a position on, byte by byte while a form is near, and says up to where. It stops at a character of
/// more than one byte, too.
#[inline]
fn append_near<F: Forms>(text: &str, from: usize, out: &mut String) -> Result<usize, AllocError>
    requires cut { IsCharBoundary text.now from }
    ensures cut { IfOk result (λ to. IsCharBoundary text.now to) }
    ensures low { IfOk result (λ to. from ≤ to) }
    ensures ahead { IfOk result (λ to. from < length text.now
        → slice_index_or text.now from 0 < 128 → from < to) }
    ensures ok { IfOk result (λ to. string_bytes out.new ++ by_byte F.spelled (drop to text.now)
        ≡ string_bytes out.old ++ by_byte F.spelled (drop from text.now)) }
    ensures keeps { Keeps (string_bytes out.old) (string_bytes out.new) }
{
    let bytes = text.as_bytes();
    let mut position = from;
    let mut left = NEAR;
    while position < bytes.len() {
        let byte = bytes[position];
        if F::append_form(byte, out)? {
            left = NEAR;
        } else if 0 < left && byte < 128 {
            out.push(byte as char)?;
            left -= 1;
        } else {
            return Ok(position);
        }
        position += 1;
    }
    Ok(position)
}

/// Appends the text, stretch by stretch between the bytes that have a form of their own.
fn append_forms<F: Forms>(text: &str, out: &mut String) -> Result<(), AllocError>
    ensures ok { OnOk result (string_bytes out.new ≡ string_bytes out.old
        ++ by_byte F.spelled text.now) }
    ensures keeps { Keeps (string_bytes out.old) (string_bytes out.new) }
{
    let bytes = text.as_bytes();
    let mut start = 0;
    while start < bytes.len() {
        let position = next_form::<F>(bytes, start);
        append_stretch(&text[start..position], out)?;
        start = append_near::<F>(text, position, out)?;
    }
    Ok(())
}

/// Appends the text between quotes.
pub(crate) fn append_quoted(text: &str, out: &mut String) -> Result<(), AllocError>
    ensures ok { OnOk result (string_bytes out.new ≡ string_bytes out.old ++ quoted text.now) }
    ensures keeps { Keeps (string_bytes out.old) (string_bytes out.new) }
{
    append("\"", out)?;
    append_forms::<Quotes>(text, out)?;
    append("\"", out)
}

/// The same as `append_forms`, but where memory is refused, what was there is there alone.
#[inline(never)]
fn append_marked<F: Forms>(text: &str, out: &mut String) -> Result<(), AllocError>
    ensures ok { OnOk result (string_bytes out.new ≡ string_bytes out.old
        ++ by_byte F.spelled text.now) }
    ensures err { OnErr result (string_bytes out.new ≡ string_bytes out.old) }
{
    let kept = out.len();
    match append_forms::<F>(text, out) {
        Ok(()) => Ok(()),
        Err(error) => {
            out.truncate(kept);
            Err(error)
        }
    }
}

/// The same, with no more than a copy for a text in which nothing has a form of its own.
#[inline]
fn append_escaped<F: Forms>(text: &str, out: &mut String) -> Result<(), AllocError>
    ensures ok { OnOk result (string_bytes out.new ≡ string_bytes out.old
        ++ by_byte F.spelled text.now) }
    ensures err { OnErr result (string_bytes out.new ≡ string_bytes out.old) }
{
    let position = next_form::<F>(text.as_bytes(), 0);
    if position == text.len() {
        append(text, out)
    } else {
        append_marked::<F>(text, out)
    }
}

/// Appends the text with `& < > " '` in their forms for markup, and every other character as it is.
/// Where memory is refused, what was there is there alone.
#[inline(always)]
pub fn escape_html(text: &str, out: &mut String) -> TeraResult<()>
    ensures ok { OnOk result (string_bytes out.new ≡ string_bytes out.old ++ escape_html text.now) }
    ensures err { OnErr result (string_bytes out.new ≡ string_bytes out.old) }
    ensures lacks { IfErr result Lacks }
{
    append_escaped::<Html>(text, out)?;
    Ok(())
}

/// The same for XML, where `'` has another form.
pub fn escape_xml(text: &str, out: &mut String) -> TeraResult<()>
    ensures ok { OnOk result (string_bytes out.new ≡ string_bytes out.old ++ escape_xml text.now) }
    ensures err { OnErr result (string_bytes out.new ≡ string_bytes out.old) }
    ensures lacks { IfErr result Lacks }
{
    append_escaped::<Xml>(text, out)?;
    Ok(())
}
