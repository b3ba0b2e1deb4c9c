// By what texts are escaped, and what a built-in sees of a rendering.
ghost use Rattle.std.specs.Prelude.{◌≡◌, ◌++◌, string_bytes, OnOk, OnErr, IfErr};
ghost use Rattle.tera_errors.specs.Prelude.{Text, Lacks};

use std::alloc::Global;
use tera_values::{Arguments, TeraResult, Value, escape_html};

/// What escapes texts.
pub trait EscapeFn: Drop {
    // The escape of a text.
    ghost escaped: { Self → Text → Text };

    /// Puts the escape of the text behind another. Nothing but want of memory is answered, which leaves that as it was.
    fn escape(&self, input: &str, out: &mut String) -> TeraResult<()>
        ensures ok { OnOk result
            (string_bytes out.new ≡ string_bytes out.old ++ escaped self.now input.now) }
        ensures err { OnErr result (string_bytes out.new ≡ string_bytes out.old) }
        ensures lacks { IfErr result Lacks };
}

impl EscapeFn for &dyn EscapeFn {
    ghost escaped = { λ e. (EscapeFn-dyn e.now).escaped e.now.1 };

    #[inline(always)]
    fn escape(&self, input: &str, out: &mut String) -> TeraResult<()> {
        (**self).escape(input, out)
    }
}

// An escape that may be left out.
impl<E: EscapeFn> EscapeFn for Option<E> {
    ghost use Rattle.tera_built_ins.specs.Escaping.{escape_or_html};

    ghost escaped = { escape_or_html E.escaped };

    #[inline(always)]
    fn escape(&self, input: &str, out: &mut String) -> TeraResult<()> {
        match self {
            Some(escape) => escape.escape(input, out),
            None => escape_html(input, out),
        }
    }
}

/// Whether texts are escaped where they are written, and how.
#[derive_where(Clone, Copy)]
pub struct Escaping<'e, E> {
    pub autoescape: bool,
    pub escape: &'e E,
}

impl<'e, E: EscapeFn> Escaping<'e, E> {
    ghost use Rattle.tera_built_ins.specs.Escaping.{escaping_of};

    /// Puts the escape of the text behind another. Want of memory leaves that as it was. No built-in escapes but by this.
    pub(crate) fn escape(self, text: &str, out: &mut String) -> TeraResult<()>
        ensures ok { OnOk result (string_bytes out.new
            ≡ string_bytes out.old ++ (escaping_of E.escaped self.entry).escape text.now) }
        ensures err { OnErr result (string_bytes out.new ≡ string_bytes out.old) }
        ensures lacks { IfErr result Lacks }
    {
        self.escape.escape(text, out)
    }
}

/// What a filter that escapes is given: memory, a value, arguments, and how texts are escaped.
#[derive_where(Clone, Copy)]
pub struct Filtering<'a, E> {
    pub alloc: Global,
    pub value: &'a Value,
    pub arguments: &'a Arguments<'a>,
    pub escaping: Escaping<'a, E>,
}
