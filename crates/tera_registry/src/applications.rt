// Where a filter or a test is named in an application of it.

/// What a byte of an expression stands in: so many brackets, and a text between quotes of this kind.
#[derive(Clone, Copy)]
struct Nesting {
    brackets: usize,
    quote: Option<u8>,
    is_escaped: bool,
}

impl Nesting {
    fn start() -> Nesting {
        Nesting {
            brackets: 0,
            quote: None,
            is_escaped: false,
        }
    }

    fn is_outside(&self) -> bool {
        self.brackets == 0 && self.quote.is_none()
    }

    // What stands behind this byte.
    fn after_byte(self, byte: u8) -> Nesting {
        match self.quote {
            Some(quote) => self.after_quoted_byte(quote, byte),
            None => self.after_bare_byte(byte),
        }
    }

    // The same outside of quotes. The application may stand in brackets that close in it.
    fn after_bare_byte(self, byte: u8) -> Nesting {
        match byte {
            b'"' | b'\'' | b'`' => Nesting {
                quote: Some(byte),
                ..self
            },
            b'(' | b'[' | b'{' => Nesting {
                brackets: self.brackets.saturating_add(1),
                ..self
            },
            b')' | b']' | b'}' => Nesting {
                brackets: self.brackets.saturating_sub(1),
                ..self
            },
            _ => self,
        }
    }

    // The same between quotes.
    fn after_quoted_byte(self, quote: u8, byte: u8) -> Nesting {
        let ends = byte == quote && !self.is_escaped;
        Nesting {
            quote: if ends { None } else { Some(quote) },
            is_escaped: byte == b'\\' && !self.is_escaped,
            ..self
        }
    }
}

fn is_name_byte(byte: u8) -> bool {
    byte.is_ascii_alphanumeric() || byte == b'_'
}

// Whether a text begins with the name, and not with a longer one.
fn begins_with(text: &[u8], name: &[u8]) -> bool {
    if !text.starts_with(name) {
        return false;
    }
    match text.get(name.len()) {
        Some(next) => !is_name_byte(*next),
        None => true,
    }
}

/// How far behind the start of an application its filter or test is named. That is behind the operand, and before the arguments,
/// which stand in brackets: so it is where the name stands last outside of brackets and quotes.
pub(crate) fn position_of_name(application: &str, name: &str) -> Option<usize> {
    let text = application.as_bytes();
    let mut inside = Nesting::start();
    let mut before = b' ';
    let mut found = None;
    for at in 0..text.len() {
        if inside.is_outside()
            && !is_name_byte(before)
            && begins_with(&text[at..], name.as_bytes())
        {
            found = Some(at);
        }
        before = text[at];
        inside = inside.after_byte(before);
    }
    found
}
