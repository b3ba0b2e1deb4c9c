// A JSON text that grows.
ghost use Rattle.std.specs.Prelude.{◌≡◌, ◌∷◌, [], Ok, string_bytes};
ghost use Rattle.json.specs.Print.{IsPrintable};
ghost use Rattle.json.specs.Reads.{token_of};
ghost use Rattle.tera_errors.specs.Prelude.{Gives};
ghost use Rattle.tera_filters.specs.Sheets.{page_of, empty_page, with_tokens, page_text};

use json::{Pretty, Token, Writer};
use std::alloc::Global;
use tera_values::TeraResult;

/// A JSON text without blanks, or with a line for each item and member.
#[derive(Drop)]
pub(crate) enum Sheet {
    Compact(Writer),
    Lines(Pretty),
}

impl Sheet {
    pub(crate) fn new(alloc: Global, is_pretty: bool) -> Sheet
        ensures { page_of result ≡ empty_page is_pretty }
    {
        if is_pretty {
            Sheet::Lines(Pretty::new(alloc))
        } else {
            Sheet::Compact(Writer::new(Vec::new(alloc)))
        }
    }

    /// Puts a token behind those that are there. Where a comma or a colon belongs to it, that is put too.
    pub(crate) fn put(&mut self, token: Token<'_>) -> TeraResult<()>
        requires { IsPrintable (token_of token) }
        ensures { Gives (λ _. page_of self.new) result
            (Ok (with_tokens (page_of self.old) (token_of token.entry ∷ []))) }
    {
        match self {
            Sheet::Compact(writer) => writer.token(token)?,
            Sheet::Lines(writer) => writer.token(token)?,
        }
        Ok(())
    }

    /// The text, of a sheet that began with nothing.
    pub(crate) fn into_text(self) -> String
        requires { (page_of self).before ≡ [] }
        ensures { string_bytes result ≡ page_text (page_of self) }
    {
        let bytes = match self {
            Sheet::Compact(writer) => writer.into_inner(),
            Sheet::Lines(writer) => writer.into_inner(),
        };
        match String::from_utf8(bytes) {
            Ok(text) => text,
            Err(_) => unreachable!(),
        }
    }
}
