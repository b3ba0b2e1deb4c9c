// Words beside a kind of error that has none of its own: they lie in the place of a report, with that kind.
ghost use Rattle.std.specs.Prelude.{◌≡◌, Some, option_map, IfOk, IfErr, IsTrue};
ghost use Rattle.tera_errors.specs.Kind.{fault_of, is_bare};

use crate::error::ErrorKind;
use crate::report::{ReportError, Told};
use crate::span::Span;
use std::alloc::Global;

impl ReportError {
    /// Words for an error of another kind, or that kind again where they find no room.
    pub(crate) fn of_bare_kind(
        alloc: Global,
        kind: ErrorKind,
        words: String,
    ) -> Result<ReportError, ErrorKind>
        requires { IsTrue (is_bare kind) }
        ensures ok { IfOk result (λ r. r.beside ≡ Some (fault_of kind)) }
        ensures err { IfErr result (λ e. e ≡ kind) }
    {
        let told = Told {
            message: words,
            file: String::new(alloc),
            span: Span { start: 0, end: 0 },
            notes: Vec::new(alloc),
            stand_in: None,
            callers: Vec::new(alloc),
            further: 0,
            excerpt: None,
            beside: Some(kind),
        };
        match Box::new(alloc, told) {
            Ok(told) => Ok(ReportError { told }),
            Err(refused) => {
                let told = refused.value;
                match kind_in(told) {
                    Some(kind) => Err(kind),
                    None => Err(ErrorKind::OutOfMemory),
                }
            }
        }
    }

    /// The kind of error that the message is told of, where there is no fault at a position.
    pub(crate) fn bare_kind(&self) -> Option<&ErrorKind>
        ensures { option_map (λ kind. fault_of kind.now) result ≡ self.now.beside }
    {
        self.told.beside.as_ref()
    }

    /// The same in other words, where it is told of an error of another kind.
    pub(crate) fn with_words(self, words: String) -> ReportError
        ensures site { result.site ≡ self.site }
        ensures beside { result.beside ≡ self.beside }
    {
        let ReportError { mut told } = self;
        if told.beside.is_some() {
            told.message = words;
        }
        ReportError { told }
    }
}

// The kind that words were made for.
fn kind_in(told: Told) -> Option<ErrorKind>
    ensures { result ≡ told.beside }
{
    let Told {
        message: _,
        file: _,
        span: _,
        notes: _,
        stand_in: _,
        callers: _,
        further: _,
        excerpt: _,
        beside,
    } = told;
    beside
}
