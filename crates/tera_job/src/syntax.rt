// All texts that spell no tree.
ghost use Rattle.std.specs.Prelude.{IfErr, IfOk, IsTrue};
ghost use Rattle.std.specs.Option.{MatchOption};
ghost use Rattle.tera.specs.Answer.{Lacks, Says};
ghost use Rattle.tera.specs.Delimiters.{accepted, delimiters_of, validated};
ghost use Rattle.tera.specs.Prelude.{pairs_of};
ghost use Rattle.tera_job.specs.Engines.{delimiters_given};
ghost use Rattle.tera_job.specs.Unread.{AreUnread, IsRead, IsUnread};

use crate::engine::Settings;
use std::alloc::Global;
use tera::{Delimiters, Error, ErrorKind, Sources, TeraResult, parse};

// One text, for the report of its error.
#[derive(Clone, Copy)]
struct OneText<'a> {
    name: &'a str,
    text: &'a str,
}

impl Sources for OneText<'_> {
    fn source(&self, file: &str) -> Option<&str> {
        if file == self.name {
            Some(self.text)
        } else {
            None
        }
    }
}

/// The syntax error of each text that has one, in the order of the texts. An error of this function itself says that memory was
/// refused, or that the delimiters can't be used.
pub fn syntax_errors(
    alloc: Global,
    settings: &Settings<'_>,
    templates: &[(&str, &str)],
) -> TeraResult<Vec<Error>>
    ensures ok { IfOk result (λ es.
        AreUnread (delimiters_given settings.now) (pairs_of templates.now) es.items) }
    ensures err { IfErr result (λ e. Says e (validated (delimiters_given settings.now))) }
{
    let delimiters = settings.delimiters(alloc)?;
    delimiters.validate(alloc)?;
    errors_of(alloc, &delimiters, templates)
}

fn errors_of(
    alloc: Global,
    delimiters: &Delimiters,
    templates: &[(&str, &str)],
) -> TeraResult<Vec<Error>>
    requires { IsTrue (accepted (delimiters_of delimiters.now)) }
    ensures ok { IfOk result (λ es.
        AreUnread (delimiters_of delimiters.now) (pairs_of templates.now) es.items) }
    ensures lacks { IfErr result Lacks }
{
    let mut errors = Vec::new(alloc);
    for template in templates {
        if let Some(error) = error_of(alloc, delimiters, template.0, template.1)? {
            errors.push(error)?;
        }
    }
    Ok(errors)
}

fn error_of(
    alloc: Global,
    delimiters: &Delimiters,
    name: &str,
    text: &str,
) -> TeraResult<Option<Error>>
    requires { IsTrue (accepted (delimiters_of delimiters.now)) }
    ensures ok { let d = delimiters_of delimiters.now in
        IfOk result (λ found. MatchOption found (IsRead d (name.now, text.now))
        (IsUnread d (name.now, text.now))) }
    ensures lacks { IfErr result Lacks }
{
    let Err(error) = parse(alloc, name, text, delimiters) else {
        return Ok(None);
    };
    match error.kind() {
        ErrorKind::OutOfMemory => Err(error),
        _ => Ok(Some(error.with_texts(alloc, &OneText { name, text }))),
    }
}
