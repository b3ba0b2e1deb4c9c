// An engine set up, with the templates of files.
ghost use Rattle.std.specs.Prelude.{◌≡◌, Ok, Result, Some, None};
ghost use Rattle.tera.specs.Prelude.{Gives, GivesOneOf, registry_of, pairs_of};
ghost use Rattle.tera.specs.Delimiters.{delimiters_of};
ghost use Rattle.tera_job.specs.Engines.{delimiters_given, tags_seen, prepared, AddsTo};

use std::alloc::Global;
use tera::{Delimiters, Objects, TeraOver, TeraResult};

/// What begins and ends the three kinds of tag.
#[derive(Clone, Copy, Debug)]
pub struct Tags<'a> {
    pub block_start: &'a str,
    pub block_end: &'a str,
    pub variable_start: &'a str,
    pub variable_end: &'a str,
    pub comment_start: &'a str,
    pub comment_end: &'a str,
}

/// How templates are read and found, and which of them escape.
#[derive(Clone, Copy, Debug)]
pub struct Settings<'a> {
    /// Templates whose names end with one of these escape.
    pub suffixes: &'a [&'a str],
    /// A name that no template has is looked for after each of these.
    pub prefixes: &'a [&'a str],
    /// Other delimiters than Tera's own.
    pub tags: Option<Tags<'a>>,
}

impl Settings<'_> {
    /// The delimiters that templates are read by.
    pub fn delimiters(&self, alloc: Global) -> TeraResult<Delimiters>
        ensures { Gives delimiters_of result (Ok (delimiters_given self.now)) }
    {
        match &self.tags {
            Some(tags) => tags.delimiters(alloc),
            None => Delimiters::standard(alloc),
        }
    }
}

impl Tags<'_> {
    fn delimiters(&self, alloc: Global) -> TeraResult<Delimiters>
        ensures { Gives delimiters_of result (Ok (tags_seen self.now)) }
    {
        Ok(Delimiters {
            block_start: String::from_str(alloc, self.block_start)?,
            block_end: String::from_str(alloc, self.block_end)?,
            variable_start: String::from_str(alloc, self.variable_start)?,
            variable_end: String::from_str(alloc, self.variable_end)?,
            comment_start: String::from_str(alloc, self.comment_start)?,
            comment_end: String::from_str(alloc, self.comment_end)?,
        })
    }
}

/// Sets the engine up, and adds these templates, given as names and texts; or tells why one of them, or all of them together, are
/// refused. After a refusal it may have some of the settings.
pub fn furnish<O: Objects>(
    alloc: Global,
    engine: &mut TeraOver<O>,
    settings: &Settings<'_>,
    templates: &[(&str, &str)],
) -> TeraResult<()>
    ensures { let r = registry_of O.engine in
        GivesOneOf (λ _. r engine.new) result
        (AddsTo (prepared settings.now (r engine.old)) (pairs_of templates.now)) }
{
    engine.set_delimiters(settings.delimiters(alloc)?)?;
    engine.set_fallback_prefixes(settings.prefixes)?;
    engine.autoescape_on(settings.suffixes)?;
    engine.add_raw_templates(templates)
}
