// What a renderer's engine is told before and between renderings.
ghost use Rattle.std.specs.Prelude.{◌≡◌, ◌∷◌, [], IfErr, IfOk, IsSome, IsUtf8, Ok, map, string_bytes};
ghost use Rattle.tera.specs.Prelude.{Adds, pairs_of, texts_of};
ghost use Rattle.tera.specs.Answer.{Tells};
ghost use Rattle.tera.specs.Delimiters.{delimiters_of};
ghost use Rattle.tera.specs.Fault.{message};
ghost use Rattle.tera.specs.Configuring.{with_delimiters, with_prefixes, with_suffixes};
ghost use Rattle.tera_renderer.specs.Calls.{AreTexts, Changes};
ghost use Rattle.tera_renderer.specs.Held.{delimiters_in, held_by};
ghost use Rattle.tera_renderer.specs.Meanings.{AddsBatch, PutsGlobals, SetsDelimiters, SetsPrefixes, SetsSuffixes, parts_of, with_globals};

use crate::answer::Answer;
use crate::renderer::Renderer;
use std::alloc::{AllocError, Global};
use tera::{Delimiters, Objects, TeraResult};
use tera_data::{put_json, text_of};

/// What begins and ends the three kinds of tag, in bytes.
#[derive(Clone, Copy)]
pub struct TagBytes<'a> {
    pub block_start: &'a [u8],
    pub block_end: &'a [u8],
    pub variable_start: &'a [u8],
    pub variable_end: &'a [u8],
    pub comment_start: &'a [u8],
    pub comment_end: &'a [u8],
}

impl<O: Objects> Renderer<O> {
    /// Adds the templates that wait, all or none. Then none waits.
    pub fn add(&mut self) -> Answer
        ensures { AddsBatch
            (held_by O.engine self.old) (held_by O.engine self.new) result }
    {
        let answer = self.add_batch();
        self.leave_done(answer)
    }

    /// Templates escape whose names end with one of the texts that wait. Then none waits.
    pub fn autoescape_on(&mut self) -> Answer
        ensures { SetsSuffixes
            (held_by O.engine self.old) (held_by O.engine self.new) result }
    {
        let answer = self.take_suffixes();
        self.leave_done(answer)
    }

    /// A name that no template has is looked for behind each of the texts that wait. Then none waits.
    pub fn set_fallback_prefixes(&mut self) -> Answer
        ensures { SetsPrefixes
            (held_by O.engine self.old) (held_by O.engine self.new) result }
    {
        let answer = self.take_prefixes();
        self.leave_done(answer)
    }

    /// Tags are told from text by these delimiters.
    pub fn set_delimiters(&mut self, tags: TagBytes<'_>) -> Answer
        ensures { SetsDelimiters (delimiters_in tags.entry)
            (held_by O.engine self.old) (held_by O.engine self.new) result }
    {
        let answer = self.take_tags(tags);
        self.leave_done(answer)
    }

    /// Puts the members of an object of JSON over the global context, name by name, all of them or none.
    pub fn put_globals(&mut self, json: &[u8]) -> Answer
        ensures { PutsGlobals json.now
            (held_by O.engine self.old) (held_by O.engine self.new) result }
    {
        let answer = self.take_globals(json);
        self.leave_done(answer)
    }

    fn add_batch(&mut self) -> TeraResult<()>
        ensures { let old = held_by O.engine self.old in
            Changes [] (Adds old.registry old.batch) (λ h. record h { batch = [] })
            old (held_by O.engine self.new) result }
    {
        let batch = std::mem::replace(&mut self.batch, Vec::new(self.alloc));
        let pairs = lend_pairs(self.alloc, batch.as_slice())?;
        self.engine.add_raw_templates(pairs.as_slice())
    }

    fn take_suffixes(&mut self) -> TeraResult<()>
        ensures { let old = held_by O.engine self.old in
            Changes [] (λ r. Ok (with_suffixes old.list old.registry) ≡ r)
            (λ h. record h { list = [] }) old (held_by O.engine self.new) result }
    {
        let list = std::mem::replace(&mut self.list, Vec::new(self.alloc));
        let texts = lend_texts(self.alloc, list.as_slice())?;
        self.engine.autoescape_on(texts.as_slice())
    }

    fn take_prefixes(&mut self) -> TeraResult<()>
        ensures { let old = held_by O.engine self.old in
            Changes [] (λ r. with_prefixes old.list old.registry ≡ r)
            (λ h. record h { list = [] }) old (held_by O.engine self.new) result }
    {
        let list = std::mem::replace(&mut self.list, Vec::new(self.alloc));
        let texts = lend_texts(self.alloc, list.as_slice())?;
        self.engine.set_fallback_prefixes(texts.as_slice())
    }

    fn take_tags(&mut self, tags: TagBytes<'_>) -> TeraResult<()>
        ensures { let old = held_by O.engine self.old in let d = delimiters_in tags.entry in
            Changes (parts_of d) (λ r. with_delimiters d old.registry ≡ r) (λ h. h)
            old (held_by O.engine self.new) result }
    {
        let delimiters = tags.delimiters(self.alloc)?;
        self.engine.set_delimiters(delimiters)
    }

    fn take_globals(&mut self, json: &[u8]) -> TeraResult<()>
        ensures { let old = held_by O.engine self.old in
            Changes (json.now ∷ []) (λ r. with_globals old.floats json.now old.registry ≡ r)
            (λ h. h) old (held_by O.engine self.new) result }
    {
        let json = text_of(self.alloc, json)?;
        put_json(self.engine.global_context(), json, self.floats)
    }
}

impl TagBytes<'_> {
    fn delimiters(&self, alloc: Global) -> TeraResult<Delimiters>
        ensures ok { IfOk result (λ d. (delimiters_of d ≡ delimiters_in self.now)
            × AreTexts (parts_of (delimiters_in self.now))) }
        ensures told { IfErr result (λ e. Tells e message
            × (IsSome e → ¬ AreTexts (parts_of (delimiters_in self.now)))) }
    {
        Ok(Delimiters {
            block_start: owned_text(alloc, self.block_start)?,
            block_end: owned_text(alloc, self.block_end)?,
            variable_start: owned_text(alloc, self.variable_start)?,
            variable_end: owned_text(alloc, self.variable_end)?,
            comment_start: owned_text(alloc, self.comment_start)?,
            comment_end: owned_text(alloc, self.comment_end)?,
        })
    }
}

fn owned_text(alloc: Global, bytes: &[u8]) -> TeraResult<String>
    ensures ok { IfOk result (λ text. (string_bytes text ≡ bytes.now) × IsUtf8 bytes.now) }
    ensures told { IfErr result (λ e. Tells e message × (IsSome e → ¬ IsUtf8 bytes.now)) }
{
    let text = text_of(alloc, bytes)?;
    Ok(String::from_str(alloc, text)?)
}

fn lend_pairs(alloc: Global, pairs: &[(String, String)]) -> Result<Vec<(&str, &str)>, AllocError>
    ensures { IfOk result (λ lent. pairs_of lent.items
        ≡ map (λ p. (string_bytes p.0, string_bytes p.1)) pairs.now) }
{
    let mut lent = Vec::with_capacity(alloc, pairs.len())?;
    for (name, text) in pairs.iter() {
        lent.push((name.as_str(), text.as_str()))?;
    }
    Ok(lent)
}

fn lend_texts(alloc: Global, texts: &[String]) -> Result<Vec<&str>, AllocError>
    ensures { IfOk result (λ lent. texts_of lent.items ≡ map string_bytes texts.now) }
{
    let mut lent = Vec::with_capacity(alloc, texts.len())?;
    for text in texts {
        lent.push(text.as_str())?;
    }
    Ok(lent)
}
