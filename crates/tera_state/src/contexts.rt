// The contexts of a template, and what is known of their names.
ghost use Rattle.std.specs.Prelude.{◌≡◌, IfSome, option_copied};
ghost use Rattle.std.specs.Option.{option_or};
ghost use Rattle.tera_values.specs.Prelude.{at_name};
ghost use Rattle.tera_errors.specs.Prelude.{Gives};

use crate::context_ref::ContextRef;
use std::alloc::{AllocError, Global};
use std::marker::Model;
use tera_errors::alloc_result;
use tera_values::{Context, Name, NameRef, TeraResult, Value};

/// A context, and around it the global one. A name that was noted is found without a search, unless another one took its slot.
#[derive(Drop)]
pub struct Contexts<'c> {
    context: ContextRef<'c>,
    global: ContextRef<'c>,
    known: Vec<Option<CachedName<'c>>>,
}

/// A name, and what the contexts have for it.
#[derive(Drop)]
pub(crate) struct CachedName<'c> {
    pub(crate) name: Name,
    pub(crate) value: Option<&'c Value>,
}

impl<'c> Model for Contexts<'c> {
    ghost use Rattle.std.specs.List.{All};
    ghost use Rattle.std.specs.Coded.{coded×};
    ghost use Rattle.tera_values.specs.Named.{Named, named_code};
    ghost use Rattle.tera_values.specs.Val.{Val};
    ghost use Rattle.tera_values.specs.Coding.{val_coding};
    ghost use Rattle.tera_state.specs.Contexts.{IsCached};

    ghost Value = { Named Val × Named Val };

    ghost coded = { coded× (named_code val_coding) (named_code val_coding) };

    ghost view = { λ c. (c.context, c.global) };

    ghost invariant = { λ c. All (IsCached c.context c.global) c.known.items };
}

impl<'c> Contexts<'c> {
    /// Nothing is known of their names. Takes no memory.
    pub fn new(alloc: Global, context: ContextRef<'c>, global: ContextRef<'c>) -> Contexts<'c>
        ensures { result ≡ (context.entry, global.entry) }
    {
        Contexts {
            context,
            global,
            known: Vec::new(alloc),
        }
    }

    /// The names of the inner context. Takes no memory.
    pub fn context(&self) -> ContextRef<'c>
        ensures { result ≡ self.now.0 }
    {
        self.context.share()
    }

    /// A copy of the global context.
    pub fn global_context(&self, alloc: Global) -> TeraResult<Context>
        ensures { Gives (λ c. c) result (Ok self.now.1) }
    {
        self.global.to_context(alloc)
    }

    /// The value at a name. Takes no memory.
    #[inline(always)]
    pub fn get(&self, name: &NameRef<'_>) -> Option<&'c Value>
        ensures { option_copied result
            ≡ option_or (at_name name.now self.now.0) (at_name name.now self.now.1) }
    {
        match self.cached_name(name) {
            Some(known) => known.value,
            None => self.search(name),
        }
    }

    // What is known of the name, if its slot has it.
    #[inline(always)]
    fn cached_name(&self, name: &NameRef<'_>) -> Option<&CachedName<'c>>
        ensures { IfSome result (λ known. option_copied known.now.value
            ≡ option_or (at_name name.now self.now.0) (at_name name.now self.now.1)) }
    {
        match self.known.get(slot_of(name, self.known.len())) {
            Some(Some(known)) if name.is(&known.name) => Some(known),
            _ => None,
        }
    }

    // The same where nothing is known of the name.
    #[inline(never)]
    fn search(&self, name: &NameRef<'_>) -> Option<&'c Value>
        ensures { option_copied result
            ≡ option_or (at_name name.now self.now.0) (at_name name.now self.now.1) }
    {
        match self.context.get(name) {
            Some(value) => Some(value),
            None => self.global.get(name),
        }
    }

    /// Notes these names: of those that share a slot, the last that has a value.
    pub fn note_all(&mut self, names: &[Name]) -> Result<(), AllocError>
        ensures { self.new ≡ self.old }
    {
        if names.is_empty() {
            return Ok(());
        }
        self.make_slots(slots_for(names.len()))?;
        for name in names {
            self.note(name)?;
        }
        Ok(())
    }

    // Makes so many slots, unless they are made already.
    fn make_slots(&mut self, count: usize) -> Result<(), AllocError>
        ensures { self.new ≡ self.old }
    {
        if self.known.len() >= count {
            return Ok(());
        }
        self.known.reserve(count)?;
        while self.known.len() < count {
            self.known.push(None)?;
        }
        Ok(())
    }

    // Looks the name up, and keeps what is found. A name that has no value takes no other's slot.
    fn note(&mut self, name: &Name) -> Result<(), AllocError>
        ensures { self.new ≡ self.old }
    {
        let sought = name.as_name_ref();
        let slot = slot_of(&sought, self.known.len());
        if slot < self.known.len() && self.cached_name(&sought).is_none() {
            let value = self.search(&sought);
            if value.is_some() || self.known[slot].is_none() {
                let name = alloc_result(name.share())?;
                self.known[slot] = Some(CachedName { name, value });
            }
        }
        Ok(())
    }
}

// How many slots are made for so many names, so that few share one.
fn slots_for(names: usize) -> usize {
    if names <= 4 {
        8
    } else if names <= 16 {
        32
    } else {
        128
    }
}

// In which of so many slots the name is kept: by the low bits of its hash.
#[inline(always)]
fn slot_of(name: &NameRef<'_>, slots: usize) -> usize {
    name.hash() as usize & slots.wrapping_sub(1)
}
