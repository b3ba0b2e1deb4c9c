// The block whose text is wanted.
ghost use Rattle.std.specs.Prelude.{◌≡◌, [], ◌∷◌, None, Some, IsTrue, OnOk, IfOk, IfErr, string_bytes, unwrap_or};
ghost use Rattle.tera_errors.specs.Prelude.{Lacks};
ghost use Rattle.tera_machine.specs.WantedBlock.{is_wanted, noted_name, Noted, text_kept};

use std::alloc::Global;
use tera_values::{Name, TeraResult};

/// The name of the block that is wanted, where one is, and its text as it ended last. Of other blocks nothing is kept.
pub struct WantedBlock {
    pub name: Option<Name>,
    pub last: Option<String>,
    /// Whether a block that ends now may be the one: in a template that is included, and in a component, none is.
    pub notes: bool,
}

// By hand, so that what goes out of scope is one call.
impl Drop for WantedBlock {
    fn drop(self) {
        let WantedBlock {
            name,
            last,
            notes: _,
        } = self;
        drop(name);
        drop(last);
    }
}

impl WantedBlock {
    /// No block is wanted; takes no memory.
    pub fn of_none() -> WantedBlock
        ensures name { result.name ≡ None }
        ensures notes { IsTrue result.notes }
        ensures last { text_kept result ≡ None }
    {
        WantedBlock {
            name: None,
            last: None,
            notes: true,
        }
    }

    /// The block of this name is wanted.
    pub fn of_name(name: &Name) -> TeraResult<WantedBlock>
        ensures name { IfOk result (λ wanted. noted_name wanted ≡ Some name.now) }
        ensures last { IfOk result (λ wanted. text_kept wanted ≡ None) }
        ensures lacks { IfErr result Lacks }
    {
        Ok(WantedBlock {
            name: Some(name.share()?),
            last: None,
            notes: true,
        })
    }

    // Whether this block is wanted.
    fn wants(&self, name: &Name) -> bool
        ensures { result ≡ is_wanted (noted_name self.now) name.now }
    {
        if !self.notes {
            return false;
        }
        match &self.name {
            Some(wanted) => wanted.as_name_ref().is(name),
            None => false,
        }
    }

    /// A block ended with this text, which is copied where the block is wanted.
    pub fn note(&mut self, alloc: Global, name: &Name, text: &str) -> TeraResult<()>
        ensures ok { OnOk result (Noted self.old ((name.now, text.now) ∷ []) self.new) }
        ensures lacks { IfErr result Lacks }
    {
        if self.wants(name) {
            self.last = Some(String::from_str(alloc, text)?);
        }
        Ok(())
    }

    /// The text of the block as it ended last, or the empty text.
    pub fn into_text(self, alloc: Global) -> String
        ensures { string_bytes result ≡ unwrap_or (text_kept self) [] }
    {
        let WantedBlock {
            name,
            last,
            notes: _,
        } = self;
        drop(name);
        match last {
            Some(text) => text,
            None => String::new(alloc),
        }
    }
}
