// What a rendering puts out, and what is captured of it.
ghost use Rattle.std.specs.Prelude.{◌≡◌, ◌≢◌, ◌++◌, ◌∷◌, [], Ok, OnOk, IfErr, string_bytes, drop, unwrap_or};
ghost use Rattle.tera_errors.specs.Prelude.{Gives, Lacks};
ghost use Rattle.tera_values.specs.Prelude.{text, undefined};
ghost use Rattle.tera_state.specs.Prelude.{found_value, rendered};
ghost use Rattle.tera_machine.specs.Layers.{around_layers, joined};

use std::alloc::{AllocError, Global};
use std::marker::Model;
use tera_state::{FoundValue, Objects, Stack};
use tera_values::{TeraResult, Value};

/// All that a rendering has written, in one piece. What is captured is the end of it, from where the capture began: a text
/// that joins the one around it stays where it is. A contract sees the innermost text, and those around it.
#[derive(Drop)]
pub struct RenderedText {
    all: String,
    // Where the innermost text begins.
    start: usize,
    // Where those around it begin.
    outer: Stack<usize>,
}

impl Model for RenderedText {
    ghost use Rattle.std.specs.Prelude.{string_bytes};
    ghost use Rattle.tera_machine.specs.Layers.{Layers, layers_at, AreStarts};

    ghost Value = { Layers };

    ghost view = { λ t. layers_at t.start t.outer (string_bytes t.all) };

    ghost invariant = { λ t. AreStarts t.start t.outer (string_bytes t.all) };
}

impl RenderedText {
    /// Nothing is written yet. What will be goes to the memory of this text, which is dropped; takes no memory.
    pub fn new(alloc: Global, mut memory: String) -> RenderedText
        ensures { result ≡ record { now = []; below = [] } }
    {
        memory.clear();
        RenderedText {
            all: memory,
            start: 0,
            outer: Stack::new(alloc),
        }
    }

    /// All that is written, which is moved and not copied.
    pub fn into_string(self) -> String
        requires { self.below ≡ [] }
        ensures { string_bytes result ≡ self.now }
    {
        let RenderedText {
            all,
            start: _,
            outer,
        } = self;
        drop(outer);
        all
    }

    /// The innermost text.
    pub fn text(&self) -> &str
        ensures { result.now ≡ self.now.now }
    {
        &self.all.as_str()[self.start..]
    }

    /// A copy of the innermost text as a value, safe or not.
    #[inline(never)]
    pub fn value(&self, alloc: Global, safe: bool) -> TeraResult<Value>
        ensures { Gives (λ v. v) result (Ok (text self.now.now safe)) }
    {
        if safe {
            Value::safe_string(alloc, self.text())
        } else {
            Value::string(alloc, self.text())
        }
    }

    /// This text at the end.
    #[inline(always)]
    pub fn append(&mut self, text: &str) -> Result<(), AllocError>
        ensures { OnOk result (self.new ≡ record self.old { now = self.old.now ++ text.now }) }
    {
        self.all.push_str(text)?;
        Ok(())
    }

    /// What the value is rendered as, at the end, by the escape of these objects.
    #[inline(always)]
    pub fn append_value<O: Objects>(
        &mut self,
        alloc: Global,
        objects: &O,
        autoescape: bool,
        value: &Value,
    ) -> Result<(), AllocError>
        ensures { OnOk result (self.new ≡ record self.old {
          now = self.old.now ++ rendered autoescape (O.engine objects.now).escape value.now;
        }) }
    {
        objects.write(alloc, autoescape, value, &mut self.all)
    }

    /// The same for what a name stands for.
    #[inline(never)]
    pub fn append_found<O: Objects>(
        &mut self,
        alloc: Global,
        objects: &O,
        autoescape: bool,
        found: FoundValue<'_>,
    ) -> TeraResult<()>
        ensures ok { OnOk result (self.new ≡ record self.old {
          now = self.old.now ++ rendered autoescape (O.engine objects.now).escape
              (unwrap_or (found_value found.entry) undefined);
        }) }
        ensures lacks { IfErr result Lacks }
    {
        let value = found.to_value(alloc)?;
        self.append_value(alloc, objects, autoescape, &value)?;
        Ok(())
    }

    /// A text of its own begins.
    #[inline(always)]
    pub fn begin(&mut self) -> Result<(), AllocError>
        ensures { OnOk result (self.new
            ≡ record { now = []; below = self.old.now ∷ self.old.below }) }
    {
        self.outer.push(self.start)?;
        self.start = self.all.len();
        Ok(())
    }

    /// The innermost text ends, and is dropped.
    pub fn end(&mut self)
        requires { self.old.below ≢ [] }
        ensures { self.old.below ≡ self.new.now ∷ self.new.below }
    {
        self.all.truncate(self.start);
        self.start = self.outer.pop_top();
    }

    /// The innermost text ends, and stays behind the one around it.
    pub fn join(&mut self)
        requires { self.old.below ≢ [] }
        ensures { self.new ≡ joined self.old }
    {
        let outer = self.outer.pop_top();
        self.start = outer;
    }

    /// The texts of so many layers are dropped.
    pub fn drop_captures(&mut self, count: usize)
        ensures { self.new ≡ record {
          now = around_layers count self.old.now self.old.below;
          below = drop count self.old.below;
        } }
    {
        if count == 0 {
            return;
        }
        match self.outer.pop() {
            Some(outer) => {
                self.all.truncate(self.start);
                self.start = outer;
                self.drop_captures(count - 1)
            }
            None => {}
        }
    }
}
