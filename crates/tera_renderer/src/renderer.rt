// An engine, what waits for it, and what its last call made.
ghost use Rattle.std.specs.Prelude.{◌≡◌, ◌++◌, ◌∷◌, [], Ok};
ghost use Rattle.tera.specs.Prelude.{Gives};
ghost use Rattle.tera.specs.Registering.{new_registry_with};
ghost use Rattle.tera_renderer.specs.Calls.{Waits};
ghost use Rattle.tera_renderer.specs.Held.{fresh, held_by};
ghost use Rattle.tera_renderer.specs.Meanings.{DropsWaiting, PutsTemplate, PutsText};
ghost use Rattle.tera_renderer.specs.Outcomes.{all_names, copied, done, one_text, text_at, told};

use crate::answer::{Answer, answer_of, copy_text};
use crate::output::CallOutput;
use std::alloc::Global;
use tera::{Objects, TeraOver, TeraResult};
use tera_data::{Floats, text_of};

/// An engine, what waits for it, and what its last call made.
#[derive(Drop)]
pub struct Renderer<O> {
    pub(crate) alloc: Global,
    pub(crate) engine: TeraOver<O>,
    /// What becomes of numbers of the data that are no integers.
    pub(crate) floats: Floats,
    /// Templates that wait for `add`, as names and texts.
    pub(crate) batch: Vec<(String, String)>,
    /// Texts that wait for the next call that takes a list.
    pub(crate) list: Vec<String>,
    /// What the last call made, or why it made nothing.
    pub(crate) outcome: TeraResult<CallOutput>,
}

impl<O: Objects> Renderer<O> {
    /// An engine with these objects, for which nothing waits.
    pub fn new(alloc: Global, objects: O, floats: Floats) -> TeraResult<Renderer<O>>
        ensures { Gives (held_by O.engine) result
            (Ok (fresh (new_registry_with (O.engine objects)) floats)) }
    {
        Ok(Renderer {
            alloc,
            engine: TeraOver::with_objects(alloc, objects)?,
            floats,
            batch: Vec::new(alloc),
            list: Vec::new(alloc),
            outcome: Ok(CallOutput::Nothing),
        })
    }

    /// Lets a template wait for the next `add`.
    pub fn put_template(&mut self, name: &[u8], text: &[u8]) -> Answer
        ensures { PutsTemplate name.now text.now
            (held_by O.engine self.old) (held_by O.engine self.new) result }
    {
        let answer = self.push_template(name, text);
        self.leave_done(answer)
    }

    /// Lets a text wait for the next call that takes a list.
    pub fn put(&mut self, text: &[u8]) -> Answer
        ensures { PutsText text.now
            (held_by O.engine self.old) (held_by O.engine self.new) result }
    {
        let answer = self.push_text(text);
        self.leave_done(answer)
    }

    /// Lets nothing wait any more.
    pub fn drop_waiting(&mut self) -> Answer
        ensures { DropsWaiting (held_by O.engine self.old) (held_by O.engine self.new) result }
    {
        self.batch = Vec::new(self.alloc);
        self.list = Vec::new(self.alloc);
        self.leave_done(Ok(()))
    }

    fn push_template(&mut self, name: &[u8], text: &[u8]) -> TeraResult<()>
        ensures { Waits (name.now ∷ text.now ∷ [])
            (λ h. record h { batch = h.batch ++ (name.now, text.now) ∷ [] })
            (held_by O.engine self.old) (held_by O.engine self.new) result }
    {
        let name = String::from_str(self.alloc, text_of(self.alloc, name)?)?;
        let text = String::from_str(self.alloc, text_of(self.alloc, text)?)?;
        self.batch.push((name, text))?;
        Ok(())
    }

    fn push_text(&mut self, text: &[u8]) -> TeraResult<()>
        ensures { Waits (text.now ∷ []) (λ h. record h { list = h.list ++ text.now ∷ [] })
            (held_by O.engine self.old) (held_by O.engine self.new) result }
    {
        let text = String::from_str(self.alloc, text_of(self.alloc, text)?)?;
        self.list.push(text)?;
        Ok(())
    }

    /// Copies to the start of the room what the last call made: its text, or its name in this place.
    pub fn copy(&self, index: usize, room: &mut [u8]) -> Answer
        ensures { (result, room.new)
            ≡ copied (text_at (held_by O.engine self.now).outcome index) room.old }
    {
        match &self.outcome {
            Ok(output) => copy_text(output.text_at(index), room),
            Err(_) => copy_text(None, room),
        }
    }

    pub(crate) fn leave_done(&mut self, answer: TeraResult<()>) -> Answer
        ensures left { held_by O.engine self.new
            ≡ record (held_by O.engine self.old) { outcome = done answer } }
        ensures told { result ≡ told (done answer) }
    {
        self.outcome = match answer {
            Ok(()) => Ok(CallOutput::Nothing),
            Err(error) => Err(error),
        };
        answer_of(&self.outcome)
    }

    pub(crate) fn leave_text(&mut self, answer: TeraResult<String>) -> Answer
        ensures left { held_by O.engine self.new
            ≡ record (held_by O.engine self.old) { outcome = one_text answer } }
        ensures told { result ≡ told (one_text answer) }
    {
        self.outcome = match answer {
            Ok(text) => Ok(CallOutput::Text(text)),
            Err(error) => Err(error),
        };
        answer_of(&self.outcome)
    }

    pub(crate) fn leave_names(&mut self, answer: TeraResult<Vec<String>>) -> Answer
        ensures left { held_by O.engine self.new
            ≡ record (held_by O.engine self.old) { outcome = all_names answer } }
        ensures told { result ≡ told (all_names answer) }
    {
        self.outcome = match answer {
            Ok(names) => Ok(CallOutput::Names(names)),
            Err(error) => Err(error),
        };
        answer_of(&self.outcome)
    }
}
