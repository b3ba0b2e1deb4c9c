// Open loops.
ghost use Rattle.std.specs.Prelude.{◌≡◌, IfOk, IsOk, None, Some, drop, length, true, false};
ghost use Rattle.tera_errors.specs.Prelude.{Gives};
ghost use Rattle.tera_values.specs.Prelude.{plain, at_name, text_of};
ghost use Rattle.tera_state.specs.FoundValue.{found_value};
ghost use Rattle.tera_state.specs.Items.{items_in};
ghost use Rattle.tera_state.specs.Lending.{items_left};
ghost use Rattle.tera_state.specs.Scope.{loop_turns};
ghost use Rattle.tera_state.specs.Opened.{items_of, heading, names_at, items_over, turns_left, counters_of, GoesOn};

use crate::found_value::FoundValue;
use crate::items::{ForLoopIterator, key_at, loop_items, size_of, value_at};
use std::alloc::Global;
use tera_values::{Counter, Name, NameRef, TeraResult, Value};

/// An open loop, which stands at one of its items. Nothing of the item is copied: its names are positions in the items.
#[derive(Drop)]
pub struct ForLoop {
    pub name: Name,
    pub key: Option<Name>,
    pub counts: bool,
    /// An array, a map or bytes. A text is looped over as the array of its clusters.
    pub items: Value,
    pub index: usize,
}

/// A loop at its first turn, or none where there is no item to go over.
pub type LoopStart = TeraResult<Option<ForLoop>>;

impl ForLoop {
    /// A `for` loop at its first turn, or none where there is no item. Only a text takes memory, for its clusters.
    pub fn new(alloc: Global, name: Name, key: Option<Name>, target: Value) -> LoopStart
        ensures turns { Gives turns_left result (loop_turns (heading name key true) target) }
        ensures items { IfOk result (λ opened. items_in plain target ≡ Some (items_over opened)) }
        ensures ready { text_of target ≡ None → IsOk (loop_turns (heading name key true) target)
            → IsOk result }
    {
        ForLoop::begin(alloc, name, key, true, target)
    }

    /// The same for a comprehension, which doesn't count its turns.
    pub fn new_comprehension(
        alloc: Global,
        name: Name,
        key: Option<Name>,
        target: Value,
    ) -> LoopStart
        ensures turns { Gives turns_left result (loop_turns (heading name key false) target) }
        ensures items { IfOk result (λ opened. items_in plain target ≡ Some (items_over opened)) }
        ensures ready { text_of target ≡ None → IsOk (loop_turns (heading name key false) target)
            → IsOk result }
    {
        ForLoop::begin(alloc, name, key, false, target)
    }

    // The same, which counts or does not.
    #[tactic(auto, using(crate::proofs::Started::turns_need_items))]
    fn begin(alloc: Global, name: Name, key: Option<Name>, counts: bool, target: Value) -> LoopStart
        ensures turns { Gives turns_left result (loop_turns (heading name key counts) target) }
        ensures items { IfOk result (λ opened. items_in plain target ≡ Some (items_over opened)) }
        ensures ready { text_of target ≡ None → IsOk (loop_turns (heading name key counts) target)
            → IsOk result }
    {
        let items = loop_items(alloc, key.is_some(), target)?;
        if size_of(&items) == 0 {
            return Ok(None);
        }
        Ok(Some(ForLoop {
            name,
            key,
            counts,
            items,
            index: 0,
        }))
    }

    /// How many items there are in all.
    pub fn size(&self) -> usize
        ensures { result ≡ length (items_of self.now) }
    {
        size_of(&self.items)
    }

    /// The items from that of the turn on. Takes no memory.
    pub fn items(&self) -> ForLoopIterator<'_>
        ensures { items_left result ≡ drop self.now.index (items_of self.now) }
    {
        ForLoopIterator::new(&self.items, self.index)
    }

    /// The next turn, where there is one. Takes no memory.
    pub fn next(&mut self) -> bool
        ensures { GoesOn result self.old self.new }
    {
        let size = self.size();
        if self.index >= size || self.index + 1 >= size {
            return false;
        }
        self.index += 1;
        true
    }

    /// What the turn counts. Takes no memory.
    #[inline(always)]
    pub fn counter(&self, name: &NameRef<'_>) -> FoundValue<'_>
        ensures { found_value result ≡ at_name name.now (counters_of self.now) }
    {
        let Some(counter) = name.counter() else {
            return FoundValue::Unbound;
        };
        if !self.counts {
            return FoundValue::Unbound;
        }
        match counter {
            Counter::Index => FoundValue::Index1(self.index),
            Counter::Index0 => FoundValue::Number(self.index),
            Counter::First => FoundValue::Flag(self.index == 0),
            Counter::Last => FoundValue::Flag(self.index as i128 + 1 == self.size() as i128),
            Counter::Length => FoundValue::Number(self.size()),
        }
    }

    /// The value and the key of the turn, by their names. Takes no memory.
    #[inline(always)]
    pub fn loop_value(&self, name: &NameRef<'_>) -> FoundValue<'_>
        ensures { found_value result ≡ at_name name.now (names_at self.now) }
    {
        if name.is(&self.name) {
            return value_at(&self.items, self.index);
        }
        match &self.key {
            Some(key) => {
                if name.is(key) {
                    key_at(&self.items, self.index)
                } else {
                    FoundValue::Unbound
                }
            }
            None => FoundValue::Unbound,
        }
    }
}
