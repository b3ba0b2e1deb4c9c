// What is open and has a number, so that one need not go over it to ask whether a number is among it.
ghost use Rattle.std.specs.Prelude.{◌≡◌, ◌<◌, ◌≤◌, ℕ, true, false, length, OnOk, OnErr};
ghost use Rattle.tera_machine.specs.OpenThings.{has_number, nothing, one_more, one_fewer, begun, ended_at, few, height_of, mark_at, things_of, IsMarked};

use indexmap::IndexMap;
use std::alloc::{AllocError, Global};
use std::marker::Model;
use std::mem::replace;
use tera_state::Stack;

/// A thing that has a number.
pub trait Numbered: Drop {
    // That number.
    ghost number_of: { Self → ℕ };

    /// That number.
    fn number(&self) -> usize
        ensures { result ≡ number_of self.now };
}

/// So many of those that lie lowest are gone over, which is as fast as a map and takes no memory.
const FEW: usize = 8;

/// A thing that is open, with the mark that its number had before.
#[derive(Drop)]
struct Marked<T> {
    thing: T,
    before: usize,
}

/// Things that are open, each inside the one beneath it. Some of them may be set apart by a start: what lies lower is open
/// around the others, and is not asked for until these have ended.
///
/// A contract sees those inside and those around, the topmost first. The mark of a number is the height at which the topmost
/// thing of that number lies, 1 for the lowest, where that is above the few lowest, and else 0. So it is asked in constant time
/// whether a number is among those inside. Only marks that are not 0 take memory, and they do once, however many starts there are.
#[derive(Drop)]
pub struct OpenThings<T: Numbered> {
    things: Stack<Marked<T>>,
    marks: IndexMap<usize, usize>,
    start: usize,
}

impl<T: Numbered> Model for OpenThings<T> {
    ghost use Rattle.tera_machine.specs.OpenThings.{Nested, AreMarked, parted, things_of};

    ghost Value = { Nested T };

    ghost view = { λ o. parted o.start (things_of o.things) };

    ghost invariant = { λ o. AreMarked T.number_of o.start o.things o.marks.entries };
}

/// Whether a thing of this number lies above the start and is one of the few lowest.
fn is_low<T: Numbered>(things: &Stack<Marked<T>>, start: usize, number: usize) -> bool
    ensures there { result ≡ true
        → start < height_of T.number_of number (things_of things.now) }
    ensures not_there { result ≡ false
        → height_of T.number_of number (things_of things.now) ≤ few
        → height_of T.number_of number (things_of things.now) ≤ start }
{
    for height in start..things.len().min(FEW) {
        if things.at_height(height).thing.number() == number {
            return true;
        }
    }
    false
}

/// The mark of a number.
fn mark(marks: &IndexMap<usize, usize>, number: usize) -> usize
    ensures { result ≡ mark_at marks.now.entries number }
{
    match marks.get(&number) {
        Some(mark) => *mark,
        None => 0,
    }
}

/// Gives a number that has a mark the one that it had before.
fn mark_again(marks: &mut IndexMap<usize, usize>, number: usize, before: usize)
    requires { 0 < mark_at marks.old.entries number }
    ensures { IsMarked number before marks.old.entries marks.new.entries }
{
    if before == 0 {
        let mark = marks.swap_remove(&number);
        drop(mark);
    } else if let Some(mark) = marks.get_mut(&number) {
        *mark = before;
    }
}

impl<T: Numbered> OpenThings<T> {
    /// Nothing is open; takes no memory.
    pub fn new(alloc: Global) -> OpenThings<T>
        ensures { result ≡ nothing }
    {
        OpenThings {
            things: Stack::new(alloc),
            marks: IndexMap::new(alloc),
            start: 0,
        }
    }

    /// Whether one of those inside has this number.
    pub fn has(&self, number: usize) -> bool
        ensures { result ≡ has_number T.number_of number self.now.inner }
    {
        if is_low(&self.things, self.start, number) {
            return true;
        }
        self.things.len() > FEW && mark(&self.marks, number) > self.start
    }

    /// One more is open, inside the others.
    pub fn push(&mut self, thing: T) -> Result<(), AllocError>
        ensures ok { OnOk result (self.new ≡ one_more thing self.old) }
        ensures err { OnErr result (self.new ≡ self.old) }
    {
        if self.things.len() < FEW {
            self.things.push(Marked { thing, before: 0 })?;
            return Ok(());
        }
        let number = thing.number();
        let before = mark(&self.marks, number);
        self.things.push(Marked { thing, before })?;
        match self.marks.insert(number, self.things.len()) {
            Ok(_) => Ok(()),
            Err(_) => {
                drop(self.things.pop_top());
                Err(AllocError)
            }
        }
    }

    /// The innermost ends, if one is inside. What is around stays.
    pub fn pop(&mut self)
        ensures { self.new ≡ one_fewer self.old }
    {
        let height = self.things.len();
        if height > self.start {
            let Marked { thing, before } = self.things.pop_top();
            if height > FEW {
                mark_again(&mut self.marks, thing.number(), before);
            }
        }
    }

    /// From here on all that is open lies around, and nothing inside. Hands out the start of before.
    pub fn begin(&mut self) -> usize
        ensures begins { self.new ≡ begun self.old }
        ensures start { result ≡ length self.old.around }
    {
        let start = self.things.len();
        replace(&mut self.start, start)
    }

    /// What began is over: all that lies above this start is inside again.
    pub fn end(&mut self, start: usize)
        ensures { self.new ≡ ended_at start self.old }
    {
        self.start = start.min(self.things.len());
    }
}
