// A stack.
ghost use Rattle.std.specs.Prelude.{◌≡◌, ◌≢◌, ◌<◌, ◌≤◌, ◌^◌, ◌↔◌, [], ◌∷◌, IsTrue, length, reverse, take, drop, slice_get, MatchOption, IfOk, OnOk, OnErr, IfErr, None, Some};
ghost use Rattle.std.specs.Borrow.{sem};
ghost use Rattle.tera_errors.specs.Prelude.{Lacks};

use std::alloc::{AllocError, Global};
use std::marker::Model;
use tera_errors::TeraResult;

/// Values on top of one another. A contract sees the list of them, the topmost first.
#[derive(Drop)]
pub struct Stack<T> {
    items: Vec<T>,
}

impl<T> Model for Stack<T> {
    ghost use Rattle.std.specs.Prelude.{List, reverse};

    ghost Value = { List T };

    ghost view = { λ s. reverse s.items.items };
}

impl<T: Drop> Stack<T> {
    ghost use Rattle.tera_state.specs.Topmost.{LendsTop};

    /// An empty stack, which takes no memory.
    pub fn new(alloc: Global) -> Stack<T>
        ensures { result ≡ [] }
    {
        Stack {
            items: Vec::new(alloc),
        }
    }

    /// One more value on top.
    pub fn push(&mut self, value: T) -> Result<(), AllocError>
        ensures ok { OnOk result (self.new ≡ value ∷ self.old) }
        ensures err { OnErr result (self.new ≡ self.old) }
    {
        self.items.push(value)?;
        Ok(())
    }

    /// Takes the topmost value off.
    #[inline(always)]
    pub fn pop(&mut self) -> Option<T>
        ensures { MatchOption result
            ((self.old ≡ []) × (self.new ≡ []))
            (λ value. self.old ≡ value ∷ self.new) }
    {
        self.items.pop()
    }

    /// The topmost value, taken off, where it is known that there is one.
    #[inline(always)]
    pub fn pop_top(&mut self) -> T
        requires { self.old ≢ [] }
        ensures { self.old ≡ result ∷ self.new }
    {
        self.items.pop().unwrap()
    }

    /// The topmost value, where it is known that there is one.
    #[inline(always)]
    pub fn top(&self) -> &T
        requires { self.now ≢ [] }
        ensures { slice_get self.now 0 ≡ Some result.now }
    {
        self.items.last().unwrap()
    }

    /// The topmost value, to be changed where it lies, where it is known that there is one.
    #[inline(always)]
    pub fn top_mut(&mut self) -> &mut T
        requires { self.old ≢ [] }
        ensures* writes_back { sem 𝓛 (LendsTop T.row self.entry result) }
        ensures value { slice_get self.old 0 ≡ Some result.now }
    {
        self.items.last_mut().unwrap()
    }

    /// Whether there is no value.
    #[inline(always)]
    pub fn is_empty(&self) -> bool
        ensures { IsTrue result ↔ (self.now ≡ []) }
    {
        self.items.is_empty()
    }

    /// How many values there are.
    pub fn len(&self) -> usize
        ensures count { result ≡ length self.now }
        ensures small { result < 2 ^ 63 }
    {
        self.items.len()
    }

    /// The value with so many below it, where it is known that there is one.
    pub fn at_height(&self, height: usize) -> &T
        requires { height < length self.now }
        ensures { slice_get (reverse self.now) height ≡ Some result.now }
    {
        &self.items[height]
    }

    /// Takes so many off, in the order in which they were put there.
    #[inline(always)]
    pub fn pop_many(&mut self, count: usize) -> TeraResult<Vec<T>>
        requires { count ≤ length self.old }
        ensures taken { IfOk result (λ all. all.items ≡ reverse (take count self.old)) }
        ensures rest { OnOk result (self.new ≡ drop count self.old) }
        ensures err { OnErr result (self.new ≡ self.old) }
        ensures lacks { IfErr result Lacks }
    {
        let kept = self.items.len() - count;
        let taken = self.items.split_off(kept)?;
        Ok(taken)
    }
}
