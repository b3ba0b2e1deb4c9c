// What instructions lend from their chunk.
ghost use Rattle.std.specs.Prelude.{◌≡◌, None, Ok, IsOk, length};
ghost use Rattle.tera_errors.specs.Prelude.{Gives};

use std::marker::Model;
use tera_syntax_tree::OwnedKey;
use tera_values::{Name, TeraResult};

/// A piece of a template's text, or the name of an attribute. A contract sees its bytes.
#[derive(Drop)]
pub struct LentText<'a> {
    text: &'a str,
}

impl<'a> Model for LentText<'a> {
    ghost use Rattle.std.specs.Prelude.{ℕ, List};

    ghost Value = { List ℕ };

    ghost view = { λ c. c.text.now };
}

impl<'a> LentText<'a> {
    /// The text itself, which is not copied.
    pub fn new(text: &'a str) -> LentText<'a>
        ensures { result ≡ text.now }
    {
        LentText { text }
    }

    /// The text.
    pub fn as_str(&self) -> &'a str
        ensures { result.now ≡ self.now }
    {
        self.text
    }
}

/// A name that is bound: what binds it shares it. A contract sees the name's bytes.
#[derive(Drop)]
pub struct LentName<'a> {
    name: &'a Name,
}

impl<'a> Model for LentName<'a> {
    ghost use Rattle.std.specs.Prelude.{ℕ, List};

    ghost Value = { List ℕ };

    ghost view = { λ l. l.name.now };
}

impl<'a> LentName<'a> {
    /// The name itself, which is not copied.
    pub fn new(name: &'a Name) -> LentName<'a>
        ensures { result ≡ name.now }
    {
        LentName { name }
    }

    /// The name itself, where there is one.
    pub fn from_option(name: &'a Option<Name>) -> Option<LentName<'a>>
        ensures { result ≡ name.now }
    {
        match name {
            Some(name) => Some(LentName::new(name)),
            None => None,
        }
    }

    /// The name itself, which is not copied.
    pub fn as_name(&self) -> &'a Name
        ensures { result.now ≡ self.now }
    {
        self.name
    }

    /// The name once more: a count, and no copy of its text.
    pub fn share(&self) -> TeraResult<Name>
        ensures { Gives (λ n. n) result (Ok self.now) }
    {
        self.name.share()
    }

    /// The name once more, where there is one.
    pub fn share_option(name: &Option<LentName<'_>>) -> TeraResult<Option<Name>>
        ensures value { Gives (λ n. n) result (Ok name.now) }
        ensures ready { name.now ≡ None → IsOk result }
    {
        match name {
            Some(name) => Ok(Some(name.share()?)),
            None => Ok(None),
        }
    }
}

/// A list that lies in the chunk. A contract sees its items.
#[derive(Drop)]
pub struct LentSlice<'a, T> {
    items: &'a [T],
}

impl<'a, T> Model for LentSlice<'a, T> {
    ghost use Rattle.std.specs.Prelude.{List};

    ghost Value = { List T };

    ghost view = { λ l. l.items.now };
}

impl<'a, T> LentSlice<'a, T> {
    /// The list itself, which is not copied.
    pub fn new(items: &'a [T]) -> LentSlice<'a, T>
        ensures { result ≡ items.now }
    {
        LentSlice { items }
    }

    /// The items.
    pub fn as_slice(&self) -> &'a [T]
        ensures { result.now ≡ self.now }
    {
        self.items
    }
}

/// Which items of an array literal are spread, from left to right.
pub type Spreads<'a> = LentSlice<'a, bool>;

/// The names of the arguments of a call, in the order in which these are evaluated.
pub type Names<'a> = LentSlice<'a, Name>;

/// The keys of a map literal, from left to right; what has none is spread.
#[derive(Drop)]
pub struct Keys<'a> {
    keys: &'a [Option<OwnedKey>],
}

impl<'a> Model for Keys<'a> {
    ghost use Rattle.std.specs.Prelude.{List, Option};
    ghost use Rattle.tera_syntax_tree.specs.Tree.{Key};
    ghost use Rattle.tera_syntax_tree.specs.View.{keys_of};

    ghost Value = { List (Option Key) };

    ghost view = { λ k. keys_of k.keys.now };
}

impl<'a> Keys<'a> {
    ghost use Rattle.tera_syntax_tree.specs.View.{keys_of};

    /// A key, or none, for each entry.
    pub fn new(keys: &'a [Option<OwnedKey>]) -> Keys<'a>
        ensures { result ≡ keys_of keys.now }
    {
        Keys { keys }
    }

    /// The keys.
    #[tactic(auto, using(crate::proofs::Written::length_keys))]
    pub fn as_slice(&self) -> &'a [Option<OwnedKey>]
        ensures keys { keys_of result.now ≡ self.now }
        ensures len { length result.now ≡ length self.now }
    {
        self.keys
    }
}
