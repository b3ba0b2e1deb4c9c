// The entries of a context, one after another.
ghost use Rattle.std.specs.Prelude.{◌≡◌};
ghost use Rattle.std.specs.Iterator.{YieldsFirstBy, item_count};

use crate::name::Name;
use indexmap::map::Iter;
use std::marker::Model;
use tera_value_types::Value;

/// The names of a context that are still to come, each with its value.
#[derive(Drop)]
pub struct ContextEntries<'a> {
    left: Iter<'a, Name, Value>,
}

impl<'a> Model for ContextEntries<'a> {
    ghost use Rattle.tera_value_types.specs.Val.{Val};
    ghost use Rattle.tera_value_types.specs.Coding.{val_coding};
    ghost use Rattle.tera_values.specs.Named.{Named, named_code};

    ghost Value = { Named Val };

    ghost coded = { named_code val_coding };

    ghost view = { λ it. it.left };
}

impl<'a> ContextEntries<'a> {
    pub(crate) fn new(left: Iter<'a, Name, Value>) -> ContextEntries<'a>
        ensures { result ≡ left.entry }
    {
        ContextEntries { left }
    }
}

impl<'a> Iterator for ContextEntries<'a> {
    type Item = (&'a str, &'a Value);

    ghost next_gives = { YieldsFirstBy (λ e. (e.0.now, e.1.now)) (λ left. left) };

    ghost remaining = { item_count (λ left. left) };

    fn next(&mut self) -> Option<(&'a str, &'a Value)> {
        let (name, value) = self.left.next()?;
        Some((name.as_str(), value))
    }
}
