// The entries of a map, one after another.
ghost use Rattle.std.specs.Prelude.{◌≡◌};
ghost use Rattle.std.specs.Iterator.{YieldsFirstBy, item_count};
ghost use Rattle.tera_value_types.specs.View.{key_view};

use crate::key::Key;
use crate::value::{Entry, Map, Value};
use std::marker::Model;

/// The entries of a map that are still to come, in the order of insertion.
#[derive(Drop)]
pub struct MapEntries<'a> {
    left: &'a [Entry],
}

impl<'a> Model for MapEntries<'a> {
    ghost use Rattle.std.specs.Prelude.{List};
    ghost use Rattle.tera_value_types.specs.Val.{Val, KeyVal};
    ghost use Rattle.tera_value_types.specs.Coding.{entries_coding};

    ghost Value = { List (KeyVal × Val) };

    ghost coded = { entries_coding };

    ghost use Rattle.tera_value_types.specs.View.{entry_views};

    ghost view = { λ it. entry_views it.left.now };
}

impl<'a> Iterator for MapEntries<'a> {
    type Item = (&'a Key, &'a Value);

    ghost next_gives = { YieldsFirstBy (λ e. (key_view e.0.now, e.1.now)) (λ left. left) };

    ghost remaining = { item_count (λ left. left) };

    fn next(&mut self) -> Option<(&'a Key, &'a Value)> {
        let (first, later) = self.left.split_first()?;
        self.left = later;
        Some((&first.key, &first.value))
    }
}

impl Map {
    /// The entries, in the order of insertion. Takes no memory.
    pub fn iter(&self) -> MapEntries<'_>
        ensures { result ≡ self.now }
    {
        MapEntries {
            left: self.entries(),
        }
    }
}

impl<'a> IntoIterator for &'a Map {
    type Item = (&'a Key, &'a Value);

    type IntoIter = MapEntries<'a>;

    ghost into_iter_gives = { λ all it. it ≡ all.now };

    fn into_iter(self) -> MapEntries<'a> {
        self.iter()
    }
}
