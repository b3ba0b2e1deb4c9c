// What a binding is found by where there are many.
ghost use Rattle.std.specs.Prelude.{◌≡◌};
ghost use Rattle.std.specs.BTreeMap.Comparable.{le_lt_trans};
ghost use Rattle.tera_state.specs.LayerNames.{key, layer_name_cmp, layer_names_total};

use std::cmp::Ordering;
use std::collections::btree_map::Comparable;
use tera_values::{Name, NameRef};

/// A name in a layer of a frame. They stand by frame, by layer and then in byte order of their names.
#[derive(Drop, PartialEq, Eq, PartialOrd, Ord)]
pub struct LayerName {
    pub frame: usize,
    pub layer: usize,
    pub name: Name,
}

/// The same for a name that is looked for, whose text lies elsewhere. Takes no memory.
#[derive(Clone, Copy)]
pub struct SoughtLayerName<'s, 'a> {
    pub frame: usize,
    pub layer: usize,
    pub name: &'s NameRef<'a>,
}

impl<'s, 'a> Comparable<LayerName> for SoughtLayerName<'s, 'a> {
    ghost compare = { λ q. layer_name_cmp (key q.frame q.layer q.name.now) };

    ghost respects_cmp = { λ q. layer_names_total.congr (key q.frame q.layer q.name.now) };

    ghost below_greater = { λ q. le_lt_trans layer_names_total (key q.frame q.layer q.name.now) };

    fn compare(&self, key: &LayerName) -> Ordering {
        match self.frame.cmp(&key.frame) {
            Ordering::Equal => match self.layer.cmp(&key.layer) {
                Ordering::Equal => self.name.as_str().cmp(key.name.as_str()),
                layers => layers,
            },
            frames => frames,
        }
    }
}
