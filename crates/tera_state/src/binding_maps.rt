// Bindings that are many, those outside of all loops apart from those of turns.
ghost use Rattle.std.specs.Prelude.{◌≡◌, ◌↔◌, [], IsTrue, OnOk, OnErr, IfErr, option_copied};
ghost use Rattle.tera_errors.specs.Prelude.{Lacks};
ghost use Rattle.tera_values.specs.Prelude.{put_all};
ghost use Rattle.tera_state.specs.Bound.{value_in, with_binding, without, layer_of, AreAlike};
ghost use Rattle.tera_state.specs.BindingMap.{outside};

use crate::binding_map::BindingMap;
use crate::bindings::{Binding, Layer};
use crate::part::Part;
use std::alloc::{AllocError, Global};
use std::marker::Model;
use tera_values::{Context, NameRef, TeraResult, Value};

/// Bindings, each found by its name at once. What a rendering binds comes last in its map, and what ends stands at the end:
/// in one map a name that is set for all inside a loop would lie above what the loop's turns set.
#[derive(Drop)]
pub struct BindingMaps {
    // Of the layer 0 of each frame.
    bodies: BindingMap,
    // Of all other layers.
    turns: BindingMap,
}

impl Model for BindingMaps {
    ghost use Rattle.std.specs.Prelude.{List, ◌++◌};
    ghost use Rattle.std.specs.Coded.{codes};
    ghost use Rattle.tera_values.specs.Coding.{val_coding};
    ghost use Rattle.tera_state.specs.BindingMap.{AreApart};
    ghost use Rattle.tera_state.specs.declared.bindings.Binding.{Binding as Datum};

    ghost Value = { List Datum };

    ghost coded = { Prim.hlevel (codes, val_coding) };

    ghost view = { λ m. m.bodies ++ m.turns };

    ghost invariant = { λ m. AreApart m.bodies m.turns };
}

impl BindingMaps {
    /// No bindings. Takes no memory.
    pub fn new(alloc: Global) -> BindingMaps
        ensures { result ≡ [] }
    {
        BindingMaps {
            bodies: BindingMap::new(alloc),
            turns: BindingMap::new(alloc),
        }
    }

    /// Whether nothing is bound.
    #[inline(always)]
    pub fn is_empty(&self) -> bool
        ensures { IsTrue result ↔ (self.now ≡ []) }
    {
        let bodies = self.bodies.is_empty();
        let turns = self.turns.is_empty();
        bodies && turns
    }

    /// The value of the name in the layer.
    #[inline(always)]
    pub fn get(&self, frame: usize, layer: usize, name: &NameRef<'_>) -> Option<&Value>
        ensures { option_copied result ≡ value_in self.now frame layer name.now }
    {
        if layer == 0 {
            self.bodies.get(frame, layer, name)
        } else {
            self.turns.get(frame, layer, name)
        }
    }

    /// Puts the binding in place of an older one of its name, which takes no memory, or behind all of its map.
    #[inline(always)]
    pub fn put(&mut self, binding: Binding) -> Result<(), AllocError>
        ensures ok { OnOk result (AreAlike self.new
            (with_binding self.old binding.frame binding.layer binding.name binding.value)) }
        ensures err { OnErr result (self.new ≡ self.old) }
    {
        if binding.layer == 0 {
            self.bodies.put(binding)
        } else {
            self.turns.put(binding)
        }
    }

    /// Puts what a layer binds into the names.
    pub fn put_layer(&self, frame: usize, layer: usize, names: &mut Context) -> TeraResult<()>
        ensures ok { OnOk result (names.new ≡ put_all (layer_of self.now frame layer) names.old) }
        ensures lacks { IfErr result Lacks }
    {
        if layer == 0 {
            self.bodies.put_layer(frame, layer, names)
        } else {
            self.turns.put_layer(frame, layer, names)
        }
    }

    /// Takes out what a layer binds.
    #[inline(always)]
    pub fn clear_layer(&mut self, frame: usize, layer: usize)
        ensures { self.new ≡ without self.old frame layer }
    {
        if !self.is_empty() {
            self.clear_bound(frame, layer);
        }
    }

    // The same where something is bound. It stands by itself, so that a turn which binds nothing makes no `Part`.
    #[inline(never)]
    fn clear_bound(&mut self, frame: usize, layer: usize)
        ensures { self.new ≡ without self.old frame layer }
    {
        self.clear(Part::Layer(Layer { frame, layer }));
    }

    /// Takes out what the part binds.
    pub fn clear(&mut self, part: Part)
        ensures { self.new ≡ outside part self.old }
    {
        self.bodies.clear(part);
        self.turns.clear(part);
    }
}
