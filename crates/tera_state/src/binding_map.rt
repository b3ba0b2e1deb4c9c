// Bindings that are many, each found by its name.
ghost use Rattle.std.specs.Prelude.{◌≡◌, ◌↔◌, ◌<◌, ◌++◌, ◌∷◌, [], Some, None, length, IsTrue, IsSome, OnOk, OnErr, IfErr, option_copied};
ghost use Rattle.std.specs.BTreeMap.{IsUnchanged, Updates};
ghost use Rattle.std.specs.Option.{option_to_list};
ghost use Rattle.tera_errors.specs.Prelude.{Lacks};
ghost use Rattle.tera_values.specs.Prelude.{put_all};
ghost use Rattle.tera_state.specs.Bound.{value_in, with_binding, position_from, layer_of};
ghost use Rattle.tera_state.specs.BindingMap.{outside, layer_at, last_layer, goes_on, ends_before, ends_in};
ghost use Rattle.tera_state.specs.LayerNames.{key, layer_name_cmp};

use crate::bindings::{Binding, Layer, is_beyond, position, put_layer};
use crate::layer_name::{LayerName, SoughtLayerName};
use crate::part::Part;
use std::alloc::{AllocError, Global};
use std::collections::BTreeMap;
use std::marker::Model;
use tera_values::{Context, NameRef, TeraResult, Value};

/// Bindings in their order, each found by its name at once, whatever names there are.
#[derive(Drop)]
pub struct BindingMap {
    items: Vec<Binding>,
    // Where each of the items stands.
    places: BTreeMap<LayerName, usize>,
    // Up where no binding comes before the one before it, and `places` tells of each. Then what a layer binds stands at the
    // end, if no later layer binds anything, and what is left when it is taken out stands where it stood.
    is_ordered: bool,
}

impl Model for BindingMap {
    ghost use Rattle.std.specs.Prelude.{◌≡◌, List, true};
    ghost use Rattle.std.specs.Coded.{codes};
    ghost use Rattle.tera_values.specs.Coding.{val_coding};
    ghost use Rattle.tera_state.specs.BindingMap.{IsOrdered};
    ghost use Rattle.tera_state.specs.declared.bindings.Binding.{Binding as Datum};

    ghost Value = { List Datum };

    ghost coded = { Prim.hlevel (codes, val_coding) };

    ghost view = { λ m. m.items.items };

    ghost invariant = { λ m. m.is_ordered ≡ true → IsOrdered m.items.items m.places };
}

impl BindingMap {
    /// No bindings. Takes no memory.
    pub fn new(alloc: Global) -> BindingMap
        ensures { result ≡ [] }
    {
        BindingMap {
            items: Vec::new(alloc),
            places: BTreeMap::new(alloc),
            is_ordered: true,
        }
    }

    /// Whether nothing is bound.
    #[inline(always)]
    pub fn is_empty(&self) -> bool
        ensures { IsTrue result ↔ (self.now ≡ []) }
    {
        self.items.is_empty()
    }

    /// The value of the name in the layer.
    #[inline(always)]
    pub fn get(&self, frame: usize, layer: usize, name: &NameRef<'_>) -> Option<&Value>
        ensures { option_copied result ≡ value_in self.now frame layer name.now }
    {
        if self.is_empty() {
            return None;
        }
        self.search(frame, layer, name)
    }

    // The same where something is bound.
    #[inline(never)]
    fn search(&self, frame: usize, layer: usize, name: &NameRef<'_>) -> Option<&Value>
        ensures { option_copied result ≡ value_in self.now frame layer name.now }
    {
        match self.position(frame, layer, name) {
            Some(at) => Some(&self.items[at].value),
            None => None,
        }
    }

    // Where the name in the layer stands.
    fn position(&self, frame: usize, layer: usize, name: &NameRef<'_>) -> Option<usize>
        ensures { result ≡ position_from 0 self.now frame layer name.now }
    {
        if !self.is_ordered {
            return position(self.items.as_slice(), frame, layer, name);
        }
        match self.places.get(SoughtLayerName { frame, layer, name }) {
            Some(at) => Some(*at),
            None => None,
        }
    }

    /// Puts the binding in place of an older one of its name, which takes no memory, or behind all.
    #[inline(never)]
    pub fn put(&mut self, binding: Binding) -> Result<(), AllocError>
        ensures ok { OnOk result (self.new
            ≡ with_binding self.old binding.frame binding.layer binding.name binding.value) }
        ensures err { OnErr result (self.new ≡ self.old) }
    {
        let Binding {
            frame,
            layer,
            name,
            value,
        } = binding;
        match self.position(frame, layer, &name.as_name_ref()) {
            Some(at) => self.items[at].value = value,
            None => self.push(Binding {
                frame,
                layer,
                name,
                value,
            })?,
        }
        Ok(())
    }

    // Puts a binding whose name is none of the names behind all.
    fn push(&mut self, binding: Binding) -> Result<(), AllocError>
        requires { position_from 0 self.old binding.frame binding.layer binding.name ≡ None }
        ensures ok { OnOk result (self.new ≡ self.old ++ binding ∷ []) }
        ensures err { OnErr result (self.new ≡ self.old) }
    {
        let next = Layer {
            frame: binding.frame,
            layer: binding.layer,
        };
        if goes_on(self.items.as_slice(), self.is_ordered, next) {
            return place(&mut self.items, &mut self.places, binding);
        }
        self.items.push(binding)?;
        self.is_ordered = false;
        Ok(())
    }

    /// Puts what a layer binds into the names.
    pub fn put_layer(&self, frame: usize, layer: usize, names: &mut Context) -> TeraResult<()>
        ensures ok { OnOk result (names.new ≡ put_all (layer_of self.now frame layer) names.old) }
        ensures lacks { IfErr result Lacks }
    {
        put_layer(self.items.as_slice(), frame, layer, names)
    }

    /// Takes out what the part binds.
    #[inline(always)]
    pub fn clear(&mut self, part: Part)
        ensures { self.new ≡ outside part self.old }
    {
        if !self.is_empty() {
            self.clear_bound(part);
        }
    }

    // The same where something is bound. Mostly what the part binds stands at the end.
    #[inline(never)]
    fn clear_bound(&mut self, part: Part)
        ensures { self.new ≡ outside part self.old }
    {
        while ends_in(self.items.as_slice(), part) {
            let last = self.pop();
            drop(last);
        }
        if !ends_before(self.items.as_slice(), self.is_ordered, part) {
            self.items
                .retain(|b: &Binding| part.is_outside(layer_at(b)));
            self.is_ordered = false;
        }
        if self.items.is_empty() {
            self.places.clear();
            self.is_ordered = true;
        }
    }

    // Takes out the last binding.
    fn pop(&mut self) -> Option<Binding>
        ensures items { self.old ≡ self.new ++ option_to_list result }
        ensures variant { IsSome result ↔ (0 < length self.old) }
    {
        let last = self.items.pop();
        if let Some(b) = &last {
            self.places.remove(SoughtLayerName {
                frame: b.frame,
                layer: b.layer,
                name: &b.name.as_name_ref(),
            });
        }
        last
    }
}

// Puts a binding behind all, with its place. Where the memory for either is refused, both are as before.
fn place(
    items: &mut Vec<Binding>,
    places: &mut BTreeMap<LayerName, usize>,
    binding: Binding,
) -> Result<(), AllocError>
    ensures items { OnOk result (items.new.items ≡ items.old.items ++ binding ∷ []) }
    ensures places { OnOk result (Updates layer_name_cmp places.old places.new
        (key binding.frame binding.layer binding.name) (Some (length items.old.items))) }
    ensures err_items { OnErr result (items.new.items ≡ items.old.items) }
    ensures err_places { OnErr result (IsUnchanged places.old places.new) }
{
    let Ok(name) = binding.name.share() else {
        return Err(AllocError);
    };
    let key = LayerName {
        frame: binding.frame,
        layer: binding.layer,
        name,
    };
    let at = items.len();
    items.push(binding)?;
    match places.insert(key, at) {
        Ok(_) => Ok(()),
        Err(_) => {
            let last = items.pop();
            drop(last);
            Err(AllocError)
        }
    }
}

// The layer of a binding.
fn layer_at(binding: &Binding) -> Layer
    ensures { result ≡ layer_at binding.now }
{
    Layer {
        frame: binding.frame,
        layer: binding.layer,
    }
}

// The layer of the last binding.
fn last_layer(items: &[Binding]) -> Option<Layer>
    ensures { result ≡ last_layer items.now }
{
    match items.last() {
        Some(b) => Some(layer_at(b)),
        None => None,
    }
}

// Whether the bindings are known to be in order, and go on so with one of this layer behind them.
fn goes_on(items: &[Binding], is_ordered: bool, next: Layer) -> bool
    ensures { result ≡ goes_on is_ordered (last_layer items.now) next.frame next.layer }
{
    match last_layer(items) {
        Some(last) => is_ordered && !is_beyond(last.frame, last.layer, next),
        None => is_ordered,
    }
}

// Whether all bindings are known to come before the part.
fn ends_before(items: &[Binding], is_ordered: bool, part: Part) -> bool
    ensures { result ≡ ends_before is_ordered part (last_layer items.now) }
{
    match last_layer(items) {
        Some(last) => is_ordered && part.is_after(last),
        None => true,
    }
}

// Whether the last binding is one of the part.
fn ends_in(items: &[Binding], part: Part) -> bool
    ensures { result ≡ ends_in part (last_layer items.now) }
{
    match last_layer(items) {
        Some(last) => !part.is_outside(last),
        None => false,
    }
}
