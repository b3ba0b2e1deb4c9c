// All names that a rendering has set, to contracts one list.
ghost use Rattle.std.specs.Prelude.{◌≡◌, ◌↔◌, [], ◌++◌, None, IsTrue, OnOk, OnErr, IfErr, option_copied};
ghost use Rattle.tera_errors.specs.Prelude.{Lacks};
ghost use Rattle.tera_values.specs.Prelude.{put_all};
ghost use Rattle.tera_state.specs.Bound.{value_in, with_binding, without, without_frame, position_from, layer_of, is_beyond, end_with, end_without, AreAlike};

use crate::binding_maps::BindingMaps;
use crate::part::Part;
use std::alloc::{AllocError, Global};
use std::marker::Model;
use tera_values::{Context, Name, NameRef, TeraResult, Value};

/// A name with its value, in a layer of a frame.
#[derive(Drop)]
pub struct Binding {
    pub frame: usize,
    pub layer: usize,
    pub name: Name,
    pub value: Value,
}

/// The bindings of all frames: a few in a list, and all others in maps. None stands beyond the end that is kept, so that an
/// empty turn is known to bind nothing without a search.
#[derive(Drop)]
pub struct Bindings {
    few: Vec<Binding>,
    others: BindingMaps,
    end: Layer,
}

// How many bindings the list takes: so many are searched as fast as a map is.
const FEW: usize = 8;

/// A layer of a frame.
#[derive(Clone, Copy)]
pub(crate) struct Layer {
    pub(crate) frame: usize,
    pub(crate) layer: usize,
}

impl Model for Bindings {
    ghost use Rattle.std.specs.Prelude.{List, ◌++◌};
    ghost use Rattle.std.specs.Coded.{codes};
    ghost use Rattle.tera_values.specs.Coding.{val_coding};
    ghost use Rattle.tera_state.specs.Bound.{EndsBy};
    ghost use Rattle.tera_state.specs.declared.bindings.Binding.{Binding as Datum};

    ghost Value = { List Datum };

    ghost coded = { Prim.hlevel (codes, val_coding) };

    ghost view = { λ b. b.few.items ++ b.others };

    ghost invariant = { λ b. EndsBy (b.few.items ++ b.others) b.end.frame b.end.layer };
}

impl Bindings {
    /// No bindings. Takes no memory.
    pub fn new(alloc: Global) -> Bindings
        ensures { result ≡ [] }
    {
        Bindings {
            few: Vec::new(alloc),
            others: BindingMaps::new(alloc),
            end: Layer { frame: 0, layer: 0 },
        }
    }

    /// Whether nothing is bound.
    #[inline(always)]
    pub fn is_empty(&self) -> bool
        ensures { IsTrue result ↔ (self.now ≡ []) }
    {
        let few = self.few.is_empty();
        let others = self.others.is_empty();
        few && others
    }

    /// The value of the name in the layer.
    #[inline(always)]
    pub fn get(&self, frame: usize, layer: usize, name: &NameRef<'_>) -> Option<&Value>
        ensures { option_copied result ≡ value_in self.now frame layer name.now }
    {
        if is_beyond(frame, layer, self.end) {
            return None;
        }
        self.search(frame, layer, name)
    }

    /// The same for a name that is kept.
    #[inline(always)]
    pub fn value_of(&self, frame: usize, layer: usize, name: &Name) -> Option<&Value>
        ensures { option_copied result ≡ value_in self.now frame layer name.now }
    {
        if is_beyond(frame, layer, self.end) {
            return None;
        }
        self.search_kept(frame, layer, name)
    }

    // The same in a layer that may bind something. What it looks for takes no room where the layer binds nothing.
    #[inline(never)]
    fn search_kept(&self, frame: usize, layer: usize, name: &Name) -> Option<&Value>
        ensures { option_copied result ≡ value_in self.now frame layer name.now }
    {
        self.search(frame, layer, &name.as_name_ref())
    }

    // The same for a name that is looked for.
    #[inline(never)]
    fn search(&self, frame: usize, layer: usize, name: &NameRef<'_>) -> Option<&Value>
        ensures { option_copied result ≡ value_in self.now frame layer name.now }
    {
        match find(self.few.as_slice(), frame, layer, name) {
            Some(value) => Some(value),
            None => self.others.get(frame, layer, name),
        }
    }

    /// Binds the name in the layer, in place of an older binding of it, which takes no memory.
    pub fn put(
        &mut self,
        frame: usize,
        layer: usize,
        name: Name,
        value: Value,
    ) -> Result<(), AllocError>
        ensures ok { OnOk result
            (AreAlike self.new (with_binding self.old frame layer name value)) }
        ensures err { OnErr result (self.new ≡ self.old) }
    {
        self.end = end_with(frame, layer, self.end);
        match position(self.few.as_slice(), frame, layer, &name.as_name_ref()) {
            Some(at) => self.few[at].value = value,
            None => append(
                &mut self.few,
                &mut self.others,
                Binding {
                    frame,
                    layer,
                    name,
                    value,
                },
            )?,
        }
        Ok(())
    }

    /// Puts what a layer binds into the names.
    pub fn put_layer(&self, frame: usize, layer: usize, names: &mut Context) -> TeraResult<()>
        ensures ok { OnOk result (names.new ≡ put_all (layer_of self.now frame layer) names.old) }
        ensures lacks { IfErr result Lacks }
    {
        put_layer(self.few.as_slice(), frame, layer, names)?;
        self.others.put_layer(frame, layer, names)
    }

    /// Takes out what a layer binds.
    #[inline(always)]
    pub fn clear(&mut self, frame: usize, layer: usize)
        ensures { self.new ≡ without self.old frame layer }
    {
        if is_beyond(frame, layer, self.end) {
            return;
        }
        self.clear_bound(frame, layer);
    }

    // The same for a layer that may bind something.
    #[inline(never)]
    fn clear_bound(&mut self, frame: usize, layer: usize)
        ensures { self.new ≡ without self.old frame layer }
    {
        self.few
            .retain(|b: &Binding| b.frame != frame || b.layer != layer);
        self.end = end_without(frame, layer, self.end);
        self.others.clear_layer(frame, layer);
    }

    /// Takes out what a frame binds.
    pub fn clear_frame(&mut self, frame: usize)
        ensures { self.new ≡ without_frame self.old frame }
    {
        if frame > self.end.frame {
            return;
        }
        self.few.retain(|b: &Binding| b.frame != frame);
        self.others.clear(Part::Frame(frame));
    }
}

// Puts a binding that is none of the few behind all.
#[inline(always)]
fn append(
    few: &mut Vec<Binding>,
    others: &mut BindingMaps,
    binding: Binding,
) -> Result<(), AllocError>
    ensures ok { OnOk result
        (position_from 0 few.old.items binding.frame binding.layer binding.name ≡ None
        → AreAlike (few.new.items ++ others.new) (with_binding (few.old.items ++ others.old)
        binding.frame binding.layer binding.name binding.value)) }
    ensures err { OnErr result (few.new.items ++ others.new ≡ few.old.items ++ others.old) }
{
    if few.len() < FEW && others.is_empty() {
        few.push(binding)?;
    } else {
        others.put(binding)?;
    }
    Ok(())
}

// Whether the layer comes after the end.
#[inline(always)]
pub(crate) fn is_beyond(frame: usize, layer: usize, end: Layer) -> bool
    ensures { result ≡ is_beyond frame layer end.frame end.layer }
{
    frame > end.frame || (frame == end.frame && layer > end.layer)
}

// An end for the bindings and one more in the layer.
fn end_with(frame: usize, layer: usize, end: Layer) -> Layer
    ensures { result ≡ end_with frame layer end }
{
    if is_beyond(frame, layer, end) {
        Layer { frame, layer }
    } else {
        end
    }
}

// An end for the bindings that are left when a layer is taken out.
fn end_without(frame: usize, layer: usize, end: Layer) -> Layer
    ensures { result ≡ end_without frame layer end }
{
    if frame == end.frame && layer == end.layer && layer > 0 {
        Layer {
            frame,
            layer: layer - 1,
        }
    } else {
        end
    }
}

#[inline(always)]
fn find<'a>(
    items: &'a [Binding],
    frame: usize,
    layer: usize,
    name: &NameRef<'_>,
) -> Option<&'a Value>
    ensures { option_copied result ≡ value_in items.now frame layer name.now }
{
    for b in items {
        if b.frame == frame && b.layer == layer && name.is(&b.name) {
            return Some(&b.value);
        }
    }
    None
}

pub(crate) fn position(
    items: &[Binding],
    frame: usize,
    layer: usize,
    name: &NameRef<'_>,
) -> Option<usize>
    ensures { result ≡ position_from 0 items.now frame layer name.now }
{
    for (at, b) in items.iter().enumerate() {
        if b.frame == frame && b.layer == layer && name.is(&b.name) {
            return Some(at);
        }
    }
    None
}

pub(crate) fn put_layer(
    items: &[Binding],
    frame: usize,
    layer: usize,
    names: &mut Context,
) -> TeraResult<()>
    ensures ok { OnOk result (names.new ≡ put_all (layer_of items.now frame layer) names.old) }
    ensures lacks { IfErr result Lacks }
{
    for b in items {
        if b.frame == frame && b.layer == layer {
            names.insert(b.name.as_str(), b.value.try_clone()?)?;
        }
    }
    Ok(())
}
