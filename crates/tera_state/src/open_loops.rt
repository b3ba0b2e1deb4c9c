// The open loops of a body.
ghost use Rattle.std.specs.Prelude.{◌≡◌, ◌≤◌, ◌∷◌, ◌<◌, [], Some, length, drop, OnOk, IfSome};
ghost use Rattle.tera_state.specs.Bound.{layer_of};
ghost use Rattle.tera_state.specs.FoundValue.{found_value};
ghost use Rattle.tera_state.specs.Opened.{turn_of, turns_of, InnermostGoesOn};
ghost use Rattle.tera_state.specs.Scope.{in_turn, in_turns, in_innermost};
ghost use Rattle.tera_state.specs.Stack.{lower};

use crate::bindings::Bindings;
use crate::found_value::FoundValue;
use crate::loops::ForLoop;
use crate::stack::Stack;
use std::alloc::{AllocError, Global};
use std::marker::Model;
use tera_values::{Name, NameRef, TeraResult, Value};

/// The open loops of a body. A contract sees the list of them, the innermost first. The innermost stands apart, so that
/// its turns are found first and one loop alone takes no memory.
#[derive(Drop)]
pub struct OpenLoops {
    innermost: Option<ForLoop>,
    around: Stack<ForLoop>,
}

impl Model for OpenLoops {
    ghost use Rattle.std.specs.Prelude.{List};
    ghost use Rattle.std.specs.Coded.{codes};
    ghost use Rattle.tera_values.specs.Coding.{val_coding};
    ghost use Rattle.tera_state.specs.declared.loops.ForLoop.{ForLoop as Datum};
    ghost use Rattle.tera_state.specs.Opened.{opened, IsNested};

    ghost Value = { List Datum };

    ghost coded = { Prim.hlevel (codes, val_coding) };

    ghost view = { λ l. opened l.innermost l.around };

    ghost invariant = { λ l. IsNested l.innermost l.around };
}

impl OpenLoops {
    /// No loop is open. Takes no memory.
    pub fn new(alloc: Global) -> OpenLoops
        ensures { result ≡ [] }
    {
        OpenLoops {
            innermost: None,
            around: Stack::new(alloc),
        }
    }

    /// How many loops are open: the layer of the innermost.
    #[inline(always)]
    pub fn len(&self) -> usize
        ensures { result ≡ length self.now }
    {
        match self.innermost {
            Some(_) => self.around.len() + 1,
            None => 0,
        }
    }

    /// Opens the loop. Takes memory for the loop around it, if there is one.
    pub fn push(&mut self, opened: ForLoop) -> Result<(), AllocError>
        ensures ok { OnOk result (self.new ≡ opened ∷ self.old) }
    {
        if let Some(around) = self.innermost.replace(opened) {
            self.around.push(around)?;
        }
        Ok(())
    }

    /// Closes the innermost loop, where there is one.
    pub fn pop(&mut self)
        ensures { self.new ≡ drop 1 self.old }
    {
        self.innermost = self.around.pop();
    }

    /// The innermost loop goes on to its next turn, where it has one. Takes no memory.
    #[inline(always)]
    pub fn next(&mut self) -> bool
        ensures { InnermostGoesOn result self.old self.new }
    {
        match &mut self.innermost {
            Some(innermost) => innermost.next(),
            None => false,
        }
    }

    /// What the turn of the innermost loop binds, where one is open. Takes no memory.
    #[inline(always)]
    pub fn look_innermost<'a>(
        &'a self,
        bindings: &'a Bindings,
        frame: usize,
        name: &NameRef<'_>,
    ) -> FoundValue<'a>
        ensures { found_value result
            ≡ in_innermost name.now (turns_of bindings.now frame self.now) }
    {
        match &self.innermost {
            Some(innermost) => look_in_turn(
                bindings,
                frame,
                self.around.len() + 1,
                innermost,
                name,
            ),
            None => FoundValue::Unbound,
        }
    }

    /// The same, where it is a value that lies elsewhere: most names are of such.
    #[inline(always)]
    pub fn value_of<'a>(
        &'a self,
        bindings: &'a Bindings,
        frame: usize,
        name: &Name,
    ) -> Option<&'a Value>
        ensures { IfSome result (λ value. in_innermost name.now
            (turns_of bindings.now frame self.now) ≡ Some value.now) }
    {
        match &self.innermost {
            Some(turn) => value_in_turn(bindings, frame, self.around.len() + 1, turn, name),
            None => None,
        }
    }

    /// What the turns of the loops of this frame bind. Takes no memory.
    #[inline(always)]
    pub fn look<'a>(
        &'a self,
        bindings: &'a Bindings,
        frame: usize,
        name: &NameRef<'_>,
    ) -> FoundValue<'a>
        ensures { found_value result ≡ in_turns name.now (turns_of bindings.now frame self.now) }
    {
        match &self.innermost {
            Some(innermost) => {
                let layer = self.around.len() + 1;
                match look_in_turn(bindings, frame, layer, innermost, name) {
                    FoundValue::Unbound => {
                        look_in_outer_turns(bindings, frame, &self.around, self.around.len(), name)
                    }
                    found => found,
                }
            }
            None => FoundValue::Unbound,
        }
    }
}

// What a turn binds, which is the layer-th of its frame.
#[inline(always)]
fn look_in_turn<'a>(
    bindings: &'a Bindings,
    frame: usize,
    layer: usize,
    turn: &'a ForLoop,
    name: &NameRef<'_>,
) -> FoundValue<'a>
    ensures { found_value result
        ≡ in_turn name.now (turn_of (layer_of bindings.now frame layer) turn.now) }
{
    match turn.counter(name) {
        FoundValue::Unbound => match bindings.get(frame, layer, name) {
            Some(value) => FoundValue::Kept(value),
            None => turn.loop_value(name),
        },
        counted => counted,
    }
}

// The same, where it is a value that lies elsewhere.
#[inline(always)]
fn value_in_turn<'a>(
    bindings: &'a Bindings,
    frame: usize,
    layer: usize,
    turn: &'a ForLoop,
    name: &Name,
) -> Option<&'a Value>
    ensures { IfSome result (λ value. in_turn name.now
        (turn_of (layer_of bindings.now frame layer) turn.now) ≡ Some value.now) }
{
    match turn.counter(&name.as_name_ref()) {
        FoundValue::Unbound => match bindings.value_of(frame, layer, name) {
            Some(value) => Some(value),
            None => turn.loop_value(&name.as_name_ref()).value(),
        },
        _ => None,
    }
}

// What the turns of the outer loops bind, up to a layer.
#[inline(never)]
fn look_in_outer_turns<'a>(
    bindings: &'a Bindings,
    frame: usize,
    loops: &'a Stack<ForLoop>,
    layer: usize,
    name: &NameRef<'_>,
) -> FoundValue<'a>
    requires { layer ≤ length loops.now }
    ensures { found_value result
        ≡ in_turns name.now (turns_of bindings.now frame (lower layer loops.now)) }
{
    if layer == 0 {
        return FoundValue::Unbound;
    }
    let turn = loops.at_height(layer - 1);
    match look_in_turn(bindings, frame, layer, turn, name) {
        FoundValue::Unbound => look_in_outer_turns(bindings, frame, loops, layer - 1, name),
        found => found,
    }
}
