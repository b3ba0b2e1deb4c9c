// All that a rendering has open, and all that it binds.
ghost use Rattle.std.specs.Prelude.{◌≡◌, Ok, ◌≤◌, ◌≢◌, ◌↔◌, ◌∷◌, [], suc, OnOk, OnErr, IfErr, IfSome, IsTrue, MatchOption, length, drop, unwrap_or, option_copied, None};
ghost use Rattle.tera_errors.specs.Prelude.{Gives, Lacks};
ghost use Rattle.tera_values.specs.Prelude.{undefined};
ghost use Rattle.tera_state.specs.FoundValue.{found_value};
ghost use Rattle.tera_state.specs.Bound.{without_frame};
ghost use Rattle.tera_state.specs.ContextRef.{names_of};
ghost use Rattle.tera_state.specs.Scope.{look, look_implicit, in_variables, in_innermost, set_variable, set_global, open_turn, close_turn, nothing_set, outside, in_include, in_component, put_turns, dump};
ghost use Rattle.tera_state.specs.Opened.{turn_of, to_come};
ghost use Rattle.tera_state.specs.Stack.{lower};
ghost use Rattle.tera_state.specs.declared.frame.FrameKind.TheVariants as stands;
ghost use Rattle.tera_state.specs.Scopes.{begun, bound_at, bound_above_at, handed_at, PassesOn, variables_at, context_of, variables_of, around_of, coming_of, coming_around, own_global, TakesTurn};

use crate::bindings::Bindings;
use crate::context_ref::ContextRef;
use crate::contexts::Contexts;
use crate::found_value::FoundValue;
use crate::frame::{Frame, FrameKind};
use crate::loops::ForLoop;
use crate::open_loops::OpenLoops;
use crate::stack::Stack;
use std::alloc::{AllocError, Global};
use std::mem::replace;
use tera_values::{Context, Kwargs, Name, NameRef, TeraResult, Value};

/// The body that runs, those above it, and all that they set.
#[derive(Drop)]
pub struct Scopes<'c> {
    pub alloc: Global,
    pub bindings: Bindings,
    pub frame: Frame<'c>,
    pub below: Stack<Frame<'c>>,
}

// What a body binds.
#[inline(always)]
fn look_in_variables<'a>(
    bindings: &'a Bindings,
    frame: usize,
    body: &'a Frame<'_>,
    name: &NameRef<'_>,
) -> FoundValue<'a>
    ensures { found_value result
        ≡ in_variables name.now (variables_at bindings.now frame body.now) }
{
    match body.loops.look(bindings, frame, name) {
        FoundValue::Unbound => found_value_of(bindings.get(frame, 0, name)),
        found => found,
    }
}

fn found_value_of<'a>(value: Option<&'a Value>) -> FoundValue<'a>
    ensures { found_value result ≡ option_copied value.entry }
{
    match value {
        Some(value) => FoundValue::Kept(value),
        None => FoundValue::Unbound,
    }
}

// The context of what is no include: that has its includer's.
#[inline(always)]
fn own_context<'a>(standing: &'a FrameKind<'_>) -> Option<ContextRef<'a>>
    ensures { MatchOption result (standing.now ≡ stands.Include)
        (λ context. (below : _) → context ≡ context_of standing.now below) }
{
    match standing {
        FrameKind::Template(contexts) => Some(contexts.context()),
        FrameKind::Component(arguments) => Some(ContextRef::of_arguments(arguments)),
        FrameKind::Include => None,
    }
}

impl<'c> Scopes<'c> {
    /// What the name stands for. Takes no memory and copies nothing. Most names are those of the innermost turn, which is
    /// asked without a call.
    #[inline(always)]
    pub fn look(&self, name: &NameRef<'_>) -> FoundValue<'_>
        ensures { unwrap_or (found_value result) undefined
            ≡ look name.now (around_of self.now) (variables_of self.now) }
    {
        let height = self.below.len();
        match self
            .frame
            .loops
            .look_innermost(&self.bindings, height, name)
        {
            FoundValue::Unbound => self.look_outside_turn(height, name),
            found => found,
        }
    }

    /// The same, where it is a value that the innermost turn binds: most names are of such. What else may be meant is told by
    /// `look`.
    #[inline(always)]
    pub fn value_of(&self, name: &Name) -> Option<&Value>
        ensures { IfSome result (λ value.
            look name.now (around_of self.now) (variables_of self.now) ≡ value.now) }
    {
        let height = self.below.len();
        self.frame.loops.value_of(&self.bindings, height, name)
    }

    // The same of a name that the innermost turn does not bind. Where no other loop is open and nothing is set, a
    // template by itself asks its contexts at once.
    #[inline(never)]
    fn look_outside_turn(&self, height: usize, name: &NameRef<'_>) -> FoundValue<'_>
        requires height { height ≡ length self.now.below }
        requires beyond { in_innermost name.now (variables_of self.now).turns ≡ None }
        ensures { found_value result ≡ bound_at self.now height self.now.frame name.now }
    {
        if self.bindings.is_empty() && self.frame.loops.len() <= 1 {
            if let FrameKind::Template(contexts) = &self.frame.standing {
                return found_value_of(contexts.get(name));
            }
        }
        self.look_in_frame(height, &self.frame, name)
    }

    // What a body with so many frames below it has the name stand for.
    fn look_in_frame<'a>(
        &'a self,
        height: usize,
        body: &'a Frame<'c>,
        name: &NameRef<'_>,
    ) -> FoundValue<'a>
        requires { height ≤ length self.now.below }
        ensures { found_value result ≡ bound_at self.now height body.now name.now }
    {
        match self.look_in_own_frame(height, body, name) {
            Some(found) => found,
            None => self.look_in_includers(height, name),
        }
    }

    // The same, but for an include that binds nothing itself and so has what its includer hands down.
    #[inline(always)]
    fn look_in_own_frame<'a>(
        &'a self,
        height: usize,
        body: &'a Frame<'c>,
        name: &NameRef<'_>,
    ) -> Option<FoundValue<'a>>
        requires { height ≤ length self.now.below }
        ensures { MatchOption result
            (PassesOn self.now height body.now name.now)
            (λ found. found_value found ≡ bound_at self.now height body.now name.now) }
    {
        match look_in_variables(&self.bindings, height, body, name) {
            FoundValue::Unbound => match &body.standing {
                FrameKind::Template(contexts) => Some(found_value_of(contexts.get(name))),
                FrameKind::Component(arguments) => Some(found_value_of(arguments.look(name))),
                FrameKind::Include => None,
            },
            found => Some(found),
        }
    }

    // What an include with so many frames below it is handed down: the first of them answers that does not pass the name on, or
    // its context, where that answer is undefined.
    fn look_in_includers<'a>(&'a self, height: usize, name: &NameRef<'_>) -> FoundValue<'a>
        requires { height ≤ length self.now.below }
        ensures { found_value result ≡ handed_at self.now height name.now }
    {
        let mut left = height;
        'down: while left > 0 {
            left -= 1;
            let includer = self.below.at_height(left);
            if let Some(found) = self.look_in_own_frame(left, includer, name) {
                if found.is_undefined() {
                    return found_value_of(self.context_at(left, includer).get(name));
                }
                return found;
            }
        }
        FoundValue::Unbound
    }

    /// What the name stands for here, or else in the bodies above this one: the first value that is not undefined. Takes no
    /// memory.
    pub fn look_implicit(&self, name: &NameRef<'_>) -> FoundValue<'_>
        ensures { unwrap_or (found_value result) undefined
            ≡ look_implicit name.now (around_of self.now) (variables_of self.now) }
    {
        self.look_implicit_in_frame(self.below.len(), &self.frame, name)
    }

    // The same from a body with so many frames below it.
    fn look_implicit_in_frame<'a>(
        &'a self,
        height: usize,
        body: &'a Frame<'c>,
        name: &NameRef<'_>,
    ) -> FoundValue<'a>
        requires { height ≤ length self.now.below }
        ensures { found_value result ≡ bound_above_at self.now height body.now name.now }
    {
        let found = self.look_in_frame(height, body, name);
        if !found.is_undefined() {
            return found;
        }
        let mut left = height;
        'up: while left > 0 {
            left -= 1;
            let found = self.look_in_frame(left, self.below.at_height(left), name);
            if !found.is_undefined() {
                return found;
            }
        }
        FoundValue::Unbound
    }

    // The context of a body with so many frames below it.
    fn context_at<'a>(&'a self, height: usize, body: &'a Frame<'c>) -> ContextRef<'a>
        requires { height ≤ length self.now.below }
        ensures { result ≡ context_of body.now.standing (lower height self.now.below) }
    {
        if let Some(context) = own_context(&body.standing) {
            return context;
        }
        let mut left = height;
        'down: while left > 0 {
            left -= 1;
            if let Some(context) = own_context(&self.below.at_height(left).standing) {
                return context;
            }
        }
        ContextRef::new(None)
    }

    /// What `__tera_context` stands for: the map of all that this body itself binds, the names of its loops excepted.
    pub fn dump(&self, alloc: Global) -> TeraResult<Value>
        ensures { Gives (λ v. v) result (Ok (dump (around_of self.now) (variables_of self.now))) }
    {
        let mut names = self.global_context(alloc)?;
        let height = self.below.len();
        self.context_at(height, &self.frame).put_into(&mut names)?;
        self.bindings.put_layer(height, 0, &mut names)?;
        self.put_turns(&mut names)?;
        names.to_value()
    }

    // A copy of the global context of the body that runs.
    fn global_context(&self, alloc: Global) -> TeraResult<Context>
        ensures { Gives (λ c. c) result (Ok (own_global self.now.frame.standing)) }
    {
        match &self.frame.standing {
            FrameKind::Template(contexts) => contexts.global_context(alloc),
            FrameKind::Component(_) => Ok(Context::new(alloc)),
            FrameKind::Include => Ok(Context::new(alloc)),
        }
    }

    // Puts what is set in the turns into the names, that of inner ones last.
    fn put_turns(&self, names: &mut Context) -> TeraResult<()>
        ensures ok { OnOk result (names.new ≡ put_turns (variables_of self.now).turns names.old) }
        ensures lacks { IfErr result Lacks }
    {
        let height = self.below.len();
        for layer in 0..self.frame.loops.len() {
            self.bindings.put_layer(height, layer + 1, names)?;
        }
        Ok(())
    }

    /// A template by itself. Takes no memory.
    pub fn new(alloc: Global, context: &'c Context, global: Option<&'c Context>) -> Scopes<'c>
        ensures around { around_of result ≡ outside context.now (names_of global.entry) }
        ensures variables { variables_of result ≡ nothing_set }
        ensures coming { coming_of result ≡ [] }
        ensures outer { coming_around result ≡ [] }
    {
        Scopes {
            alloc,
            bindings: Bindings::new(alloc),
            frame: Frame {
                standing: FrameKind::Template(Contexts::new(
                    alloc,
                    ContextRef::new(Some(context)),
                    ContextRef::new(global),
                )),
                loops: OpenLoops::new(alloc),
            },
            below: Stack::new(alloc),
        }
    }

    /// Notes these names of a template, so that its contexts are searched for them once and not at each look-up. In an
    /// include or a component nothing is noted.
    pub fn note_all(&mut self, names: &[Name]) -> Result<(), AllocError>
        ensures { self.new ≡ self.old }
    {
        match &mut self.frame.standing {
            FrameKind::Template(contexts) => contexts.note_all(names),
            FrameKind::Include => Ok(()),
            FrameKind::Component(_) => Ok(()),
        }
    }

    /// Binds the name in the innermost turn, or outside of all where no loop is open.
    pub fn set(&mut self, name: Name, value: Value) -> Result<(), AllocError>
        ensures ok { OnOk result (variables_of self.new
            ≡ set_variable name value (variables_of self.old)) }
        ensures err { OnErr result (variables_of self.new ≡ variables_of self.old) }
        ensures stays { around_of self.new ≡ around_of self.old }
        ensures outer { coming_around self.new ≡ coming_around self.old }
        ensures coming { coming_of self.new ≡ coming_of self.old }
    {
        let frame = self.below.len();
        let layer = self.frame.loops.len();
        self.bindings.put(frame, layer, name, value)
    }

    /// Binds the name outside of all turns.
    pub fn set_global(&mut self, name: Name, value: Value) -> Result<(), AllocError>
        ensures ok { OnOk result (variables_of self.new
            ≡ set_global name value (variables_of self.old)) }
        ensures err { OnErr result (variables_of self.new ≡ variables_of self.old) }
        ensures stays { around_of self.new ≡ around_of self.old }
        ensures outer { coming_around self.new ≡ coming_around self.old }
        ensures coming { coming_of self.new ≡ coming_of self.old }
    {
        let frame = self.below.len();
        self.bindings.put(frame, 0, name, value)
    }

    /// Opens the loop, at the turn where it stands. Takes memory for the loop around it, if there is one.
    pub fn open_loop(&mut self, opened: ForLoop) -> Result<(), AllocError>
        ensures ok { OnOk result (variables_of self.new
            ≡ open_turn (turn_of [] opened) (variables_of self.old)) }
        ensures coming { OnOk result (coming_of self.new ≡ to_come opened ∷ coming_of self.old) }
        ensures stays { around_of self.new ≡ around_of self.old }
        ensures outer { coming_around self.new ≡ coming_around self.old }
    {
        self.frame.loops.push(opened)?;
        let frame = self.below.len();
        let layer = self.frame.loops.len();
        self.bindings.clear(frame, layer);
        Ok(())
    }

    /// Goes on to the next turn of the innermost loop, where there is one. Takes no memory.
    pub fn next_turn(&mut self) -> bool
        ensures turn { TakesTurn result self.old self.new }
        ensures stays { around_of self.new ≡ around_of self.old }
        ensures outer { coming_around self.new ≡ coming_around self.old }
    {
        if self.frame.loops.next() {
            let frame = self.below.len();
            let layer = self.frame.loops.len();
            self.bindings.clear(frame, layer);
            true
        } else {
            false
        }
    }

    /// Whether a loop of this body is open.
    pub fn is_in_loop(&self) -> bool
        ensures { IsTrue result ↔ (coming_of self.now ≢ []) }
    {
        self.frame.loops.len() > 0
    }

    /// Closes the innermost loop, and forgets what its last turn set.
    pub fn close_loop(&mut self)
        requires { coming_of self.old ≢ [] }
        ensures coming { coming_of self.new ≡ drop 1 (coming_of self.old) }
        ensures variables { variables_of self.new ≡ close_turn (variables_of self.old) }
        ensures stays { around_of self.new ≡ around_of self.old }
        ensures outer { coming_around self.new ≡ coming_around self.old }
    {
        let frame = self.below.len();
        let layer = self.frame.loops.len();
        self.bindings.clear(frame, layer);
        self.frame.loops.pop();
    }

    /// Begins an include, which reads the body that runs.
    pub fn enter_include(&mut self) -> Result<(), AllocError>
        ensures around { OnOk result (around_of self.new
            ≡ in_include (around_of self.old) (variables_of self.old)) }
        ensures variables { OnOk result (variables_of self.new ≡ nothing_set) }
        ensures coming { OnOk result (coming_of self.new ≡ []) }
        ensures outer { OnOk result (coming_around self.new
            ≡ coming_of self.old ∷ coming_around self.old) }
    {
        self.enter(FrameKind::Include)
    }

    /// Begins a component, which reads the arguments alone.
    pub fn enter_component(&mut self, arguments: Kwargs) -> Result<(), AllocError>
        ensures around { OnOk result (around_of self.new
            ≡ in_component arguments (around_of self.old) (variables_of self.old)) }
        ensures variables { OnOk result (variables_of self.new ≡ nothing_set) }
        ensures coming { OnOk result (coming_of self.new ≡ []) }
        ensures outer { OnOk result (coming_around self.new
            ≡ coming_of self.old ∷ coming_around self.old) }
    {
        self.enter(FrameKind::Component(arguments))
    }

    fn enter(&mut self, inner: FrameKind<'c>) -> Result<(), AllocError>
        ensures frame { OnOk result (self.new.frame ≡ begun inner.entry) }
        ensures below { OnOk result (self.new.below ≡ self.old.frame ∷ self.old.below) }
        ensures bindings { OnOk result (self.new.bindings
            ≡ without_frame self.old.bindings (suc (length self.old.below))) }
    {
        let body = Frame {
            standing: inner,
            loops: OpenLoops::new(self.alloc),
        };
        let outer = replace(&mut self.frame, body);
        self.below.push(outer)?;
        self.bindings.clear_frame(self.below.len());
        Ok(())
    }

    /// Ends the include or component, and forgets all that it bound.
    pub fn leave(&mut self)
        requires { self.old.below ≢ [] }
        ensures around { (around_of self.old).above
            ≡ ((around_of self.new).frame, variables_of self.new) ∷ (around_of self.new).above }
        ensures coming { coming_around self.old ≡ coming_of self.new ∷ coming_around self.new }
    {
        self.bindings.clear_frame(self.below.len());
        self.frame = self.below.pop_top();
    }
}
