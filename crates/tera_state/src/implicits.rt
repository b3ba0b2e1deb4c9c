// What implicit parameters are looked up in.
ghost use Rattle.std.specs.Prelude.{◌≡◌, unwrap_or};
ghost use Rattle.std.specs.Option.{option_or};
ghost use Rattle.tera_errors.specs.Prelude.{Name};
ghost use Rattle.tera_values.specs.Prelude.{at_name, undefined, Val};
ghost use Rattle.tera_state.specs.FoundValue.{found_value};

use crate::found_value::FoundValue;
use crate::scopes::Scopes;
use crate::state::StateOver;
use tera_built_ins::EscapeFn;
use tera_values::{Context, NameRef};

/// What calls a component, as its implicit parameters see it: they are looked up in it where they are not given. In a rendering
/// it is the scopes; who binds a component's arguments without one has contexts, and an object its state.
pub trait Implicits {
    // What a name stands for; undefined where nothing is found.
    ghost implicit: { Self → Name → Val };

    /// What the name stands for. Takes no memory.
    fn look_implicit(&self, name: &NameRef<'_>) -> FoundValue<'_>
        ensures { unwrap_or (found_value result) undefined ≡ implicit self.now name.now };
}

impl<'c> Implicits for Scopes<'c> {
    ghost use Rattle.tera_state.specs.Scope.{look_implicit};
    ghost use Rattle.tera_state.specs.Scopes.{around_of, variables_of};

    ghost implicit = { λ s n. look_implicit n (around_of s) (variables_of s) };

    #[inline(always)]
    fn look_implicit(&self, name: &NameRef<'_>) -> FoundValue<'_> {
        Scopes::look_implicit(self, name)
    }
}

// An object sees no caller above the place where it is called, so nothing else is looked up.
impl<'a, 'c, E: EscapeFn> Implicits for StateOver<'a, 'c, E> {
    ghost use Rattle.tera_state.specs.View.{view_of};

    ghost implicit = { λ s n. (view_of E.escaped s).look n };

    fn look_implicit(&self, name: &NameRef<'_>) -> FoundValue<'_> {
        self.look(name.as_str())
    }
}

impl Implicits for Context {
    ghost implicit = { λ c n. unwrap_or (at_name n c) undefined };

    fn look_implicit(&self, name: &NameRef<'_>) -> FoundValue<'_> {
        look_in_context(self, name)
    }
}

// Implicits, and around them a global context, as `render_component` has them.
impl<'a> Implicits for (&'a Context, &'a Context) {
    ghost implicit = { λ p n.
        unwrap_or (option_or (at_name n p.0.now) (at_name n p.1.now)) undefined };

    fn look_implicit(&self, name: &NameRef<'_>) -> FoundValue<'_> {
        match look_in_context(self.0, name) {
            FoundValue::Unbound => look_in_context(self.1, name),
            found => found,
        }
    }
}

fn look_in_context<'a>(context: &'a Context, name: &NameRef<'_>) -> FoundValue<'a>
    ensures { found_value result ≡ at_name name.now context.entry.now }
{
    match context.look(name) {
        Some(value) => FoundValue::Kept(value),
        None => FoundValue::Unbound,
    }
}
