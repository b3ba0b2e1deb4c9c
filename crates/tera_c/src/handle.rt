// An engine as C holds it. Three small functions reach the pointer, each with a proof by hand.
ghost use Rattle.std.specs.Prelude.{◌≡◌, Option, None, Some, option_map, is_some, IsSome};
ghost use Rattle.std.specs.Coded.{coded_option};
ghost use Rattle.tera_c.specs.contracts.pack_renderer.PackRenderer.{the_row};
ghost use Rattle.tera_c.specs.declared.pack_renderer.PackRenderer.{PackRenderer};
ghost use Rattle.tera_c.specs.Held.{holds};

use crate::box_pointer::BoxPointer;
use crate::pack_renderer::PackRenderer;
use std::alloc::Global;
use std::marker::Model;

/// An engine, as C holds it: a pointer that is null where there is none. C begins with null; then this library alone writes it.
#[repr(C)]
pub struct Handle {
    at: *mut u8,
    pub ghost value: { Option PackRenderer } by { coded_option the_row.coded },
}

impl Model for Handle {
    ghost also_owns = { λ h. holds h.at h.value };
}

impl Handle {
    /// Whether there is an engine.
    fn is_full(&mut self) -> bool
        ensures same { self.new.value ≡ self.old.value }
        ensures full { result ≡ is_some self.old.value }
    {
        let null: *mut u8 = std::ptr::null_mut();
        self.at != null
    }

    /// Stores an engine where there is none.
    fn put(&mut self, engine: BoxPointer<PackRenderer, Global>)
        requires { self.old.value ≡ None }
        ensures { self.new.value ≡ Some engine.value }
    {
        let BoxPointer { at, alloc: _ } = engine;
        self.at = at.cast::<u8>();
    }

    /// Takes the engine out.
    fn take(&mut self, alloc: Global) -> BoxPointer<PackRenderer, Global>
        requires { IsSome self.old.value }
        ensures gone { self.new.value ≡ None }
        ensures value { Some result.value ≡ self.old.value }
    {
        let at = self.at.cast::<PackRenderer>();
        self.at = std::ptr::null_mut();
        BoxPointer { at, alloc }
    }

    /// The engine in its box, if there is one. The handle then has none.
    pub fn open(&mut self, alloc: Global) -> Option<Box<PackRenderer>>
        ensures gone { self.new.value ≡ None }
        ensures value { option_map (λ b. b.value) result ≡ self.old.value }
    {
        if self.is_full() {
            Some(self.take(alloc).into_box())
        } else {
            None
        }
    }

    /// Puts the box back.
    pub fn shut(&mut self, engine: Box<PackRenderer>)
        requires { self.old.value ≡ None }
        ensures { self.new.value ≡ Some engine.value }
    {
        self.put(BoxPointer::of_box(engine));
    }
}
