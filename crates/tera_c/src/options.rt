// What a new engine is like.
ghost use Rattle.std.specs.Prelude.{◌≡◌, Ok};
ghost use Rattle.tera.specs.Prelude.{Gives};
ghost use Rattle.tera_c.specs.Options.{clock_with, engine_with};

use crate::pack_renderer::PackOnly;
use std::alloc::Global;
use tera::{Objects, TeraResult};
use tera_filters::{Clock, extra_objects};

/// What a new engine is like. All 0 is a good beginning.
#[repr(C)]
#[derive(Clone, Copy)]
pub struct EngineOptions {
    /// Not 0: templates have the filters of the language alone, and none of the pack.
    pub is_plain: u32,
    /// Not 0: numbers of the data that are no integers become their texts. Else such data is refused.
    pub takes_floats: u32,
    /// Not 0: the function `now` tells these seconds. Else there is no such function.
    pub has_clock: u32,
    /// Seconds since the start of 1970.
    pub seconds: i64,
}

impl EngineOptions {
    /// The filters, tests and functions beside those of the language.
    pub fn objects(&self, alloc: Global) -> TeraResult<PackOnly>
        ensures { Gives ⟦<PackOnly as Objects>⟧.engine result (Ok (engine_with self.now)) }
    {
        if self.is_plain != 0 {
            return Ok(PackOnly::new(alloc));
        }
        extra_objects(alloc, self.clock())
    }

    fn clock(&self) -> Option<Clock>
        ensures { result ≡ clock_with self.now }
    {
        if self.has_clock == 0 {
            return None;
        }
        Some(Clock {
            seconds: self.seconds,
        })
    }
}
