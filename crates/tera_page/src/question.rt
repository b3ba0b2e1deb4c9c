// What a page asks for.
ghost use Rattle.std.specs.Prelude.{◌≡◌, Ok};
ghost use Rattle.tera.specs.Prelude.{Gives, registry_of};
ghost use Rattle.tera_page.specs.Questions.{registry_for};

use std::alloc::Global;
use tera::{Objects, TeraOver, TeraResult};
use tera_filters::{Clock, NoObject, PackObjects, extra_objects};

/// The filters, tests and functions of the pack, and none beside them.
pub type PageObjects = PackObjects<NoObject, NoObject, NoObject>;

/// What a page asks for, and under which settings.
#[repr(C)]
#[derive(Clone, Copy)]
pub struct Question {
    /// 0: the text of a template. 1: the text of a component. 2: the names that a template wants to be given. Any other number: the
    /// names of all components.
    pub subject: u32,
    /// Not 0: components escape, and templates whose names end in `.html`, `.htm` or `.xml`. Else nothing escapes.
    pub autoescape: u32,
    /// Not 0: numbers of the data that are no integers become their texts. Else such data is refused.
    pub takes_floats: u32,
    /// What the function `now` tells: seconds since the start of 1970.
    pub seconds: i64,
}

impl Question {
    /// An engine under these settings, without templates.
    pub fn engine(&self, alloc: Global) -> TeraResult<TeraOver<PageObjects>>
        ensures { Gives (registry_of ⟦<PageObjects as Objects>⟧.engine) result
            (Ok (registry_for self.now)) }
    {
        let clock = Clock {
            seconds: self.seconds,
        };
        let objects = extra_objects(alloc, Some(clock))?;
        let mut engine = TeraOver::with_objects(alloc, objects)?;
        if self.autoescape == 0 {
            engine.autoescape_on(&[])?;
        }
        Ok(engine)
    }
}
