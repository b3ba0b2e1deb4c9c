// What has a body of its own in a template.
ghost use Rattle.std.specs.Prelude.{◌≡◌};
ghost use Rattle.tera_code.specs.Listing.{Listing};

use crate::code::{Code, TemplateBlock};
use crate::components::Component;
use std::rc::Rc;

/// A block or a component of a template: its body has code of its own.
pub trait HasBody: Drop {
    // That code.
    ghost listing: { Self → Listing };

    /// The code of its body.
    fn code(&self) -> &Rc<Code>
        ensures { result.now.value.chunk ≡ listing self.now };
}

impl HasBody for TemplateBlock {
    ghost listing = { λ b. b.code.value.chunk };

    fn code(&self) -> &Rc<Code> {
        &self.code
    }
}

impl HasBody for Component {
    ghost listing = { λ c. c.code.value.chunk };

    fn code(&self) -> &Rc<Code> {
        &self.code
    }
}
