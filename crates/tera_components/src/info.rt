// What is told of a component.
ghost use Rattle.std.specs.Prelude.{◌≡◌, Ok};
ghost use Rattle.tera_errors.specs.Prelude.{Gives};
ghost use Rattle.tera_components.specs.Definition.{info_of};

use crate::argument::ComponentArg;
use crate::definition::ComponentDefinition;
use std::alloc::Global;
use std::marker::Model;
use tera_values::{Name, TeraResult};

/// A component's name and its parameters. It stays as it is when templates change.
#[derive(Drop)]
pub struct ComponentInfo {
    name: Name,
    args: Vec<ComponentArg>,
}

impl Model for ComponentInfo {
    ghost use Rattle.tera_components.specs.Definition.{Info, info_coding};

    ghost Value = { Info };

    ghost coded = { info_coding };

    ghost view = { λ i. record { name = i.name; formals = i.args.items } };
}

impl ComponentInfo {
    /// What is told of this component.
    pub fn new(alloc: Global, definition: &ComponentDefinition) -> TeraResult<ComponentInfo>
        ensures { Gives (λ i. i) result (Ok (info_of definition.now)) }
    {
        let arguments = definition.arguments();
        let mut args = Vec::with_capacity(alloc, arguments.len())?;
        for argument in arguments {
            args.push(argument.try_clone()?)?;
        }
        let name = Name::new(alloc, definition.name())?;
        Ok(ComponentInfo { name, args })
    }

    /// The component's name.
    pub fn name(&self) -> &str
        ensures { result.now ≡ self.now.name }
    {
        self.name.as_str()
    }

    /// The parameters in their order, without what takes all other arguments.
    pub fn args(&self) -> &[ComponentArg]
        ensures { result.now ≡ self.now.formals }
    {
        self.args.as_slice()
    }
}
