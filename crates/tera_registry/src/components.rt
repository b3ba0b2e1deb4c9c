// The components of a template, as they are kept.
ghost use Rattle.std.specs.Prelude.{◌≡◌, map, IfOk, IfErr};
ghost use Rattle.tera_errors.specs.Prelude.{Lacks};
ghost use Rattle.tera_syntax_tree.specs.Prelude.{defined_of, definitions_of};
ghost use Rattle.tera_registry.specs.Components.{kept_of, kept_as, kept_all};

use crate::code::Code;
use std::alloc::Global;
use std::rc::Rc;
use tera_code::compile_body;
use tera_components::ComponentDefinition;
use tera_errors::TeraResult;
use tera_syntax_tree::DefinedComponent;

/// A component that a template defines: what it is given, and the code of its body.
#[derive(Drop)]
pub struct Component {
    pub definition: ComponentDefinition,
    pub code: Rc<Code>,
}

/// Components as they are kept, which are defined in the text of the template of this name, in the order of the text.
pub fn components(
    alloc: Global,
    file: &str,
    definitions: &[DefinedComponent],
) -> TeraResult<Vec<Component>>
    ensures ok { IfOk result
        (λ v. map kept_of v.items ≡ kept_all file.now (definitions_of definitions.now)) }
    ensures lacks { IfErr result Lacks }
{
    let mut kept = Vec::new(alloc);
    for defined in definitions {
        kept.push(kept_component(alloc, file, defined)?)?;
    }
    Ok(kept)
}

// A component of these.
fn kept_component(alloc: Global, file: &str, defined: &DefinedComponent) -> TeraResult<Component>
    ensures ok { IfOk result (λ c. kept_of c ≡ kept_as file.now (defined_of defined.now)) }
    ensures lacks { IfErr result Lacks }
{
    let definition = ComponentDefinition::new(alloc, &defined.signature)?;
    let code = Code::new(alloc, compile_body(alloc, file, defined.body.as_slice())?)?;
    Ok(Component { definition, code })
}
