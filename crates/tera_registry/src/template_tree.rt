// The tree of a template, for contracts alone.
ghost use Rattle.std.specs.Prelude.{◌≡◌, List};
ghost use Rattle.std.specs.Borrow.{ftrue};
ghost use Rattle.tera_syntax_tree.specs.declared.node.DefinedComponent.{DefinedComponent};
ghost use Rattle.tera_syntax_tree.specs.declared.node.Node.{Node as Read};
ghost use Rattle.tera_registry.specs.Coding.{defined_coding, read_coding};

use std::marker::Model;
use tera_syntax_tree::{DefinedComponent, Node};

/// The nodes that the text of a template was read to, and the components that it defines. It takes no memory, and its functions do
/// nothing when they run. Only contracts say what it holds.
#[derive(Drop)]
pub struct TemplateTree {
    pub ghost nodes: { List Read } by { read_coding },
    pub ghost definitions: { List DefinedComponent } by { defined_coding },
}

impl Model for TemplateTree {
    ghost also_owns = { λ _. ftrue };
}

impl TemplateTree {
    /// These nodes and components.
    pub fn of_nodes(nodes: &[Node], definitions: &[DefinedComponent]) -> TemplateTree
        ensures { (result.nodes ≡ nodes.now) × (result.definitions ≡ definitions.now) }
    {
        TemplateTree {}
    }
}
