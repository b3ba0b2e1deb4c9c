// The nodes of a text, and the components that are defined between them.
ghost use Rattle.std.specs.Prelude.{◌≡◌, false, Some, IfErr, option_map};
ghost use Rattle.tera_syntax.specs.Parts as spec;
ghost use Rattle.tera_syntax.specs.Reader as reader;
ghost use Rattle.tera_syntax.specs.View.{PartsBecome, parts_of};
ghost use Rattle.tera_syntax_tokens.specs.Prelude.{Answers, begin, input, IsSyntax, next, piece_of, tokens_of};
ghost use Rattle.tera_syntax_tree.specs.Depth.{max_tree_depth};
ghost use Rattle.tera_syntax_tree.specs.Prelude.{definitions_of, nodes_of, signature_of};

use crate::heads::{Surroundings, ends_component, is_component};
use crate::open_statements::{MAX_TREE_DEPTH, OpenStatements};
use crate::statements::{step, tokens_after_first};
use std::alloc::Global;
use tera_errors::Span;
use tera_syntax_expressions::parameters::signature;
use tera_syntax_tokens::cut::Piece;
use tera_syntax_tokens::refusal::{Reason, Refusal};
use tera_syntax_tokens::token::{Kind, Token};
use tera_syntax_tokens::tokens::Tokens;
use tera_syntax_tree::{DefinedComponent, Node, Signature};

/// A component whose end is not read yet.
#[derive(Drop)]
pub(crate) struct OpenComponent<'s> {
    /// What stands in front of it.
    before: Vec<Node<'s>>,
    signature: Signature<'s>,
    /// Where its first tag begins.
    opened: usize,
}

/// How far the reading of nodes and components is.
#[derive(Drop)]
pub(crate) struct Parts<'s> {
    definitions: Vec<DefinedComponent<'s>>,
    /// The one that is open.
    component: Option<OpenComponent<'s>>,
    /// What was read of the nodes in it, or where none is open, of the text's own.
    pub progress: OpenStatements<'s>,
}

/// A signature that is all from here to the end of the tag.
#[tactic(auto, unfolding(crate::specs::Reader::signed))]
fn whole_signature<'s>(
    alloc: Global,
    tokens: &mut Tokens<'_, 's>,
    limit: usize,
) -> Result<Signature<'s>, Refusal>
    ensures { Answers signature_of (reader.signed limit (input tokens.old)) result }
{
    let signature = signature(alloc, tokens, limit)?;
    if tokens.kind() == Kind::End {
        Ok(signature)
    } else {
        Err(tokens.refuse(Reason::TagGoesOn))
    }
}

impl<'s> Parts<'s> {
    pub fn begin(alloc: Global) -> Parts<'s>
        ensures { parts_of result ≡ spec.parts_begun }
    {
        Parts {
            definitions: Vec::new(alloc),
            component: None,
            progress: OpenStatements::begin(alloc),
        }
    }

    /// Takes a piece more to what was read. The tokens are those of a tag.
    pub fn step(
        &mut self,
        alloc: Global,
        piece: Piece<'s>,
        tokens: &[Token<'s>],
    ) -> Result<(), Refusal>
        ensures { let meant = piece_of tokens.now piece.entry in
            PartsBecome (spec.parts_step max_tree_depth (parts_of self.old) meant)
            result self.new }
    {
        match piece {
            Piece::Block if self.progress.is_top() => self.take(alloc, tokens),
            Piece::Block | Piece::Words(_, _) | Piece::Comment | Piece::Variable => {
                self.read(alloc, piece, tokens)
            }
        }
    }

    /// A piece that neither begins a component nor ends one.
    fn read(&mut self, alloc: Global, piece: Piece<'s>, tokens: &[Token<'s>]) -> Result<(), Refusal>
        ensures { let meant = piece_of tokens.now piece.entry in
            PartsBecome (spec.plain_step max_tree_depth (parts_of self.old) meant)
            result self.new }
    {
        step(&mut self.progress, alloc, piece, tokens)
    }

    /// A tag outside of all statements.
    fn take(&mut self, alloc: Global, tag: &[Token<'s>]) -> Result<(), Refusal>
        ensures { let p = parts_of self.old in
            PartsBecome (spec.top_tag max_tree_depth p p.component (tokens_of tag.now))
            result self.new }
    {
        match &self.component {
            Some(component) => {
                if ends_component(component.signature.name, tag) {
                    self.end()
                } else {
                    self.read(alloc, Piece::Block, tag)
                }
            }
            None => {
                if is_component(tag) {
                    self.define(alloc, tag)
                } else {
                    self.read(alloc, Piece::Block, tag)
                }
            }
        }
    }

    /// A component begins.
    fn define(&mut self, alloc: Global, tag: &[Token<'s>]) -> Result<(), Refusal>
        ensures { let p = parts_of self.old in
            let signature = reader.signed max_tree_depth (next (begin false (tokens_of tag.now))) in
            PartsBecome (option_map (spec.component_begun p) signature) result self.new }
    {
        let mut ahead = tokens_after_first(tag, false);
        let signature = whole_signature(alloc, &mut ahead, MAX_TREE_DEPTH)?;
        let before = self
            .progress
            .switch_nodes(Vec::new(alloc), Surroundings::in_component());
        self.component = Some(OpenComponent {
            before,
            signature,
            opened: self.progress.tag,
        });
        Ok(())
    }

    /// The component that is open ends: what was read is its body.
    fn end(&mut self) -> Result<(), Refusal>
        ensures { let p = parts_of self.old in
            (c : spec.OpenComponent) → p.component ≡ Some c
            → PartsBecome (Some (spec.component_ended p c)) result self.new }
    {
        let Some(component) = self.component.take() else {
            return Ok(());
        };
        let OpenComponent {
            before,
            signature,
            opened: _,
        } = component;
        let body = self.progress.switch_nodes(before, Surroundings::at_top());
        self.definitions.push(DefinedComponent { signature, body })?;
        Ok(())
    }

    /// The nodes and the components, where the text ends here. It takes no memory. What is open is told of by where its first tag
    /// begins.
    pub fn finish(self) -> Result<(Vec<Node<'s>>, Vec<DefinedComponent<'s>>), Refusal>
        ensures value { Answers (λ all. (nodes_of all.0.items, definitions_of all.1.items))
            (spec.parts_finished (parts_of self.entry)) result }
        ensures told { IfErr result IsSyntax }
    {
        let Parts {
            definitions,
            component,
            progress,
        } = self;
        match (progress.finish(), component) {
            (Ok(nodes), None) => Ok((nodes, definitions)),
            (Ok(_), Some(component)) => {
                let start = component.opened;
                Err(Refusal::Syntax(Reason::NoEnd, Span { start, end: start }))
            }
            (Err(refusal), _) => Err(refusal),
        }
    }
}
