// What is open while a text is read, and the nodes that were read.
ghost use Rattle.std.specs.Prelude.{◌≡◌, ◌-◌, true, Some, IfErr};
ghost use Rattle.tera_syntax.specs.Heads as heads;
ghost use Rattle.tera_syntax.specs.Parts.{is_top, turned};
ghost use Rattle.tera_syntax.specs.Reader as spec;
ghost use Rattle.tera_syntax.specs.View.{Becomes, body_of, statement_of, head_of, progress_of};
ghost use Rattle.tera_syntax_tokens.specs.Prelude.{Answers, IsSyntax, tokens_of};
ghost use Rattle.tera_syntax_tree.specs.Depth.{max_tree_depth};
ghost use Rattle.tera_syntax_tree.specs.Prelude.{node_of, nodes_of};

use crate::heads::{Head, Surroundings, is_extends};
use std::alloc::Global;
use std::mem::replace;
use tera_errors::Span;
use tera_syntax_tokens::refusal::{Reason, Refusal};
use tera_syntax_tokens::token::Token;
use tera_syntax_tokens::tokens::Tokens;
use tera_syntax_tree::Node;

/// How deep a tree may be.
pub(crate) const MAX_TREE_DEPTH: usize = 200;

/// A statement whose end is not read yet.
#[derive(Drop)]
pub(crate) struct OpenStatement<'s> {
    /// What stands in front of it.
    before: Vec<Node<'s>>,
    head: Head<'s>,
    /// Its body, once another tag of it ended that.
    body: Option<Vec<Node<'s>>>,
    /// What ends it ends the statement around it too.
    is_chained: bool,
    /// What it stands in.
    surroundings: Surroundings,
    /// Where its first tag begins.
    opened: usize,
}

/// How far the reading is: what is open, and the nodes that were read in it.
#[derive(Drop)]
pub(crate) struct OpenStatements<'s> {
    /// The innermost last.
    statements: Vec<OpenStatement<'s>>,
    found: Vec<Node<'s>>,
    /// What these nodes stand in.
    pub surroundings: Surroundings,
    /// Where the tag begins that is read.
    pub tag: usize,
}

/// A refusal that points at the first token of a tag.
pub(crate) fn refusal_of_tag(tag: &[Token<'_>], why: Reason) -> Refusal
    ensures { IsSyntax result }
{
    Tokens::begin(tag, false).refuse(why)
}

/// What the end of a statement makes of what was read last.
fn node_of_statement<'s>(
    alloc: Global,
    head: Head<'s>,
    body: Option<Vec<Node<'s>>>,
    found: Vec<Node<'s>>,
) -> Node<'s>
    ensures { node_of result ≡ spec.made (head_of head.entry) (body_of body.entry)
        (nodes_of found.entry.items) }
{
    match body {
        None => head.make(found, Vec::new(alloc)),
        Some(body) => head.make(body, found),
    }
}

/// What stands in front of a statement, and the statement.
#[tactic(auto, using(crate::proofs::Rows::nodes_push))]
fn row<'s>(
    alloc: Global,
    statement: OpenStatement<'s>,
    found: Vec<Node<'s>>,
) -> Result<Vec<Node<'s>>, Refusal>
    ensures { let meant = spec.row (statement_of statement.entry) (nodes_of found.entry.items) in
        Answers (λ nodes. nodes_of nodes.items) (Some meant) result }
{
    let OpenStatement {
        mut before,
        head,
        body,
        ..
    } = statement;
    before.push(node_of_statement(alloc, head, body, found))?;
    Ok(before)
}

impl<'s> OpenStatements<'s> {
    pub fn begin(alloc: Global) -> OpenStatements<'s>
        ensures { progress_of result ≡ spec.begun }
    {
        OpenStatements {
            statements: Vec::new(alloc),
            found: Vec::new(alloc),
            surroundings: Surroundings::at_top(),
            tag: 0,
        }
    }

    /// How deep an expression of a tag may be here.
    pub fn room(&self) -> usize
        ensures { result ≡ spec.room max_tree_depth (progress_of self.now) }
    {
        MAX_TREE_DEPTH.saturating_sub(self.statements.len() + 1)
    }

    /// What it stands in that is open.
    pub fn outer_surroundings(&self) -> Surroundings
        ensures { result ≡ spec.around (progress_of self.now).statements }
    {
        match self.statements.last() {
            Some(statement) => statement.surroundings,
            None => Surroundings::at_top(),
        }
    }

    /// Whether a node may stand here.
    pub fn has_room(&self) -> bool
        ensures { result ≡ spec.has_room max_tree_depth (progress_of self.now) }
    {
        self.statements.len() < MAX_TREE_DEPTH
    }

    /// Puts a node behind those that were read, where it may stand.
    #[tactic(auto, using(crate::proofs::Rows::nodes_push))]
    pub fn add(&mut self, node: Node<'s>) -> Result<(), Refusal>
        ensures { let meant = spec.added (progress_of self.old) (node_of node.entry) in
            Becomes (Some meant) result self.new }
    {
        self.found.push(node)?;
        Ok(())
    }

    /// A statement with a body begins.
    pub fn open(
        &mut self,
        alloc: Global,
        is_chained: bool,
        head: Head<'s>,
        tag: &[Token<'_>],
    ) -> Result<(), Refusal>
        ensures { let so_far = progress_of self.old in
            let meant = spec.opened max_tree_depth is_chained so_far (head_of head.entry) in
            Becomes meant result self.new }
    {
        if !self.has_room() {
            return Err(refusal_of_tag(tag, Reason::TooDeep));
        }
        let inside = head.body_surroundings(self.surroundings);
        let opened = if is_chained {
            self.innermost_start()
        } else {
            self.tag
        };
        let before = replace(&mut self.found, Vec::new(alloc));
        self.statements.push(OpenStatement {
            before,
            head,
            body: None,
            is_chained,
            surroundings: self.surroundings,
            opened,
        })?;
        self.surroundings = inside;
        Ok(())
    }

    /// `else`: what was read is the body.
    pub fn read_else(&mut self, alloc: Global, tag: &[Token<'_>]) -> Result<(), Refusal>
        ensures { let s = progress_of self.old in
            Becomes (spec.divided heads.splits s.statements s.found) result self.new }
    {
        match self.statements.last() {
            Some(statement) if statement.head.splits() => self.end_body(alloc, tag),
            _ => Err(refusal_of_tag(tag, self.unsuited_reason())),
        }
    }

    /// The first half of a tag that goes on with a statement: what was read is the body.
    pub fn read_elif(&mut self, alloc: Global, tag: &[Token<'_>]) -> Result<(), Refusal>
        ensures { let s = progress_of self.old in
            Becomes (spec.divided heads.chains s.statements s.found) result self.new }
    {
        match self.statements.last() {
            Some(statement) if statement.head.chains() => self.end_body(alloc, tag),
            _ => Err(refusal_of_tag(tag, self.unsuited_reason())),
        }
    }

    fn end_body(&mut self, alloc: Global, tag: &[Token<'_>]) -> Result<(), Refusal>
        ensures { let s = progress_of self.old in
            Becomes (spec.divided (λ head. true) s.statements s.found) result self.new }
    {
        let Some(mut statement) = self.statements.pop() else {
            return Err(refusal_of_tag(tag, Reason::NotOpen));
        };
        if statement.body.is_some() {
            return Err(refusal_of_tag(tag, Reason::ElseTwice(statement.opened)));
        }
        self.surroundings = statement.surroundings;
        statement.body = Some(replace(&mut self.found, Vec::new(alloc)));
        self.statements.push(statement)?;
        Ok(())
    }

    /// Why a tag is refused that belongs to a statement, and not to the one that is open.
    fn unsuited_reason(&self) -> Reason {
        match self.statements.last() {
            Some(statement) => Reason::OtherOpen(statement.opened),
            None => Reason::NotOpen,
        }
    }

    /// Why a tag is refused that begins no statement and ends none.
    fn stray_reason(&self, tag: &[Token<'_>]) -> Reason {
        let word = Tokens::begin(tag, false).text();
        if is_extends(tag) {
            Reason::LateExtends
        } else if word.starts_with("end") || word == "<" {
            self.unsuited_reason()
        } else {
            Reason::NoStatement
        }
    }

    /// The end of what is open.
    pub fn read_end(&mut self, alloc: Global, tag: &[Token<'_>]) -> Result<(), Refusal>
        ensures { let s = progress_of self.old in
            Becomes (spec.shut (tokens_of tag.now) s.statements s.found) result self.new }
    {
        match self.statements.last() {
            Some(statement) if statement.head.is_ended_by(tag) => self.close_chain(alloc, tag),
            _ => Err(refusal_of_tag(tag, self.stray_reason(tag))),
        }
    }

    fn close_chain(&mut self, alloc: Global, tag: &[Token<'_>]) -> Result<(), Refusal>
        ensures { let s = progress_of self.old in
            Becomes (spec.closed s.statements s.found) result self.new }
    {
        while let Some(statement) = self.statements.pop() {
            let is_chained = statement.is_chained;
            self.surroundings = statement.surroundings;
            let found = replace(&mut self.found, Vec::new(alloc));
            self.found = match row(alloc, statement, found) {
                Ok(found) => found,
                Err(refusal) => return Err(refusal),
            };
            if !is_chained {
                return Ok(());
            }
        }
        Err(refusal_of_tag(tag, Reason::NotOpen))
    }

    /// Whether no statement is open.
    pub fn is_top(&self) -> bool
        ensures { result ≡ is_top (progress_of self.now) }
    {
        self.statements.is_empty()
    }

    /// Reads other nodes from here on, which stand in these surroundings, and hands out those that were read.
    pub fn switch_nodes(
        &mut self,
        found: Vec<Node<'s>>,
        surroundings: Surroundings,
    ) -> Vec<Node<'s>>
        ensures found { nodes_of result.items ≡ (progress_of self.old).found }
        ensures rest { progress_of self.new
            ≡ turned (progress_of self.old) (nodes_of found.entry.items) surroundings }
    {
        self.surroundings = surroundings;
        replace(&mut self.found, found)
    }

    /// Where the first tag begins of the innermost statement that is open.
    fn innermost_start(&self) -> usize {
        match self.statements.last() {
            Some(statement) => statement.opened,
            None => self.tag,
        }
    }

    /// The nodes, where the text ends here. It takes no memory. A statement that is open is told of by where its first tag begins.
    pub fn finish(self) -> Result<Vec<Node<'s>>, Refusal>
        ensures value { let meant = spec.finished (progress_of self.entry).statements
            (progress_of self.entry).found in
            Answers (λ nodes. nodes_of nodes.items) meant result }
        ensures told { IfErr result IsSyntax }
    {
        let start = self.innermost_start();
        let OpenStatements {
            statements,
            found,
            ..
        } = self;
        if statements.is_empty() {
            Ok(found)
        } else {
            Err(Refusal::Syntax(Reason::NoEnd, Span { start, end: start }))
        }
    }
}
