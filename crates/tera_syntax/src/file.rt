// How far the reading of a whole text is: its nodes and components, and what it extends.
ghost use Rattle.std.specs.Prelude.{ℕ, ◌≡◌, IfErr, List};
ghost use Rattle.tera_syntax.specs.File as spec;
ghost use Rattle.tera_syntax.specs.Grammar.{is_space};
ghost use Rattle.tera_syntax.specs.Positions.{StandsWithin};
ghost use Rattle.tera_syntax.specs.Reader.{quoted_name};
ghost use Rattle.tera_syntax.specs.View.{FileBecomes, file_of};
ghost use Rattle.tera_syntax_tokens.specs.Prelude.{Answers, IsSyntax, piece_of, PointsWithin, PieceInside, tokens_of};
ghost use Rattle.tera_syntax_tokens.specs.declared.token.Token as token;
ghost use Rattle.tera_syntax_tree.specs.Depth.{max_tree_depth};
ghost use Rattle.tera_syntax_tree.specs.Prelude.{tree_of};

use crate::heads::is_extends;
use crate::parts::Parts;
use crate::positions::PieceSpans;
use crate::statements::tokens_after_first;
use crate::word_statements::quoted_name;
use std::alloc::Global;
use tera_syntax_tokens::cut::Piece;
use tera_syntax_tokens::refusal::Refusal;
use tera_syntax_tokens::token::Token;
use tera_syntax_tree::{ParserOutput, Quoted};

/// How far the reading of a text is.
#[derive(Drop)]
pub(crate) struct File<'s> {
    parent: Option<Quoted<'s>>,
    /// Whether white space and comments alone were read.
    is_front: bool,
    parts: Parts<'s>,
}

fn is_extends_piece(piece: Piece<'_>, tokens: &[Token<'_>]) -> bool
    ensures { result ≡ spec.is_extends_piece (piece_of tokens.now piece.entry) }
{
    match piece {
        Piece::Block => is_extends(tokens),
        Piece::Words(_, _) | Piece::Comment | Piece::Variable => false,
    }
}

/// Whether nothing stands there but white space.
fn is_space(text: &str) -> bool
    ensures { result ≡ is_space text.now }
{
    text.trim_start().is_empty()
}

/// Whether a piece may stand in front of `extends`.
fn is_front_piece(piece: Piece<'_>) -> bool
    ensures { (tokens : List token.Token) → result
        ≡ spec.is_front_piece (piece_of tokens piece.entry) }
{
    match piece {
        Piece::Words(text, _) => is_space(text),
        Piece::Comment => true,
        Piece::Variable | Piece::Block => false,
    }
}

impl<'s> File<'s> {
    pub fn begin(alloc: Global) -> File<'s>
        ensures { file_of result ≡ spec.file_begun }
    {
        File {
            parent: None,
            is_front: true,
            parts: Parts::begin(alloc),
        }
    }

    /// Takes a piece more to what was read, which stands there. The tokens are those of a tag.
    #[inline(always)]
    pub fn step(
        &mut self,
        alloc: Global,
        spans: PieceSpans,
        piece: Piece<'s>,
        tokens: &[Token<'s>],
    ) -> Result<(), Refusal>
        ensures value { let meant = piece_of tokens.now piece.entry in
            FileBecomes (spec.file_step max_tree_depth (file_of self.old) meant) result self.new }
        ensures points { (size : ℕ) → StandsWithin size spans
            → PieceInside size (piece_of tokens.now piece.entry)
            → IfErr result (PointsWithin size) }
    {
        self.parts.progress.tag = spans.whole.start;
        match self.take(alloc, piece, tokens) {
            Ok(()) => Ok(()),
            Err(Refusal::Syntax(why, span)) => {
                Err(Refusal::Syntax(why, spans.refusal_span(piece, span, tokens)))
            }
            Err(Refusal::OutOfMemory) => Err(Refusal::OutOfMemory),
        }
    }

    /// The same, where a refusal points at a token or behind the last one.
    fn take(&mut self, alloc: Global, piece: Piece<'s>, tokens: &[Token<'s>]) -> Result<(), Refusal>
        ensures { let meant = piece_of tokens.now piece.entry in
            FileBecomes (spec.file_step max_tree_depth (file_of self.old) meant) result self.new }
    {
        if self.is_front && is_extends_piece(piece, tokens) {
            self.extend(alloc, tokens)
        } else {
            self.keep(alloc, piece, tokens)
        }
    }

    /// The tag `extends`.
    fn extend(&mut self, alloc: Global, tag: &[Token<'s>]) -> Result<(), Refusal>
        ensures { let name = quoted_name (tokens_of tag.now) in
            FileBecomes (spec.extending (file_of self.old) name) result self.new }
    {
        let mut ahead = tokens_after_first(tag, false);
        self.parent = Some(quoted_name(alloc, &mut ahead)?);
        self.is_front = false;
        Ok(())
    }

    /// Any other piece.
    fn keep(&mut self, alloc: Global, piece: Piece<'s>, tokens: &[Token<'s>]) -> Result<(), Refusal>
        ensures { let meant = piece_of tokens.now piece.entry in
            FileBecomes (spec.kept max_tree_depth (file_of self.old) meant) result self.new }
    {
        self.is_front = self.is_front && is_front_piece(piece);
        self.parts.step(alloc, piece, tokens)
    }

    /// The tree, where the text ends here. It takes no memory.
    pub fn finish(self) -> Result<ParserOutput<'s>, Refusal>
        ensures value { Answers tree_of (spec.file_finished (file_of self.entry)) result }
        ensures told { IfErr result IsSyntax }
    {
        let File { parent, parts, .. } = self;
        match parts.finish() {
            Ok((nodes, component_definitions)) => Ok(ParserOutput {
                parent,
                nodes,
                component_definitions,
            }),
            Err(refusal) => Err(refusal),
        }
    }
}
