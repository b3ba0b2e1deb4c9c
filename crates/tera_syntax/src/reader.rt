// From a template's text to its tree.
ghost use Rattle.std.specs.Prelude.{IfErr, IfOk, IsTrue, length};
ghost use Rattle.tera_errors.specs.Prelude.{GivesOneOf};
ghost use Rattle.tera_syntax.specs.File as spec;
ghost use Rattle.tera_syntax.specs.Reads.{Reads, ReadsPlainText};
ghost use Rattle.tera_syntax.specs.View.{file_of};
ghost use Rattle.tera_syntax_tokens.specs.Prelude.{Answers, pieces, PointsWithin};
ghost use Rattle.tera_syntax_tree.specs.Depth.{max_tree_depth};
ghost use Rattle.tera_syntax_tree.specs.Prelude.{accepted, delimiters_of, Inside, tree_of};

use crate::blocks::with_distinct_names;
use crate::file::File;
use crate::positions::{PieceSpans, cut_refusal, refusal_at};
use crate::refusal_words::UnreadText;
use std::alloc::Global;
use tera_errors::{Error, TeraResult};
use tera_syntax_tokens::cut::next_piece;
use tera_syntax_tokens::refusal::Refusal;
use tera_syntax_tokens::token::Token;
use tera_syntax_tree::{Delimiters, ParserOutput};

/// The tree that was read, where the text ends here.
fn finish_file<'s>(
    tokens: &mut Vec<Token<'s>>,
    delimiters: &Delimiters,
    source: &'s str,
    file: File<'s>,
) -> Result<ParserOutput<'s>, Refusal>
    requires { IsTrue (accepted (delimiters_of delimiters.now)) }
    ensures value { Answers tree_of (spec.file_finished (file_of file.entry)) result }
    ensures points { IfErr result (PointsWithin (length source.now)) }
{
    match file.finish() {
        Ok(output) => Ok(output),
        Err(Refusal::Syntax(why, open)) => {
            Err(refusal_at(tokens, delimiters, source, why, open.start))
        }
        Err(Refusal::OutOfMemory) => Err(Refusal::OutOfMemory),
    }
}

/// The tree of a text.
fn read<'s>(
    alloc: Global,
    delimiters: &Delimiters,
    source: &'s str,
) -> Result<ParserOutput<'s>, Refusal>
    requires { IsTrue (accepted (delimiters_of delimiters.now)) }
    ensures value { let all = pieces (delimiters_of delimiters.now) source.now in
        Answers tree_of (spec.file max_tree_depth all) result }
    ensures points { IfErr result (PointsWithin (length source.now)) }
{
    let mut file = File::begin(alloc);
    let mut tokens = Vec::new(alloc);
    let mut rest = source;
    let mut at = 0;
    let mut trims = false;
    let mut opening = None;
    while !rest.is_empty() {
        let piece = match next_piece(&mut tokens, delimiters, rest, at, trims, opening) {
            Ok(piece) => piece,
            Err(refusal) => return Err(cut_refusal(refusal, rest, at)),
        };
        let spans = PieceSpans::new(delimiters, at, &piece);
        rest = piece.rest;
        at = piece.next;
        trims = piece.trims;
        opening = piece.opening;
        match file.step(alloc, spans, piece.piece, tokens.as_slice()) {
            Ok(()) => {}
            Err(refusal) => return Err(refusal),
        }
    }
    let output = finish_file(&mut tokens, delimiters, source, file)?;
    with_distinct_names(alloc, output)
}

/// Reads the text of a template. The tree borrows its names and texts from it.
///
/// A text that spells no tree is a `SyntaxError` with the template's name and the stretch of the text where reading
/// stopped; its message says what was due there.
pub fn parse<'s>(
    alloc: Global,
    name: &str,
    source: &'s str,
    delimiters: &Delimiters,
) -> TeraResult<ParserOutput<'s>>
    requires { IsTrue (accepted (delimiters_of delimiters.now)) }
    ensures reads { GivesOneOf tree_of result
        (Reads name.now (delimiters_of delimiters.now) source.now) }
    ensures inside { IfOk result (λ output. Inside (length source.now) (tree_of output)) }
    ensures plain { GivesOneOf tree_of result
        (ReadsPlainText (delimiters_of delimiters.now) source.now) }
{
    match read(alloc, delimiters, source) {
        Ok(output) => Ok(output),
        Err(Refusal::Syntax(why, span)) => {
            Err(UnreadText { source, delimiters }.error_at(alloc, name, why, span))
        }
        Err(Refusal::OutOfMemory) => Err(Error::out_of_memory()),
    }
}
