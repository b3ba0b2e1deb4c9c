//! What holds of what texts spell.
ghost use Rattle.tera_syntax.specs.Laws.{AnswersAsRead, OneReading, ReadsAsSpelled, SpansInside};

/// A text spells one tree at most.
pub fn one_reading()
    ensures { OneReading }
{}

/// All spans of a tree are stretches of the text that spells it.
pub fn spans_inside()
    ensures { SpansInside }
{}

/// What the reader makes of a text as a function is what the text spells: the well-formed tree that it spells, and no other;
/// where the function makes none, the text spells none.
pub fn reads_as_spelled()
    ensures { ReadsAsSpelled }
{}

/// So `parse` answers what the function makes of a text: its tree, or a syntax error where it makes none. The tree of a text
/// that is written out can be computed in a proof, and need not be derived.
pub fn answers_as_read()
    ensures { AnswersAsRead }
{}
