//! What callers prove of their own pages by: each law is the contract of a function that does nothing.
ghost use Rattle.tera.specs.PageLaws.{AnswersAsComputed, MarkupIsTheTexts};

/// What `render_str` and `one_off` answer for a text is what the text computes to, as a function of it, of the context and of
/// the registry. So the exact bytes of a page of which the text is written out need no derivation.
pub fn answers_as_computed()
    ensures { AnswersAsComputed }
{}

/// Where texts are escaped, by `escape_html`, and nothing is marked safe, all markup of a page is its text's own: no `<`, `>`,
/// `"` or `'` of a value of the caller is in it as it is.
pub fn markup_is_the_texts()
    ensures { MarkupIsTheTexts }
{}
