// Laws on where the markup of a rendering comes from, each the contract of a function that does nothing.
ghost use Rattle.tera_meaning.specs.Marks.Foreign.{MarkupIsTheTemplates};
ghost use Rattle.tera_meaning.specs.Marks.Origin.{BlocksAreTraced, ComponentsAreTraced, MarkupIsTraced, TemplatesAreTraced};
ghost use Rattle.tera_meaning.specs.Marks.Renderings.{CharactersComeFrom, NoMarkupComesOfNone};

/// Where texts are escaped, each `<`, `>`, `"` and `'` of a rendering comes from template text or from a value marked
/// safe: the same meaning says so at characters that bear where they come from.
#[tactic(auto, using(crate::proofs::Marks::Traced::markup_is_traced))]
pub fn markup_is_traced()
    ensures { MarkupIsTraced }
{}

/// The same of a template by name, where the template to which the name resolves escapes: its own flag holds in the text of its
/// parents, and of what is included, too.
#[tactic(auto, using(crate::proofs::Marks::Traced::templates_are_traced))]
pub fn templates_are_traced()
    ensures { TemplatesAreTraced }
{}

/// The same of a block of such a template, which may be defined in the text of any of its parents.
#[tactic(auto, using(crate::proofs::Marks::Traced::blocks_are_traced))]
pub fn blocks_are_traced()
    ensures { BlocksAreTraced }
{}

/// The same of a component that is rendered by itself: its body that is handed in is marked safe by the caller.
#[tactic(auto, using(crate::proofs::Marks::Traced::components_are_traced))]
pub fn components_are_traced()
    ensures { ComponentsAreTraced }
{}

/// Each character of a rendering comes from what its mark says. One that is marked as template text stands in a text of
/// a template. One that is marked safe stands in a safe text of a value of the caller, in one that an object of the
/// caller answers, or a template applies the filter `safe`. One that was escaped or made is no markup, and no character
/// of an unsafe text from outside is put out as it is.
#[tactic(auto, using(crate::proofs::Marks::Coming::characters_come_from))]
pub fn characters_come_from()
    ensures { CharactersComeFrom }
{}

/// Where neither a text of a template nor a text that is marked safe holds one of `<`, `>`, `"` and `'`, the rendering
/// holds none. No template applies the filter `safe` then, which would mark any text safe.
#[tactic(auto, using(crate::proofs::Marks::Coming::no_markup_comes_of_none))]
pub fn no_markup_comes_of_none()
    ensures { NoMarkupComesOfNone }
{}

/// Where nothing is marked safe, all markup of a page is text of its templates: what else the page holds has none of `<`,
/// `>`, `"` and `'`, whatever the caller's texts are.
#[tactic(auto, using(crate::proofs::Marks::Foreign::markup_is_the_templates))]
pub fn markup_is_the_templates()
    ensures { MarkupIsTheTemplates }
{}
