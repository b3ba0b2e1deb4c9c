//! Texts in which parts stand in one another, and how deep they may.
use self::NestAnswer::{Deepest, Read, Refused};

/// How a text is answered in which parts stand in one another so many times.
#[derive(Clone, Copy)]
pub enum NestAnswer {
    /// It is read, and with one more it is refused.
    Deepest(usize),
    Read(usize),
    Refused(usize),
}

/// Five texts, of which the second and the fourth stand many times, and how they are answered.
#[derive(Clone, Copy)]
pub struct NestedText(pub [&'static str; 5], pub NestAnswer);

const EMPTY_BLOCK: &str = "{% block b %}{% endblock %}";

const COMPONENT: &str = "{% component A() %}";

const END_COMPONENT: &str = "{% endcomponent %}";

const END_SIGNATURE: &str = ") %}{% endcomponent %}";

const PARENTHESES: [&str; 5] = ["{{ ", "(", "a", ")", " }}"];

const OPEN_PARENTHESES: [&str; 5] = ["{{ ", "(", "a", "", " }}"];

const NOTS: [&str; 5] = ["{{ ", "not ", "a", "", " }}"];

const ARRAYS: [&str; 5] = ["{{ ", "[", "a", "]", " }}"];

const CHOICES: [&str; 5] = ["", "{% if a %}", "x", "{% endif %}", ""];

const ELIFS: [&str; 5] = ["{% if a %}x", "{% elif a %}x", "", "", "{% endif %}"];

const LOOPS: [&str; 5] = ["", "{% for v in e %}", "x", "{% endfor %}", ""];

const EMPTY_LOOPS: [&str; 5] = ["", "{% for v in e %}", "", "{% endfor %}", ""];

const LEFT_LOOPS: [&str; 5] = ["", "{% for v in e %}", "{% break %}", "{% endfor %}", ""];

const CAPTURES: [&str; 5] = ["", "{% set a %}", "x", "{% endset %}", ""];

const EMPTY_CAPTURES: [&str; 5] = ["", "{% set a %}", "", "{% endset %}", ""];

const EMPTY_BLOCKS: [&str; 5] = ["", "{% set a %}", EMPTY_BLOCK, "{% endset %}", ""];

const CONDITIONS: [&str; 5] = ["{% if ", "not ", "a", "", " %}x{% endif %}"];

const SECTIONS: [&str; 5] = ["", "{% filter f %}", "x", "{% endfilter %}", ""];

const EMPTY_SECTIONS: [&str; 5] = ["", "{% filter f %}", "", "{% endfilter %}", ""];

const SECTION_ARGUMENTS: [&str; 5] = ["{% filter f(a=", "not ", "b", "", ") %}{% endfilter %}"];

const FILTERED_CAPTURES: [&str; 5] = ["", "{% set a | f(b=1) %}", "", "{% endset %}", ""];

const SECTION_FILTERS: [&str; 5] = ["{% filter f", " | f", "", "", " %}{% endfilter %}"];

const FILTERS: [&str; 5] = ["{{ a", " | f", "", "", " }}"];

const TESTS: [&str; 5] = ["{{ a", " is b", "", "", " }}"];

const UNTRUE_TESTS: [&str; 5] = ["{{ a", " is not b", "", "", " }}"];

const CALLS: [&str; 5] = ["{{ ", "f(a=", "b", ")", " }}"];

const ARGUMENTS: [&str; 5] = ["{{ ", "a | f(b=", "c", ")", " }}"];

const COMPONENTS: [&str; 5] = ["", "{% <X> %}", "a", "{% </X> %}", ""];

const CALLS_IN_COMPONENT: [&str; 5] = [COMPONENT, "{% <X> %}", "a", "{% </X> %}", END_COMPONENT];

const CHOICES_IN_COMPONENT: [&str; 5] = [
    COMPONENT,
    "{% if 1 %}",
    "x",
    "{% endif %}",
    END_COMPONENT,
];

const EMPTY_CAPTURES_IN_COMPONENT: [&str; 5] = [
    COMPONENT,
    "{% set a %}",
    "",
    "{% endset %}",
    END_COMPONENT,
];

const CHOICES_BEHIND_COMPONENT: [&str; 5] = [
    "{% component A() %}{% endcomponent %}",
    "{% if 1 %}",
    "x",
    "{% endif %}",
    "",
];

const DEFAULTS: [&str; 5] = ["{% component A(a = ", "[", "1", "]", END_SIGNATURE];

const ATTRIBUTES: [&str; 5] = ["{% <X a={", "[", "1", "]", "}> %}{% </X> %}"];

const INCLUDES: [&str; 5] = ["", "{% set a %}", "{% include 'b' %}", "{% endset %}", ""];

/// Between the standard delimiters.
pub static NESTS: [NestedText; 31] = [
    NestedText(PARENTHESES, Read(20_000)),
    NestedText(OPEN_PARENTHESES, Refused(20_000)),
    NestedText(NOTS, Deepest(198)),
    NestedText(ARRAYS, Deepest(198)),
    NestedText(CHOICES, Deepest(199)),
    // the first condition is an `if`
    NestedText(ELIFS, Deepest(198)),
    NestedText(CONDITIONS, Deepest(198)),
    NestedText(LOOPS, Deepest(199)),
    NestedText(EMPTY_LOOPS, Deepest(199)),
    NestedText(LEFT_LOOPS, Deepest(199)),
    NestedText(CAPTURES, Deepest(199)),
    // a statement without an expression may stand at the limit
    NestedText(EMPTY_CAPTURES, Deepest(200)),
    NestedText(EMPTY_BLOCKS, Deepest(199)),
    NestedText(SECTIONS, Deepest(199)),
    // a filter is one deep
    NestedText(EMPTY_SECTIONS, Deepest(199)),
    // the name, the filter and the section
    NestedText(SECTION_ARGUMENTS, Deepest(197)),
    NestedText(FILTERED_CAPTURES, Deepest(198)),
    NestedText(SECTION_FILTERS, Read(20_000)),
    // the name, the filters and the node
    NestedText(FILTERS, Deepest(198)),
    NestedText(TESTS, Deepest(198)),
    // each is a test and a `not`
    NestedText(UNTRUE_TESTS, Deepest(99)),
    NestedText(CALLS, Deepest(198)),
    NestedText(ARGUMENTS, Deepest(198)),
    NestedText(COMPONENTS, Deepest(199)),
    // a component that is defined is no level
    NestedText(CALLS_IN_COMPONENT, Deepest(199)),
    NestedText(CHOICES_IN_COMPONENT, Deepest(199)),
    NestedText(EMPTY_CAPTURES_IN_COMPONENT, Deepest(200)),
    NestedText(DEFAULTS, Deepest(199)),
    // an attribute is a part of a node
    NestedText(ATTRIBUTES, Deepest(198)),
    NestedText(CHOICES_BEHIND_COMPONENT, Deepest(199)),
    NestedText(INCLUDES, Deepest(199)),
];
