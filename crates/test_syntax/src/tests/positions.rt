//! Where syntax errors point, and what they say.

/// A text that spells no tree, where its error starts and ends, and the error's words.
#[derive(Clone, Copy)]
pub struct Position(pub &'static str, pub usize, pub usize, pub &'static str);

const NO_EXPRESSION: &str = "no expression begins here";

const NO_TOKEN: &str = "no token begins here";

const NO_TAG_END: &str = "the tag has no end";

const NO_NAME: &str = "a name is due here";

/// Between the standard delimiters.
pub static POSITIONS: [Position; 41] = [
    Position("{{ }}", 0, 5, NO_EXPRESSION),
    Position("ab{{}}", 2, 6, NO_EXPRESSION),
    Position("{%  %}", 0, 6, "no statement begins here"),
    Position("{{ a $ b }}", 5, 6, NO_TOKEN),
    Position("{{ a \u{e9} }}", 5, 7, NO_TOKEN),
    Position("{{ \"abc }}", 3, 4, NO_TOKEN),
    Position("ab{% if x %}c", 2, 12, "`if x` has no `endif`"),
    Position("{% if x %}a{% else %}b", 0, 10, "`if x` has no `endif`"),
    Position("{% if x %}a{% elif y %}b", 0, 10, "`if x` has no `endif`"),
    Position(
        "a{% for x in y %}{% if x %}b{% endif %}",
        1,
        17,
        "`for x in y` has no `endfor`",
    ),
    Position("{% block a %}b", 0, 13, "`block a` has no `endblock`"),
    Position("ab{{ x", 2, 4, NO_TAG_END),
    Position("ab{%- x", 2, 5, NO_TAG_END),
    Position("{{ (1 + 2 }}", 0, 2, NO_TAG_END),
    Position("ab{# x", 2, 4, "the comment has no end"),
    Position("ab{% raw %}x", 2, 11, "the raw text has no end"),
    Position("{{ 1 + }}", 7, 9, NO_EXPRESSION),
    Position("{{ 1 + * 2 }}", 7, 8, NO_EXPRESSION),
    Position("{{ [x for x in y if ] }}", 20, 21, NO_EXPRESSION),
    Position("{% if %}x{% endif %}", 6, 8, NO_EXPRESSION),
    Position("{{ x | }}", 7, 9, NO_NAME),
    Position("{{ x is -}}", 9, 11, NO_NAME),
    Position("{{ a.1 }}", 5, 6, NO_NAME),
    Position("{% set = 3 %}", 7, 8, NO_NAME),
    Position("{{ a b }}", 5, 6, "the tag goes on where its end is due"),
    Position("{% for x of y %}{% endfor %}", 9, 11, "`in` is due here"),
    Position("{% include x %}", 11, 12, "a text in quotes is due here"),
    Position(
        "{% frob %}",
        3,
        7,
        "there is no statement `frob` (is `for` meant?)",
    ),
    Position(
        "{% endif %}",
        3,
        8,
        "`endif` ends nothing: no statement is open here",
    ),
    Position(
        "{% if x %}{% endfor %}",
        13,
        19,
        "`endfor` ends nothing: `if x` of line 1 is open",
    ),
    Position(
        "{% block a %}{% endblock b %}",
        16,
        24,
        "`endblock b` ends nothing: `block a` of line 1 is open",
    ),
    Position(
        "{% else %}",
        3,
        7,
        "`else` goes on with nothing: no `if` and no `for` is open here",
    ),
    Position("{% break %}", 3, 8, "`break` stands in no loop"),
    Position(
        "{% block a %}{% endblock %}{% block a %}{% endblock %}",
        36,
        37,
        "the template has two blocks `a`",
    ),
    Position(
        "{% component A() %}{% endcomponent %}x{% component A() %}{% endcomponent %}",
        0,
        0,
        "the template defines two components `A`",
    ),
    // where the first text of its body begins
    Position(
        "{% component A() %}a{% endcomponent %}x{% component A() %}{{ b }}c{% endcomponent %}",
        65,
        65,
        "the template defines two components `A`",
    ),
    Position(
        "ab{% component A() %}c",
        2,
        21,
        "`component A()` has no `endcomponent`",
    ),
    Position(
        "{% if x %}{% component A() %}",
        13,
        22,
        "`component A()` stands inside of something, and a component is defined outside of everything",
    ),
    Position(
        "{% component A() %}{% endcomponent B %}",
        22,
        34,
        "`endcomponent B` ends nothing: `component A()` of line 1 is open",
    ),
    Position(
        "a{% extends \"b\" %}",
        4,
        11,
        "only white space and comments may stand before `extends`",
    ),
    Position(
        "{{ 170141183460469231731687303715884105728 }}",
        3,
        42,
        "the integer is too large",
    ),
];
