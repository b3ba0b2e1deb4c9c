//! Texts with includes.
use super::rows::{RefusedText, TreeRow};

/// Between the standard delimiters.
pub static INCLUDES: [TreeRow; 17] = [
    TreeRow("{% include \"a\" %}", "(include a 11-14)"),
    TreeRow(
        "a{%-include'b.html'-%} c",
        "(a 0-1)(include b.html 11-19)(c 23-24)",
    ),
    TreeRow("{%\ninclude\t`a`\n%}", "(include a 11-14)"),
    TreeRow("{% include 'a\\'\\n\\e' %}", "(include a'\n\\e 11-20)"),
    TreeRow("{% include '' %}x", "(include  11-13)(x 16-17)"),
    TreeRow("{% include 'é' %}{{ y }}", "(include é 11-15)(y 21-22)"),
    TreeRow(
        "{% include 'a' %}{% include 'a' %}",
        "(include a 11-14)(include a 28-31)",
    ),
    TreeRow(
        "{% if a %}{% include 'b' %}{% elif c %}{% include 'd' %}{% endif %}",
        "(if (a 6-7) then (include b 21-24) else (if (c 35-36) then (include d 50-53) else ))",
    ),
    TreeRow(
        "{% for v in e %}{% include 'a' %}{% break %}{% else %}{% include 'b' %}{% endfor %}",
        "(for v in (e 12-13) do (include a 27-30)(break) else (include b 65-68))",
    ),
    TreeRow(
        "{% set a %}{% include 'b' %}{% endset %}",
        "(set a to (include b 22-25))",
    ),
    TreeRow(
        "{% filter f %}{% include 'a' %}{% endfilter %}",
        "(filter(|f 10-11) of (include a 25-28))",
    ),
    TreeRow(
        "{% block b %}{% include 'a' %}{% endblock %}",
        "(block b of (include a 24-27) 9-10)",
    ),
    TreeRow("{% extends 'a' %}{% include 'b' %}", "<a>(include b 28-31)"),
    TreeRow(
        "{% set include = include %}{{ include }}",
        "(set include(include 17-24))(include 30-37)",
    ),
    TreeRow(
        "{% block include %}{% endblock include %}",
        "(block include of  9-16)",
    ),
    TreeRow(
        "{% block if %}{% block not %}{% endblock not %}{% endblock if %}",
        "(block if of (block not of  23-26) 9-11)",
    ),
    TreeRow(
        "{% raw %}{% include 'a' %}{% endraw %}",
        "({% include 'a' %} 9-26)",
    ),
];

pub static UNREAD_INCLUDES: [RefusedText; 26] = [
    RefusedText("{% include %}"),
    RefusedText("{% include a %}"),
    RefusedText("{% include include %}"),
    RefusedText("{% include 1 %}"),
    RefusedText("{% include none %}"),
    RefusedText("{% include 'a' 'b' %}"),
    RefusedText("{% include 'a', 'b' %}"),
    RefusedText("{% include 'a' ~ 'b' %}"),
    RefusedText("{% include ('a') %}"),
    RefusedText("{% include ['a'] %}"),
    RefusedText("{% include = 'a' %}"),
    RefusedText("{% include 'a' | f %}"),
    RefusedText("{% include 'a'.b %}"),
    RefusedText("{% include 'a' if b else 'c' %}"),
    RefusedText("{% include 'a' ignore missing %}"),
    RefusedText("{% include 'a"),
    RefusedText("{% include 'a'"),
    RefusedText("{% include 'a %}"),
    RefusedText("{% include 'a' %}{% endinclude %}"),
    RefusedText("{% endinclude %}"),
    RefusedText("{% includes 'a' %}"),
    RefusedText("{% Include 'a' %}"),
    RefusedText("{% 'a' %}"),
    RefusedText("{{ include 'a' }}"),
    RefusedText("{% include 'a' %}{% extends 'b' %}"),
    RefusedText("{% if a %}{% include 'b' %}"),
];
