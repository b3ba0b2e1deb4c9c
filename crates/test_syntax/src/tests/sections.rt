//! Texts with filter sections, and with filters behind the name that `set` binds.
use super::rows::{RefusedText, TreeRow};

/// Between the standard delimiters.
pub static SECTIONS: [TreeRow; 16] = [
    TreeRow(
        "{% filter f %}x{% endfilter %}y",
        "(filter(|f 10-11) of (x 14-15))(y 30-31)",
    ),
    TreeRow(
        "{% filter f | g(a=1) %}x{% endfilter %}",
        "(filter(|f 10-11)(|g a=(1 18-19) 14-20) of (x 23-24))",
    ),
    TreeRow(
        "{% filter f(b=c, a=d, ) %}{% endfilter %}",
        "(filter(|f a=(d 19-20) b=(c 14-15) 10-23) of )",
    ),
    TreeRow(
        "{%- filter f () -%} x {%- endfilter -%} y",
        "(filter(|f 11-15) of (x 20-21))(y 40-41)",
    ),
    TreeRow(
        "{% filter filter | if | not %}{% endfilter %}",
        "(filter(|filter 10-16)(|if 19-21)(|not 24-27) of )",
    ),
    TreeRow(
        "{% filter f %}{% filter g %}x{% endfilter %}{% endfilter %}",
        "(filter(|f 10-11) of (filter(|g 24-25) of (x 28-29)))",
    ),
    TreeRow(
        "{% for v in e %}{% filter f(a=loop.index) %}{% break %}{{ loop.last }}{% endfilter %}{% endfor %}",
        "(for v in (e 12-13) do (filter(|f a=(__tera_loop_index 30-40) 26-41) of (break)(__tera_loop_last 58-67)) else )",
    ),
    TreeRow(
        "{% for v in e %}{% else %}{% filter f(a=loop.index) %}{% endfilter %}{% endfor %}",
        "(for v in (e 12-13) do  else (filter(|f a=(.(loop 40-44)index 40-50) 36-51) of ))",
    ),
    TreeRow(
        "{% filter f %}{% block b %}x{% endblock %}{% endfilter %}",
        "(filter(|f 10-11) of (block b of (x 27-28) 23-24))",
    ),
    TreeRow(
        "{% block b %}{% filter f %}{% for v in e %}{% continue %}{% endfor %}{% endfilter %}{% endblock %}",
        "(block b of (filter(|f 23-24) of (for v in (e 39-40) do (continue) else )) 9-10)",
    ),
    TreeRow(
        "{% filter f %}{% if a %}x{% else %}{% set b %}{% endset %}{% endif %}{% endfilter %}",
        "(filter(|f 10-11) of (if (a 20-21) then (x 24-25) else (set b to )))",
    ),
    TreeRow(
        "{% set a | f %}x{% endset %}",
        "(set a(|f 11-12) to (x 15-16))",
    ),
    TreeRow(
        "{% set a|f|g(b = -1) %}{% set c | h %}y{% endset %}{% endset %}z",
        "(set a(|f 9-10)(|g b=(-(1 18-19) 17-19) 11-20) to (set c(|h 34-35) to (y 38-39)))(z 63-64)",
    ),
    TreeRow(
        "{% set_global a | f %}x{% endset_global %}{% set_global b | f(a=b) %}{% endset %}",
        "(set_global a(|f 18-19) to (x 22-23))(set_global b(|f a=(b 64-65) 60-66) to )",
    ),
    TreeRow(
        "{{ filter }}{{ endfilter }}{% set filter = 1 %}",
        "(filter 3-9)(endfilter 15-24)(set filter(1 43-44))",
    ),
    TreeRow(
        "{% extends 'a' %}{% filter f %}{% block b %}{% endblock %}{% endfilter %}",
        "<a>(filter(|f 27-28) of (block b of  40-41))",
    ),
];

pub static UNREAD_SECTIONS: [RefusedText; 48] = [
    RefusedText("{% filter %}"),
    RefusedText("{% filter %}x{% endfilter %}"),
    RefusedText("{% filter f %}"),
    RefusedText("{% filter f %}x"),
    RefusedText("{% filter f | %}{% endfilter %}"),
    RefusedText("{% filter | f %}{% endfilter %}"),
    RefusedText("{% filter f g %}{% endfilter %}"),
    RefusedText("{% filter f, g %}{% endfilter %}"),
    RefusedText("{% filter 'f' %}{% endfilter %}"),
    RefusedText("{% filter 1 %}{% endfilter %}"),
    RefusedText("{% filter f.g %}{% endfilter %}"),
    RefusedText("{% filter f() () %}{% endfilter %}"),
    RefusedText("{% filter f(1) %}{% endfilter %}"),
    RefusedText("{% filter f(a) %}{% endfilter %}"),
    RefusedText("{% filter f(a=1, a=2) %}{% endfilter %}"),
    RefusedText("{% filter f(a= %}{% endfilter %}"),
    RefusedText("{% filter (f) %}{% endfilter %}"),
    RefusedText("{% filter f = 1 %}{% endfilter %}"),
    RefusedText("{% filter f %}{% endfilter f %}"),
    RefusedText("{% filter f %}{% endset %}"),
    RefusedText("{% filter f %}{% endif %}"),
    RefusedText("{% filter f %}{% else %}{% endfilter %}"),
    RefusedText("{% filter f %}{% elif a %}{% endfilter %}"),
    RefusedText("{% endfilter %}"),
    RefusedText("{% filter f %}{% endfilter %}{% endfilter %}"),
    RefusedText("{% set a | f %}{% endfilter %}"),
    RefusedText("{% if a %}{% filter f %}{% endif %}{% endfilter %}"),
    RefusedText("{% filter f %}{% break %}{% endfilter %}"),
    RefusedText(
        "{% for v in e %}{% else %}{% filter f %}{% continue %}{% endfilter %}{% endfor %}",
    ),
    RefusedText(
        "{% for v in e %}{% block a %}{% filter f %}{% break %}{% endfilter %}{% endblock %}{% endfor %}",
    ),
    RefusedText(
        "{% filter f %}{% block a %}{% endblock %}{% endfilter %}{% block a %}{% endblock %}",
    ),
    RefusedText("{% filter f %}{% extends 'a' %}{% endfilter %}"),
    RefusedText("{% filter f %}{% endfilter %}{% extends 'a' %}"),
    RefusedText("{% set x | %}"),
    RefusedText("{% set x | %}{% endset %}"),
    RefusedText("{% set x | f"),
    RefusedText("{% set x | f %}"),
    RefusedText("{% set x | f | %}{% endset %}"),
    RefusedText("{% set x | f = 1 %}"),
    RefusedText("{% set x | f g %}{% endset %}"),
    RefusedText("{% set | f %}{% endset %}"),
    RefusedText("{% set x f %}{% endset %}"),
    RefusedText("{% set x | 'f' %}{% endset %}"),
    RefusedText("{% set x | f(a=1 %}{% endset %}"),
    RefusedText("{% set x | f %}{% endset x %}"),
    RefusedText("{% set x | f %}{% endset_global %}"),
    RefusedText("{% set_global x | %}{% endset_global %}"),
    RefusedText("{{ filter f }}"),
];
