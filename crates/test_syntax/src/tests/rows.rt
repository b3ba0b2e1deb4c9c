//! Texts, and what reading them gives.

/// A text, and its tree in words.
#[derive(Clone, Copy)]
pub struct TreeRow(pub &'static str, pub &'static str);

/// A text that spells no tree.
#[derive(Clone, Copy)]
pub struct RefusedText(pub &'static str);

/// A start and an end of comments beside `<% %>` and `<< >>`, and a text with its tree.
#[derive(Clone, Copy)]
pub struct Other(pub &'static str, pub &'static str, pub TreeRow);

/// A start and an end of comments that can't stand beside these.
#[derive(Clone, Copy)]
pub struct Unusable(pub &'static str, pub &'static str);

/// Between the standard delimiters.
pub static TREES: [TreeRow; 79] = [
    TreeRow("", ""),
    TreeRow("Hello {{ name }}!", "(Hello  0-6)(name 9-13)(! 16-17)"),
    TreeRow("a{# b #}c{# d }} #}", "(a 0-1)(c 8-9)"),
    TreeRow("a \u{a0}{{- 1 -}} \n b", "(a 0-1)(1 8-9)(b 16-17)"),
    TreeRow("a {{-1}}", "(a 0-1)(1 5-6)"),
    TreeRow(" {#- a -#} b {#-#} c", "(b 11-12)( c 18-20)"),
    TreeRow("{{ -2 ** 2 }}", "(-(Power(2 4-5)(2 9-10) 4-10) 3-10)"),
    TreeRow("{{ 2 ** -1 }}", "(Power(2 3-4)(-(1 9-10) 8-10) 3-10)"),
    TreeRow(
        "{{ 1 < 2 == true }}",
        "(Equal(Less(1 3-4)(2 7-8) 3-8)(true 12-16) 3-16)",
    ),
    TreeRow(
        "{{ 1 if false else 2 if false else 3 }}",
        "(if(1 3-4)(false 8-13)(if(2 19-20)(false 24-29)(3 35-36) 19-36) 3-36)",
    ),
    TreeRow(
        "{{ [1, 2][-1:0:-1] }}",
        "([:](array(1 4-5)(2 7-8) 3-9)(-(1 11-12) 10-12)(0 13-14)(-(1 16-17) 15-17) 3-18)",
    ),
    TreeRow("{{ {...m, \"a\": 1,} }}", "(map...(m 7-8):(1 15-16) 3-18)"),
    TreeRow("{{ x not in y }}", "(not(In(x 3-4)(y 12-13) 3-13) 3-13)"),
    TreeRow(
        "{{ a?.if?[b][:] }}",
        "([:](?[](?.(a 3-4)if 3-8)(b 10-11) 3-12)___ 3-15)",
    ),
    TreeRow(
        "{{ (a or b) and not c ~ 'd\\n\\e' }}",
        "(and(or(a 4-5)(b 9-10) 4-10)(not(Concat(c 20-21)('d\n\\e' 24-31) 20-31) 16-31) 3-31)",
    ),
    TreeRow("{{{\"a\": 1}.a}}", "(.(map:(1 8-9) 2-10)a 2-12)"),
    TreeRow(
        "{{ {\"a\": {\"b\": 1}}.a.b }}",
        "(.(.(map:(map:(1 15-16) 9-17) 3-18)a 3-20)b 3-22)",
    ),
    TreeRow(
        "{% if a %}x{% endif %}",
        "(if (a 6-7) then (x 10-11) else )",
    ),
    TreeRow("{% if a %}{% endif %}", "(if (a 6-7) then  else )"),
    TreeRow(
        "{% if a %}x{% else %}y{% endif %}",
        "(if (a 6-7) then (x 10-11) else (y 21-22))",
    ),
    TreeRow(
        "{% if a %}x{% elif b %}y{% endif %}",
        "(if (a 6-7) then (x 10-11) else (if (b 19-20) then (y 23-24) else ))",
    ),
    TreeRow(
        "{% if a %}{% elif b %}{% elif c %}{% else %}z{% endif %}",
        "(if (a 6-7) then  else (if (b 18-19) then  else (if (c 30-31) then  else (z 44-45))))",
    ),
    TreeRow(
        "p{% if a %}q{% if b %}r{% else %}s{% endif %}t{% else %}u{% endif %}v",
        "(p 0-1)(if (a 7-8) then (q 11-12)(if (b 18-19) then (r 22-23) else (s 33-34))(t 45-46) else (u 56-57))(v 68-69)",
    ),
    TreeRow(
        "{% if a %}{% else %}{% if b %}x{% endif %}y{% endif %}",
        "(if (a 6-7) then  else (if (b 26-27) then (x 30-31) else )(y 42-43))",
    ),
    TreeRow(
        "{% if a %}{% elif b %}{% if c %}x{% elif d %}y{% endif %}z{% endif %}",
        "(if (a 6-7) then  else (if (b 18-19) then (if (c 28-29) then (x 32-33) else (if (d 41-42) then (y 45-46) else ))(z 57-58) else ))",
    ),
    TreeRow(
        "a {%- if not b == c -%} d {#- e -#} {%- endif -%} f",
        "(a 0-1)(if (not(Equal(b 13-14)(c 18-19) 13-19) 9-19) then (d 24-25) else )(f 50-51)",
    ),
    TreeRow(
        "{% if 1 if a else b %}{{ x }}{% endif %}",
        "(if (if(1 6-7)(a 11-12)(b 18-19) 6-19) then (x 25-26) else )",
    ),
    TreeRow(
        "{{ 170141183460469231731687303715884105727 }}",
        "(170141183460469231731687303715884105727 3-42)",
    ),
    TreeRow(
        "{{ endif }}{{ a.else }}",
        "(endif 3-8)(.(a 14-15)else 14-20)",
    ),
    TreeRow("{{ loop.index }}", "(.(loop 3-7)index 3-13)"),
    TreeRow("{% set a = 1 %}b", "(set a(1 11-12))(b 15-16)"),
    TreeRow("{% set set = set %}", "(set set(set 13-16))"),
    TreeRow(
        "{% set_global a = b ~ c %}",
        "(set_global a(Concat(b 18-19)(c 22-23) 18-23))",
    ),
    TreeRow(
        "{% set a %}x{% set b = a %}y{% endset %}z",
        "(set a to (x 11-12)(set b(a 23-24))(y 27-28))(z 40-41)",
    ),
    TreeRow(
        "{% set_global a %}x{% endset_global %}{% set_global b %}{% endset %}",
        "(set_global a to (x 18-19))(set_global b to )",
    ),
    TreeRow(
        "{% for v in e %}x{% endfor %}",
        "(for v in (e 12-13) do (x 16-17) else )",
    ),
    TreeRow(
        "{% for v in e %}x{% else %}y{% endfor %}z",
        "(for v in (e 12-13) do (x 16-17) else (y 27-28))(z 40-41)",
    ),
    TreeRow(
        "{% for k, v in e %}{{ k }}{% endfor %}",
        "(for k, v in (e 15-16) do (k 22-23) else )",
    ),
    TreeRow(
        "{% for v in a if b else c %}{% endfor %}",
        "(for v in (if(a 12-13)(b 17-18)(c 24-25) 12-25) do  else )",
    ),
    TreeRow(
        "{%- for v in e -%} x {%- else -%} y {%- endfor -%} z",
        "(for v in (e 13-14) do (x 19-20) else (y 34-35))(z 51-52)",
    ),
    TreeRow(
        "{% for v in e %}{% if a %}{% break %}{% elif b %}{% continue %}{% endif %}{% endfor %}",
        "(for v in (e 12-13) do (if (a 22-23) then (break) else (if (b 45-46) then (continue) else )) else )",
    ),
    TreeRow(
        "{% for v in e %}{% for w in f %}{% continue %}{% else %}{% break %}{% endfor %}{% break %}{% endfor %}",
        "(for v in (e 12-13) do (for w in (f 28-29) do (continue) else (break))(break) else )",
    ),
    TreeRow(
        "{% for v in e %}{% set a %}{% break %}{{ loop.first }}{% endset %}{% set b = loop.first %}{% endfor %}",
        "(for v in (e 12-13) do (set a to (break)(__tera_loop_first 41-51))(set b(__tera_loop_first 77-87)) else )",
    ),
    TreeRow(
        "{% for v in loop.last %}{{ loop.last }}{% else %}{{ loop.last }}{% endfor %}",
        "(for v in (.(loop 12-16)last 12-21) do (__tera_loop_last 27-36) else (.(loop 52-56)last 52-61))",
    ),
    TreeRow(
        "{% for v in e %}{% if loop.first %}{% elif loop.last %}{{ loop.index }}{% else %}{{ loop.index0 }}{% endif %}{% endfor %}",
        "(for v in (e 12-13) do (if (__tera_loop_first 22-32) then  else (if (__tera_loop_last 43-52) then (__tera_loop_index 58-68) else (__tera_loop_index0 84-95))) else )",
    ),
    TreeRow(
        "{% for v in e %}{% for w in loop.index %}{% else %}{{ loop.length }}{% endfor %}{% endfor %}{{ loop.index }}",
        "(for v in (e 12-13) do (for w in (__tera_loop_index 28-38) do  else (__tera_loop_length 54-65)) else )(.(loop 95-99)index 95-105)",
    ),
    TreeRow(
        "{{ break }}{{ endfor }}{{ set }}",
        "(break 3-8)(endfor 14-20)(set 26-29)",
    ),
    TreeRow(
        "{{ [x * 2 for x in e if x > 1] }}",
        "(each(Multiply(x 4-5)(2 8-9) 4-9) for x in (e 19-20) if (Greater(x 24-25)(1 28-29) 24-29) 3-30)",
    ),
    TreeRow("{% extends \"a\" %}", "<a>"),
    TreeRow("{% extends '' %}x", "<>(x 16-17)"),
    TreeRow("{%extends`a.html`%}", "<a.html>"),
    TreeRow("{% extends 'a\\'\\n\\e' %}", "<a'\n\\e>"),
    TreeRow(
        " \n\t{# a #}\u{a0}{%- extends 'é' -%} \n x{{ y }}",
        "<é>( \n\t 0-3)(x 35-36)(y 39-40)",
    ),
    TreeRow("{#- a -#} {# b #}{% extends 'c' %} ", "<c>(  34-35)"),
    TreeRow(
        "{% extends 'a' %}{% if b %}c{% endif %}",
        "<a>(if (b 23-24) then (c 27-28) else )",
    ),
    TreeRow("{% extends 'a' %}{% raw %}b{% endraw %}", "<a>(b 26-27)"),
    TreeRow(
        "{% extends 'a' %}{% set extends = 1 %}",
        "<a>(set extends(1 34-35))",
    ),
    // white space in front is a text as any other, by `raw` or not
    TreeRow("{% raw %} {% endraw %}{% extends 'a' %}", "<a>(  9-10)"),
    TreeRow(" {% extends 'a' %}b", "<a>(  0-1)(b 18-19)"),
    TreeRow(
        "\n{# b #} {% extends 'a' %}{{ c }}",
        "<a>(\n 0-1)(  8-9)(c 29-30)",
    ),
    TreeRow(" {%- extends 'a' -%} {{ b }}", "<a>(b 24-25)"),
    TreeRow(
        " {# b -#} {% extends 'a' %}{% component C() %}c{% endcomponent %}",
        "<a>(  0-1)(component C() of (c 46-47))",
    ),
    TreeRow("{% raw %}{% endraw %}{% extends 'a' %}b", "<a>(b 38-39)"),
    TreeRow(" {# a #}\n{{ b }}", "(  0-1)(\n 8-9)(b 12-13)"),
    TreeRow(
        "{% set extends %}{{ extends }}{% endset %}",
        "(set extends to (extends 20-27))",
    ),
    TreeRow(
        "{% for extends in extends.extends %}{% endfor %}",
        "(for extends in (.(extends 18-25)extends 18-33) do  else )",
    ),
    TreeRow("{{ extends }}", "(extends 3-10)"),
    TreeRow(
        "{% raw %}{% extends 'a' %}{% endraw %}",
        "({% extends 'a' %} 9-26)",
    ),
    TreeRow(
        "{% for v in [w for k, w in e] %}{{ [loop.last for x in loop.first] }}{% endfor %}",
        "(for v in (each(w 13-14) for k, w in (e 27-28) if _ 12-29) do (each(__tera_loop_last 36-45) for x in (__tera_loop_first 55-65) if _ 35-66) else )",
    ),
    TreeRow(
        "{% block a %}x{% endblock %}y",
        "(block a of (x 13-14) 9-10)(y 28-29)",
    ),
    TreeRow(
        "{% block a %}{% block b %}{% endblock b %}{% endblock a %}",
        "(block a of (block b of  22-23) 9-10)",
    ),
    TreeRow(
        "{%- block a -%} x {%- endblock a -%} y",
        "(block a of (x 16-17) 10-11)(y 37-38)",
    ),
    TreeRow(
        "{% block block %}{% endblock block %}",
        "(block block of  9-14)",
    ),
    TreeRow(
        "{% set block %}{{ block }}{% endset %}{{ endblock }}",
        "(set block to (block 18-23))(endblock 41-49)",
    ),
    TreeRow(
        "{% if b %}{% block a %}{% endblock %}{% else %}{% block c %}{% endblock %}{% endif %}",
        "(if (b 6-7) then (block a of  19-20) else (block c of  56-57))",
    ),
    TreeRow(
        "{% block a %}{% for v in e %}{% break %}{% endfor %}{% endblock %}",
        "(block a of (for v in (e 25-26) do (break) else ) 9-10)",
    ),
    TreeRow(
        "{% for v in e %}{% block a %}{{ loop.first }}{% endblock %}{% break %}{% endfor %}",
        "(for v in (e 12-13) do (block a of (__tera_loop_first 32-42) 25-26)(break) else )",
    ),
    TreeRow(
        "{% for v in e %}{% else %}{% block a %}{{ loop.first }}{% endblock %}{% endfor %}",
        "(for v in (e 12-13) do  else (block a of (.(loop 42-46)first 42-52) 35-36))",
    ),
    TreeRow(
        "{% extends 'a' %}{% block b %}c{% endblock %}",
        "<a>(block b of (c 30-31) 26-27)",
    ),
];

pub static REFUSED: [RefusedText; 162] = [
    RefusedText("{{ }}"),
    RefusedText("{{ a"),
    RefusedText("b {# open"),
    RefusedText("{{ a.0 }}"),
    RefusedText("{{ 1 2 }}"),
    RefusedText("{{ a if b }}"),
    RefusedText("{{ a <b/> }}"),
    RefusedText("{{ a[] }}"),
    RefusedText("{{ (a }}"),
    RefusedText("{{ 'a }}"),
    RefusedText("{{ 170141183460469231731687303715884105728 }}"),
    RefusedText("{{ {a: 1} }}"),
    RefusedText("{{ x is not not in y }}"),
    RefusedText("{% if %}"),
    RefusedText("{% if %}x{% endif %}"),
    RefusedText("{% if a b %}x{% endif %}"),
    RefusedText("{% if a %}"),
    RefusedText("{% if a %}x"),
    RefusedText("{% if a %}x{% else %}y"),
    RefusedText("{% if a %}x{% elif b %}y"),
    RefusedText("{% if a %}{% if b %}{% endif %}"),
    RefusedText("{% if a %}{% endif %}{% endif %}"),
    RefusedText("{% if a %}{% elif b %}{% endif %}{% endif %}"),
    RefusedText("{% else %}"),
    RefusedText("{% elif a %}"),
    RefusedText("{% elif a %}{% endif %}"),
    RefusedText("{% endif %}"),
    RefusedText("{% if a %}{% else %}{% else %}{% endif %}"),
    RefusedText("{% if a %}{% else %}{% elif b %}{% endif %}"),
    RefusedText("{% if a %}{% elif %}{% endif %}"),
    RefusedText("{% if a %}{% endif x %}"),
    RefusedText("{% if a %}{% else x %}{% endif %}"),
    RefusedText("{% endif x %}"),
    RefusedText("{% else x %}"),
    RefusedText("{% if a %}{% end %}"),
    RefusedText("{% if a %}{% \"endif\" %}"),
    RefusedText("{% if a %}{% endif %"),
    RefusedText("{% %}"),
    RefusedText("{% a %}"),
    RefusedText("{% (if a) %}{% endif %}"),
    RefusedText("{{ if a }}"),
    RefusedText("{{ elif }}"),
    RefusedText("{{ x not y }}"),
    RefusedText("{{ {\"a\": 1 }}"),
    RefusedText("{{ {\"a\" 1} }}"),
    RefusedText("{{ a[1:2 }}"),
    RefusedText("{{ {170141183460469231731687303715884105728: 1} }}"),
    RefusedText("{% set %}"),
    RefusedText("{% set a = %}"),
    RefusedText("{% set a 1 %}"),
    RefusedText("{% set a = 1 b %}"),
    RefusedText("{% set if = 1 %}"),
    RefusedText("{% set 1 = 2 %}"),
    RefusedText("{% set a.b = 1 %}"),
    RefusedText("{% set a, b = 1 %}"),
    RefusedText("{% set a %}"),
    RefusedText("{% set a %}{% endset a %}"),
    RefusedText("{% set a %}{% else %}{% endset %}"),
    RefusedText("{% set a %}{% elif b %}{% endset %}"),
    RefusedText("{% set a %}{% endif %}"),
    RefusedText("{% set a %}{% endfor %}"),
    RefusedText("{% set a %}{% endset_global %}"),
    RefusedText("{% endset %}"),
    RefusedText("{% endset_global %}"),
    RefusedText("{% set_global a %}"),
    RefusedText("{% set_global 1 = 2 %}"),
    RefusedText("{% set_global a %}{% endset_global a %}"),
    RefusedText("{% for %}{% endfor %}"),
    RefusedText("{% for v %}{% endfor %}"),
    RefusedText("{% for in x %}{% endfor %}"),
    RefusedText("{% for x of y %}{% endfor %}"),
    RefusedText("{% for v in %}{% endfor %}"),
    RefusedText("{% for v in e %}"),
    RefusedText("{% for v in e %}{% else %}"),
    RefusedText("{% for v in e %}{% endif %}"),
    RefusedText("{% for v in e %}{% endset %}"),
    RefusedText("{% for v in e f %}{% endfor %}"),
    RefusedText("{% for 1 in e %}{% endfor %}"),
    RefusedText("{% for if in e %}{% endfor %}"),
    RefusedText("{% for k v in e %}{% endfor %}"),
    RefusedText("{% for k, in e %}{% endfor %}"),
    RefusedText("{% for k, 1 in e %}{% endfor %}"),
    RefusedText("{% for k, v, w in e %}{% endfor %}"),
    RefusedText("{% for v in e %}{% elif a %}{% endfor %}"),
    RefusedText("{% for v in e %}{% else %}{% else %}{% endfor %}"),
    RefusedText("{% for v in e %}{% endfor v %}"),
    RefusedText("{% for v in e %}{% if a %}{% endfor %}{% endif %}"),
    RefusedText("{% if a %}{% for v in e %}{% endif %}{% endfor %}"),
    RefusedText("{% endfor %}"),
    RefusedText("{% break %}"),
    RefusedText("{% continue %}"),
    RefusedText("{% if a %}{% break %}{% endif %}"),
    RefusedText("{% set a %}{% continue %}{% endset %}"),
    RefusedText("{% for v in e %}{% endfor %}{% continue %}"),
    RefusedText("{% for v in e %}{% else %}{% break %}{% endfor %}"),
    RefusedText("{% for v in e %}{% else %}{% if a %}{% continue %}{% endif %}{% endfor %}"),
    RefusedText(
        "{% for v in e %}{% for w in f %}{% endfor %}{% else %}{% set a %}{% break %}{% endset %}{% endfor %}",
    ),
    RefusedText("{% for v in e %}{% break a %}{% endfor %}"),
    RefusedText("{% for v in e %}{% continue 1 %}{% endfor %}"),
    RefusedText("{{ [x for x in a if b else c] }}"),
    RefusedText("{{ [x for in e] }}"),
    RefusedText("{{ [x for x of e] }}"),
    RefusedText("{{ [x, y for x in e] }}"),
    RefusedText("{{ [...x for x in e] }}"),
    RefusedText("{{ [x for x in e }}"),
    RefusedText("{{ set a }}"),
    RefusedText("{{ for v in e }}"),
    RefusedText("{% extends %}"),
    RefusedText("{% extends a %}"),
    RefusedText("{% extends 1 %}"),
    RefusedText("{% extends 'a' 'b' %}"),
    RefusedText("{% extends 'a' ~ 'b' %}"),
    RefusedText("{% extends ('a') %}"),
    RefusedText("{% extends 'a"),
    RefusedText("{% extends = 'a' %}"),
    RefusedText("{% extend 'a' %}"),
    RefusedText("{% 'a' %}"),
    RefusedText("{% extends 'a' %}{% endextends %}"),
    RefusedText("{% extends 'a' %}{% extends 'a' %}"),
    RefusedText("{% extends 'a' %} {# b #}{% extends 'c' %}"),
    RefusedText("a{% extends 'a' %}"),
    RefusedText(" . {% extends 'a' %}"),
    RefusedText("\u{200b}{% extends 'a' %}"),
    RefusedText("{{ a }}{% extends 'a' %}"),
    RefusedText("{{ '' }}{% extends 'a' %}"),
    RefusedText("{% set a = 1 %}{% extends 'a' %}"),
    RefusedText("{% if a %}{% endif %}{% extends 'a' %}"),
    RefusedText("{% if a %}{% extends 'a' %}{% endif %}"),
    RefusedText("{% set a %}{% extends 'a' %}{% endset %}"),
    RefusedText("{% for v in e %}{% extends 'a' %}{% endfor %}"),
    RefusedText("{% raw %}a{% endraw %}{% extends 'a' %}"),
    RefusedText("{% extends 'a' %}{% if %}"),
    RefusedText("{% block %}"),
    RefusedText("{% block %}{% endblock %}"),
    RefusedText("{% block a %}"),
    RefusedText("{% block a %}x"),
    RefusedText("{% block a b %}{% endblock %}"),
    RefusedText("{% block 'a' %}{% endblock %}"),
    RefusedText("{% block 1 %}{% endblock %}"),
    RefusedText("{% block a = 1 %}"),
    RefusedText("{% block a.b %}{% endblock %}"),
    RefusedText("{% block a %}{% endblock b %}"),
    RefusedText("{% block a %}{% endblock 'a' %}"),
    RefusedText("{% block a %}{% endblock a a %}"),
    RefusedText("{% block a %}{% endblock endblock %}"),
    RefusedText("{% block a %}{% end a %}"),
    RefusedText("{% block a %}{% else %}{% endblock %}"),
    RefusedText("{% block a %}{% elif b %}{% endblock %}"),
    RefusedText("{% block a %}{% endif %}"),
    RefusedText("{% block a %}{% block b %}{% endblock a %}{% endblock b %}"),
    RefusedText("{% set a %}{% endblock a %}"),
    RefusedText("{% endblock %}"),
    RefusedText("{% endblock a %}"),
    RefusedText("{% block a %}{% endblock %}{% block a %}{% endblock %}"),
    RefusedText("{% block a %}{% block a %}{% endblock %}{% endblock %}"),
    RefusedText(
        "{% if b %}{% block a %}{% endblock %}{% else %}{% block a %}{% endblock %}{% endif %}",
    ),
    RefusedText(
        "{% block a %}{% endblock %}{% for v in e %}{% set w %}{% block b %}{% block a %}{% endblock %}{% endblock %}{% endset %}{% endfor %}",
    ),
    RefusedText("{% for v in e %}{% block a %}{% break %}{% endblock %}{% endfor %}"),
    RefusedText(
        "{% for v in e %}{% block a %}{% if b %}{% continue %}{% endif %}{% endblock %}{% endfor %}",
    ),
    RefusedText("{% block a %}{% continue %}{% endblock %}"),
    RefusedText("{% extends 'a' %}{% block b %}{% endblock %}{% block b %}{% endblock %}"),
    RefusedText("{% block a %}{% extends 'a' %}{% endblock %}"),
];

pub static OTHERS: [Other; 3] = [
    // one start begins another
    Other(
        "<<#",
        "é",
        TreeRow(
            "é<< b < 2>> <<# x >>é- {{ c }}",
            "(é 0-2)(Less(b 5-6)(2 9-10) 5-10)(  12-13)(- {{ c }} 23-32)",
        ),
    ),
    Other(
        "<#",
        "#>",
        TreeRow(
            "Hello, <# This is a comment #><% if show %><< name >>!<% endif %>",
            "(Hello,  0-7)(if (show 36-40) then (name 46-50)(! 53-54) else )",
        ),
    ),
    Other(
        "<#",
        "#>",
        TreeRow(
            " <# a #> <%- extends \"b\" -%> {% extends 'c' %}",
            "<b>(  0-1)({% extends 'c' %} 29-46)",
        ),
    ),
];

/// Two equal starts, and an empty delimiter.
pub static UNUSABLE: [Unusable; 2] = [Unusable("<%", "#>"), Unusable("", "#>")];
