//! The examples of docs/LANGUAGE.md, in its order.
use super::cases::wrong_line;

const CASES: &str = r#"
Hello {{ name }}! => Hello world!
1 {# or two #}2 => 1 2
a {{- name -}} b => aworldb
{% raw %}{{ name }}{% endraw %} => {{ name }}
<{% raw -%} {# no #} {%- endraw %}> => <{# no #}>
{% if name == "world" %}all{% elif name %}one{% else %}none{% endif %} => all
{% if 1 > 2 %}a{% elif 2 > 1 %}b{% endif %}c => bc
{% if nobody %}a{% else %}{{ name }}{% endif %} => world
{% for x in [1, 2] %}{{ x }},{% endfor %} => 1,2,
{% for k, v in {"a": 1, "b": 2} %}{{ k }}={{ v }};{% endfor %} => a=1;b=2;
{% for c in "日本" %}{{ c }},{% endfor %} => 日,本,
{% for x in [] %}{{ x }}{% else %}none{% endfor %} => none
{% for x in ["a", "b"] %}{{ loop.index }}{{ x }}{% if not loop.last %} {% endif %}{% endfor %} => 1a 2b
{% for x in [1, 2, 3] %}{% if x == 2 %}{% continue %}{% endif %}{{ x }}{% endfor %} => 13
{% for x in [1, 2, 3] %}{% if x == 2 %}{% break %}{% endif %}{{ x }}{% endfor %} => 1
{% set n = 1 %}{{ n }} => 1
{% set n = 0 %}{% for x in [1, 2] %}{% set n = x %}{{ n }}{% endfor %}{{ n }} => 120
{% set n = 0 %}{% for x in [1, 2] %}{% set_global n = x %}{{ n }}{% endfor %}{{ n }} => 122
{% set x %}<b>{{ name }}</b>{% endset %}{{ x }}{{ x }} => <b>world</b><b>world</b>
{% set a = 1 %}{{ __tera_context.a }}{{ __tera_context.name }} => 1world
{{ -2 ** 2 }} => -4
{{ 2 ** 10 ~ "x" }} => 1024x
{{ 1 < 2 == true }} => true
{{ [1, ...[2, 3], 4] }} => [1, 2, 3, 4]
{{ [1, 2, 3][-1:0:-1] }} => [3, 2]
{{ {"a": {"b": 1}}.a.b }} => 1
{{ 1 // 0 if false else 2 }} => 2
{{ [x * 2 for x in [1, 2, 3] if x != 2] }} => [2, 6]
{{ [6 // x for x in [0, 2] if x] }} => [3]
{{ name | replace(from="l", to="L") | truncate(length=4) }} => worL…
{{ nobody | default(value="someone") }} => someone
{{ 0 | default(value=1, boolean=true) }} => 1
{{ [1, 2] | str ~ 3 }} => [1, 2]3
{{ name | length }} => 5
{{ name | reverse }} => dlrow
{{ "<" | escape }}{{ "'" | escape_html }}{{ "'" | escape_xml }} => &lt;&#x27;&apos;
{{ "a\nb" | newlines_to_br }} => a<br>b
[{{ " a " | trim }}{{ "xxa" | trim_start(pat="x") }}{{ "ab" | trim_end(pat="b") }}] => [aaa]
{{ "a\nb" | indent(width=1, indentation="-", first=true) | split(pat="\n") }} => ["-a", "-b"]
{{ "one two" | wordcount }} => 2
{{ "ab" | split(pat="") }} => ["", "a", "b", ""]
{{ "0x1F" | int(base=16) }} => 31
{{ (-2) | abs }} => 2
{{ 2 }} dog{{ 2 | pluralize }} => 2 dogs
{{ [3, 1, 2] | first }}{{ [3, 1, 2] | last }}{{ [3, 1, 2] | nth(n=1) }} => 321
{{ [3, 1, 2] | sort | join(sep="-") }} => 1-2-3
{{ [1, 2, 1] | unique }} => [1, 2]
{{ [{"a": 1, "b": 2}, {"a": 0}] | group_by(attribute="a") }} => {1: [{"a": 1, "b": 2}], 0: [{"a": 0}]}
{{ {"a": 1} | values }}{{ {"a": 1} | keys }}{{ {"a": 1} | pairs }} => [1]["a"][["a", 1]]
{{ {"a": 1} | get(key="a") }}{{ {} | get(key="a", default=2) }} => 12
{{ "<b>" | safe }} => <b>
{{ name is string and 1 is number and 1 is integer }} => true
{{ {} is map and true is bool and [] is array and none is none }} => true
{{ name is iterable and name is defined and nobody is undefined }} => true
{{ 1 is odd and 2 is even and 6 is divisible_by(divisor=3) }} => true
{{ name is starting_with(pat="wo") and name is ending_with(pat="ld") }} => true
{{ [1, 2] is containing(pat=2) and name is not containing(pat="x") }} => true
{% for i in range(end=3) %}{{ i }}{% endfor %} => 012
{{ range(start=5, end=0, step_by=-2) }} => [5, 3, 1]
{% filter replace(from="o", to="0") | reverse %}{{ name }}{% endfilter %} => dlr0w
{% set x | trim %} {{ name }} {% endset %}[{{ x }}] => [world]
"#;

#[test]
fn language(rt: HostRuntime) {
    let line = wrong_line(rt.alloc(), false, CASES);
    assert!(rt; line.is_none(), "at line {line:?}");
}
