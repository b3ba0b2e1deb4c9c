//! Expressions: what they render to.
use super::cases::wrong_line;

const CASES: &str = r#"
{{ 2 ** 10 ~ "x" }} => 1024x
{{ -2 ** 2 }} => -4
{{ (-2) ** 2 }} => 4
{{ 0 ** 0 }}{{ 5 ** 0 }} => 11
{% set low = -8 %}{{ -low | abs }} {{ (-low) | abs }} => -8 8
[{{ none }}] => []
{{ 1 < 2 == true }} => true
{{ 1 // 0 if false else 2 }} => 2
a {{-1}} => a1
a {{- 1 -}} b => a1b
{{ hey or 1 }} => 1
{{ hey == none }}{{ hey != 1 }} => falsetrue
{% set m = {"a": 3} %}{{ m.a >= 3 }}{{ m.b == 3 }}{% if m.a < 3 %}a{% else %}b{% endif %} => truefalseb
{{ 0 and hey.other }} => 0
{{ 2 and 3 }} => 3
{{ -7 // 2 }} {{ -7 % 2 }} => -4 1
{{ 1 if false else 2 if false else 3 }} => 3
{{ not 0 }}{{ not not 0 }} => truefalse
{{ [1, "<", [true, none]] }} => [1, &quot;&lt;&quot;, [true, none]]
{{ [safe] }}{{ safe }}{{ text }} => [&quot;&lt;b&gt;&quot;]<b>&lt;b&gt;
{{ [1, ...[2, 3], ...[], 4] }} => [1, 2, 3, 4]
{{ [1, [2, 3]][1][-1] }} => 3
{{ [1, 2][5] or "none" }} => none
{{ hey?.other or 1 }} => 1
{{ 2 in [1, 2] }} {{ 3 not in [1, 2] }} => true true
{{ 1 + 2 * 3 - 4 }} => 3
{{ "a" ~ 1 ~ true }} => a1true
{{ 'it' == `it` }} => true
{{ [1, 2, 3][-1:0:-1] }} => [3, 2]
{{ [1, 2, 3][1:] }}{{ [1, 2, 3][:-1] }} => [2, 3][1, 2]
{{ none?[1:] or 'x' }} => x
{{{"a": 1}.a}} => 1
{{ {"a": {"b": 1}}.a.b }} => 1
{{ {1: 'x', true: 'y'} }} => {1: &quot;x&quot;, true: &quot;y&quot;}
{{ {'a': 1, 'b': 2, 'a': 3}.a }} => 3
{% set m = {"a": {"b": "<", "c": 0}} %}{{ m.a.b }}{% if m.a.c %}1{% else %}0{% endif %}{% if m.a.b %}1{% endif %}{{ m.a.c + 1 }} => &lt;011
{% set m = {"a": 1} %}{{ m.a?.b or m?.x?.y or "none" }}{% if m.b %}1{% endif %}{{ m.a }} => none1
{% for m in [{"a": {"b": 1}}] %}{{ m.a.b }}{{ loop.index }}{% if loop.first %}{{ m.a }}{% endif %}{% endfor %} => 11{&quot;b&quot;: 1}
{{ {'a': 1, ...{2: 3}} }} => {2: 3, &quot;a&quot;: 1}
{{ {2: 1, ...{2: 3}} }}{{ {...{2: 3}, 2: 1,} }} => {2: 3}{2: 1}
{{ 1 2 }} !! syntax
{{ a if b }} !! syntax
{{ }} !! syntax
{{ a.0 }} !! syntax
{{ a <b/> }} !! syntax
{{ (a }} !! syntax
{{ name is not not in text }} !! syntax
{{ 170141183460469231731687303715884105728 }} !! syntax
{{ [1 }} !! syntax
{{ 1 !! syntax
"#;

#[test]
fn expressions(rt: HostRuntime) {
    let line = wrong_line(rt.alloc(), true, CASES);
    assert!(rt; line.is_none(), "at line {line:?}");
}
