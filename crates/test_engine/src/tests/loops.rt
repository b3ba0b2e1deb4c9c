//! Loops: their items, their names, and the ways out of them.
use super::cases::wrong_line;

const CASES: &str = r#"
{% for x in [1, 2] %}{{ x }}{% endfor %} => 12
{% for x in [] %}a{% else %}none{% endfor %} => none
{% for x in [1] %}a{% else %}none{% endfor %} => a
{% for x in [1, 2] -%} {{ x }} {%- endfor %} => 12
{% for c in "日本" %}{{ c }},{% endfor %} => 日,本,
{% for c in "" %}a{% else %}empty{% endfor %} => empty
{% for c in "<b" %}{{ c }}{% endfor %} => &lt;b
{% for c in safe %}{{ c }}{% endfor %} => &lt;b&gt;
{% for c in "👨‍👩‍👧" %}{{ loop.length }}{% endfor %} => 1
{% for c in "👨👩👧" %}{{ loop.index }}{% endfor %} => 123
{% for b in bytes %}{{ b }},{% endfor %} => 1,255,
{% for v in {"b": 1, "a": 2} %}{{ v }}{% endfor %} => 12
{% for k, v in {"b": 1, "a": 2} %}{{ k }}={{ v }};{% endfor %} => b=1;a=2;
{% for k, v in {1: 2, true: 3} %}{{ k }}={{ v }};{% endfor %} => 1=2;true=3;
{% for k, v in {} %}a{% else %}none{% endfor %} => none
{% for x in 5 %}{% endfor %} !! 12 13
{% for x in none %}{% endfor %} !! 12 16
{% for x in nope %}{% else %}{% endfor %} !! 12 16
{% for k, v in [1] %}{% endfor %} !! 15 18
{% for k, v in "ab" %}{% endfor %} !! 15 19
{% for x in [1, nope.a] %}{% endfor %} !! 16 20
{% for x in [1, 0] %}{{ 6 // x }}{% endfor %} !! 29 30
{% for x in ["a", "b"] %}{{ loop.index }}:{{ x }}{% if not loop.last %}, {% endif %}{% else %}none{% endfor %} => 1:a, 2:b
{% for x in [] %}{{ loop.index }}:{{ x }}{% if not loop.last %}, {% endif %}{% else %}none{% endfor %} => none
{% for x in [7, 8] %}{{ loop.index0 }}{{ loop.first }}{{ loop.last }}{{ loop.length }};{% endfor %} => 0truefalse2;1falsetrue2;
{% for x in [1] %}{% if 1 %}{{ loop.index + 1 }}{% endif %}{% endfor %} => 2
{% for x in [1, 2] %}{% if loop.index == 2 %}b{% else %}a{% endif %}{% endfor %} => ab
{% for x in [1, 2] %}{{ loop.index0 > 0 }}{% endfor %} => falsetrue
{% for x in [1, 2] %}{% for x in [3, 4] %}{{ x }}{% endfor %}{{ x }}{% endfor %} => 341342
{% for x in [1, 2] %}{% for y in [1] %}{{ loop.length }}{% endfor %}{{ loop.length }}{% endfor %} => 1212
{% for x in [[1, 2], [3]] %}{% for y in x %}{{ y }}{% endfor %};{% endfor %} => 12;3;
{% for x in [1, 2] %}{% for y in [] %}a{% else %}{{ loop.index }}{% endfor %}{% endfor %} => 12
{% for x in [1, 2, 3] %}{% if x == 2 %}{% continue %}{% endif %}{{ x }}{% endfor %} => 13
{% for x in [1, 2, 3] %}{% if x == 2 %}{% break %}{% endif %}{{ x }}{% else %}no{% endfor %} => 1
{% for x in [1] %}{% break %}{% else %}no{% endfor %}end => end
{% for x in [1] %}a{% continue %}b{% endfor %}end => aend
{% for x in [1, 2, 3] %}{% for y in [] %}{% else %}{% break %}{% endfor %}a{% endfor %}b => b
{% for x in [1, 2] %}{% for y in [1, 2] %}{% if y == 2 %}{% break %}{% endif %}{{ y }}{% endfor %}{{ x }}{% endfor %} => 1112
{% for x in [1, 2] %}{% for y in [1, 2] %}{% continue %}{% endfor %}{{ x }}{% endfor %} => 12
{% for x in [1, 2] %}{{ x }}{{ x }}{% endfor %} => 1122
{% for x in [1, 2] %}ab{% endfor %} => abab
{% for x in ["<", safe, [1, "<"]] %}-{{ x }}{% endfor %} => -&lt;-<b>-[1, &quot;&lt;&quot;]
{% for x in [1, nope] %}-{{ x }}{% endfor %} !! 28 29
{% for x in [1, 2] %}{{ x }}{% else %}no{% endfor %}b => 12b
{% for x in [2, 1] | sort %}{{ x }}{% endfor %} => 12
{% set x = 7 %}{% for x in [1, 2] %}{{ x }}{% endfor %}{{ x }} => 127
{% set y %}a{% for x in ["<"] %}{{ x }}{% endfor %}{% endset %}{{ y }} => a&lt;
{% for x in [[1], [2]] %}({% for x in x %}{{ x }}{% endfor %}){% endfor %} => (1)(2)
{% for __tera_loop_index in [5, 6] %}{{ __tera_loop_index }}{% endfor %} => 12
{% for x in [1] %}{% endfor %}{{ x }} !! 33 34
{% for x in [1] %}{{ loop.other or 1 }}{% endfor %} !! 21 25
{{ loop.index or 1 }} !! 3 7
{% for x in [] %}{% else %}{{ loop.index }}{% endfor %} !! 30 34
{% for loop in [1] %}{{ loop }}{{ loop.index }}{% endfor %} => 11
{% break %} !! syntax
{% continue %} !! syntax
{% if 1 %}{% break %}{% endif %} !! syntax
{% for x in [1] %}{% else %}{% break %}{% endfor %} !! syntax
{% for x in [1] %}{% endfor %}{% continue %} !! syntax
{% for x in [1] %}{% break 1 %}{% endfor %} !! syntax
{% for x in [1] %} !! syntax
{% for x in [1] %}{% else %} !! syntax
{% endfor %} !! syntax
{% for x of [1] %}{% endfor %} !! syntax
{% for in [1] %}{% endfor %} !! syntax
{% for x, in [1] %}{% endfor %} !! syntax
{% for x, y, z in [1] %}{% endfor %} !! syntax
{% for if in [1] %}{% endfor %} !! syntax
{% for x.y in [1] %}{% endfor %} !! syntax
{% for x in %}{% endfor %} !! syntax
{% for x in [1] 2 %}{% endfor %} !! syntax
{% for x in [1] %}{% endif %} !! syntax
{% if 1 %}{% endfor %} !! syntax
{% for x in [1] %}{% else %}{% else %}{% endfor %} !! syntax
{% for x in [1] %}{% elif 1 %}{% endfor %} !! syntax
{% for x in [1] %}{% endfor x %} !! syntax
"#;

#[test]
fn loops(rt: HostRuntime) {
    let line = wrong_line(rt.alloc(), true, CASES);
    assert!(rt; line.is_none(), "at line {line:?}");
}
