//! Faults of expressions, and their positions.
use super::cases::wrong_line;

const CASES: &str = r#"
{{ [1]["a":] }} !! 7 10
{{ hey[1:] }} !! 3 6
{{ {'a': 1, ...4} }} !! 15 16
{{ 2 ** -1 }} !! 3 10
{{ hey.other or 1 }} !! 3 6
{{ 7 / 2 }} !! 3 8
{{ 7 // 0 }} !! 8 9
{{ 1 + text }} !! 3 11
{{ 1 * text }} !! 7 11
{{ text < 1 }} !! 3 11
{{ [1, ...2] }} !! 10 11
{{ hey[0] }} !! 3 6
{{ hey.other.more }} !! 3 6
{{ name.other.more }} !! 3 13
{% set m = {"a": {}} %}{{ m.a.b }} !! 26 31
{% set m = {"a": {}} %}{{ m.a.b.c }} !! 26 31
{% set m = {"a": {}} %}{% if m.a.b.c.d %}{% endif %} !! 29 34
{{ hey[7 // 0] }} !! 12 13
{{ hey[7 // 0:] }} !! 12 13
{{ [1][[]] }} !! 7 9
{{ {1: 2}[[]] }} !! 10 12
{{ 7[1:] }} !! 3 4
{{ [1][::0] }} !! 3 6
{{ [1][:text] }} !! 8 12
{{ [1][::text] }} !! 9 13
{{ text - 1 }} !! 3 7
{{ 1 - text }} !! 7 11
{{ text - safe }} !! 3 7
{{ text * 1 }} !! 3 7
{{ text / 0 }} !! 3 7
{{ 1 / text }} !! 7 11
{{ 1 // text }} !! 8 12
{{ text // 0 }} !! 3 7
{{ 1 % text }} !! 7 11
{{ text % 0 }} !! 3 7
{{ 1 ** text }} !! 8 12
{{ text ** 1 }} !! 3 7
{{ -text }} !! 4 8
{{ 7 / 0 }} !! 7 8
{{ 7 % 0 }} !! 7 8
{{ text + 1 }} !! 3 11
{{ 2 ** 127 }} !! 3 11
{{ 170141183460469231731687303715884105727 + 1 }} !! 3 46
{{ 1 <= text }} !! 3 12
{{ hey < 1 }} !! 3 10
{% if text >= 1 %}{% endif %} !! 6 15
{% set m = {"a": {}} %}{{ m.a.b.c == 1 }} !! 26 31
{{ [1] > [text] }} !! 3 15
{{ 1 in 2 }} !! 8 9
{{ 1 not in none }} !! 12 16
{{ {...[1]} }} !! 7 10
{{ [...none] }} !! 7 11
{{ hey }} !! 3 6
{{ [1][5] }} !! 3 8
{{ 1 + 2 ~ (3 + text) }} !! 12 20
{% if hey.other %}{% endif %} !! 6 9
{% if 0 %}{% elif 1 / 0 %}{% endif %} !! 22 23
"#;

#[test]
fn faults(rt: HostRuntime) {
    let line = wrong_line(rt.alloc(), true, CASES);
    assert!(rt; line.is_none(), "at line {line:?}");
}
