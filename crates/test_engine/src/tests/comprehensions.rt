//! Arrays that are made of the items of a value.
use super::cases::wrong_line;

const CASES: &str = r#"
{{ [x * 2 for x in [1, 2, 3] if x != 2] }} => [2, 6]
{{ [6 // x for x in [0, 2] if x] }} => [3]
{{ [x for x in []] }} => []
{{ [x for x in [1, 2] if false] }} => []
{{ [v for k, v in {"a": 1}] }} => [1]
{{ [k for k, v in {"a": 1}] }} => [&quot;a&quot;]
{{ [v for v in {"a": 1}] }} => [1]
{{ [c for c in "ab"] }} => [&quot;a&quot;, &quot;b&quot;]
{{ [b for b in bytes] }} => [1, 255]
{{ [[y for y in x] for x in [[1, 2], [3]]] }} => [[1, 2], [3]]
{{ [[x, y] for x in [1] if [y for y in [0, 1] if y]] }} => [[1, undefined]]
{{ [name ~ x for x in [1, 2]] }} => [&quot;world1&quot;, &quot;world2&quot;]
{{ [x for x in [1, 2] if x > 1][0] }} => 2
{{ [x if x > 1 else 0 for x in [1, 2]] }} => [0, 2]
{{ [x for x in ([1] if 0 else [2])] }} => [2]
{{ [x for x in [1, 2] if (x if 0 else x > 1)] }} => [2]
{% for x in [y + 1 for y in [1, 2]] %}{{ x }}{% endfor %} => 23
{% for x in [1, 2] %}{{ [loop.index for y in [0]] }}{% endfor %} => [1][2]
{% for x in [1] %}{{ [x for x in [2]] }}{{ x }}{% endfor %} => [2]1
{{ [x for x in [1]] }}{{ x or "gone" }} => [1]gone
{{ 1 in [x for x in [1]] }} => true
{{ [x for x in [1]] ~ "a" }} => [1]a
{{ [x for x in 5] }} !! 15 16
{{ [k for k, v in [1]] }} !! 18 21
{{ [nope.a for x in [1]] }} !! 4 8
{{ [x for x in [1] if nope.a] }} !! 22 26
{{ [loop.index for x in [1]] }} !! 4 8
{{ [x for x in [1, 2] if x > 1 else 3] }} !! syntax
{{ [x for x in [1] if 0 else [2]] }} !! syntax
{{ [x for x] }} !! syntax
{{ [for x in [1]] }} !! syntax
{{ [x for if in [1]] }} !! syntax
{{ [x for x y in [1]] }} !! syntax
{{ [x for x, in [1]] }} !! syntax
{{ [...x for x in [1]] }} !! syntax
{{ [x, for x in [1]] }} !! syntax
{{ [x, y for x in [1]] }} !! syntax
{{ [x for x in [1],] }} !! syntax
{{ [x for x in [1] }} !! syntax
{{ [x for x in [1] if] }} !! syntax
{{ [x for x in] }} !! syntax
"#;

#[test]
fn comprehensions(rt: HostRuntime) {
    let line = wrong_line(rt.alloc(), true, CASES);
    assert!(rt; line.is_none(), "at line {line:?}");
}
