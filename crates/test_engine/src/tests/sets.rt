//! What is set, what is captured, and where it is visible.
use super::cases::wrong_line;

const CASES: &str = r#"
{% set n = 0 %}{% for x in [1, 2] %}{% set n = x %}{{ n }}{% endfor %}{{ n }} => 120
{% set n = 0 %}{% for x in [1, 2] %}{% set_global n = x %}{{ n }}{% endfor %}{{ n }} => 122
{% for x in [1, 2] %}{{ n or "-" }}{% set n = x %}{% endfor %} => --
{% set name = 1 %}{{ name }} => 1
{% set n = 1 %}{% set n = n + 1 %}{{ n }} => 2
{% set n = name ~ "!" %}{{ n }} => world!
{% set a = nope %}{{ a or "b" }} => b
{% set name = nope %}{{ name or "hides" }} => hides
{% set a = nope %}{{ a }} !! 21 22
{% set a = nope.b %} !! 11 15
{% for x in [1] %}{% set x = 5 %}{{ x }}{% endfor %} => 5
{% for x in [1, 2] %}{{ x }}{% set x = 5 %}{{ x }}{% endfor %} => 1525
{% for x in [1] %}{% set x = 5 %}{% endfor %}{{ x or "none" }} => none
{% set abcdefg = 1 %}{% set abcdefgh = 2 %}{% set abcdefgi = 3 %}{{ abcdefg }}{{ abcdefgh }}{{ abcdefgi }} => 123
{% for abcdefgh in [1] %}{% for abcdefg in [2] %}{{ abcdefgh }}{{ abcdefg }}{% endfor %}{% endfor %} => 12
{% for a in [1] %}{% set aa = 2 %}{{ a }}{{ aa }}{{ aaa or 3 }}{% endfor %} => 123
{% for x in [] %}{% else %}{% set y = 1 %}{% endfor %}{{ y }} => 1
{% for x in [1] %}{% for z in [] %}{% else %}{% set y = 1 %}{% endfor %}{{ y }}{% endfor %}{{ y or 2 }} => 12
{% if 1 %}{% set y = 1 %}{% endif %}{{ y }} => 1
{% for x in [1] %}{% for z in [2] %}{% set y = 3 %}{% endfor %}{{ y or "-" }}{% endfor %} => -
{% for x in [1] %}{% for z in [2] %}{% set_global y = 3 %}{% endfor %}{{ y }}{% endfor %}{{ y }} => 33
{% for x in [1] %}{% set_global x = 3 %}{{ x }}{% endfor %}{{ x }} => 13
{% set x = 9 %}{% for x in [1] %}{{ x }}{% endfor %}{{ x }} => 19
{% set x %}<b>{{ text }}</b>{% endset %}{{ x }} => <b>&lt;b&gt;</b>
{% set x %}{{ safe }}{% endset %}{{ x }}{{ [x] }} => <b>[&quot;&lt;b&gt;&quot;]
{% set x %}<{% endset %}{{ x ~ x }} => &lt;&lt;
{% set x %}{% endset %}[{{ x }}] => []
{% set x %}a{% endset %}{% set x %}{{ x }}b{% endset %}{{ x }} => ab
{% set a %}1{% set b %}2{% endset %}3{{ b }}{% endset %}{{ a }} => 132
a{% set x %}b{% endset %}c{{ x }} => acb
{% set x -%} a {%- endset %}[{{ x }}] => [a]
{% for x in ["a"] %}{% set y %}{{ x }}{% break %}{% endset %}{% endfor %}end => end
{% for x in ["a"] %}{% set y %}{{ x }}{% continue %}{% endset %}{% endfor %}end => end
{% for x in [1, 2] %}{% set y %}{{ x }}{% if x == 1 %}{% continue %}{% endif %}{% endset %}[{{ y }}]{% endfor %} => [2]
{% for x in [1] %}a{% set y %}b{% set z %}c{% break %}{% endset %}{% endset %}{% endfor %}end => aend
{% set y %}a{% for x in [1] %}b{% set z %}c{% break %}{% endset %}{% endfor %}d{% endset %}{{ y }} => abd
{% set y %}{% for x in [1, 2] %}{{ x }}{% continue %}{% endfor %}{% endset %}{{ y }} => 12
{% for x in [1, 2] %}{% set y %}{{ x }}{% endset %}{{ y }}{% endfor %}{{ y or "-" }} => 12-
{% set_global x %}a{% endset_global %}{{ x }} => a
{% set_global x %}a{% endset %}{{ x }} => a
{% for i in [1] %}{% set_global x %}a{% endset %}{% endfor %}{{ x }} => a
{% set x %}{{ nope }}{% endset %} !! 14 18
{{ __tera_context.name }} => world
{% set a = 1 %}{{ __tera_context.a }} => 1
{% set name = 1 %}{{ __tera_context.name }} => 1
{% for x in [1] %}{% set b = 2 %}{{ __tera_context.b }}{{ __tera_context.x or "-" }}{% endfor %} => 2-
{% for x in [1] %}{% set b = 2 %}{% for y in [1] %}{% set b = 3 %}{{ __tera_context.b }}{% endfor %}{{ __tera_context.b }}{% endfor %} => 32
{% set __tera_context = 1 %}{{ __tera_context.name }} => world
{% for k, v in __tera_context %}{{ k }} {% endfor %}. => bytes hidden html name safe text .
{% set x %} !! syntax
{% set x %}{% endset_global %} !! syntax
{% set x = %} !! syntax
{% set = 1 %} !! syntax
{% set if = 1 %} !! syntax
{% set 1 = 1 %} !! syntax
{% set x = 1 2 %} !! syntax
{% set x == 1 %} !! syntax
{% set x.y = 1 %} !! syntax
{% set x = 1 %}{% endset %} !! syntax
{% endset %} !! syntax
{% set %} !! syntax
{% set x %}{% endset x %} !! syntax
{% set x %}{% else %}{% endset %} !! syntax
{% for x in [1] %}{% set y %}{% endfor %}{% endset %} !! syntax
{% set x %}{% break %}{% endset %} !! syntax
"#;

// A capture is safe exactly where texts are escaped.
const WITHOUT_ESCAPE: &str = r#"
{% set x %}<b>{{ text }}</b>{% endset %}{{ x }} => <b><b></b>
{% set x %}<{% endset %}{{ x | escape }} => &lt;
{% set x %}{{ safe }}{% endset %}{{ x | escape }} => &lt;b&gt;
{% for x in ["<"] %}{% set y %}{{ x }}{% endset %}{{ y ~ y }}{% endfor %} => <<
"#;

#[test]
fn sets(rt: HostRuntime) {
    let line = wrong_line(rt.alloc(), true, CASES);
    assert!(rt; line.is_none(), "at line {line:?}");
}

#[test]
fn captures_without_escape(rt: HostRuntime) {
    let line = wrong_line(rt.alloc(), false, WITHOUT_ESCAPE);
    assert!(rt; line.is_none(), "at line {line:?}");
}
