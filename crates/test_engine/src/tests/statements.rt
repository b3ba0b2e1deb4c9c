//! Choices and text as such.
use super::cases::wrong_line;

const CASES: &str = r#"
{% if name %}a{% endif %}b => ab
{% if hey %}a{% endif %}b => b
{% if 0 %}a{% else %}b{% endif %} => b
{% if 0 %}a{% elif 1 %}b{% elif 2 %}c{% else %}d{% endif %} => b
{% if 0 %}a{% elif none %}b{% else %}{{ 1 + 1 }}{% endif %} => 2
{% if 1 %}{% if 0 %}a{% else %}b{% endif %}c{% endif %}d => bcd
{% if 1 %}{% endif %}{% if 0 %}{% else %}{% endif %} =>
{% if 1 -%} a {%- else -%} b {%- endif -%} c => ac
a {%- raw -%} {{ name }} {%- endraw -%} b => a{{ name }}b
{% raw %}{% if %}{# {% endraw %}{{ name }} => {% if %}{# world
{%raw%}{%endraw%} =>
{% if %}{% endif %} !! syntax
{% if name %} !! syntax
{% else %} !! syntax
{% endif %} !! syntax
{% if 1 %}{% else %}{% else %}{% endif %} !! syntax
{% if 1 %}{% else %}{% elif 1 %}{% endif %} !! syntax
{% if 1 %}{% endif 1 %} !! syntax
{% if 1 %}{% else 1 %}{% endif %} !! syntax
{% if 1 }}{% endif %} !! syntax
{% raw %} !! syntax
{% raw %}{% endraw !! syntax
{% raw x %}{% endraw %} !! syntax
{% endraw %} !! syntax
{% nothing %} !! syntax
{% %} !! syntax
"#;

#[test]
fn statements(rt: HostRuntime) {
    let line = wrong_line(rt.alloc(), true, CASES);
    assert!(rt; line.is_none(), "at line {line:?}");
}
