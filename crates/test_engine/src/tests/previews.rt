//! Scripts that show each component by itself.
use super::batches;

const PREVIEWS: &str = r#"@@ template c
{% component attrs(...rest) %}{% for k, v in rest %}{{k}}={{v}} {% endfor %} || {{ <show /> }}{% endcomponent attrs %}
{% component show(@name, @lang = "fr") %}{{ name }}-{{ lang }}{% endcomponent show %}
@@ end
@@ add
@@ preview off
@@ text name
Vincent
@@ end
@@ preview off
=>
ok
ok
# attrs
fault RenderingError c 83 91
# show
fault Message
ok
# attrs
 || Vincent-fr
# show
Vincent-fr

@@ template c
{% component show(@name) %}{{ name }}{% endcomponent show %}
@@ end
@@ template d
{% component Box(n) %}<{{ n }}>{% endcomponent %}
@@ end
@@ add
@@ text n
<
@@ end
@@ preview on
@@ preview off
=>
ok
ok
ok
ok
# Box
<&lt;>
# show
fault Message
# Box
<<>
# show
fault Message

@@ template d
{% component b(n = 1) %}{{ n }}{{ m }}{% endcomponent %}{% component a(@m, n: Integer) %}{{ n }}{{ m }}{% endcomponent %}
@@ end
@@ add
@@ int m 2
@@ int n 3
@@ preview on
@@ text n
x
@@ end
@@ preview on
=>
ok
ok
ok
ok
# a
32
# b
fault RenderingError d 34 35
ok
# a
fault Message
# b
fault RenderingError d 34 35"#;

#[test]
fn previews(rt: HostRuntime) {
    let script = batches::wrong_script(rt.alloc(), &[PREVIEWS]);
    assert!(rt; script.is_none(), "at script {script:?}");
}
