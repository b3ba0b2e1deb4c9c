//! Scripts with includes.
use super::batches::wrong_script;

/// Scripts with their replies, as those of batches. What is included reads its includer, and writes nothing back.
const INCLUDES: &str = r#"@@ template world
{% set a = "world" %}[Include (a={{a}}, name={{ name }}, b={{ b }})]
@@ end
@@ template hello
<h1>Hello {% set b = 1 %} {% include "world" %} {% if a %}shouldfail{% endif %}name={{name}}</h1>
@@ end
@@ add
@@ text name
Bob
@@ end
@@ render hello
=>
ok
ok
ok
ok
<h1>Hello  [Include (a=world, name=Bob, b=1)] name=Bob</h1>

@@ template item
{{ x }}{% set x = 9 %}{% set_global y = 9 %}{{ x }}{{ y }};
@@ end
@@ template t
{% set y = 0 %}{% for x in [1, 2] %}{% include "item" %}{{ x }}{{ y }}|{% endfor %}{{ y }}
@@ end
@@ add
@@ render t
=>
ok
ok
ok
199;10|299;20|0

@@ template part
<{{ name }}>
@@ end
@@ template t
{% include "part" %}{% set name = "b" %}{% include 'part' %}{% set c %}{% include `part` %}{% endset %}{{ c }}{% filter trim_start(pat="<") %}{% include "part" %}{% endfilter %}
@@ end
@@ add
@@ text name
a
@@ end
@@ render t
@@ str off
{% include "t" -%} .
@@ end
=>
ok
ok
ok
ok
<a><b><b>b>
<a><b><b>b>.

@@ template base
({% block b %}base{% endblock %})
@@ end
@@ template child
{% extends "base" %}{% block b %}child{% endblock %}own
@@ end
@@ template t
{% include "base" %}{% include "child" %}{% block b %}t{% include "base" %}{% endblock %}
@@ end
@@ add
@@ render t
@@ block t b
=>
ok
ok
ok
ok
(base)childownt(base)
t(base)

@@ template p
P
@@ end
@@ template c
 {% extends "p" %}x
@@ end
@@ template d
 {# a comment #}{% raw %} {% endraw %}
{% extends "p" %}{% component Q() %}q{% endcomponent %}x
@@ end
@@ template t
[{% include "c" %}][{% include "d" %}]
@@ end
@@ add
@@ render c
@@ render t
=>
ok
ok
ok
ok
ok
P
[ x][  
x]

@@ prefix themes/cool/
@@ template themes/cool/base.html
{% block content %}default{% endblock %}
@@ end
@@ template themes/cool/partial.html
partial
@@ end
@@ template child.html
{% extends "base.html" %}{% block content %}child-{% include "partial.html" %}{% endblock %}
@@ end
@@ add
@@ render child.html
@@ block child.html content
=>
ok
ok
ok
ok
ok
child-partial
child-partial

@@ prefix p/
@@ template b
B
@@ end
@@ template p/c
behind
@@ end
@@ template t
{% for x in [1, 2] %}{% include "b" %}{% include "c" %}.{% endfor %}{% block k %}{% include "c" %}{% endblock %}
@@ end
@@ add
@@ render t
@@ template a
@@ end
@@ template b
new
@@ end
@@ template c
c
@@ end
@@ add
@@ render t
=>
ok
ok
ok
ok
ok
Bbehind.Bbehind.behind
ok
ok
ok
ok
newc.newc.c

@@ template a.html
{{ name }}
@@ end
@@ template b.txt
{{ name }}{% include "a.html" %}
@@ end
@@ template c.html
{{ name }}{% include "b.txt" %}
@@ end
@@ add
@@ text name
&
@@ end
@@ render b.txt
@@ render c.html
=>
ok
ok
ok
ok
ok
&&
&amp;&amp;&amp;

@@ template a
{% block b %}{{ n }}{% endblock %}
@@ end
@@ template t
{% block b %}{% for n in [1, 2] %}{% include "a" %}{% endfor %}.{% endblock %}
@@ end
@@ add
@@ block t b
@@ block a b
=>
ok
ok
ok
12.
fault RenderingError a 16 17

@@ template a
{% if q %}{% set q = 1 %}{{ q }}{% endif %}{{ __tera_context | keys | join(sep=",") }};
@@ end
@@ template t
{% set z = 1 %}{% for i in [0] %}{% include "a" %}{% endfor %}{{ __tera_context | keys | join(sep=",") }}
@@ end
@@ add
@@ int q 5
@@ render t
=>
ok
ok
ok
ok
1q;q,z"#;

/// What is refused, when it is added and when it is rendered.
const REFUSED: &str = r#"@@ template a
{% include "b" %}
@@ end
@@ template b
{% include "a" %}
@@ end
@@ add
@@ render a
=>
ok
ok
fault CircularInclude
fault TemplateNotFound

@@ template a
{% block b %}{% if false %}{% include "a" %}{% endif %}{% endblock %}
@@ end
@@ add
=>
ok
fault CircularInclude

@@ template a
x{% include "b" %}
@@ end
@@ add
@@ template a
x
@@ end
@@ add
@@ template a
{% extends "no" %}{% include "b" %}
@@ end
@@ add
@@ render a
@@ str off
{% include "a" %}{% include "b" %}
@@ end
@@ str off
{% include "a" %}
@@ end
=>
ok
fault Message
ok
ok
ok
fault MissingParent
x
fault Message
x

@@ template base
{% block c %}{% include "child" %}{% endblock %}
@@ end
@@ template child
{% extends "base" %}{% block c %}{{ super() }}{% endblock %}
@@ end
@@ add
@@ render child
@@ render base
=>
ok
ok
ok
fault RenderingError base 24 31
fault RenderingError base 24 31

@@ template base
{% block b %}{% endblock %}
@@ end
@@ template a
{% extends "base" %}{% include "b" %}
@@ end
@@ template b
{% extends "base" %}{% block b %}{% include "c" %}{% endblock %}
@@ end
@@ template c
{% include "a" %}
@@ end
@@ template d
{% extends "d" %}
@@ end
@@ add
=>
ok
ok
ok
ok
ok
fault CircularInclude

@@ template a
12{{ no }}
@@ end
@@ template t
{% set x = 1 %}{% include "a" %}
@@ end
@@ add
@@ render t
@@ str off
{{ super() }}
@@ end
@@ str off
{% include "t" %}
@@ end
=>
ok
ok
ok
fault RenderingError a 5 7
fault RenderingError __tera_one_off 3 10
fault RenderingError a 5 7

@@ template a
{{ super() }}
@@ end
@@ template p
{% block b %}p{% endblock %}
@@ end
@@ template t
{% extends "p" %}{% block b %}{% include "a" %}{% endblock %}
@@ end
@@ add
@@ render t
=>
ok
ok
ok
ok
fault RenderingError a 3 10

@@ str off
{% include name %}
@@ end
@@ str off
{% include %}
@@ end
=>
fault SyntaxError __tera_one_off 11 15
fault SyntaxError __tera_one_off 11 13

@@ str off
{% include "a" "b" %}
@@ end
@@ str off
{% for x in [1] %}{% include "a" + "b" %}{% endfor %}
@@ end
=>
fault SyntaxError __tera_one_off 15 18
fault SyntaxError __tera_one_off 33 34"#;

#[test]
fn includes(rt: HostRuntime) {
    let script = wrong_script(rt.alloc(), &[INCLUDES, REFUSED]);
    assert!(rt; script.is_none(), "at script {script:?}");
}
