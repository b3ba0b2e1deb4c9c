//! Scripts with components.
use super::{batches, cases};

/// Scripts with their replies, as those of batches. What a component is given, and what its parameters make of it.
const GIVEN: &str = r#"@@ template t
{% component T(n: Integer = 1) %}{{ n }}{% endcomponent %}
@@ end
@@ add
@@ str off
{{ <T n={"x"} /> }}
@@ end
@@ str off
{{ <T/> }}{{ <T n={2}/> }}
@@ end
@@ str off
{{ <T m={2}/> }}
@@ end
=>
ok
ok
fault RenderingError __tera_one_off 3 16
12
fault RenderingError __tera_one_off 3 13

@@ template t
{% component U(n = 1) %}{{ n is defined }}{% endcomponent %}
@@ end
@@ add
@@ str off
{{ <U n={no}/> }} {{ <U/> }}
@@ end
=>
ok
ok
false true

@@ template t
{% component V(a, b = [1, {"k": "v"}], c = -1, d = none) %}{{ a }}{{ b }}{{ c }}{{ d }};{% endcomponent %}
@@ end
@@ add
@@ str off
{{ <V a="x"/> }}{{ <V a={1} b="y" c={true} d={[]}/> }}
@@ end
@@ str off
{{ <V/> }}
@@ end
=>
ok
ok
x[1, {"k": "v"}]-1;1ytrue[];
fault RenderingError __tera_one_off 3 7

@@ template t
{% component M(a: String, b: bool, c: Array, d: map, e: Number) %}{{ a }}{{ b }}{{ c }}{{ d }}{{ e }};{% endcomponent %}
@@ end
@@ add
@@ str off
{{ <M a="x" b={true} c={[]} d={{}} e={1}/> }}
@@ end
@@ str off
{{ <M a="x" b={true} c={[]} d={[]} e={1}/> }}
@@ end
=>
ok
ok
xtrue[]{}1;
fault RenderingError __tera_one_off 3 42

@@ template t
{% component A(...rest) %}{{ rest | keys | join(sep=",") }};{% endcomponent %}{% component B(a, ...rest) %}{{ a }}{{ rest }};{% endcomponent %}
@@ end
@@ add
@@ str off
{{ <A/> }}{{ <A b="1" a="2"/> }}{{ <B c="1" a="2"/> }}
@@ end
=>
ok
ok
;b,a;2{"c": "1"};

@@ template t
{% component A(...rest) %}{{ rest }};{% endcomponent %}
@@ end
@@ add
@@ str off
{% set m = {"a": 1, "b": 2, 3: 4} %}{{ <A {...m} a={3}/> }}{{ <A a={3} {...m}/> }}
@@ end
@@ str off
{{ <A {...[]} {...1}/> }}
@@ end
=>
ok
ok
{"a": 3, "b": 2};{"a": 1, "b": 2};
fault RenderingError __tera_one_off 18 19

@@ template t
{% component if(...a) %}{{ a }}{% endcomponent if %}
@@ end
@@ add
@@ str off
{{ <if for="1" in={2}/> }}
@@ end
=>
ok
ok
{"for": "1", "in": 2}"#;

/// What implicit parameters find, and what a component reads and leaves.
const LOOKED_UP: &str = r#"@@ template p
{% component P() %}{{ name }}{% endcomponent %}{% component S(@name) %}{{ name }}{% endcomponent %}
@@ end
@@ add
@@ text name
Vincent
@@ end
@@ component S off name
@@ component S off
@@ component P off name
@@ component P off
@@ component S off no
@@ component Nope off
=>
ok
ok
ok
Vincent
Vincent
fault RenderingError p 22 26
fault Message
Vincent
fault ComponentNotFound

@@ template c
{% component attrs(...rest) %}{% for k, v in rest %}{{k}}={{v}} {% endfor %} || {{ <show /> }}{% endcomponent attrs %}
{% component show(@name, @lang = "fr") %}{{ name }}-{{ lang }}{% endcomponent show %}
@@ end
@@ add
@@ text name
Vincent
@@ end
@@ text class
btn
@@ end
@@ component attrs off name
@@ component attrs off
@@ component show off class
@@ component show off name
=>
ok
ok
ok
ok
class=btn  || Vincent-fr
fault RenderingError c 83 91
Vincent-fr
fault Message

@@ template c
{% component S(@n) %}{{ n }}{% endcomponent %}{% component O() %}{{ <S/> }}{% endcomponent %}
@@ end
@@ template i
{{ <O/> }}{% set n = 3 %}{{ <O/> }}
@@ end
@@ template t
{% set n = 1 %}{{ <O/> }}{% for n in [2] %}{{ <O/> }}{% include "i" %}{% endfor %}
@@ end
@@ add
@@ render t
@@ str off
{% set n = 1 %}{{ <S n={2}/> }}
@@ end
=>
ok
ok
ok
ok
1223
2

@@ template c
{% component L() %}{% set a = 1 %}{% set_global b = 2 %}{{ n is defined }}{{ __tera_context }}{% endcomponent %}
@@ end
@@ add
@@ str off
{% for n in [1] %}{{ <L/> }}{{ a is defined }}{{ b is defined }}{% endfor %}
@@ end
=>
ok
ok
false{"a": 1, "b": 2}falsefalse"#;

/// What a component makes of a body, and what its text is.
const BODIES: &str = r#"@@ template c.txt
{% component Card(title) %}<h1>{{ title }}</h1>{{ body }}{% endcomponent %}
@@ end
@@ template page.html
{% <Card title="a&b"> %}<p>{{ name }}</p>{% </Card> %}
@@ end
@@ template page.txt
{% <Card title="a&b"> %}<p>{{ name }}</p>{% </Card> %}
@@ end
@@ add
@@ text name
<
@@ end
@@ render page.html
@@ render page.txt
=>
ok
ok
ok
ok
ok
<h1>a&amp;b</h1><p>&lt;</p>
<h1>a&b</h1><p><</p>

@@ template w
{% component W() %}[{{ body }}]{% endcomponent %}
@@ end
@@ add
@@ str off
{% for x in ["a", "b"] %}{% <W> %}{{ x }}{% break %}{% </W> %}{% endfor %}end
@@ end
@@ str off
{% for x in ["a", "b"] %}{% <W> %}{{ x }}{% continue %}{% </W> %}{% endfor %}end
@@ end
@@ str off
{% for x in [1, 2] %}{% <W> %}{{ x }}{{ loop.index }}{% set y = x %}{% </W> %}{{ y }}{% endfor %}
@@ end
@@ str off
{{ <W/> }}
@@ end
=>
ok
ok
end
end
[11]1[22]2
fault RenderingError w 23 27

@@ template w
{% component W(a, ...r) %}{{ a }}{% endcomponent %}
@@ end
@@ add
@@ str off
{% <W a={no.x}> %}{{ first }}{% </W> %}
@@ end
@@ str off
{% <W a={no.x}> %}b{% </W> %}
@@ end
@@ str off
{% <W a={1}> %}{% <W a={2}> %}{% </W> %}{% </W> %}.
@@ end
=>
ok
ok
fault RenderingError __tera_one_off 21 26
fault RenderingError __tera_one_off 9 11
1.

@@ template w
{% component W(a, ...r) %}{{ a }}{% endcomponent %}
@@ end
@@ add
@@ str off
{% <W> %}b{% </W> %}
@@ end
=>
ok
ok
fault RenderingError __tera_one_off 3 6

@@ template c.html
{% component S(a) %}<{{ a }}>{% endcomponent %}
@@ end
@@ template t.html
{{ <S a="&"/> }}{% set x = <S a={<S a="&"/>}/> %}{{ x }}{{ x ~ "" }}
@@ end
@@ add
@@ render t.html
@@ str on
{{ <S a="&"/> | escape }}
@@ end
=>
ok
ok
ok
<&amp;><<&amp;>>&lt;&lt;&amp;amp;&gt;&gt;
<&amp;>"#;

/// Whose component is taken, and what is refused.
const DEFINERS: &str = r#"@@ prefix child/ parent/
@@ template parent/c.html
{% component X() %}parent{% endcomponent %}
@@ end
@@ template child/c.html
{% component X() %}child{% endcomponent %}
@@ end
@@ add
@@ str off
{{<X/>}}
@@ end
@@ template user.html
{% component X() %}user{% endcomponent %}
@@ end
@@ add
@@ str off
{{<X/>}}
@@ end
@@ template other.html
{% component X() %}o{% endcomponent %}
@@ end
@@ add
@@ str off
{{<X/>}}
@@ end
=>
ok
ok
ok
ok
child
ok
ok
user
ok
fault Message
user

@@ prefix p/
@@ template p/c
{% component Y() %}y{{ <X/> }}{% endcomponent %}{% component X() %}far{% endcomponent %}
@@ end
@@ template t
{% for n in [1, 2] %}{{ <X/> }}{{ <Y/> }}.{% endfor %}
@@ end
@@ add
@@ render t
@@ template a
{% component Z() %}z{% endcomponent %}{% component X() %}near{% endcomponent %}
@@ end
@@ add
@@ render t
@@ component Y off
=>
ok
ok
ok
ok
faryfar.faryfar.
ok
ok
nearynear.nearynear.
ynear

@@ prefix themes/
@@ template a.html
{% component Foo() %}A{% endcomponent Foo %}
@@ end
@@ add
@@ template b.html
{% component Foo() %}B{% endcomponent Foo %}
@@ end
@@ add
@@ component Foo off
=>
ok
ok
ok
ok
fault Message
A

@@ template base
{{ <X/> }}{% block b %}{% endblock %}
@@ end
@@ template child
{% extends "base" %}{% component X() %}x{% endcomponent %}{% block b %}{{ <X/> }}{% endblock %}
@@ end
@@ add
@@ render child
@@ str off
{% component X() %}own{% endcomponent %}{% component Y() %}y{{ <X/> }}{% endcomponent %}{{ <X/> }}{{ <Y/> }}
@@ end
@@ str off
{{ <Y/> }}
@@ end
=>
ok
ok
ok
xx
xyx
fault Message

@@ template a
{{ <No/> }}
@@ end
@@ add
@@ template a
{% component C() %}{% include "no" %}{% endcomponent %}
@@ end
@@ add
@@ template a
{% component C() %}{% include "a" %}{% endcomponent %}
@@ end
@@ add
@@ template a
{% component C() %}{{ 1 | no }}{% endcomponent %}
@@ end
@@ add
=>
ok
fault Message
ok
fault Message
ok
fault CircularInclude
ok
fault Message

@@ template t
{{ <K/> }}
@@ end
@@ template u
{% component K() %}{% include "t" %}{% endcomponent %}
@@ end
@@ add
@@ render t
@@ str off
{% component R() %}{{ <R/> }}{% endcomponent %}{{ <R/> }}
@@ end
@@ str off
{% component F(n) %}{% if n > 0 %}{{ n }}{{ <F n={n - 1}/> }}{% endif %}{% endcomponent %}{{ <F n={3}/> }}
@@ end
=>
ok
ok
ok
fault Message
fault Message
321

@@ template c
{% component C1() %}{{ <C2/> }}{% endcomponent %}{% component C2() %}{{ <C3/> }}{% endcomponent %}{% component C3() %}{{ <C4/> }}{% endcomponent %}{% component C4() %}{{ <C5/> }}{% endcomponent %}{% component C5() %}{{ <C6/> }}{% endcomponent %}{% component C6() %}{{ <C7/> }}{% endcomponent %}{% component C7() %}{{ <C8/> }}{% endcomponent %}{% component C8() %}{{ <C9/> }}{% endcomponent %}{% component C9() %}{{ <C10/> }}{% endcomponent %}{% component C10() %}{{ <C11/> }}{% endcomponent %}{% component C11() %}{{ <C12/> }}{% endcomponent %}{% component C12() %}{{ <C13/> }}{% endcomponent %}{% component C13() %}{{ <C14/> }}{% endcomponent %}{% component C14() %}{{ <C15/> }}{% endcomponent %}{% component C15() %}{{ <C16/> }}{% endcomponent %}{% component C16() %}{{ <C17/> }}{% endcomponent %}{% component C17() %}{{ <C18/> }}{% endcomponent %}{% component C18() %}{{ <C19/> }}{% endcomponent %}{% component C19() %}{{ <C20/> }}{% endcomponent %}{% component C20() %}{{ <C21/> }}{% endcomponent %}{% component C21() %}x{% endcomponent %}
@@ end
@@ add
@@ str off
{{ <C1/> }}
@@ end
@@ str off
{{ <C2/> }}
@@ end
@@ component C1 off
=>
ok
ok
fault Message
x
x"#;

/// Components that are rendered by themselves, and in a text beside the registry.
const ALONE: &str = r#"@@ template c.html
{% component Button(label, variant="primary") %}<button class="{{ variant }}">{{ label }}</button>{% endcomponent Button %}
@@ end
@@ template c.txt
{% component Raw(label) %}{{ label }}{% endcomponent Raw %}
@@ end
@@ add
@@ component Button on
@@ text label
<
@@ end
@@ component Button on
@@ component Raw on
@@ component Raw off
=>
ok
ok
ok
fault Message
ok
<button class="primary">&lt;</button>
&lt;
<

@@ template c.html
{% component Button(label, variant="primary") %}<button class="{{ variant }}">{{ label }}</button>{% endcomponent Button %}
@@ end
@@ add
@@ text label
X
@@ end
@@ text variant
secondary
@@ end
@@ component Button on
@@ text bad
y
@@ end
@@ component Button on
@@ component Button off label bad variant
@@ component Button off no bad bad
=>
ok
ok
ok
ok
<button class="secondary">X</button>
ok
fault Message
fault Message
<button class="secondary">X</button>

@@ template p.html
I am partial
@@ end
@@ add
@@ template c.html
{% component Greet(name) %}Hello {{ name }}!{% endcomponent Greet %}
@@ end
@@ add
@@ text name
world
@@ end
@@ str off
Hello {{ name }}!. {% include "p.html" %} - {{<Greet name="World"/>}}
@@ end
=>
ok
ok
ok
ok
ok
Hello world!. I am partial - Hello World!

@@ template c
{% component R() %}{{ <R/> }}{% endcomponent %}{% component Q(n) %}{% if n > 1 %}{{ <Q n={n - 1}/> }}{% else %}{% <W> %}{{ <W/> }}{% </W> %}{% endif %}{% endcomponent %}{% component W() %}w{% if body is defined %}{{ body }}{% endif %}{% endcomponent %}
@@ end
@@ add
@@ str off
{{ <R/> }}
@@ end
@@ component R off
@@ int n 20
@@ component Q off
@@ str off
{{ <Q n={19}/> }}
@@ end
@@ str off
{{ <Q n={20}/> }}
@@ end
=>
ok
ok
fault Message
fault Message
ok
ww
ww
fault Message"#;

/// Texts that spell no tree.
const REFUSED: &str = r#"{% component W() %}{% block b %}{% endblock %}{% endcomponent %} !! syntax
{% if true %}{% component W() %}{% endcomponent %}{% endif %} !! syntax
{% component W() %}{% component V() %}{% endcomponent %}{% endcomponent %} !! syntax
{% component W() %}{% endcomponent V %} !! syntax
{% component W() %}{% endcomponent %}{% component W() %}{% endcomponent %} !! syntax
{% component W(a, a) %}{% endcomponent %} !! syntax
{% component W(body) %}{% endcomponent %} !! syntax
{% component W(for) %}{% endcomponent %} !! syntax
{% component W(a,) %}{% endcomponent %} !! syntax
{% component W(...r, a) %}{% endcomponent %} !! syntax
{% component W(a: Text) %}{% endcomponent %} !! syntax
{% component W(a = b) %}{% endcomponent %} !! syntax
{% component W %}{% endcomponent %} !! syntax
{% component W() %} !! syntax
{% component W() %}{% break %}{% endcomponent %} !! syntax
{% <W/> %} !! syntax
{% <W> %}{% </V> %} !! syntax
{{ <W> }} !! syntax
{{ <W a=1/> }} !! syntax
{{ <W a={}/> }} !! syntax
{{ <W, a="1"/> }} !! syntax
{% for x in [1] %}{% component W() %}{% endcomponent %}{% endfor %} !! syntax"#;

#[test]
fn components(rt: HostRuntime) {
    let tables = [GIVEN, LOOKED_UP, BODIES, DEFINERS, ALONE];
    let script = batches::wrong_script(rt.alloc(), &tables);
    assert!(rt; script.is_none(), "at script {script:?}");
}

#[test]
fn refused_components(rt: HostRuntime) {
    let line = cases::wrong_line(rt.alloc(), true, REFUSED);
    assert!(rt; line.is_none(), "at line {line:?}");
}
