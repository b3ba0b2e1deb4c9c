//! Scripts with blocks: what parents and children put out.
use super::batches::wrong_script;

/// Scripts with their replies, as those of batches. These put blocks out.
const BLOCKS: &str = r#"@@ template t
<{% block b %}x{% endblock %}{% block c %}y{% endblock c %}>
@@ end
@@ add
@@ render t
@@ block t b
@@ block t c
@@ block t d
@@ block no b
=>
ok
ok
<xy>
x
y
fault Message
fault TemplateNotFound

@@ template t
{% block outer %}<o>{% block inner %}inner{% endblock %}</o>{% endblock %}
@@ end
@@ add
@@ block t inner
@@ block t outer
@@ render t
=>
ok
ok
inner
<o>inner</o>
<o>inner</o>

@@ template t
{% for x in [1, 2] %}{% block b %}{{ x }}{{ loop.index0 }}{% endblock %}{% endfor %}
@@ end
@@ add
@@ render t
@@ block t b
=>
ok
ok
1021
21

@@ template t
{% if no or false %}{% block b %}x{% endblock %}{% endif %}.
@@ end
@@ add
@@ render t
=>
ok
ok
.

@@ template t
{% block b %}x{% endblock %}{{ y }}
@@ end
@@ add
@@ block t b
@@ block t c
=>
ok
ok
fault RenderingError t 31 32
fault Message

@@ template t
{% set x %}{% block b %}in{% endblock %}{% endset %}[{{ x }}]
@@ end
@@ add
@@ render t
@@ block t b
=>
ok
ok
[in]
in

@@ template t
{% set x = 1 %}{% block b %}{{ x }}{% set x = 2 %}{% endblock %}{{ x }}{% for i in [7] %}{% block c %}{% set x = 3 %}{% endblock %}{{ x }}{{ i }}{% endfor %}{{ x }}
@@ end
@@ add
@@ render t
=>
ok
ok
12372

@@ template t
{% for x in [1, 2] %}{% block b %}{% break %}{% endblock %}{% endfor %}
@@ end
@@ add
=>
ok
fault SyntaxError t 37 42

@@ template t
{% block b %}{% for x in [1, 2] %}{{ x }}{% break %}{% endfor %}{% endblock %}.
@@ end
@@ add
@@ render t
=>
ok
ok
1.

@@ str on
{% block b %}x{% endblock %}
@@ end
@@ str on
{% extends "t" %}{% block b %}
@@ end
=>
fault Message
fault SyntaxError __tera_one_off 17 30"#;

/// The same, of children and what they make of the blocks above.
const CHILDREN: &str = r#"@@ template base.html
{% block nav %}nav{% endblock %}{% block content %}default{% endblock %}
@@ end
@@ template child.html
{% extends "base.html" %}{% block content %}child-{{super()}}{% endblock %}
@@ end
@@ add
@@ render child.html
@@ block child.html content
@@ block child.html nav
@@ block child.html unknown
@@ render base.html
=>
ok
ok
ok
navchild-default
child-default
nav
fault Message
navdefault

@@ template base
[{% block a %}base{% endblock %}]
@@ end
@@ template middle
{% extends "base" %}lost{% block a %}middle({{ super() }}){% endblock %}
@@ end
@@ template leaf
{% extends "middle" %}{% set x = 1 %}{% block a %}leaf({{ super() }}{{ x }}){% endblock %}
@@ end
@@ template silent
{% extends "middle" %}
@@ end
@@ add
@@ render middle
@@ render silent
@@ render leaf
=>
ok
ok
ok
ok
ok
[middle(base)]
[middle(base)]
fault RenderingError leaf 71 72

@@ template base
{% block b %}{% block c %}{% endblock %}{% endblock %}
@@ end
@@ template child
{% extends "base" %}{% block c %}{% block b %}{{ super() }}{% endblock %}{% endblock %}
@@ end
@@ add
@@ render child
=>
ok
ok
ok
fault RenderingError child 42 43

@@ template base
{% block o %}{% block i %}x{% endblock %}{% endblock %}
@@ end
@@ template child
{% extends "base" %}{% block o %}{{ super() }}{{ super() }}{% endblock %}
@@ end
@@ add
@@ render child
@@ block child i
@@ block child o
=>
ok
ok
ok
xx
x
xx

@@ template base
{% block a %}{% endblock %}{% block n %}{{ 1 }}{% endblock %}
@@ end
@@ template child
{% extends "base" %}{% block a %}{% set v = super() %}({{ v }}){% set w %}{{ super(b=n, a=2) }}{% endset %}{{ w }}{% endblock %}{% block n %}{{ super() }}{{ super() }}{% endblock %}
@@ end
@@ int n 5
@@ add
@@ render child
=>
ok
ok
ok
ok
()11

@@ template base
{% block a %}<b>{{ x }}</b>{% endblock %}
@@ end
@@ template child.html
{% extends "base" %}{% block a %}{{ super() }}{% set y %}{{ super() }}{% endset %}{{ y }}{% endblock %}
@@ end
@@ text x
<
@@ end
@@ add
@@ render child.html
@@ block child.html a
@@ render base
=>
ok
ok
ok
ok
<b>&lt;</b><b>&lt;</b>
<b>&lt;</b><b>&lt;</b>
<b><</b>

@@ str on
{{ super() }}
@@ end
@@ template t
{% block a %}{{ super() }}{% endblock %}
@@ end
@@ template u
{% block a %}{{ super(b=nope.x, a=1) }}{% endblock %}
@@ end
@@ add
@@ render t
@@ render u
=>
fault RenderingError __tera_one_off 3 10
ok
ok
ok
fault RenderingError t 16 23
fault RenderingError u 24 28

@@ str on
{{ super(a=1, a=2) }}
@@ end
@@ str on
{{ super }}
@@ end
=>
fault SyntaxError __tera_one_off 14 15
fault RenderingError __tera_one_off 3 8"#;

/// The same, of batches whose blocks do not go together.
const REFUSED: &str = r#"@@ template base
x
@@ end
@@ template child
{% extends "base" %}{% block q %}{% endblock %}
@@ end
@@ add
@@ render base
@@ render child
=>
ok
ok
fault Message
fault TemplateNotFound
fault TemplateNotFound

@@ template base
{% block b %}x{% endblock %}
@@ end
@@ template child
{% extends "base" %}{% block b %}{% block q %}q{% endblock %}{% endblock %}
@@ end
@@ add
@@ render child
@@ template base
y
@@ end
@@ add
@@ render child
@@ render base
=>
ok
ok
ok
q
ok
fault Message
q
x

@@ template base
{% block b %}{% block c %}{% endblock %}{% endblock %}
@@ end
@@ template child
{% extends "base" %}{% if false %}{% block c %}{% endblock %}{% endif %}
@@ end
@@ add
@@ template other
{% extends "base" %}{% if false %}{% block d %}{% endblock %}{% endif %}
@@ end
@@ add
=>
ok
ok
ok
ok
fault Message

@@ template child
{% extends "base" %}{% block q %}{% endblock %}
@@ end
@@ template b
{% extends "c" %}
@@ end
@@ template base
@@ end
@@ add
=>
ok
ok
ok
fault MissingParent

@@ template a
{% block b %}{% endblock %}{% if x %}{% block b %}{% endblock %}{% endif %}
@@ end
@@ add
@@ template a
{% block b %}{% block b %}{% endblock %}{% endblock %}
@@ end
@@ add
@@ template a
{% block b %}{% endblock c %}
@@ end
@@ add
=>
ok
fault SyntaxError a 46 47
ok
fault SyntaxError a 22 23
ok
fault SyntaxError a 16 24

@@ template themes/base.html
{% block content %}default{% endblock %}
@@ end
@@ prefix themes/
@@ template child.html
{% extends "base.html" %}{% block content %}child-{{ super() }}{% endblock %}
@@ end
@@ add
@@ render child.html
@@ block child.html content
@@ block base.html content
=>
ok
ok
ok
ok
child-default
child-default
default"#;

#[test]
fn inheritance(rt: HostRuntime) {
    let script = wrong_script(rt.alloc(), &[BLOCKS, CHILDREN, REFUSED]);
    assert!(rt; script.is_none(), "at script {script:?}");
}
