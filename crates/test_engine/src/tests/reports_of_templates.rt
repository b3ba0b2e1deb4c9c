//! Reports of names that are not there, of templates that do not go together, and of what stands around a fault (`reports.rt` tells what a case is).

pub const CASES: &str = r##"
====
---- page.html
<p>
{{ title | uper }}
{{ title | truncat(length=3) }}
=> page.html
page.html:2:12: there is no filter `uper`
page.html:3:12: there is no filter `truncat` (is `truncate` meant?)
====
---- page.html
{{ uper | uper(a="| uper", b=(1 | uper)) }}{{ (x is not evn) is evn }}
=> page.html
page.html:1:11: there is no filter `uper`
page.html:1:35: there is no filter `uper`
page.html:1:57: there is no test `evn` (is `even` meant?)
page.html:1:65: there is no test `evn` (is `even` meant?)
====
---- page.html
{% if title is defned %}{% endif %}{{ rnage(end=3) }}
=> page.html
page.html:1:16: there is no test `defned` (is `defined` meant?)
page.html:1:39: there is no function `rnage` (is `range` meant?)
====
---- page.html
{% include "parts/meni.html" %}
---- parts/menu.html
menu
=> page.html
page.html:1:12: there is no template `parts/meni.html` to include (is `parts/menu.html` meant?)
====
---- page.html
{% extends "bass.html" %}
---- base.html
base
=> page.html
page.html:1:13: extends `bass.html`, which is not there (is `base.html` meant?)
====
---- page.html
{% extends "base.html" %}
{% block mian %}x{% endblock %}
---- base.html
{% block main %}{% endblock %}
=> page.html
page.html:2:10: no template above has a block `mian` (is `main` meant?)
====
---- a.html
{% extends "b.html" %}
---- b.html
{% extends "a.html" %}
=> a.html
`a.html` extends itself: it extends `b.html`, which extends `a.html`
====
---- a.html
{% include "b.html" %}
---- b.html
{% include "c.html" %}
---- c.html
{% include "a.html" %}
=> a.html
`a.html` includes itself: it includes `b.html`, which includes `c.html`, which includes `a.html`
====
---- a.html
{% include "a.html" %}
=> a.html
`a.html` includes itself
====
---- cards.html
{% component Card(title: string) %}{{ title }}{% endcomponent Card %}
---- page.html
{{ <Crad title="x"/> }}
=> page.html
page.html:1:4: there is no component `Crad` (is `Card` meant?)
====
---- cards.html
{% component Card(title: string) %}{{ title }}{% endcomponent Card %}
---- page.html
{{ <Card title={count}/> }}
=> page.html
page.html:1:4: component `Card`: the argument `title` is an integer, and a string is wanted
1 | {{ <Card title={count}/> }}
  |    ^^^^^^^^^^^^^^^^^^^^^
====
---- cards.html
{% component Card(title: string) %}{{ title }}{% endcomponent Card %}
---- page.html
{{ <Card/> }}
=> page.html
page.html:1:4: component `Card` needs the argument `title`
1 | {{ <Card/> }}
  |    ^^^^^^^
====
---- cards.html
{% component Card(title: string) %}{{ title }}{% endcomponent Card %}
---- page.html
{{ <Card title="x" titel="y"/> }}
=> page.html
page.html:1:4: component `Card` has no parameter `titel` (is `title` meant?)
1 | {{ <Card title="x" titel="y"/> }}
  |    ^^^^^^^^^^^^^^^^^^^^^^^^^^^
====
---- cards.html
{% component Card(title: string) %}{{ title }}{% endcomponent Card %}
---- page.html
{{ <Card title="x" colour="red"/> }}
=> page.html
page.html:1:4: component `Card` has no parameter `colour`, and is given an argument for it
1 | {{ <Card title="x" colour="red"/> }}
  |    ^^^^^^^^^^^^^^^^^^^^^^^^^^^^^^
====
---- cards.html
{% component Card(title: string) %}{{ title }}{% endcomponent Card %}
---- page.html
{{ <Card titel="x"/> }}
=> page.html
page.html:1:4: component `Card` needs the argument `title`, and `titel` is given
1 | {{ <Card titel="x"/> }}
  |    ^^^^^^^^^^^^^^^^^
====
---- cards.html
{% component Card(title: string) %}{{ titel }}{% endcomponent Card %}
---- page.html
{{ <Card title="x"/> }}
=> page.html
cards.html:1:39: `titel` is undefined
1 | {% component Card(title: string) %}{{ titel }}{% endcomponent Card %}
  |                                       ^^^^^
called from page.html:1:4
====
---- cards.html
{% component Card(title: string) %}{{ title }}{% endcomponent Card %}
---- more.html
{% component Card(title: string) %}{{ title }}{% endcomponent Card %}
=> more.html
component `Card` is defined in both `cards.html` and `more.html`, and neither is preferred
====
---- base.html
<body>
  {% block main %}{% endblock %}
</body>
---- page.html
{% extends "base.html" %}
{% block main %}
  {% include "parts/list.html" %}
{% endblock %}
---- parts/list.html
<ul>{% include "parts/item.html" %}</ul>
---- parts/item.html
<li>{{ itme }}</li>
=> page.html
parts/item.html:1:8: `itme` is undefined
1 | <li>{{ itme }}</li>
  |        ^^^^
called from parts/list.html:1:16
called from page.html:3:14
called from base.html:2:12
====
---- page.html
{% block main %}{{ super() }}{% endblock %}
=> page.html
page.html:1:20: no template above defines this block, so `super()` has nothing to put out
1 | {% block main %}{{ super() }}{% endblock %}
  |                    ^^^^^^^
called from page.html:1:10
====
---- page.html
{% block a %}{% block b %}{% endblock %}{% endblock %}
---- child.html
{% extends "page.html" %}
{% block b %}{% block a %}{{ super() }}{% endblock %}{% endblock %}
=> child.html
child.html:2:23: block `a` is put out inside itself
2 | {% block b %}{% block a %}{{ super() }}{% endblock %}{% endblock %}
  |                       ^
called from page.html:1:23
called from child.html:2:30
called from page.html:1:10
====
---- page.html
text␍
␉{{ titel }}␍
=> page.html
page.html:2:5: `titel` is undefined
2 | ␉{{ titel }}
  | ␉   ^^^^^
====
---- page.html
日本語 😀 {{ titel }}
=> page.html
page.html:1:10: `titel` is undefined
1 | 日本語 😀 {{ titel }}
  |              ^^^^^
====
---- text
{{ titel }}
=> text
__tera_one_off:1:4: `titel` is undefined
1 | {{ titel }}
  |    ^^^^^
====
---- text
{{ title | uper }}{% include "page.html" %}
=> text
__tera_one_off:1:12: there is no filter `uper`
__tera_one_off:1:30: there is no template `page.html` to include
====
---- text
{% extends "page.html" %}
=> text
a text beside the templates can't extend a template: add it as a template
====
---- text
{% block main %}{% endblock %}
=> text
a text beside the templates can't have a block: add it as a template
====
---- page.html
page
=> pages.html
there is no template `pages.html`
====
---- page.html
page
=> page.html#main
neither `page.html` nor a template above it has a block `main`
====
---- page.html
{% component Box() %}{{ <Box/> }}{% endcomponent Box %}{{ <Box/> }}
=> page.html
component `Box` is called inside 20 others, and no more may be open
====
---- page.html
{% component Count(n: integer) %}{% if n == 0 %}{{ oops }}{% else %}{{ <Count n={n - 1}/> }}{% endif %}{% endcomponent Count %}
{{ <Count n={13}/> }}
=> page.html
page.html:1:52: `oops` is undefined
1 | {% component Count(n: integer) %}{% if n == 0 %}{{ oops }}{% else %}{{ <Count n={n - 1}/> }}{% endif %}{% endcomponent Count %}
  |                                                    ^^^^
called from page.html:1:72
called from page.html:1:72
called from page.html:1:72
called from page.html:1:72
called from page.html:1:72
called from page.html:1:72
called from page.html:1:72
called from page.html:1:72
called from page.html:1:72
called from page.html:1:72
and 4 more
====
---- one.html
{{ a | trimm }}
{{ b | lenght }}
---- two.html
{% include "on.html" %}
{{ c is evn }}
---- three.html
{% extends "one.html" %}
{% block x %}{% endblock %}
{{ <Crad/> }}
=> one.html
one.html:1:8: there is no filter `trimm` (is `trim` meant?)
one.html:2:8: there is no filter `lenght` (is `length` meant?)
three.html:2:10: no template above has a block `x`
three.html:3:4: there is no component `Crad`
two.html:1:12: there is no template `on.html` to include (is `one.html` meant?)
two.html:2:9: there is no test `evn` (is `even` meant?)
"##;
