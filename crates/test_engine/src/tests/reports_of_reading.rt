//! Reports of texts that are not read (`reports.rt` tells what a case is).

pub const CASES: &str = r##"
====
---- page.html
{% if title %}
{% endfor %}
=> page.html
page.html:2:4: `endfor` ends nothing: `if title` of line 1 is open
2 | {% endfor %}
  |    ^^^^^^
====
---- page.html
{% endif %}
=> page.html
page.html:1:4: `endif` ends nothing: no statement is open here
1 | {% endif %}
  |    ^^^^^
====
---- page.html
{% block main %}
{% endblock mian %}
=> page.html
page.html:2:4: `endblock mian` ends nothing: `block main` of line 1 is open
2 | {% endblock mian %}
  |    ^^^^^^^^
====
---- page.html
{% component Box() %}{{ body }}{% endcomponent Box %}
{% <Box> %}{% </Bax> %}
=> page.html
page.html:2:15: `</Bax>` ends nothing: `<Box>` of line 2 is open
2 | {% <Box> %}{% </Bax> %}
  |               ^
====
---- page.html
{% else %}
=> page.html
page.html:1:4: `else` goes on with nothing: no `if` and no `for` is open here
1 | {% else %}
  |    ^^^^
====
---- page.html
{% set x %}{% else %}{% endset %}
=> page.html
page.html:1:15: `else` does not belong to `set x` of line 1, which is open
1 | {% set x %}{% else %}{% endset %}
  |               ^^^^
====
---- page.html
{%- if title -%}
a{% else %}b{% else %}c{% endif %}
=> page.html
page.html:2:16: `if title` of line 1 has its `else` already
2 | a{% else %}b{% else %}c{% endif %}
  |                ^^^^
====
---- page.html
{% break %}
=> page.html
page.html:1:4: `break` stands in no loop
1 | {% break %}
  |    ^^^^^
====
---- page.html
{% for x in users %}
{{ x.name }}
=> page.html
page.html:1:1: `for x in users` has no `endfor`
1 | {% for x in users %}
  | ^^^^^^^^^^^^^^^^^^^^
====
---- page.html
{% elseif title %}
=> page.html
page.html:1:4: there is no statement `elseif`: another condition is an `elif`
1 | {% elseif title %}
  |    ^^^^^^
====
---- page.html
{% if title %}{% else if count %}{% endif %}
=> page.html
page.html:1:18: `else` stands alone in its tag, and another condition is an `elif`
1 | {% if title %}{% else if count %}{% endif %}
  |                  ^^^^
====
---- page.html
{% macro box(title) %}
=> page.html
page.html:1:4: there is no statement `macro`: a component stands for a macro: `component Name(argument: string)`
1 | {% macro box(title) %}
  |    ^^^^^
====
---- page.html
{% import "forms.html" as forms %}
=> page.html
page.html:1:4: there is no statement `import`: nothing is imported: the components of all templates are known
1 | {% import "forms.html" as forms %}
  |    ^^^^^^
====
---- page.html
{% with count = 1 %}
=> page.html
page.html:1:4: there is no statement `with`: `set` binds names, and a component takes arguments
1 | {% with count = 1 %}
  |    ^^^^
====
---- page.html
{% inclde "menu.html" %}
=> page.html
page.html:1:4: there is no statement `inclde` (is `include` meant?)
1 | {% inclde "menu.html" %}
  |    ^^^^^^
====
---- page.html
{% block a %}{% endblock %}{% block a %}{% endblock %}
=> page.html
page.html:1:37: the template has two blocks `a`
1 | {% block a %}{% endblock %}{% block a %}{% endblock %}
  |                                     ^
====
---- page.html
{% component A() %}{% endcomponent A %}{% component A() %}{% endcomponent A %}
=> page.html
page.html:1:1: the template defines two components `A`
1 | {% component A() %}{% endcomponent A %}{% component A() %}{% endcomponent A %}
  | ^
====
---- page.html
{{ title | replace("a", "b") }}
=> page.html
page.html:1:20: an argument stands behind its name here, as in `name=value`
1 | {{ title | replace("a", "b") }}
  |                    ^^^
====
---- page.html
{{ title | trim(title) }}
=> page.html
page.html:1:22: `=` and a value are due here, as in `name=value`
1 | {{ title | trim(title) }}
  |                      ^
====
---- page.html
{{ title | replace(from="a", from="b") }}
=> page.html
page.html:1:30: the argument `from` is given twice
1 | {{ title | replace(from="a", from="b") }}
  |                              ^^^^
====
---- page.html
{{ title
=> page.html
page.html:1:1: the tag has no end
1 | {{ title
  | ^^
====
---- page.html
{# a comment
=> page.html
page.html:1:1: the comment has no end
1 | {# a comment
  | ^^
====
---- page.html
{% raw %}text
=> page.html
page.html:1:1: the raw text has no end
1 | {% raw %}text
  | ^^^^^^^^^
====
---- page.html
{{ title | trim( }}
=> page.html
page.html:1:1: the tag has no end
1 | {{ title | trim( }}
  | ^^
====
---- cards.html
{% component Card() %}
{% endcomponent Crad %}
=> cards.html
cards.html:2:4: `endcomponent Crad` ends nothing: `component Card()` of line 1 is open
2 | {% endcomponent Crad %}
  |    ^^^^^^^^^^^^
====
---- cards.html
{% component Box() %}{% endcomponent Box %}
{%- component Card() %}{% endif %}{% endcomponent Card %}
=> cards.html
cards.html:2:27: `endif` ends nothing: `component Card()` of line 2 is open
2 | {%- component Card() %}{% endif %}{% endcomponent Card %}
  |                           ^^^^^
====
---- cards.html
{% if title %}{% component Card() %}{% endcomponent %}{% endif %}
=> cards.html
cards.html:1:18: `component Card()` stands inside of something, and a component is defined outside of everything
1 | {% if title %}{% component Card() %}{% endcomponent %}{% endif %}
  |                  ^^^^^^^^^
====
---- cards.html
{% component Card() %}{% block a %}{% endblock %}{% endcomponent %}
=> cards.html
cards.html:1:26: `block a` stands in a component, and no block may stand there
1 | {% component Card() %}{% block a %}{% endblock %}{% endcomponent %}
  |                          ^^^^^
"##;
