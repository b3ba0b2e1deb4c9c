//! Reports of values that do not fit, and of arguments (`reports.rt` tells what a case is).

pub const CASES: &str = r##"
====
---- page.html
<h1>{{ titel }}</h1>
=> page.html
page.html:1:8: `titel` is undefined
1 | <h1>{{ titel }}</h1>
  |        ^^^^^
====
---- page.html
<p>{{ user.adress.street }}</p>
=> page.html
page.html:1:7: `user.adress` is undefined, so `street` cannot be taken of it
1 | <p>{{ user.adress.street }}</p>
  |       ^^^^^^^^^^^
====
---- page.html
<p>{{ user.address }}</p>
=> page.html
page.html:1:7: `user.address` is undefined
1 | <p>{{ user.address }}</p>
  |       ^^^^^^^^^^^^
====
---- page.html
<p>{{ users[0].mail }}</p>
=> page.html
page.html:1:7: `users[0].mail` is undefined
1 | <p>{{ users[0].mail }}</p>
  |       ^^^^^^^^^^^^^
====
---- page.html
{% for user in usres %}{{ user.name }}{% endfor %}
=> page.html
page.html:1:16: `usres` is undefined, and a loop goes over an array, a map, a string or bytes
1 | {% for user in usres %}{{ user.name }}{% endfor %}
  |                ^^^^^
====
---- page.html
{% for digit in count %}{{ digit }}{% endfor %}
=> page.html
page.html:1:17: `count` is an integer, and a loop goes over an array, a map, a string or bytes
1 | {% for digit in count %}{{ digit }}{% endfor %}
  |                 ^^^^^
====
---- page.html
{% for key, value in users %}{{ key }}{% endfor %}
=> page.html
page.html:1:22: `users` is an array, and a loop with a key and a value goes over a map
1 | {% for key, value in users %}{{ key }}{% endfor %}
  |                      ^^^^^
====
---- page.html
{{ title[user] }}
=> page.html
page.html:1:10: the index of a string is an integer, and not a map
1 | {{ title[user] }}
  |          ^^^^
====
---- page.html
{{ user[users] }}
=> page.html
page.html:1:9: a key of a map is a string, an integer or a bool, and not an array
1 | {{ user[users] }}
  |         ^^^^^
====
---- page.html
{{ count[0] }}
=> page.html
page.html:1:10: an array, a map, a string or bytes can be indexed, and not an integer
1 | {{ count[0] }}
  |          ^
====
---- page.html
{{ missing[0] }}
=> page.html
page.html:1:4: `missing` is undefined, so nothing can be taken of it
1 | {{ missing[0] }}
  |    ^^^^^^^
====
---- page.html
{{ missing[0:2] }}
=> page.html
page.html:1:4: `missing` is undefined, so nothing can be taken of it
1 | {{ missing[0:2] }}
  |    ^^^^^^^
====
---- page.html
{{ title[user.name:] }}
=> page.html
page.html:1:10: `user.name` is a string, and the bound of a slice is an integer
1 | {{ title[user.name:] }}
  |          ^^^^^^^^^
====
---- page.html
{{ count[1:] }}
=> page.html
page.html:1:4: a slice can be taken of an array or a string, and not of an integer
1 | {{ count[1:] }}
  |    ^^^^^
====
---- page.html
{{ title[::0] }}
=> page.html
page.html:1:4: a slice has no step of 0
1 | {{ title[::0] }}
  |    ^^^^^
====
---- page.html
{% if title > count %}yes{% endif %}
=> page.html
page.html:1:7: a string and an integer are not comparable
1 | {% if title > count %}yes{% endif %}
  |       ^^^^^^^^^^^^^
====
---- page.html
{% if age >= 18 %}yes{% endif %}
=> page.html
page.html:1:7: undefined and an integer are not comparable
1 | {% if age >= 18 %}yes{% endif %}
  |       ^^^^^^^^^
====
---- page.html
{{ title + 1 }}
=> page.html
page.html:1:4: `+` takes two integers, and is given a string and an integer (`~` joins texts)
1 | {{ title + 1 }}
  |    ^^^^^^^^^
====
---- page.html
{{ title - 1 }}
=> page.html
page.html:1:4: `-` takes two integers, and is given a string and an integer
1 | {{ title - 1 }}
  |    ^^^^^
====
---- page.html
{{ count * user.nmae }}
=> page.html
page.html:1:12: `*` takes two integers, and is given an integer and undefined
1 | {{ count * user.nmae }}
  |            ^^^^^^^^^
====
---- page.html
{{ 7 / 2 }}
=> page.html
page.html:1:4: the quotient is no integer, and there are no floating-point numbers (`//` rounds down)
1 | {{ 7 / 2 }}
  |    ^^^^^
====
---- page.html
{{ count // (count - 3) }}
=> page.html
page.html:1:14: the divisor is zero
1 | {{ count // (count - 3) }}
  |              ^^^^^^^^^
====
---- page.html
{{ 2 ** 127 }}
=> page.html
page.html:1:4: the power is no integer of at most 128 bits
1 | {{ 2 ** 127 }}
  |    ^^^^^^^^
====
---- page.html
{{ -title }}
=> page.html
page.html:1:5: `-` takes an integer, and is given a string
1 | {{ -title }}
  |     ^^^^^
====
---- page.html
{% if "a" in count %}{% endif %}
=> page.html
page.html:1:14: something can be in an array, a map or a string, and not in an integer
1 | {% if "a" in count %}{% endif %}
  |              ^^^^^
====
---- page.html
{% if 1 in title %}{% endif %}
=> page.html
page.html:1:12: a part of a string is a string, and not an integer
1 | {% if 1 in title %}{% endif %}
  |            ^^^^^
====
---- page.html
{{ [1, ...title] }}
=> page.html
page.html:1:11: `title` is no array, and only an array can be spread here
1 | {{ [1, ...title] }}
  |           ^^^^^
====
---- page.html
{{ {"a": 1, ...users} }}
=> page.html
page.html:1:16: `users` is no map, and only a map can be spread here
1 | {{ {"a": 1, ...users} }}
  |                ^^^^^
====
---- page.html
{{ title | truncate(length="three") }}
=> page.html
page.html:1:4: filter `truncate`: the argument `length` is a string, and an integer is wanted
1 | {{ title | truncate(length="three") }}
  |    ^^^^^
====
---- page.html
{{ title | truncate(length=-1) }}
=> page.html
page.html:1:4: filter `truncate`: the argument `length` is -1, and an integer from 0 on is wanted
1 | {{ title | truncate(length=-1) }}
  |    ^^^^^
====
---- page.html
{{ title | truncate }}
=> page.html
page.html:1:4: filter `truncate` needs the argument `length`
1 | {{ title | truncate }}
  |    ^^^^^^^^^^^^^^^^
====
---- page.html
{{ title | replace(form="a", to="b") }}
=> page.html
page.html:1:4: filter `replace` needs the argument `from`, and `form` is given
1 | {{ title | replace(form="a", to="b") }}
  |    ^^^^^^^^^^^^^^^^^^^^^^^^^^^^^^^^^
====
---- page.html
{{ title | replace(from="a") }}
=> page.html
page.html:1:4: filter `replace` needs the argument `to`
1 | {{ title | replace(from="a") }}
  |    ^^^^^^^^^^^^^^^^^^^^^^^^^
====
---- page.html
{{ count | trim }}
=> page.html
page.html:1:4: filter `trim`: `count` is an integer, and a string is wanted
1 | {{ count | trim }}
  |    ^^^^^
====
---- page.html
{{ titel | trim }}
=> page.html
page.html:1:4: filter `trim`: `titel` is undefined, and a string is wanted
1 | {{ titel | trim }}
  |    ^^^^^
====
---- page.html
{{ title | first }}
=> page.html
page.html:1:4: filter `first`: `title` is a string, and an array is wanted
1 | {{ title | first }}
  |    ^^^^^
====
---- page.html
{{ users | nth(n="1") }}
=> page.html
page.html:1:4: filter `nth`: the argument `n` is a string, and an integer is wanted
1 | {{ users | nth(n="1") }}
  |    ^^^^^
====
---- page.html
{{ title | keys }}
=> page.html
page.html:1:4: filter `keys`: `title` is a string, and a map is wanted
1 | {{ title | keys }}
  |    ^^^^^
====
---- page.html
{{ user | get(key="mail") }}
=> page.html
page.html:1:4: filter `get`: the map has no key "mail", and the argument `default` is not given
1 | {{ user | get(key="mail") }}
  |    ^^^^^^^^^^^^^^^^^^^^^^
====
---- page.html
{{ users | sort(attribute="mail") }}
=> page.html
page.html:1:4: filter `sort`: an item, which is a map, has no attribute `mail`
1 | {{ users | sort(attribute="mail") }}
  |    ^^^^^^^^^^^^^^^^^^^^^^^^^^^^^^
====
---- page.html
{{ [1, "a"] | sort }}
=> page.html
page.html:1:4: filter `sort`: an integer and a string can't be sorted: they are not comparable
1 | {{ [1, "a"] | sort }}
  |    ^^^^^^^^^^^^^^^
====
---- page.html
{{ "12x" | int }}
=> page.html
page.html:1:4: filter `int`: "12x" is no integer of at most 128 bits in base 10
1 | {{ "12x" | int }}
  |    ^^^^^^^^^^^
====
---- page.html
{{ "12" | int(base=99) }}
=> page.html
page.html:1:4: filter `int`: the argument `base` is 99, and an integer from 2 to 36 is wanted
1 | {{ "12" | int(base=99) }}
  |    ^^^^^^^^^^^^^^^^^^^
====
---- page.html
{{ title | indent(indentation="--") }}
=> page.html
page.html:1:4: filter `indent`: the argument `indentation` is "--", and one character is wanted
1 | {{ title | indent(indentation="--") }}
  |    ^^^^^^^^^^^^^^^^^^^^^^^^^^^^^^^^
====
---- page.html
{{ count | length }}
=> page.html
page.html:1:4: filter `length`: the value is an integer, and a string, bytes, an array or a map is wanted
1 | {{ count | length }}
  |    ^^^^^^^^^^^^^^
====
---- page.html
{{ title | abs }}
=> page.html
page.html:1:4: filter `abs`: the value is a string, and an integer is wanted
1 | {{ title | abs }}
  |    ^^^^^^^^^^^
====
---- page.html
{{ range(end=200000) }}
=> page.html
page.html:1:4: function `range`: the range has 200000 numbers, and at most 100000 are allowed
1 | {{ range(end=200000) }}
  |    ^^^^^^^^^^^^^^^^^
====
---- page.html
{{ range(start=5, end=1) }}
=> page.html
page.html:1:4: function `range`: there is no range from 5 to 1: `start` is greater than `end`, and `step_by` is not negative
1 | {{ range(start=5, end=1) }}
  |    ^^^^^^^^^^^^^^^^^^^^^
====
---- page.html
{{ range() }}
=> page.html
page.html:1:4: function `range` needs the argument `end`
1 | {{ range() }}
  |    ^^^^^^^
====
---- page.html
{% if count is starting_with(pat="a") %}{% endif %}
=> page.html
page.html:1:7: test `starting_with`: `count` is an integer, and a string is wanted
1 | {% if count is starting_with(pat="a") %}{% endif %}
  |       ^^^^^
====
---- page.html
{% if title is odd %}{% endif %}
=> page.html
page.html:1:7: test `odd`: `title` is a string, and an integer is wanted
1 | {% if title is odd %}{% endif %}
  |       ^^^^^
====
---- page.html
{{ throw(message="the shop is closed") }}
=> page.html
page.html:1:4: the shop is closed
1 | {{ throw(message="the shop is closed") }}
  |    ^^^^^^^^^^^^^^^^^^^^^^^^^^^^^^^^^^^
====
---- page.html
{{ users | group_by(attribute="nmae") }}
=> page.html
page.html:1:4: filter `group_by`: an item, which is a map, has no attribute `nmae`
1 | {{ users | group_by(attribute="nmae") }}
  |    ^^^^^^^^^^^^^^^^^^^^^^^^^^^^^^^^^^
====
---- page.html
{{ title | split }}
=> page.html
page.html:1:4: filter `split` needs the argument `pat`
1 | {{ title | split }}
  |    ^^^^^^^^^^^^^
====
---- page.html
{{ nothing.name }}{{ nothing.name.first }}
=> page.html
page.html:1:4: `nothing.name` is undefined
1 | {{ nothing.name }}{{ nothing.name.first }}
  |    ^^^^^^^^^^^^
====
---- page.html
{{ title | default }}
=> page.html
page.html:1:4: filter `default` needs the argument `value`
1 | {{ title | default }}
  |    ^^^^^^^^^^^^^^^
====
---- page.html
{% if title is containing(pat=1) %}{% endif %}
=> page.html
page.html:1:7: test `containing`: a part of a string is a string, and not an integer
1 | {% if title is containing(pat=1) %}{% endif %}
  |       ^^^^^^^^^^^^^^^^^^^^^^^^^^
====
---- page.html
{% set total = count + prices %}
=> page.html
page.html:1:16: `+` takes two integers, and is given an integer and undefined (`~` joins texts)
1 | {% set total = count + prices %}
  |                ^^^^^^^^^^^^^^
"##;
