//! Filters, tests and functions: ordinary values, values of the wrong kind, and each argument absent, wrong and at its bound.
use super::cases::first_wrong_line;

const TEXTS: &str = r#"
{{ "日本語" | truncate(length=2) }}|{{ "ab" | truncate(length=2) }}|{{ "abc" | truncate(length=2, end="") }} => 日本…|ab|ab
{{ "abc" | truncate(length=0) }} => …
{{ "👩‍🔬🧪 lab" | truncate(length=3) }}|{{ "👩🔬🧪 lab" | truncate(length=3) }} => 👩‍🔬🧪 …|👩🔬🧪…
{{ "abc" | truncate }} !! 3 19
{{ "abc" | truncate(length=-1) }} !! 3 8
{{ 1 | truncate }} !! 3 4
{{ " a b\tc\n" | wordcount }}{{ "" | wordcount }} => 30
{{ [] | wordcount }} !! 3 5
{{ "a\r\nb\rc\n" | newlines_to_br }} => a<br>b<br>c<br>
{{ 'hey-&\'"<>-ho' | escape_xml }} => hey-&amp;&apos;&quot;&lt;&gt;-ho
{{ "<'" | escape_html }} => &lt;&#x27;
{{ "<" | escape | escape }}{{ safe | escape }} => &lt;<b>
{{ 1 | escape }} !! 3 4
{{ "xxaxx" | trim(pat="x") }}{{ "xxaxx" | trim_start(pat="x") }}{{ "xxaxx" | trim_end(pat="x") }} => aaxxxxa
{{ "ab" | trim(pat="") }}{{ " a " | trim_start }}|{{ " a " | trim_end }}| => aba | a|
{{ "a" | trim(pat=1) }} !! 3 6
{{ "ab" | replace(from="", to="-") }}{{ "aaa" | replace(from="aa", to="b") }} => -a-b-ba
{{ "a" | replace(from="a") }} !! 3 26
{{ "a" | replace(to="a") }} !! 3 24
{{ 1 | replace }} !! 3 4
{{ "one\ntwo" | indent(width=2, indentation="·") | newlines_to_br }} => one<br>··two
{{ "a\n\nb" | indent(width=1, blank=true, first=true) | split(pat="\n") }} => [" a", " ", " b"]
{{ "a" | indent(indentation="ab") }} !! 3 33
{{ name | indent(indentation="") }} !! 3 32
{{ "" | indent(first=true) }}| => |
{{ "ab" | split(pat="") }}{{ "a,b" | split(pat=",") }}{{ "ab" | split(pat="x") }} => ["", "a", "b", ""]["a", "b"]["ab"]
{{ "a" | split }} !! 3 14
{{ none | str }}|{{ [none] | str }}|{{ 1 | str }} => |[none]|1
{{ hey | safe }} !! 3 6
{{ hey | str }} =>
"#;

const NUMBERS: &str = r#"
{{ "0b1010" | int(base=2) }} {{ " -12 " | int }} {{ "zZ" | int(base=36) }} {{ 7 | int }} => 10 -12 1295 7
{{ "+5" | int }}{{ "0o0o17" | int(base=8) }} => 515
{{ "0" | int }} {{ -9 | int }} {{ (-9) | int }} {{ "18446744073709551616" | int }} => 0 -9 -9 18446744073709551616
{{ "seven" | int }} !! 3 16
{{ "2.00" | int }} !! 3 15
{{ "1.5" | int }} !! 3 14
{{ "" | int }} !! 3 11
{{ "1" | int(base=1) }} !! 3 20
{{ "1" | int(base=37) }} !! 3 21
{{ "1" | int(base=-1) }} !! 3 6
{{ none | int }} !! 3 13
{{ "170141183460469231731687303715884105728" | int }} !! 3 50
{{ (-3) | abs }}{{ 3 | abs }} => 33
{{ "a" | abs }} !! 3 12
{{ (-170141183460469231731687303715884105727 - 1) | abs }} !! 3 55
dog{{ 1 | pluralize }} dog{{ 2 | pluralize }} berr{{ (-1) | pluralize(singular="y", plural="ies") }} => dog dogs berry
box{{ 1 | pluralize }} box{{ (-1) | pluralize }} box{{ 0 | pluralize(plural="es") }} => box box boxes
{{ "a" | pluralize }} !! 3 18
{{ hey | default(value=1) }}{{ none | default(value=1) }}|{{ "" | default(value=2, boolean=true) }} => 1|2
{{ hey | default }} !! 3 16
{{ 1 | default(value=2, boolean=1) }} !! 3 4
{{ "日本" | length }}{{ [1] | length }}{{ {1: 2} | length }}{{ bytes | length }} => 2112
{{ 1 | length }} !! 3 13
{{ "日本" | reverse }}{{ [1, 2] | reverse }} => 本日[2, 1]
{{ 1 | reverse }} !! 3 14
"#;

const ARRAYS: &str = r#"
{{ [1, 2] | first }}{{ [1, 2] | last }}{{ [1, 2] | nth(n=0) }}{{ [1, 2] | nth(n=1) }} => 1212
[{{ [] | first }}{{ [] | last }}{{ [1] | nth(n=1) }}] => []
{{ [1] | nth }} !! 3 12
{{ [1] | nth(n=-1) }} !! 3 6
{{ "a" | first }} !! 3 6
{{ [1, "a", none] | join(sep="-") }}|{{ [] | join }}|{{ [hey, 1] | join }} => 1-a-||1
{{ [1] | join(sep=1) }} !! 3 6
{{ [3, 1, 2] | sort }}{{ ["b", "a"] | sort }}{{ [] | sort(attribute=1) }} => [1, 2, 3]["a", "b"][]
{{ [{"a": 2, "n": 1}, {"a": 1, "n": 2}, {"a": 2, "n": 3}] | sort(attribute="a") | last }} => {"a": 2, "n": 3}
{{ [{"a": {"b": 2}}, {"a": {"b": 1}}] | sort(attribute="a.b") | first }} => {"a": {"b": 1}}
{{ [1, none, 2] | sort }} => [none, 1, 2]
{{ [1, "a"] | sort }} !! 3 18
{{ [{"a": 1}, {}] | sort(attribute="a") }} !! 3 39
{{ [1] | sort(attribute=1) }} !! 3 6
{{ [1, 2, 1, "1"] | unique }} => [1, 2, "1"]
{{ [{"a": "x", "n": 1}, {"a": "y"}, {"a": none}, {"a": "x", "n": 2}] | group_by(attribute="a") | keys }} => ["x", "y"]
{{ [{"a": 2, "n": 1}, {"a": 1}, {"a": 2, "n": 2}] | group_by(attribute="a") }} => {2: [{"a": 2, "n": 1}, {"a": 2, "n": 2}], 1: [{"a": 1}]}
{{ [] | group_by }} => {}
{{ [1] | group_by }} !! 3 17
{{ [{}] | group_by(attribute="a") }} !! 3 33
{{ [{"a": []}] | group_by(attribute="a") }} !! 3 40
{{ {"b": 1, "a": 2} | values }}{{ {"b": 1, 2: 3} | keys }}{{ {"b": 1} | pairs }} => [1, 2]["b", 2][["b", 1]]
{{ {"a": 1} | get(key="a") }}{{ {} | get(key="a", default=2) }} => 12
{{ {} | get(key="a") }} !! 3 20
{{ {} | get }} !! 3 11
{{ [] | values }} !! 3 5
"#;

const TESTS: &str = r#"
{{ "a" is string }}{{ 1 is string }}{{ 1 is number }}{{ 1 is integer }}{{ true is bool }} => truefalsetruetruetrue
{{ {} is map }}{{ [] is array }}{{ none is none }}{{ hey is none }}{{ bytes is iterable }}{{ 1 is iterable }} => truetruetruefalsetruefalse
{{ hey is defined }}{{ hey is undefined }}{{ name is defined }}{{ hidden is defined }} => falsetruetruefalse
{{ 3 is odd }}{{ -3 is odd }}{{ 0 is even }}{{ 1 is not even }} => truetruetruetrue
{{ "a" is odd }} !! 3 6
{{ 6 is divisible_by(divisor=3) }}{{ 6 is divisible_by(divisor=-4) }}{{ 6 is divisible_by(divisor=0) }} => truefalsefalse
{{ 6 is divisible_by }} !! 3 20
{{ 6 is divisible_by(divisor="3") }} !! 3 4
{{ "abc" is starting_with(pat="a") }}{{ "abc" is ending_with(pat="b") }} => truefalse
{{ 1 is starting_with(pat="a") }} !! 3 4
{{ "abc" is containing(pat="bc") }}{{ [1] is containing(pat=2) }}{{ {"a": 1} is containing(pat="a") }} => truefalsetrue
{{ 1 is containing(pat=1) }} !! 3 25
{{ "a" is containing(pat=1) }} !! 3 27
{{ not 1 is odd }}{{ 1 is not odd }} => falsefalse
"#;

const FUNCTIONS: &str = r#"
{{ range(end=3) }}{{ range(start=1, end=3) }}{{ range(end=5, step_by=2) }}{{ range(start=3, end=0, step_by=-2) }} => [0, 1, 2][1, 2][0, 2, 4][3, 1]
{{ range(end=0) }}{{ range(end=3, step_by=-1) }} => [][]
{{ range(start=0, end=1, step_by=170141183460469231731687303715884105727) }} => [0]
{{ range(start=0, end=2, step_by=170141183460469231731687303715884105727) }} !! 3 73
{{ range(end=100000) | length }} => 100000
{{ range(end=100001) }} !! 3 20
{{ range(start=2, end=1) }} !! 3 24
{{ range(end=1, step_by=0) }} !! 3 26
{{ range() }} !! 3 10
{{ range(end="a") }} !! 3 17
{{ throw(message="no") }} !! 3 22
{{ throw() }} !! 3 10
{{ throw(message=1) }} !! 3 19
"#;

const CALLS: &str = r#"
{{ name | trim(a=1 // 0, b=hey.b) }} !! 22 23
{{ name | trim(b=hey.b, a=1 // 0) }} !! 31 32
{{ name | nope }} !! message
{{ name is nope }} !! message
{{ nope() }} !! message
{% if false %}{{ name | nope }}{% endif %} !! message
{{ [x for x in [1] if x is nope] }} !! message
{% filter nope %}{% endfilter %} !! message
{% set x | nope %}{% endset %} !! message
{{ name | trim(a=nope()) }} !! message
{{ name | length(pat=1) }} => 5
{% filter trim | reverse %} ab {% endfilter %} => ba
{% filter truncate %}ab{% endfilter %} !! 10 18
{% filter trim | first %}ab{% endfilter %} !! 10 14
{% set x | split(pat=",") %}a,b{% endset %}{{ x | last }} => b
{% for x in ["a"] %}{% filter trim %}{{ x }}{% break %}{% endfilter %}{% endfor %}end => end
{% for x in [1, 2] %}{% set y | trim %}{{ x }}{% continue %}{% endset %}{% endfor %}{{ y is defined }} => false
"#;

const ESCAPED: &str = r#"
{{ "a<b" | replace(from="&lt;", to=safe) }} => a<b>b
{{ "a" | safe | indent(width=1, indentation="<", first=true) }} => &lt;a
{{ ["<a>", safe] | join(sep=", ") }} => &lt;a&gt;, <b>
{{ ["<", 1] | join(sep=safe) }} => &lt;<b>1
{{ ["<", 1] | join(sep="<") }} => &lt;&lt;1
{{ "<a<" | safe | trim(pat="<") }} => a
{{ "<a<" | trim(pat="a") }} => &lt;a&lt;
{{ "a<" | trim(pat="a") }}{{ safe | trim }} => &lt;<b>
{{ text | safe }}{{ text }}{{ safe | str }} => <b>&lt;b&gt;&lt;b&gt;
{{ text | escape }}{{ safe | escape }} => &lt;b&gt;<b>
{{ safe | truncate(length=1) }} => &lt;…
{{ safe | default(value="<") }}{{ hey | default(value=safe) }}{{ hey | default(value="<") }} => <b><b>&lt;
{{ "<p>\n<i>" | safe | indent(width=2) | replace(from="\n", to="/") }} => <p>/  <i>
{{ safe | split(pat="x") | first }}{{ [safe] | first }} => &lt;b&gt;<b>
{{ text | newlines_to_br }}{{ text | escape_html }} => &lt;b&gt;&amp;lt;b&amp;gt;
{% filter trim %} <i>{{ text }}</i> {% endfilter %} => <i>&lt;b&gt;</i>
{% filter replace(from="i", to="<") %}<i>{% endfilter %} => <&lt;>
{% filter split(pat="x") | first %}<i>{% endfilter %} => &lt;i&gt;
"#;

#[test]
fn built_ins(rt: HostRuntime) {
    let tables = [
        (false, TEXTS),
        (false, NUMBERS),
        (false, ARRAYS),
        (false, TESTS),
        (false, FUNCTIONS),
        (false, CALLS),
        (true, ESCAPED),
    ];
    let line = first_wrong_line(rt.alloc(), &tables);
    assert!(rt; line.is_none(), "at line {line:?}");
}
