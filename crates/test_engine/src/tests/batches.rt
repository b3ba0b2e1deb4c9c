//! Scripts with templates by name.
use super::devices::{ScriptSource, Sink, run_between};
use std::alloc::Global;
use tera_run_script::Outcome::{Done, Unreadable};

/// Scripts with their replies behind the line `=>`, and an empty line between two of them. The last line feed of each is left out.
const BATCHES: &str = r#"@@ template a
A
@@ end
@@ template b
B
@@ end
@@ add
@@ render b
@@ render a
=>
ok
ok
ok
B
A

@@ template a
{% extends "p" %}
@@ end
@@ template b
@@ end
@@ add
@@ add
@@ render b
=>
ok
ok
fault MissingParent
ok
fault TemplateNotFound

@@ template a
{% extends "b" %}
@@ end
@@ template b
{% extends "a" %}
@@ end
@@ add
=>
ok
ok
fault CircularExtend

@@ template b
{% extends "a" %}B
@@ end
@@ template a
A
@@ end
@@ add
@@ render b
=>
ok
ok
ok
A

@@ render a
=>
fault TemplateNotFound

@@ template a
A
@@ end
@@ render a
=>
ok
fault TemplateNotFound

@@ template a
{{ x }}
@@ end
@@ add
@@ render a
=>
ok
ok
fault RenderingError a 3 4

@@ template a
A
@@ end
@@ add
@@ template a
B
@@ end
@@ add
@@ render a
=>
ok
ok
ok
ok
B

@@ template a
A
@@ end
@@ template a
B
@@ end
@@ add
@@ render a
=>
ok
ok
ok
B"#;

/// The same, of prefixes and suffixes.
const FIELDS: &str = r#"@@ prefix
@@ template t/a
A
@@ end
@@ add
@@ render a
=>
ok
ok
ok
fault TemplateNotFound

@@ prefix t/
@@ template t/a
A
@@ end
@@ add
@@ render a
@@ render t/a
=>
ok
ok
ok
A
A

@@ prefix s/ t/
@@ template t/a
T
@@ end
@@ template s/a
S
@@ end
@@ add
@@ render a
=>
ok
ok
ok
ok
S

@@ prefix spare/
@@ template spare/wheel
the spare one
@@ end
@@ template wheel
the wheel itself
@@ end
@@ add
@@ render wheel
=>
ok
ok
ok
ok
the wheel itself

@@ prefix s/
@@ prefix t/
@@ template s/a
@@ end
@@ add
@@ prefix s/
@@ render a
=>
ok
ok
ok
ok
fault Message
fault TemplateNotFound

@@ text x
<
@@ end
@@ template a.htm
{{ x }}
@@ end
@@ add
@@ render a.htm
@@ suffix
@@ render a.htm
=>
ok
ok
ok
&lt;
ok
<

@@ text x
<
@@ end
@@ suffix .b .c
@@ template a.c
{{ x }}
@@ end
@@ template a.html
{{ x }}
@@ end
@@ add
@@ render a.c
@@ render a.html
=>
ok
ok
ok
ok
ok
&lt;
<

@@ safe x
<
@@ end
@@ suffix a
@@ template a
{{ x }}{{ "<" }}
@@ end
@@ add
@@ render a
=>
ok
ok
ok
ok
<&lt;"#;

/// Lines that are no commands.
const UNREADABLE: &str =
    "@@ add \n@@ add a\n@@ suffix \n@@ suffix  a\n@@ suffix a \n@@ suffix a  b\n\
    @@ prefix \n@@ prefix a \n@@ prefix a\tb\n@@ render\n@@ render \n@@ render a b\n@@ template\n@@ template a b\n\
    @@ component\n@@ component a\n@@ component a maybe\n@@ component a on \n@@ component a on  b\n@@ component  on b\n\
    @@ preview\n@@ preview \n@@ preview maybe\n@@ preview on off";

/// Whether the replies to the script are these.
fn is_answered(alloc: Global, case: &str) -> bool {
    let (script, replies) = case.split_once("\n=>\n").unwrap_or((case, ""));
    let mut sink = Sink::new();
    run_between(alloc, ScriptSource::new(script.as_bytes()), &mut sink) == Some(Done)
        && sink.written_bytes().strip_suffix(b"\n") == Some(replies.as_bytes())
}

/// The first script of these tables that is answered otherwise, with the replies that it should have.
pub fn wrong_script(alloc: Global, tables: &[&'static str]) -> Option<&'static str> {
    for cases in tables {
        let script = cases.split("\n\n").find(|case| !is_answered(alloc, case));
        if script.is_some() {
            return script;
        }
    }
    None
}

fn is_unreadable(alloc: Global, line: &str) -> bool {
    let mut sink = Sink::new();
    run_between(alloc, ScriptSource::new(line.as_bytes()), &mut sink) == Some(Unreadable(1))
        && sink.written_bytes().is_empty()
}

#[test]
fn batches(rt: HostRuntime) {
    let script = wrong_script(rt.alloc(), &[BATCHES, FIELDS]);
    assert!(rt; script.is_none(), "at script {script:?}");
}

#[test]
fn unreadable_fields(rt: HostRuntime) {
    assert!(rt;
        UNREADABLE
            .lines()
            .all(|line| is_unreadable(rt.alloc(), line))
    );
}
