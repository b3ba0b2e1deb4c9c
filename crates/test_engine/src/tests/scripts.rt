//! Scripts, their replies, and what their runs come to.
use super::devices::{ScriptSource, Sink, run_between};
use std::alloc::Global;
use tera_run_script::Outcome;
use tera_run_script::Outcome::{Done, Unreadable};

/// A script, its replies, and what a run of it comes to.
#[derive(Clone, Copy)]
struct ScriptRow(&'static [u8], &'static [u8], Outcome);

const SCRIPTS: [ScriptRow; 15] = [
    ScriptRow(
        b"@@ text name\nworld\n@@ end\n@@ str off\nHello {{ name }}!\n@@ end\n",
        b"ok\nHello world!\n",
        Done,
    ),
    ScriptRow(
        b"@@ text name\n<script>\n@@ end\n\n\n@@ str on\nHello {{ name }}!\n@@ end",
        b"ok\nHello &lt;script&gt;!\n",
        Done,
    ),
    ScriptRow(
        b"@@ str on\n{{ nope }}\n@@ end\n@@ str off\nx\n@@ end\n",
        b"fault RenderingError __tera_one_off 3 7\nx\n",
        Done,
    ),
    ScriptRow(b"", b"", Done),
    ScriptRow(b"\n\n", b"", Done),
    ScriptRow(b"@@ str off\n@@ end\n", b"\n", Done),
    ScriptRow(b"@@ str off\n\n@@ end\n", b"\n", Done),
    ScriptRow(b"@@ str off\na\n\n\n@@ end", b"a\n\n\n", Done),
    ScriptRow(
        b"@@ str off\n@@ text x\n @@ end\n@@ end \n@@ end\n",
        b"@@ text x\n @@ end\n@@ end \n",
        Done,
    ),
    ScriptRow(b"\n\n@@ text\n@@ end\n", b"", Unreadable(3)),
    ScriptRow(
        b"@@ text x\nbody\n@@ end\n@@ str on\nopen\n",
        b"ok\n",
        Unreadable(4),
    ),
    ScriptRow(
        b"@@ text x\nbody\n@@ end\n\n@@ str off\nx\n@@ end\nhello\n",
        b"ok\nx\n",
        Unreadable(8),
    ),
    ScriptRow(b"@@ add\n@@ template a\nopen\n", b"ok\n", Unreadable(2)),
    ScriptRow(
        b"@@ render shelf\n@@ dust shelf\n@@ render shelf\n",
        b"fault TemplateNotFound\n",
        Unreadable(2),
    ),
    ScriptRow(
        b"@@ template egg\n\n@@ end\n@@ template hen\n{% extends 'egg' %}\n@@ end\n\
          @@ template coop\n{% extends 'hen' %}\n@@ end\n@@ add\n@@ render coop\n@@ render egg\n",
        b"ok\nok\nok\nok\n\n\n",
        Done,
    ),
];

/// Scripts that are given up at their first line. Nothing is written for them.
const UNREADABLE: [&[u8]; 16] = [
    b"hello",
    b"@@ wrong\n",
    b"@@ end\n",
    b"@@\n",
    b"@@ text \n@@ end\n",
    b"@@ text a b\n@@ end\n",
    b"@@ text  a\n@@ end\n",
    b"@@ text a \n@@ end\n",
    b"@@ text a\tb\n@@ end\n",
    b"@@ text a\xc2\xa0b\n@@ end\n",
    b"@@ str maybe\n@@ end\n",
    b"@@ str on\r\n@@ end\n",
    b" @@ str on\n@@ end\n",
    b"@@ str on",
    b"@@ text x\nbody\n@@ end\n\xff",
    b"@@ template a b\n@@ end\n",
];

fn is_answered(alloc: Global, script: ScriptRow) -> bool {
    let mut sink = Sink::new();
    run_between(alloc, ScriptSource::new(script.0), &mut sink) == Some(script.2)
        && sink.written_bytes() == script.1
}

fn is_unreadable(alloc: Global, text: &'static [u8]) -> bool {
    is_answered(alloc, ScriptRow(text, b"", Unreadable(1)))
}

#[test]
fn scripts(rt: HostRuntime) {
    let row = SCRIPTS
        .iter()
        .position(|script| !is_answered(rt.alloc(), *script));
    assert!(rt; row.is_none(), "at row {row:?}");
    let row = UNREADABLE
        .iter()
        .position(|text| !is_unreadable(rt.alloc(), *text));
    assert!(rt;
        row.is_none(),
        "at row {row:?} of those that are unreadable"
    );
}
