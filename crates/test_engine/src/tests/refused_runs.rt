//! Runs of the program to which memory is refused, at their first request, at their second one, and so on.
use super::devices::{ScriptSource, Sink, run_on};
use std::alloc::Global;
use tera::Tera;
use tera_run_script::Outcome;
use test_memory::{Tried, refusals, with_budget};

/// A script that is run.
#[derive(Clone, Copy)]
enum RunCase {
    Texts,
    Templates,
}

const TEXTS: &[u8] = b"@@ text name\n<world>\n@@ end\n@@ str on\nHello {{ name }}!\n@@ end\n";

const TEMPLATES: &[u8] = b"@@ template a\nA\n@@ end\n@@ add\n@@ render a\n";

/// What is written where a command itself finds no memory.
const FAULTS_OF_TEXTS: [&[u8]; 3] = [
    b"ok\nfault OutOfMemory\n",
    b"fault OutOfMemory\nfault OutOfMemory\n",
    b"fault OutOfMemory\nfault RenderingError __tera_one_off 9 13\n",
];

/// A template that found no room does not wait, and none waits once an adding was refused.
const FAULTS_OF_TEMPLATES: [&[u8]; 7] = [
    b"ok\nok\nfault OutOfMemory\n",
    b"ok\nfault OutOfMemory\nfault OutOfMemory\n",
    b"ok\nfault OutOfMemory\nfault TemplateNotFound\n",
    b"fault OutOfMemory\nok\nfault OutOfMemory\n",
    b"fault OutOfMemory\nok\nfault TemplateNotFound\n",
    b"fault OutOfMemory\nfault OutOfMemory\nfault OutOfMemory\n",
    b"fault OutOfMemory\nfault OutOfMemory\nfault TemplateNotFound\n",
];

fn is_answered(case: RunCase, written: &[u8]) -> bool {
    match case {
        RunCase::Texts => written == b"ok\nHello &lt;world&gt;!\n".as_slice(),
        RunCase::Templates => written == b"ok\nok\nA\n".as_slice(),
    }
}

fn is_refused(case: RunCase, written: &[u8]) -> bool {
    match case {
        RunCase::Texts => FAULTS_OF_TEXTS.iter().any(|faults| written == *faults),
        RunCase::Templates => FAULTS_OF_TEMPLATES.iter().any(|faults| written == *faults),
    }
}

fn judge(case: RunCase, outcome: Option<Outcome>, written: &[u8]) -> Tried {
    match outcome {
        Some(Outcome::Done) if is_answered(case, written) => Tried::Answered,
        Some(Outcome::Done) if is_refused(case, written) => Tried::Refused,
        Some(Outcome::NoMemory) if written.is_empty() => Tried::Refused,
        _ => Tried::Wrong,
    }
}

fn try_running_on(alloc: Global, engine: &mut Tera, case: RunCase, budget: usize) -> Tried {
    let mut sink = Sink::new();
    let source = match case {
        RunCase::Texts => ScriptSource::new(TEXTS),
        RunCase::Templates => ScriptSource::new(TEMPLATES),
    };
    let outcome = with_budget(alloc, budget, || run_on(alloc, engine, source, &mut sink));
    judge(case, outcome, sink.written_bytes())
}

fn try_running(alloc: Global, case: RunCase, budget: usize) -> Tried {
    match Tera::new(alloc) {
        Ok(mut engine) => try_running_on(alloc, &mut engine, case, budget),
        Err(_) => Tried::Wrong,
    }
}

#[test]
fn runs_are_refused_in_turn(rt: HostRuntime) {
    assert!(rt;
        refusals(
            rt.alloc(),
            |budget| try_running(rt.alloc(), RunCase::Texts, budget)
        ) > Some(0)
            && refusals(
                rt.alloc(),
                |budget| try_running(rt.alloc(), RunCase::Templates, budget)
            ) > Some(0)
    );
}
