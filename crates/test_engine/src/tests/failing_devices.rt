//! Runs between readers and writers that fail, and what is told of them.
use super::devices::{Failing, ScriptSource, Sink, run_between};
use std::alloc::Global;
use tera_run_script::Outcome::{Device, Done, NoMemory, Unreadable};
use tera_run_script::{Outcome, WriterOutput, complaint};

const HELLO: &[u8] = b"@@ text name\nworld\n@@ end\n@@ str off\nHello {{ name }}!\n@@ end\n";

const REPLIES: &[u8] = b"ok\nHello world!\n";

const COMPLAINT: &[u8] = b"unreadable command at line 12\n";

/// Whether the run ends at this read where it fails, with nothing written.
fn fails_at_read(alloc: Global, number: usize) -> bool {
    let mut sink = Sink::new();
    let outcome = run_between(
        alloc,
        ScriptSource::with_failing_read(HELLO, number),
        &mut sink,
    );
    // Its 62 bytes take nine reads, a tenth finds the end, and one was interrupted.
    if number <= 11 {
        outcome == Some(Device) && sink.written_bytes().is_empty()
    } else {
        outcome == Some(Done) && sink.written_bytes() == REPLIES
    }
}

/// Whether the run ends where the writer's room does.
fn fails_at_write(alloc: Global, room: usize, failing: Failing) -> bool {
    let mut sink = Sink::with_failing_write(room, failing);
    run_between(alloc, ScriptSource::new(HELLO), &mut sink) == Some(Device)
        && sink.written_bytes().len() == room
        && REPLIES.starts_with(sink.written_bytes())
}

/// Whether a failed write or flush goes before an unreadable line.
fn fails_before_unreadable(alloc: Global, room: usize, failing: Failing) -> bool {
    let script = b"@@ text x\n@@ end\nhello";
    run_between(
        alloc,
        ScriptSource::new(script),
        &mut Sink::with_failing_write(room, failing),
    ) == Some(Device)
}

#[test]
fn failing_devices(rt: HostRuntime) {
    assert!(rt;
        (2..14).all(|number| fails_at_read(rt.alloc(), number))
            && (0..REPLIES.len()).all(|room| {
                fails_at_write(rt.alloc(), room, Failing::Writes)
                    && fails_at_write(rt.alloc(), room, Failing::Quietly)
            })
            && fails_at_write(rt.alloc(), REPLIES.len(), Failing::Flushes)
            && fails_before_unreadable(rt.alloc(), 1, Failing::Writes)
            && fails_before_unreadable(rt.alloc(), 64, Failing::Flushes)
    );
}

/// What is told of a run, with its exit status.
#[derive(Clone, Copy)]
struct OutcomeRow(Outcome, &'static [u8], u8);

const TOLD: [OutcomeRow; 4] = [
    OutcomeRow(Done, b"", 0),
    OutcomeRow(Unreadable(12), COMPLAINT, 2),
    OutcomeRow(Device, b"", 3),
    OutcomeRow(NoMemory, b"", 4),
];

fn is_told(told: OutcomeRow, mut sink: Sink) -> bool {
    complaint(&told.0, &mut WriterOutput::new(&mut sink));
    sink.written_bytes() == told.1 && told.0.status() == told.2
}

#[test]
fn complaints(rt: HostRuntime) {
    let part = OutcomeRow(Unreadable(12), b"unreadab", 2);
    assert!(rt;
        TOLD.iter().all(|told| {
            is_told(*told, Sink::new())
                && is_told(*told, Sink::with_failing_write(64, Failing::Flushes))
        }) && is_told(part, Sink::with_failing_write(8, Failing::Writes))
    );
}
