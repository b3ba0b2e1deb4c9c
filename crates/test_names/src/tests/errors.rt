// Errors, and where they point.
use std::alloc::Global;
use tera::{Context, Error, ErrorKind, Place, Span, Tera};

fn is_no(error: &Error) -> bool {
    match error.kind() {
        ErrorKind::Message(text) => text.as_str() == "no",
        _ => false,
    }
}

/// Whether the error is told of the text beside the templates, at this place.
fn points_at(error: &Error, start: usize, end: usize) -> bool {
    match error.kind() {
        ErrorKind::RenderingError(report) => {
            let span: Span = report.span();
            span.start == start
                && span.end == end
                && report.file() == "__tera_one_off"
                && report.place() == Some(Place { line: 1, column: 4 })
                && !report.message().is_empty()
                && report.notes().is_empty()
        }
        _ => false,
    }
}

fn is_pointed_at(alloc: Global) -> bool {
    match Tera::one_off(alloc, "{{ nobody }}", &Context::new(alloc), true) {
        Ok(_) => false,
        Err(error) => points_at(&error, 3, 9),
    }
}

#[test]
fn errors_are_told(rt: HostRuntime) {
    assert!(rt; is_no(&Error::message(rt.alloc(), "no")));
    assert!(rt; matches!(Error::out_of_memory().kind(), ErrorKind::OutOfMemory));
    assert!(rt; is_pointed_at(rt.alloc()));
}
