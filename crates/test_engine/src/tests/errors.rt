//! Errors that are made with memory enough: no contract says that they ever carry their words.
use tera::{Error, ErrorKind, ReportError, Span};

const SPAN: Span = Span { start: 1, end: 2 };

fn reports(report: &ReportError) -> bool {
    report.message() == "why" && report.file() == "file" && report.span() == SPAN
}

fn is_message(error: Error) -> bool {
    matches!(error.kind(), ErrorKind::Message(text) if text.as_str() == "why")
}

fn is_syntax_error(error: Error) -> bool {
    match error.kind() {
        ErrorKind::SyntaxError(report) => reports(report) && report.notes().is_empty(),
        _ => false,
    }
}

fn is_rendering_error(error: Error) -> bool {
    matches!(error.kind(), ErrorKind::RenderingError(report) if reports(report))
}

#[test]
fn errors_carry_their_words(rt: HostRuntime) {
    assert!(rt;
        is_message(Error::message(rt.alloc(), "why"))
            && is_syntax_error(Error::syntax(rt.alloc(), "why", "file", SPAN))
            && is_rendering_error(Error::rendering(rt.alloc(), "why", "file", SPAN))
    );
}
