// Renderings of rows.
use crate::engine::RowEngine;
use crate::row::{Row, Wanted};
use std::alloc::Global;
use tera::{Context, ErrorKind, TeraResult};
use test_memory::{Tried, refusals_of_little, with_budget};

fn is_as_wanted(answer: &TeraResult<String>, wanted: &Wanted) -> bool {
    match (answer, wanted) {
        (Ok(text), Wanted::Text(wanted)) => text.as_str() == wanted.as_str(),
        (Err(error), Wanted::Rendering) => match error.kind() {
            ErrorKind::RenderingError(_) => true,
            _ => false,
        },
        (Err(error), Wanted::Message) => match error.kind() {
            ErrorKind::Message(_) => true,
            _ => false,
        },
        _ => false,
    }
}

fn render(engine: &RowEngine, context: &Context, row: &Row) -> TeraResult<String> {
    engine.render_str(row.input.as_str(), context, row.autoescape)
}

/// Whether the row is answered as it says.
pub fn is_answered(engine: &RowEngine, context: &Context, row: &Row) -> bool {
    is_as_wanted(&render(engine, context, row), &row.wanted)
}

fn is_memory(answer: &TeraResult<String>) -> bool {
    match answer {
        Ok(_) => false,
        Err(error) => match error.kind() {
            ErrorKind::OutOfMemory => true,
            _ => false,
        },
    }
}

// How the row is answered where so many bytes are left of little memory.
fn try_with(
    alloc: Global,
    engine: &RowEngine,
    context: &Context,
    row: &Row,
    budget: usize,
) -> Tried {
    match with_budget(alloc, budget, || render(engine, context, row)) {
        Some(answer) if is_memory(&answer) => Tried::Refused,
        Some(answer) if is_as_wanted(&answer, &row.wanted) => Tried::Answered,
        _ => Tried::Wrong,
    }
}

/// Whether it is so too with more and more memory, until there is enough: until then each answer is want of memory.
pub fn is_right_where_refused(
    alloc: Global,
    engine: &RowEngine,
    context: &Context,
    row: &Row,
) -> bool {
    refusals_of_little(|budget| try_with(alloc, engine, context, row, budget)) > Some(0)
}
