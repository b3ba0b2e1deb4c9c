// Rows of a table.
use std::alloc::{AllocError, Global};

/// What a row wants.
#[derive(Drop)]
pub enum Wanted {
    Text(String),
    /// A `RenderingError`.
    Rendering,
    Message,
}

/// An input, and what it is answered.
#[derive(Drop)]
pub struct Row {
    /// The whole line.
    pub text: String,
    pub input: String,
    pub autoescape: bool,
    pub is_large: bool,
    pub wanted: Wanted,
}

fn row_with(
    alloc: Global,
    line: &str,
    input: &str,
    autoescape: bool,
    wanted: Wanted,
) -> Result<Row, AllocError> {
    Ok(Row {
        text: String::from_str(alloc, line)?,
        input: String::from_str(alloc, input)?,
        autoescape,
        is_large: input.contains("huge") || input.contains("\\w"),
        wanted,
    })
}

/// The row of the line, if it is one.
pub fn row_of(alloc: Global, line: &str, autoescape: bool) -> Result<Option<Row>, AllocError> {
    if line.starts_with('#') {
        return Ok(None);
    }
    if let Some((input, text)) = line.split_once(" => ") {
        let wanted = Wanted::Text(String::from_str(alloc, text)?);
        return Ok(Some(row_with(alloc, line, input, autoescape, wanted)?));
    }
    match line.split_once(" !! ") {
        Some((input, "message")) => {
            Ok(Some(row_with(alloc, line, input, autoescape, Wanted::Message)?))
        }
        Some((input, _)) => Ok(Some(row_with(alloc, line, input, autoescape, Wanted::Rendering)?)),
        None => Ok(None),
    }
}
