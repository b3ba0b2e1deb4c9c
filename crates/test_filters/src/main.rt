//! Renders each line of standard input by an engine with all of `tera_filters`, and tells which of them is not answered as it says.
//! Then it renders them again and again with memory refused, at the first request of a rendering, at the second one and so on, and
//! tells which of them is answered otherwise than by the same answer or by want of memory.
//!
//! A line is `INPUT => TEXT`, where the input renders to the text, or `INPUT !! WORD`, where it is refused: with a
//! `RenderingError` (`rendering`) or a `Message` (`message`). A line `# WORDS` is a heading, and from `# autoescape` on texts are
//! escaped. Memory is refused to every fifth row, but to none that takes more of it than is dealt out: that names `huge`, or a
//! class of letters in a regular expression.
#![tactic(auto)]

mod engine;
mod row;
mod trial;

use engine::{RowEngine, engine_of, variables};
use row::{Row, row_of};
use std::alloc::Global;
use std::io;
use tera::Context;
use test_memory::with_pieces;
use trial::{is_answered, is_right_where_refused};

/// How many pieces of memory are left free.
const PIECES: usize = 1_024;

/// Memory is refused to one row of so many.
const FIFTH: usize = 5;

/// Rows that were tried, and those of them that were answered otherwise than they say.
#[derive(Drop)]
struct RowCount {
    rows: usize,
    wrong: usize,
}

impl RowCount {
    fn add(&mut self, is_right: bool) {
        self.rows = self.rows.saturating_add(1);
        if !is_right {
            self.wrong = self.wrong.saturating_add(1);
        }
    }
}

fn judge_all(
    rt: &HostRuntime,
    engine: &RowEngine,
    context: &Context,
    rows: &[Row],
) -> io::Result<RowCount> {
    let mut count = RowCount { rows: 0, wrong: 0 };
    for row in rows {
        let is_right = is_answered(engine, context, row);
        if !is_right {
            println!(rt; "otherwise: {}", row.text.as_str())?;
        }
        count.add(is_right);
    }
    Ok(count)
}

fn judge_all_where_refused(
    rt: &HostRuntime,
    engine: &RowEngine,
    context: &Context,
    rows: &[Row],
) -> io::Result<RowCount> {
    let mut count = RowCount { rows: 0, wrong: 0 };
    for row in rows.iter().step_by(FIFTH) {
        if !row.is_large {
            let is_right = is_right_where_refused(rt.alloc(), engine, context, row);
            if !is_right {
                println!(rt; "otherwise where memory is refused: {}", row.text.as_str())?;
            }
            count.add(is_right);
        }
    }
    Ok(count)
}

fn rows_of(rt: &HostRuntime) -> io::Result<Vec<Row>> {
    let mut rows = Vec::new(rt.alloc());
    let mut autoescape = false;
    for line in rt.lines(rt.alloc()) {
        let line = line?;
        if line.as_str() == "# autoescape" {
            autoescape = true;
        }
        if let Some(row) = row_of(rt.alloc(), line.as_str(), autoescape)? {
            rows.push(row)?;
        }
    }
    Ok(rows)
}

fn run(rt: &HostRuntime, engine: &RowEngine, context: &Context) -> io::Result<()> {
    let rows = rows_of(rt)?;
    let count = judge_all(rt, engine, context, rows.as_slice())?;
    println!(rt; "{} rows, {} answered otherwise", count.rows, count.wrong)?;
    let refused = with_pieces(
        rt.alloc(),
        PIECES,
        || judge_all_where_refused(rt, engine, context, rows.as_slice()),
    );
    match refused {
        Some(count) => {
            let count = count?;
            println!(rt;
                "{} rows with memory refused, {} answered otherwise",
                count.rows, count.wrong
            )
        }
        None => println!(rt; "there is too little memory to refuse any"),
    }
}

fn main(rt: HostRuntime) -> io::Result<()> {
    let alloc: Global = rt.alloc();
    match (engine_of(alloc), variables(alloc)) {
        (Ok(engine), Ok(context)) => run(&rt, &engine, &context),
        _ => println!(rt; "there is too little memory for the engine"),
    }
}
