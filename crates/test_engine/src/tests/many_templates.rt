//! Many templates, and templates with many parents.
use super::templates::{adds, shows};
use std::alloc::Global;
use tera::{Context, Tera, TeraResult};

pub fn put_number(text: &mut String, number: usize) -> bool {
    write!(text, "{number}").is_ok()
}

/// Templates in a row, with their numbers from one on for their names.
#[derive(Clone, Copy)]
pub struct Lineage<'a> {
    pub count: usize,
    /// What each but the last has before the name of the next one.
    pub before: &'a str,
    /// What each but the last has behind the name of the next one.
    pub behind: &'a str,
    /// How often each but the last has the next one's name, with this around it.
    pub times: usize,
    pub last: &'a str,
}

impl<'a> Lineage<'a> {
    fn put_line(self, lines: &mut String, number: usize) -> bool {
        let Lineage { before, behind, .. } = self;
        let next = number.saturating_add(1);
        let mut is_put = write!(lines, "{number} ").is_ok();
        for _ in 0..self.times {
            is_put = is_put && write!(lines, "{before}{next}{behind}").is_ok();
        }
        is_put && writeln!(lines).is_ok()
    }
}

/// A line `NUMBER TEXT` for each of the templates.
fn lines_of(alloc: Global, lineage: Lineage<'_>) -> Option<String> {
    let mut lines = String::new(alloc);
    for number in 1..lineage.count {
        if !lineage.put_line(&mut lines, number) {
            return None;
        }
    }
    let Lineage { count, last, .. } = lineage;
    if write!(lines, "{count} {last}").is_ok() {
        return Some(lines);
    }
    None
}

/// Whether the templates, each a line of its name and its text, are added in one batch.
fn adds_all(alloc: Global, engine: &mut Tera, lines: &str) -> bool {
    let mut batch = Vec::new(alloc);
    for line in lines.lines() {
        match line.split_once(' ') {
            Some(pair) => {
                if batch.push(pair).is_err() {
                    return false;
                }
            }
            None => return false,
        }
    }
    engine.add_raw_templates(batch.as_slice()).is_ok()
}

fn is_shown(alloc: Global, engine: &mut Tera, lines: &str, name: &str, want: &str) -> bool {
    let context = Context::new(alloc);
    adds_all(alloc, engine, lines) && shows(engine, &context, name, want)
}

/// Whether the template of this name, one of those in the row, renders to the text.
pub fn shows_one(alloc: Global, lineage: Lineage<'_>, name: &str, want: &str) -> bool {
    match (Tera::new(alloc), lines_of(alloc, lineage)) {
        (Ok(mut engine), Some(lines)) => is_shown(alloc, &mut engine, lines.as_str(), name, want),
        _ => false,
    }
}

/// Whether a template puts out what the last one of the row is, to which this tag of each leads.
fn leads_on(alloc: Global, count: usize, before: &str, name: &str) -> bool {
    let lineage = Lineage {
        count,
        before,
        behind: "' %}",
        times: 1,
        last: "the last",
    };
    shows_one(alloc, lineage, name, "the last")
}

#[test]
fn many_parents(rt: HostRuntime) {
    assert!(rt;
        leads_on(rt.alloc(), 301, "{% extends '", "1")
            && leads_on(rt.alloc(), 10_000, "{% extends '", "9990")
    );
}

#[test]
fn many_includes(rt: HostRuntime) {
    assert!(rt;
        leads_on(rt.alloc(), 301, "{% include '", "1")
            && leads_on(rt.alloc(), 10_000, "{% include '", "9800")
    );
}

// From the first to the last of these lead 2^40 ways.
const TWICE: Lineage<'static> = Lineage {
    count: 41,
    before: "{% include '",
    behind: "' %}",
    times: 2,
    last: "x",
};

#[test]
fn includes_that_branch(rt: HostRuntime) {
    assert!(rt; shows_one(rt.alloc(), TWICE, "38", "xxxxxxxx"));
}

fn shows_number(alloc: Global, engine: &mut Tera, context: &Context, number: usize) -> bool {
    let mut text = String::new(alloc);
    put_number(&mut text, number)
        && adds(engine, "a.html", text.as_str())
        && shows(engine, context, "a.html", text.as_str())
}

fn shows_each(alloc: Global, engine: &mut Tera) -> bool {
    let context = Context::new(alloc);
    for number in 0..200 {
        if !shows_number(alloc, engine, &context, number) {
            return false;
        }
    }
    true
}

fn is_overwritten(alloc: Global) -> TeraResult<bool> {
    let mut engine = Tera::new(alloc)?;
    Ok(shows_each(alloc, &mut engine))
}

#[test]
fn the_last_text_of_a_name_is_shown(rt: HostRuntime) {
    assert!(rt; is_overwritten(rt.alloc()).unwrap_or(false));
}
