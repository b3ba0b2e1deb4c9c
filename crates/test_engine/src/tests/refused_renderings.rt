//! Renderings to which memory is refused, at their first request, at their second one, and so on.
use super::cases::put;
use super::tried::{answered_if, refused_if};
use std::alloc::Global;
use tera::{Context, Tera, Value};
use test_memory::{Tried, refusals, with_budget};

const INPUT: &str = "Hello {{ name }}!{# not this #}";

const WANT: &str = "Hello &lt;world&gt;!";

const BEFORE: &[u8] = b"before ";

fn try_rendering(alloc: Global, engine: &Tera, context: &Context, budget: usize) -> Tried {
    match with_budget(alloc, budget, || engine.render_str(INPUT, context, true)) {
        Some(Ok(text)) => answered_if(text.as_str() == WANT),
        Some(Err(error)) => refused_if(&error, true),
        None => Tried::Wrong,
    }
}

fn try_appending_to(
    alloc: Global,
    engine: &Tera,
    context: &Context,
    budget: usize,
    out: &mut Vec<u8>,
) -> Tried {
    match with_budget(
        alloc,
        budget,
        || engine.render_str_to(INPUT, context, true, out),
    ) {
        Some(Ok(())) => answered_if(out.strip_prefix(BEFORE) == Some(WANT.as_bytes())),
        Some(Err(error)) => refused_if(&error, out.as_slice() == BEFORE),
        None => Tried::Wrong,
    }
}

fn try_appending(alloc: Global, engine: &Tera, context: &Context, budget: usize) -> Tried {
    match BEFORE.to_vec(alloc) {
        Ok(mut out) => try_appending_to(alloc, engine, context, budget, &mut out),
        Err(_) => Tried::Wrong,
    }
}

fn are_refused_in_turn(alloc: Global, engine: &Tera, context: &Context) -> bool {
    refusals(
        alloc,
        |budget| try_rendering(alloc, engine, context, budget),
    ) > Some(0)
        && refusals(
            alloc,
            |budget| try_appending(alloc, engine, context, budget),
        ) > Some(0)
}

fn greets(alloc: Global, engine: &Tera) -> bool {
    let mut context = Context::new(alloc);
    put(&mut context, "name", Value::string(alloc, "<world>"))
        && are_refused_in_turn(alloc, engine, &context)
}

fn is_greeted(alloc: Global) -> bool {
    match Tera::new(alloc) {
        Ok(engine) => greets(alloc, &engine),
        Err(_) => false,
    }
}

#[test]
fn renderings_are_refused_in_turn(rt: HostRuntime) {
    assert!(rt; is_greeted(rt.alloc()));
}
