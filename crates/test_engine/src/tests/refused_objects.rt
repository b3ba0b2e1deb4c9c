//! Objects that are registered and moved where memory is refused, at the first request, at the second one, and so on.
use super::cases::wrong_line_number;
use super::objects_moved::{first_engine, holds, second_engine};
use super::tried::{answered_if, refused_if};
use crate::own::{Asks, Holding, word_object};
use std::alloc::Global;
use std::rc::RcStr;
use tera::{Context, Tera, TeraResult, Value};
use test_memory::{Tried, refusals, with_budget, with_little};

/// What is asked of the engine.
#[derive(Clone, Copy)]
enum RegisteringCase {
    Moves,
    Puts,
}

/// What comes from the other engine, in the order in which it is moved.
const MOVED: &str = "{{ 1 | g }} => g2\n{{ 1 is held }} => true\n{{ h() }} => h2";

/// The same where it is not there.
const ABSENT: &str = "{{ 1 | g }} !! message\n{{ 1 is held }} !! message\n{{ h() }} !! message";

/// What was there before.
const KEPT: &str = "{{ 1 | f }}{{ f() }} => f1f1\n{{ ' a ' | trim }}{{ 2 is odd }} => afalse";

fn keeps(engine: &Tera, context: &Context) -> bool {
    wrong_line_number(engine, context, false, KEPT).is_none()
}

fn has_all(engine: &Tera, context: &Context) -> bool {
    keeps(engine, context) && wrong_line_number(engine, context, false, MOVED).is_none()
}

/// Whether the first objects are there, and none behind them.
fn has_the_first(engine: &Tera, context: &Context) -> bool {
    match wrong_line_number(engine, context, false, MOVED) {
        Some(count) => {
            keeps(engine, context)
                && ABSENT.lines().skip(count).all(|line| wrong_line_number(
                    engine, context, false, line,
                ).is_none())
        }
        None => false,
    }
}

fn is_completed(alloc: Global, engine: &mut Tera, context: &Context) -> bool {
    match second_engine(alloc) {
        Ok(other) => engine.register_from(other).is_ok() && has_all(engine, context),
        Err(_) => false,
    }
}

fn judge(
    alloc: Global,
    engine: &mut Tera,
    context: &Context,
    ended: Option<TeraResult<()>>,
) -> Tried {
    match ended {
        Some(Ok(())) => answered_if(has_all(engine, context)),
        Some(Err(error)) => {
            let is_right = has_the_first(engine, context) && is_completed(alloc, engine, context);
            refused_if(&error, is_right)
        }
        None => Tried::Wrong,
    }
}

fn moves(alloc: Global, engine: &mut Tera, budget: usize) -> Option<TeraResult<()>> {
    let other = second_engine(alloc).ok()?;
    with_budget(alloc, budget, || engine.register_from(other))
}

fn registers(alloc: Global, engine: &mut Tera, budget: usize) -> Option<TeraResult<()>> {
    let filter = Box::new(alloc, word_object(alloc, "g2", false)).ok()?;
    let test = Box::new(alloc, Holding).ok()?;
    let function = Box::new(alloc, word_object(alloc, "h2", false)).ok()?;
    with_budget(alloc, budget, || {
        engine.register_filter("g", filter)?;
        engine.register_test("held", test)?;
        engine.register_function("h", function)
    })
}

fn try_on(alloc: Global, engine: &mut Tera, case: RegisteringCase, budget: usize) -> Tried {
    let ended = match case {
        RegisteringCase::Moves => moves(alloc, engine, budget),
        RegisteringCase::Puts => registers(alloc, engine, budget),
    };
    judge(alloc, engine, &Context::new(alloc), ended)
}

fn tries(alloc: Global, case: RegisteringCase, budget: usize) -> Tried {
    match first_engine(alloc) {
        Ok(mut engine) => try_on(alloc, &mut engine, case, budget),
        Err(_) => Tried::Wrong,
    }
}

// What is moved may lie where the other engine's tables lay, so that a move can do without further memory.
#[test]
fn moves_are_refused_in_turn(rt: HostRuntime) {
    assert!(rt;
        refusals(
            rt.alloc(),
            |budget| tries(rt.alloc(), RegisteringCase::Moves, budget)
        )
        .is_some()
    );
}

#[test]
fn registering_is_refused_in_turn(rt: HostRuntime) {
    assert!(rt;
        refusals(
            rt.alloc(),
            |budget| tries(rt.alloc(), RegisteringCase::Puts, budget)
        ) > Some(0)
    );
}

fn escapes_without_memory(alloc: Global) -> TeraResult<bool> {
    let mut engine = Tera::new(alloc)?;
    let escape = Box::new(alloc, Asks { alloc })?;
    let mut context = Context::new(alloc);
    context.insert("name", Value::string(alloc, "<a>")?)?;
    let is_set = with_little(
        alloc,
        || with_budget(alloc, 0, || engine.set_escape_fn(escape)),
    )
    .is_some();
    let asks = wrong_line_number(&engine, &context, true, "{{ name }} => <?>").is_none();
    let is_reset = with_little(
        alloc,
        || with_budget(alloc, 0, || engine.reset_escape_fn()),
    ).is_some();
    let escapes = wrong_line_number(&engine, &context, true, "{{ name }} => &lt;a&gt;").is_none();
    Ok(is_set && asks && is_reset && escapes)
}

#[test]
fn escapes_are_set_without_memory(rt: HostRuntime) {
    let is_right = matches!(escapes_without_memory(rt.alloc()), Ok(true));
    assert!(rt; is_right);
}

/// How an object comes to an engine.
#[derive(Clone, Copy)]
enum Way {
    Filter,
    Test,
    Function,
    FromAnother,
}

fn engine_of_holders(alloc: Global, held: &RcStr) -> TeraResult<Tera> {
    let mut engine = Tera::new(alloc)?;
    engine.register_filter("a", Box::new(alloc, holds(alloc, held)?)?)?;
    engine.register_test("a", Box::new(alloc, holds(alloc, held)?)?)?;
    engine.register_function("a", Box::new(alloc, holds(alloc, held)?)?)?;
    Ok(engine)
}

fn register_holder(
    alloc: Global,
    engine: &mut Tera,
    held: &RcStr,
    way: Way,
    budget: usize,
) -> Option<TeraResult<()>> {
    match way {
        Way::Filter => {
            let filter = Box::new(alloc, holds(alloc, held).ok()?).ok()?;
            with_budget(alloc, budget, || engine.register_filter("a", filter))
        }
        Way::Test => {
            let test = Box::new(alloc, holds(alloc, held).ok()?).ok()?;
            with_budget(alloc, budget, || engine.register_test("a", test))
        }
        Way::Function => {
            let function = Box::new(alloc, holds(alloc, held).ok()?).ok()?;
            with_budget(alloc, budget, || engine.register_function("a", function))
        }
        Way::FromAnother => {
            let other = engine_of_holders(alloc, held).ok()?;
            with_budget(alloc, budget, || engine.register_from(other))
        }
    }
}

// How many of these calls find what they call.
fn count_known(engine: &Tera, context: &Context) -> usize {
    ["{{ 1 | a }}", "{{ 1 is a }}", "{{ a() }}"]
        .iter()
        .filter(|text| engine.render_str(text, context, false).is_ok())
        .count()
}

// Whether the text is held by the objects that the engine has, and by no other: one that was refused is dropped at once.
fn try_holder(alloc: Global, held: &RcStr, way: Way, budget: usize) -> Tried {
    let Ok(mut engine) = Tera::new(alloc) else {
        return Tried::Wrong;
    };
    let before = RcStr::strong_count(held);
    let ended = register_holder(alloc, &mut engine, held, way, budget);
    let many = count_known(&engine, &Context::new(alloc));
    let is_right = RcStr::strong_count(held).checked_sub(before) == Some(many);
    drop(engine);
    let all_dropped = RcStr::strong_count(held) == before;
    match ended {
        Some(Ok(())) => answered_if(is_right && all_dropped && many > 0),
        Some(Err(error)) => refused_if(&error, is_right && all_dropped),
        None => Tried::Wrong,
    }
}

#[test]
fn what_is_refused_is_dropped(rt: HostRuntime) {
    let alloc = rt.alloc();
    let is_right = match RcStr::from_str(alloc, "held") {
        Ok(held) => [Way::Filter, Way::Test, Way::Function, Way::FromAnother]
            .iter()
            .all(|way| refusals(alloc, |budget| try_holder(alloc, &held, *way, budget)).is_some()),
        Err(_) => false,
    };
    assert!(rt; is_right);
}
