// A page with filters of a library, and with one of this program beside them: none has a box. docs/USING.md explains it.
#![tactic(auto)]

use std::alloc::Global;
use std::io;
use std::io::Write;
use tera::{Context, Error, Filter, Kwargs, State, TeraOver, TeraResult, Value};
use tera_filters::{Clock, NoObject, Pack, PackObjects, extra_objects};

/// The filters of this program.
#[derive(Clone, Copy)]
enum PageFilter {
    /// The text twice.
    Twice,
}

impl Filter for PageFilter {
    ghost use Rattle.std.specs.Prelude.{false};
    ghost use Rattle.example_filters.specs.PageFilters.{twice};

    ghost meaning = { λ f v given view. twice v };

    ghost safe = { λ f. false };

    fn call(&self, value: &Value, _kwargs: Kwargs, state: &State<'_>) -> TeraResult<Value> {
        let Some(text) = value.as_str() else {
            return Err(Error::invalid_argument());
        };
        let mut both = String::from_str(state.alloc(), text)?;
        both.push_str(text)?;
        Value::from_string(state.alloc(), both, false)
    }

    fn is_safe(&self) -> bool {
        false
    }
}

const PAGE: &str = r#"<h1>{{ name | title }}</h1>
<p>{{ "tick " | twice }}{{ name | slugify }}, {{ size | filesizeformat }}, {{ now() | date(format="%d.%m.%Y") }}</p>
{{ text | linebreaks }}
"#;

fn page(alloc: Global) -> TeraResult<String> {
    let mut objects = extra_objects::<PageFilter, NoObject, NoObject>(
        alloc,
        Some(Clock {
            seconds: 1_717_150_830,
        }),
    )?;
    objects.register_filter("twice", Pack::Own(PageFilter::Twice))?;
    let mut engine = TeraOver::with_objects(alloc, objects)?;
    engine.add_raw_template("page.html", PAGE)?;
    let mut context = Context::new(alloc);
    context.insert_text("name", "harbour & quay")?;
    context.insert_int("size", 123_456_789)?;
    context.insert_text("text", "Two <lines>\nof one paragraph.\n\nAnother.")?;
    engine.render("page.html", &context)
}

fn main(rt: HostRuntime) -> io::Result<()> {
    match page(rt.alloc()) {
        Ok(text) => rt.stdout().write_all(text.as_str().as_bytes()),
        Err(error) => println!(rt; "{error}"),
    }
}
