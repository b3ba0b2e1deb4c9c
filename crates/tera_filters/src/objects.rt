// Objects of an engine that has all of this crate.
ghost use Rattle.std.specs.Prelude.{◌≡◌, Ok, OnOk, IfErr};
ghost use Rattle.tera_errors.specs.Prelude.{Gives, Lacks};
ghost use Rattle.tera_state.specs.Prelude.{engine_of};
ghost use Rattle.tera_filters.specs.Pack.{PackMeanings, extra_engine, in_extra, rows_of, with_filters, with_now, with_tests};

use crate::clocks::Clock;
use crate::extra_filter::ExtraFilter;
use crate::extra_function::ExtraFunction;
use crate::extra_test::ExtraTest;
use crate::pack::{Pack, PackObjects};
use std::alloc::Global;
use tera_state::{Filter, Function, Objects, Test};
use tera_values::TeraResult;

/// The filters by their names, in byte order.
const FILTERS: [(&str, ExtraFilter); 19] = [
    ("b64decode", ExtraFilter::B64decode),
    ("b64encode", ExtraFilter::B64encode),
    ("capitalize", ExtraFilter::Capitalize),
    ("date", ExtraFilter::Date),
    ("filesizeformat", ExtraFilter::Filesizeformat),
    ("json_encode", ExtraFilter::JsonEncode),
    ("linebreaks", ExtraFilter::Linebreaks),
    ("lower", ExtraFilter::Lower),
    ("md5", ExtraFilter::Md5),
    ("regex_replace", ExtraFilter::RegexReplace),
    ("sha256", ExtraFilter::Sha256),
    ("slugify", ExtraFilter::Slugify),
    ("spaceless", ExtraFilter::Spaceless),
    ("striptags", ExtraFilter::Striptags),
    ("title", ExtraFilter::Title),
    ("truncate_words", ExtraFilter::TruncateWords),
    ("upper", ExtraFilter::Upper),
    ("urlencode", ExtraFilter::Urlencode),
    ("urlencode_strict", ExtraFilter::UrlencodeStrict),
];

/// Objects with all of this crate: its filters and tests and, where the host gives the time, the function `now`. A caller may
/// register its own beside them.
pub fn extra_objects<F: Filter, T: Test, G: Function>(
    alloc: Global,
    clock: Option<Clock>,
) -> TeraResult<PackObjects<F, T, G>>
    ensures { Gives ⟦<PackObjects<F, T, G> as Objects>⟧.engine result (Ok (extra_engine clock)) }
{
    let mut objects = PackObjects::new(alloc);
    put_filters(&mut objects, &FILTERS)?;
    put_tests(&mut objects)?;
    put_now(&mut objects, clock)?;
    Ok(objects)
}

// Registers each filter at its name.
fn put_filters<F: Drop, T: Drop, G: Drop>(
    objects: &mut PackObjects<F, T, G>,
    rows: &[(&str, ExtraFilter)],
) -> TeraResult<()>
    ensures ok { (m : PackMeanings F T G) → OnOk result (engine_of m objects.new
        ≡ with_filters (in_extra m.filter) (rows_of rows.now) (engine_of m objects.old)) }
    ensures lacks { IfErr result Lacks }
{
    for row in rows {
        objects.register_filter(row.0, Pack::Extra(row.1))?;
    }
    Ok(())
}

// Registers the tests.
fn put_tests<F: Drop, T: Drop, G: Drop>(objects: &mut PackObjects<F, T, G>) -> TeraResult<()>
    ensures ok { (m : PackMeanings F T G) → OnOk result
        (engine_of m objects.new ≡ with_tests (in_extra m.test) (engine_of m objects.old)) }
    ensures lacks { IfErr result Lacks }
{
    objects.register_test("in_range", Pack::Extra(ExtraTest::InRange))?;
    objects.register_test("matching", Pack::Extra(ExtraTest::Matching))
}

// Registers the function `now`, where the host gives the time.
fn put_now<F: Drop, T: Drop, G: Drop>(
    objects: &mut PackObjects<F, T, G>,
    clock: Option<Clock>,
) -> TeraResult<()>
    ensures ok { (m : PackMeanings F T G) → OnOk result
        (engine_of m objects.new ≡ with_now (in_extra m.function) clock (engine_of m objects.old)) }
    ensures lacks { IfErr result Lacks }
{
    match clock {
        Some(clock) => { objects.register_function("now", Pack::Extra(ExtraFunction::Now(clock))) }
        None => Ok(()),
    }
}
