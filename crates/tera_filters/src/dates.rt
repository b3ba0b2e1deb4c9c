// Dates and times as a format writes them.
ghost use Rattle.std.specs.Prelude.{◌≡◌, Some, option_map, string_bytes};
ghost use Rattle.jiff_core.specs.DateTime.{civil_nanos};
ghost use Rattle.jiff_core.specs.declared.error.Error.TheVariants.{Missing, OutOfMemory};
ghost use Rattle.jiff_core.specs.declared.error.Part.TheVariants.{Instant};
ghost use Rattle.jiff_strtime.specs.Text.{parts_of};
ghost use Rattle.tera_errors.specs.Prelude.{Gives, Lacks, Tells, invalid_argument};
ghost use Rattle.tera_filters.specs.Dates as spec;
ghost use Rattle.tera_filters.specs.Moments.{moment_view};

use crate::moments::{Moment, moment_of, turn_to};
use jiff_core::Offset;
use jiff_core::civil::{DateTime, ISOWeekDate};
use jiff_core::error::Part;
use jiff_strtime::{BrokenDownTime, Config, Meridiem};
use std::alloc::Global;
use tera_built_ins::arguments::{optional_text, text_or};
use tera_values::{Arguments, Error, TeraResult, Value};

/// A date as `format` writes it: of a text as `2024-05-31`, `2024-05-31T10:20:30` or `2024-05-31T10:20:30+02:00`, or of
/// seconds since 1970. An instant is shown at its own offset, or at that of `timezone`. It is never marked safe.
pub fn date(alloc: Global, value: &Value, arguments: &Arguments<'_>) -> TeraResult<Value>
    ensures { Gives (λ v. v) result (spec.date_of value.now arguments.now) }
{
    let read = moment_of(alloc, value)?;
    let format = text_or(arguments, "format", "%Y-%m-%d")?;
    let zone = optional_text(arguments, "timezone")?;
    let moment = turn_to(alloc, zone, read)?;
    let shown = show(alloc, moment, format)?;
    Value::from_string(alloc, shown, false)
}

fn show(alloc: Global, moment: Moment, format: &str) -> TeraResult<String>
    ensures { Gives string_bytes result (spec.shown format.now (moment_view moment)) }
{
    let parts = moment_parts(moment);
    match jiff_strtime::to_string(alloc, Config::new(), format.as_bytes(), &parts) {
        Ok(text) => Ok(text),
        Err(error) => Err(format_error(alloc, moment, format, error)),
    }
}

/// All that a format can show of a moment, so that no part of it is left to be found.
fn moment_parts(moment: Moment) -> BrokenDownTime<'static>
    ensures { parts_of result ≡ spec.moment_parts (moment_view moment) }
{
    match moment {
        Moment::Civil(clock) => clock_parts(clock),
        Moment::Placed(instant, offset) => BrokenDownTime {
            offset: Some(offset),
            timestamp: Some(instant),
            tz_abbreviation: name_of_offset(offset),
            ..clock_parts(offset.to_datetime(instant))
        },
    }
}

fn clock_parts(clock: DateTime) -> BrokenDownTime<'static>
    ensures { parts_of result ≡ spec.clock_parts (civil_nanos clock) }
{
    let (date, time) = (clock.date, clock.time);
    let week = ISOWeekDate::from_date(date);
    BrokenDownTime {
        year: Some(date.year),
        month: Some(date.month),
        day: Some(date.day),
        day_of_year: Some(date.day_of_year()),
        iso_week_year: Some(week.year),
        iso_week: Some(week.week),
        week_sun: None,
        week_mon: None,
        hour: Some(time.hour),
        minute: Some(time.minute),
        second: Some(time.second),
        subsec: Some(time.subsec_nanosecond),
        offset: None,
        weekday: Some(date.weekday()),
        meridiem: Some(Meridiem::from_hour(time.hour)),
        timestamp: None,
        tz_abbreviation: None,
        iana: None,
    }
}

fn name_of_offset(offset: Offset) -> Option<&'static str>
    ensures { option_map (λ s. s.now) result ≡ spec.name_of_offset offset.seconds }
{
    if offset.seconds == 0 {
        Some("UTC")
    } else {
        None
    }
}

/// What a format that could not be followed is told. That an instant which is held was not found does not happen.
fn format_error(alloc: Global, moment: Moment, format: &str, error: jiff_core::Error) -> Error
    ensures refused { Tells result invalid_argument }
    ensures memory { error ≡ OutOfMemory → Lacks result }
    ensures lost { spec.IsPlaced (moment_view moment) → error ≡ Missing Instant → Lacks result }
{
    match (error, moment) {
        (jiff_core::Error::OutOfMemory, _) => Error::out_of_memory(),
        (jiff_core::Error::Missing(Part::Instant), Moment::Placed(_, _)) => Error::out_of_memory(),
        (error, _) => no_format(alloc, format, error),
    }
}

#[inline(never)]
fn no_format(alloc: Global, format: &str, error: jiff_core::Error) -> Error
    ensures { result ≡ Some invalid_argument }
{
    let words = format!(in alloc;
        "the argument `format` is {format:?}, which can't be followed: {error}"
    );
    match words {
        Ok(words) => Error::invalid_argument().with_message(alloc, words.as_str()),
        Err(_) => Error::invalid_argument(),
    }
}
