// Dates and times as values tell them.
ghost use Rattle.std.specs.Prelude.{◌≡◌, Some, option_map};
ghost use Rattle.jiff_core.specs.DateTime.{civil_nanos};
ghost use Rattle.jiff_fmt.specs.Offset.{offset_view};
ghost use Rattle.jiff_fmt.specs.Temporal.{date_parts, datetime_parts, parts_nanos, time_or_midnight, time_parts};
ghost use Rattle.tera_built_ins.specs.Reading.{given_of};
ghost use Rattle.tera_errors.specs.Prelude.{Gives, Tells, invalid_argument, message};
ghost use Rattle.tera_filters.specs.Dates as spec;
ghost use Rattle.tera_filters.specs.Moments.{moment_view, moment_result};

use crate::clocks::instant_after;
use jiff_core::civil::{DateTime, Time};
use jiff_core::error::Syntax;
use jiff_core::{Offset, Timestamp};
use jiff_fmt::offset::Parser;
use jiff_fmt::temporal::parser::{ParsedDateTime, parse_temporal_datetime};
use std::alloc::Global;
use tera_built_ins::arguments::Given;
use tera_values::refusals::unfit_value;
use tera_values::{Error, Shape, TeraResult, Value};

/// What a clock shows, of which is not known where it stands, or an instant and the offset of a clock that shows it.
#[derive(Clone, Copy)]
pub(crate) enum Moment {
    Civil(DateTime),
    Placed(Timestamp, Offset),
}

impl Moment {
    /// The same instant on a clock at another offset.
    pub(crate) fn turn(self, offset: Offset) -> Moment
        ensures { moment_view result ≡ spec.turned offset.seconds (moment_view self) }
    {
        match self {
            Moment::Civil(clock) => Moment::Civil(clock),
            Moment::Placed(instant, _) => Moment::Placed(instant, offset),
        }
    }
}

/// The moment that a text or a number of seconds since 1970 tells.
pub(crate) fn moment_of(alloc: Global, value: &Value) -> TeraResult<Moment>
    ensures { Gives moment_view result (spec.moment_of value.now) }
{
    match value.shape() {
        Shape::Int(seconds) => Ok(Moment::Placed(instant_after(alloc, seconds)?, Offset::UTC)),
        Shape::Text(text, _) => match parse_moment(text.as_bytes()) {
            Ok(moment) => Ok(moment),
            Err(error) => Err(no_moment(alloc, text, error)),
        },
        _ => Err(unfit_value(alloc, None, value, "a date in a string or an integer")),
    }
}

fn parse_moment(text: &[u8]) -> Result<Moment, jiff_core::Error>
    ensures { moment_result result ≡ spec.parse_moment text.now }
{
    let (parts, rest) = parse_temporal_datetime(text)?;
    if !rest.is_empty() {
        return Err(jiff_core::Error::Parse(Syntax::Trailing));
    }
    moment_of_parts(parts)
}

fn moment_of_parts(parts: ParsedDateTime<'_>) -> Result<Moment, jiff_core::Error>
    ensures { moment_result result ≡ spec.moment_of_parts (datetime_parts parts.entry) }
{
    let clock = clock_of(parts);
    let Some(written) = parts.offset else {
        return Ok(Moment::Civil(clock));
    };
    let offset = written.to_offset()?;
    place_at(clock, offset)
}

/// The date and the time, which is midnight where none was written.
fn clock_of(parts: ParsedDateTime<'_>) -> DateTime
    ensures { civil_nanos result ≡ parts_nanos (date_parts parts.entry.date)
        (time_or_midnight (option_map time_parts parts.entry.time)) }
{
    match parts.time {
        Some(time) => DateTime {
            date: parts.date,
            time,
        },
        None => DateTime {
            date: parts.date,
            time: Time::MIN,
        },
    }
}

/// The instant at which a clock at the offset shows this.
fn place_at(clock: DateTime, offset: Offset) -> Result<Moment, jiff_core::Error>
    ensures { moment_result result
        ≡ spec.placed_on (civil_nanos clock) offset.seconds }
{
    match offset.to_timestamp(clock) {
        Ok(instant) => Ok(Moment::Placed(instant, offset)),
        Err(error) => Err(error),
    }
}

#[inline(never)]
fn no_moment(alloc: Global, text: &str, error: jiff_core::Error) -> Error
    ensures { Tells result message }
{
    Error::message_from(format!(in alloc; "{text:?} is no date: {error}"))
}

/// The moment as the clock of a time zone shows it, if one is given.
pub(crate) fn turn_to(alloc: Global, zone: Option<Given<'_>>, moment: Moment) -> TeraResult<Moment>
    ensures { Gives moment_view result
        (spec.turned_to (option_map given_of zone.entry) (moment_view moment)) }
{
    match zone {
        None => Ok(moment),
        Some(zone) => match parse_offset(zone.text.as_bytes()) {
            Ok(offset) => Ok(moment.turn(offset)),
            Err(_) => Err(no_zone(alloc, zone.text)),
        },
    }
}

fn parse_offset(text: &[u8]) -> Result<Offset, jiff_core::Error>
    ensures { offset_view result ≡ spec.parse_offset text.now }
{
    let (written, rest) = Parser::new().parse(text)?;
    if !rest.is_empty() {
        return Err(jiff_core::Error::Parse(Syntax::Trailing));
    }
    written.to_offset()
}

#[inline(never)]
fn no_zone(alloc: Global, text: &str) -> Error
    ensures { result ≡ Some invalid_argument }
{
    let words = format!(in alloc;
        "the argument `timezone` is {text:?}, and an offset from UTC as `+02:00` is wanted"
    );
    match words {
        Ok(words) => Error::invalid_argument().with_message(alloc, words.as_str()),
        Err(_) => Error::invalid_argument(),
    }
}
