// The time that the host's clock shows.
ghost use Rattle.std.specs.Prelude.{Ok, false};
ghost use Rattle.tera_errors.specs.Prelude.{Gives, Tells, message};
ghost use Rattle.tera_values.specs.Prelude.{text};
ghost use Rattle.tera_filters.specs.Clocks as spec;

use jiff_core::Timestamp;
use jiff_fmt::temporal::DateTimePrinter;
use std::alloc::Global;
use tera_built_ins::arguments::flag;
use tera_values::{Arguments, Error, TeraResult, Value};

/// The time that the host gives: seconds since the start of 1970 at UTC.
#[derive(Clone, Copy)]
pub struct Clock {
    pub seconds: i64,
}

/// What the clock shows: a text as `2024-05-31T10:20:30Z`, or with `timestamp` the seconds.
pub fn now(alloc: Global, clock: Clock, arguments: &Arguments<'_>) -> TeraResult<Value>
    ensures { Gives (λ v. v) result (spec.now_of clock.seconds arguments.now) }
{
    if flag(arguments, "timestamp")? {
        return Ok(Value::from_int(clock.seconds as i128));
    }
    let instant = instant_after(alloc, clock.seconds as i128)?;
    instant_value(alloc, instant)
}

/// The instant so many seconds after the start of 1970 at UTC.
pub(crate) fn instant_after(alloc: Global, seconds: i128) -> TeraResult<Timestamp>
    ensures { Gives (λ t. t.nanosecond) result (spec.instant_after seconds) }
{
    let Some(nanos) = seconds.checked_mul(1_000_000_000) else {
        return Err(no_instant(alloc, seconds));
    };
    match Timestamp::from_nanosecond(nanos) {
        Ok(instant) => Ok(instant),
        Err(_) => Err(no_instant(alloc, seconds)),
    }
}

#[inline(never)]
fn no_instant(alloc: Global, seconds: i128) -> Error
    ensures { Tells result message }
{
    Error::message_from(format!(in alloc;
        "{seconds} seconds since 1970 lead beyond the years from -9999 to 9999"
    ))
}

/// The instant at UTC, as RFC 3339 writes it.
fn instant_value(alloc: Global, instant: Timestamp) -> TeraResult<Value>
    ensures { Gives (λ v. v) result (Ok (text (spec.instant_text instant.nanosecond) false)) }
{
    Value::string(
        alloc,
        DateTimePrinter::new().timestamp_text(instant).as_str(),
    )
}
