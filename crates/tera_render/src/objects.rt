// The filters, tests and functions that templates have beside those of the language.
use crate::errors::RunError;
use crate::options::Options;
use std::time::{SystemTime, UNIX_EPOCH};
use tera_filters::{Clock, NoObject, PackObjects, extra_objects};

/// Objects of the pack alone.
pub type RenderObjects = PackObjects<NoObject, NoObject, NoObject>;

/// All of the pack, or with `--plain` nothing. Where no clock can be read, there is no function `now`.
pub fn new(rt: &HostRuntime, options: &Options<'_>) -> Result<RenderObjects, RunError> {
    if options.is_plain {
        return Ok(PackObjects::new(rt.alloc()));
    }
    let clock = match options.clock {
        Some(clock) => Some(clock),
        None => host_clock(rt),
    };
    match extra_objects(rt.alloc(), clock) {
        Ok(objects) => Ok(objects),
        Err(_) => Err(RunError::NoMemory),
    }
}

fn host_clock(rt: &HostRuntime) -> Option<Clock> {
    let now = SystemTime::now(rt).ok()?;
    let since = now.duration_since(UNIX_EPOCH).ok()?;
    match i64::try_from(since.as_secs()) {
        Ok(seconds) => Some(Clock { seconds }),
        Err(_) => None,
    }
}
