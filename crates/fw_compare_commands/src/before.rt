//! The hours that a range is compared with, as the options have them.
use clap::ArgMatches;
use fw_calendar::{Period, hour_text, read_time};
use fw_charge::LAST_HOUR;
use fw_command_line::{BEFORE, BEFORE_TO};
use fw_compare::{hours_before, hours_from};
use fw_console::Fault;
use std::alloc::{AllocError, Global};

/// The hours before, as far as the options say them.
#[derive(Clone, Copy, Debug, Drop)]
pub(crate) struct Before {
    from: Option<u64>,
    to: Option<u64>,
}

/// The hours before, as far as the options say them, or the id of the option that is no time.
pub(crate) fn read_before(
    alloc: Global,
    options: &ArgMatches<'_>,
) -> Result<Result<Before, &'static str>, AllocError> {
    let from = read_end(alloc, options.get_str(BEFORE))?;
    let to = read_end(alloc, options.get_str(BEFORE_TO))?;
    if options.contains_id(BEFORE) && from.is_none() {
        return Ok(Err(BEFORE));
    }
    if options.contains_id(BEFORE_TO) && to.is_none() {
        return Ok(Err(BEFORE_TO));
    }
    Ok(Ok(Before { from, to }))
}

// The hour at which a time begins, where one is given and it is one.
fn read_end(alloc: Global, text: Option<&str>) -> Result<Option<u64>, AllocError> {
    match text {
        Some(text) => read_time(alloc, text),
        None => Ok(None),
    }
}

impl Before {
    /// The hours that a range is compared with. `Range` where the range or these have no hour.
    pub(crate) fn of(self, hours: Period) -> Result<Period, Fault> {
        if hours.from >= hours.to || hours.to > u64::from(LAST_HOUR) + 1 {
            return Err(Fault::Range);
        }
        match (self.from, self.to) {
            (Some(from), Some(to)) => Ok(Period { from, to }),
            (Some(from), None) if from <= u64::from(LAST_HOUR) => Ok(hours_from(hours, from)),
            _ => hours_before(hours).ok_or(Fault::Range),
        }
    }
}

/// Says which hours a range is compared with.
pub(crate) fn say_before(rt: &HostRuntime, before: Period) -> Result<(), AllocError> {
    let from = hour_text(rt.alloc(), before.from)?;
    let to = hour_text(rt.alloc(), before.to)?;
    let _ = eprintln!(rt; "compared with {from} to {to}");
    Ok(())
}
