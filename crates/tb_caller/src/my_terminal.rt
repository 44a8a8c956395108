//! What the machine tells of its terminal and of its time zone. Neither is known before.
ghost use Rattle.std.specs.Prelude.{◌≡◌, ◌≤◌, IfOk};

use crate::my_settings::variable;
use jiff::Timestamp;
use jiff::tz::{SystemTimeZone, TimeZone, TimeZoneDatabase};
use std::alloc::AllocError;
use std::io::IsTerminal;
use std::{env, fs};
use tb_finding::Style;
use tb_my::{Clock, Shift};
use tb_task::Moment;
use tb_values::{Items, read_number};

/// The columns of a terminal that doesn't tell them.
const USUAL_COLUMNS: u32 = 80;

const MOST_COLUMNS: u32 = 1_000;

/// How many changes of a zone are looked at: two a year, for more than a hundred years.
const MOST_SHIFTS: usize = 400;

/// Where a list is shown: whole and plain in a pipe, and cut to the terminal's columns, which `tb` tells by `COLUMNS`.
pub(crate) fn style_of(rt: &HostRuntime) -> Style {
    if !rt.stdout().is_terminal() {
        return Style {
            columns: None,
            is_coloured: false,
        };
    }
    Style {
        columns: Some(columns_of(rt)),
        is_coloured: !is_set(rt, "NO_COLOR"),
    }
}

fn columns_of(rt: &HostRuntime) -> u32
    ensures { result ≤ 1000 }
{
    match variable(rt, "COLUMNS") {
        Some(text) => read_number(text.as_str(), MOST_COLUMNS).unwrap_or(USUAL_COLUMNS),
        None => USUAL_COLUMNS,
    }
}

fn is_set(rt: &HostRuntime, name: &str) -> bool {
    match variable(rt, name) {
        Some(text) => !text.is_empty(),
        None => false,
    }
}

/// A moment, and the zone of the machine: that of `TZ`, or of `/etc/localtime`, or else UTC.
pub(crate) fn clock_at(rt: &HostRuntime, now: Moment) -> Result<Clock, AllocError>
    ensures { IfOk result (λ clock. clock.moment ≡ now) }
{
    let mut shifts = Items::new(rt.alloc());
    let mut zones = TimeZoneDatabase::new(rt.alloc());
    add_named_zone(rt, &mut zones);
    if let Ok(system) = SystemTimeZone::read(rt) {
        if let Ok(zone) = system.time_zone(&zones) {
            push_shifts(&mut shifts, &zone)?;
        }
    }
    Ok(Clock {
        moment: now,
        shifts,
    })
}

/// The zone that `TZ` names, from where systems keep zones.
fn add_named_zone(rt: &HostRuntime, zones: &mut TimeZoneDatabase) {
    let Ok(name) = env::var(rt, "TZ") else {
        return;
    };
    let Ok(path) = format!(in rt.alloc(); "/usr/share/zoneinfo/{}", name.as_str()) else {
        return;
    };
    if let Ok(bytes) = fs::read(rt, path.as_str()) {
        let _ = zones.insert(name.as_str(), bytes.as_slice());
    }
}

fn push_shifts(shifts: &mut Items<Shift>, zone: &TimeZone<'_>) -> Result<(), AllocError> {
    let Ok(first) = Timestamp::from_second(0) else {
        return Ok(());
    };
    push_shift(shifts, 0, zone.to_offset(first).seconds())?;
    for change in zone.following(first).take(MOST_SHIFTS) {
        push_shift(
            shifts,
            change.timestamp().as_second(),
            change.offset().seconds(),
        )?;
    }
    Ok(())
}

fn push_shift(shifts: &mut Items<Shift>, second: i64, offset: i32) -> Result<(), AllocError> {
    let Ok(second) = u64::try_from(second) else {
        return Ok(());
    };
    let Some(from) = Moment::from_seconds(second) else {
        return Ok(());
    };
    let Ok(ahead) = u32::try_from(i64::from(offset) + 86_400) else {
        return Ok(());
    };
    shifts.push(Shift { from, ahead })
}
