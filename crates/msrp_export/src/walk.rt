//! One walk over all tracks for each format: their names, what a tick changes, and the end of their
//! slices.

use crate::formats::Format;
use crate::signals::{Signals, track_at, track_count};
use crate::{gtkw, perfetto, vcd};
use msrp_plan::Plan;
use std::alloc::AllocError;

/// What a function of text answers: an error where no memory is left for the text.
pub(crate) type Written = Result<(), AllocError>;

/// Begins a tick. In JSON each event has its time.
pub(crate) fn begin_tick(text: &mut String, format: Format, tick: u32) -> Written {
    match format {
        Format::Vcd => vcd::begin_tick(text, tick),
        Format::Gtkw | Format::Perfetto => Ok(()),
    }
}

/// Writes a tick, and what it changes.
pub(crate) fn write_tick(text: &mut String, format: Format, signals: &Signals<'_>) -> Written {
    begin_tick(text, format, signals.tick)?;
    for place in 0..track_count(signals.plan) {
        match (format, track_at(signals.plan, place)) {
            (Format::Vcd, Some(track)) => vcd::write_change(text, &signals.change(track))?,
            (Format::Perfetto, Some(track)) => {
                perfetto::write_change(text, &signals.change(track))?;
            }
            _ => {}
        }
    }
    Ok(())
}

/// Writes what comes before the first tick.
pub(crate) fn write_head(text: &mut String, format: Format, plan: &Plan) -> Written {
    let (head, end) = match format {
        Format::Vcd => (vcd::HEAD, vcd::END_OF_HEAD),
        Format::Gtkw => return gtkw::write_head(text, plan),
        Format::Perfetto => (perfetto::HEAD, ""),
    };
    text.push_str(head)?;
    for place in 0..track_count(plan) {
        match (format, track_at(plan, place)) {
            (Format::Vcd, Some(track)) => vcd::write_track(text, plan, track)?,
            (Format::Perfetto, Some(track)) => perfetto::write_track(text, plan, track)?,
            _ => {}
        }
    }
    text.push_str(end)
}

/// Writes the end, at a time: in JSON each slice that is open ends.
pub(crate) fn write_end(
    text: &mut String,
    format: Format,
    signals: &Signals<'_>,
    time: u32,
) -> Written {
    if format != Format::Perfetto {
        return begin_tick(text, format, time);
    }
    for place in 0..track_count(signals.plan) {
        if let Some(track) = track_at(signals.plan, place) {
            perfetto::write_end(text, &signals.change(track), time)?;
        }
    }
    text.push_str(perfetto::END)
}
