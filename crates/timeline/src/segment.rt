// The time from one entry to the next: the bar of the state, the marks of the time axis, and the strip that stands for a long time without an entry.
use crate::lanes::{axis, lane};
use crate::place::{Place, STRIP, View, along, is_cut, less, shown, sum};
use crate::window::{Band, draw_end, draw_windows, tail_time};
use drawing::{
    attribute, begin_rectangle, begin_text, begin_upright_text, end_text, finish, line, rectangle,
    repeated_shape, write_form,
};
use log_words::entry::{write_clock, write_seconds};
use saying::write_text;

// ---- the bar

// Dark where a call is on, grey where one comes or goes, light where there is none.
fn shade(descriptor: i32, state: u8, x: u64, y: u64, width: u64) {
    match state {
        0 => begin_rectangle(descriptor, b"idle", x, y, width, 12),
        3 => begin_rectangle(descriptor, b"on", x, y, width, 12),
        7..=13 => begin_rectangle(descriptor, b"on", x, y, width, 12),
        _ => begin_rectangle(descriptor, b"way", x, y, width, 12),
    }
}

// A state that lasts no time still shows.
fn draw_bar(descriptor: i32, view: View, y: u64, before: Place, after: Place) {
    let x = before.x / 1000;
    let width = less(after.x / 1000, x).max(2);
    let top = sum(lane(view, y, before.state), 3);
    shade(descriptor, before.state, x, top, width);
    write_form(
        descriptor,
        b" data-state=\"#\" data-from=\"#\" data-to=\"#\"/>\n",
        &[before.state as u64, before.time, after.time],
    );
}

// ---- the time axis

// The first round time that has not been marked yet.
fn first_tick(step: u64, place: Place) -> u64 {
    let from = if place.label == 0 {
        place.time
    } else {
        sum(place.time, 1)
    };
    round_up(step, from)
}

fn round_up(step: u64, from: u64) -> u64 {
    if step == 0 {
        return from;
    }
    if from % step == 0 {
        return from;
    }
    sum(from, less(step, from % step))
}

// From a place on for so many milliseconds.
fn draw_ticks(descriptor: i32, view: View, y: u64, place: Place, time: u64) {
    let end = sum(place.time, time);
    let mut tick = first_tick(view.step, place);
    for _ in 0..64 {
        if end < tick {
            return;
        }
        draw_tick(descriptor, view, y, place, tick);
        tick = sum(tick, view.step);
    }
}

fn draw_tick(descriptor: i32, view: View, y: u64, place: Place, tick: u64) {
    let x = sum(place.x, along(view.scale, less(tick, place.time))) / 1000;
    let bottom = axis(view, y);
    line(descriptor, b"grid", x, lane(view, y, 0), x, bottom);
    line(descriptor, b"axis", x, bottom, x, sum(bottom, 5));
    begin_text(descriptor, b"m", x, sum(bottom, 16));
    write_seconds(descriptor, tick);
    end_text(descriptor);
}

// ---- a long time without an entry

// The strip ends at `end`; a jagged line on both sides says that the axis is cut.
fn draw_strip(descriptor: i32, view: View, y: u64, end: u64, delta: u64) {
    let top = lane(view, y, 0);
    let height = less(axis(view, y), top);
    let x = less(end, STRIP - 6);
    let middle = sum(top, height / 2);
    rectangle(
        descriptor,
        b"strip",
        x,
        less(top, 2),
        STRIP - 12,
        sum(height, 4),
    );
    draw_edge(descriptor, x, top, view.lanes);
    draw_edge(descriptor, less(end, 6), top, view.lanes);
    begin_upright_text(descriptor, b"m", sum(x, 19), middle);
    write_text(descriptor, b"no entry for");
    end_text(descriptor);
    begin_upright_text(descriptor, b"m", sum(x, 32), middle);
    write_clock(descriptor, delta);
    end_text(descriptor);
}

// A jag is as high as a lane.
fn draw_edge(descriptor: i32, x: u64, top: u64, lanes: u8) {
    repeated_shape(descriptor, b"edge", x, top, b"l3 5l-6 9l3 4", lanes);
}

// ---- all of it

pub(crate) fn draw_segment(
    descriptor: i32,
    log: &[u8],
    view: View,
    y: u64,
    before: Place,
    after: Place,
    band: Band,
) {
    let delta = less(after.time, before.time);
    let time = shown(before, delta);
    draw_ticks(descriptor, view, y, before, time);
    draw_bar(descriptor, view, y, before, after);
    draw_windows(descriptor, log, view, y, before, time, band);
    if is_cut(delta) {
        draw_strip(descriptor, view, y, after.x / 1000, delta);
        draw_end(descriptor, view, y, before, after);
    }
}

// Behind the last entry the state goes on, nobody knows how long.
pub(crate) fn draw_tail(descriptor: i32, log: &[u8], view: View, y: u64, place: Place, band: Band) {
    let time = tail_time(view, place);
    draw_ticks(descriptor, view, y, place, time);
    draw_windows(descriptor, log, view, y, place, time, band);
    begin_rectangle(
        descriptor,
        b"open",
        place.x / 1000,
        sum(lane(view, y, place.state), 3),
        15,
        12,
    );
    attribute(descriptor, b" data-state=\"", place.state as u64);
    finish(descriptor);
}
