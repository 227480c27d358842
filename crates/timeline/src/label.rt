// The bounds of the windows, the least and the greatest timer: they stand behind the window or, where the lane is taken there, within it.
use crate::lanes::lane;
use crate::place::{INVITED, JOINING, Place, RIGHT, STRIP, View, less, next_place, sum};
use crate::window::{Band, stretch_of, window_of};
use drawing::{begin_text, end_text, rectangle, write_form};
use timer::Window;

// The bounds of the windows that `draw_windows` draws with the same words.
pub(crate) fn draw_labels(
    descriptor: i32,
    log: &[u8],
    view: View,
    y: u64,
    place: Place,
    time: u64,
    band: Band,
) {
    draw_label(descriptor, log, view, y, place, INVITED, time, band);
    draw_label(descriptor, log, view, y, place, JOINING, time, band);
}

fn draw_label(
    descriptor: i32,
    log: &[u8],
    view: View,
    y: u64,
    place: Place,
    state: u8,
    time: u64,
    band: Band,
) {
    let Some(stretch) = stretch_of(log, view, place, state, time, band) else {
        return;
    };
    let window = window_of(view, state);
    let width = width_of(window);
    let top = lane(view, y, state);
    let behind = sum(stretch.end, 3);
    if is_free(log, view, place, state, band, behind, sum(behind, width)) {
        draw_bounds(descriptor, top, behind, width, window);
        return;
    }
    if sum(width, 6) <= less(stretch.end, stretch.x) {
        draw_bounds(descriptor, top, sum(stretch.x, 3), width, window);
    }
}

// Whether the lane of a state is free behind a place of the log, from one place along the axis to another.
fn is_free(
    log: &[u8],
    view: View,
    first: Place,
    state: u8,
    band: Band,
    from: u64,
    to: u64,
) -> bool {
    let mut place = first;
    for _ in 0..65536 {
        if is_past(place, band, to) {
            return to <= RIGHT;
        }
        let next = next_place(log, view, place);
        if is_taken(state, place, next, from, to) {
            return false;
        }
        place = next;
    }
    false
}

fn is_past(place: Place, band: Band, to: u64) -> bool {
    (band.last <= place.number) | (to <= place.x / 1000)
}

// By the bar of the state, or by a strip.
fn is_taken(state: u8, place: Place, next: Place, from: u64, to: u64) -> bool {
    let end = next.x / 1000;
    let bar = place.state == state;
    let strip = next.fresh & (less(end, STRIP) < to);
    (from < end) & (bar | strip)
}

// On a plate, so that a line to an entry does not cross it.
fn draw_bounds(descriptor: i32, top: u64, x: u64, width: u64, window: Window) {
    rectangle(descriptor, b"strip", x, sum(top, 3), width, 12);
    begin_text(descriptor, b"s", sum(x, 2), sum(top, 13));
    write_bounds(descriptor, window);
    end_text(descriptor);
}

// The room that the bounds take, 6 units a character, in a wide font.
fn width_of(window: Window) -> u64 {
    let least = digits(window.least);
    if window.least < window.greatest {
        return sum(sum(least, digits(window.greatest)), 46);
    }
    sum(least, 22)
}

// Of a time of 1,000 to 600,000 ms.
fn digits(time: u64) -> u64 {
    if time < 10000 {
        return 24;
    }
    if time < 100000 {
        return 30;
    }
    36
}

pub(crate) fn write_bounds(descriptor: i32, window: Window) {
    if window.least < window.greatest {
        write_form(descriptor, b"# to # ms", &[window.least, window.greatest]);
        return;
    }
    write_form(descriptor, b"# ms", &[window.least]);
}
