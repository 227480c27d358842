// The windows within which the joining and the invitation timer end, or would end. One is drawn as a whole, whatever entries lie within it: from where it begins, and anew
// where a band begins or a strip ends.
use crate::lanes::lane;
use crate::place::{
    INVITED, JOINING, Place, RIGHT, View, Watch, along, less, next_place, shown, sum,
};
use crate::survey::tail;
use drawing::write_form;
use timer::Window;

// What a band draws: the entries up to the one of this number, and whether the time behind that too.
#[derive(Clone, Copy)]
pub(crate) struct Band {
    pub last: usize,
    pub tail: bool,
}

// A window as far as it is drawn in one: from when to when, and from where to where along the axis.
#[derive(Clone, Copy)]
pub(crate) struct Stretch {
    pub first: u64,
    pub last: u64,
    pub x: u64,
    pub end: u64,
}

// How far the time from one entry to the next is drawn without a break, and whether it goes on behind that.
#[derive(Clone, Copy)]
struct Reach {
    time: u64,
    onward: bool,
}

// ---- the timer of a state

fn watch_of(place: Place, state: u8) -> Watch {
    if state == INVITED {
        let invitation = place.invitation;
        return invitation;
    }
    let joining = place.joining;
    joining
}

pub(crate) fn window_of(view: View, state: u8) -> Window {
    if state == INVITED {
        let invitation = view.invitation;
        return invitation;
    }
    let joining = view.joining;
    joining
}

// ---- how far a window is drawn

// How many milliseconds so many thousandths of a unit are.
fn across(scale: u64, width: u64) -> u64 {
    match scale {
        80 => width / 80,
        40 => width / 40,
        20 => width / 20,
        _ => width / 8,
    }
}

// How much is drawn behind the last entry.
pub(crate) fn tail_time(view: View, place: Place) -> u64 {
    let room = across(view.scale, less(RIGHT * 1000, place.x));
    tail(place, view.invitation).min(room)
}

// A strip breaks the time, and the timer of a state that is started anew ends what was drawn of it.
fn reach_of(state: u8, place: Place, next: Place) -> Reach {
    let before = watch_of(place, state);
    let after = watch_of(next, state);
    if next.fresh {
        return Reach {
            time: sum(place.time, shown(place, less(next.time, place.time))),
            onward: false,
        };
    }
    Reach {
        time: next.time,
        onward: before.start == after.start,
    }
}

// Where the band ends.
fn band_time(view: View, place: Place, band: Band) -> u64 {
    if band.tail {
        return sum(place.time, tail_time(view, place));
    }
    place.time
}

// Until when the time from a place on is drawn without a break, as far as `to`.
fn drawn_until(log: &[u8], view: View, first: Place, state: u8, band: Band, to: u64) -> u64 {
    let mut place = first;
    for _ in 0..65536 {
        if to <= place.time {
            return to;
        }
        if band.last <= place.number {
            return band_time(view, place, band);
        }
        let next = next_place(log, view, place);
        let reach = reach_of(state, place, next);
        if !reach.onward {
            return reach.time;
        }
        place = next;
    }
    place.time
}

// A window of one instant belongs to the time that ends there.
fn is_within(seen: bool, time: u64, from: u64, to: u64, end: u64) -> bool {
    let instant = (from == to) & (from <= end);
    seen & (time < to) & ((from < end) | instant)
}

// The window that begins in the time drawn behind a place, or goes on there after a break, if one does.
pub(crate) fn stretch_of(
    log: &[u8],
    view: View,
    place: Place,
    state: u8,
    time: u64,
    band: Band,
) -> Option<Stretch> {
    let watch = watch_of(place, state);
    let window = window_of(view, state);
    let from = sum(watch.start, window.least);
    let to = sum(watch.start, window.greatest);
    let end = sum(place.time, time);
    let drawn_before = (from < place.time) & !place.fresh;
    if drawn_before | !is_within(watch.seen, place.time, from, to, end) {
        return None;
    }
    let first = from.max(place.time);
    let last = to.min(drawn_until(log, view, place, state, band, to));
    Some(stretched(view.scale, place, first, last))
}

// From a time to a time, behind a place.
fn stretched(scale: u64, place: Place, first: u64, last: u64) -> Stretch {
    let x = sum(place.x, along(scale, less(first, place.time))) / 1000;
    let width = (along(scale, less(last, first)) / 1000).max(3);
    Stretch {
        first,
        last,
        x,
        end: sum(x, width),
    }
}

// ---- the windows

pub(crate) fn draw_windows(
    descriptor: i32,
    log: &[u8],
    view: View,
    y: u64,
    place: Place,
    time: u64,
    band: Band,
) {
    if let Some(invited) = stretch_of(log, view, place, INVITED, time, band) {
        draw_hatched(descriptor, lane(view, y, INVITED), invited);
    }
    if let Some(joining) = stretch_of(log, view, place, JOINING, time, band) {
        draw_hatched(descriptor, lane(view, y, JOINING), joining);
    }
}

// `top` is the top of its lane.
fn draw_hatched(descriptor: i32, top: u64, stretch: Stretch) {
    write_form(
        descriptor,
        b"<rect class=\"window\" x=\"#\" y=\"#\" width=\"#\" height=\"14\" data-from=\"#\" data-to=\"#\"/>\n",
        &[
            stretch.x,
            sum(top, 2),
            less(stretch.end, stretch.x),
            stretch.first,
            stretch.last,
        ],
    );
}

// An invitation timer that ends exactly where a strip does: the time before it is not drawn, so it is drawn at the strip's end.
pub(crate) fn draw_end(descriptor: i32, view: View, y: u64, before: Place, after: Place) {
    let watch = before.invitation;
    let window = view.invitation;
    let ends = sum(watch.start, window.least) == after.time;
    if watch.running & ends & (window.least == window.greatest) {
        let instant = stretched(view.scale, after, after.time, after.time);
        draw_hatched(descriptor, lane(view, y, INVITED), instant);
    }
}
