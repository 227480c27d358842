// Bands: the time axis is broken into as many as the log takes, one below the other, each with the list of its entries.
use crate::label::draw_labels;
use crate::lanes::draw_lanes;
use crate::list::{below, draw_list_head, draw_row, first_line};
use crate::mark::draw_mark;
use crate::place::{LEAD, MARGIN, Place, RIGHT, View, in_new_band, next_place, onward, shown, sum};
use crate::segment::{draw_segment, draw_tail};
use crate::window::{Band, tail_time};
use drawing::{begin_text, end_text};
use log_entry::read_entry;
use log_words::entry::write_clock;
use saying::{write_long, write_text};

// A picture that would grow longer than this ends with a whole band: 6 m, which still opens in every viewer.
const LONGEST: u64 = 24000;

// What is drawn: the log's readable entries, those up to which there is room, and whether the log breaks off behind them.
#[derive(Clone, Copy)]
pub(crate) struct Extent {
    pub total: usize,
    pub drawn: usize,
    pub broken: bool,
    // The picture's height.
    pub height: u64,
}

// Where a band ends that starts at a place: behind the last entry that fits into it, and one fits always.
fn band_end(log: &[u8], view: View, total: usize, first: Place) -> Place {
    let mut place = first;
    for _ in 0..65536 {
        if total <= place.number {
            return place;
        }
        let next = next_place(log, view, place);
        if is_full(place, next) {
            return place;
        }
        place = next;
    }
    place
}

fn is_full(place: Place, next: Place) -> bool {
    let beyond = (RIGHT - LEAD < next.x / 1000) | (RIGHT - LEAD < next.label);
    (0 < place.label) & beyond
}

fn band_bottom(view: View, y: u64, end: Place) -> u64 {
    sum(below(first_line(view, y), end.lines), 14)
}

// How far the picture reaches.
pub(crate) fn measure(
    log: &[u8],
    view: View,
    top: u64,
    first: Place,
    total: usize,
    broken: bool,
) -> Extent {
    let mut place = first;
    let mut y = top;
    for _ in 0..65536 {
        let end = band_end(log, view, total, place);
        y = band_bottom(view, y, end);
        if is_last(y, total, end) {
            return Extent {
                total,
                drawn: end.number,
                broken,
                height: y,
            };
        }
        place = in_new_band(end);
    }
    Extent {
        total,
        drawn: place.number,
        broken,
        height: y,
    }
}

fn is_last(y: u64, total: usize, end: Place) -> bool {
    (total <= end.number) | (LONGEST < y)
}

pub(crate) fn draw_bands(
    descriptor: i32,
    log: &[u8],
    view: View,
    top: u64,
    first: Place,
    extent: Extent,
) {
    let mut place = first;
    let mut y = top;
    for _ in 0..65536 {
        let end = band_end(log, view, extent.total, place);
        draw_band(descriptor, log, view, y, place, end, extent);
        y = band_bottom(view, y, end);
        if extent.drawn <= end.number {
            return;
        }
        place = in_new_band(end);
    }
}

fn draw_band(
    descriptor: i32,
    log: &[u8],
    view: View,
    y: u64,
    first: Place,
    end: Place,
    extent: Extent,
) {
    draw_title(descriptor, y, first, end, extent);
    draw_lanes(descriptor, view, y);
    let band = Band {
        last: end.number,
        tail: extent.total <= end.number,
    };
    draw_times(descriptor, log, view, y, first, end, band);
    if first.number < end.number {
        draw_list_head(descriptor, view, y);
    }
    draw_entries(descriptor, log, view, y, first, band, 2);
}

// What lies over the lanes: bars and windows, the marks of the entries, the bounds of the windows.
fn draw_times(
    descriptor: i32,
    log: &[u8],
    view: View,
    y: u64,
    first: Place,
    end: Place,
    band: Band,
) {
    draw_entries(descriptor, log, view, y, first, band, 0);
    if band.tail {
        draw_tail(descriptor, log, view, y, end, band);
    }
    draw_entries(descriptor, log, view, y, first, band, 1);
    draw_entries(descriptor, log, view, y, first, band, 3);
    if band.tail {
        draw_labels(descriptor, log, view, y, end, tail_time(view, end), band);
    }
}

// From when to when, which entries, and what comes behind the last.
fn draw_title(descriptor: i32, y: u64, first: Place, end: Place, extent: Extent) {
    begin_text(descriptor, b"t", MARGIN, sum(y, 12));
    write_clock(descriptor, first.time);
    write_text(descriptor, b" to ");
    write_clock(descriptor, end.time);
    write_range(descriptor, first.number, end.number);
    if extent.drawn <= end.number {
        write_end(descriptor, extent);
    }
    end_text(descriptor);
}

fn write_range(descriptor: i32, before: usize, last: usize) {
    if last <= before {
        return;
    }
    let first = before.wrapping_add(1);
    if first == last {
        write_text(descriptor, b", entry ");
        write_long(descriptor, last as u64);
        return;
    }
    write_text(descriptor, b", entries ");
    write_long(descriptor, first as u64);
    write_text(descriptor, b" to ");
    write_long(descriptor, last as u64);
}

fn write_end(descriptor: i32, extent: Extent) {
    if extent.drawn < extent.total {
        write_text(
            descriptor,
            b"; the log goes on, but the picture would grow too long",
        );
        return;
    }
    if extent.broken {
        write_text(descriptor, b"; here the log breaks off");
        return;
    }
    write_text(descriptor, b"; here the log ends");
}

// Goes through a band's entries once for each kind of thing, so that what is drawn later lies on top.
fn draw_entries(
    descriptor: i32,
    log: &[u8],
    view: View,
    y: u64,
    first: Place,
    band: Band,
    kind: u8,
) {
    let mut place = first;
    for _ in 0..65536 {
        if band.last <= place.number {
            return;
        }
        place = draw_entry(descriptor, log, view, y, place, band, kind);
    }
}

fn draw_entry(
    descriptor: i32,
    log: &[u8],
    view: View,
    y: u64,
    place: Place,
    band: Band,
    kind: u8,
) -> Place {
    let table = view.table;
    let Ok((entry, at)) = read_entry(table, log, place.at) else {
        return next_place(log, view, place);
    };
    let next = onward(log, view, place, entry, at);
    match kind {
        0 => draw_segment(descriptor, log, view, y, place, next, band),
        1 => draw_mark(descriptor, view, y, place, next, entry),
        2 => draw_row(descriptor, log, view, y, place, next, entry),
        _ => {
            let time = shown(place, entry.delta as u64);
            draw_labels(descriptor, log, view, y, place, time, band);
        }
    }
    next
}
