// An entry's mark: its number above the lanes, a line from there to its time, the way from state to state, and a sign for a message or a
// timer's expiry.
use crate::lanes::lane;
use crate::place::{Place, View, less, sum};
use codes::{answer, event};
use drawing::{attribute, begin_rectangle, finish, line, number, shape, write_form};
use log_entry::Entry;

// Filled: taken. Grey and square: reported to the network. Hollow: refused.
fn begin_badge(descriptor: i32, answer: u8, x: u64, y: u64) {
    match answer {
        answer::TAKEN => begin_rectangle(descriptor, b"taken", x, y, 28, 14),
        answer::REPORTED => begin_rectangle(descriptor, b"told", x, y, 28, 14),
        _ => begin_rectangle(descriptor, b"hollow", x, y, 28, 14),
    }
    round(descriptor, answer, 7);
}

// A full dot has a white rim, so that it shows on a dark bar.
fn begin_dot(descriptor: i32, answer: u8, x: u64, y: u64) {
    match answer {
        answer::TAKEN => begin_rectangle(descriptor, b"taken dot", x, y, 8, 8),
        answer::REPORTED => begin_rectangle(descriptor, b"told", x, y, 8, 8),
        _ => begin_rectangle(descriptor, b"hollow", x, y, 8, 8),
    }
    round(descriptor, answer, 4);
}

fn round(descriptor: i32, answer: u8, radius: u64) {
    if answer != answer::REPORTED {
        attribute(descriptor, b" rx=\"", radius);
    }
}

// A badge with an entry's number; its middle is `x` and its top `y`.
pub(crate) fn draw_number(descriptor: i32, answer: u8, x: u64, y: u64, entry: usize, time: u64) {
    begin_badge(descriptor, answer, less(x, 14), y);
    write_form(
        descriptor,
        b" data-entry=\"#\" data-time=\"#\"/>\n",
        &[entry as u64, time],
    );
    if answer == answer::TAKEN {
        number(descriptor, b"n w", x, sum(y, 11), entry as u64);
        return;
    }
    number(descriptor, b"n", x, sum(y, 11), entry as u64);
}

fn draw_dot(descriptor: i32, answer: u8, x: u64, y: u64) {
    begin_dot(descriptor, answer, less(x, 4), less(y, 4));
    finish(descriptor);
}

// From the number down to the entry's time, and on to its state; broken where it was not taken.
fn draw_leader(descriptor: i32, view: View, answer: u8, y: u64, from: u64, x: u64, end: u64) {
    let bend = less(lane(view, y, 0), 4);
    if answer == answer::TAKEN {
        line(descriptor, b"lead", from, sum(y, 44), x, bend);
        line(descriptor, b"lead", x, bend, x, end);
        return;
    }
    line(descriptor, b"lead no", from, sum(y, 44), x, bend);
    line(descriptor, b"lead no", x, bend, x, end);
}

// A full triangle that points down: a message came. An open one that points up: one was sent.
fn draw_signs(descriptor: i32, y: u64, x: u64, event: u8, sent: bool) {
    let received = event == event::RECEIVED;
    if received & sent {
        draw_received(descriptor, less(x, 7), y);
        draw_sent(descriptor, sum(x, 7), y);
        return;
    }
    if received {
        draw_received(descriptor, x, y);
    }
    if sent {
        draw_sent(descriptor, x, y);
    }
    if timer::expired_timer(event as u32).is_some() {
        draw_expiry(descriptor, less(x, 4), y);
    }
}

fn draw_received(descriptor: i32, x: u64, y: u64) {
    shape(descriptor, b"taken", x, sum(y, 28), b"l-5 -8h10z");
}

fn draw_sent(descriptor: i32, x: u64, y: u64) {
    shape(descriptor, b"hollow", x, sum(y, 20), b"l-5 8h10z");
}

fn draw_expiry(descriptor: i32, x: u64, y: u64) {
    shape(descriptor, b"cross", x, sum(y, 20), b"l8 8m0 -8l-8 8");
}

pub(crate) fn draw_mark(
    descriptor: i32,
    view: View,
    y: u64,
    before: Place,
    after: Place,
    entry: Entry,
) {
    let claim = entry.claim;
    let reply = claim.reply;
    let answer = claim.answer;
    let x = after.x / 1000;
    let from = sum(lane(view, y, before.state), 9);
    let to = sum(lane(view, y, after.state), 9);
    draw_leader(descriptor, view, answer, y, after.label, x, to);
    if before.state != after.state {
        line(descriptor, b"go", x, from, x, to);
    }
    draw_dot(descriptor, answer, x, to);
    let top = sum(y, 30);
    draw_number(
        descriptor,
        answer,
        after.label,
        top,
        after.number,
        after.time,
    );
    draw_signs(descriptor, y, after.label, entry.event, 0 < reply.count);
}
