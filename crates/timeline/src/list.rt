// The numbered list below a band: a line an entry, in words.
use crate::lanes::axis;
use crate::mark::draw_number;
use crate::place::{Place, View, Watch, has_two_actions, less, sum};
use crate::reason::write_why;
use codes::protocol::Protocol;
use codes::{action, event};
use drawing::{begin_text, end_text, write_form};
use fields::reply_messages::messages_of;
use fields::{fault_number, octet_at};
use log_entry::{Claim, Entry, Run};
use log_words::entry::{
    is_return, write_actions, write_answer_name, write_clock, write_event_name, write_state_name,
};
use message::{Fault, Unread};
use saying::describe::write_kind;
use saying::write_text;
use text::words::part;
use timer::Window;

// From the time axis to the list's head and to its first line.
const HEAD: u64 = 40;

const FIRST: u64 = 57;

const LINE: u64 = 16;

// Where the columns start, as their names do. Each has room for its longest words in a wide font too.
const TIME: u64 = 64;

const EVENT: u64 = 156;

const ANSWER: u64 = 426;

const STATE: u64 = 482;

const SENT: u64 = 562;

const ASKED: u64 = 702;

// So many lines below a place.
pub(crate) fn below(y: u64, lines: u64) -> u64 {
    if 100000 < lines {
        return y;
    }
    sum(y, lines * LINE)
}

pub(crate) fn first_line(view: View, y: u64) -> u64 {
    sum(axis(view, y), FIRST)
}

// The columns' names, each above its column, and a rule below them.
pub(crate) fn draw_list_head(descriptor: i32, view: View, y: u64) {
    let base = sum(axis(view, y), HEAD);
    let rule = sum(base, 4);
    write_form(
        descriptor,
        b"<text class=\"t\" x=\"28\" y=\"#\">no.</text>\n\
          <text class=\"t\" x=\"64\" y=\"#\">time</text>\n\
          <text class=\"t\" x=\"156\" y=\"#\">what happened</text>\n\
          <text class=\"t\" x=\"426\" y=\"#\">answer</text>\n\
          <text class=\"t\" x=\"482\" y=\"#\">state</text>\n\
          <text class=\"t\" x=\"562\" y=\"#\">message sent</text>\n\
          <text class=\"t\" x=\"702\" y=\"#\">asked of the other layers; why a message was ignored</text>\n\
          <line class=\"grid\" x1=\"28\" y1=\"#\" x2=\"1160\" y2=\"#\"/>\n",
        &[base, base, base, base, base, base, base, rule, rule],
    );
}

pub(crate) fn draw_row(
    descriptor: i32,
    log: &[u8],
    view: View,
    y: u64,
    before: Place,
    after: Place,
    entry: Entry,
) {
    let claim = entry.claim;
    let table = view.table;
    let protocol = version::protocol(table);
    let base = below(first_line(view, y), before.lines);
    draw_number(
        descriptor,
        claim.answer,
        42,
        less(base, 11),
        after.number,
        after.time,
    );
    draw_happened(descriptor, protocol, log, base, after.time, entry);
    draw_step(descriptor, base, before.state, claim);
    draw_sent(descriptor, protocol, log, base, claim.reply);
    draw_asked(descriptor, log, view, base, before, after, entry);
}

// What is asked of the other layers, and what that starts or leads back to. A message that was ignored asks nothing, and its reason stands there.
fn draw_asked(
    descriptor: i32,
    log: &[u8],
    view: View,
    base: u64,
    before: Place,
    after: Place,
    entry: Entry,
) {
    let table = view.table;
    let claim = entry.claim;
    let actions = claim.actions;
    begin_text(descriptor, b"a", ASKED, base);
    write_actions(descriptor, first_actions(actions));
    write_starts(descriptor, view, before, after);
    if is_return(before.state, before.asked, after.state) {
        write_return(descriptor, after.state);
    }
    write_why(
        descriptor,
        version::protocol(table),
        log,
        before.transaction,
        before.state,
        entry,
    );
    end_text(descriptor);
    if has_two_actions(actions) {
        begin_text(descriptor, b"a", ASKED, sum(base, LINE));
        write_actions(descriptor, action::TELL_MM_EXISTS);
        end_text(descriptor);
    }
}

// Which timer starts here, and when it ends.
fn write_starts(descriptor: i32, view: View, before: Place, after: Place) {
    write_started(
        descriptor,
        b"; the invitation timer ends ",
        before.invitation,
        after.invitation,
        view.invitation,
    );
    write_started(
        descriptor,
        b"; the joining timer ends ",
        before.joining,
        after.joining,
        view.joining,
    );
}

// All but the sixth where that has a line of its own.
fn first_actions(actions: u8) -> u8 {
    if has_two_actions(actions) {
        return actions.wrapping_sub(action::TELL_MM_EXISTS);
    }
    actions
}

// Within which time a timer ends that was started here.
fn write_started(descriptor: i32, words: &[u8], before: Watch, after: Watch, window: Window) {
    if before.running | !after.running {
        return;
    }
    write_text(descriptor, words);
    write_clock(descriptor, sum(after.start, window.least));
    if window.least < window.greatest {
        write_text(descriptor, b" to ");
        write_clock(descriptor, sum(after.start, window.greatest));
    }
}

fn write_return(descriptor: i32, state: u8) {
    write_text(descriptor, b"; back to ");
    write_state_name(descriptor, state);
    write_text(descriptor, b", where the termination was asked from");
}

fn draw_happened(
    descriptor: i32,
    protocol: Protocol,
    log: &[u8],
    base: u64,
    time: u64,
    entry: Entry,
) {
    let carried = entry.carried;
    let message = carried.message;
    begin_text(descriptor, b"a", TIME, base);
    write_clock(descriptor, time);
    end_text(descriptor);
    begin_text(descriptor, b"a", EVENT, base);
    write_event_name(descriptor, protocol, entry.event);
    if entry.event == event::RECEIVED {
        write_text(descriptor, b": ");
        write_message(descriptor, protocol, log, message);
    }
    end_text(descriptor);
}

fn draw_step(descriptor: i32, base: u64, before: u8, claim: Claim) {
    begin_text(descriptor, b"a", ANSWER, base);
    write_answer_name(descriptor, claim.answer);
    end_text(descriptor);
    begin_text(descriptor, b"a", STATE, base);
    write_states(descriptor, before, claim.state);
    end_text(descriptor);
}

// The messages of a reply, one below the other.
fn draw_sent(descriptor: i32, protocol: Protocol, log: &[u8], base: u64, reply: Run) {
    let messages = messages_of(protocol, log, reply);
    draw_message(descriptor, protocol, log, base, messages.first);
    draw_message(descriptor, protocol, log, sum(base, LINE), messages.behind);
}

fn draw_message(descriptor: i32, protocol: Protocol, log: &[u8], base: u64, run: Run) {
    if run.count == 0 {
        return;
    }
    begin_text(descriptor, b"a", SENT, base);
    write_message(descriptor, protocol, log, run);
    end_text(descriptor);
}

fn write_states(descriptor: i32, before: u8, after: u8) {
    write_state_name(descriptor, before);
    if before != after {
        write_text(descriptor, b" to ");
        write_state_name(descriptor, after);
    }
}

// The kind of a message that stands in the log.
fn write_message(descriptor: i32, protocol: Protocol, log: &[u8], run: Run) {
    let start = run.start;
    let count = run.count;
    let octets = part(log, start, count);
    match message::read(protocol, octets) {
        Err(Unread::TooLong) => write_text(descriptor, b"too long"),
        Err(Unread::Unreadable(fault)) => write_faulty(descriptor, octets, fault),
        Ok(_) => write_kind(descriptor, octet_at(octets, 1) % 64),
    }
}

// A message whose kind is known but whose octets are at fault is told so; any other can't be read at all.
fn write_faulty(descriptor: i32, octets: &[u8], fault: Fault) {
    if fault_number(fault) < 4 {
        write_text(descriptor, b"unreadable");
        return;
    }
    write_text(descriptor, b"faulty ");
    write_kind(descriptor, octet_at(octets, 1) % 64);
}
