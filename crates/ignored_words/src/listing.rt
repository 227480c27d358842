// A log's entries from a cleared context on, each taken through its step once more: a line for each whose message is ignored, and how many are for each reason.
use crate::reason::tell_particulars;
use codes::protocol::Protocol;
use context::Context;
use fields::{fault_number, octet_at};
use log_entry::read_entry;
use log_words::entry::{tell_time, write_reason, write_state_name};
use message::{Own, Unread};
use replay::{message_of, step_entry};
use saying::describe::write_kind;
use saying::{STDOUT_FILENO, tell, tell_count, tell_octet, tell_place};
use septets::read_number;
use version::{Table, table_of};

// Behind an entry: its number, its time and the reason (0 where no message is ignored); the context, and the place of the next entry.
#[derive(Clone, Copy)]
struct Passed {
    number: usize,
    time: u64,
    reason: u8,
    context: Context,
    place: usize,
}

// Lists what is ignored in the first `entries` entries, and answers how many entries have each reason, 0 to 6.
pub fn list(own: Own, identity: &[u8], log: &[u8], entries: usize) -> [usize; 7] {
    let mut counts = [0; 7];
    let Some((version, place)) = read_number(log, 0) else {
        return counts;
    };
    let Some(table) = table_of(version) else {
        return counts;
    };
    let mut passed = Passed {
        number: 0,
        time: 0,
        reason: 0,
        context: Context::cleared(),
        place,
    };
    for _ in 0..entries {
        passed = pass_entry(table, own, identity, log, passed);
        count(&mut counts, passed.reason);
    }
    counts
}

fn count(counts: &mut [usize; 7], reason: u8) {
    if reason < 7 {
        let at = reason as usize;
        counts[at] = counts[at].wrapping_add(1);
    }
}

// The next entry, and a line for it where its message is ignored. There is one: the walk, or the recorder, has passed it.
fn pass_entry(table: Table, own: Own, identity: &[u8], log: &[u8], before: Passed) -> Passed {
    let Ok((entry, place)) = read_entry(table, log, before.place) else {
        return before;
    };
    let context = before.context;
    let mut reply = [0u8; 255];
    let stepped = step_entry(table, own, identity, log, context, entry, &mut reply);
    let outcome = stepped.outcome;
    let after = stepped.context;
    let passed = Passed {
        number: before.number.wrapping_add(1),
        time: before.time.wrapping_add(entry.delta as u64),
        reason: outcome.reason,
        context: after,
        place,
    };
    tell_passed(
        version::protocol(table),
        identity,
        message_of(log, entry),
        context,
        passed,
    );
    passed
}

// The line of an entry that is passed; `context` is the one before it.
fn tell_passed(
    protocol: Protocol,
    identity: &[u8],
    octets: &[u8],
    context: Context,
    passed: Passed,
) {
    if passed.reason == 0 {
        return;
    }
    tell(b"entry ");
    tell_place(passed.number);
    tell_time(passed.time);
    write_state_name(STDOUT_FILENO, context.state as u8);
    tell(b", ");
    tell_kind(protocol, octets);
    tell(b" ignored (");
    write_reason(STDOUT_FILENO, passed.reason);
    tell(b")");
    tell_particulars(protocol, passed.reason, context, identity, octets);
    tell(b"\n");
}

// The kind of a message, as far as its octets say: one of another protocol has none of ours.
fn tell_kind(protocol: Protocol, octets: &[u8]) {
    let second = octet_at(octets, 1);
    match fault_of(protocol, octets) {
        1..=2 => {
            tell(b"message of ");
            tell_count(octets.len(), b" octet", b" octets");
        }
        3 => {
            tell(b"unknown type ");
            tell_octet(second);
        }
        4 => {
            tell(b"faulty ");
            write_kind(STDOUT_FILENO, second % 64);
        }
        _ => write_kind(STDOUT_FILENO, second % 64),
    }
}

// The number of a message's fault, and 0 where it has none. No log holds a message that is too long.
fn fault_of(protocol: Protocol, octets: &[u8]) -> u8 {
    match message::read(protocol, octets) {
        Ok(_) => 0,
        Err(Unread::Unreadable(fault)) => fault_number(fault),
        Err(Unread::TooLong) => 1,
    }
}
