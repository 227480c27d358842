// Why a message was ignored, by what the log claims: the reasons in the order of their numbers, as `heidezirkel ignored` tells them. A log does not say who its radio is, so
// where a message asks one radio and this one could not answer, two reasons are left.
use codes::protocol::{Protocol, discriminator};
use codes::{answer, event};
use fields::octet_at;
use log_entry::{Data, Entry};
use log_words::entry::write_reason;
use message::Message;
use saying::write_text;
use text::words::part;

// The transaction of a call: its value, whether the radio opened it, and whether the value of the next message is awaited.
#[derive(Clone, Copy)]
pub(crate) struct Transaction {
    pub value: u8,
    pub own: bool,
    pub awaiting: bool,
}

impl Transaction {
    pub const NONE: Transaction = Transaction {
        value: 0,
        own: false,
        awaiting: false,
    };
}

// U2ws, by its number.
const ASKS_TO_TALK: u8 = 11;

// Two reasons are left, 5 and 6.
const FIVE_OR_SIX: u8 = 7;

// The octets of the message that an entry carries.
fn octets_of(log: &[u8], carried: Data) -> &[u8] {
    let message = carried.message;
    part(log, message.start, message.count)
}

// The transaction behind an entry that was taken in a state.
pub(crate) fn transaction_behind(
    log: &[u8],
    before: Transaction,
    state: u8,
    entry: Entry,
) -> Transaction {
    let claim = entry.claim;
    if claim.answer != answer::TAKEN {
        return before;
    }
    let carried = entry.carried;
    let first = octet_at(octets_of(log, carried), 0);
    let told = told_by(before, entry.event, carried.value, first / 16 % 8);
    let entered = (claim.state == ASKS_TO_TALK) & (state != ASKS_TO_TALK);
    let others = claim.parameters / 8 % 2 == 0;
    Transaction {
        value: told.value,
        own: told.own,
        awaiting: told.awaiting | (entered & others),
    }
}

// What an event tells of it: a call that begins has its own value, and a message that is taken has the value of the call.
fn told_by(before: Transaction, event: u8, value: u8, carried: u8) -> Transaction {
    match event {
        event::SET_UP | event::IMMEDIATE_SET_UP => Transaction {
            value,
            own: true,
            awaiting: false,
        },
        event::NOTIFIED => Transaction {
            value,
            own: false,
            awaiting: false,
        },
        event::RECEIVED => Transaction {
            value: carried,
            own: before.own,
            awaiting: false,
        },
        _ => before,
    }
}

// Whether the first octet of a message is of the transaction. The cell sends flag 1 where the radio opened it.
fn fits(transaction: Transaction, first: u8) -> bool {
    let value = first / 16 % 8;
    let flagged = (128 <= first) == transaction.own;
    let awaited = transaction.awaiting & (value < 7);
    flagged & (awaited | (!transaction.awaiting & (value == transaction.value)))
}

// Whether a message asks one radio for its status.
fn asks_one(protocol: Protocol, octets: &[u8]) -> bool {
    let Ok(read) = message::read(protocol, octets) else {
        return false;
    };
    matches!(read.message, Message::GetStatus { identity: Some(_) })
}

// The reason that the octets of a message give, in a state other than U0.
fn reason_in(protocol: Protocol, octets: &[u8], transaction: Transaction) -> u8 {
    let first = octet_at(octets, 0);
    if octets.len() < 2 {
        return 2;
    }
    if first % 16 != discriminator(protocol) {
        return 3;
    }
    if !fits(transaction, first) {
        return 4;
    }
    0
}

// What is left of the last two: a message that all hear may ask another radio, and one without COMM does not answer. Where neither can be, the claims give none.
fn last_reason(one: bool, comm: bool) -> u8 {
    if one & comm {
        return 5;
    }
    if one {
        return FIVE_OR_SIX;
    }
    if comm { 0 } else { 6 }
}

fn reason_of(
    protocol: Protocol,
    log: &[u8],
    transaction: Transaction,
    state: u8,
    entry: Entry,
) -> u8 {
    if state == 0 {
        return 1;
    }
    let claim = entry.claim;
    let carried = entry.carried;
    let octets = octets_of(log, carried);
    let reason = reason_in(protocol, octets, transaction);
    if 0 < reason {
        return reason;
    }
    let one = (carried.mode == 1) & asks_one(protocol, octets);
    last_reason(one, claim.parameters / 4 % 2 == 1)
}

// Why the message of an entry was ignored, with a space before it; nothing where it was not. `state` is the one before.
pub(crate) fn write_why(
    descriptor: i32,
    protocol: Protocol,
    log: &[u8],
    transaction: Transaction,
    state: u8,
    entry: Entry,
) {
    let claim = entry.claim;
    if (entry.event != event::RECEIVED) | (claim.answer != answer::IGNORED) {
        return;
    }
    match reason_of(protocol, log, transaction, state, entry) {
        0 => {}
        FIVE_OR_SIX => {
            write_text(descriptor, b" ");
            write_reason(descriptor, 5);
            write_text(descriptor, b", or ");
            write_reason(descriptor, 6);
        }
        reason => {
            write_text(descriptor, b" ");
            write_reason(descriptor, reason);
        }
    }
}
