// A message within a line: its kind, its transaction and its main fields.
use crate::faults::tell_fault;
use codes::attributes::parameters_of;
use codes::protocol::Protocol;
use codes::state::call_state_of;
use fields::{fault_number, octet_at};
use message::{Fault, Message, Unread};
use octets::{Reference, Run};
use saying::describe::{tell_cause, tell_kind, tell_state};
use saying::{tell, tell_hex, tell_number, tell_place};
use text::words::part;

// Tells a message of a call of this protocol, without a line end.
pub fn tell_briefly(protocol: Protocol, octets: &[u8]) {
    match message::read(protocol, octets) {
        Err(Unread::TooLong) => tell_too_long(octets),
        Err(Unread::Unreadable(fault)) => tell_unreadable(protocol, octets, fault),
        Ok(read) => tell_message(protocol, octets, read.flag, read.value, read.message),
    }
}

fn tell_too_long(octets: &[u8]) {
    tell(b"too long (answer 6): ");
    tell_place(octets.len());
    tell(b" octets, and a message may have at most 251");
}

fn tell_unreadable(protocol: Protocol, octets: &[u8], fault: Fault) {
    tell(b"unreadable (answer 13, fault ");
    tell_number(fault_number(fault));
    tell(b"): ");
    tell_fault(protocol, octets, fault);
}

fn tell_message(protocol: Protocol, octets: &[u8], flag: bool, value: u8, message: Message) {
    tell_kind(octet_at(octets, 1) % 64);
    tell(b", transaction value ");
    tell_number(value);
    tell_flag(flag);
    tell_fields(protocol, octets, message);
}

fn tell_flag(flag: bool) {
    if flag {
        tell(b" flag 1");
        return;
    }
    tell(b" flag 0");
}

fn tell_fields(protocol: Protocol, octets: &[u8], message: Message) {
    match message {
        Message::Connect {
            reference,
            originator,
        } => tell_connect(reference, originator),
        Message::GetStatus { identity } => tell_asked(octets, identity),
        Message::ImmediateSetup {
            key,
            classmark: _,
            identity,
            reference,
        } => tell_immediate_setup(octets, key, identity, reference),
        Message::SetParameter { attributes } => tell_attributes(attributes),
        Message::Setup { reference } => tell_reference(reference),
        Message::Status {
            cause,
            state,
            attributes,
        } => tell_status(protocol, octets, cause, state, attributes),
        Message::Termination { cause } => tell_cause_part(octets, cause),
        Message::TerminationReject { cause } => tell_cause_part(octets, cause),
        Message::TerminationRequest { reference } => tell_reference(reference),
    }
}

fn tell_connect(reference: Reference, originator: u8) {
    tell_reference(reference);
    if originator == 1 {
        tell(b", this MS is the originator");
        return;
    }
    tell(b", this MS is not the originator");
}

// GET STATUS may name the one that is asked.
fn tell_asked(octets: &[u8], identity: Option<Run>) {
    match identity {
        None => tell(b", no mobile identity"),
        Some(run) => tell_identity(octets, run),
    }
}

fn tell_immediate_setup(octets: &[u8], key: u8, identity: Run, reference: Reference) {
    tell(b", key number ");
    tell_number(key);
    tell_identity(octets, identity);
    tell_reference(reference);
}

fn tell_status(
    protocol: Protocol,
    octets: &[u8],
    cause: Run,
    state: Option<u8>,
    attributes: Option<u8>,
) {
    tell_cause_part(octets, cause);
    match state {
        None => tell(b", no call state"),
        Some(code) => tell_call_state(protocol, code),
    }
    match attributes {
        None => tell(b", no state attributes"),
        Some(half) => tell_attributes(half),
    }
}

// ---- fields, each with the comma before it

fn tell_reference(reference: Reference) {
    let octets = [
        reference.first,
        reference.second,
        reference.third,
        reference.fourth,
    ];
    tell(b", call reference ");
    tell_hex(&octets);
}

fn tell_identity(octets: &[u8], run: Run) {
    let start = run.start;
    let count = run.count;
    tell(b", mobile identity ");
    tell_hex(part(octets, start, count));
}

// Bit 8 set ends the cause parts; where another part follows, the cause is unspecific (9.4.3).
fn tell_cause_part(octets: &[u8], cause: Run) {
    let start = cause.start;
    let count = cause.count;
    tell_first_part(octet_at(octets, start));
    if 1 < count {
        tell(b" with further octets: ");
        tell_place(count - 1);
    }
}

fn tell_first_part(first: u8) {
    tell(b", cause ");
    tell_number(first % 128);
    tell(b" (");
    tell_cause(first);
    if first < 128 {
        tell(b": another part follows");
    }
    tell(b")");
}

fn tell_call_state(protocol: Protocol, code: u8) {
    tell(b", call state ");
    match call_state_of(protocol, code) {
        Some(state) => tell_state(protocol, state),
        None => tell_reserved(code),
    }
}

fn tell_reserved(code: u8) {
    tell(b"code ");
    tell_number(code);
    tell(b", reserved");
}

fn tell_attributes(half: u8) {
    let parameters = parameters_of(half);
    tell_parameter(b", ORIG", parameters.orig);
    tell_parameter(b" COMM", parameters.comm);
    tell_parameter(b" D-ATT", parameters.datt);
    tell_parameter(b" U-ATT", parameters.uatt);
}

fn tell_parameter(name: &[u8], set: bool) {
    tell(name);
    if set {
        tell(b"=T");
        return;
    }
    tell(b"=F");
}
