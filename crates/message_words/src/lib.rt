// Messages in words: taken apart field by field with the octets of each, or told briefly within a line; one that can't be read with
// where it is at fault and why.
#![tactic(auto)]

mod brief;
mod faults;

ghost use Rattle.std.specs.Prelude.{◌<◌, ◌≤◌, length};

pub use brief::tell_briefly;
use codes::message_type;
use codes::protocol::{Protocol, discriminator};
use element::{Miscount, counted_at, seek};
use faults::tell_fault;
use fields::{fault_number, octet_at};
use filing::ending::Failure;
use message::{Fault, Message, Unread};
use octets::Run;
use saying::describe::{
    tell_attributes, tell_call_state, tell_cause, tell_element, tell_kind, tell_places,
};
use saying::{tell, tell_hex, tell_number, tell_octet, tell_place};
use text::words::part;

// Takes a message apart, and answers the verdict. Its own discriminator says of which protocol it is.
pub fn tell_apart(octets: &[u8]) -> Result<(), Failure> {
    let protocol = protocol_of(octet_at(octets, 0));
    match message::read(protocol, octets) {
        Err(Unread::TooLong) => tell_too_long(octets),
        Err(Unread::Unreadable(fault)) => tell_unreadable(protocol, octets, fault),
        Ok(read) => tell_message(protocol, octets, read.flag, read.value, read.message),
    }
}

// The protocol of a message that begins with this octet: group calls have their own discriminator, any other is taken for a broadcast call's.
fn protocol_of(first: u8) -> Protocol {
    if first % 16 == discriminator(Protocol::Group) {
        return Protocol::Group;
    }
    Protocol::Broadcast
}

// The summary: protocol, where it is not broadcast, kind, direction, transaction, length.
fn tell_summary(protocol: Protocol, octets: &[u8], flag: bool, value: u8) {
    tell_protocol(protocol);
    tell_kind(octet_at(octets, 1) % 64);
    tell(b", transaction value ");
    tell_number(value);
    tell_flag(flag);
    tell_place(octets.len());
    tell(b" octets\n");
}

fn tell_protocol(protocol: Protocol) {
    match protocol {
        Protocol::Broadcast => (),
        Protocol::Group => tell(b"group call: "),
    }
}

fn tell_flag(flag: bool) {
    if flag {
        tell(b", flag 1, ");
        return;
    }
    tell(b", flag 0, ");
}

fn tell_message(
    protocol: Protocol,
    octets: &[u8],
    flag: bool,
    value: u8,
    message: Message,
) -> Result<(), Failure> {
    tell_summary(protocol, octets, flag, value);
    tell_heads(octets);
    tell_fields(octets, message);
    Ok(())
}

// Octets 1 and 2, as far as they are there.
fn tell_heads(octets: &[u8]) {
    if 0 < octets.len() {
        tell_first(octets[0]);
    }
    if 1 < octets.len() {
        tell_second(octets[1]);
    }
}

fn tell_first(first: u8) {
    tell(b"octet 1: protocol discriminator ");
    tell_number(first % 16);
    tell(b", transaction value ");
    tell_number(first / 16 % 8);
    if 128 <= first {
        tell(b", flag 1: sent to the side that opened the transaction\n");
        return;
    }
    tell(b", flag 0: sent from the side that opened the transaction\n");
}

// Bit 8 set is an unknown type, bit 7 is read as anything.
fn tell_second(second: u8) {
    tell(b"octet 2: message type ");
    tell_octet(second);
    tell(b", ");
    if 128 <= second {
        tell(b"no type of table 9.1: bit 8 is set\n");
        return;
    }
    tell_kind(second % 64);
    tell(b"\n");
}

// ---- faults

fn tell_too_long(octets: &[u8]) -> Result<(), Failure> {
    tell(b"too long (answer 6): the message has ");
    tell_place(octets.len());
    tell(b" octets, and may have at most 251\n");
    tell_heads(octets);
    Err(Failure::Refused)
}

fn tell_unreadable(protocol: Protocol, octets: &[u8], fault: Fault) -> Result<(), Failure> {
    tell(b"unreadable (answer 13, fault ");
    tell_number(fault_number(fault));
    tell(b"): ");
    tell_fault(protocol, octets, fault);
    tell(b"\n");
    tell_heads(octets);
    Err(Failure::Refused)
}

// ---- fields

fn tell_fields(octets: &[u8], message: Message) {
    match message {
        Message::Connect {
            reference: _,
            originator,
        } => tell_connect(octets, originator),
        Message::GetStatus { identity: _ } => tell_optional(octets, 2, message_type::GET_STATUS),
        Message::ImmediateSetup {
            key,
            classmark: _,
            identity,
            reference: _,
        } => tell_immediate_setup(octets, key, identity),
        Message::SetParameter { attributes } => tell_set_parameter(octets, attributes),
        Message::Setup { reference: _ } => tell_referred(octets, message_type::SETUP),
        Message::Status {
            cause,
            state: _,
            attributes: _,
        } => tell_caused(octets, cause, message_type::STATUS),
        Message::Termination { cause } => tell_caused(octets, cause, message_type::TERMINATION),
        Message::TerminationReject { cause } => tell_caused(
            octets,
            cause,
            message_type::TERMINATION_REJECT,
        ),
        Message::TerminationRequest { reference: _ } => tell_referred(
            octets,
            message_type::TERMINATION_REQUEST,
        ),
    }
}

// A run of octets under its name, on a line.
fn tell_run(octets: &[u8], start: usize, count: usize, name: &[u8]) {
    tell_places(start, count);
    tell(name);
    tell_hex(part(octets, start, count));
    tell(b"\n");
}

// A length octet, on a line.
fn tell_length(place: usize, count: usize, name: &[u8]) {
    tell_places(place, 1);
    tell(name);
    tell_place(count);
    tell(b"\n");
}

fn tell_reference(octets: &[u8], start: usize) {
    tell_run(octets, start, 4, b"call reference ");
}

fn tell_connect(octets: &[u8], originator: u8) {
    tell_reference(octets, 2);
    tell_originator(originator);
    tell_optional(octets, 7, message_type::CONNECT);
}

fn tell_originator(originator: u8) {
    if originator == 1 {
        tell(b"octet 7: originator indication 1, this MS is the originator\n");
        return;
    }
    tell(b"octet 7: originator indication 0, this MS is not the originator\n");
}

fn tell_set_parameter(octets: &[u8], attributes: u8) {
    tell_places(2, 1);
    tell_attributes(attributes);
    tell_optional(octets, 3, message_type::SET_PARAMETER);
}

// SETUP and TERMINATION REQUEST.
fn tell_referred(octets: &[u8], kind: u8) {
    tell_reference(octets, 2);
    tell_optional(octets, 6, kind);
}

fn tell_immediate_setup(octets: &[u8], key: u8, identity: Run) {
    let start = identity.start;
    let count = identity.count;
    let end = start.wrapping_add(count);
    tell_places(2, 1);
    tell(b"ciphering key sequence number ");
    tell_number(key);
    tell(b"\noctet 4: length of the mobile station classmark 3\n");
    tell_run(octets, 4, 3, b"mobile station classmark ");
    tell_length(7, count, b"length of the mobile identity ");
    tell_run(octets, start, count, b"mobile identity ");
    tell_reference(octets, end);
    tell_optional(octets, end.wrapping_add(4), message_type::IMMEDIATE_SETUP);
}

// STATUS, TERMINATION and TERMINATION REJECT: the cause's length octet, its first part and the diagnostics behind that. A cause that begins with octet 3 has no
// length octet.
fn tell_caused(octets: &[u8], cause: Run, kind: u8) {
    let start = cause.start;
    let count = cause.count;
    if start != 2 {
        tell_length(2, count, b"length of the cause ");
    }
    tell_cause_part(start, octet_at(octets, start));
    tell_behind_cause(octets, start, count);
    tell_optional(octets, start.wrapping_add(count), kind);
}

// Bit 8 set ends the cause parts; where another part follows, the cause is unspecific (9.4.3).
fn tell_cause_part(place: usize, first: u8) {
    tell_places(place, 1);
    tell(b"cause ");
    tell_number(first % 128);
    tell(b", ");
    tell_cause(first);
    if first < 128 {
        tell(b": bit 8 is 0, so it has more than one cause part");
    }
    tell(b"\n");
}

// What stands behind the first cause part. `start` is the place of the whole cause, `count` its count.
fn tell_behind_cause(octets: &[u8], start: usize, count: usize) {
    let behind = start.wrapping_add(1);
    if count < 2 {
        return;
    }
    if 128 <= octet_at(octets, start) {
        tell_run(octets, behind, count - 1, b"diagnostics ");
        return;
    }
    tell_run(
        octets,
        behind,
        count - 1,
        b"further cause parts and diagnostics ",
    );
}

// ---- optional elements

// Where the element at `at` ends; one that runs past the end ends with the message.
fn element_end(octets: &[u8], at: usize) -> usize
    requires { at < length octets.now }
    ensures { (at < result) × (result ≤ length octets.now) }
{
    if 128 <= octets[at] {
        return at + 1;
    }
    let Ok(run) = counted_at(octets, at + 1, 0, 255) else {
        return octets.len();
    };
    let end = std::num::wrapping_add_usize(run.start, run.count);
    if end <= at {
        return octets.len();
    }
    if octets.len() < end {
        return octets.len();
    }
    end
}

// What stands behind the mandatory part, element by element.
fn tell_optional(octets: &[u8], from: usize, kind: u8) {
    let mut at = from;
    // Steps by what each element takes: no iterator goes so.
    while at < octets.len() {
        let end = element_end(octets, at);
        tell_places(at, end - at);
        tell_one(octets, from, at, kind);
        at = end;
    }
}

// Whether the element at `at` is the first one from `from` on whose identifier is `low` to `high`.
fn is_first(octets: &[u8], from: usize, at: usize, low: u8, high: u8) -> bool {
    seek(octets, from, low, high).is_some_and(|(place, _)| place == at)
}

// The mobile identity of GET STATUS, the call state and the state attributes of STATUS, the first of each; any other element is skipped.
fn tell_one(octets: &[u8], from: usize, at: usize, kind: u8) {
    let identifier = octet_at(octets, at);
    if (kind == message_type::GET_STATUS) & is_first(octets, from, at, 0x17, 0x17) {
        tell_own(octets, at.wrapping_add(1));
        return;
    }
    if (kind == message_type::STATUS) & is_first(octets, from, at, 0xa0, 0xaf) {
        tell_call_state(protocol_of(octet_at(octets, 0)), identifier % 16);
        return;
    }
    if (kind == message_type::STATUS) & is_first(octets, from, at, 0xb0, 0xbf) {
        tell_attributes(identifier % 16);
        return;
    }
    tell_skipped(identifier, is_whole(octets, at));
}

// The first mobile identity of GET STATUS, whose length octet is at `place`: it counts if it has 1 to 8 octets and is whole.
fn tell_own(octets: &[u8], place: usize) {
    match counted_at(octets, place, 1, 8) {
        Ok(run) => tell_identity(octets, run),
        Err(Miscount::CutShort) => tell(b"mobile identity, runs past the end, counts as absent\n"),
        Err(Miscount::WrongLength) => tell_wrong_identity(octet_at(octets, place)),
    }
}

fn tell_identity(octets: &[u8], run: Run) {
    let start = run.start;
    let count = run.count;
    tell(b"mobile identity ");
    tell_hex(part(octets, start, count));
    tell(b"\n");
}

fn tell_wrong_identity(found: u8) {
    tell(b"mobile identity of length ");
    tell_number(found);
    tell(b", wants 1 to 8, counts as absent\n");
}

// Whether the element at `at` is whole.
fn is_whole(octets: &[u8], at: usize) -> bool {
    if 128 <= octet_at(octets, at) {
        return true;
    }
    counted_at(octets, at.wrapping_add(1), 0, 255).is_ok()
}

fn tell_skipped(identifier: u8, whole: bool) {
    tell_element(identifier);
    if whole {
        tell(b", skipped\n");
        return;
    }
    tell(b", runs past the end, counts as absent\n");
}
