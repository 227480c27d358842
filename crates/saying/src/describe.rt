// Words for what messages hold: kinds and their directions (8.1 to 8.9), causes (table 9.4), call states (6.1.2.1), state attributes (9.4.6). Where broadcast
// calls (GSM 04.69) and group calls (24.068) differ, they go by the protocol.
// The words of a table are the lines of one text, and a match gives the line.
use crate::{STDOUT_FILENO, tell, tell_number, tell_octet, tell_place, write_text};
use causes::{Cause, cause_said};
use codes::attributes::parameters_of;
use codes::message_type;
use codes::protocol::Protocol;
use codes::state::{State, call_state_of};

// Writes a line of a text, counted from 0; nothing where the text has fewer.
pub fn write_line(descriptor: i32, text: &[u8], number: u8) {
    let mut lines = text.split(|character| *character == b'\n');
    if let Some(line) = lines.nth(usize::from(number)) {
        write_text(descriptor, line);
    }
}

fn tell_line(text: &[u8], number: u8) {
    write_line(STDOUT_FILENO, text, number);
}

fn kind_line(kind: u8) -> u8 {
    match kind {
        message_type::IMMEDIATE_SETUP => 0,
        message_type::SETUP => 1,
        message_type::CONNECT => 2,
        message_type::TERMINATION => 3,
        message_type::TERMINATION_REQUEST => 4,
        message_type::TERMINATION_REJECT => 5,
        message_type::STATUS => 6,
        message_type::GET_STATUS => 7,
        message_type::SET_PARAMETER => 8,
        _ => 9,
    }
}

// The name of a message type, bits 6 to 1.
pub fn write_kind(descriptor: i32, kind: u8) {
    let line = kind_line(kind);
    write_line(
        descriptor,
        b"IMMEDIATE SETUP\n\
          SETUP\n\
          CONNECT\n\
          TERMINATION\n\
          TERMINATION REQUEST\n\
          TERMINATION REJECT\n\
          STATUS\n\
          GET STATUS\n\
          SET PARAMETER\n\
          no type of table 9.1\n",
        line,
    );
}

// The same with its direction.
pub fn tell_kind(kind: u8) {
    write_kind(STDOUT_FILENO, kind);
    match kind {
        message_type::IMMEDIATE_SETUP => tell(b", MS to network"),
        message_type::SETUP => tell(b", MS to network"),
        message_type::TERMINATION_REQUEST => tell(b", MS to network"),
        message_type::STATUS => tell(b", MS to network"),
        message_type::CONNECT => tell(b", network to MS"),
        message_type::TERMINATION => tell(b", network to MS"),
        message_type::TERMINATION_REJECT => tell(b", network to MS"),
        message_type::GET_STATUS => tell(b", network to MS"),
        message_type::SET_PARAMETER => tell(b", network to MS"),
        _ => {}
    }
}

fn cause_line(cause: Cause) -> u8 {
    match cause {
        Cause::IllegalMs => 0,
        Cause::ImeiNotAccepted => 1,
        Cause::IllegalMe => 2,
        Cause::ServiceNotAuthorized => 3,
        Cause::ApplicationNotSupported => 4,
        Cause::RrConnectionAborted => 5,
        Cause::NormalCallClearing => 6,
        Cause::NetworkFailure => 7,
        Cause::Busy => 8,
        Cause::Congestion => 9,
        Cause::UserNotOriginator => 10,
        Cause::NetworkWantsToMaintainCall => 11,
        Cause::ResponseToGetStatus => 12,
        Cause::ServiceOptionNotSupported => 13,
        Cause::ServiceOptionNotSubscribed => 14,
        Cause::ServiceOptionOutOfOrder => 15,
        Cause::CallCannotBeIdentified => 16,
        Cause::RetryUponNewCell => 17,
        Cause::InvalidTransactionIdentifier => 18,
        Cause::SemanticallyIncorrect => 19,
        Cause::InvalidMandatoryInformation => 20,
        Cause::TypeNonExistent => 21,
        Cause::TypeNotCompatible => 22,
        Cause::ElementNonExistent => 23,
        Cause::ProtocolError => 24,
        Cause::Unspecific => 25,
    }
}

// The words of table 9.4 for the cause that the first octet of its value says.
pub fn tell_cause(first: u8) {
    let line = cause_line(cause_said(first));
    tell_line(
        b"Illegal MS\n\
          IMEI not accepted\n\
          Illegal ME\n\
          Service not authorized\n\
          Application not supported on the protocol\n\
          RR connection aborted\n\
          Normal call clearing\n\
          Network failure\n\
          Busy\n\
          Congestion\n\
          User not originator of call\n\
          Network wants to maintain call\n\
          Response to GET STATUS\n\
          Service option not supported\n\
          Requested service option not subscribed\n\
          Service option temporarily out of order\n\
          Call cannot be identified\n\
          retry upon entry into a new cell\n\
          Invalid transaction identifier value\n\
          Semantically incorrect message\n\
          Invalid mandatory information\n\
          Message type non-existent or not implemented\n\
          Message type not compatible with the protocol state\n\
          Information element non-existent or not implemented\n\
          Protocol error, unspecified\n\
          unspecific cause\n",
        line,
    );
}

// The number of a state, as logs have it.
fn number_of_state(state: State) -> u8 {
    match state {
        State::U0 => 0,
        State::U0p => 1,
        State::U1 => 2,
        State::U2 => 3,
        State::U3 => 4,
        State::U4 => 5,
        State::U5 => 6,
        State::U6 => 7,
        State::U2sl => 8,
        State::U2wr => 9,
        State::U2r => 10,
        State::U2ws => 11,
        State::U2sr => 12,
        State::U2nc => 13,
    }
}

// The short name of the state of a number.
pub fn write_state_name(descriptor: i32, number: u8) {
    write_line(
        descriptor,
        b"U0\nU0.p\nU1\nU2\nU3\nU4\nU5\nU6\nU2sl\nU2wr\nU2r\nU2ws\nU2sr\nU2nc\n",
        number,
    );
}

// Which call it is, before the names of the states that say so: U1 to U4.
fn tell_call(protocol: Protocol, number: u8) {
    if (number < 2) | (5 < number) {
        return;
    }
    match protocol {
        Protocol::Broadcast => tell(b"BROADCAST "),
        Protocol::Group => tell(b"GROUP "),
    }
}

pub fn tell_state(protocol: Protocol, state: State) {
    let number = number_of_state(state);
    write_state_name(STDOUT_FILENO, number);
    tell(b", ");
    tell_call(protocol, number);
    tell_line(
        b"NULL\n\
          MM CONNECTION PENDING\n\
          CALL INITIATED\n\
          CALL ACTIVE\n\
          CALL PRESENT\n\
          CALL CONNECTION REQUESTED\n\
          TERMINATION REQUESTED\n\
          RECEIVE MODE ACTIVE\n\
          separate link\n\
          wait for receive mode\n\
          receive mode\n\
          wait for send and receive mode\n\
          send and receive mode\n\
          no channel\n",
        number,
    );
}

// A call state by its code.
pub fn tell_call_state(protocol: Protocol, code: u8) {
    tell(b"call state ");
    tell_number(code);
    tell(b", ");
    match call_state_of(protocol, code) {
        Some(state) => tell_state(protocol, state),
        None => tell(b"reserved"),
    }
    tell(b"\n");
}

fn tell_parameter(name: &[u8], set: bool) {
    tell(name);
    if set {
        tell(b" T");
        return;
    }
    tell(b" F");
}

// State attributes by their half octet.
pub fn tell_attributes(half: u8) {
    let parameters = parameters_of(half);
    tell(b"state attributes ");
    tell_parameter(b"ORIG", parameters.orig);
    tell_parameter(b", COMM", parameters.comm);
    tell_parameter(b", D-ATT", parameters.datt);
    tell_parameter(b", U-ATT", parameters.uatt);
    tell(b"\n");
}

// The place of one octet, or of several, counted from 1: `octet 3: `, `octets 3 to 6: `.
pub fn tell_places(start: usize, count: usize) {
    let first = start.wrapping_add(1);
    if count <= 1 {
        tell(b"octet ");
        tell_place(first);
        tell(b": ");
        return;
    }
    tell(b"octets ");
    tell_place(first);
    tell(b" to ");
    tell_place(start.wrapping_add(count));
    tell(b": ");
}

// An element's identifier.
pub fn tell_element(identifier: u8) {
    tell(b"element ");
    tell_octet(identifier);
}
