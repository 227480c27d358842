// Why a message can't be read, with the octet that is at fault, within a line.
use codes::protocol::{Protocol, discriminator};
use fields::octet_at;
use message::Fault;
use saying::describe::{tell_element, tell_places};
use saying::{tell, tell_number, tell_octet, tell_place};

pub(crate) fn tell_fault(protocol: Protocol, octets: &[u8], fault: Fault) {
    match fault {
        Fault::TooShort => tell_missing(octets, b" is missing: a message has at least 2 octets"),
        Fault::Discriminator => tell_other_protocol(protocol, octet_at(octets, 0)),
        Fault::UnknownType => tell_unknown_type(octet_at(octets, 1)),
        Fault::CutShort => tell_missing(octets, b" is missing: the message is cut short"),
        Fault::WrongLength(place) => tell_wrong_length(place, octet_at(octets, place)),
        Fault::MustBeKnown(place, identifier) => tell_must_be_known(place, identifier),
    }
}

// The octet behind the last one is the first that is missing.
fn tell_missing(octets: &[u8], why: &[u8]) {
    tell(b"octet ");
    tell_place(octets.len().wrapping_add(1));
    tell(why);
}

fn tell_other_protocol(protocol: Protocol, first: u8) {
    tell(b"octet 1: protocol discriminator ");
    tell_number(first % 16);
    match protocol {
        Protocol::Broadcast => tell(b", broadcast call control has "),
        Protocol::Group => tell(b", group call control has "),
    }
    tell_number(discriminator(protocol));
}

fn tell_unknown_type(second: u8) {
    tell(b"octet 2: message type ");
    tell_octet(second);
    tell(b" is not one of table 9.1");
}

fn tell_must_be_known(place: usize, identifier: u8) {
    tell_places(place, 1);
    tell_element(identifier);
    tell(b" must be known but is not defined for this message");
}

// The length octet of a cause is octet 3, of a classmark octet 4, of the identity of IMMEDIATE SETUP octet 8.
fn tell_wrong_length(place: usize, found: u8) {
    tell_places(place, 1);
    tell(b"length ");
    tell_number(found);
    match place {
        2 => tell(b", the cause wants 1 to 247"),
        3 => tell(b", the mobile station classmark wants 3"),
        _ => tell(b", the mobile identity wants 1 to 8"),
    }
}
