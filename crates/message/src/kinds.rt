// What stands behind a message's first two octets, kind by kind.
ghost use Rattle.std.specs.Prelude.{◌≡◌, ◌+◌, ◌≤◌, length};
ghost use Rattle.element.specs.Elements.{element_from};
ghost use Rattle.codes.specs.declared.protocol.Protocol.{Protocol};
ghost use Rattle.message.specs.Reading.{
  reference_at,
  classmark_at,
  whole_of,
  miscounted,
  counted_of,
  connect_of,
  get_status_of,
  identity_found,
  immediate_identity_of,
  immediate_setup_of,
  set_parameter_of,
  setup_of,
  half_at,
  status_of,
  termination_of,
  termination_reject_of,
  termination_request_of,
  body_of,
};

use crate::{Classmark, Fault, Message, Reference};
use codes::message_type;
use codes::protocol::Protocol;
use element::{Miscount, counted_at, seek};
use octets::Run;

// How many octets a mobile identity and a cause have behind their length octet.
const LEAST: u8 = 1;

const IDENTITY_MOST: u8 = 8;

const CAUSE_MOST: u8 = 247;

// The reference at a place.
fn reference_at(octets: &[u8], at: usize) -> Reference
    requires { at + 4 ≤ length octets.now }
    ensures { result ≡ reference_at octets.now at }
{
    Reference {
        first: octets[at],
        second: octets[at + 1],
        third: octets[at + 2],
        fourth: octets[at + 3],
    }
}

// The classmark at a place.
fn classmark_at(octets: &[u8], at: usize) -> Classmark
    requires { at + 3 ≤ length octets.now }
    ensures { result ≡ classmark_at octets.now at }
{
    Classmark {
        first: octets[at],
        second: octets[at + 1],
        third: octets[at + 2],
    }
}

// The message whose mandatory part ends before `end`, unless that is cut short or an element behind it must be known.
fn whole(octets: &[u8], end: usize, message: Message) -> Result<Message, Fault>
    ensures { result ≡ whole_of octets.now end message }
{
    if octets.len() < end {
        return Err(Fault::CutShort);
    }
    match seek(octets, end, 0, 15) {
        Some((place, identifier)) => Err(Fault::MustBeKnown(place, identifier)),
        None => Ok(message),
    }
}

// The fault of a mandatory part whose length octet at `at` counts no run.
fn miscounted(at: usize, miscount: Miscount) -> Fault
    ensures { result ≡ miscounted at miscount }
{
    match miscount {
        Miscount::CutShort => Fault::CutShort,
        Miscount::WrongLength => Fault::WrongLength(at),
    }
}

// The run that the length octet at `at` counts, which is to be `low` to `high`.
fn counted(octets: &[u8], at: usize, low: u8, high: u8) -> Result<Run, Fault>
    ensures { result ≡ counted_of octets.now at low high }
{
    counted_at(octets, at, low, high).map_err(|miscount| miscounted(at, miscount))
}

// Table 8.1.
fn read_connect(octets: &[u8]) -> Result<Message, Fault>
    ensures { result ≡ connect_of octets.now }
{
    if octets.len() < 7 {
        return Err(Fault::CutShort);
    }
    let reference = reference_at(octets, 2);
    let originator = octets[6] % 2;
    whole(
        octets,
        7,
        Message::Connect {
            reference,
            originator,
        },
    )
}

// The first element from octet 3 on that is an identity; one that runs past the end or has another length is absent.
fn identity_in(octets: &[u8]) -> Option<Run>
    ensures { result ≡ identity_found octets.now (element_from octets.now 2 0x17 0x17) }
{
    let (place, _) = seek(octets, 2, 0x17, 0x17)?;
    counted_at(octets, place + 1, LEAST, IDENTITY_MOST).ok()
}

// Table 8.2.
fn read_get_status(octets: &[u8]) -> Result<Message, Fault>
    ensures { result ≡ get_status_of octets.now }
{
    let identity = identity_in(octets);
    whole(octets, 2, Message::GetStatus { identity })
}

// Table 8.3, from the mobile identity on.
fn read_immediate_identity(octets: &[u8]) -> Result<Message, Fault>
    requires { 7 ≤ length octets.now }
    ensures { result ≡ immediate_identity_of octets.now }
{
    let key = octets[2] / 16 % 8;
    let classmark = classmark_at(octets, 4);
    let identity = counted(octets, 7, LEAST, IDENTITY_MOST)?;
    let end = identity.start + identity.count;
    if octets.len() - end < 4 {
        return Err(Fault::CutShort);
    }
    let reference = reference_at(octets, end);
    whole(
        octets,
        end + 4,
        Message::ImmediateSetup {
            key,
            classmark,
            identity,
            reference,
        },
    )
}

// Table 8.3.
fn read_immediate_setup(octets: &[u8]) -> Result<Message, Fault>
    ensures { result ≡ immediate_setup_of octets.now }
{
    let _classmark = counted(octets, 3, 3, 3)?;
    read_immediate_identity(octets)
}

// Table 8.4.
fn read_set_parameter(octets: &[u8]) -> Result<Message, Fault>
    ensures { result ≡ set_parameter_of octets.now }
{
    if octets.len() < 3 {
        return Err(Fault::CutShort);
    }
    let attributes = octets[2] % 16;
    whole(octets, 3, Message::SetParameter { attributes })
}

// Table 8.5.
fn read_setup(octets: &[u8]) -> Result<Message, Fault>
    ensures { result ≡ setup_of octets.now }
{
    if octets.len() < 6 {
        return Err(Fault::CutShort);
    }
    let reference = reference_at(octets, 2);
    whole(octets, 6, Message::Setup { reference })
}

// The half octet of the first element from `at` on whose identifier's half is `low` without its value.
fn half_at(octets: &[u8], at: usize, low: u8) -> Option<u8>
    requires { low ≤ 240 }
    ensures { result ≡ half_at octets.now at low }
{
    let (_, identifier) = seek(octets, at, low, low + 15)?;
    Some(identifier % 16)
}

// Table 8.6.
fn read_status(octets: &[u8]) -> Result<Message, Fault>
    ensures { result ≡ status_of octets.now }
{
    let cause = counted(octets, 2, LEAST, CAUSE_MOST)?;
    let end = cause.start + cause.count;
    let state = half_at(octets, end, 0xa0);
    let attributes = half_at(octets, end, 0xb0);
    whole(
        octets,
        end,
        Message::Status {
            cause,
            state,
            attributes,
        },
    )
}

// Table 8.7.
fn read_termination(octets: &[u8]) -> Result<Message, Fault>
    ensures { result ≡ termination_of octets.now }
{
    let cause = counted(octets, 2, LEAST, CAUSE_MOST)?;
    let end = cause.start + cause.count;
    whole(octets, end, Message::Termination { cause })
}

// Table 8.8 of GSM 04.69.
fn read_counted_reject(octets: &[u8]) -> Result<Message, Fault>
    ensures { result ≡ termination_reject_of Protocol.Broadcast octets.now }
{
    let cause = counted(octets, 2, LEAST, CAUSE_MOST)?;
    let end = cause.start + cause.count;
    whole(octets, end, Message::TerminationReject { cause })
}

// Table 8.8.
fn read_termination_reject(protocol: Protocol, octets: &[u8]) -> Result<Message, Fault>
    ensures { result ≡ termination_reject_of protocol octets.now }
{
    match protocol {
        Protocol::Broadcast => read_counted_reject(octets),
        Protocol::Group => {
            let cause = Run { start: 2, count: 4 };
            whole(octets, 6, Message::TerminationReject { cause })
        }
    }
}

// Table 8.9.
fn read_termination_request(octets: &[u8]) -> Result<Message, Fault>
    ensures { result ≡ termination_request_of octets.now }
{
    if octets.len() < 6 {
        return Err(Fault::CutShort);
    }
    let reference = reference_at(octets, 2);
    whole(octets, 6, Message::TerminationRequest { reference })
}

// The message of a type without bits 7 and 8, table 9.1; the ranges are the codes that the table leaves unused.
pub(crate) fn read_body(protocol: Protocol, octets: &[u8], kind: u8) -> Result<Message, Fault>
    ensures { result ≡ body_of protocol octets.now kind }
{
    match kind {
        message_type::IMMEDIATE_SETUP => read_immediate_setup(octets),
        message_type::SETUP => read_setup(octets),
        message_type::CONNECT => read_connect(octets),
        message_type::TERMINATION => read_termination(octets),
        message_type::TERMINATION_REQUEST => read_termination_request(octets),
        message_type::TERMINATION_REJECT => read_termination_reject(protocol, octets),
        message_type::STATUS => read_status(octets),
        message_type::GET_STATUS => read_get_status(octets),
        message_type::SET_PARAMETER => read_set_parameter(octets),
        0..=0x30 | 0x37..=0x37 | 0x3b..=0xff => Err(Fault::UnknownType),
    }
}
