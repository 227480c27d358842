// What stands behind a message's first octet, written kind by kind. Each answers for its own fields and its own room, and writes nothing where one is out of
// range or the buffer is short.
ghost use Rattle.std.specs.Prelude.{◌≡◌, true, ◌∷◌, [], ◌+◌, ◌≤◌, ◌<◌, length, Some};
ghost use Rattle.std.proofs.lemmas.List.Edits.{sets};
ghost use Rattle.octets.specs.declared.Run.{Run};
ghost use Rattle.message.specs.declared.Message.{Message};
ghost use Rattle.message.specs.Content.{content_of, run_octets, reference_octets};
ghost use Rattle.limits.specs.Limits.{run_fits, half_fits, half_count};
ghost use Rattle.writing.specs.Bodies.{Writes, cause_octets, body_octets, body_fits, common_octets, common_fits, half_octets};

use crate::Unwritten;
use codes::message_type;
use codes::protocol::Protocol;
use limits::{cause_fits, half_count, identity_fits, reject_fits, status_fits};
use message::{Classmark, Message};
use octets::{Reference, Run, copy_to};

// The four octets of a reference, to a place.
fn put_reference(buffer: &mut [u8], at: usize, reference: Reference)
    requires { at + 4 ≤ length buffer.old }
    ensures { buffer.new ≡ sets buffer.old at (reference_octets reference) }
{
    buffer[at] = reference.first;
    buffer[at + 1] = reference.second;
    buffer[at + 2] = reference.third;
    buffer[at + 3] = reference.fourth;
}

// An optional half octet behind its identifier, to a place; answers the place behind it.
fn put_half(buffer: &mut [u8], at: usize, identifier: u8, half: Option<u8>) -> usize
    requires { (at + half_count half ≤ length buffer.old) × (identifier < 16) × (half_fits half ≡ true) }
    ensures { (result ≡ at + half_count half) × (buffer.new ≡ sets buffer.old at (half_octets identifier half)) }
{
    match half {
        None => at,
        Some(value) => {
            buffer[at] = 16 * identifier + value;
            at + 1
        }
    }
}

// Table 8.1.
fn write_connect(
    buffer: &mut [u8],
    head: u8,
    reference: Reference,
    originator: u8,
) -> Result<usize, Unwritten>
    ensures { Writes buffer.old (common_octets head (content_of [] (Message.Connect reference originator))) (common_fits [] (Message.Connect reference originator)) result buffer.new }
{
    if 2 <= originator {
        return Err(Unwritten::OutOfRange);
    }
    if buffer.len() < 7 {
        return Err(Unwritten::ShortBuffer);
    }
    buffer[0] = head;
    buffer[1] = message_type::CONNECT;
    buffer[2] = reference.first;
    buffer[3] = reference.second;
    buffer[4] = reference.third;
    buffer[5] = reference.fourth;
    buffer[6] = originator;
    Ok(7)
}

// Table 8.2.
fn write_get_status(
    buffer: &mut [u8],
    source: &[u8],
    head: u8,
    identity: Option<Run>,
) -> Result<usize, Unwritten>
    ensures { Writes buffer.old (common_octets head (content_of source.now (Message.GetStatus identity))) (common_fits source.now (Message.GetStatus identity)) result buffer.new }
{
    match identity {
        None => {
            if buffer.len() < 2 {
                return Err(Unwritten::ShortBuffer);
            }
            buffer[0] = head;
            buffer[1] = message_type::GET_STATUS;
            Ok(2)
        }
        Some(run) => write_identified(buffer, source, head, run),
    }
}

// Table 8.2 with a mobile identity.
fn write_identified(
    buffer: &mut [u8],
    source: &[u8],
    head: u8,
    identity: Run,
) -> Result<usize, Unwritten>
    ensures { Writes buffer.old (common_octets head (content_of source.now (Message.GetStatus (Some identity)))) (common_fits source.now (Message.GetStatus (Some identity))) result buffer.new }
{
    if !identity_fits(source, identity) {
        return Err(Unwritten::OutOfRange);
    }
    let start = identity.start;
    let count = identity.count;
    if buffer.len() < 4 + count {
        return Err(Unwritten::ShortBuffer);
    }
    buffer[0] = head;
    buffer[1] = message_type::GET_STATUS;
    buffer[2] = 0x17;
    buffer[3] = count as u8;
    copy_to(buffer, 4, source, start, count);
    Ok(4 + count)
}

// Table 8.3.
fn write_immediate_setup(
    buffer: &mut [u8],
    source: &[u8],
    head: u8,
    key: u8,
    classmark: Classmark,
    identity: Run,
    reference: Reference,
) -> Result<usize, Unwritten>
    ensures { Writes buffer.old (common_octets head (content_of source.now (Message.ImmediateSetup key classmark identity reference))) (common_fits source.now (Message.ImmediateSetup key classmark identity reference)) result buffer.new }
{
    if 8 <= key {
        return Err(Unwritten::OutOfRange);
    }
    if !identity_fits(source, identity) {
        return Err(Unwritten::OutOfRange);
    }
    let start = identity.start;
    let count = identity.count;
    if buffer.len() < 12 + count {
        return Err(Unwritten::ShortBuffer);
    }
    buffer[0] = head;
    buffer[1] = message_type::IMMEDIATE_SETUP;
    buffer[2] = 16 * key;
    buffer[3] = 3;
    buffer[4] = classmark.first;
    buffer[5] = classmark.second;
    buffer[6] = classmark.third;
    buffer[7] = count as u8;
    copy_to(buffer, 8, source, start, count);
    put_reference(buffer, 8 + count, reference);
    Ok(12 + count)
}

// Table 8.4.
fn write_set_parameter(buffer: &mut [u8], head: u8, attributes: u8) -> Result<usize, Unwritten>
    ensures { Writes buffer.old (common_octets head (content_of [] (Message.SetParameter attributes))) (common_fits [] (Message.SetParameter attributes)) result buffer.new }
{
    if 16 <= attributes {
        return Err(Unwritten::OutOfRange);
    }
    if buffer.len() < 3 {
        return Err(Unwritten::ShortBuffer);
    }
    buffer[0] = head;
    buffer[1] = message_type::SET_PARAMETER;
    buffer[2] = attributes;
    Ok(3)
}

// Tables 8.5 and 8.9: a type and a reference.
fn write_reference(
    buffer: &mut [u8],
    head: u8,
    kind: u8,
    reference: Reference,
) -> Result<usize, Unwritten>
    ensures { Writes buffer.old (head ∷ kind ∷ reference_octets reference) true result buffer.new }
{
    if buffer.len() < 6 {
        return Err(Unwritten::ShortBuffer);
    }
    buffer[0] = head;
    buffer[1] = kind;
    buffer[2] = reference.first;
    buffer[3] = reference.second;
    buffer[4] = reference.third;
    buffer[5] = reference.fourth;
    Ok(6)
}

// A type and a cause behind its length octet.
fn put_counted(
    buffer: &mut [u8],
    source: &[u8],
    head: u8,
    kind: u8,
    cause: Run,
) -> Result<usize, Unwritten>
    requires { run_fits source.now cause 1 247 ≡ true }
    ensures { Writes buffer.old (head ∷ kind ∷ cause_octets source.now cause) true result buffer.new }
{
    let start = cause.start;
    let count = cause.count;
    if buffer.len() < 3 + count {
        return Err(Unwritten::ShortBuffer);
    }
    buffer[0] = head;
    buffer[1] = kind;
    buffer[2] = count as u8;
    copy_to(buffer, 3, source, start, count);
    Ok(3 + count)
}

// A type and the four octets of a cause.
fn put_four(
    buffer: &mut [u8],
    source: &[u8],
    head: u8,
    kind: u8,
    cause: Run,
) -> Result<usize, Unwritten>
    requires { run_fits source.now cause 4 4 ≡ true }
    ensures { Writes buffer.old (head ∷ kind ∷ run_octets source.now cause) true result buffer.new }
{
    let start = cause.start;
    let count = cause.count;
    if buffer.len() < 2 + count {
        return Err(Unwritten::ShortBuffer);
    }
    buffer[0] = head;
    buffer[1] = kind;
    copy_to(buffer, 2, source, start, count);
    Ok(2 + count)
}

// Table 8.7.
fn write_termination(
    buffer: &mut [u8],
    source: &[u8],
    head: u8,
    cause: Run,
) -> Result<usize, Unwritten>
    ensures { Writes buffer.old (common_octets head (content_of source.now (Message.Termination cause))) (common_fits source.now (Message.Termination cause)) result buffer.new }
{
    if !cause_fits(source, cause) {
        return Err(Unwritten::OutOfRange);
    }
    put_counted(buffer, source, head, message_type::TERMINATION, cause)
}

// Table 8.8.
fn write_reject(
    protocol: Protocol,
    buffer: &mut [u8],
    source: &[u8],
    head: u8,
    cause: Run,
) -> Result<usize, Unwritten>
    ensures { Writes buffer.old (body_octets protocol head (content_of source.now (Message.TerminationReject cause))) (body_fits protocol source.now (Message.TerminationReject cause)) result buffer.new }
{
    if !reject_fits(protocol, source, cause) {
        return Err(Unwritten::OutOfRange);
    }
    let kind = message_type::TERMINATION_REJECT;
    match protocol {
        Protocol::Broadcast => put_counted(buffer, source, head, kind, cause),
        Protocol::Group => put_four(buffer, source, head, kind, cause),
    }
}

// How many octets a STATUS takes, with a cause of `count`.
fn status_count(count: usize, state: Option<u8>, attributes: Option<u8>) -> usize
    requires { count ≤ 247 }
    ensures { result ≡ 3 + count + half_count state + half_count attributes }
{
    3 + count + half_count(state) + half_count(attributes)
}

// Table 8.6.
fn write_status(
    buffer: &mut [u8],
    source: &[u8],
    head: u8,
    cause: Run,
    state: Option<u8>,
    attributes: Option<u8>,
) -> Result<usize, Unwritten>
    ensures { Writes buffer.old (common_octets head (content_of source.now (Message.Status cause state attributes))) (common_fits source.now (Message.Status cause state attributes)) result buffer.new }
{
    if !status_fits(source, cause, state, attributes) {
        return Err(Unwritten::OutOfRange);
    }
    let start = cause.start;
    let count = cause.count;
    if buffer.len() < status_count(count, state, attributes) {
        return Err(Unwritten::ShortBuffer);
    }
    buffer[0] = head;
    buffer[1] = message_type::STATUS;
    buffer[2] = count as u8;
    copy_to(buffer, 3, source, start, count);
    let place = put_half(buffer, 3 + count, 0xa, state);
    let end = put_half(buffer, place, 0xb, attributes);
    Ok(end)
}

// The message behind its first octet, which is `head`.
pub(crate) fn write_body(
    protocol: Protocol,
    buffer: &mut [u8],
    source: &[u8],
    head: u8,
    message: Message,
) -> Result<usize, Unwritten>
    ensures { Writes buffer.old (body_octets protocol head (content_of source.now message)) (body_fits protocol source.now message) result buffer.new }
{
    match message {
        Message::Connect {
            reference,
            originator,
        } => write_connect(buffer, head, reference, originator),
        Message::GetStatus { identity } => write_get_status(buffer, source, head, identity),
        Message::ImmediateSetup {
            key,
            classmark,
            identity,
            reference,
        } => write_immediate_setup(buffer, source, head, key, classmark, identity, reference),
        Message::SetParameter { attributes } => write_set_parameter(buffer, head, attributes),
        Message::Setup { reference } => write_reference(
            buffer,
            head,
            message_type::SETUP,
            reference,
        ),
        Message::Status {
            cause,
            state,
            attributes,
        } => write_status(buffer, source, head, cause, state, attributes),
        Message::Termination { cause } => write_termination(buffer, source, head, cause),
        Message::TerminationReject { cause } => write_reject(protocol, buffer, source, head, cause),
        Message::TerminationRequest { reference } => write_reference(
            buffer,
            head,
            message_type::TERMINATION_REQUEST,
            reference,
        ),
    }
}
