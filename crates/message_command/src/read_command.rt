// The commands `read OCTETS` and `gread OCTETS` of the probe: what reading a message comes to, in numbers.
use crate::kinds::{TOO_LONG, UNREADABLE, row_of, rows};
use codes::protocol::Protocol;
use fields::malformed;
use fields::words::octets_word;
use forms::say_words;
use message_numbers::Numbers;
use text::output::Output;
use text::words::{finished, part};

// What reading comes to: a row of `kinds`, and what it says.
#[derive(Clone, Copy)]
struct Told {
    row: u8,
    record: [u8; 22],
}

pub fn answer_read(
    protocol: Protocol,
    line: &[u8],
    at: Option<usize>,
    octets: &mut [u8],
    buffer: &mut [u8],
    output: Output,
) -> Output {
    match octets_word(line, at, octets, 0) {
        Some((count, end)) if finished(line, Some(end)) => {
            say_reading(protocol, buffer, output, part(octets, 0, count))
        }
        _ => malformed(buffer, output),
    }
}

fn say_reading(protocol: Protocol, buffer: &mut [u8], output: Output, octets: &[u8]) -> Output {
    let rows = rows();
    let told = told_of(protocol, octets);
    say_words(
        buffer,
        output,
        row_of(&rows, told.row),
        &told.record,
        octets,
    )
}

fn told_of(protocol: Protocol, octets: &[u8]) -> Told {
    let read = message_numbers::read(protocol, octets);
    let message = read.message;
    let answer = (read.answer % 256) as u8;
    let fault = (read.fault % 256) as u8;
    let record = record_of(answer, fault, message);
    Told {
        row: row_for(answer, message.kind),
        record,
    }
}

// The row of an answer, of a message its type's.
fn row_for(answer: u8, kind: u8) -> u8 {
    match answer {
        0 => kind,
        6 => TOO_LONG,
        _ => UNREADABLE,
    }
}

// A place or a count in a message, which has at most 251 octets.
fn octet(number: usize) -> u8 {
    (number % 256) as u8
}

// What a row says.
fn record_of(answer: u8, fault: u8, message: Numbers) -> [u8; 22] {
    let classmark = message.classmark;
    let reference = message.reference;
    let state = message.state;
    let attributes = message.attributes;
    let identity = message.identity;
    let cause = message.cause;
    [
        answer,
        message.flag,
        message.value,
        message.key,
        3,
        classmark.first,
        classmark.second,
        classmark.third,
        octet(identity.count),
        octet(identity.start),
        reference.first,
        reference.second,
        reference.third,
        reference.fourth,
        message.originator,
        octet(cause.count),
        octet(cause.start),
        state.there,
        state.value,
        attributes.there,
        attributes.value,
        fault,
    ]
}
