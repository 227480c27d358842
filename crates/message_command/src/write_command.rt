// The commands `write BUFLEN FLAG TV KIND FIELDS..` and `gwrite BUFLEN FLAG TV KIND FIELDS..` of the probe: what writing a message comes to, in numbers and
// octets.
use crate::kinds::{kind_named, row_of, rows};
use codes::message_type;
use codes::protocol::Protocol;
use fields::malformed;
use forms::{say_words, take_words, up_to};
use message_numbers::{Four, Numbers, NumbersWritten, Optional, Place, Three};
use text::output::Output;
use text::words::{finished, next_word, part, word_at};

pub fn answer_write(
    protocol: Protocol,
    line: &[u8],
    at: Option<usize>,
    octets: &mut [u8],
    buffer: &mut [u8],
    output: Output,
) -> Output {
    let mut record = [0u8; 36];
    let Some(kind) = take_fields(line, at, &mut record, octets) else {
        return malformed(buffer, output);
    };
    let message = numbers_of(kind, &record);
    say_written(protocol, message, record[0], octets, buffer, output)
}

// The kind of the message that the whole line spells, whose fields are put into the record.
fn take_fields(
    line: &[u8],
    at: Option<usize>,
    record: &mut [u8; 36],
    octets: &mut [u8],
) -> Option<u8> {
    let rows = rows();
    let kind = kind_at(&rows, line, at)?;
    let end = take_words(line, at, row_of(&rows, kind), record, octets)?;
    if !finished(line, Some(end)) {
        return None;
    }
    Some(kind)
}

// The kind stands behind three words.
fn kind_at(rows: &[u8; 528], line: &[u8], at: Option<usize>) -> Option<u8> {
    let room = next_word(line, at)?;
    let flag = word_at(line, room.next)?;
    let value = word_at(line, flag.next)?;
    let kind = word_at(line, value.next)?;
    kind_named(rows, part(line, kind.start, kind.count))
}

// A classmark that has no three octets can't be held by the numbers of a message: they are of no kind then.
fn kind_with(kind: u8, mark: u8) -> u8 {
    if (kind == message_type::IMMEDIATE_SETUP) & (mark != 3) {
        return 0;
    }
    kind
}

fn place_of(count: u8) -> Place {
    Place {
        start: 0,
        count: count as usize,
    }
}

// What a row takes, as numbers.
fn numbers_of(kind: u8, record: &[u8; 36]) -> Numbers {
    Numbers {
        kind: kind_with(kind, record[4]),
        flag: record[1],
        value: record[2],
        key: record[3],
        classmark: Three {
            first: record[5],
            second: record[6],
            third: record[7],
        },
        reference: Four {
            first: record[10],
            second: record[11],
            third: record[12],
            fourth: record[13],
        },
        originator: record[14],
        state: Optional {
            there: record[17],
            value: record[18],
        },
        attributes: Optional {
            there: record[19],
            value: record[20],
        },
        identity: place_of(record[8]),
        cause: place_of(record[15]),
    }
}

// Of the lent buffer no more than 255 octets matter.
fn written(
    protocol: Protocol,
    message: Numbers,
    length: u8,
    octets: &[u8],
    reply: &mut [u8],
) -> NumbersWritten {
    let room = up_to(length, reply.len());
    message_numbers::write(protocol, &mut reply[0..room], octets, message)
}

// Writes the message, and says what that comes to.
fn say_written(
    protocol: Protocol,
    message: Numbers,
    length: u8,
    octets: &[u8],
    buffer: &mut [u8],
    output: Output,
) -> Output {
    let mut reply = [0u8; 255];
    let written = written(protocol, message, length, octets, &mut reply);
    say_reply(buffer, output, written, &reply)
}

fn say_reply(
    buffer: &mut [u8],
    output: Output,
    written: NumbersWritten,
    reply: &[u8; 255],
) -> Output {
    let answer = (written.answer % 256) as u8;
    let count = (written.length % 256) as u8;
    let record = [answer, count, 0];
    if answer == 0 {
        return say_words(buffer, output, b"8 O\n", &record, reply);
    }
    say_words(buffer, output, b"8\n", &record, reply)
}
