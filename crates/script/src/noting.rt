// The name of a message that is received, and where the values of its fields stand. A field is NAME=VALUE or NAME VALUE, and the fields come in any order. Names are
// in lower case, or in upper case as `show` tells them.
ghost use Rattle.std.specs.Prelude.{◌≤◌, length, IfSome};

use crate::names::place_among;
use crate::words::{Word, text_of, word_from};
use crate::{Fault, Unfit, Wrong, mode_named};
use codes::message_type;
use text::words::{find, part};

// The messages that a network sends to a radio; three of them may be told in two words.
const MESSAGES: [u8; 63] = *b"connect termination termination-reject get-status set-parameter";

const UPPER_MESSAGES: [u8; 63] =
    *b"CONNECT TERMINATION TERMINATION-REJECT GET-STATUS SET-PARAMETER";

const FIRST_WORDS: [u8; 39] = *b"termination get set TERMINATION GET SET";

const SECOND_WORDS: [u8; 47] = *b"reject status parameter REJECT STATUS PARAMETER";

const FIELDS: [u8; 68] = *b"value flag cause reference originator identity orig comm d-att u-att";

const UPPER_FIELDS: [u8; 68] =
    *b"VALUE FLAG CAUSE REFERENCE ORIGINATOR IDENTITY ORIG COMM D-ATT U-ATT";

// The places of these among them; the mode is its own value.
pub(crate) const VALUE: usize = 1;

pub(crate) const FLAG: usize = 2;

pub(crate) const CAUSE: usize = 3;

pub(crate) const REFERENCE: usize = 4;

pub(crate) const ORIGINATOR: usize = 5;

pub(crate) const IDENTITY: usize = 6;

pub(crate) const ORIG: usize = 7;

pub(crate) const COMM: usize = 8;

pub(crate) const DATT: usize = 9;

pub(crate) const UATT: usize = 10;

pub(crate) const MODE: usize = 11;

// The type of the message at a place among the names.
fn kind_at(place: u8) -> Option<u8> {
    match place {
        1 => Some(message_type::CONNECT),
        2 => Some(message_type::TERMINATION),
        3 => Some(message_type::TERMINATION_REJECT),
        4 => Some(message_type::GET_STATUS),
        5 => Some(message_type::SET_PARAMETER),
        _ => None,
    }
}

fn kind_of_one(name: &[u8]) -> Option<u8> {
    let place = place_among(&MESSAGES, name).or(place_among(&UPPER_MESSAGES, name))?;
    kind_at(place)
}

fn kind_of_two(first: &[u8], second: &[u8]) -> Option<u8> {
    let place = place_among(&FIRST_WORDS, first)?;
    if place != place_among(&SECOND_WORDS, second)? {
        return None;
    }
    match place {
        1 | 4 => Some(message_type::TERMINATION_REJECT),
        2 | 5 => Some(message_type::GET_STATUS),
        3 | 6 => Some(message_type::SET_PARAMETER),
        _ => None,
    }
}

// The type of the message that the words from `from` on name, and the place behind its name.
pub(crate) fn name_at(line: &[u8], from: usize) -> Option<(u8, usize)>
    requires { from ≤ length line.now }
    ensures { IfSome result (λ named. named.1 ≤ length line.now) }
{
    let word = word_from(line, from)?;
    let first = text_of(line, Some(word));
    if let Some(behind) = word_from(line, word.next) {
        if let Some(kind) = kind_of_two(first, text_of(line, Some(behind))) {
            return Some((kind, behind.next));
        }
    }
    let kind = kind_of_one(first)?;
    Some((kind, word.next))
}

// The field that a word begins.
fn field_named(word: &[u8]) -> Option<usize> {
    if mode_named(word).is_some() {
        return Some(MODE);
    }
    let name = part(word, 0, find(word, b'='));
    let place = place_among(&FIELDS, name).or(place_among(&UPPER_FIELDS, name))?;
    Some(usize::from(place))
}

// Whether a message of a type has the field: the transaction and the mode are every message's.
fn belongs(field: usize, kind: u8) -> bool {
    match field {
        VALUE | FLAG | MODE => true,
        CAUSE => (kind == message_type::TERMINATION) | (kind == message_type::TERMINATION_REJECT),
        REFERENCE | ORIGINATOR => kind == message_type::CONNECT,
        IDENTITY => kind == message_type::GET_STATUS,
        ORIG | COMM | DATT | UATT => kind == message_type::SET_PARAMETER,
        _ => false,
    }
}

// What is wrong where a field's value can't be read.
fn fault_of(field: usize) -> Fault {
    match field {
        VALUE => Fault::Value,
        FLAG => Fault::Named(Unfit::Flag),
        CAUSE => Fault::Named(Unfit::Cause),
        REFERENCE => Fault::Reference,
        IDENTITY => Fault::Named(Unfit::Identity),
        _ => Fault::Named(Unfit::Truth),
    }
}

// The value of the field that a word begins: what stands behind its `=`, or else the next word.
fn value_of(line: &[u8], word: Word, field: usize) -> Option<Word>
    requires { word.next ≤ length line.now }
    ensures { IfSome result (λ value. (word.next ≤ value.next) × (value.next ≤ length line.now)) }
{
    if field == MODE {
        return Some(word);
    }
    let name = find(text_of(line, Some(word)), b'=');
    if word.count <= name {
        return word_from(line, word.next);
    }
    let count = word.count - name - 1;
    if count == 0 {
        return None;
    }
    Some(Word {
        start: word.start.wrapping_add(name).wrapping_add(1),
        count,
        next: word.next,
    })
}

// Notes the value of a field of a message, which has been noted nowhere yet.
fn note(
    noted: &mut [Option<Word>; 12],
    kind: u8,
    field: usize,
    word: Word,
    value: Word,
) -> Result<(), Wrong> {
    if 11 < field {
        return Err(Wrong {
            fault: Fault::Named(Unfit::Field(kind)),
            word: Some(word),
        });
    }
    if noted[field].is_some() {
        return Err(Wrong {
            fault: Fault::Named(Unfit::Again),
            word: Some(word),
        });
    }
    noted[field] = Some(value);
    Ok(())
}

// The field that a word begins, which messages of a type have.
fn field_of(kind: u8, line: &[u8], word: Word) -> Result<usize, Wrong> {
    match field_named(text_of(line, Some(word))) {
        Some(field) if belongs(field, kind) => Ok(field),
        _ => Err(Wrong {
            fault: Fault::Named(Unfit::Field(kind)),
            word: Some(word),
        }),
    }
}

// Notes the values of all fields from `from` on, each at its field's place in `noted`.
pub(crate) fn note_fields(
    line: &[u8],
    from: usize,
    kind: u8,
    noted: &mut [Option<Word>; 12],
) -> Result<(), Wrong>
    requires { from ≤ length line.now }
{
    let mut at = from;
    // Steps by what a field takes, which is a word or two.
    while let Some(word) = word_from(line, at) {
        let field = field_of(kind, line, word)?;
        let Some(value) = value_of(line, word, field) else {
            return Err(Wrong {
                fault: fault_of(field),
                word: Some(word),
            });
        };
        note(noted, kind, field, word, value)?;
        at = value.next;
    }
    Ok(())
}

// A mode may stand before the message's name as well; answers the place behind it.
pub(crate) fn note_mode(line: &[u8], from: usize, noted: &mut [Option<Word>; 12]) -> usize
    requires { from ≤ length line.now }
    ensures { result ≤ length line.now }
{
    match word_from(line, from) {
        Some(word) if mode_named(text_of(line, Some(word))).is_some() => {
            noted[MODE] = Some(word);
            word.next
        }
        _ => from,
    }
}
