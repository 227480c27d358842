// A script of events, from which a log is made: one line of it, read. A line is TIME EVENT [DATA..], its words parted by one or more spaces; or, before the first
// event, `call broadcast` or `call group`. What stands from a # on, at the line's start or behind a space, says nothing, and so does a line without words.
#![tactic(auto)]

mod clock;
mod composing;
mod joined;
mod named;
pub mod names;
mod noting;
pub mod words;

ghost use Rattle.std.specs.Prelude.{◌≤◌, length};

use clock::time_of;
use codes::event;
use codes::protocol::Protocol;
use joined::join;
use log_entry::Reference;
use named::read_named;
use names::event_named;
use text::decimal::number_of;
use text::hex::read_hex;
use text::words::{find, part};
use words::{Word, text_of, wanted_word, word_from};

const TAB: u8 = 9;

const SPACE: u8 = 32;

// An event of a script: its time in milliseconds from the start, its number, and what it carries; what it does not carry is 0. The octets of
// a message are the first `count` of the buffer that is lent for them.
#[derive(Clone, Copy)]
pub struct Told {
    pub time: u64,
    pub event: u8,
    pub value: u8,
    pub reference: Reference,
    pub mode: u8,
    pub count: usize,
}

// The call that the script's radio is in, of which a message by its name takes what the line leaves out: whether there is one; the transaction value, and the flag
// that the radio expects; the call reference; and the state attributes.
#[derive(Clone, Copy)]
pub struct Call {
    pub on: bool,
    pub value: u8,
    pub flag: bool,
    pub reference: Reference,
    pub attributes: u8,
}

// What can't be read: the word of that name; what a message by its name needs; a character that is no hexadecimal digit; a last octet that is half there; more than 512 octets, or than the
// buffer has; a word behind the last; a tab.
#[derive(Clone, Copy)]
pub enum Fault {
    Kind,
    Time,
    Event,
    Value,
    Reference,
    Mode,
    Named(Unfit),
    Digit,
    HalfOctet,
    TooLong,
    Surplus,
    Tab,
}

// What can't be read of a message by its name: the word of that name; the transaction value, where the radio is in no call that has one; a parameter, where none is
// given; a field that a message of this type does not have; a field that stands on the line already.
#[derive(Clone, Copy)]
pub enum Unfit {
    Message,
    Flag,
    Cause,
    Identity,
    Truth,
    NoCall,
    Parameter,
    Field(u8),
    Again,
}

// What is wrong with a line, and at which word; at none where the line ends too early.
#[derive(Clone, Copy)]
pub struct Wrong {
    pub fault: Fault,
    pub word: Option<Word>,
}

// What a line is.
#[derive(Clone, Copy)]
pub enum Line {
    Nothing,
    Call(Protocol),
    Event(Told),
}

// The line without the carriage return that files from Windows have before each line feed.
fn without_return(line: &[u8]) -> &[u8] {
    match line {
        [text @ .., b'\r'] => text,
        _ => line,
    }
}

// Where a comment begins, or the line's end.
fn comment_at(line: &[u8]) -> usize {
    let mut before = SPACE;
    for (at, character) in line.iter().enumerate() {
        if *character == b'#' && before == SPACE {
            return at;
        }
        before = *character;
    }
    line.len()
}

// Reads a line of a script for a radio in this call, of this protocol. It has no line feed. The octets of a message are put over the start of `octets`.
pub fn read_line(
    protocol: Protocol,
    call: Call,
    line: &[u8],
    octets: &mut [u8],
) -> Result<Line, Wrong> {
    let whole = without_return(line);
    let text = part(whole, 0, comment_at(whole));
    let Some(word) = word_from(text, 0) else {
        return Ok(Line::Nothing);
    };
    without_tab(text)?;
    let first = text_of(text, Some(word));
    if let b"call" = first {
        return read_kind(text, word.next);
    }
    let Some(time) = time_of(first) else {
        return Err(Wrong {
            fault: Fault::Time,
            word: Some(word),
        });
    };
    let told = read_event(protocol, call, text, word.next, time, octets)?;
    Ok(Line::Event(told))
}

fn without_tab(text: &[u8]) -> Result<(), Wrong> {
    let start = find(text, TAB);
    if start == text.len() {
        return Ok(());
    }
    Err(Wrong {
        fault: Fault::Tab,
        word: Some(Word {
            start,
            count: 1,
            next: start,
        }),
    })
}

// The kind of call that a script is of.
fn read_kind(line: &[u8], from: usize) -> Result<Line, Wrong>
    requires { from ≤ length line.now }
{
    let word = wanted_word(line, from, Fault::Kind)?;
    nothing_behind(line, word.next)?;
    match text_of(line, Some(word)) {
        b"broadcast" => Ok(Line::Call(Protocol::Broadcast)),
        b"group" => Ok(Line::Call(Protocol::Group)),
        _ => Err(Wrong {
            fault: Fault::Kind,
            word: Some(word),
        }),
    }
}

// The event's name and what stands behind it.
fn read_event(
    protocol: Protocol,
    call: Call,
    line: &[u8],
    from: usize,
    time: u64,
    octets: &mut [u8],
) -> Result<Told, Wrong>
    requires { from ≤ length line.now }
{
    let word = wanted_word(line, from, Fault::Event)?;
    let name = text_of(line, Some(word));
    if let b"receive" = name {
        return read_named(protocol, call, line, word.next, time, octets);
    }
    let Some(event) = event_named(protocol, name) else {
        return Err(Wrong {
            fault: Fault::Event,
            word: Some(word),
        });
    };
    let reference = Reference {
        first: 0,
        second: 0,
        third: 0,
        fourth: 0,
    };
    let told = Told {
        time,
        event,
        value: 0,
        reference,
        mode: 0,
        count: 0,
    };
    if log_entry::carries_call(event as u32) {
        return read_value(line, word.next, told);
    }
    if event == event::RECEIVED {
        return read_mode(line, word.next, told, octets);
    }
    nothing_behind(line, word.next)?;
    Ok(told)
}

// Nothing may stand behind the last word.
fn nothing_behind(line: &[u8], from: usize) -> Result<(), Wrong>
    requires { from ≤ length line.now }
{
    match word_from(line, from) {
        None => Ok(()),
        word => Err(Wrong {
            fault: Fault::Surplus,
            word,
        }),
    }
}

// What stands behind the start of a word; nothing where the word starts otherwise.
fn behind_start<'a>(line: &'a [u8], word: Word, start: &[u8]) -> &'a [u8] {
    text_of(line, Some(word))
        .strip_prefix(start)
        .unwrap_or(part(line, 0, 0))
}

// `value=N`, and the reference behind it.
fn read_value(line: &[u8], from: usize, told: Told) -> Result<Told, Wrong>
    requires { from ≤ length line.now }
{
    let word = wanted_word(line, from, Fault::Value)?;
    let Some(number) = number_of(behind_start(line, word, b"value="), 255) else {
        return Err(Wrong {
            fault: Fault::Value,
            word: Some(word),
        });
    };
    let mut valued = told;
    valued.value = number as u8;
    read_reference(line, word.next, valued)
}

// `reference=` and 8 hexadecimal digits.
fn read_reference(line: &[u8], from: usize, told: Told) -> Result<Told, Wrong>
    requires { from ≤ length line.now }
{
    let word = wanted_word(line, from, Fault::Reference)?;
    let Some(reference) = four_octets(behind_start(line, word, b"reference=")) else {
        return Err(Wrong {
            fault: Fault::Reference,
            word: Some(word),
        });
    };
    nothing_behind(line, word.next)?;
    let mut called = told;
    called.reference = reference;
    Ok(called)
}

// The call reference that 8 hexadecimal digits spell.
pub(crate) fn four_octets(text: &[u8]) -> Option<Reference> {
    let mut four = [0u8; 4];
    let count = read_hex(text, true, &mut four, 0)?;
    if count != 4 {
        return None;
    }
    Some(Reference {
        first: four[0],
        second: four[1],
        third: four[2],
        fourth: four[3],
    })
}

// The mode of a message by its name.
pub(crate) fn mode_named(name: &[u8]) -> Option<u8> {
    match name {
        b"acknowledged" => Some(0),
        b"unacknowledged" => Some(1),
        _ => None,
    }
}

// `acknowledged` or `unacknowledged`, and the octets behind it.
fn read_mode(line: &[u8], from: usize, told: Told, octets: &mut [u8]) -> Result<Told, Wrong>
    requires { from ≤ length line.now }
{
    let word = wanted_word(line, from, Fault::Mode)?;
    let Some(mode) = mode_named(text_of(line, Some(word))) else {
        return Err(Wrong {
            fault: Fault::Mode,
            word: Some(word),
        });
    };
    let mut heard = told;
    heard.mode = mode;
    heard.count = join(line, word.next, octets)?;
    Ok(heard)
}
