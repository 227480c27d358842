// The commands `record` and `grecord` of the probe: a log's bytes and an entry in numbers, the log's bytes afterwards.
#![tactic(auto)]

ghost use Rattle.std.specs.Prelude.{◌≤◌, length};

use fields::malformed;
use fields::words::{number_word, octets_word, reference_word};
use log_entry::Reference;
use recorder::Refusal;
use recorder_size::{Claims, TimedEvent};
use saying::{say, say_decimal, say_hex};
use text::output::{Output, put};
use text::words::{finished, part};
use version::Table;

// The greatest number that a word may have.
const MOST: u64 = 4294967295;

// The octets of a message or a reply, as places behind the log's.
#[derive(Clone, Copy)]
struct Place {
    start: usize,
    count: usize,
}

// What a line tells. The log is the first `size` of the lent octets.
#[derive(Clone, Copy)]
struct Told {
    size: usize,
    used: usize,
    happened: TimedEvent,
    heard: Place,
    claims: Claims,
    sent: Place,
}

// DELTA EVENT ETV EREF MODE.
fn happened_word(line: &[u8], at: usize) -> Option<(TimedEvent, usize)> {
    let (delta, at) = number_word(line, Some(at), MOST)?;
    let (event, at) = number_word(line, Some(at), MOST)?;
    let (value, at) = number_word(line, Some(at), MOST)?;
    let (reference, at) = reference_word(line, Some(at))?;
    let (mode, at) = number_word(line, Some(at), MOST)?;
    let happened = TimedEvent {
        delta: delta as u32,
        event: event as u32,
        value: value as u32,
        reference,
        mode: mode as u32,
    };
    Some((happened, at))
}

// ANSWER STATE PARAMS ACTIONS.
fn claims_word(line: &[u8], at: usize) -> Option<(Claims, usize)> {
    let (answer, at) = number_word(line, Some(at), MOST)?;
    let (state, at) = number_word(line, Some(at), MOST)?;
    let (parameters, at) = number_word(line, Some(at), MOST)?;
    let (actions, at) = number_word(line, Some(at), MOST)?;
    let claims = Claims {
        answer: answer as u32,
        state: state as u32,
        parameters: parameters as u32,
        actions: actions as u32,
    };
    Some((claims, at))
}

// Octets that are put behind the first `start` of the lent ones.
fn place_word(line: &[u8], at: usize, octets: &mut [u8], start: usize) -> Option<(Place, usize)> {
    let (count, next) = octets_word(line, Some(at), octets, start)?;
    Some((Place { start, count }, next))
}

// The first octets of a run, at most 256: a longer one is refused whatever it holds.
fn first_octets(octets: &[u8], place: Place, few: &mut [u8]) -> usize {
    let count = place.count.min(few.len());
    put(few, Output { at: 0 }, part(octets, place.start, count));
    count
}

// BUF USED DELTA EVENT ETV EREF MODE OCTETS ANSWER STATE PARAMS ACTIONS REPLY, which are the whole line.
fn take_fields(line: &[u8], at: Option<usize>, octets: &mut [u8]) -> Option<Told> {
    let (size, at) = octets_word(line, at, octets, 0)?;
    let (used, at) = number_word(line, Some(at), MOST)?;
    let (happened, at) = happened_word(line, at)?;
    let (heard, at) = place_word(line, at, octets, size)?;
    let (claims, at) = claims_word(line, at)?;
    let (sent, at) = place_word(line, at, octets, size.wrapping_add(heard.count))?;
    if !finished(line, Some(at)) {
        return None;
    }
    Some(Told {
        size,
        used: used as usize,
        happened,
        heard,
        claims,
        sent,
    })
}

// `record` and its fields, and `grecord`, by the table of the one and of the other.
pub fn answer_record(
    table: Table,
    line: &[u8],
    at: Option<usize>,
    octets: &mut [u8],
    buffer: &mut [u8],
    output: Output,
) -> Output {
    match take_fields(line, at, octets) {
        Some(told) if told.size <= octets.len() => {
            say_recorded(table, buffer, output, octets, told)
        }
        _ => malformed(buffer, output),
    }
}

fn say_recorded(
    table: Table,
    buffer: &mut [u8],
    output: Output,
    octets: &mut [u8],
    told: Told,
) -> Output
    requires { told.size ≤ length octets.old }
{
    let mut message = [0u8; 256];
    let received = first_octets(octets, told.heard, &mut message);
    let mut reply = [0u8; 256];
    let replied = first_octets(octets, told.sent, &mut reply);
    let recorded = recorder::record_entry(
        table,
        &mut octets[0..told.size],
        told.used,
        told.happened,
        part(&message, 0, received),
        told.claims,
        part(&reply, 0, replied),
    );
    say_answer(buffer, output, recorded, part(octets, 0, told.size))
}

fn say_answer(
    buffer: &mut [u8],
    output: Output,
    recorded: Result<usize, Refusal>,
    log: &[u8],
) -> Output {
    match recorded {
        Err(Refusal::OutOfRange) => say(buffer, output, b"4\n"),
        Err(Refusal::TooLong) => say(buffer, output, b"10\n"),
        Err(Refusal::NoRoom) => say(buffer, output, b"11\n"),
        Ok(total) => {
            let answer = say(buffer, output, b"0 ");
            let count = say_decimal(buffer, answer, total as u64);
            let space = say(buffer, count, b" ");
            let whole = say_hex(buffer, space, log);
            say(buffer, whole, b"\n")
        }
    }
}
