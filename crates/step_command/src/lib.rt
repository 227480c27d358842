// The commands `step` and `gstep` of the probe: a context, the settings and an event as the octets and numbers that the library for C has of them, and the step's
// outcome likewise.
#![tactic(auto)]

use codes::protocol::Protocol;
use fields::malformed;
use forms::{say_words, take_words, up_to};
use octets::copy_to;
use step_numbers::{Occurrence, Step};
use text::output::Output;
use text::words::{finished, part};
use version::Table;

// Forms stand in rows of so many characters, a broadcast call's before a group call's.
const ROW: usize = 24;

fn row_of(table: Table) -> usize {
    match version::protocol(table) {
        Protocol::Broadcast => 0,
        Protocol::Group => ROW,
    }
}

// `step CONTEXT.. CKSN CLASSMARK IDENTITY BUFLEN EVENT ETV EREF MODE OCTETS`, and `gstep`, by the table of the one and of the other.
pub fn answer_step(
    table: Table,
    line: &[u8],
    at: Option<usize>,
    octets: &mut [u8],
    buffer: &mut [u8],
    output: Output,
) -> Output {
    let mut record = [0u8; 36];
    match take_step_words(row_of(table), line, at, &mut record, octets) {
        Some(end) if finished(line, Some(end)) => say_step(table, &record, octets, buffer, output),
        _ => malformed(buffer, output),
    }
}

// The record: 0 to 8 STATE PARAMS TIMERS TV REF FROM, which are a context's first octets, 9 and 10 CHOOSER PENDING, which a group call alone has; 11 to 23 CKSN
// CLASSMARK IDENTITY, which are the settings' octets; 24 BUFLEN, 25 EVENT, 26 ETV, 27 to 30 EREF, 31 MODE, 32 and 33 OCTETS. A group call has no T_pres among its
// timers.
fn take_step_words(
    row: usize,
    line: &[u8],
    at: Option<usize>,
    record: &mut [u8; 36],
    octets: &mut [u8],
) -> Option<usize> {
    let forms = *b"8458R8..8MILL8R8O.......\
        8448R8838MILL8R8O.......";
    take_words(line, at, part(&forms, row, ROW), record, octets)
}

// 16 a value awaited + 8 a STATUS pending + 4 a termination request pending + who chose the value, of which 3 and more are nobody.
fn talk_octet(chooser: u8, pending: u8) -> u8 {
    let waits = 16 * (pending % 2) + 8 * (pending / 2 % 2) + 4 * (pending / 4 % 2);
    if chooser < 3 {
        return waits + chooser;
    }
    waits + 3
}

// Numbers that are no context come back as they were given, so where the octet tells nobody, it is who was `given`.
fn chooser_of(talk: u8, given: u8) -> u8 {
    if talk % 4 == 3 {
        return given;
    }
    talk % 4
}

fn pending_of(talk: u8) -> u8 {
    4 * (talk / 4 % 2) + 2 * (talk / 8 % 2) + talk / 16 % 2
}

fn number_of(octet: u8) -> u32 {
    octet as u32
}

fn occurrence_of(record: &[u8; 36]) -> Occurrence {
    Occurrence {
        number: number_of(record[25]),
        value: record[26],
        mode: record[31],
        first: record[27],
        second: record[28],
        third: record[29],
        fourth: record[30],
    }
}

fn context_of(record: &[u8; 36]) -> [u8; 16] {
    let mut context = [0u8; 16];
    copy_to(&mut context, 0, record, 0, 9);
    context[9] = talk_octet(record[9], record[10]);
    context
}

// Neither a step nor a judgement asks for the timers.
pub fn settings_of(record: &[u8; 36]) -> [u8; 21] {
    let mut settings = [0u8; 21];
    copy_to(&mut settings, 0, record, 11, 13);
    settings
}

// Only whether the lent buffer has 255 octets matters, so no more are lent.
fn stepped(
    table: Table,
    record: &[u8; 36],
    octets: &[u8],
    context: &mut [u8; 16],
    reply: &mut [u8],
) -> Step {
    let settings = settings_of(record);
    let event = occurrence_of(record);
    let room = up_to(record[24], reply.len());
    let count = up_to(record[32], 255);
    step_numbers::take_step(
        table,
        context,
        &settings,
        event,
        part(octets, 0, count),
        &mut reply[0..room],
    )
}

fn say_step(
    table: Table,
    record: &[u8; 36],
    octets: &[u8],
    buffer: &mut [u8],
    output: Output,
) -> Output {
    let mut context = context_of(record);
    let mut reply = [0u8; 255];
    let step = stepped(table, record, octets, &mut context, &mut reply);
    let outcome = outcome_of(&context, record[9], step);
    say_outcome(row_of(table), buffer, output, &outcome, &reply)
}

fn octet(number: u32) -> u8 {
    (number % 256) as u8
}

// ANSWER, the context, ACTIONS, the reply's count and place, REASON.
fn outcome_of(context: &[u8; 16], given: u8, step: Step) -> [u8; 16] {
    let mut outcome = [0u8; 16];
    copy_to(&mut outcome, 1, context, 0, 9);
    outcome[0] = octet(step.answer);
    outcome[10] = chooser_of(context[9], given);
    outcome[11] = pending_of(context[9]);
    outcome[12] = octet(step.actions);
    outcome[13] = (step.count % 256) as u8;
    outcome[15] = octet(step.reason);
    outcome
}

fn say_outcome(
    at: usize,
    buffer: &mut [u8],
    output: Output,
    outcome: &[u8; 16],
    reply: &[u8; 255],
) -> Output {
    let forms = *b"8 8 8 8 8 R 8 ..8 O 8..\n\
        8 8 8 8 8 R 8 8 8 8 O 8\n";
    say_words(buffer, output, part(&forms, at, ROW), outcome, reply)
}
