// The command `judge` of the probe: settings and a log's bytes, the verdict in numbers.
#![tactic(auto)]

use fields::malformed;
use fields::words::octets_word;
use forms::take_words;
use saying::{say, say_decimal};
use step_command::settings_of;
use text::output::Output;
use text::words::{finished, part};
use timer::Window;
use verdict::{Invitation, Judged};

// `judge CKSN CLASSMARK IDENTITY LOG`. The words before the log stand in a record where `step` has them.
pub fn answer_judge(
    line: &[u8],
    at: Option<usize>,
    octets: &mut [u8],
    buffer: &mut [u8],
    output: Output,
) -> Output {
    let mut record = [0u8; 36];
    let Some(size) = take_log(line, at, &mut record, octets) else {
        return malformed(buffer, output);
    };
    let settings = settings_of(&record);
    let judged = judged_by(&settings, part(octets, 0, size));
    say_judged(buffer, output, judged)
}

// How many octets the log has at the start of the lent ones, whose line it ends.
fn take_log(
    line: &[u8],
    at: Option<usize>,
    record: &mut [u8; 36],
    octets: &mut [u8],
) -> Option<usize> {
    let told = take_words(line, at, b"...........8MI", record, octets)?;
    let (size, end) = octets_word(line, Some(told), octets, 0)?;
    if !finished(line, Some(end)) {
        return None;
    }
    Some(size)
}

fn judged_by(settings: &[u8; 21], log: &[u8]) -> Judged {
    let own = settings_octets::own_of(settings);
    let run = settings_octets::identity_run(settings);
    let start = run.start;
    let count = run.count;
    judge::judge(own, part(settings, start, count), log)
}

fn say_judged(buffer: &mut [u8], output: Output, judged: Judged) -> Output {
    match judged {
        Judged::TooLong => say(buffer, output, b"10\n"),
        Judged::OutOfRange => say(buffer, output, b"4\n"),
        Judged::Unreadable(entry) => say_entry(buffer, output, b"8 ", entry),
        Judged::Unexplained(entry) => say_entry(buffer, output, b"9 ", entry),
        Judged::Accepted(entries, joining, invitation) => {
            let count = say_part(buffer, output, b"0 ", entries as u64);
            let first = say_window(buffer, count, joining);
            let both = say_invitation(buffer, first, invitation);
            say(buffer, both, b"\n")
        }
    }
}

// The invitation timers, where the log's version has them.
fn say_invitation(buffer: &mut [u8], output: Output, invitation: Invitation) -> Output {
    match invitation {
        Invitation::Untold => output,
        Invitation::Told(window) => say_window(buffer, output, window),
    }
}

// The least and the greatest of the timers that explain the log.
fn say_window(buffer: &mut [u8], output: Output, window: Window) -> Output {
    let least = say_part(buffer, output, b" ", window.least);
    say_part(buffer, least, b" ", window.greatest)
}

fn say_entry(buffer: &mut [u8], output: Output, answer: &[u8], entry: usize) -> Output {
    let number = say_part(buffer, output, answer, entry as u64);
    say(buffer, number, b"\n")
}

// A number and what stands before it.
pub fn say_part(buffer: &mut [u8], output: Output, before: &[u8], number: u64) -> Output {
    let start = say(buffer, output, before);
    say_decimal(buffer, start, number)
}
