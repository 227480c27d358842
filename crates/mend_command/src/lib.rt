// The command `mend` of the probe: settings, the length of a copy buffer and a log's bytes; what was kept and dropped, what ended it, and the copy.
#![tactic(auto)]

use fields::malformed;
use fields::words::{number_word, octets_word};
use forms::take_words;
use judge_command::say_part;
use mend::{Ending, Mended, Report};
use saying::{say, say_hex};
use step_command::settings_of;
use text::output::Output;
use text::words::{finished, part};

// `mend CKSN CLASSMARK IDENTITY COPYLEN LOG`. The words before the copy's length stand in a record where `step` has them.
pub fn answer_mend(
    line: &[u8],
    at: Option<usize>,
    octets: &mut [u8],
    buffer: &mut [u8],
    output: Output,
) -> Output {
    let mut record = [0u8; 36];
    let Some((length, size)) = take_lengths(line, at, &mut record, octets) else {
        return malformed(buffer, output);
    };
    let settings = settings_of(&record);
    say_copy(
        &settings,
        length as usize,
        part(octets, 0, size),
        buffer,
        output,
    )
}

// The copy's length, and how many octets the log has at the start of the lent ones, whose line it ends.
fn take_lengths(
    line: &[u8],
    at: Option<usize>,
    record: &mut [u8; 36],
    octets: &mut [u8],
) -> Option<(u64, usize)> {
    let told = take_words(line, at, b"...........8MI", record, octets)?;
    let (length, log) = number_word(line, Some(told), 4294967295)?;
    let (size, end) = octets_word(line, Some(log), octets, 0)?;
    if !finished(line, Some(end)) {
        return None;
    }
    Some((length, size))
}

// Mends the log, and says what that comes to.
fn say_copy(
    settings: &[u8; 21],
    length: usize,
    log: &[u8],
    buffer: &mut [u8],
    output: Output,
) -> Output {
    let mut copy = io::large_buffer();
    let mended = mended_by(settings, length, log, &mut copy);
    say_mended(buffer, output, mended, &copy)
}

// Of a copy buffer no more octets matter than the longest log has.
fn mended_by(settings: &[u8; 21], length: usize, log: &[u8], copy: &mut [u8]) -> Mended {
    let own = settings_octets::own_of(settings);
    let run = settings_octets::identity_run(settings);
    let start = run.start;
    let count = run.count;
    let room = length.min(copy.len());
    mend::mend(own, part(settings, start, count), log, &mut copy[0..room])
}

fn say_mended(buffer: &mut [u8], output: Output, mended: Mended, copy: &[u8]) -> Output {
    match mended {
        Mended::TooLong => say(buffer, output, b"10\n"),
        Mended::OutOfRange => say(buffer, output, b"4\n"),
        Mended::NoRoom => say(buffer, output, b"5\n"),
        Mended::Done(report) => say_done(buffer, output, report, copy),
    }
}

fn say_done(buffer: &mut [u8], output: Output, report: Report, copy: &[u8]) -> Output {
    let kept = say_part(buffer, output, b"0 ", report.kept as u64);
    let dropped = say_part(buffer, kept, b" ", report.dropped as u64);
    let ending = report.ending;
    let ended = say_ending(buffer, dropped, ending);
    let length = report.length;
    let copied = say_hex(buffer, ended, part(copy, 0, length));
    say(buffer, copied, b"\n")
}

fn say_ending(buffer: &mut [u8], output: Output, ending: Ending) -> Output {
    match ending {
        Ending::Whole => say(buffer, output, b" 0 "),
        Ending::Unreadable => say(buffer, output, b" 8 "),
        Ending::Unexplained => say(buffer, output, b" 9 "),
    }
}
