// Standard input, line by line, of any length; a line has at most 262,144 bytes without its end. A longer one is answered once and passed over.
ghost use Rattle.std.specs.Prelude.{◌≡◌, ◌+◌, ◌≤◌, length, IfSome};

use crate::answer::answer_line;
use fields::malformed;
use filing::ending::has_reader_gone;
use saying::flush;
use std::io::Read;
use text::output::Output;
use text::words::find;

// The end of a line.
const LF: u8 = 10;

// Why reading stops: the input ended, it could not be read, or nobody reads the answers any more.
#[derive(Clone, Copy)]
pub(crate) enum Stop {
    Ended,
    Unreadable,
    Unheard,
}

// How far the input is read: the first `have` bytes of the line buffer are the start of a line; or a line is being passed over.
#[derive(Clone, Copy)]
pub(crate) struct Progress {
    pub have: usize,
    pub passing: bool,
    pub stop: Option<Stop>,
    pub output: Output,
}

// The longest line and its end.
pub(crate) fn line_room() -> [u8; 262145]
    ensures { 262145 ≡ length result }
{
    [0; 262145]
}

// The octets that the longest line can spell.
pub(crate) fn octets_room() -> [u8; 131072]
    ensures { 131072 ≡ length result }
{
    [0; 131072]
}

// Moves the bytes of `buffer` between two places to its start.
fn shift(buffer: &mut [u8], from: usize, to: usize)
    requires { (from ≤ to) × (to ≤ length buffer.old) }
{
    let count = to - from;
    // No method of slices moves octets within one.
    for step in 0..count {
        buffer[step] = buffer[from + step];
    }
}

// Answers the lines that are whole in `text` from `from` on: how much of the text they take, and the output behind their answers.
fn answer_lines(
    text: &[u8],
    from: usize,
    octets: &mut [u8],
    buffer: &mut [u8],
    output: Output,
) -> (usize, Output)
    requires { from ≤ length text.now }
    ensures { result.0 ≤ length text.now }
{
    let mut place = output;
    let mut at = from;
    // Steps by whole lines, and tells where the last one ended: no iterator over lines does.
    while at < text.len() {
        let count = find(&text[at..], LF);
        if count == text.len() - at {
            return (at, place);
        }
        let end = at + count;
        place = answer_line(&text[at..end], octets, buffer, place);
        at = end + 1;
    }
    (at, place)
}

// The place behind the end of the line that is being passed over, where it ends in this text.
fn pass_over(text: &[u8]) -> Option<usize>
    ensures { IfSome result (λ at. at ≤ length text.now) }
{
    let count = find(text, LF);
    if count == text.len() {
        return None;
    }
    Some(count + 1)
}

// Where reading stands.
fn standing(have: usize, passing: bool, stop: Option<Stop>, output: Output) -> Progress
    ensures { result.have ≡ have }
{
    Progress {
        have,
        passing,
        stop,
        output,
    }
}

// The input has ended: a last line without an end is still a line.
fn last_line(progress: Progress, line: &[u8], octets: &mut [u8], buffer: &mut [u8]) -> Progress
    ensures { result.have ≡ 0 }
{
    let output = progress.output;
    if progress.passing || line.is_empty() {
        return standing(0, false, Some(Stop::Ended), output);
    }
    let answered = answer_line(line, octets, buffer, output);
    standing(0, false, Some(Stop::Ended), answered)
}

// The first `full` bytes of the line buffer are there: answers the whole lines and moves the rest to the start.
fn take_lines(
    lines: &mut [u8],
    from: usize,
    full: usize,
    octets: &mut [u8],
    buffer: &mut [u8],
    output: Output,
) -> Progress
    requires { (from ≤ full) × (full ≤ length lines.old) }
    ensures { result.have ≤ length lines.new }
{
    let (used, answered) = answer_lines(&lines[0..full], from, octets, buffer, output);
    shift(lines, used, full);
    let have = full - used;
    if have == lines.len() {
        let told = malformed(buffer, answered);
        return standing(0, true, None, told);
    }
    standing(have, false, None, answered)
}

// One read, and the lines that are whole then. The answers are written before the next read waits.
fn turn(
    rt: &HostRuntime,
    progress: Progress,
    lines: &mut [u8],
    octets: &mut [u8],
    buffer: &mut [u8],
) -> Progress
    requires { progress.have ≤ length lines.old }
    ensures { result.have ≤ length lines.new }
{
    let have = progress.have;
    let output = progress.output;
    let empty = flush(buffer, output);
    if has_reader_gone() {
        return standing(0, false, Some(Stop::Unheard), empty);
    }
    let mut input = rt.stdin();
    let Ok(count) = input.read(&mut lines[have..]) else {
        return standing(0, false, Some(Stop::Unreadable), empty);
    };
    if count == 0 {
        let ended = standing(have, progress.passing, None, empty);
        return last_line(ended, &lines[0..have], octets, buffer);
    }
    let full = have + count;
    if !progress.passing {
        return take_lines(lines, 0, full, octets, buffer, empty);
    }
    match pass_over(&lines[0..full]) {
        Some(at) => take_lines(lines, at, full, octets, buffer, empty),
        None => standing(0, true, None, empty),
    }
}

// A proved loop has to end, and nothing says that the input does: the loop has so many turns that no run uses them up.
pub(crate) fn stream(
    rt: &HostRuntime,
    lines: &mut [u8],
    octets: &mut [u8],
    buffer: &mut [u8],
) -> Progress {
    let mut progress = Progress {
        have: 0,
        passing: false,
        stop: None,
        output: Output { at: 0 },
    };
    for _ in 0..u64::MAX {
        progress = turn(rt, progress, lines, octets, buffer);
        if progress.stop.is_some() {
            return progress;
        }
    }
    progress
}
