// The command `settings OCTETS` of the probe: what reading a settings file comes to, in numbers.
#![tactic(auto)]

use fields::malformed;
use fields::words::octets_word;
use saying::{say, say_decimal, say_hex, say_number};
use settings::read_settings;
use settings_values::Settings;
use text::output::Output;
use text::words::{finished, part};

pub fn answer_settings(
    line: &[u8],
    at: Option<usize>,
    octets: &mut [u8],
    buffer: &mut [u8],
    output: Output,
) -> Output {
    match octets_word(line, at, octets, 0) {
        Some((count, end)) if finished(line, Some(end)) => {
            say_reading(buffer, output, part(octets, 0, count))
        }
        _ => malformed(buffer, output),
    }
}

fn say_reading(buffer: &mut [u8], output: Output, file: &[u8]) -> Output {
    match read_settings(file) {
        Ok(settings) => say_settings(buffer, output, settings),
        Err(refusal) => {
            let answer = say(buffer, output, b"12 ");
            let number = say_decimal(buffer, answer, refusal.line as u64);
            say(buffer, number, b"\n")
        }
    }
}

fn say_settings(buffer: &mut [u8], output: Output, settings: Settings) -> Output {
    let classmark = settings.classmark;
    let identity = settings.identity;
    let count = settings.count;
    let key = say_key(buffer, output, settings.key);
    let mark = say_octets(buffer, key, &classmark);
    let own = say_octets(buffer, mark, part(&identity, 0, count));
    say_timers(buffer, own, settings.joining, settings.invitation)
}

fn say_key(buffer: &mut [u8], output: Output, key: u8) -> Output {
    let answer = say(buffer, output, b"0 ");
    say_number(buffer, answer, key)
}

// Octets with the space before them.
fn say_octets(buffer: &mut [u8], output: Output, octets: &[u8]) -> Output {
    let space = say(buffer, output, b" ");
    say_hex(buffer, space, octets)
}

// The two timers, and the line's end.
fn say_timers(buffer: &mut [u8], output: Output, joining: u32, invitation: u32) -> Output {
    let first = say_milliseconds(buffer, output, joining);
    let second = say_milliseconds(buffer, first, invitation);
    say(buffer, second, b"\n")
}

fn say_milliseconds(buffer: &mut [u8], output: Output, milliseconds: u32) -> Output {
    let space = say(buffer, output, b" ");
    say_decimal(buffer, space, milliseconds as u64)
}
