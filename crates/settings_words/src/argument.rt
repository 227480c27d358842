// Settings files as the arguments of a word.
use crate::tell_settings;
use filing::arguments::{argument, has_arguments};
use filing::ending::Failure;
use filing::{read_argument, read_file};
use settings::read_settings;
use settings_values::Settings;

// The word `settings`.
pub fn run_settings(rt: &HostRuntime) -> Result<(), Failure> {
    if !has_arguments(rt, 1, b"settings", b"one argument, a settings file") {
        return Err(Failure::NotRun);
    }
    let mut name = io::buffer();
    let path = argument(rt, 2, &mut name);
    let mut room = io::large_buffer();
    let file = read_file(rt, b"settings", path, &mut room)?;
    tell_settings(path, file, read_settings(file.octets))
}

// The settings file that is the first argument of a word. One that is refused stops the word at its line.
pub fn settings_argument(rt: &HostRuntime, word: &[u8]) -> Result<Settings, Failure> {
    settings_at(rt, word, 2)
}

// The settings file that is the argument at a place.
fn settings_at(rt: &HostRuntime, word: &[u8], place: usize) -> Result<Settings, Failure> {
    let mut name = io::buffer();
    let path = argument(rt, place, &mut name);
    let mut room = io::large_buffer();
    let file = read_file(rt, word, path, &mut room)?;
    let read = read_settings(file.octets);
    if let Ok(settings) = read {
        return Ok(settings);
    }
    tell_settings(path, file, read)?;
    Err(Failure::Refused)
}

// The settings of a radio and a log, which is in a lent buffer.
#[derive(Clone, Copy)]
pub struct Ready<'a> {
    pub settings: Settings,
    pub log: &'a [u8],
}

// The settings file and the log that are the two arguments of a word.
pub fn settings_and_log<'a>(
    rt: &HostRuntime,
    word: &[u8],
    room: &'a mut [u8],
) -> Result<Ready<'a>, Failure> {
    settings_and_log_behind(rt, word, 0, room)
}

// The same behind so many options.
pub fn settings_and_log_behind<'a>(
    rt: &HostRuntime,
    word: &[u8],
    options: usize,
    room: &'a mut [u8],
) -> Result<Ready<'a>, Failure> {
    let count = options.wrapping_add(2);
    if !has_arguments(rt, count, word, b"two arguments, a settings file and a log") {
        return Err(Failure::NotRun);
    }
    settings_before_log(rt, word, options, room)
}

// The settings file and the log that are the first two arguments of a word behind so many options. Where the settings are refused, the log was not looked at: that is no
// verdict on it.
pub fn settings_before_log<'a>(
    rt: &HostRuntime,
    word: &[u8],
    options: usize,
    room: &'a mut [u8],
) -> Result<Ready<'a>, Failure> {
    let place = options.wrapping_add(2);
    let Ok(settings) = settings_at(rt, word, place) else {
        return Err(Failure::NotRun);
    };
    let filed = read_argument(rt, word, place.wrapping_add(1), room)?;
    Ok(Ready {
        settings,
        log: filed.octets,
    })
}
