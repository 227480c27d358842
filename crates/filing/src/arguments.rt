// The arguments of a word.
ghost use Rattle.std.specs.Prelude.{◌≤◌, length};

use saying::complain;
use saying::shown::tell_name;
use std::env::{Env, FillError};

// An argument, in a lent buffer. One that is missing or longer than the buffer is empty.
pub fn argument<'a>(rt: &HostRuntime, place: usize, buffer: &'a mut [u8]) -> &'a [u8]
    ensures { length result.now ≤ length buffer.old }
{
    match rt.arg(place, buffer) {
        Ok(count) => &buffer[..count],
        Err(_) => &buffer[..0],
    }
}

fn is_missing(rt: &HostRuntime, place: usize) -> bool {
    let mut first = [0u8; 1];
    matches!(rt.arg(place, &mut first), Err(FillError::NotPresent))
}

// How many arguments there are in all.
fn count_all(rt: &HostRuntime) -> usize {
    for place in 0..usize::MAX {
        if is_missing(rt, place) {
            return place;
        }
    }
    usize::MAX
}

// Whether the verdict is to go to descriptor 3. bin/heidezirkel asks for it by a last argument; nobody gives that by accident, so nothing that is open there for something
// else is written to.
pub(crate) fn verdict_on_3(rt: &HostRuntime) -> bool {
    has_option(rt, count_all(rt).wrapping_sub(1), b"--verdict-on-3")
}

// How many arguments there are, the program's own name and the word among them, but not the one that says where the verdict goes.
pub fn argument_count(rt: &HostRuntime) -> usize {
    let count = count_all(rt);
    if verdict_on_3(rt) {
        return count.wrapping_sub(1);
    }
    count
}

// Whether the argument at this place is that option.
pub fn has_option(rt: &HostRuntime, place: usize, option: &[u8]) -> bool {
    let mut text = io::buffer();
    argument(rt, place, &mut text) == option
}

// Tells the file that the argument at this place names.
pub fn tell_argument(rt: &HostRuntime, place: usize) {
    let mut name = io::buffer();
    tell_name(argument(rt, place, &mut name));
}

// Whether the word has so many arguments; a complaint, which says what it takes, where it has not.
pub fn has_arguments(rt: &HostRuntime, count: usize, word: &[u8], takes: &[u8]) -> bool {
    if argument_count(rt) == count.wrapping_add(2) {
        return true;
    }
    complain(b"heidezirkel ");
    complain(word);
    complain(b": takes ");
    complain(takes);
    complain(b"; heidezirkel ");
    complain(word);
    complain(b" --help says more\n");
    false
}
