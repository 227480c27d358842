// Texts that others wrote, such as names of files: a terminal is told none of their characters that it would take for a command. These are told as \xNN.
use crate::{STDERR_FILENO, STDOUT_FILENO, write_text};

// What is told as it is: characters of ASCII that can be printed, or letters beyond ASCII too.
#[derive(Clone, Copy)]
pub enum Plain {
    Ascii,
    Letters,
}

// The name of a file to standard output, and to standard error.
pub fn tell_name(name: &[u8]) {
    write_shown(STDOUT_FILENO, name, Plain::Letters);
}

pub fn complain_name(name: &[u8]) {
    write_shown(STDERR_FILENO, name, Plain::Letters);
}

pub fn write_shown(descriptor: i32, text: &[u8], plain: Plain) {
    let mut before = 0;
    for (at, octet) in text.iter().enumerate() {
        if is_plain(plain, before, *octet, octet_behind(text, at)) {
            write_text(descriptor, &[*octet]);
            before = *octet;
        } else {
            write_escaped(descriptor, *octet);
            before = 0;
        }
    }
}

// The octet behind a place, 0 at the end.
fn octet_behind(text: &[u8], at: usize) -> u8 {
    text.get(at.wrapping_add(1)).copied().unwrap_or(0)
}

// Whether an octet is told as it is. `before` is the one before it if that was.
fn is_plain(plain: Plain, before: u8, octet: u8, behind: u8) -> bool {
    match plain {
        Plain::Ascii => is_printed(octet),
        Plain::Letters => is_printed(octet) | is_letter(before, octet, behind),
    }
}

fn is_printed(octet: u8) -> bool {
    (31 < octet) & (octet < 127)
}

// An octet beyond ASCII is part of a letter in UTF-8, unless it is one of 128 to 159 by itself or with 194 before it: these are control characters.
fn is_letter(before: u8, octet: u8, behind: u8) -> bool {
    if octet == 194 {
        return 159 < behind;
    }
    if 159 < octet {
        return true;
    }
    (127 < octet) & (127 < before) & (before != 194)
}

fn write_escaped(descriptor: i32, octet: u8) {
    write_text(descriptor, b"\\x");
    io::print_hex(descriptor, octet as u64, 2);
}
