// A line of a file that people write, told with its number: for what is refused there.
use saying::shown::{Plain, write_shown};
use saying::{STDOUT_FILENO, tell, tell_place};
use text::words::part;

// How many characters of a line are shown.
const SHOWN: usize = 60;

pub fn tell_number_of(number: usize) {
    tell(b"line ");
    tell_place(number);
    tell(b": ");
}

// The line's text on a line of its own.
pub fn tell_text(line: &[u8]) {
    if line.is_empty() {
        tell(b"an empty line\n");
        return;
    }
    tell_quoted(line);
    tell(b"\n");
}

// A text in quotation marks, as far as it can be shown.
pub fn tell_quoted(text: &[u8]) {
    tell(b"\"");
    if SHOWN < text.len() {
        write_shown(STDOUT_FILENO, part(text, 0, SHOWN), Plain::Ascii);
        tell(b"\"..");
        return;
    }
    write_shown(STDOUT_FILENO, text, Plain::Ascii);
    tell(b"\"");
}

// What some editors put before a text, and no eye sees.
pub fn tell_mark(line: &[u8]) {
    if line.starts_with(&[239, 187, 191]) {
        tell(
            b"; the line begins with \\xef\\xbb\\xbf, a byte order mark, as some editors put it before a text: save the file as UTF-8 without it (without BOM)",
        );
    }
}
