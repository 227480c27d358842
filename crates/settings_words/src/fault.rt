// Why a settings file is refused: the line's number, its text as far as it can be shown, and what was expected there.
use crate::line::{tell_mark, tell_number_of, tell_text};
use filing::ending::Failure;
use saying::{tell, tell_place};
use settings_line::Fault;
use text::words::part;

const LF: u8 = 10;

const CR: u8 = 13;

// The file is refused at this line. Answers the verdict.
pub(crate) fn tell_fault(file: &[u8], number: usize, fault: Fault) -> Result<(), Failure> {
    tell(b": the settings are refused (answer 12)\n");
    let line = line_of(file, number);
    tell_number_of(number);
    tell_line(line, fault);
    tell_number_of(number);
    tell_wanted(line, fault);
    Err(Failure::Refused)
}

// What was read of the file has no fault but that it does not end there.
pub(crate) fn tell_too_long(file: &[u8], number: usize) -> Result<(), Failure> {
    tell(b": the settings are refused (answer 12)\n");
    tell_number_of(number);
    tell(b"the file goes on here past ");
    tell_place(file.len());
    tell(b" bytes; settings are five lines, each once, and have at most 86 bytes\n");
    Err(Failure::Refused)
}

// ---- the line

// The line of a number, counted from 1, without its LF; nothing where the file has fewer.
fn line_of(file: &[u8], number: usize) -> &[u8] {
    let mut lines = file.split(|byte| *byte == LF);
    lines
        .nth(number.saturating_sub(1))
        .unwrap_or(part(file, 0, 0))
}

fn tell_line(line: &[u8], fault: Fault) {
    match fault {
        Fault::NoKey => tell(b"there is no such line\n"),
        Fault::NoClassmark => tell(b"there is no such line\n"),
        Fault::NoIdentity => tell(b"there is no such line\n"),
        Fault::NoJoining => tell(b"there is no such line\n"),
        Fault::NoInvitation => tell(b"there is no such line\n"),
        _ => tell_text(line),
    }
}

// ---- what was expected

fn tell_wanted(line: &[u8], fault: Fault) {
    tell_mend(fault);
    tell_mark(line);
    if ends_with_return(line) {
        tell(
            b"; the line ends with \\x0d, as files from Windows do: save the file with LF alone as line end",
        );
    }
    tell(b"\n");
}

fn ends_with_return(line: &[u8]) -> bool {
    line.last().copied() == Some(CR)
}

fn tell_mend(fault: Fault) {
    match fault {
        Fault::NoLineFeed => tell(b"the file ends without LF: end this line too with a line end"),
        Fault::UnknownName => tell(
            b"a line starts with cksn= or classmark= or identity= or conn_req_ms= or present_ms=, in lower case, without a space; no line is empty",
        ),
        Fault::BadKey => tell(b"cksn wants one digit 0 to 7 and nothing else"),
        Fault::BadClassmark => tell(b"classmark wants 6 hexadecimal digits and nothing else"),
        Fault::BadIdentity => tell(
            b"identity wants 2 to 16 hexadecimal digits, an even count, and nothing else",
        ),
        Fault::BadJoining => tell(
            b"conn_req_ms wants 10000 to 30000 without a leading zero and nothing else",
        ),
        Fault::BadInvitation => tell(
            b"present_ms wants 1000 to 600000 without a leading zero and nothing else",
        ),
        Fault::Repeated => tell(
            b"this name stands on a line before already, and each stands once: take one of the two lines out",
        ),
        Fault::NoKey => tell(b"the line cksn= is missing: add it, with one digit 0 to 7"),
        Fault::NoClassmark => tell(
            b"the line classmark= is missing: add it, with 6 hexadecimal digits",
        ),
        Fault::NoIdentity => tell(
            b"the line identity= is missing: add it, with 2 to 16 hexadecimal digits, an even count",
        ),
        Fault::NoJoining => tell(b"the line conn_req_ms= is missing: add it, with 10000 to 30000"),
        Fault::NoInvitation => tell(
            b"the line present_ms= is missing: add it, with 1000 to 600000",
        ),
    }
}
