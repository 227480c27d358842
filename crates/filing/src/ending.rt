// How a program ends. It has no exit status: its last line is its verdict, `verdict 0` fine, `verdict 1` refused, `verdict 2` could not run. It stands on standard output, or on
// descriptor 3 where that is asked for, as bin/heidezirkel does, which makes the exit status of it: then nothing stands between what is told and its reader.
use crate::arguments::verdict_on_3;
use saying::{STDOUT_FILENO, complain, write_long, write_text};
use std::io::{Error, ErrorKind};
use std_io::io::last_error;

// Why a word of a program does not end well: what it was given is refused, or it could not run. It was told already.
#[derive(Clone, Copy, Debug, PartialEq, Eq)]
pub enum Failure {
    Refused,
    NotRun,
}

pub fn tell_verdict(rt: &HostRuntime, ended: Result<(), Failure>) {
    let told = all_told(last_error());
    let descriptor = verdict_descriptor(rt);
    if told | (ended == Err(Failure::NotRun)) {
        write_verdict(descriptor, verdict_of(ended));
        return;
    }
    complain(b"heidezirkel: the answer could not be written whole: is the disk full?\n");
    write_verdict(descriptor, verdict_of(Err(Failure::NotRun)));
}

fn verdict_of(ended: Result<(), Failure>) -> u8 {
    match ended {
        Ok(()) => 0,
        Err(Failure::Refused) => 1,
        Err(Failure::NotRun) => 2,
    }
}

// Nobody looks at what each write of an answer came to, but the number of the last error does not go away by what goes well: it is 0 since the last argument was read unless
// something could not be written since. A reader that has gone has what it wanted.
fn all_told(error: Error) -> bool {
    (error.raw_os_error() == Some(0)) | is_reader_gone(error)
}

fn is_reader_gone(error: Error) -> bool {
    error.kind() == ErrorKind::BrokenPipe
}

// Whether the last error is that nobody reads what is told. Nothing stops a program then but the program itself.
pub fn has_reader_gone() -> bool {
    is_reader_gone(last_error())
}

fn verdict_descriptor(rt: &HostRuntime) -> i32 {
    if verdict_on_3(rt) {
        return 3;
    }
    STDOUT_FILENO
}

fn write_verdict(descriptor: i32, verdict: u8) {
    write_text(descriptor, b"verdict ");
    write_long(descriptor, verdict as u64);
    write_text(descriptor, b"\n");
}
