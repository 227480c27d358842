// Whole files, read into a lent buffer, and new files; how many arguments a word has; how a program ends. What stands in the way is told on standard error, with the
// program's word and the file's path.
#![tactic(auto)]

ghost use Rattle.std.specs.Prelude.{◌≡◌, ◌≤◌, length, IfOk, IfSome};

pub mod arguments;
pub mod ending;

use arguments::{argument, has_option, verdict_on_3};
use ending::Failure;
use saying::complain;
use saying::shown::complain_name;
use std::fs::{File, OpenOptions, remove_file};
use std::io::{Error, ErrorKind, Read, Result, Write};
use std::os::fd::AsRawFd;
use std::str::from_utf8;
use text::output::{Output, put};
use text::words::{find, part};

// What was read of a file into a lent buffer, and whether that is the whole file.
#[derive(Clone, Copy)]
pub struct Filed<'a> {
    pub octets: &'a [u8],
    pub whole: bool,
}

// How many bytes of a file were read, and whether there are no more.
#[derive(Clone, Copy)]
struct Filled {
    count: usize,
    whole: bool,
}

// Reads the file from its start, as much as the buffer holds; `-` is standard input. `word` is the program's word that wants it, as in `heidezirkel show`.
pub fn read_file<'a>(
    rt: &HostRuntime,
    word: &[u8],
    path: &[u8],
    buffer: &'a mut [u8],
) -> std::result::Result<Filed<'a>, Failure>
    ensures { IfOk result (λ filed. length filed.octets.now ≤ length buffer.old) }
{
    match read_path(rt, path, buffer) {
        Ok(filled) => Ok(Filed {
            octets: &buffer[..filled.count],
            whole: filled.whole,
        }),
        Err(error) => {
            complain_of(word, path, error);
            Err(Failure::NotRun)
        }
    }
}

fn read_path(rt: &HostRuntime, path: &[u8], buffer: &mut [u8]) -> Result<Filled>
    ensures { IfOk result (λ filled. filled.count ≤ length buffer.new) }
{
    if let b"-" = path {
        let mut input = rt.stdin();
        return fill(&mut input, buffer);
    }
    let mut file = open_file(rt, path)?;
    fill(&mut file, buffer)
}

fn open_file(rt: &HostRuntime, path: &[u8]) -> Result<File> {
    match from_utf8(path) {
        Ok(name) => File::open(rt, name),
        Err(_) => open_handed(rt, path),
    }
}

// The library takes a name as text, so a file whose name is none can't be opened here. bin/heidezirkel opens it: descriptor 5 is the first argument behind the word, 6 the
// second, 7 the third. That it is the wrapper that called is known by where the verdict goes.
fn open_handed(rt: &HostRuntime, path: &[u8]) -> Result<File> {
    if !verdict_on_3(rt) {
        return Err(Error::from(ErrorKind::InvalidData));
    }
    if has_option(rt, 2, path) {
        return File::open(rt, "/dev/fd/5");
    }
    if has_option(rt, 3, path) {
        return File::open(rt, "/dev/fd/6");
    }
    if has_option(rt, 4, path) {
        return File::open(rt, "/dev/fd/7");
    }
    Err(Error::from(ErrorKind::InvalidData))
}

// Reads the file that an argument of the word names.
pub fn read_argument<'a>(
    rt: &HostRuntime,
    word: &[u8],
    place: usize,
    buffer: &'a mut [u8],
) -> std::result::Result<Filed<'a>, Failure> {
    let mut name = io::buffer();
    read_file(rt, word, argument(rt, place, &mut name), buffer)
}

// Reads until the file ends or the buffer is full.
fn fill<R: Read>(reader: &mut R, buffer: &mut [u8]) -> Result<Filled>
    ensures { IfOk result (λ filled. filled.count ≤ length buffer.new) }
{
    let mut have = 0;
    // Steps by as many bytes as a read gives: no iterator goes so.
    while have < buffer.len() {
        let count = reader.read(&mut buffer[have..])?;
        if count == 0 {
            return Ok(Filled {
                count: have,
                whole: true,
            });
        }
        have += count;
    }
    at_end(reader, have)
}

// The buffer is full: whether the file ends here shows when one byte more is asked for.
fn at_end<R: Read>(reader: &mut R, have: usize) -> Result<Filled>
    ensures { IfOk result (λ filled. filled.count ≤ have) }
{
    let mut one = [0u8; 1];
    let count = reader.read(&mut one)?;
    Ok(Filled {
        count: have,
        whole: count == 0,
    })
}

// What every complaint starts with.
fn complain_start(word: &[u8]) {
    complain(b"heidezirkel ");
    complain(word);
    complain(b": ");
}

const NOT_UTF8: &[u8] = b"this name is not UTF-8, and no such file can be opened or made\n";

// Why the file can't be read.
fn complain_of(word: &[u8], path: &[u8], error: Error) {
    complain_start(word);
    match error.kind() {
        ErrorKind::NotFound => complain_why(path, b"there is no such file\n"),
        ErrorKind::IsADirectory => {
            complain_why(path, b"this is a folder, and a file is wanted\n")
        }
        ErrorKind::PermissionDenied => {
            complain_why(path, b"this file may not be read: permission denied\n")
        }
        ErrorKind::InvalidData => complain_why(path, NOT_UTF8),
        _ => complain_error(path, error),
    }
}

// Why the file can't be made.
fn complain_of_making(rt: &HostRuntime, word: &[u8], path: &[u8], error: Error) {
    complain_start(word);
    match error.kind() {
        ErrorKind::AlreadyExists => complain_of_standing(rt, path),
        ErrorKind::IsADirectory => complain_of_folder(path),
        ErrorKind::NotFound => {
            complain_why(path, b"there is no such folder to make the file in\n")
        }
        ErrorKind::PermissionDenied => complain_why(
            path,
            b"no file may be made in this folder: permission denied\n",
        ),
        ErrorKind::InvalidData => complain_why(path, NOT_UTF8),
        _ => complain_error(path, error),
    }
}

// Something of this name is there.
fn complain_of_standing(rt: &HostRuntime, path: &[u8]) {
    if is_folder(rt, path) {
        complain_of_folder(path);
        return;
    }
    complain_why(
        path,
        b"there is such a file already, and none is written over: take another name or move it away\n",
    );
}

fn complain_of_folder(path: &[u8]) {
    complain_why(
        path,
        b"this is a folder, and the name of a new file is wanted\n",
    );
}

// A folder has itself in it, by the name of one dot, and nothing else can be opened in this way.
fn is_folder(rt: &HostRuntime, path: &[u8]) -> bool {
    let mut itself = io::buffer();
    let behind = put(&mut itself, Output { at: 0 }, path);
    let end = put(&mut itself, behind, b"/.");
    let count = end.at;
    open_file(rt, part(&itself, 0, count)).is_ok()
}

fn complain_why(path: &[u8], why: &[u8]) {
    complain_name(path);
    complain(b": ");
    complain(why);
}

// Any other error, in the system's words.
fn complain_error(path: &[u8], error: Error) {
    let mut words = [0u8; 256];
    put_words(&mut words, error);
    complain_name(path);
    complain(b": ");
    complain(part(&words, 0, words_before_number(&words)));
    complain(b"\n");
}

// Puts an error's words at the start of a lent buffer that holds zeros.
fn put_words(words: &mut [u8], error: Error) {
    let mut rest = words;
    let _ = write!(rest, "{error}");
}

// How long the words are without the number, as ` (os error 5)`, that the library puts behind them.
fn words_before_number(words: &[u8]) -> usize {
    let number = find(words, b'(');
    if number < words.len() {
        return number.wrapping_sub(1);
    }
    find(words, 0)
}

// Makes a file that is not there yet. A file that is there stays as it is.
pub fn create_file(
    rt: &HostRuntime,
    word: &[u8],
    path: &[u8],
) -> std::result::Result<File, Failure> {
    match open_new(rt, path) {
        Ok(file) => Ok(file),
        Err(error) => {
            complain_of_making(rt, word, path, error);
            Err(Failure::NotRun)
        }
    }
}

fn open_new(rt: &HostRuntime, path: &[u8]) -> Result<File> {
    match from_utf8(path) {
        Ok(name) => OpenOptions::new()
            .write(true)
            .create_new(true)
            .open(rt, name),
        Err(_) => Err(Error::from(ErrorKind::InvalidData)),
    }
}

// Closes a file that was made. Where something of it could not be written (`whole` is false), the file is taken away again: half a file is worse than none.
pub fn close_file(
    rt: &HostRuntime,
    word: &[u8],
    path: &[u8],
    file: File,
    whole: bool,
) -> std::result::Result<(), Failure> {
    let kept = file.sync_all().is_ok();
    if whole & kept {
        return Ok(());
    }
    complain_start(word);
    complain_why(
        path,
        b"the file could not be written whole, and is taken away again: is the disk full?\n",
    );
    remove(rt, path);
    Err(Failure::NotRun)
}

fn remove(rt: &HostRuntime, path: &[u8]) {
    if let Ok(name) = from_utf8(path) {
        let _ = remove_file(rt, name);
    }
}

// Makes a new file with these octets, whole or not at all.
pub fn write_file(
    rt: &HostRuntime,
    word: &[u8],
    path: &[u8],
    octets: &[u8],
) -> std::result::Result<(), Failure> {
    let file = create_file(rt, word, path)?;
    let whole = io::write_all(file.as_raw_fd(), octets);
    close_file(rt, word, path, file, whole)
}

// A byte more than a log may have, so that a longer one is told.
pub fn log_room() -> [u8; 65537]
    ensures { 65537 ≡ length result }
{
    [0; 65537]
}
