// A log as a picture: time along, the states as bars, entries and messages as marks, the windows in which the joining and the invitation timer end, and a
// list in words. It shows what the log claims and judges nothing.
#![tactic(auto)]

mod band;
mod head;
mod label;
mod lanes;
mod list;
mod mark;
mod place;
mod reason;
mod segment;
mod survey;
mod window;

use band::{Extent, draw_bands, measure};
use drawing::write_form;
use filing::ending::Failure;
use filing::{close_file, create_file};
use head::{draw_head, top};
use log_words::fault::{write_fault, write_version_fault};
use place::{Place, first_place};
use saying::shown::tell_name;
use saying::{STDERR_FILENO, STDOUT_FILENO, complain, tell, write_count};
use septets::read_number;
use std::os::fd::AsRawFd;
use survey::{Survey, survey_log, view_of};
use version::Table;

// The most bytes that a log has.
const MOST: usize = version::LONGEST;

// Draws a log, the file `name`, into the new file `path`, and answers the verdict.
pub fn tell_timeline(
    rt: &HostRuntime,
    log: &[u8],
    name: &[u8],
    path: &[u8],
) -> Result<(), Failure> {
    if MOST < log.len() {
        complain(b"log over 65,536 bytes (answer 10): nothing of it is drawn\n");
        return Err(Failure::Refused);
    }
    let Some((number, at)) = read_number(log, 0) else {
        return refuse_version(log);
    };
    let Some(table) = version::table_of(number) else {
        return refuse_version(log);
    };
    draw_log(rt, table, log, at, name, path)
}

// What has no version is no log, and no picture is made of it.
fn refuse_version(log: &[u8]) -> Result<(), Failure> {
    write_version_fault(STDERR_FILENO, log);
    Err(Failure::Refused)
}

fn draw_log(
    rt: &HostRuntime,
    table: Table,
    log: &[u8],
    at: usize,
    name: &[u8],
    path: &[u8],
) -> Result<(), Failure> {
    let found = survey_log(table, log, at);
    let file = create_file(rt, b"timeline", path)?;
    let descriptor = file.as_raw_fd();
    let drawn = draw_picture(descriptor, table, log, at, name, found);
    // What can't be written any more shows at the last write.
    let whole = io::write_all(descriptor, b"</svg>\n");
    close_file(rt, b"timeline", path, file, whole)?;
    tell_drawn(path, drawn);
    if is_misnamed(file_name(path)) {
        complain_of_name(path);
    }
    if let Some(fault) = found.fault {
        complain_of_fault(table, log, found.place, fault);
        return Err(Failure::Refused);
    }
    Ok(())
}

// All of the picture but its end.
fn draw_picture(
    descriptor: i32,
    table: Table,
    log: &[u8],
    at: usize,
    name: &[u8],
    found: Survey,
) -> Extent {
    let place = found.place;
    let view = view_of(table, found);
    let broken = found.fault.is_some();
    let y = top(table, broken);
    let reach = measure(log, view, y, first_place(at), place.number, broken);
    draw_head(descriptor, table, log, file_name(name), found, reach);
    draw_bands(descriptor, log, view, y, first_place(at), reach);
    reach
}

// The part of a path behind its last slash.
fn file_name(path: &[u8]) -> &[u8] {
    let mut parts = path.rsplit(|byte| *byte == b'/');
    parts.next().unwrap_or(path)
}

// Whether a file's name says that it is something else than SVG.
fn is_misnamed(name: &[u8]) -> bool {
    let right = name.ends_with(b".svg") || name.ends_with(b".SVG");
    name.contains(&b'.') && !right
}

fn complain_of_name(path: &[u8]) {
    complain(b"heidezirkel timeline: ");
    complain(path);
    complain(
        b": the picture is SVG, whatever its name says: with a name that ends in .svg programs know how to open it\n",
    );
}

fn tell_drawn(path: &[u8], drawn: Extent) {
    tell_name(path);
    tell(b": ");
    write_count(
        STDOUT_FILENO,
        drawn.drawn,
        b" entry drawn",
        b" entries drawn",
    );
    tell_rest(drawn);
}

fn tell_rest(drawn: Extent) {
    if drawn.drawn < drawn.total {
        let rest = drawn.total.wrapping_sub(drawn.drawn);
        write_form(
            STDOUT_FILENO,
            b", and # not: the picture would grow too long\n",
            &[rest as u64],
        );
        return;
    }
    tell(b"\n");
}

fn complain_of_fault(table: Table, log: &[u8], place: Place, fault: usize) {
    let number = place.number.wrapping_add(1);
    write_fault(STDERR_FILENO, table, log, number, place.at, fault);
}
