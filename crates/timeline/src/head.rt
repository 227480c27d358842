// The picture's head: how things look, what the picture shows and does not show, what the times say of the joining and the invitation timer, and what the
// signs mean.
ghost use Rattle.std.specs.Prelude.{◌≤◌};

use crate::band::Extent;
use crate::label::write_bounds;
use crate::place::{MARGIN, Place};
use crate::survey::{Bounds, Survey};
use codes::protocol::Protocol;
use drawing::{begin_text, end_text, rectangle, write_escaped, write_form};
use log_words::entry::write_clock;
use log_words::fault::write_fault;
use log_words::has_invitation_timer;
use saying::{write_count, write_text};
use timer::Window;
use version::Table;

// The line that a log with invitation timers has more moves what stands below it by so much.
fn moved(table: Table) -> u64
    ensures { result ≤ 18 }
{
    if has_invitation_timer(table) {
        return 18;
    }
    0
}

// Where the first band starts; a log that breaks off has one line more.
pub(crate) fn top(table: Table, broken: bool) -> u64 {
    if broken {
        return 168 + moved(table);
    }
    148 + moved(table)
}

pub(crate) fn draw_head(
    descriptor: i32,
    table: Table,
    log: &[u8],
    name: &[u8],
    found: Survey,
    extent: Extent,
) {
    let place = found.place;
    begin_picture(descriptor, extent.height);
    write_style(descriptor);
    rectangle(descriptor, b"strip", 0, 0, 1188, extent.height);
    draw_name(descriptor, name);
    draw_summary(descriptor, table, place.time, extent);
    draw_timers(descriptor, table, found);
    draw_key(descriptor, table);
    if let Some(fault) = found.fault {
        draw_fault(descriptor, table, log, place, fault);
    }
}

// Why the entry behind a place can't be read, in the words of `heidezirkel show`.
fn draw_fault(descriptor: i32, table: Table, log: &[u8], place: Place, fault: usize) {
    let number = place.number.wrapping_add(1);
    begin_text(descriptor, b"t", MARGIN, 148 + moved(table));
    write_text(descriptor, b"The log breaks off: ");
    write_fault(descriptor, table, log, number, place.at, fault);
    end_text(descriptor);
}

// A quarter of a millimetre is a unit, so that the picture fills the width of an A4 page on its side.
fn begin_picture(descriptor: i32, height: u64) {
    write_form(
        descriptor,
        b"<?xml version=\"1.0\" encoding=\"UTF-8\"?>\n\
          <svg xmlns=\"http://www.w3.org/2000/svg\" width=\"297mm\" height=\"#mm\" viewBox=\"0 0 1188 #\">\n",
        &[height / 4, height],
    );
}

// Greys and patterns, no colours: the picture says the same when it is printed in black and white.
fn write_style(descriptor: i32) {
    write_text(
        descriptor,
        b"<style>\n\
          text{font-family:Liberation Sans,Arial,Helvetica,sans-serif;font-size:11px;fill:#000}\n\
          .h{font-size:20px;font-weight:bold}.t{font-weight:bold}.s{font-size:9.5px;font-weight:normal}\n\
          .m{font-size:10px;text-anchor:middle}.n{font-size:10px;font-weight:bold;text-anchor:middle}.w{fill:#fff}\n\
          .dim{fill:#f0f0f0}.bright,.strip{fill:#fff}.grid{stroke:#aaa;stroke-width:.5}.axis{stroke:#000}\n\
          .idle,.way,.on{stroke:#000;stroke-width:.6}.idle{fill:#e6e6e6}.way{fill:#b0b0b0}.on{fill:#606060}\n\
          .open{fill:#fff;stroke:#000;stroke-width:.8;stroke-dasharray:3 2}.window{fill:url(#hatch);stroke:#000}\n\
          .taken{fill:#000;stroke:#000}.dot{stroke:#fff}.told{fill:#c8c8c8;stroke:#000;stroke-width:1.2}\n\
          .hollow{fill:#fff;stroke:#000;stroke-width:1.2}.edge,.cross{fill:none;stroke:#000}.cross{stroke-width:1.6}\n\
          .lead{stroke:#000;stroke-width:.7}.no{stroke-dasharray:2 2}.go{stroke:#000;stroke-width:1.6}\n\
          </style>\n\
          <defs><pattern id=\"hatch\" width=\"6\" height=\"6\" patternUnits=\"userSpaceOnUse\">\
          <rect width=\"6\" height=\"6\" fill=\"#fff\"/><path d=\"M-1 7L7 -1M-1 1L1 -1M5 7L7 5\" stroke=\"#000\"/>\
          </pattern></defs>\n",
    );
}

fn draw_name(descriptor: i32, name: &[u8]) {
    write_text(descriptor, b"<title>heidezirkel timeline: ");
    write_escaped(descriptor, name);
    write_text(
        descriptor,
        b"</title>\n<text class=\"h\" x=\"28\" y=\"40\">What the radio says it did: ",
    );
    write_escaped(descriptor, name);
    end_text(descriptor);
}

fn draw_summary(descriptor: i32, table: Table, time: u64, extent: Extent) {
    begin_text(descriptor, b"a", MARGIN, 60);
    write_form(
        descriptor,
        b"Log of version #",
        &[version::number(table) as u64],
    );
    write_call(descriptor, version::protocol(table));
    write_count(descriptor, extent.total, b" entry in ", b" entries in ");
    write_clock(descriptor, time);
    write_drawn(descriptor, extent);
    write_text(
        descriptor,
        b". The picture shows what the log claims and judges nothing: heidezirkel judge does.</text>\n",
    );
}

// A broadcast call needs no word.
fn write_call(descriptor: i32, protocol: Protocol) {
    match protocol {
        Protocol::Broadcast => write_text(descriptor, b": "),
        Protocol::Group => write_text(descriptor, b", of a group call: "),
    }
}

fn write_drawn(descriptor: i32, extent: Extent) {
    if extent.drawn < extent.total {
        write_form(
            descriptor,
            b" from the log's start, of which the first # are drawn",
            &[extent.drawn as u64],
        );
        return;
    }
    write_text(descriptor, b" from the log's start");
}

// What the times say of the timers.
fn draw_timers(descriptor: i32, table: Table, found: Survey) {
    let place = found.place;
    let joining = place.joining;
    let invitation = place.invitation;
    begin_text(descriptor, b"t", MARGIN, 78);
    write_text(descriptor, b"Joining timer: ");
    write_timer(
        descriptor,
        joining.seen,
        b"no join was taken",
        found.joining,
    );
    if has_invitation_timer(table) {
        begin_text(descriptor, b"t", MARGIN, 96);
        write_text(descriptor, b"Invitation timer: ");
        write_timer(
            descriptor,
            invitation.seen,
            b"no invitation was taken",
            found.invitation,
        );
    }
}

// What they say of one; `never` are the words for one that was not started.
fn write_timer(descriptor: i32, seen: bool, never: &[u8], bounds: Bounds) {
    if !seen {
        write_text(descriptor, never);
        write_between(
            descriptor,
            b", so the log says nothing of it (",
            bounds.window,
            b").</text>\n",
        );
        return;
    }
    if let Some(conflict) = bounds.conflict {
        write_form(
            descriptor,
            b"no one timer fits these times. At entry # it has run # ms, and what came before",
            &[conflict.entry as u64, conflict.elapsed],
        );
        write_between(
            descriptor,
            b" leaves ",
            bounds.window,
            b" (drawn).</text>\n",
        );
        return;
    }
    write_between(
        descriptor,
        b"by these times it is ",
        bounds.window,
        b".</text>\n",
    );
}

fn write_between(descriptor: i32, before: &[u8], window: Window, behind: &[u8]) {
    write_text(descriptor, before);
    write_bounds(descriptor, window);
    write_text(descriptor, behind);
}

// What the bars, the badges and the signs mean: always the same but for the timers, so it stands here as it is written.
fn draw_key(descriptor: i32, table: Table) {
    write_form(
        descriptor,
        b"<g transform=\"translate(0 #)\">\n",
        &[moved(table)],
    );
    draw_key_of_bars(descriptor);
    if has_invitation_timer(table) {
        write_text(
            descriptor,
            b"the invitation timer (U3) or the joining timer (U4)",
        );
    } else {
        write_text(descriptor, b"the joining timer");
    }
    draw_key_of_signs(descriptor);
}

// Up to the words for the timers.
fn draw_key_of_bars(descriptor: i32) {
    write_text(
        descriptor,
        b"<rect class=\"idle\" x=\"28\" y=\"92\" width=\"28\" height=\"12\"/>\n\
          <text class=\"s\" x=\"62\" y=\"102\">no call</text>\n\
          <rect class=\"way\" x=\"120\" y=\"92\" width=\"28\" height=\"12\"/>\n\
          <text class=\"s\" x=\"154\" y=\"102\">a call comes or goes</text>\n\
          <rect class=\"on\" x=\"272\" y=\"92\" width=\"28\" height=\"12\"/>\n\
          <text class=\"s\" x=\"306\" y=\"102\">a call is on</text>\n\
          <rect class=\"open\" x=\"386\" y=\"92\" width=\"15\" height=\"12\"/>\n\
          <text class=\"s\" x=\"407\" y=\"102\">the log says no more</text>\n\
          <rect class=\"window\" x=\"530\" y=\"92\" width=\"28\" height=\"12\"/>\n\
          <text class=\"s\" x=\"564\" y=\"102\">within this time ",
    );
}

fn draw_key_of_signs(descriptor: i32) {
    write_text(
        descriptor,
        b" ends, or would end</text>\n\
          <rect class=\"taken\" x=\"28\" y=\"112\" width=\"28\" height=\"14\" rx=\"7\"/>\n\
          <text class=\"s\" x=\"62\" y=\"123\">an entry, taken</text>\n\
          <rect class=\"told\" x=\"160\" y=\"112\" width=\"28\" height=\"14\"/>\n\
          <text class=\"s\" x=\"194\" y=\"123\">a message reported to the network</text>\n\
          <rect class=\"hollow\" x=\"380\" y=\"112\" width=\"28\" height=\"14\" rx=\"7\"/>\n\
          <text class=\"s\" x=\"414\" y=\"123\">refused: ignored, or no step in this state</text>\n\
          <path class=\"taken\" d=\"M652 123l-5 -8h10z\"/>\n\
          <text class=\"s\" x=\"664\" y=\"123\">message received</text>\n\
          <path class=\"hollow\" d=\"M776 115l-5 8h10z\"/>\n\
          <text class=\"s\" x=\"788\" y=\"123\">message sent</text>\n\
          <path class=\"cross\" d=\"M878 115l8 8m0 -8l-8 8\"/>\n\
          <text class=\"s\" x=\"892\" y=\"123\">a timer ran out</text>\n\
          </g>\n",
    );
}
