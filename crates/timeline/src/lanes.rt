// The lanes of a band, one a state, each with a plain name and the standard's (6.1.2.1, without its "BROADCAST" or "GROUP").
use crate::place::{LEFT, MARGIN, RIGHT, View, sum};
use codes::protocol::Protocol;
use drawing::{begin_text, end_text, line, rectangle};
use saying::write_text;
use version::Table;

// From a band's top to its lanes, and the height of a lane.
const LANES: u64 = 64;

const LANE: u64 = 18;

// The sub-states of U2 stand in U2's place. What no group call has, U2 itself and U6, has a lane only in a log that claims it.
pub(crate) fn lanes_of(table: Table, strange: bool) -> u8 {
    match version::protocol(table) {
        Protocol::Broadcast => 8,
        Protocol::Group => {
            if strange {
                return 13;
            }
            12
        }
    }
}

// Whether a state is none of the table's.
pub(crate) fn is_strange(table: Table, state: u8) -> bool {
    match version::protocol(table) {
        Protocol::Broadcast => false,
        Protocol::Group => (state == 3) | (state == 7),
    }
}

// The place of a state's lane among the lanes.
fn row(protocol: Protocol, state: u8) -> u8 {
    match protocol {
        Protocol::Broadcast => state,
        Protocol::Group => group_row(state),
    }
}

fn group_row(state: u8) -> u8 {
    match state {
        0..=2 => state,
        3 => 12,
        4..=6 => state.wrapping_add(5),
        7 => 12,
        8..=255 => state.wrapping_sub(5),
    }
}

// The top of a state's lane.
pub(crate) fn lane(view: View, y: u64, state: u8) -> u64 {
    let table = view.table;
    let place = row(version::protocol(table), state);
    sum(y, LANES + LANE * (place as u64))
}

// Where the time axis stands: below the lanes.
pub(crate) fn axis(view: View, y: u64) -> u64 {
    sum(y, LANES + LANE * (view.lanes as u64))
}

pub(crate) fn draw_lanes(descriptor: i32, view: View, y: u64) {
    let table = view.table;
    let bottom = axis(view, y);
    draw_first_lanes(descriptor, view, y);
    match version::protocol(table) {
        Protocol::Broadcast => draw_broadcast_lanes(descriptor, view, y),
        Protocol::Group => draw_group_lanes(descriptor, view, y),
    }
    line(descriptor, b"axis", LEFT, bottom, RIGHT, bottom);
}

fn draw_first_lanes(descriptor: i32, view: View, y: u64) {
    draw_lane(descriptor, view, y, 0, b"U0 idle", b"NULL");
    draw_lane(
        descriptor,
        view,
        y,
        1,
        b"U0.p waiting",
        b"MM CONNECTION PENDING",
    );
    draw_lane(descriptor, view, y, 2, b"U1 calling", b"CALL INITIATED");
}

fn draw_broadcast_lanes(descriptor: i32, view: View, y: u64) {
    draw_lane(descriptor, view, y, 3, b"U2 own call on", b"CALL ACTIVE");
    draw_last_lanes(descriptor, view, y);
    draw_lane(
        descriptor,
        view,
        y,
        7,
        b"U6 receiving",
        b"RECEIVE MODE ACTIVE",
    );
}

// Those in which a call comes or goes.
fn draw_last_lanes(descriptor: i32, view: View, y: u64) {
    draw_lane(descriptor, view, y, 4, b"U3 notified", b"CALL PRESENT");
    draw_lane(
        descriptor,
        view,
        y,
        5,
        b"U4 joining",
        b"CONNECTION REQUESTED",
    );
    draw_lane(
        descriptor,
        view,
        y,
        6,
        b"U5 ending",
        b"TERMINATION REQUESTED",
    );
}

fn draw_group_lanes(descriptor: i32, view: View, y: u64) {
    draw_link_lanes(descriptor, view, y);
    draw_talk_lanes(descriptor, view, y);
    draw_last_lanes(descriptor, view, y);
    if 12 < view.lanes {
        draw_lane(descriptor, view, y, 3, b"U2, U6", b"in no group call");
    }
}

// Those that a radio listens in, or is about to.
fn draw_link_lanes(descriptor: i32, view: View, y: u64) {
    draw_lane(descriptor, view, y, 8, b"U2sl own link", b"separate link");
    draw_lane(
        descriptor,
        view,
        y,
        9,
        b"U2wr done",
        b"wait for receive mode",
    );
    draw_lane(descriptor, view, y, 10, b"U2r listening", b"receive mode");
}

fn draw_talk_lanes(descriptor: i32, view: View, y: u64) {
    draw_lane(
        descriptor,
        view,
        y,
        11,
        b"U2ws asking",
        b"wait for send and receive mode",
    );
    draw_lane(
        descriptor,
        view,
        y,
        12,
        b"U2sr talking",
        b"send and receive mode",
    );
    draw_lane(descriptor, view, y, 13, b"U2nc cut off", b"no channel");
}

// Every second lane is darker.
fn draw_lane(descriptor: i32, view: View, y: u64, state: u8, plain: &[u8], name: &[u8]) {
    let table = view.table;
    let top = lane(view, y, state);
    if row(version::protocol(table), state) % 2 == 0 {
        rectangle(descriptor, b"dim", MARGIN, top, RIGHT - MARGIN, LANE);
    } else {
        rectangle(descriptor, b"bright", MARGIN, top, RIGHT - MARGIN, LANE);
    }
    begin_text(descriptor, b"t", 32, sum(top, 13));
    write_text(descriptor, plain);
    write_text(descriptor, b" <tspan class=\"s\">");
    write_text(descriptor, name);
    write_text(descriptor, b"</tspan>");
    end_text(descriptor);
}
