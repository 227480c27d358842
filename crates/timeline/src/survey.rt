// The first pass over a log: how many entries can be read, which joining and which invitation timers their times leave, and how wide the picture would be.
use crate::lanes::{is_strange, lanes_of};
use crate::place::{
    INVITED, JOINING, LEAD, LEFT, Place, RIGHT, STRIP, View, Watch, along, first_place,
    invitation_left, is_cut, joining_left, onward, shown, sum,
};
use codes::event;
use log_entry::{Entry, read_entry};
use timer::{Timers, Window};
use version::Table;

// The first entry at which the times leave nothing of a timer, which has run for `elapsed` there.
#[derive(Clone, Copy)]
pub(crate) struct Conflict {
    pub entry: usize,
    pub elapsed: u64,
}

// What the times leave of a timer. Where there is a conflict, the window is that of the entries before.
#[derive(Clone, Copy)]
pub(crate) struct Bounds {
    pub window: Window,
    pub conflict: Option<Conflict>,
}

impl Bounds {
    const JOINING: Bounds = Bounds {
        window: Window {
            least: Timers::JOINING_LEAST as u64,
            greatest: Timers::JOINING_GREATEST as u64,
        },
        conflict: None,
    };

    const INVITATION: Bounds = Bounds {
        window: Window {
            least: Timers::INVITATION_LEAST as u64,
            greatest: Timers::INVITATION_GREATEST as u64,
        },
        conflict: None,
    };
}

#[derive(Clone, Copy)]
pub(crate) struct Survey {
    // Behind the last entry that can be read.
    pub place: Place,
    pub joining: Bounds,
    pub invitation: Bounds,
    // The time that would be drawn in one band, in milliseconds, and the strips for what is not.
    pub drawn: u64,
    pub strips: u64,
    // Whether an entry claims a state that the table does not have.
    pub strange: bool,
    // The place of the field at which reading stopped in the entry behind it, if that can't be read.
    pub fault: Option<usize>,
}

// An entry takes a byte at least, so no log has more entries than 65,536.
pub(crate) fn survey_log(table: Table, log: &[u8], at: usize) -> Survey {
    let mut found = Survey {
        place: first_place(at),
        joining: Bounds::JOINING,
        invitation: Bounds::INVITATION,
        drawn: 0,
        strips: 0,
        strange: false,
        fault: None,
    };
    for _ in 0..65536 {
        if is_over(log, found) {
            return found;
        }
        found = survey_next(table, log, found);
    }
    found
}

fn is_over(log: &[u8], found: Survey) -> bool {
    let place = found.place;
    found.fault.is_some() || log.len() <= place.at
}

fn survey_next(table: Table, log: &[u8], found: Survey) -> Survey {
    let place = found.place;
    match read_entry(table, log, place.at) {
        Err(fault) => {
            let mut broken = found;
            broken.fault = Some(fault);
            broken
        }
        Ok((entry, at)) => survey_entry(table, log, found, entry, at),
    }
}

// Behind an entry, which ends at byte `at`.
fn survey_entry(table: Table, log: &[u8], found: Survey, entry: Entry, at: usize) -> Survey {
    let place = found.place;
    let delta = entry.delta as u64;
    let next = onward(log, unscaled(table), place, entry, at);
    let joining = narrowed(
        found.joining,
        place.joining,
        expires(entry, event::CONN_REQ_EXPIRED, JOINING),
        next,
    );
    let invitation = narrowed(
        found.invitation,
        place.invitation,
        expires(entry, event::PRES_EXPIRED, INVITED),
        next,
    );
    Survey {
        place: next,
        joining,
        invitation,
        drawn: sum(found.drawn, shown(place, delta)),
        strips: sum(found.strips, strips_of(delta)),
        strange: found.strange | is_strange(table, next.state),
        fault: None,
    }
}

// How the log is read before it is known how the picture is drawn.
fn unscaled(table: Table) -> View {
    let nothing = Window {
        least: 0,
        greatest: 0,
    };
    View {
        table,
        lanes: 0,
        scale: 8,
        step: 0,
        joining: nothing,
        invitation: nothing,
    }
}

fn strips_of(delta: u64) -> u64 {
    if is_cut(delta) {
        return 1;
    }
    0
}

// Whether an entry claims that the timer of a state ended it by its expiry.
fn expires(entry: Entry, event: u8, state: u8) -> bool {
    let claim = entry.claim;
    (entry.event == event) & (claim.state != state)
}

// What an entry leaves of a timer: its expiry is exactly the timer's length after its start, any other entry at most that.
fn narrowed(bounds: Bounds, watch: Watch, expired: bool, after: Place) -> Bounds {
    if !watch.running {
        return bounds;
    }
    if bounds.conflict.is_some() {
        return bounds;
    }
    let window = bounds.window;
    let elapsed = after.time.wrapping_sub(watch.start);
    let least = window.least.max(elapsed);
    let greatest = greatest_of(expired, elapsed, window.greatest);
    if greatest < least {
        return Bounds {
            window,
            conflict: Some(Conflict {
                entry: after.number,
                elapsed,
            }),
        };
    }
    Bounds {
        window: Window { least, greatest },
        conflict: None,
    }
}

fn greatest_of(expired: bool, elapsed: u64, before: u64) -> u64 {
    if expired {
        return elapsed.min(before);
    }
    before
}

// ---- the scale

// The time that is drawn behind the last entry: a second, or to the end of a timer that may still run.
pub(crate) fn tail(place: Place, invitation: Window) -> u64 {
    joining_left(place)
        .max(invitation_left(place, invitation))
        .max(1000)
}

// Units that the strips take, and twice the lead.
fn kept(strips: u64) -> u64 {
    if 100 < strips {
        return RIGHT;
    }
    strips * STRIP + 2 * LEAD
}

fn fits(found: Survey, scale: u64) -> bool {
    let place = found.place;
    let invitation = found.invitation;
    let time = sum(found.drawn, tail(place, invitation.window));
    let units = sum(along(scale, time) / 1000, kept(found.strips));
    (time <= 1000000) & (units <= RIGHT - LEFT)
}

// A short log has one band as wide as it can be; a longer one has as many bands of 8 units a second as it takes.
pub(crate) fn view_of(table: Table, found: Survey) -> View {
    let joining = found.joining;
    let joining_window = joining.window;
    let invitation = found.invitation;
    let invitation_window = invitation.window;
    let scale = scale_of(found);
    View {
        table,
        lanes: lanes_of(table, found.strange),
        scale,
        step: step_of(scale),
        joining: joining_window,
        invitation: invitation_window,
    }
}

fn scale_of(found: Survey) -> u64 {
    if fits(found, 80) {
        return 80;
    }
    if fits(found, 40) {
        return 40;
    }
    if fits(found, 20) {
        return 20;
    }
    8
}

fn step_of(scale: u64) -> u64 {
    match scale {
        80 => 1000,
        40 => 2000,
        20 => 5000,
        _ => 10000,
    }
}
