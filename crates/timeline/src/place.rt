// Where the walk through a log stands: what the log claims there, and where that is in the picture.
use crate::reason::{Transaction, transaction_behind};
use codes::{action, answer, event};
use fields::reply_messages::messages_of;
use log_entry::{Claim, Entry, read_entry};
use log_words::entry::asked_from;
use log_words::has_invitation_timer;
use timer::{Timers, Window};
use version::Table;

// The picture is 297 mm wide, 4 units a millimetre. Time runs from LEFT to RIGHT, and its marks stay LEAD away from both.
pub(crate) const MARGIN: u64 = 28;

pub(crate) const LEFT: u64 = 254;

pub(crate) const RIGHT: u64 = 1160;

pub(crate) const LEAD: u64 = 16;

// From the middle of an entry's number to the next one's, at least.
const APART: u64 = 30;

// Of a longer time without an entry only the start is drawn, and a strip of so many units stands for the rest.
const LONGEST: u64 = 60000;

const START: u64 = 5000;

pub(crate) const STRIP: u64 = 56;

// The states that the followed timers end.
pub(crate) const INVITED: u8 = 4;

pub(crate) const JOINING: u8 = 5;

// How the log is read, by the table of its version, and the picture drawn: how many lanes it has, units a second, milliseconds from one mark of the time axis to
// the next, and what the times leave of the joining timer and of the invitation timer.
#[derive(Clone, Copy)]
pub(crate) struct View {
    pub table: Table,
    pub lanes: u8,
    pub scale: u64,
    pub step: u64,
    pub joining: Window,
    pub invitation: Window,
}

// A timer that the picture follows: whether it was ever started, when it was last, and whether it runs.
#[derive(Clone, Copy)]
pub(crate) struct Watch {
    pub seen: bool,
    pub start: u64,
    pub running: bool,
}

impl Watch {
    const NEVER: Watch = Watch {
        seen: false,
        start: 0,
        running: false,
    };
}

#[derive(Clone, Copy)]
pub(crate) struct Place {
    // The byte behind the last entry, and that entry's number, time and state after.
    pub at: usize,
    pub number: usize,
    pub time: u64,
    pub state: u8,
    // The state that a termination was asked from, 0 where none is.
    pub asked: u8,
    // The transaction of the call that it is in.
    pub transaction: Transaction,
    // The joining timer, which a join starts, and the invitation timer, which a notification does.
    pub joining: Watch,
    pub invitation: Watch,
    // In thousandths of a unit, so that no rounding adds up; then the middle of the last entry's number, in units.
    pub x: u64,
    pub label: u64,
    // Whether what comes before it is not drawn next to it: at a band's start and behind a strip.
    pub fresh: bool,
    // The lines that the band's list has so far.
    pub lines: u64,
}

// ---- sums that can't overflow, for numbers that only place things

pub(crate) fn sum(one: u64, other: u64) -> u64 {
    one.wrapping_add(other)
}

// Nought where the second is the greater.
pub(crate) fn less(one: u64, other: u64) -> u64 {
    one.saturating_sub(other)
}

// Milliseconds, at most 1,000,000 of them, as thousandths of a unit.
pub(crate) fn along(scale: u64, milliseconds: u64) -> u64 {
    if 1000000 < milliseconds {
        return 0;
    }
    match scale {
        80 => milliseconds * 80,
        40 => milliseconds * 40,
        20 => milliseconds * 20,
        _ => milliseconds * 8,
    }
}

// ---- the walk

pub(crate) fn first_place(at: usize) -> Place {
    Place {
        at,
        number: 0,
        time: 0,
        state: 0,
        asked: 0,
        transaction: Transaction::NONE,
        joining: Watch::NEVER,
        invitation: Watch::NEVER,
        x: (LEFT + LEAD) * 1000,
        label: 0,
        fresh: true,
        lines: 0,
    }
}

// The same place at the start of a new band.
pub(crate) fn in_new_band(place: Place) -> Place {
    let mut first = place;
    first.x = (LEFT + LEAD) * 1000;
    first.label = 0;
    first.fresh = true;
    first.lines = 0;
    first
}

pub(crate) fn is_cut(delta: u64) -> bool {
    LONGEST < delta
}

// How much is drawn of the time from a place to the next entry. A joining timer that may still run is drawn to its end.
pub(crate) fn shown(place: Place, delta: u64) -> u64 {
    if !is_cut(delta) {
        return delta;
    }
    START.max(joining_left(place))
}

// How long a joining timer may last from here on.
pub(crate) fn joining_left(place: Place) -> u64 {
    let joining = place.joining;
    if !joining.seen {
        return 0;
    }
    less(
        sum(joining.start, Timers::JOINING_GREATEST as u64),
        place.time,
    )
}

// How much is drawn of an invitation timer that runs: the time to its end, as if an entry stood there.
pub(crate) fn invitation_left(place: Place, window: Window) -> u64 {
    let invitation = place.invitation;
    if !invitation.running {
        return 0;
    }
    let left = less(sum(invitation.start, window.greatest), place.time);
    if is_cut(left) {
        return START;
    }
    left
}

fn strip_of(delta: u64) -> u64 {
    if is_cut(delta) {
        return STRIP * 1000;
    }
    0
}

// Whether an entry claims that an event was taken and led to a state from another.
fn is_entered(state: u8, event: u8, before: u8, entry: Entry) -> bool {
    let claim = entry.claim;
    (entry.event == event)
        & (claim.answer == answer::TAKEN)
        & (claim.state == state)
        & (before != state)
}

// The long sixth action has a line of its own where there are others.
pub(crate) fn has_two_actions(actions: u8) -> bool {
    (actions / action::TELL_MM_EXISTS % 2 == 1) & (actions != action::TELL_MM_EXISTS)
}

// The second message of a reply has one too, below the first.
fn lines_of(table: Table, log: &[u8], claim: Claim) -> u64 {
    let messages = messages_of(version::protocol(table), log, claim.reply);
    let behind = messages.behind;
    if has_two_actions(claim.actions) | (0 < behind.count) {
        return 2;
    }
    1
}

// A timer behind an entry at a time; `starts` where the entry starts it, `stays` where it leads to the state that the timer ends.
fn watched(watch: Watch, starts: bool, stays: bool, time: u64) -> Watch {
    if starts {
        return Watch {
            seen: true,
            start: time,
            running: true,
        };
    }
    Watch {
        seen: watch.seen,
        start: watch.start,
        running: watch.running & stays,
    }
}

// The place behind an entry, which ends at byte `at`.
pub(crate) fn onward(log: &[u8], view: View, place: Place, entry: Entry, at: usize) -> Place {
    let claim = entry.claim;
    let delta = entry.delta as u64;
    let time = sum(place.time, delta);
    let drawn = along(view.scale, shown(place, delta));
    let x = sum(place.x, sum(drawn, strip_of(delta)));
    let joins = is_entered(JOINING, event::JOIN, place.state, entry);
    let joining = watched(place.joining, joins, claim.state == JOINING, time);
    let table = view.table;
    let invites = is_entered(INVITED, event::NOTIFIED, place.state, entry)
        & has_invitation_timer(table);
    let invitation = watched(place.invitation, invites, claim.state == INVITED, time);
    Place {
        at,
        number: place.number.wrapping_add(1),
        time,
        state: claim.state,
        asked: asked_from(place.state, place.asked, claim.state),
        transaction: transaction_behind(log, place.transaction, place.state, entry),
        joining,
        invitation,
        x,
        label: (x / 1000).max(sum(place.label, APART)),
        fresh: is_cut(delta),
        lines: sum(place.lines, lines_of(table, log, claim)),
    }
}

// The place behind the next entry. Where there is none to be read, the walk stays, and counts on so that it ends.
pub(crate) fn next_place(log: &[u8], view: View, place: Place) -> Place {
    let table = view.table;
    let Ok((entry, at)) = read_entry(table, log, place.at) else {
        let mut next = place;
        next.number = place.number.wrapping_add(1);
        return next;
    };
    onward(log, view, place, entry, at)
}
