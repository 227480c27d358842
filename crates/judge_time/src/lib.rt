// The time of a log: what an entry leaves of the joining timers and of the invitation timers, by how long the timer that runs before it has run. On numbers alone.
#![tactic(auto)]

ghost use Rattle.std.specs.Prelude.{◌≡◌};
ghost use Rattle.timer.specs.Timers.{running_among, expiry_of};
ghost use Rattle.judge_time.specs.Clock.{astray, greatest_left, least_left, left_with, started_at, tick_of, untimely_at, while_running, window_left};

use timer::{Timer, Timers, Window, timer_length, timer_number};

// The time, when the timer that runs was started, and the joining timers and the invitation timers that explain the entries so far: any of the ones with any of
// the others. In milliseconds.
#[derive(Clone, Copy)]
pub struct Clock {
    pub time: u64,
    pub started: u64,
    pub joining: Window,
    pub invitation: Window,
}

// What an entry makes of a clock: the clock behind it; that it breaks the rule of a timer whose length is known; that it leaves no joining timer, or no
// invitation timer; or that no log of at most 65,536 bytes has such a clock.
#[derive(Clone, Copy)]
pub enum Ticked {
    Onward(Clock),
    OutOfTime,
    NoTimerLeft,
    NoInvitationLeft,
    Astray,
}

impl Clock {
    // 65,536 times 86,400,000: more entries than a log of 65,536 bytes has, each as late as can be.
    pub const LATEST: u64 = 5662310400000;
}

// Whether an entry breaks the time rule of a timer of known length that runs for `age` milliseconds; `ends` where it is that timer's expiry.
fn is_untimely(timer: u8, age: u64, ends: bool) -> bool
    ensures { result ≡ untimely_at timer age ends }
{
    let joining = timer_number(Some(Timer::ConnReq));
    let invitation = timer_number(Some(Timer::Pres));
    let length = timer_length(0, 0, timer) as u64;
    let wrong = (ends & (age != length)) | (length < age);
    (timer != joining) & ((timer != invitation) & wrong)
}

// The least length that is left of a timer that has run for so long.
fn least_left(age: u64, least: u64) -> u64
    ensures { result ≡ least_left age least }
{
    if least < age {
        return age;
    }
    least
}

// The greatest.
fn greatest_left(age: u64, ends: bool, greatest: u64) -> u64
    ensures { result ≡ greatest_left age ends greatest }
{
    if !ends {
        return greatest;
    }
    if age < greatest {
        return age;
    }
    greatest
}

// What the entry leaves of the lengths of a timer; `mine` where it is the one that runs.
fn window_left(mine: bool, age: u64, ends: bool, window: Window) -> Window
    ensures { result ≡ window_left mine age ends window }
{
    if !mine {
        return window;
    }
    let least = least_left(age, window.least);
    let greatest = greatest_left(age, ends, window.greatest);
    Window { least, greatest }
}

// When the timer that runs behind the entry was started.
fn started_after(before: u8, after: u8, started: u64, now: u64) -> u64
    ensures { result ≡ started_at before after started now }
{
    if after == before {
        return started;
    }
    now
}

// The clock behind an entry that leaves these timers; none if it leaves none of either.
fn left_with(joining: Window, invitation: Window, time: u64, started: u64) -> Ticked
    ensures { result ≡ left_with joining invitation time started }
{
    if joining.greatest < joining.least {
        return Ticked::NoTimerLeft;
    }
    if invitation.greatest < invitation.least {
        return Ticked::NoInvitationLeft;
    }
    Ticked::Onward(Clock {
        time,
        started,
        joining,
        invitation,
    })
}

// Whether no log of at most 65,536 bytes has such a clock.
fn is_astray(time: u64, started: u64) -> bool
    ensures { result ≡ astray time started }
{
    (Clock::LATEST < time) | (time < started)
}

// An entry while a timer runs, for `age` milliseconds up to it; `ends` where it is that timer's expiry.
fn while_running(
    joining: Window,
    invitation: Window,
    timer: u8,
    age: u64,
    ends: bool,
    time: u64,
    started: u64,
) -> Ticked
    ensures { result ≡ while_running joining invitation timer age ends time started }
{
    if is_untimely(timer, age, ends) {
        return Ticked::OutOfTime;
    }
    let joins = timer == timer_number(Some(Timer::ConnReq));
    let joining_left = window_left(joins, age, ends, joining);
    let invites = timer == timer_number(Some(Timer::Pres));
    let invitation_left = window_left(invites, age, ends, invitation);
    left_with(joining_left, invitation_left, time, started)
}

// What an entry `delta` milliseconds later, of this event, makes of a clock. `before` and `after` are the timers that run before and behind the entry.
pub fn tick(clock: Clock, before: u8, after: u8, delta: u32, event: u8) -> Ticked
    ensures { result ≡ tick_of clock before after delta event }
{
    if is_astray(clock.time, clock.started) {
        return Ticked::Astray;
    }
    let now = clock.time + delta as u64;
    let started = started_after(before, after, clock.started, now);
    let joining = clock.joining;
    let invitation = clock.invitation;
    // Most entries find no timer running: what was left is handed on as it is.
    if before == 0 {
        return Ticked::Onward(Clock {
            time: now,
            started,
            joining,
            invitation,
        });
    }
    let age = now - clock.started;
    let ends = expired_number(event as u32) == before;
    while_running(joining, invitation, before, age, ends, now, started)
}

// The number of the timer that runs, 0 for none. A clock is told timers by their numbers: told of them by what they are, a walk takes some three per cent more
// instructions.
pub fn running_number(timers: Timers) -> u8
    ensures { result ≡ running_among timers }
{
    timer_number(timer::running_timer(timers))
}

// The number of the timer whose expiry an event is, 0 where it is none.
fn expired_number(event: u32) -> u8
    ensures { result ≡ expiry_of event }
{
    timer_number(timer::expired_timer(event))
}
