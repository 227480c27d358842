// The timers: which there are, and of each its number, its length and the event that is its expiry. Where a timer runs is no matter of this crate.
#![tactic(auto)]

ghost use Rattle.std.specs.Prelude.{◌≡◌};
ghost use Rattle.timer.specs.Timers.{number_of_any, running_timer, expired_timer, length_of, timer_row, with_timer};

use codes::wide::event;

// A timer, by its number.
#[derive(Clone, Copy, PartialEq)]
pub enum Timer {
    MmEst = 1,
    Term,
    ConnReq,
    NoChannel,
    Pres,
}

// Which timers run: T_MM-est, T_term, T_conn req, T_no channel, T_pres.
#[derive(Clone, Copy)]
pub struct Timers {
    pub mmest: bool,
    pub term: bool,
    pub connreq: bool,
    pub nochannel: bool,
    pub pres: bool,
}

// Lengths that a timer may have, in milliseconds: from the least to the greatest, both among them.
#[derive(Clone, Copy)]
pub struct Window {
    pub least: u64,
    pub greatest: u64,
}

// The timers' lengths in milliseconds; T_conn req, the joining timer, and T_pres, the invitation timer, are settings, each from its least to its greatest.
impl Timers {
    pub const MM_EST: u32 = 5000;

    pub const TERM: u32 = 10000;

    pub const JOINING_LEAST: u32 = 10000;

    pub const JOINING_GREATEST: u32 = 30000;

    pub const NO_CHANNEL: u32 = 3000;

    pub const INVITATION_LEAST: u32 = 1000;

    pub const INVITATION_GREATEST: u32 = 600000;
}

// The number of a timer, 0 for none.
pub fn timer_number(timer: Option<Timer>) -> u8
    ensures { result ≡ number_of_any timer }
{
    match timer {
        None => 0,
        Some(timer) => timer as u8,
    }
}

// The timer that runs, if any. In a fit context at most one does.
#[tactic(auto, unfolding(crate::specs::Timers::running_timer))]
pub fn running_timer(timers: Timers) -> Option<Timer>
    ensures { result ≡ running_timer timers }
{
    if timers.mmest {
        return Some(Timer::MmEst);
    }
    if timers.term {
        return Some(Timer::Term);
    }
    if timers.connreq {
        return Some(Timer::ConnReq);
    }
    if timers.nochannel {
        return Some(Timer::NoChannel);
    }
    if timers.pres {
        return Some(Timer::Pres);
    }
    None
}

// The timer whose expiry an event is, if it is one.
#[tactic(auto, unfolding(crate::specs::Timers::expired_timer))]
pub fn expired_timer(event: u32) -> Option<Timer>
    ensures { result ≡ expired_timer event }
{
    match event {
        event::MM_EST_EXPIRED => Some(Timer::MmEst),
        event::TERM_EXPIRED => Some(Timer::Term),
        event::CONN_REQ_EXPIRED => Some(Timer::ConnReq),
        event::NO_CHANNEL_EXPIRED => Some(Timer::NoChannel),
        event::PRES_EXPIRED => Some(Timer::Pres),
        _ => None,
    }
}

// The length of the timer of a number, in milliseconds, where the joining timer is set to `joining` and the invitation timer to `invitation`; 0 for no timer.
pub fn timer_length(joining: u32, invitation: u32, timer: u8) -> u32
    ensures { result ≡ length_of joining invitation timer }
{
    match timer {
        1 => milliseconds(joining, invitation, Timer::MmEst),
        2 => milliseconds(joining, invitation, Timer::Term),
        3 => milliseconds(joining, invitation, Timer::ConnReq),
        4 => milliseconds(joining, invitation, Timer::NoChannel),
        5 => milliseconds(joining, invitation, Timer::Pres),
        _ => 0,
    }
}

// The same of a timer that is told by what it is.
pub fn milliseconds(joining: u32, invitation: u32, timer: Timer) -> u32
    ensures { result ≡ (timer_row joining invitation timer).milliseconds }
{
    match timer {
        Timer::MmEst => Timers::MM_EST,
        Timer::Term => Timers::TERM,
        Timer::ConnReq => joining,
        Timer::NoChannel => Timers::NO_CHANNEL,
        Timer::Pres => invitation,
    }
}

// The timers with one of them, if any, running or not.
#[tactic(auto, unfolding(crate::specs::Timers::with_timer))]
pub fn with_timer(timer: Option<Timer>, runs: bool, timers: Timers) -> Timers
    ensures { result ≡ with_timer timer runs timers }
{
    match timer {
        None => timers,
        Some(Timer::MmEst) => Timers {
            mmest: runs,
            ..timers
        },
        Some(Timer::Term) => Timers {
            term: runs,
            ..timers
        },
        Some(Timer::ConnReq) => Timers {
            connreq: runs,
            ..timers
        },
        Some(Timer::NoChannel) => Timers {
            nochannel: runs,
            ..timers
        },
        Some(Timer::Pres) => Timers {
            pres: runs,
            ..timers
        },
    }
}
