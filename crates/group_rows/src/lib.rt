// The step table's rows of a group call, 24.068, 6.2 to 6.5: what it says of an event's number and of a message's type, state by state.
#![tactic(auto)]

ghost use Rattle.std.specs.Prelude.{◌≡◌, ◌++◌};
ghost use Rattle.codes.specs.declared.protocol.Protocol.TheVariants.{Group};
ghost use Rattle.codes.specs.declared.state.State.TheVariants.{U0, U0p, U1, U3, U4, U5, U2sl, U2wr, U2r, U2ws, U2sr, U2nc};
ghost use Rattle.codes.specs.MessageTypes.{CONNECT};
ghost use Rattle.octets.specs.Rows.{rows};
ghost use Rattle.version.specs.declared.Table.TheVariants as Table;
ghost use Rattle.transitions.specs.declared.Decision.TheVariants.{NoStep, Report};
ghost use Rattle.transitions.specs.Table.{sentences, incompatible, rows_of, heard_in, happened_in, decided_by};
ghost use Rattle.group_rows.specs.Rows.{staying, returned_to, changing, sub_state_rows, staying_types};

use codes::state::State;
use codes::{action, cause, event, message_type};
use context::{Context, Remembered};
use row_parts::{ENDS, ENDS_ABORTING, ENDS_INFORMING_ABORTING, ENDS_RELEASING, where_true};
use timer::Timer;
use transitions::{Decision, Memory, Note, Send, Stores, Taken};

// 1, set-up request: we chose the value.
const SET_UP: Decision = Decision::Take(Taken {
    next: State::U0p,
    actions: action::REQUEST_MM,
    sends: Send::Nothing,
    stops: None,
    sets: Some(Timer::MmEst),
    stores: Stores::ValueAndReference,
    memory: Memory::Keep,
    note: Note::WeChose,
});

// 2, immediate set-up request.
const IMMEDIATE_SET_UP: Decision = Decision::Take(Taken {
    next: State::U1,
    actions: action::NONE,
    sends: Send::ImmediateSetup,
    stops: None,
    sets: Some(Timer::MmEst),
    stores: Stores::ValueAndReference,
    memory: Memory::Keep,
    note: Note::WeChose,
});

// 10, notified: the cell chose the value.
const NOTIFIED: Decision = Decision::Take(Taken {
    next: State::U3,
    actions: action::INFORM,
    sends: Send::Nothing,
    stops: None,
    sets: None,
    stores: Stores::ValueAndReference,
    memory: Memory::Keep,
    note: Note::CellChose,
});

// 3, join.
const JOINED: Decision = Decision::Take(Taken {
    next: State::U4,
    actions: action::REQUEST_GROUP_RECEIVE,
    sends: Send::Nothing,
    stops: None,
    sets: Some(Timer::ConnReq),
    stores: Stores::Nothing,
    memory: Memory::Keep,
    note: Note::Nothing,
});

// 6, MM connection established.
const ESTABLISHED: Decision = Decision::Take(Taken {
    next: State::U1,
    actions: action::NONE,
    sends: Send::Setup,
    stops: Some(Timer::MmEst),
    sets: None,
    stores: Stores::Nothing,
    memory: Memory::Keep,
    note: Note::Nothing,
});

// 11, 34 and 35 in U4: the mode that RR entered.
const JOINED_RECEIVING: Decision = Decision::Take(Taken {
    next: State::U2r,
    actions: action::INFORM,
    sends: Send::Nothing,
    stops: Some(Timer::ConnReq),
    sets: None,
    stores: Stores::Nothing,
    memory: Memory::Keep,
    note: Note::Nothing,
});

const JOINED_SENDING: Decision = Decision::Take(Taken {
    next: State::U2sr,
    actions: action::INFORM,
    sends: Send::Nothing,
    stops: Some(Timer::ConnReq),
    sets: None,
    stores: Stores::Nothing,
    memory: Memory::Keep,
    note: Note::Nothing,
});

const JOINED_SEPARATELY: Decision = Decision::Take(Taken {
    next: State::U2sl,
    actions: action::INFORM,
    sends: Send::Nothing,
    stops: Some(Timer::ConnReq),
    sets: None,
    stores: Stores::Nothing,
    memory: Memory::Keep,
    note: Note::Nothing,
});

// 32, request receive mode.
const RECEIVE_MODE_REQUESTED: Decision = Decision::Take(Taken {
    next: State::U2wr,
    actions: action::REQUEST_GROUP_RECEIVE,
    sends: Send::Nothing,
    stops: None,
    sets: None,
    stores: Stores::Nothing,
    memory: Memory::Keep,
    note: Note::Nothing,
});

// 33, request talk.
const TALK_REQUESTED: Decision = Decision::Take(Taken {
    next: State::U2ws,
    actions: action::REQUEST_GROUP_TRANSMIT,
    sends: Send::Nothing,
    stops: None,
    sets: None,
    stores: Stores::Nothing,
    memory: Memory::Keep,
    note: Note::Nothing,
});

// 11, 34 and 35 in a sub-state of U2.
const RECEIVING: Decision = Decision::Take(Taken {
    next: State::U2r,
    actions: action::NONE,
    sends: Send::Nothing,
    stops: Some(Timer::NoChannel),
    sets: None,
    stores: Stores::Nothing,
    memory: Memory::Keep,
    note: Note::Nothing,
});

const SENDING: Decision = Decision::Take(Taken {
    next: State::U2sr,
    actions: action::NONE,
    sends: Send::Nothing,
    stops: Some(Timer::NoChannel),
    sets: None,
    stores: Stores::Nothing,
    memory: Memory::Keep,
    note: Note::Nothing,
});

const SEPARATE: Decision = Decision::Take(Taken {
    next: State::U2sl,
    actions: action::NONE,
    sends: Send::Nothing,
    stops: Some(Timer::NoChannel),
    sets: None,
    stores: Stores::Nothing,
    memory: Memory::Keep,
    note: Note::Nothing,
});

// 12, no channel: T_no channel is set unless running.
const NO_CHANNEL: Decision = Decision::Take(Taken {
    next: State::U2nc,
    actions: action::NONE,
    sends: Send::Nothing,
    stops: None,
    sets: Some(Timer::NoChannel),
    stores: Stores::Nothing,
    memory: Memory::Keep,
    note: Note::Nothing,
});

// The same while it runs.
const STILL_NO_CHANNEL: Decision = Decision::Take(Taken {
    next: State::U2nc,
    actions: action::NONE,
    sends: Send::Nothing,
    stops: None,
    sets: None,
    stores: Stores::Nothing,
    memory: Memory::Keep,
    note: Note::Nothing,
});

// 4, terminate, in U2r: talk is asked for.
const ASKED_IN_U2R: Decision = Decision::Take(Taken {
    next: State::U2ws,
    actions: action::REQUEST_GROUP_TRANSMIT,
    sends: Send::Nothing,
    stops: None,
    sets: None,
    stores: Stores::Nothing,
    memory: Memory::Keep,
    note: Note::TerminationPends,
});

// GET STATUS in U2r: talk is asked for.
const STATUS_IN_U2R: Decision = Decision::Take(Taken {
    next: State::U2ws,
    actions: action::REQUEST_GROUP_TRANSMIT,
    sends: Send::Nothing,
    stops: None,
    sets: None,
    stores: Stores::Nothing,
    memory: Memory::Keep,
    note: Note::StatusPends,
});

// CONNECT: 32 if in U1 with T_MM-est, else 0.
const CONNECTED: Decision = Decision::Take(Taken {
    next: State::U2sl,
    actions: action::NONE,
    sends: Send::Nothing,
    stops: Some(Timer::MmEst),
    sets: None,
    stores: Stores::ItsReferenceAndOriginator,
    memory: Memory::Keep,
    note: Note::Nothing,
});

// The same in U1 with T_MM-est.
const CONNECTED_IMPLICITLY: Decision = Decision::Take(Taken {
    next: State::U2sl,
    actions: action::TELL_MM_EXISTS,
    sends: Send::Nothing,
    stops: Some(Timer::MmEst),
    sets: None,
    stores: Stores::ItsReferenceAndOriginator,
    memory: Memory::Keep,
    note: Note::Nothing,
});

// TERMINATION, in all states but U0.
const TERMINATED: Decision = Decision::Take(Taken {
    next: State::U0,
    actions: action::INFORM + action::RELEASE,
    sends: Send::Nothing,
    stops: None,
    sets: None,
    stores: Stores::Nothing,
    memory: Memory::Keep,
    note: Note::Nothing,
});

// A type that is not compatible with the state, and one that does not exist.
const INCOMPATIBLE: Decision = Decision::Report(cause::TYPE_NOT_COMPATIBLE);

const UNKNOWN: Decision = Decision::Report(cause::TYPE_NON_EXISTENT);

// A row that stays in its state and notes something.
fn staying(state: State, note: Note) -> Decision
    ensures { result ≡ staying state note }
{
    Decision::Take(Taken {
        next: state,
        actions: action::NONE,
        sends: Send::Nothing,
        stops: None,
        sets: None,
        stores: Stores::Nothing,
        memory: Memory::Keep,
        note,
    })
}

// TERMINATION REJECT in U5: back to where the termination was asked from.
fn returned(remembered: Remembered) -> Decision
    ensures { result ≡ returned_to remembered }
{
    let next = context::returning(remembered, State::U5);
    Decision::Take(Taken {
        next,
        actions: action::INFORM,
        sends: Send::Nothing,
        stops: Some(Timer::Term),
        sets: None,
        stores: Stores::Nothing,
        memory: Memory::Forget,
        note: Note::Nothing,
    })
}

// No channel in a sub-state of U2.
fn no_channel(runs: bool) -> Decision
    ensures { result ≡ changing runs }
{
    if runs {
        return STILL_NO_CHANNEL;
    }
    NO_CHANNEL
}

// What every sub-state of U2 has; 4 differs in U2r.
fn in_sub_state(state: State, asked: Decision, context: Context, number: u8) -> Decision
    ensures { result ≡ rows number NoStep (sub_state_rows state asked context) }
{
    let parameters = context.parameters;
    let timers = context.timers;
    let talk = context.talk;
    let dropped = staying(state, Note::TerminationDropped);
    match number {
        event::NO_CHANNEL => no_channel(timers.nochannel),
        event::GROUP_RECEIVE => RECEIVING,
        event::GROUP_TRANSMIT => SENDING,
        event::DEDICATED => SEPARATE,
        event::TERMINATE => where_true(parameters.orig, asked),
        event::DELETE_REQUEST => where_true(talk.termination, dropped),
        event::RELEASE => ENDS_RELEASING,
        event::ABORT_OR_RELEASE => ENDS_INFORMING_ABORTING,
        event::RADIO_LINK_FAILURE => ENDS_INFORMING_ABORTING,
        0..=3 | 6..=7 | 10..=10 | 13..=33 | 37..=255 => Decision::NoStep,
    }
}

fn in_u2sl(context: Context, number: u8) -> Decision
    ensures { result ≡ happened_in (rows_of Group Table.Group) U2sl context number }
{
    if number == event::RECEIVE_MODE {
        return RECEIVE_MODE_REQUESTED;
    }
    let asked = staying(State::U2sl, Note::TerminationPends);
    in_sub_state(State::U2sl, asked, context, number)
}

fn in_u2wr(context: Context, number: u8) -> Decision
    ensures { result ≡ happened_in (rows_of Group Table.Group) U2wr context number }
{
    if number == event::TALK {
        return TALK_REQUESTED;
    }
    let asked = staying(State::U2wr, Note::TerminationPends);
    in_sub_state(State::U2wr, asked, context, number)
}

fn in_u2r(context: Context, number: u8) -> Decision
    ensures { result ≡ happened_in (rows_of Group Table.Group) U2r context number }
{
    if number == event::TALK {
        return TALK_REQUESTED;
    }
    in_sub_state(State::U2r, ASKED_IN_U2R, context, number)
}

fn in_u2ws(context: Context, number: u8) -> Decision
    ensures { result ≡ happened_in (rows_of Group Table.Group) U2ws context number }
{
    let asked = staying(State::U2ws, Note::TerminationPends);
    in_sub_state(State::U2ws, asked, context, number)
}

fn in_u2sr(context: Context, number: u8) -> Decision
    ensures { result ≡ happened_in (rows_of Group Table.Group) U2sr context number }
{
    if number == event::RECEIVE_MODE {
        return RECEIVE_MODE_REQUESTED;
    }
    let asked = staying(State::U2sr, Note::TerminationPends);
    in_sub_state(State::U2sr, asked, context, number)
}

fn in_u2nc(context: Context, number: u8) -> Decision
    ensures { result ≡ happened_in (rows_of Group Table.Group) U2nc context number }
{
    let timers = context.timers;
    if number == event::NO_CHANNEL_EXPIRED {
        return where_true(timers.nochannel, ENDS_INFORMING_ABORTING);
    }
    let asked = staying(State::U2nc, Note::TerminationPends);
    in_sub_state(State::U2nc, asked, context, number)
}

fn in_u0(context: Context, number: u8) -> Decision
    ensures { result ≡ happened_in (rows_of Group Table.Group) U0 context number }
{
    match number {
        event::SET_UP => SET_UP,
        event::IMMEDIATE_SET_UP => IMMEDIATE_SET_UP,
        event::NOTIFIED => NOTIFIED,
        0..=0 | 3..=9 | 11..=255 => Decision::NoStep,
    }
}

fn in_u0p(context: Context, number: u8) -> Decision
    ensures { result ≡ happened_in (rows_of Group Table.Group) U0p context number }
{
    match number {
        event::MM_ESTABLISHED => ESTABLISHED,
        event::MM_FAILED => ENDS,
        event::MM_EST_EXPIRED => ENDS_ABORTING,
        event::RADIO_LINK_FAILURE => ENDS_ABORTING,
        event::RELEASE => ENDS_RELEASING,
        event::ABORT_OR_RELEASE => ENDS_INFORMING_ABORTING,
        0..=4 | 10..=13 | 15..=255 => Decision::NoStep,
    }
}

fn in_u1(context: Context, number: u8) -> Decision
    ensures { result ≡ happened_in (rows_of Group Table.Group) U1 context number }
{
    let parameters = context.parameters;
    let timers = context.timers;
    let talk = context.talk;
    let asked = staying(State::U1, Note::TerminationPends);
    let dropped = staying(State::U1, Note::TerminationDropped);
    match number {
        event::TERMINATE => where_true(parameters.orig, asked),
        event::DELETE_REQUEST => where_true(talk.termination, dropped),
        event::MM_FAILED => where_true(timers.mmest, ENDS),
        event::MM_EST_EXPIRED => where_true(timers.mmest, ENDS_ABORTING),
        event::RADIO_LINK_FAILURE => ENDS_ABORTING,
        event::RELEASE => ENDS_RELEASING,
        event::ABORT_OR_RELEASE => ENDS_INFORMING_ABORTING,
        0..=3 | 6..=6 | 10..=13 | 15..=35 | 37..=255 => Decision::NoStep,
    }
}

fn in_u3(context: Context, number: u8) -> Decision
    ensures { result ≡ happened_in (rows_of Group Table.Group) U3 context number }
{
    match number {
        event::JOIN => JOINED,
        event::PRES_EXPIRED => Decision::NoStep,
        event::RELEASE => ENDS_RELEASING,
        event::ABORT_OR_RELEASE => ENDS_INFORMING_ABORTING,
        event::RADIO_LINK_FAILURE => ENDS_INFORMING_ABORTING,
        0..=2 | 4..=4 | 6..=7 | 10..=18 | 20..=255 => Decision::NoStep,
    }
}

fn in_u4(context: Context, number: u8) -> Decision
    ensures { result ≡ happened_in (rows_of Group Table.Group) U4 context number }
{
    match number {
        event::GROUP_TRANSMIT => JOINED_SENDING,
        event::DEDICATED => JOINED_SEPARATELY,
        event::GROUP_RECEIVE => JOINED_RECEIVING,
        event::CONN_REQ_EXPIRED => ENDS_INFORMING_ABORTING,
        event::RELEASE => ENDS_RELEASING,
        event::ABORT_OR_RELEASE => ENDS_INFORMING_ABORTING,
        event::RADIO_LINK_FAILURE => ENDS_INFORMING_ABORTING,
        0..=4 | 6..=7 | 10..=10 | 12..=15 | 17..=33 | 36..=255 => Decision::NoStep,
    }
}

fn in_u5(context: Context, number: u8) -> Decision
    ensures { result ≡ happened_in (rows_of Group Table.Group) U5 context number }
{
    let timers = context.timers;
    match number {
        event::TERM_EXPIRED => where_true(timers.term, ENDS_INFORMING_ABORTING),
        event::RELEASE => ENDS_RELEASING,
        event::ABORT_OR_RELEASE => ENDS_INFORMING_ABORTING,
        event::RADIO_LINK_FAILURE => ENDS_INFORMING_ABORTING,
        0..=4 | 6..=7 | 10..=14 | 16..=255 => Decision::NoStep,
    }
}

// What the table says of an event that is no message, in the context's state. U2 and U6 are no states of a group call.
#[tactic(auto, unfolding(transitions::specs::Table::happened_in))]
pub fn happened(context: Context, number: u8) -> Decision
    ensures { result ≡ happened_in (rows_of Group Table.Group) context.state context number }
{
    let state = context.state;
    match state {
        State::U0 => in_u0(context, number),
        State::U0p => in_u0p(context, number),
        State::U1 => in_u1(context, number),
        State::U2 | State::U6 => Decision::NoStep,
        State::U3 => in_u3(context, number),
        State::U4 => in_u4(context, number),
        State::U5 => in_u5(context, number),
        State::U2sl => in_u2sl(context, number),
        State::U2wr => in_u2wr(context, number),
        State::U2r => in_u2r(context, number),
        State::U2ws => in_u2ws(context, number),
        State::U2sr => in_u2sr(context, number),
        State::U2nc => in_u2nc(context, number),
    }
}

// CONNECT in U1.
fn connected_in_u1(context: Context) -> Decision
    ensures { result ≡ heard_in (rows_of Group Table.Group) U1 context CONNECT }
{
    let timers = context.timers;
    if timers.mmest {
        return CONNECTED_IMPLICITLY;
    }
    CONNECTED
}

#[tactic(auto, unfolding(transitions::specs::Table::heard_in))]
fn heard_in_u0p(context: Context, code: u8) -> Decision
    ensures { result ≡ heard_in (rows_of Group Table.Group) U0p context code }
{
    match code {
        message_type::CONNECT => CONNECTED,
        message_type::TERMINATION => TERMINATED,
        message_type::GET_STATUS => staying(State::U0p, Note::StatusPends),
        message_type::SET_PARAMETER => Decision::SetParameters,
        message_type::IMMEDIATE_SETUP
        | message_type::SETUP
        | message_type::TERMINATION_REQUEST
        | message_type::TERMINATION_REJECT
        | message_type::STATUS => INCOMPATIBLE,
        0..=48 | 55..=55 | 59..=255 => UNKNOWN,
    }
}

#[tactic(auto, unfolding(transitions::specs::Table::heard_in))]
fn heard_in_u1(context: Context, code: u8) -> Decision
    ensures { result ≡ heard_in (rows_of Group Table.Group) U1 context code }
{
    match code {
        message_type::CONNECT => connected_in_u1(context),
        message_type::TERMINATION => TERMINATED,
        message_type::GET_STATUS => staying(State::U1, Note::StatusPends),
        message_type::SET_PARAMETER => Decision::SetParameters,
        message_type::IMMEDIATE_SETUP
        | message_type::SETUP
        | message_type::TERMINATION_REQUEST
        | message_type::TERMINATION_REJECT
        | message_type::STATUS => INCOMPATIBLE,
        0..=48 | 55..=55 | 59..=255 => UNKNOWN,
    }
}

#[tactic(auto, unfolding(transitions::specs::Table::heard_in))]
fn heard_in_u2r(context: Context, code: u8) -> Decision
    ensures { result ≡ heard_in (rows_of Group Table.Group) U2r context code }
{
    match code {
        message_type::TERMINATION => TERMINATED,
        message_type::GET_STATUS => STATUS_IN_U2R,
        message_type::SET_PARAMETER => Decision::SetParameters,
        message_type::IMMEDIATE_SETUP
        | message_type::SETUP
        | message_type::CONNECT
        | message_type::TERMINATION_REQUEST
        | message_type::TERMINATION_REJECT
        | message_type::STATUS => INCOMPATIBLE,
        0..=48 | 55..=55 | 59..=255 => UNKNOWN,
    }
}

#[tactic(auto, unfolding(transitions::specs::Table::heard_in))]
fn heard_in_u5(context: Context, code: u8) -> Decision
    ensures { result ≡ heard_in (rows_of Group Table.Group) U5 context code }
{
    let remembered = context.remembered;
    match code {
        message_type::TERMINATION => TERMINATED,
        message_type::TERMINATION_REJECT => returned(remembered),
        message_type::GET_STATUS => staying(State::U5, Note::StatusPends),
        message_type::SET_PARAMETER => Decision::SetParameters,
        message_type::IMMEDIATE_SETUP
        | message_type::SETUP
        | message_type::CONNECT
        | message_type::TERMINATION_REQUEST
        | message_type::STATUS => INCOMPATIBLE,
        0..=48 | 55..=55 | 59..=255 => UNKNOWN,
    }
}

// A message in every other state: GET STATUS stays there.
fn heard_staying(state: State, code: u8) -> Decision
    ensures { result ≡ rows code (Report 97) (staying_types state) }
{
    match code {
        message_type::TERMINATION => TERMINATED,
        message_type::GET_STATUS => staying(state, Note::StatusPends),
        message_type::SET_PARAMETER => Decision::SetParameters,
        message_type::IMMEDIATE_SETUP
        | message_type::SETUP
        | message_type::CONNECT
        | message_type::TERMINATION_REQUEST
        | message_type::TERMINATION_REJECT
        | message_type::STATUS => INCOMPATIBLE,
        0..=48 | 55..=55 | 59..=255 => UNKNOWN,
    }
}

// A message in U2 and U6, which a group call does not have.
fn heard_nowhere(code: u8) -> Decision
    ensures { result ≡ rows code (Report 97) (sentences ++ incompatible) }
{
    match code {
        message_type::GET_STATUS => Decision::TellStatus,
        message_type::SET_PARAMETER => Decision::SetParameters,
        message_type::IMMEDIATE_SETUP
        | message_type::SETUP
        | message_type::CONNECT
        | message_type::TERMINATION
        | message_type::TERMINATION_REQUEST
        | message_type::TERMINATION_REJECT
        | message_type::STATUS => INCOMPATIBLE,
        0..=48 | 55..=55 | 59..=255 => UNKNOWN,
    }
}

// What the table says of a message of a type in the context's state.
#[tactic(auto, unfolding(transitions::specs::Table::decided_by, transitions::specs::Table::decided_in, transitions::specs::Table::heard_in))]
pub fn heard(context: Context, code: u8) -> Decision
    ensures { result ≡ decided_by (rows_of Group Table.Group) context 18 code }
{
    let state = context.state;
    match state {
        State::U0 => Decision::Ignore,
        State::U0p => heard_in_u0p(context, code),
        State::U1 => heard_in_u1(context, code),
        State::U5 => heard_in_u5(context, code),
        State::U2r => heard_in_u2r(context, code),
        State::U2 | State::U6 => heard_nowhere(code),
        _ => heard_staying(state, code),
    }
}
