// The step table's rows of events, state by state: what it says of an event's number and, for a message, its type code.
#![tactic(auto)]

ghost use Rattle.std.specs.Prelude.{◌≡◌};
ghost use Rattle.codes.specs.declared.state.State.TheVariants.{U0, U0p, U1, U2, U3, U4, U5, U6};
ghost use Rattle.codes.specs.declared.protocol.Protocol.TheVariants.{Broadcast};
ghost use Rattle.transitions.specs.Table.{rows_of, step_table, happened_in, decided_of};

use codes::protocol::Protocol;
use codes::state::State;
use codes::{action, event};
use context::Context;
use timer::Timer;
use transitions::{Decision, Memory, Note, Send, Stores, Taken};
use version::Table;

// 1, set-up request.
const SET_UP: Decision = Decision::Take(Taken {
    next: State::U0p,
    actions: action::REQUEST_MM,
    sends: Send::Nothing,
    stops: None,
    sets: Some(Timer::MmEst),
    stores: Stores::ValueAndReference,
    memory: Memory::Keep,
    note: Note::Nothing,
});

// 2, immediate set-up request.
const IMMEDIATE_SET_UP: Decision = Decision::Take(Taken {
    next: State::U1,
    actions: action::NONE,
    sends: Send::ImmediateSetup,
    stops: None,
    sets: Some(Timer::MmEst),
    stores: Stores::ValueAndReference,
    memory: Memory::Keep,
    note: Note::Nothing,
});

// 6, MM connection established.
const ESTABLISHED: Decision = Decision::Take(Taken {
    next: State::U1,
    actions: action::NONE,
    sends: Send::Setup,
    stops: Some(Timer::MmEst),
    sets: None,
    stores: Stores::Nothing,
    memory: Memory::Keep,
    note: Note::Nothing,
});

// 11, group receive mode entered.
const RECEIVE_MODE_ENTERED: Decision = Decision::Take(Taken {
    next: State::U6,
    actions: action::INFORM,
    sends: Send::Nothing,
    stops: Some(Timer::ConnReq),
    sets: None,
    stores: Stores::Nothing,
    memory: Memory::Keep,
    note: Note::Nothing,
});

// 12, no channel: T_no channel is set unless running.
const NO_CHANNEL: Decision = Decision::Take(Taken {
    next: State::U6,
    actions: action::INFORM,
    sends: Send::Nothing,
    stops: None,
    sets: Some(Timer::NoChannel),
    stores: Stores::Nothing,
    memory: Memory::Keep,
    note: Note::Nothing,
});

// The same while it runs.
const STILL_NO_CHANNEL: Decision = Decision::Take(Taken {
    next: State::U6,
    actions: action::INFORM,
    sends: Send::Nothing,
    stops: None,
    sets: None,
    stores: Stores::Nothing,
    memory: Memory::Keep,
    note: Note::Nothing,
});

// 13, channel available.
const CHANNEL_AVAILABLE: Decision = Decision::Take(Taken {
    next: State::U6,
    actions: action::INFORM,
    sends: Send::Nothing,
    stops: Some(Timer::NoChannel),
    sets: None,
    stores: Stores::Nothing,
    memory: Memory::Keep,
    note: Note::Nothing,
});

// No channel in U6.
fn no_channel_in_u6(table: Table, context: Context) -> Decision
    ensures { result ≡ happened_in (rows_of Broadcast table) U6 context 12 }
{
    let timers = context.timers;
    if timers.nochannel {
        return STILL_NO_CHANNEL;
    }
    NO_CHANNEL
}

fn in_u0(table: Table, context: Context, number: u8) -> Decision
    ensures { result ≡ happened_in (rows_of Broadcast table) U0 context number }
{
    match number {
        event::SET_UP => SET_UP,
        event::IMMEDIATE_SET_UP => IMMEDIATE_SET_UP,
        event::NOTIFIED => row_parts::notified(table),
        0..=0 | 3..=9 | 11..=255 => Decision::NoStep,
    }
}

fn in_u0p(table: Table, context: Context, number: u8) -> Decision
    ensures { result ≡ happened_in (rows_of Broadcast table) U0p context number }
{
    match number {
        event::MM_ESTABLISHED => ESTABLISHED,
        event::MM_FAILED => row_parts::ENDS,
        event::MM_EST_EXPIRED => row_parts::ENDS_ABORTING,
        event::RADIO_LINK_FAILURE => row_parts::ENDS_ABORTING,
        event::RELEASE => row_parts::ENDS_RELEASING,
        event::ABORT_OR_RELEASE => row_parts::ENDS_INFORMING_ABORTING,
        0..=4 | 10..=13 | 15..=255 => Decision::NoStep,
    }
}

fn in_u1(table: Table, context: Context, number: u8) -> Decision
    ensures { result ≡ happened_in (rows_of Broadcast table) U1 context number }
{
    let parameters = context.parameters;
    let timers = context.timers;
    match number {
        event::TERMINATE => row_parts::terminated(table, parameters.orig),
        event::MM_FAILED => row_parts::where_true(timers.mmest, row_parts::ENDS),
        event::MM_EST_EXPIRED => row_parts::where_true(timers.mmest, row_parts::ENDS_ABORTING),
        event::RADIO_LINK_FAILURE => row_parts::ENDS_ABORTING,
        event::RELEASE => row_parts::ENDS_RELEASING,
        event::ABORT_OR_RELEASE => row_parts::ENDS_INFORMING_ABORTING,
        0..=3 | 6..=6 | 10..=13 | 15..=255 => Decision::NoStep,
    }
}

fn in_u2(table: Table, context: Context, number: u8) -> Decision
    ensures { result ≡ happened_in (rows_of Broadcast table) U2 context number }
{
    let parameters = context.parameters;
    match number {
        event::TERMINATE => row_parts::terminated(table, parameters.orig),
        event::RELEASE => row_parts::ENDS_RELEASING,
        event::ABORT_OR_RELEASE => row_parts::ENDS_INFORMING_ABORTING,
        event::RADIO_LINK_FAILURE => row_parts::ENDS_INFORMING_ABORTING,
        0..=3 | 6..=7 | 10..=255 => Decision::NoStep,
    }
}

fn in_u3(table: Table, context: Context, number: u8) -> Decision
    ensures { result ≡ happened_in (rows_of Broadcast table) U3 context number }
{
    match number {
        event::JOIN => row_parts::joined(table),
        event::PRES_EXPIRED => row_parts::forgotten(table, context),
        event::RELEASE => row_parts::ENDS_RELEASING,
        event::ABORT_OR_RELEASE => row_parts::ENDS_INFORMING_ABORTING,
        event::RADIO_LINK_FAILURE => row_parts::ENDS_INFORMING_ABORTING,
        0..=2 | 4..=4 | 6..=7 | 10..=18 | 20..=255 => Decision::NoStep,
    }
}

fn in_u4(table: Table, context: Context, number: u8) -> Decision
    ensures { result ≡ happened_in (rows_of Broadcast table) U4 context number }
{
    match number {
        event::GROUP_RECEIVE => RECEIVE_MODE_ENTERED,
        event::CONN_REQ_EXPIRED => row_parts::ENDS_INFORMING_ABORTING,
        event::RELEASE => row_parts::ENDS_RELEASING,
        event::ABORT_OR_RELEASE => row_parts::ENDS_INFORMING_ABORTING,
        event::RADIO_LINK_FAILURE => row_parts::ENDS_INFORMING_ABORTING,
        0..=4 | 6..=7 | 10..=10 | 12..=15 | 17..=255 => Decision::NoStep,
    }
}

fn in_u5(table: Table, context: Context, number: u8) -> Decision
    ensures { result ≡ happened_in (rows_of Broadcast table) U5 context number }
{
    let timers = context.timers;
    match number {
        event::TERM_EXPIRED => row_parts::where_true(
            timers.term,
            row_parts::ENDS_INFORMING_ABORTING,
        ),
        event::RELEASE => row_parts::ENDS_RELEASING,
        event::ABORT_OR_RELEASE => row_parts::ENDS_INFORMING_ABORTING,
        event::RADIO_LINK_FAILURE => row_parts::ENDS_INFORMING_ABORTING,
        0..=4 | 6..=7 | 10..=14 | 16..=255 => Decision::NoStep,
    }
}

fn in_u6(table: Table, context: Context, number: u8) -> Decision
    ensures { result ≡ happened_in (rows_of Broadcast table) U6 context number }
{
    let timers = context.timers;
    match number {
        event::NO_CHANNEL => no_channel_in_u6(table, context),
        event::CHANNEL_AVAILABLE => CHANNEL_AVAILABLE,
        event::NO_CHANNEL_EXPIRED => row_parts::where_true(
            timers.nochannel,
            row_parts::ENDS_INFORMING_ABORTING,
        ),
        event::RELEASE => row_parts::ENDS_RELEASING,
        event::ABORT_OR_RELEASE => row_parts::ENDS_INFORMING_ABORTING,
        event::RADIO_LINK_FAILURE => row_parts::ENDS_INFORMING_ABORTING,
        0..=4 | 6..=7 | 10..=11 | 14..=16 | 18..=255 => Decision::NoStep,
    }
}

// An event that is no message, in the context's state, by the tables of broadcast calls. The sub-states of U2 have no row: these tables are of broadcast calls.
#[tactic(auto, unfolding(transitions::specs::Table::happened_in))]
fn happened(table: Table, context: Context, number: u8) -> Decision
    ensures { result ≡ happened_in (rows_of Broadcast table) context.state context number }
{
    let state = context.state;
    match state {
        State::U0 => in_u0(table, context, number),
        State::U0p => in_u0p(table, context, number),
        State::U1 => in_u1(table, context, number),
        State::U2 => in_u2(table, context, number),
        State::U3 => in_u3(table, context, number),
        State::U4 => in_u4(table, context, number),
        State::U5 => in_u5(table, context, number),
        State::U6 => in_u6(table, context, number),
        _ => Decision::NoStep,
    }
}

// The same by the table's protocol.
fn occurred(table: Table, context: Context, number: u8) -> Decision
    ensures { result ≡ happened_in (step_table table) context.state context number }
{
    match version::protocol(table) {
        Protocol::Broadcast => happened(table, context, number),
        Protocol::Group => group_rows::happened(context, number),
    }
}

// What the table says in the context's state.
pub fn decide(table: Table, context: Context, number: u8, code: u8) -> Decision
    ensures { result ≡ decided_of table context number code }
{
    if number == event::RECEIVED {
        return message_rows::decide(table, context, code);
    }
    occurred(table, context, number)
}
