// The step table's rows of messages, state by state: what it says of a message of a type.
#![tactic(auto)]

ghost use Rattle.std.specs.Prelude.{◌≡◌};
ghost use Rattle.codes.specs.declared.state.State.TheVariants.{U0p, U1, U2, U5, U2sl};
ghost use Rattle.codes.specs.MessageTypes.{CONNECT, TERMINATION-REJECT};
ghost use Rattle.timer.specs.declared.Timer.TheVariants.{Term};
ghost use Rattle.context.specs.Remembered.{returning};
ghost use Rattle.transitions.specs.declared.Send.TheVariants.{Nothing};
ghost use Rattle.transitions.specs.declared.Stores.TheVariants as Stores;
ghost use Rattle.transitions.specs.declared.Memory.TheVariants.{Forget};
ghost use Rattle.transitions.specs.declared.Note.TheVariants as Note;
ghost use Rattle.codes.specs.declared.protocol.Protocol.TheVariants.{Broadcast};
ghost use Rattle.transitions.specs.declared.Decision.TheVariants.{Take};
ghost use Rattle.transitions.specs.Table.{rows_of, heard_in, decided_by, decided_of};

use codes::protocol::Protocol;
use codes::state::State;
use codes::{action, cause, message_type};
use context::{Context, Remembered};
use timer::Timer;
use transitions::{Decision, Memory, Note, Send, Stores, Taken};
use version::Table;

// CONNECT: 32 if in U1 with T_MM-est, else 0.
const CONNECTED: Decision = Decision::Take(Taken {
    next: State::U2,
    actions: action::NONE,
    sends: Send::Nothing,
    stops: Some(Timer::MmEst),
    sets: None,
    stores: Stores::ItsReference,
    memory: Memory::Keep,
    note: Note::Nothing,
});

// The same in U1 with T_MM-est.
const CONNECTED_IMPLICITLY: Decision = Decision::Take(Taken {
    next: State::U2,
    actions: action::TELL_MM_EXISTS,
    sends: Send::Nothing,
    stops: Some(Timer::MmEst),
    sets: None,
    stores: Stores::ItsReference,
    memory: Memory::Keep,
    note: Note::Nothing,
});

// TERMINATION REJECT in U5, by the first table: the radio stays there.
const REJECTED: Decision = Decision::Take(Taken {
    next: State::U5,
    actions: action::INFORM,
    sends: Send::Nothing,
    stops: Some(Timer::Term),
    sets: None,
    stores: Stores::Nothing,
    memory: Memory::Keep,
    note: Note::Nothing,
});

// TERMINATION, in all states but U0 and the sub-states of U2.
const TERMINATED: Decision = Decision::Take(Taken {
    next: State::U0,
    actions: action::INFORM + action::RELEASE,
    sends: Send::Nothing,
    stops: None,
    sets: None,
    stores: Stores::Nothing,
    memory: Memory::Keep,
    note: Note::Nothing,
});

// A type that is not compatible with the state.
const INCOMPATIBLE: Decision = Decision::Report(cause::TYPE_NOT_COMPATIBLE);

// A type that does not exist.
const UNKNOWN: Decision = Decision::Report(cause::TYPE_NON_EXISTENT);

// The same from the second table on: back to where the termination was asked from.
fn returned(remembered: Remembered) -> Decision
    ensures { result ≡ Take (record { next = returning remembered U5; actions = 1; sends = Nothing; stops = Some Term; sets = None; stores = Stores.Nothing; memory = Forget; note = Note.Nothing }) }
{
    let next = context::returning(remembered, State::U5);
    Decision::Take(Taken {
        next,
        actions: action::INFORM,
        sends: Send::Nothing,
        stops: Some(Timer::Term),
        sets: None,
        stores: Stores::Nothing,
        memory: Memory::Forget,
        note: Note::Nothing,
    })
}

// TERMINATION REJECT in U5.
#[tactic(auto, unfolding(transitions::specs::Table::heard_in))]
fn rejected(table: Table, context: Context) -> Decision
    ensures { result ≡ heard_in (rows_of Broadcast table) U5 context TERMINATION-REJECT }
{
    let remembered = context.remembered;
    match table {
        Table::First => REJECTED,
        _ => returned(remembered),
    }
}

// CONNECT in U1.
fn connected_in_u1(table: Table, context: Context) -> Decision
    ensures { result ≡ heard_in (rows_of Broadcast table) U1 context CONNECT }
{
    let timers = context.timers;
    if timers.mmest {
        return CONNECTED_IMPLICITLY;
    }
    CONNECTED
}

// A message in U0.p.
#[tactic(auto, unfolding(transitions::specs::Table::heard_in))]
fn heard_in_u0p(table: Table, context: Context, code: u8) -> Decision
    ensures { result ≡ heard_in (rows_of Broadcast table) U0p context code }
{
    match code {
        message_type::CONNECT => CONNECTED,
        message_type::TERMINATION => TERMINATED,
        message_type::GET_STATUS => Decision::TellStatus,
        message_type::SET_PARAMETER => Decision::SetParameters,
        message_type::IMMEDIATE_SETUP
        | message_type::SETUP
        | message_type::TERMINATION_REQUEST
        | message_type::TERMINATION_REJECT
        | message_type::STATUS => INCOMPATIBLE,
        0..=48 | 55..=55 | 59..=255 => UNKNOWN,
    }
}

// A message in U1.
#[tactic(auto, unfolding(transitions::specs::Table::heard_in))]
fn heard_in_u1(table: Table, context: Context, code: u8) -> Decision
    ensures { result ≡ heard_in (rows_of Broadcast table) U1 context code }
{
    match code {
        message_type::CONNECT => connected_in_u1(table, context),
        message_type::TERMINATION => TERMINATED,
        message_type::GET_STATUS => Decision::TellStatus,
        message_type::SET_PARAMETER => Decision::SetParameters,
        message_type::IMMEDIATE_SETUP
        | message_type::SETUP
        | message_type::TERMINATION_REQUEST
        | message_type::TERMINATION_REJECT
        | message_type::STATUS => INCOMPATIBLE,
        0..=48 | 55..=55 | 59..=255 => UNKNOWN,
    }
}

// A message in U5.
#[tactic(auto, unfolding(transitions::specs::Table::heard_in))]
fn heard_in_u5(table: Table, context: Context, code: u8) -> Decision
    ensures { result ≡ heard_in (rows_of Broadcast table) U5 context code }
{
    match code {
        message_type::TERMINATION => TERMINATED,
        message_type::TERMINATION_REJECT => rejected(table, context),
        message_type::GET_STATUS => Decision::TellStatus,
        message_type::SET_PARAMETER => Decision::SetParameters,
        message_type::IMMEDIATE_SETUP
        | message_type::SETUP
        | message_type::CONNECT
        | message_type::TERMINATION_REQUEST
        | message_type::STATUS => INCOMPATIBLE,
        0..=48 | 55..=55 | 59..=255 => UNKNOWN,
    }
}

// A message in U2, and so in U3, U4 and U6.
#[tactic(auto, unfolding(transitions::specs::Table::heard_in))]
fn heard_elsewhere(table: Table, context: Context, code: u8) -> Decision
    ensures { result ≡ heard_in (rows_of Broadcast table) U2 context code }
{
    match code {
        message_type::TERMINATION => TERMINATED,
        message_type::GET_STATUS => Decision::TellStatus,
        message_type::SET_PARAMETER => Decision::SetParameters,
        message_type::IMMEDIATE_SETUP
        | message_type::SETUP
        | message_type::CONNECT
        | message_type::TERMINATION_REQUEST
        | message_type::TERMINATION_REJECT
        | message_type::STATUS => INCOMPATIBLE,
        0..=48 | 55..=55 | 59..=255 => UNKNOWN,
    }
}

// A message in U2sl, and so in every sub-state of U2: these tables have no row of a group call.
#[tactic(auto, unfolding(transitions::specs::Table::heard_in))]
fn heard_in_sub_state(table: Table, context: Context, code: u8) -> Decision
    ensures { result ≡ heard_in (rows_of Broadcast table) U2sl context code }
{
    match code {
        message_type::GET_STATUS => Decision::TellStatus,
        message_type::SET_PARAMETER => Decision::SetParameters,
        message_type::IMMEDIATE_SETUP
        | message_type::SETUP
        | message_type::CONNECT
        | message_type::TERMINATION
        | message_type::TERMINATION_REQUEST
        | message_type::TERMINATION_REJECT
        | message_type::STATUS => INCOMPATIBLE,
        0..=48 | 55..=55 | 59..=255 => UNKNOWN,
    }
}

// What the tables of broadcast calls say of a message of a type in the context's state.
#[tactic(auto, unfolding(transitions::specs::Table::decided_by, transitions::specs::Table::decided_in, transitions::specs::Table::heard_in))]
fn heard(table: Table, context: Context, code: u8) -> Decision
    ensures { result ≡ decided_by (rows_of Broadcast table) context 18 code }
{
    let state = context.state;
    match state {
        State::U0 => Decision::Ignore,
        State::U0p => heard_in_u0p(table, context, code),
        State::U1 => heard_in_u1(table, context, code),
        State::U5 => heard_in_u5(table, context, code),
        State::U2 | State::U3 | State::U4 | State::U6 => heard_elsewhere(table, context, code),
        State::U2sl | State::U2wr | State::U2r | State::U2ws | State::U2sr | State::U2nc =>
            heard_in_sub_state(table, context, code),
    }
}

// What the table says of a message of a type in the context's state. It is asked before a message is read, and by itself it is small.
pub fn decide(table: Table, context: Context, code: u8) -> Decision
    ensures { result ≡ decided_of table context 18 code }
{
    match version::protocol(table) {
        Protocol::Broadcast => heard(table, context, code),
        Protocol::Group => group_rows::heard(context, code),
    }
}
