// What the step table says of an event in a context. The table itself stands in specs/Table; the code that follows it is in message_rows, event_rows and group_rows.
#![tactic(auto)]

use codes::state::State;
use timer::Timer;

// What a row sends.
#[derive(Clone, Copy)]
pub enum Send {
    Nothing,
    ImmediateSetup,
    Setup,
    TerminationRequest,
}

// What is stored of what the event carries.
#[derive(Clone, Copy)]
pub enum Stores {
    Nothing,
    ValueAndReference,
    ItsReference,
    // CONNECT in a group call: its reference, and whether it names us as originator.
    ItsReferenceAndOriginator,
}

// What becomes of what is remembered: it stays, the state that is left is remembered, or it is forgotten.
#[derive(Clone, Copy)]
pub enum Memory {
    Keep,
    Remember,
    Forget,
}

// What a row of a group call notes: which side chose the transaction value, that a termination request or a STATUS is pending, or that the request is no longer.
#[derive(Clone, Copy)]
pub enum Note {
    Nothing,
    WeChose,
    CellChose,
    TerminationPends,
    StatusPends,
    TerminationDropped,
}

// A row that is taken: next state, actions, what is sent, the timer that is stopped, if any, the timer that is set, if any, what is stored, what is remembered, and what is noted.
// "Set unless running" sets none where the timer runs. The next state is a state: where a row returns to one that was remembered, whoever decides knows which.
#[derive(Clone, Copy)]
pub struct Taken {
    pub next: State,
    pub actions: u8,
    pub sends: Send,
    pub stops: Option<Timer>,
    pub sets: Option<Timer>,
    pub stores: Stores,
    pub memory: Memory,
    pub note: Note,
}

#[derive(Clone, Copy)]
pub enum Decision {
    // A row.
    Take(Taken),
    // No row: the event has no step here.
    NoStep,
    // A message that is ignored.
    Ignore,
    // A message that is reported with this cause: 97 is a type that does not exist, 98 one that is not compatible with the state.
    Report(u8),
    // GET STATUS.
    TellStatus,
    // SET PARAMETER.
    SetParameters,
}
