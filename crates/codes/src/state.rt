// Call states, 9.4.2 of GSM 04.69 and of 24.068: the states of call control and their codes in a STATUS.
ghost use Rattle.std.specs.Prelude.{◌≡◌, None};
ghost use Rattle.octets.specs.Rows.{rows};
ghost use Rattle.codes.specs.CallStates.{broadcast_states, group_states, call_state_of, call_state_code};

use crate::protocol::Protocol;

// The states of the mobile station's side. U2 and U6 are a broadcast call's. A group call has sub-states in their place, in 24.068's order: separate link (U2sl), wait
// for receive mode (U2wr), receive mode (U2r), wait for send and receive mode (U2ws), send and receive mode (U2sr), no channel (U2nc).
#[derive(Clone, Copy, PartialEq)]
pub enum State {
    U0,
    U0p,
    U1,
    U2,
    U3,
    U4,
    U5,
    U6,
    U2sl,
    U2wr,
    U2r,
    U2ws,
    U2sr,
    U2nc,
}

// The state that a code names in a broadcast call.
fn broadcast_state(code: u8) -> Option<State>
    ensures { result ≡ rows code None broadcast_states }
{
    match code {
        0 => Some(State::U0),
        1 => Some(State::U1),
        2 => Some(State::U2),
        3 => Some(State::U3),
        4 => Some(State::U4),
        5 => Some(State::U5),
        6 => Some(State::U0p),
        7 => Some(State::U6),
        8..=255 => None,
    }
}

// The state that a code names in a group call.
fn group_state(code: u8) -> Option<State>
    ensures { result ≡ rows code None group_states }
{
    match code {
        0 => Some(State::U0),
        1 => Some(State::U1),
        2 => Some(State::U2sl),
        3 => Some(State::U3),
        4 => Some(State::U4),
        5 => Some(State::U5),
        6 => Some(State::U0p),
        7 => Some(State::U2wr),
        8 => Some(State::U2r),
        9 => Some(State::U2ws),
        10 => Some(State::U2sr),
        11 => Some(State::U2nc),
        12..=255 => None,
    }
}

// The state that a code names.
pub fn call_state_of(protocol: Protocol, code: u8) -> Option<State>
    ensures { result ≡ call_state_of protocol code }
{
    match protocol {
        Protocol::Broadcast => broadcast_state(code),
        Protocol::Group => group_state(code),
    }
}

// The code that names a state.
pub fn call_state_code(state: State) -> u8
    ensures { result ≡ call_state_code state }
{
    match state {
        State::U0 => 0,
        State::U0p => 6,
        State::U1 => 1,
        State::U2 => 2,
        State::U3 => 3,
        State::U4 => 4,
        State::U5 => 5,
        State::U6 => 7,
        State::U2sl => 2,
        State::U2wr => 7,
        State::U2r => 8,
        State::U2ws => 9,
        State::U2sr => 10,
        State::U2nc => 11,
    }
}
