// The context of a call: its state, parameters, timers, transaction value and reference, where a termination was asked from, and what only a group call keeps; what
// a state starts with, and which flag is expected.
#![tactic(auto)]

ghost use Rattle.std.specs.Prelude.{◌≡◌};
ghost use Rattle.context.specs.States.{number_of};
ghost use Rattle.context.specs.Talk.{flag_in, flag_of, chooser_number};
ghost use Rattle.context.specs.Context.{start_row, set_row, set_or_kept, entering, cleared};
ghost use Rattle.context.specs.Remembered.{remembered_number, remembering, returning};

use codes::attributes::Parameters;
use codes::state::State;
use octets::Reference;
use timer::Timers;

#[derive(Clone, Copy)]
pub struct Context {
    pub state: State,
    pub parameters: Parameters,
    pub timers: Timers,
    pub value: u8,
    pub reference: Reference,
    pub remembered: Remembered,
    pub talk: Talk,
}

// Where a termination was asked from: nothing is remembered, or one of the states that it can be asked from, by its number.
#[derive(Clone, Copy)]
pub enum Remembered {
    Nothing = 0,
    U1 = 2,
    U2 = 3,
    U2sl = 8,
    U2wr = 9,
    U2ws = 11,
    U2sr = 12,
}

// Which side chose the transaction value.
#[derive(Clone, Copy)]
pub enum Chooser {
    Neither,
    Us,
    Cell,
}

// What only a group call keeps: which side chose the transaction value, whether a termination request and a STATUS wait for COMM, and whether the value of the next
// message is awaited. In a broadcast call it is neither, and false.
#[derive(Clone, Copy)]
pub struct Talk {
    pub chooser: Chooser,
    pub termination: bool,
    pub status: bool,
    pub awaiting: bool,
}

// What each state starts with, in the order of the states' numbers: ORIG, COMM, D-ATT, U-ATT. Clauses 6.1.2.1.2 to 6.1.2.1.9 of GSM 04.69, and 6.1.2.1.9.1 to
// 6.1.2.1.9.6 of 24.068 for the sub-states of U2.
pub const START_ROWS: [[bool; 4]; 14] = [
    [false, false, false, false],
    [true, false, false, false],
    [true, true, false, false],
    [true, true, true, true],
    [false, false, false, false],
    [false, false, false, false],
    [true, true, true, true],
    [false, false, true, false],
    [false, true, true, true],
    [false, true, true, false],
    [false, false, true, false],
    [false, false, true, true],
    [false, false, true, true],
    [false, false, true, true],
];

// Which of the four a state sets; the others keep what they were. A group call keeps ORIG from sub-state to sub-state, and COMM where it enters U2sr.
pub const SET_ROWS: [[bool; 4]; 14] = [
    [true, true, true, true],
    [true, true, true, true],
    [true, true, true, true],
    [true, true, true, true],
    [true, true, true, true],
    [true, true, true, true],
    [true, true, true, true],
    [true, true, true, true],
    [false, true, true, true],
    [false, true, true, true],
    [false, true, true, true],
    [false, true, true, true],
    [false, false, true, true],
    [false, true, true, true],
];

// U2sl, the first sub-state of U2, by its number.
const U2SL: usize = 8;

impl Context {
    // U0, parameters false, no timer, value 0, reference zero, nothing remembered, nothing of a group call.
    pub fn cleared() -> Context
        ensures { result ≡ cleared }
    {
        Context {
            state: State::U0,
            parameters: Parameters {
                orig: false,
                comm: false,
                datt: false,
                uatt: false,
            },
            timers: Timers {
                mmest: false,
                term: false,
                connreq: false,
                nochannel: false,
                pres: false,
            },
            value: 0,
            reference: Reference {
                first: 0,
                second: 0,
                third: 0,
                fourth: 0,
            },
            remembered: Remembered::Nothing,
            talk: Talk {
                chooser: Chooser::Neither,
                termination: false,
                status: false,
                awaiting: false,
            },
        }
    }
}

// What is remembered, as a number: that of the state, and 0 for nothing.
#[tactic(auto, unfolding(crate::specs::Remembered::remembered_number))]
pub fn remembered_number(remembered: Remembered) -> u8
    ensures { result ≡ remembered_number remembered }
{
    remembered as u8
}

// What is remembered where a termination is asked from a state.
#[tactic(auto, unfolding(crate::specs::Remembered::remembering))]
pub fn remembering(state: State) -> Remembered
    ensures { result ≡ remembering state }
{
    match state {
        State::U1 => Remembered::U1,
        State::U2 => Remembered::U2,
        State::U2sl => Remembered::U2sl,
        State::U2wr => Remembered::U2wr,
        State::U2ws => Remembered::U2ws,
        State::U2sr => Remembered::U2sr,
        _ => Remembered::Nothing,
    }
}

// The state that is returned to; where nothing is remembered, the one that is.
#[tactic(auto, unfolding(crate::specs::Remembered::returning))]
pub fn returning(remembered: Remembered, here: State) -> State
    ensures { result ≡ returning remembered here }
{
    match remembered {
        Remembered::Nothing => here,
        Remembered::U1 => State::U1,
        Remembered::U2 => State::U2,
        Remembered::U2sl => State::U2sl,
        Remembered::U2wr => State::U2wr,
        Remembered::U2ws => State::U2ws,
        Remembered::U2sr => State::U2sr,
    }
}

// The state's number: its row in the table of start rows, and its number in the log.
pub fn state_number(state: State) -> usize
    ensures { result ≡ number_of state }
{
    state as usize
}

// The parameters that a state starts with, taken from the table.
pub fn start_row(state: State) -> Parameters
    ensures { result ≡ start_row state }
{
    let number = state_number(state);
    let row = START_ROWS[number];
    Parameters {
        orig: row[0],
        comm: row[1],
        datt: row[2],
        uatt: row[3],
    }
}

// Which parameters a state sets, taken from the table.
fn set_row(state: State) -> Parameters
    ensures { result ≡ set_row state }
{
    let number = state_number(state);
    let row = SET_ROWS[number];
    Parameters {
        orig: row[0],
        comm: row[1],
        datt: row[2],
        uatt: row[3],
    }
}

// What is set, and what is kept of what they were.
fn set_or_kept(sets: Parameters, row: Parameters, before: Parameters) -> Parameters
    ensures { result ≡ set_or_kept sets row before }
{
    Parameters {
        orig: (sets.orig & row.orig) | (!sets.orig & before.orig),
        comm: (sets.comm & row.comm) | (!sets.comm & before.comm),
        datt: (sets.datt & row.datt) | (!sets.datt & before.datt),
        uatt: (sets.uatt & row.uatt) | (!sets.uatt & before.uatt),
    }
}

// The parameters where a state is entered, by what they were before. The states of a broadcast call set all four.
pub fn entering(state: State, before: Parameters) -> Parameters
    ensures { result ≡ entering state before }
{
    let row = start_row(state);
    let number = state_number(state);
    if number < U2SL {
        return row;
    }
    let sets = set_row(state);
    set_or_kept(sets, row, before)
}

// Which side chose the value, as a number.
pub fn chooser_number(chooser: Chooser) -> u8
    ensures { result ≡ chooser_number chooser }
{
    chooser as u8
}

// The flag that is expected in a broadcast call's state.
#[tactic(auto, unfolding(crate::specs::Talk::flag_in))]
fn flag_in(state: State) -> bool
    ensures { result ≡ flag_in state }
{
    matches!(state, State::U0p | State::U1 | State::U2 | State::U5)
}

// The transaction flag of what is received in the context; what is sent has the opposite. Where it is kept which side chose the value, that decides.
pub fn expected_flag(context: Context) -> bool
    ensures { result ≡ flag_of context }
{
    let state = context.state;
    let talk = context.talk;
    let chooser = talk.chooser;
    match chooser {
        Chooser::Neither => flag_in(state),
        Chooser::Us => true,
        Chooser::Cell => false,
    }
}
