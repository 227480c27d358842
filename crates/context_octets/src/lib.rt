// A context as the sixteen octets that a host in C keeps of it: read, where they are a context, and written.
#![tactic(auto)]

ghost use Rattle.std.specs.Prelude.{◌≡◌};
ghost use Rattle.context_octets.specs.Octets.{chooser_at, context_of, four_number, is_kept, is_remembered, is_talk, octets_of, parameters_at, remembered_at, state_at, talk_at, talk_number, timers_at, timers_number, with_state};

use codes::attributes::{Parameters, parameters_number};
use codes::state::State;
use context::{Chooser, Context, Remembered, Talk};
use octets::Reference;
use timer::Timers;

// The state of a number from 0 to 13.
fn state_at(number: u8) -> Option<State>
    ensures { result ≡ state_at number }
{
    match number {
        0 => Some(State::U0),
        1 => Some(State::U0p),
        2 => Some(State::U1),
        3 => Some(State::U2),
        4 => Some(State::U3),
        5 => Some(State::U4),
        6 => Some(State::U5),
        7 => Some(State::U6),
        8 => Some(State::U2sl),
        9 => Some(State::U2wr),
        10 => Some(State::U2r),
        11 => Some(State::U2ws),
        12 => Some(State::U2sr),
        13 => Some(State::U2nc),
        _ => None,
    }
}

// 8 ORIG + 4 COMM + 2 D-ATT + 1 U-ATT, taken apart.
fn parameters_at(number: u8) -> Parameters
    ensures { result ≡ parameters_at number }
{
    Parameters {
        orig: number / 8 % 2 == 1,
        comm: number / 4 % 2 == 1,
        datt: number / 2 % 2 == 1,
        uatt: number % 2 == 1,
    }
}

// 16 T_pres + 8 T_MM-est + 4 T_term + 2 T_conn req + 1 T_no channel, taken apart.
fn timers_at(number: u8) -> Timers
    ensures { result ≡ timers_at number }
{
    Timers {
        mmest: number / 8 % 2 == 1,
        term: number / 4 % 2 == 1,
        connreq: number / 2 % 2 == 1,
        nochannel: number % 2 == 1,
        pres: number / 16 % 2 == 1,
    }
}

// The number of four bits, the first weighing 8.
fn four_number(eight: bool, four: bool, two: bool, one: bool) -> u8
    ensures { result ≡ four_number eight four two one }
{
    8 * (eight as u8) + 4 * (four as u8) + 2 * (two as u8) + (one as u8)
}

// The timers that run, as a number.
fn timers_number(timers: Timers) -> u8
    ensures { result ≡ timers_number timers }
{
    let four = four_number(timers.mmest, timers.term, timers.connreq, timers.nochannel);
    if timers.pres {
        return 16 + four;
    }
    four
}

// What is remembered, by its number.
fn remembered_at(number: u8) -> Remembered
    ensures { result ≡ remembered_at number }
{
    match number {
        2 => Remembered::U1,
        3 => Remembered::U2,
        8 => Remembered::U2sl,
        9 => Remembered::U2wr,
        11 => Remembered::U2ws,
        12 => Remembered::U2sr,
        _ => Remembered::Nothing,
    }
}

// Whether a number says what is remembered.
fn is_remembered(number: u8) -> bool
    ensures { result ≡ is_remembered number }
{
    let broadcast = (number == 0) | ((number == 2) | (number == 3));
    let group = (number == 8) | ((number == 9) | ((number == 11) | (number == 12)));
    broadcast | group
}

// Which side chose the value, by its number.
fn chooser_at(number: u8) -> Chooser
    ensures { result ≡ chooser_at number }
{
    match number {
        1 => Chooser::Us,
        2 => Chooser::Cell,
        _ => Chooser::Neither,
    }
}

// 16 a value awaited + 8 a STATUS pending + 4 a termination request pending + which side chose the value, taken apart.
fn talk_at(number: u8) -> Talk
    ensures { result ≡ talk_at number }
{
    let chooser = chooser_at(number % 4);
    Talk {
        chooser,
        termination: number / 4 % 2 == 1,
        status: number / 8 % 2 == 1,
        awaiting: number / 16 % 2 == 1,
    }
}

// The same, as a number.
fn talk_number(talk: Talk) -> u8
    ensures { result ≡ talk_number talk }
{
    let side = talk.chooser;
    let chooser = context::chooser_number(side);
    16 * (talk.awaiting as u8) + 8 * (talk.status as u8) + 4 * (talk.termination as u8) + chooser
}

// Whether a number says what a group call keeps.
fn is_talk(number: u8) -> bool
    ensures { result ≡ is_talk number }
{
    (number <= 31) & (number % 4 <= 2)
}

// Whether parameters are below 16 and timers below 32, octets 8 and 9 say what is remembered and what a group call keeps, and the last six octets are zero.
fn is_kept(octets: &[u8; 16]) -> bool
    ensures { result ≡ is_kept octets.now }
{
    let noted = is_remembered(octets[8]);
    let talks = is_talk(octets[9]);
    let first = (noted & talks) & ((octets[10] == 0) & (octets[11] == 0));
    let last = (octets[12] == 0) & ((octets[13] == 0) & ((octets[14] == 0) & (octets[15] == 0)));
    (octets[1] <= 15) & ((octets[2] <= 31) & (first & last))
}

// The context of a state, and of the octets behind the state's.
fn with_state(octets: &[u8; 16], state: State) -> Context
    ensures { result ≡ with_state octets.now state }
{
    let parameters = parameters_at(octets[1]);
    let timers = timers_at(octets[2]);
    let reference = Reference {
        first: octets[4],
        second: octets[5],
        third: octets[6],
        fourth: octets[7],
    };
    let remembered = remembered_at(octets[8]);
    let talk = talk_at(octets[9]);
    Context {
        state,
        parameters,
        timers,
        value: octets[3],
        reference,
        remembered,
        talk,
    }
}

// The context that sixteen octets are, if they are one.
pub fn read(octets: &[u8; 16]) -> Option<Context>
    ensures { result ≡ context_of octets.now }
{
    if !is_kept(octets) {
        return None;
    }
    let state = state_at(octets[0])?;
    Some(with_state(octets, state))
}

// Writes a context's sixteen octets.
pub fn write(context: Context, octets: &mut [u8; 16])
    ensures { octets.new ≡ octets_of context }
{
    let state = context.state;
    let set = context.parameters;
    let run = context.timers;
    let call = context.reference;
    let number = context::state_number(state) as u8;
    let parameters = parameters_number(set.orig, set.comm, set.datt, set.uatt);
    let timers = timers_number(run);
    let remembered = context.remembered;
    let noted = context::remembered_number(remembered);
    let talk = context.talk;
    let talks = talk_number(talk);
    *octets = [
        number,
        parameters,
        timers,
        context.value,
        call.first,
        call.second,
        call.third,
        call.fourth,
        noted,
        talks,
        0,
        0,
        0,
        0,
        0,
        0,
    ];
}
