// What only a group call keeps, step by step: which side chose the transaction value, whether one is awaited, and what waits for COMM. In a broadcast call it is left
// as it is.
#![tactic(auto)]

ghost use Rattle.std.specs.Prelude.{◌≡◌};
ghost use Rattle.talk.specs.Quiet.{is_quiet};
ghost use Rattle.call.specs.Talk.{noted, with_value, adopted, originating, awaiting_after, sent_in, requested, answered, flushed};

use call::{Seen, Sent};
use codes::attributes::Parameters;
use codes::event;
use codes::state::State;
use context::{Chooser, Context, Talk};
use timer::Timer;
use transitions::{Note, Stores};

// This side chose the transaction value.
fn chosen_by(chooser: Chooser, talk: Talk) -> Talk
    ensures { result ≡ record { chooser = chooser; termination = talk.termination; status = talk.status; awaiting = talk.awaiting } }
{
    Talk { chooser, ..talk }
}

// This is pending: a termination request, a STATUS.
fn pending(termination: bool, status: bool, talk: Talk) -> Talk
    ensures { result ≡ record { chooser = talk.chooser; termination = termination; status = status; awaiting = talk.awaiting } }
{
    Talk {
        termination,
        status,
        ..talk
    }
}

// A value is awaited, or not.
fn awaited(awaiting: bool, talk: Talk) -> Talk
    ensures { result ≡ record { chooser = talk.chooser; termination = talk.termination; status = talk.status; awaiting = awaiting } }
{
    Talk { awaiting, ..talk }
}

// Whether a row that leads there changes nothing of what is kept: it notes nothing, and U2ws is not entered. So it is with every row of a broadcast call.
#[tactic(auto, unfolding(crate::specs::Quiet::is_quiet))]
fn is_quiet(note: Note, next: State) -> bool
    ensures { result ≡ is_quiet note next }
{
    match note {
        Note::Nothing => next != State::U2ws,
        _ => false,
    }
}

// What a row notes.
fn noted(note: Note, talk: Talk) -> Talk
    ensures { result ≡ noted note talk }
{
    match note {
        Note::Nothing => talk,
        Note::WeChose => chosen_by(Chooser::Us, talk),
        Note::CellChose => chosen_by(Chooser::Cell, talk),
        Note::TerminationPends => pending(true, talk.status, talk),
        Note::StatusPends => pending(talk.termination, true, talk),
        Note::TerminationDropped => pending(false, talk.status, talk),
    }
}

// The context with this value, and none awaited any more.
fn with_value(value: u8, context: Context) -> Context
    ensures { result ≡ with_value value context }
{
    let talk = awaited(false, context.talk);
    Context {
        value,
        talk,
        ..context
    }
}

// Where a value is awaited, a message that is taken gives it, before its row.
pub fn adopted(context: Context, seen: Seen) -> Context
    ensures { result ≡ adopted context seen }
{
    let talk = context.talk;
    if talk.awaiting & (seen.number == event::RECEIVED) {
        return with_value(seen.value, context);
    }
    context
}

// The parameters before a state is entered: CONNECT in a group call names us as originator, or not.
#[tactic(auto, unfolding(call::specs::Talk::originating))]
pub fn originating(stores: Stores, attributes: u8, parameters: Parameters) -> Parameters
    ensures { result ≡ originating stores attributes parameters }
{
    let told = codes::attributes::parameters_of(attributes);
    match stores {
        Stores::ItsReferenceAndOriginator => Parameters {
            orig: told.orig,
            ..parameters
        },
        _ => parameters,
    }
}

// Who enters U2ws and is not the originator awaits the value of the next message.
fn awaiting_after(from: State, next: State, parameters: Parameters, talk: Talk) -> Talk
    ensures { result ≡ awaiting_after from next parameters talk }
{
    let entered = (next == State::U2ws) & ((from != next) & !parameters.orig);
    awaited(talk.awaiting | entered, talk)
}

// What is kept after a row, where these are the parameters: what the row notes, and whether a value is awaited.
pub fn kept_after(from: State, next: State, note: Note, parameters: Parameters, talk: Talk) -> Talk
    ensures { result ≡ awaiting_after from next parameters (noted note talk) }
{
    if is_quiet(note, next) {
        return talk;
    }
    let told = noted(note, talk);
    awaiting_after(from, next, parameters, told)
}

// What was pending is sent as soon as COMM is true: a STATUS, and a TERMINATION REQUEST where ORIG is true too.
pub fn sent_in(context: Context) -> Sent
    ensures { result ≡ sent_in context }
{
    let state = context.state;
    let parameters = context.parameters;
    let talk = context.talk;
    Sent {
        status: parameters.comm & talk.status,
        request: parameters.comm & (parameters.orig & talk.termination),
        state,
        parameters,
    }
}

// The context with this kept, and the rest as it was.
fn keeping(talk: Talk, context: Context) -> Context
    ensures { result ≡ record { state = context.state; parameters = context.parameters; timers = context.timers; value = context.value; reference = context.reference; remembered = context.remembered; talk = talk } }
{
    Context { talk, ..context }
}

// A STATUS that is sent is no longer pending.
fn answered(sends: bool, context: Context) -> Context
    ensures { result ≡ answered sends context }
{
    let before = context.talk;
    let talk = pending(before.termination, before.status & !sends, before);
    keeping(talk, context)
}

// The pending request is sent: T_MM-est is stopped, T_term set, the state remembered, U5 entered.
fn requested(context: Context) -> Context
    ensures { result ≡ requested context }
{
    let here = context.state;
    let ran = context.timers;
    let before = context.talk;
    let parameters = context::start_row(State::U5);
    let stopped = timer::with_timer(Some(Timer::MmEst), false, ran);
    let timers = timer::with_timer(Some(Timer::Term), true, stopped);
    let remembered = context::remembering(here);
    let talk = pending(false, before.status, before);
    Context {
        state: State::U5,
        parameters,
        timers,
        remembered,
        talk,
        ..context
    }
}

// The context once what was pending is sent.
pub fn flushed(context: Context) -> Context
    ensures { result ≡ flushed context }
{
    let sent = sent_in(context);
    let rest = answered(sent.status, context);
    if sent.request {
        return requested(rest);
    }
    rest
}
