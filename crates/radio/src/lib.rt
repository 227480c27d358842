// The step as the host has it: an event as a number with its data, a received message as octets, a reply written into a lent buffer.
// The context goes in and comes back by value. It goes by the step table that it is given.
#![tactic(auto)]

ghost use Rattle.std.specs.Prelude.{◌≡◌, length};
ghost use Rattle.std.proofs.lemmas.List.Edits.{sets};
ghost use Rattle.version.specs.Version.{newest};
ghost use Rattle.radio.specs.Step.{event_of, due_to, reacted_to, fitness_refusal, refusal_of, shown, step_of, taken_of};

use call::{Due, Event};
use codes::answer;
use codes::wide::event;
use context::Context;
use message::Own;
use octets::Reference;
use version::Table;

// An event: its number, and the data that an event may carry. What it does not carry has no effect.
#[derive(Clone, Copy)]
pub struct Happened {
    pub number: u32,
    pub value: u8,
    pub reference: Reference,
    pub mode: u8,
}

// What a step answers: document 01's number, why a message was ignored (0 where none was), the actions, and how many octets of the reply buffer are
// the reply.
#[derive(Clone, Copy)]
pub struct Outcome {
    pub answer: u8,
    pub reason: u8,
    pub actions: u8,
    pub count: usize,
}

// The context after the step, and what the step answers.
#[derive(Clone, Copy)]
pub struct Stepped {
    pub context: Context,
    pub outcome: Outcome,
}

// The event of a number. 18, a message received, goes by "Received messages".
fn event_of(number: u32, value: u8, reference: Reference) -> Option<Event>
    ensures { result ≡ event_of number value reference }
{
    match number {
        event::SET_UP => Some(Event::SetUp(value, reference)),
        event::IMMEDIATE_SET_UP => Some(Event::ImmediateSetUp(value, reference)),
        event::JOIN => Some(Event::Join),
        event::TERMINATE => Some(Event::Terminate),
        event::RELEASE => Some(Event::Release),
        event::MM_ESTABLISHED => Some(Event::Established),
        event::MM_FAILED => Some(Event::EstablishmentFailed),
        event::RADIO_LINK_FAILURE => Some(Event::LinkFailure),
        event::ABORT_OR_RELEASE => Some(Event::AbortDetected),
        event::NOTIFIED => Some(Event::Notified(value, reference)),
        event::GROUP_RECEIVE => Some(Event::ReceiveModeEntered),
        event::NO_CHANNEL => Some(Event::NoChannel),
        event::CHANNEL_AVAILABLE => Some(Event::ChannelAvailable),
        event::MM_EST_EXPIRED => Some(Event::MmEstExpired),
        event::TERM_EXPIRED => Some(Event::TermExpired),
        event::CONN_REQ_EXPIRED => Some(Event::ConnReqExpired),
        event::NO_CHANNEL_EXPIRED => Some(Event::NoChannelExpired),
        event::RECEIVED => None,
        event::PRES_EXPIRED => Some(Event::PresExpired),
        event::RECEIVE_MODE => Some(Event::ReceiveModeRequested),
        event::TALK => Some(Event::TalkRequested),
        event::GROUP_TRANSMIT => Some(Event::TransmitModeEntered),
        event::DEDICATED => Some(Event::DedicatedModeEntered),
        event::DELETE_REQUEST => Some(Event::TerminationDeleted),
        _ => None,
    }
}

// What is due where an event in range happens.
fn due_to(table: Table, context: Context, identity: &[u8], happened: Happened, octets: &[u8]) -> Due
    ensures { result ≡ due_to table identity.now context happened octets.now }
{
    let reference = happened.reference;
    if happened.number == event::RECEIVED {
        return received::listen(table, context, identity, happened.mode, octets);
    }
    match event_of(happened.number, happened.value, reference) {
        Some(event) => Due::Steps(event),
        None => Due::Refused,
    }
}

// The step of an event that is in range.
fn react(
    table: Table,
    context: Context,
    identity: &[u8],
    happened: Happened,
    octets: &[u8],
) -> call::Settled
    ensures { result ≡ reacted_to table identity.now context happened octets.now }
{
    let due = due_to(table, context, identity, happened, octets);
    call_step::settle(table, context, due)
}

// The first part of a refusal: 7 where the context is not fit, else 0.
fn fitness_refusal(table: Table, context: Context) -> u8
    ensures { result ≡ fitness_refusal table context }
{
    if !fitness::is_fit(table, context) {
        return answer::NO_CONTEXT;
    }
    0
}

// Why a step is refused, in the order of the tests: 7, 5, 6, 4; and 0 where it is not.
fn refusal(
    table: Table,
    context: Context,
    key: u8,
    identity: usize,
    happened: Happened,
    octets: usize,
    room: usize,
) -> u8
    ensures { result ≡ refusal_of table context key identity happened octets room }
{
    let unfit = fitness_refusal(table, context);
    let number = happened.number;
    let value = happened.value;
    let mode = happened.mode;
    let known = version::has_event(table, number);
    let unsuited = step_arguments::argument_refusal(
        known, key, identity, number, value, mode, octets, room,
    );
    if unfit != 0 {
        return unfit;
    }
    unsuited
}

// A refusal: nothing is changed.
fn refused(context: Context, answer: u8) -> Stepped
    ensures { result ≡ shown (Rattle.radio.specs.Step.refused answer context) }
{
    let outcome = Outcome {
        answer,
        reason: 0,
        actions: 0,
        count: 0,
    };
    Stepped { context, outcome }
}

// The step without its tests, for a caller that has made them. The reply is written over the start of `reply`; of a message received `octets` are
// the octets.
pub fn take(
    table: Table,
    context: Context,
    own: Own,
    identity: &[u8],
    happened: Happened,
    octets: &[u8],
    reply: &mut [u8],
) -> Stepped
    ensures { (result ≡ shown (taken_of table own identity.now (length reply.old) context happened octets.now))
        × (reply.new ≡ sets reply.old 0 (taken_of table own identity.now (length reply.old) context happened octets.now).reply) }
{
    let taken = react(table, context, identity, happened, octets);
    let after = taken.context;
    let sends = taken.sends;
    let sent = taken.sent;
    let protocol = version::protocol(table);
    let count = reply::put(protocol, reply, own, identity, octets, after, sends, sent);
    Stepped {
        context: after,
        outcome: Outcome {
            answer: taken.answer,
            reason: taken.reason,
            actions: taken.actions,
            count,
        },
    }
}

// The step by a table. The reply is written over the start of `reply`; of a message received `octets` are the octets.
pub fn step_by(
    table: Table,
    context: Context,
    own: Own,
    identity: &[u8],
    happened: Happened,
    octets: &[u8],
    reply: &mut [u8],
) -> Stepped
    ensures { (result ≡ shown (step_of table own identity.now (length reply.old) context happened octets.now))
        × (reply.new ≡ sets reply.old 0 (step_of table own identity.now (length reply.old) context happened octets.now).reply) }
{
    let answer = refusal(
        table,
        context,
        own.key,
        identity.len(),
        happened,
        octets.len(),
        reply.len(),
    );
    if answer != 0 {
        return refused(context, answer);
    }
    take(table, context, own, identity, happened, octets, reply)
}

// The step: by the newest table.
pub fn step(
    context: Context,
    own: Own,
    identity: &[u8],
    happened: Happened,
    octets: &[u8],
    reply: &mut [u8],
) -> Stepped
    ensures { (result ≡ shown (step_of newest own identity.now (length reply.old) context happened octets.now))
        × (reply.new ≡ sets reply.old 0 (step_of newest own identity.now (length reply.old) context happened octets.now).reply) }
{
    step_by(
        version::NEWEST,
        context,
        own,
        identity,
        happened,
        octets,
        reply,
    )
}
