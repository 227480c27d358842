// The step of a call, by value: what the step table's row for an event brings about, and what else befalls what happens.
#![tactic(auto)]

ghost use Rattle.std.specs.Prelude.{◌≡◌};
ghost use Rattle.fitness.specs.Tables.{fitness_of};
ghost use Rattle.transitions.specs.Table.{timers_after, remembered_after};
ghost use Rattle.call.specs.declared.Sending.TheVariants.{OfRow};
ghost use Rattle.call.specs.Talk.{noted, adopted, originating, awaiting_after, unsent};
ghost use Rattle.call.specs.Due.{settled};
ghost use Rattle.call.specs.Step.{parameters_after, value_after, reference_after, afterwards, took, no_step, ignored, reported_with, status_told, with_parameters, parameters_set, carried_out, step_value};

use call::{Due, Event, Reason, Seen, Sending, Sent, Settled};
use codes::attributes::Parameters;
use codes::state::State;
use codes::{action, answer, cause};
use context::{Context, Remembered, Talk};
use octets::Reference;
use timer::Timers;
use transitions::{Decision, Memory, Send, Stores, Taken};
use version::Table;

// Nothing is sent.
const SILENT: Sending = Sending::OfRow(Send::Nothing);

// Entering a state sets its row; a step that stays in its state keeps the parameters.
fn parameters_after(from: State, before: Parameters, next: State) -> Parameters
    ensures { result ≡ parameters_after from before next }
{
    if from == next {
        return before;
    }
    context::entering(next, before)
}

// The parameters after a row, which may store who the originator is.
fn entered(context: Context, taken: Taken, attributes: u8) -> Parameters
    ensures { result ≡ parameters_after context.state (originating taken.stores attributes context.parameters) taken.next }
{
    let from = context.state;
    let before = context.parameters;
    let stores = taken.stores;
    let next = taken.next;
    let named = talk::originating(stores, attributes, before);
    parameters_after(from, named, next)
}

// The timers after a row: one is stopped, one is set.
fn timers_after(taken: Taken, before: Timers) -> Timers
    ensures { result ≡ timers_after taken before }
{
    let stops = taken.stops;
    let sets = taken.sets;
    let stopped = timer::with_timer(stops, false, before);
    timer::with_timer(sets, true, stopped)
}

// The transaction value after a row: that of the event where the row stores it.
#[tactic(auto, unfolding(call::specs::Step::value_after))]
fn value_after(stores: Stores, carried: u8, kept: u8) -> u8
    ensures { result ≡ value_after stores carried kept }
{
    match stores {
        Stores::ValueAndReference => carried,
        _ => kept,
    }
}

// The reference likewise.
#[tactic(auto, unfolding(call::specs::Step::reference_after))]
fn reference_after(stores: Stores, carried: Reference, kept: Reference) -> Reference
    ensures { result ≡ reference_after stores carried kept }
{
    match stores {
        Stores::Nothing => kept,
        _ => carried,
    }
}

// What is remembered after a row.
fn remembered_after(memory: Memory, here: State, kept: Remembered) -> Remembered
    ensures { result ≡ remembered_after memory here kept }
{
    match memory {
        Memory::Keep => kept,
        Memory::Remember => context::remembering(here),
        Memory::Forget => Remembered::Nothing,
    }
}

// What a group call keeps after a row, where these are the parameters.
fn talk_after(context: Context, taken: Taken, parameters: Parameters) -> Talk
    ensures { result ≡ awaiting_after context.state taken.next parameters (noted taken.note context.talk) }
{
    let from = context.state;
    let before = context.talk;
    let next = taken.next;
    let note = taken.note;
    talk::kept_after(from, next, note, parameters, before)
}

// The context after a row of the table: entering U0 clears.
fn afterwards(context: Context, taken: Taken, seen: Seen) -> Context
    ensures { result ≡ afterwards context taken seen }
{
    let next = taken.next;
    if next == State::U0 {
        return Context::cleared();
    }
    let stores = taken.stores;
    let memory = taken.memory;
    let here = context.state;
    let before = context.timers;
    let carried = seen.reference;
    let kept = context.reference;
    let minded = context.remembered;
    let parameters = entered(context, taken, seen.attributes);
    let timers = timers_after(taken, before);
    let value = value_after(stores, seen.value, context.value);
    let reference = reference_after(stores, carried, kept);
    let remembered = remembered_after(memory, here, minded);
    let talk = talk_after(context, taken, parameters);
    Context {
        state: next,
        parameters,
        timers,
        value,
        reference,
        remembered,
        talk,
    }
}

// What is taken. What was pending is sent as soon as it can be.
fn took(context: Context, actions: u8, sends: Sending) -> Settled
    ensures { result ≡ took context actions sends }
{
    let kept = context.talk;
    if !(kept.termination | kept.status) {
        let sent = unsent(context);
        return Settled {
            context,
            answer: answer::TAKEN,
            reason: 0,
            actions,
            sends,
            sent,
        };
    }
    let sent = talk::sent_in(context);
    let after = talk::flushed(context);
    Settled {
        answer: answer::TAKEN,
        reason: 0,
        context: after,
        actions,
        sends,
        sent,
    }
}

// Nothing that was pending is sent.
fn unsent(context: Context) -> Sent
    ensures { result ≡ unsent context }
{
    let state = context.state;
    let parameters = context.parameters;
    Sent {
        status: false,
        request: false,
        state,
        parameters,
    }
}

// An event that has no step here.
fn refuse(context: Context) -> Settled
    ensures { result ≡ no_step context }
{
    let sent = unsent(context);
    Settled {
        answer: answer::NO_STEP,
        reason: 0,
        context,
        actions: action::NONE,
        sends: SILENT,
        sent,
    }
}

// A message that is ignored, for this reason.
fn ignore(context: Context, reason: Reason) -> Settled
    ensures { result ≡ ignored reason context }
{
    let number = call::reason_number(reason);
    let sent = unsent(context);
    Settled {
        answer: answer::IGNORED,
        reason: number,
        context,
        actions: action::NONE,
        sends: SILENT,
        sent,
    }
}

// A message that is reported with this cause: a STATUS if COMM was true, else ignored.
fn report(context: Context, cause: u8) -> Settled
    ensures { result ≡ reported_with cause context }
{
    let parameters = context.parameters;
    if parameters.comm {
        let sent = unsent(context);
        return Settled {
            answer: answer::REPORTED,
            reason: 0,
            context,
            actions: action::NONE,
            sends: Sending::ErrorStatus(cause),
            sent,
        };
    }
    ignore(context, Reason::CommFalse)
}

// GET STATUS: a STATUS with cause 30 if COMM is true, else ignored.
fn tell_status(context: Context) -> Settled
    ensures { result ≡ status_told context }
{
    let told = context.parameters;
    if told.comm {
        return took(
            context,
            action::NONE,
            Sending::Status(cause::RESPONSE_TO_GET_STATUS),
        );
    }
    ignore(context, Reason::CommFalse)
}

// The context with other parameters.
fn with_parameters(parameters: Parameters, context: Context) -> Context
    ensures { result ≡ with_parameters parameters context }
{
    Context {
        parameters,
        ..context
    }
}

// SET PARAMETER: consistent values are set, in the context as it is where the message is taken; inconsistent ones are reported with the cause that 6.5.1.2 names.
fn set_parameters(table: Table, attributes: u8, context: Context, taking: Context) -> Settled
    ensures { result ≡ parameters_set (fitness_of table) attributes context taking }
{
    let state = context.state;
    let parameters = codes::attributes::parameters_of(attributes);
    if fitness::is_consistent(table, state, parameters) {
        let set = with_parameters(parameters, taking);
        return took(set, action::NONE, SILENT);
    }
    report(context, cause::TYPE_NOT_COMPATIBLE)
}

// A row is taken.
fn take_row(context: Context, taken: Taken, seen: Seen) -> Settled
    ensures { result ≡ took (afterwards (adopted context seen) taken seen) taken.actions (OfRow taken.sends) }
{
    let sends = taken.sends;
    let taking = talk::adopted(context, seen);
    let after = afterwards(taking, taken, seen);
    took(after, taken.actions, Sending::OfRow(sends))
}

// What the table's decision brings about.
fn carry_out(table: Table, context: Context, decision: Decision, seen: Seen) -> Settled
    ensures { result ≡ carried_out (fitness_of table) context decision seen }
{
    match decision {
        Decision::Take(taken) => take_row(context, taken, seen),
        Decision::NoStep => refuse(context),
        Decision::Ignore => ignore(context, Reason::NoCall),
        Decision::Report(cause) => report(context, cause),
        Decision::TellStatus => tell_status(context),
        Decision::SetParameters => {
            let taking = talk::adopted(context, seen);
            set_parameters(table, seen.attributes, context, taking)
        }
    }
}

// The step: the table's row for the event, carried out.
pub fn step(table: Table, context: Context, event: Event) -> Settled
    ensures { result ≡ step_value table context event }
{
    let seen = call::seen_event(event);
    let decision = event_rows::decide(table, context, seen.number, seen.code);
    carry_out(table, context, decision, seen)
}

// What is due, done. All that happens comes through here, so that the step stands in one place of a program and is built into it.
pub fn settle(table: Table, context: Context, due: Due) -> Settled
    ensures { result ≡ settled table context due }
{
    match due {
        Due::Steps(event) => step(table, context, event),
        Due::Ignored(reason) => ignore(context, reason),
        Due::Reported(cause) => report(context, cause),
        Due::Refused => refuse(context),
    }
}
