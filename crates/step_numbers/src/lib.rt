// The step over the octets that a host in C keeps of its context and its settings, an event and an outcome in numbers. It goes by the step table that it is given.
#![tactic(auto)]

ghost use Rattle.std.specs.Prelude.{◌≡◌, ◌+◌, ◌≤◌, length};
ghost use Rattle.std.proofs.lemmas.List.Edits.{sets};
ghost use Rattle.octets.specs.Run.{part};
ghost use Rattle.context.specs.Context.{cleared};
ghost use Rattle.radio.specs.Step.{shown, step_of};
ghost use Rattle.context_octets.specs.Octets.{octets_of};
ghost use Rattle.step_numbers.specs.Stepping.{Comes, call_from, call_of, happened_of, step_shown};

use codes::wide::answer;
use context::Context;
use message::Own;
use octets::{Reference, Run};
use radio::{Happened, Outcome, Stepped};
use version::Table;

// An event and its data, in C's numbers; what it does not carry has no effect.
#[repr(C)]
#[derive(Clone, Copy)]
pub struct Occurrence {
    pub number: u32,
    pub value: u8,
    pub mode: u8,
    pub first: u8,
    pub second: u8,
    pub third: u8,
    pub fourth: u8,
}

#[repr(C)]
#[derive(Clone, Copy)]
pub struct Step {
    pub answer: u32,
    pub reason: u32,
    pub actions: u32,
    pub count: usize,
}

// The cleared context.
pub fn clear_context(context: &mut [u8; 16]) -> u32
    ensures { (result ≡ 0) × (context.new ≡ octets_of cleared) }
{
    context_octets::write(Context::cleared(), context);
    answer::TAKEN
}

// An event as the step takes it.
fn happened_of(event: Occurrence) -> Happened
    ensures { result ≡ happened_of event }
{
    Happened {
        number: event.number,
        value: event.value,
        reference: Reference {
            first: event.first,
            second: event.second,
            third: event.third,
            fourth: event.fourth,
        },
        mode: event.mode,
    }
}

// An outcome in C's numbers.
fn step_shown(outcome: Outcome) -> Step
    ensures { result ≡ step_shown outcome }
{
    Step {
        answer: outcome.answer as u32,
        reason: outcome.reason as u32,
        actions: outcome.actions as u32,
        count: outcome.count,
    }
}

// The step by value, with the identity as a run of the settings' octets.
fn stepped(
    table: Table,
    context: Context,
    own: Own,
    settings: &[u8],
    run: Run,
    event: Occurrence,
    message: &[u8],
    reply: &mut [u8],
) -> Stepped
    requires { run.start + run.count ≤ length settings.now }
    ensures value { result ≡ shown (step_of table own (part settings.now run.start run.count) (length reply.old) context (happened_of event) message.now) }
    ensures reply_after { reply.new ≡ sets reply.old 0 (step_of table own (part settings.now run.start run.count) (length reply.old) context (happened_of event) message.now).reply }
{
    let start = run.start;
    let end = start + run.count;
    let happened = happened_of(event);
    radio::step_by(
        table,
        context,
        own,
        &settings[start..end],
        happened,
        message,
        reply,
    )
}

// The step from the context that the sixteen octets are; they are written again.
fn step_from(
    table: Table,
    from: Context,
    context: &mut [u8; 16],
    settings: &[u8; 21],
    event: Occurrence,
    message: &[u8],
    reply: &mut [u8],
) -> Step
    ensures { Comes (call_from table settings.now (length reply.old) event message.now from)
        reply.old result context.new reply.new }
{
    let own = settings_octets::own_of(settings);
    let run = settings_octets::identity_run(settings);
    let come = stepped(table, from, own, settings, run, event, message, reply);
    let after = come.context;
    let outcome = come.outcome;
    context_octets::write(after, context);
    step_shown(outcome)
}

// The step.
pub fn take_step(
    table: Table,
    context: &mut [u8; 16],
    settings: &[u8; 21],
    event: Occurrence,
    message: &[u8],
    reply: &mut [u8],
) -> Step
    ensures { Comes (call_of table context.old settings.now (length reply.old) event message.now)
        reply.old result context.new reply.new }
{
    let Some(from) = context_octets::read(context) else {
        return Step {
            answer: answer::NO_CONTEXT,
            reason: 0,
            actions: 0,
            count: 0,
        };
    };
    step_from(table, from, context, settings, event, message, reply)
}
