// Received messages: the six rules of document 01, in their order.
#![tactic(auto)]

ghost use Rattle.std.specs.Prelude.{◌≡◌, length, ◌+◌, ◌≤◌};
ghost use Rattle.octets.specs.Run.{part};
ghost use Rattle.received.specs.Received.{same_octets, transaction_is, awaited_is, transaction_fits, must_name_us, cause_in, type_cause, asked_of, is_other, Within};
ghost use Rattle.received.specs.Due.{due_of, understood_due};

use call::{Due, Event, Reason};
use codes::cause;
use codes::protocol::{Protocol, discriminator};
use codes::state::State;
use context::Context;
use message::Message;
use octets::Run;
use transitions::Decision;
use version::Table;

// Whether octet 1 carries the flag and the value in its upper half.
fn transaction_is(flag: bool, value: u8, first: u8) -> bool
    ensures { result ≡ transaction_is flag value first }
{
    let upper = (first / 16) as u32;
    let wanted = value as u32;
    if flag {
        return upper == 8 + wanted;
    }
    upper == wanted
}

// Whether octet 1 carries the flag and a value of at most 6.
fn awaited_is(flag: bool, first: u8) -> bool
    ensures { result ≡ awaited_is flag first }
{
    let upper = first / 16;
    if flag {
        return (8 <= upper) & (upper <= 14);
    }
    upper <= 6
}

// Whether octet 1 is of the context's transaction; where a value is awaited, with whichever value.
fn transaction_fits(context: Context, first: u8) -> bool
    ensures { result ≡ transaction_fits context first }
{
    let flag = context::expected_flag(context);
    let talk = context.talk;
    if talk.awaiting {
        return awaited_is(flag, first);
    }
    transaction_is(flag, context.value, first)
}

// Whether a CONNECT must name us: in a broadcast call.
fn must_name_us(protocol: Protocol) -> bool
    ensures { result ≡ must_name_us protocol }
{
    match protocol {
        Protocol::Broadcast => true,
        Protocol::Group => false,
    }
}

// The cause that a decision reports, and 0 where it reports none.
fn cause_in(decision: Decision) -> u8
    ensures { result ≡ cause_in decision }
{
    match decision {
        Decision::Take(_) => 0,
        Decision::NoStep => 0,
        Decision::Ignore => 0,
        Decision::Report(cause) => cause,
        Decision::TellStatus => 0,
        Decision::SetParameters => 0,
    }
}

// Rule 2: the cause that a type octet is reported with, and 0 where the type has a row or a sentence in the context's state.
fn type_cause(table: Table, context: Context, kind: u8) -> u8
    ensures { result ≡ type_cause table context kind }
{
    if 128 <= kind {
        return cause::TYPE_NON_EXISTENT;
    }
    let decision = message_rows::decide(table, context, kind % 64);
    cause_in(decision)
}

// Whether the octets of a run are those of the identity, length included.
fn is_same(octets: &[u8], run: Run, identity: &[u8]) -> bool
    requires { run.start + run.count ≤ length octets.now }
    ensures { result ≡ same_octets (part octets.now run.start run.count) identity.now }
{
    let start = run.start;
    let end = start + run.count;
    check::same(&octets[start..end], identity)
}

// What rules 4 and 5 ask of a message: the mobile identity that it has, and whether it is a CONNECT that doesn't name us as originator.
#[derive(Clone, Copy)]
struct Asked {
    identity: Option<Run>,
    disowns: bool,
}

fn ask(message: Message) -> Asked
    ensures { result ≡ asked_of message }
{
    let nothing = Asked {
        identity: None,
        disowns: false,
    };
    match message {
        Message::Connect {
            reference: _,
            originator,
        } => Asked {
            identity: None,
            disowns: originator != 1,
        },
        Message::GetStatus { identity } => Asked {
            identity,
            disowns: false,
        },
        Message::ImmediateSetup {
            key: _,
            classmark: _,
            identity: _,
            reference: _,
        } => nothing,
        Message::SetParameter { attributes: _ } => nothing,
        Message::Setup { reference: _ } => nothing,
        Message::Status {
            cause: _,
            state: _,
            attributes: _,
        } => nothing,
        Message::Termination { cause: _ } => nothing,
        Message::TerminationReject { cause: _ } => nothing,
        Message::TerminationRequest { reference: _ } => nothing,
    }
}

// Whether an identity is other than ours.
fn is_other(named: Option<Run>, octets: &[u8], ours: &[u8]) -> bool
    requires { Within octets.now named }
    ensures { result ≡ is_other ours.now octets.now named }
{
    match named {
        None => false,
        Some(run) => !is_same(octets, run, ours),
    }
}

// Rules 4 to 6: a message that can be read.
fn understand(
    protocol: Protocol,
    identity: &[u8],
    mode: u8,
    octets: &[u8],
    value: u8,
    message: Message,
) -> Due
    requires { Within octets.now (asked_of message).identity }
    ensures { result ≡ understood_due protocol identity.now mode octets.now value message }
{
    let asked = ask(message);
    let named = asked.identity;
    let other = is_other(named, octets, identity);
    if (mode == 1) & other {
        return Due::Ignored(Reason::OtherIdentity);
    }
    let must = must_name_us(protocol);
    if must & asked.disowns {
        return Due::Reported(cause::SEMANTICALLY_INCORRECT);
    }
    Due::Steps(Event::Received(mode, value, message))
}

// What is due to a message by the six rules.
pub fn listen(table: Table, context: Context, identity: &[u8], mode: u8, octets: &[u8]) -> Due
    ensures { result ≡ due_of table identity.now context mode octets.now }
{
    if context.state == State::U0 {
        return Due::Ignored(Reason::NoCall);
    }
    if octets.len() < 2 {
        return Due::Ignored(Reason::TooShort);
    }
    let first = octets[0];
    let protocol = version::protocol(table);
    if first % 16 != discriminator(protocol) {
        return Due::Ignored(Reason::OtherProtocol);
    }
    if !transaction_fits(context, first) {
        return Due::Ignored(Reason::TransactionMismatch);
    }
    let cause = type_cause(table, context, octets[1]);
    if cause != 0 {
        return Due::Reported(cause);
    }
    let Ok(read) = message::read(protocol, octets) else {
        return Due::Reported(cause::INVALID_MANDATORY_INFORMATION);
    };
    understand(protocol, identity, mode, octets, read.value, read.message)
}
