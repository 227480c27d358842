// What the mobile station sends: the message that a step decides on, written over the start of the lent reply buffer.
#![tactic(auto)]

ghost use Rattle.std.specs.Prelude.{◌≡◌, [], ◌∷◌, cond, ◌≤◌, ◌+◌, ◌%◌, length, get_or};
ghost use Rattle.std.proofs.lemmas.List.Edits.{sets};
ghost use Rattle.octets.specs.Run.{part};
ghost use Rattle.message.specs.Content.{immediate_setup};
ghost use Rattle.reply.specs.Reply.{copy_count, hearing, put_content, put_row, put_of, put_all};
ghost use Rattle.reply.specs.Put.{sender_of, status_by, status_telling, message_from, put_by, put_from, placed, pending_of};

use call::{Sending, Sent};
use codes::attributes::{Parameters, attributes_of};
use codes::cause;
use codes::protocol::Protocol;
use codes::state::{State, call_state_code};
use context::{Context, Talk};
use message::{Message, Own};
use octets::Run;
use transitions::Send;

// "Response to GET STATUS" as the one octet of a cause: bit 8 says that no part follows.
const ASKED_FOR: u8 = 128 + cause::RESPONSE_TO_GET_STATUS;

// What a message has of the context that it is sent in: the transaction's flag and value, and what a STATUS tells.
// It has few octets. A context that was handed to a function of two callers would stand in memory at every step, also where nothing is sent.
#[derive(Clone, Copy)]
struct Sender {
    flag: bool,
    value: u8,
    state: State,
    parameters: Parameters,
}

fn sender_of(context: Context) -> Sender
    ensures { result ≡ sender_of context }
{
    let flag = context::expected_flag(context);
    let state = context.state;
    let parameters = context.parameters;
    Sender {
        flag: !flag,
        value: context.value,
        state,
        parameters,
    }
}

// Writes a message of the sender's transaction; its runs lie in `source`.
fn put_message(
    protocol: Protocol,
    reply: &mut [u8],
    source: &[u8],
    sender: Sender,
    message: Message,
) -> usize
    ensures value { result ≡ length (put_from protocol (length reply.old) source.now sender message) }
    ensures reply_after { reply.new ≡ sets reply.old 0 (put_from protocol (length reply.old) source.now sender message) }
{
    writing::write(protocol, reply, source, sender.flag, sender.value, message).unwrap_or(0)
}

// A STATUS that tells a state and parameters.
fn status_telling(cause: Run, state: State, parameters: Parameters) -> Message
    ensures { result ≡ status_telling cause state parameters }
{
    let code = call_state_code(state);
    let attributes = attributes_of(parameters);
    Message::Status {
        cause,
        state: Some(code),
        attributes: Some(attributes),
    }
}

// Copies the first `count` octets of a message behind the first octet of `source`. Each turn asks whether an octet is left: of a loop that only copies the compiler would make
// a call of `memcpy`, and the library for C calls nothing.
fn copy_behind(source: &mut [u8; 246], octets: &[u8], count: usize)
    requires { (count ≤ 245) × (count ≤ length octets.now) }
    ensures { source.new ≡ sets source.old 1 (part octets.now 0 count) }
{
    for step in 0..245 {
        if step < count {
            source[1 + step] = octets[step];
        }
    }
}

// Writes a STATUS: the cause, then the first `count` octets of the message received.
fn put_status(
    protocol: Protocol,
    reply: &mut [u8],
    sender: Sender,
    cause: u8,
    octets: &[u8],
    count: usize,
) -> usize
    requires { (count ≤ 245) × (count ≤ length octets.now) }
    ensures value { result ≡ length (put_by protocol (length reply.old) sender (status_by sender ((128 + cause % 128) ∷ part octets.now 0 count))) }
    ensures reply_after { reply.new ≡ sets reply.old 0 (put_by protocol (length reply.old) sender (status_by sender ((128 + cause % 128) ∷ part octets.now 0 count))) }
{
    let state = sender.state;
    let parameters = sender.parameters;
    let mut source = [0u8; 246];
    source[0] = 128 + cause % 128;
    copy_behind(&mut source, octets, count);
    let whole = Run {
        start: 0,
        count: 1 + count,
    };
    let message = status_telling(whole, state, parameters);
    put_message(protocol, reply, &source, sender, message)
}

// How many octets of a message received an error STATUS copies: all or none.
fn copy_count(count: usize) -> usize
    ensures value { result ≡ copy_count count }
    ensures upper_bound { (result ≤ 245) × (result ≤ count) }
{
    if count <= 245 {
        return count;
    }
    0
}

// Writes an IMMEDIATE SETUP with our own identity.
fn put_immediate(
    protocol: Protocol,
    reply: &mut [u8],
    own: Own,
    identity: &[u8],
    context: Context,
) -> usize
    ensures value { result ≡ length (put_content protocol (length reply.old) context (immediate_setup own.key own.classmark identity.now context.reference)) }
    ensures reply_after { reply.new ≡ sets reply.old 0 (put_content protocol (length reply.old) context (immediate_setup own.key own.classmark identity.now context.reference)) }
{
    let reference = context.reference;
    let classmark = own.classmark;
    let run = Run {
        start: 0,
        count: identity.len(),
    };
    let message = Message::ImmediateSetup {
        key: own.key,
        classmark,
        identity: run,
        reference,
    };
    let sender = sender_of(context);
    put_message(protocol, reply, identity, sender, message)
}

// The first octet of a message, and 0 where there is none.
fn first_of(octets: &[u8]) -> u8
    ensures { result ≡ get_or octets.now 0 0 }
{
    if octets.len() == 0 {
        return 0;
    }
    octets[0]
}

// The context that a report is sent in: where a value is awaited, the message received has it.
fn hearing(octets: &[u8], context: Context) -> Context
    ensures { result ≡ hearing octets.now context }
{
    let talk = context.talk;
    if !talk.awaiting {
        return context;
    }
    let first = first_of(octets);
    let state = context.state;
    let parameters = context.parameters;
    let timers = context.timers;
    let reference = context.reference;
    let remembered = context.remembered;
    let chooser = talk.chooser;
    Context {
        state,
        parameters,
        timers,
        value: first / 16 % 8,
        reference,
        remembered,
        talk: Talk {
            chooser,
            termination: talk.termination,
            status: talk.status,
            awaiting: false,
        },
    }
}

// Writes what a row sends over the start of `reply`, and says how many octets that are.
fn put_row(
    protocol: Protocol,
    reply: &mut [u8],
    own: Own,
    identity: &[u8],
    context: Context,
    send: Send,
) -> usize
    ensures value { result ≡ length (put_row protocol (length reply.old) own identity.now context send) }
    ensures reply_after { reply.new ≡ sets reply.old 0 (put_row protocol (length reply.old) own identity.now context send) }
{
    let reference = context.reference;
    match send {
        Send::Nothing => 0,
        Send::ImmediateSetup => put_immediate(protocol, reply, own, identity, context),
        Send::Setup => put_message(
            protocol,
            reply,
            identity,
            sender_of(context),
            Message::Setup { reference },
        ),
        Send::TerminationRequest => put_message(
            protocol,
            reply,
            identity,
            sender_of(context),
            Message::TerminationRequest { reference },
        ),
    }
}

// Writes what the step itself sends over the start of `reply`, and says how many octets that are. `octets` is the message received.
fn put_own(
    protocol: Protocol,
    reply: &mut [u8],
    own: Own,
    identity: &[u8],
    octets: &[u8],
    context: Context,
    sends: Sending,
) -> usize
    ensures value { result ≡ length (put_of protocol (length reply.old) own identity.now octets.now context sends) }
    ensures reply_after { reply.new ≡ sets reply.old 0 (put_of protocol (length reply.old) own identity.now octets.now context sends) }
{
    match sends {
        Sending::OfRow(send) => put_row(protocol, reply, own, identity, context, send),
        Sending::Status(cause) => put_status(protocol, reply, sender_of(context), cause, octets, 0),
        Sending::ErrorStatus(cause) => {
            let count = copy_count(octets.len());
            let heard = sender_of(hearing(octets, context));
            put_status(protocol, reply, heard, cause, octets, count)
        }
    }
}

// Puts a message that is due behind the first `at` octets of the reply, where there is room for it, and says how many octets stand there then.
// Its cause is "Response to GET STATUS" where it has one.
fn put_due(
    protocol: Protocol,
    reply: &mut [u8],
    at: usize,
    due: bool,
    context: Context,
    message: Message,
) -> usize
    requires { at ≤ length reply.old }
    ensures value { result ≡ at + length (placed (length reply.old) at (cond due (message_from protocol (158 ∷ []) (sender_of context) message) [])) }
    ensures reply_after { reply.new ≡ sets reply.old at (placed (length reply.old) at (cond due (message_from protocol (158 ∷ []) (sender_of context) message) [])) }
{
    if !due {
        return at;
    }
    let cause = [ASKED_FOR; 1];
    let sender = sender_of(context);
    let count = writing::put(
        protocol,
        &mut reply[at..],
        &cause,
        sender.flag,
        sender.value,
        message,
    )
    .unwrap_or(0);
    at + count
}

// Puts what was pending behind the first `at` octets of the reply: a STATUS, then a TERMINATION REQUEST.
fn put_pending(
    protocol: Protocol,
    reply: &mut [u8],
    at: usize,
    context: Context,
    sent: Sent,
) -> usize
    requires { at ≤ length reply.old }
    ensures value { result ≡ at + length (pending_of protocol (length reply.old) at context sent) }
    ensures reply_after { reply.new ≡ sets reply.old at (pending_of protocol (length reply.old) at context sent) }
{
    let state = sent.state;
    let parameters = sent.parameters;
    let reference = context.reference;
    let cause = Run { start: 0, count: 1 };
    let status = status_telling(cause, state, parameters);
    let request = Message::TerminationRequest { reference };
    let behind = put_due(protocol, reply, at, sent.status, context, status);
    put_due(protocol, reply, behind, sent.request, context, request)
}

// Writes what the step sends over the start of `reply`, and says how many octets that are: what the row itself sends, then what was pending.
// `octets` is the message received.
pub fn put(
    protocol: Protocol,
    reply: &mut [u8],
    own: Own,
    identity: &[u8],
    octets: &[u8],
    context: Context,
    sends: Sending,
    sent: Sent,
) -> usize
    ensures value { result ≡ length (put_all protocol (length reply.old) own identity.now octets.now context sends sent) }
    ensures reply_after { reply.new ≡ sets reply.old 0 (put_all protocol (length reply.old) own identity.now octets.now context sends sent) }
{
    let count = put_own(protocol, reply, own, identity, octets, context, sends);
    if sent.status | sent.request {
        return put_pending(protocol, reply, count, context, sent);
    }
    count
}
