// What happens in a call, and what a step of it comes to: events, what is due, why a message is ignored, and an event taken apart. The step itself is in
// call_step.
#![tactic(auto)]

ghost use Rattle.std.specs.Prelude.{◌≡◌};
ghost use Rattle.call.specs.Events.{no_reference, bare, carrying, heard, seen_message, seen_of};
ghost use Rattle.call.specs.Reasons.{reason_number};

use codes::attributes::Parameters;
use codes::state::State;
use codes::{event, message_type};
use context::Context;
use message::Message;
use octets::Reference;
use transitions::Send;

// The events of document 01, in the order of their numbers 1 to 18; 19, which the third step table has; and 32 to 36, which a group call has.
#[derive(Clone, Copy)]
pub enum Event {
    SetUp(u8, Reference),
    ImmediateSetUp(u8, Reference),
    Join,
    Terminate,
    Release,
    Established,
    EstablishmentFailed,
    LinkFailure,
    AbortDetected,
    Notified(u8, Reference),
    ReceiveModeEntered,
    NoChannel,
    ChannelAvailable,
    MmEstExpired,
    TermExpired,
    ConnReqExpired,
    NoChannelExpired,
    // Its mode, 0 acknowledged or 1 not, its transaction value, and the message.
    Received(u8, u8, Message),
    PresExpired,
    // 32 to 36, a group call's.
    ReceiveModeRequested,
    TalkRequested,
    TransmitModeEntered,
    DedicatedModeEntered,
    TerminationDeleted,
}

// An event taken apart: its number, the type of its message, and what it carries: a transaction value, a reference, state attributes (of CONNECT its originator, which
// is their bit of ORIG). What it does not carry is 0.
#[derive(Clone, Copy)]
pub struct Seen {
    pub number: u8,
    pub code: u8,
    pub reference: Reference,
    pub value: u8,
    pub attributes: u8,
}

// Why a message is ignored, in the order of the numbers 1 to 6.
#[derive(Clone, Copy)]
pub enum Reason {
    NoCall = 1,
    TooShort = 2,
    OtherProtocol = 3,
    TransactionMismatch = 4,
    OtherIdentity = 5,
    CommFalse = 6,
}

// What is due, settled: what a step comes to before its reply is octets. The answer is document 01's number; the reason is the number of why a message is
// ignored, and 0 with every other answer.
#[derive(Clone, Copy)]
pub struct Settled {
    pub answer: u8,
    pub reason: u8,
    pub context: Context,
    pub actions: u8,
    pub sends: Sending,
    pub sent: Sent,
}

// What the step itself sends.
#[derive(Clone, Copy)]
pub enum Sending {
    // What its row sends.
    OfRow(Send),
    // A STATUS with this cause.
    Status(u8),
    // A STATUS with this cause and, if it fits, a copy of the message received.
    ErrorStatus(u8),
}

// What was pending in a group call and is sent now, behind what the step itself sends: a STATUS that tells this state and these parameters, then a TERMINATION REQUEST.
#[derive(Clone, Copy)]
pub struct Sent {
    pub status: bool,
    pub request: bool,
    pub state: State,
    pub parameters: Parameters,
}

// What is due where something happens: the step of an event, or what befalls a message or a number that comes to no step.
#[derive(Clone, Copy)]
pub enum Due {
    Steps(Event),
    Ignored(Reason),
    Reported(u8),
    Refused,
}

// The number of a reason.
#[tactic(auto, unfolding(crate::specs::Reasons::reason_number))]
pub fn reason_number(reason: Reason) -> u8
    ensures { result ≡ reason_number reason }
{
    reason as u8
}

impl Seen {
    const NO_REFERENCE: Reference = Reference {
        first: 0,
        second: 0,
        third: 0,
        fourth: 0,
    };

    // An event that carries nothing.
    fn bare(number: u8) -> Seen
        ensures { result ≡ bare number }
    {
        Seen {
            number,
            code: 0,
            value: 0,
            reference: Seen::NO_REFERENCE,
            attributes: 0,
        }
    }

    // An event that carries a transaction value and a reference.
    fn carrying(number: u8, value: u8, reference: Reference) -> Seen
        ensures { result ≡ carrying number value reference }
    {
        Seen {
            number,
            code: 0,
            value,
            reference,
            attributes: 0,
        }
    }

    // A message of this type.
    fn heard(code: u8, value: u8, reference: Reference, attributes: u8) -> Seen
        ensures { result ≡ heard code value reference attributes }
    {
        Seen {
            number: event::RECEIVED,
            code,
            value,
            reference,
            attributes,
        }
    }

    // A message of which no row asks more than its type.
    fn silent(code: u8, value: u8) -> Seen
        ensures { result ≡ heard code value no_reference 0 }
    {
        Seen::heard(code, value, Seen::NO_REFERENCE, 0)
    }
}

fn seen_message(value: u8, message: Message) -> Seen
    ensures { result ≡ seen_message value message }
{
    match message {
        Message::Connect {
            reference,
            originator,
        } => Seen::heard(message_type::CONNECT, value, reference, originator),
        Message::GetStatus { identity: _ } => Seen::silent(message_type::GET_STATUS, value),
        Message::ImmediateSetup {
            key: _,
            classmark: _,
            identity: _,
            reference: _,
        } => Seen::silent(message_type::IMMEDIATE_SETUP, value),
        Message::SetParameter { attributes } => Seen::heard(
            message_type::SET_PARAMETER,
            value,
            Seen::NO_REFERENCE,
            attributes,
        ),
        Message::Setup { reference: _ } => Seen::silent(message_type::SETUP, value),
        Message::Status {
            cause: _,
            state: _,
            attributes: _,
        } => Seen::silent(message_type::STATUS, value),
        Message::Termination { cause: _ } => Seen::silent(message_type::TERMINATION, value),
        Message::TerminationReject { cause: _ } => Seen::silent(
            message_type::TERMINATION_REJECT,
            value,
        ),
        Message::TerminationRequest { reference: _ } => Seen::silent(
            message_type::TERMINATION_REQUEST,
            value,
        ),
    }
}

// An event taken apart.
pub fn seen_event(event: Event) -> Seen
    ensures { result ≡ seen_of event }
{
    match event {
        Event::SetUp(value, reference) => Seen::carrying(event::SET_UP, value, reference),
        Event::ImmediateSetUp(value, reference) => Seen::carrying(
            event::IMMEDIATE_SET_UP,
            value,
            reference,
        ),
        Event::Join => Seen::bare(event::JOIN),
        Event::Terminate => Seen::bare(event::TERMINATE),
        Event::Release => Seen::bare(event::RELEASE),
        Event::Established => Seen::bare(event::MM_ESTABLISHED),
        Event::EstablishmentFailed => Seen::bare(event::MM_FAILED),
        Event::LinkFailure => Seen::bare(event::RADIO_LINK_FAILURE),
        Event::AbortDetected => Seen::bare(event::ABORT_OR_RELEASE),
        Event::Notified(value, reference) => Seen::carrying(event::NOTIFIED, value, reference),
        Event::ReceiveModeEntered => Seen::bare(event::GROUP_RECEIVE),
        Event::NoChannel => Seen::bare(event::NO_CHANNEL),
        Event::ChannelAvailable => Seen::bare(event::CHANNEL_AVAILABLE),
        Event::MmEstExpired => Seen::bare(event::MM_EST_EXPIRED),
        Event::TermExpired => Seen::bare(event::TERM_EXPIRED),
        Event::ConnReqExpired => Seen::bare(event::CONN_REQ_EXPIRED),
        Event::NoChannelExpired => Seen::bare(event::NO_CHANNEL_EXPIRED),
        Event::Received(_, value, message) => seen_message(value, message),
        Event::PresExpired => Seen::bare(event::PRES_EXPIRED),
        Event::ReceiveModeRequested => Seen::bare(event::RECEIVE_MODE),
        Event::TalkRequested => Seen::bare(event::TALK),
        Event::TransmitModeEntered => Seen::bare(event::GROUP_TRANSMIT),
        Event::DedicatedModeEntered => Seen::bare(event::DEDICATED),
        Event::TerminationDeleted => Seen::bare(event::DELETE_REQUEST),
    }
}
