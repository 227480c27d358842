// The message that numbers mean, kind by kind.
ghost use Rattle.std.specs.Prelude.{◌≡◌};
ghost use Rattle.message_numbers.specs.Numbers.{
  classmark_of,
  reference_of,
  half_of,
  run_of,
  identity_of,
  status_of,
  kind_of,
  message_of,
};

use crate::{Four, Numbers, Optional, Place, Three};
use codes::message_type;
use message::{Classmark, Message};
use octets::{Reference, Run};

fn classmark_of(three: Three) -> Classmark
    ensures { result ≡ classmark_of three }
{
    Classmark {
        first: three.first,
        second: three.second,
        third: three.third,
    }
}

fn reference_of(four: Four) -> Reference
    ensures { result ≡ reference_of four }
{
    Reference {
        first: four.first,
        second: four.second,
        third: four.third,
        fourth: four.fourth,
    }
}

fn half_of(optional: Optional) -> Option<u8>
    ensures { result ≡ half_of optional }
{
    if optional.there == 0 {
        return None;
    }
    Some(optional.value)
}

fn run_of(place: Place) -> Run
    ensures { result ≡ run_of place }
{
    Run {
        start: place.start,
        count: place.count,
    }
}

fn identity_of(place: Place) -> Option<Run>
    ensures { result ≡ identity_of place }
{
    if place.count == 0 {
        return None;
    }
    Some(run_of(place))
}

// STATUS: what says whether a half octet is there is 0 or 1.
fn status_of(cause: Run, state: Optional, attributes: Optional) -> Option<Message>
    ensures { result ≡ status_of cause state attributes }
{
    if 1 < state.there {
        return None;
    }
    if 1 < attributes.there {
        return None;
    }
    Some(Message::Status {
        cause,
        state: half_of(state),
        attributes: half_of(attributes),
    })
}

// The message of a type.
fn kind_of(numbers: Numbers) -> Option<Message>
    ensures { result ≡ kind_of numbers }
{
    let reference = reference_of(numbers.reference);
    let classmark = classmark_of(numbers.classmark);
    let attributes = numbers.attributes;
    let identity = run_of(numbers.identity);
    let cause = run_of(numbers.cause);
    let kind = numbers.kind;
    match kind {
        message_type::IMMEDIATE_SETUP => Some(Message::ImmediateSetup {
            key: numbers.key,
            classmark,
            identity,
            reference,
        }),
        message_type::SETUP => Some(Message::Setup { reference }),
        message_type::CONNECT => Some(Message::Connect {
            reference,
            originator: numbers.originator,
        }),
        message_type::TERMINATION => Some(Message::Termination { cause }),
        message_type::TERMINATION_REQUEST => Some(Message::TerminationRequest { reference }),
        message_type::TERMINATION_REJECT => Some(Message::TerminationReject { cause }),
        message_type::STATUS => status_of(cause, numbers.state, attributes),
        message_type::GET_STATUS => Some(Message::GetStatus {
            identity: identity_of(numbers.identity),
        }),
        message_type::SET_PARAMETER => Some(Message::SetParameter {
            attributes: attributes.value,
        }),
        _ => None,
    }
}

// The message that numbers mean: the flag is 0 or 1, and the type one of the nine.
pub(crate) fn message_of(numbers: Numbers) -> Option<Message>
    ensures { result ≡ message_of numbers }
{
    if 1 < numbers.flag {
        return None;
    }
    kind_of(numbers)
}
