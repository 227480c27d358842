// The numbers of a message, kind by kind.
ghost use Rattle.std.specs.Prelude.{◌≡◌};
ghost use Rattle.codes.specs.MessageTypes.{IMMEDIATE-SETUP, GET-STATUS, SET-PARAMETER};
ghost use Rattle.message_numbers.specs.Numbers.{
  three_of,
  four_of,
  optional_of,
  place_of,
  identity_place,
  flag_number,
  nowhere,
  no_three,
  no_four,
  unsaid,
  mandatory,
  numbers,
  blank,
  numbers_of,
};

use crate::{Four, Numbers, Optional, Place, Three};
use codes::message_type;
use message::{Classmark, Message};
use octets::{Reference, Run};

fn three_of(classmark: Classmark) -> Three
    ensures { result ≡ three_of classmark }
{
    Three {
        first: classmark.first,
        second: classmark.second,
        third: classmark.third,
    }
}

fn four_of(reference: Reference) -> Four
    ensures { result ≡ four_of reference }
{
    Four {
        first: reference.first,
        second: reference.second,
        third: reference.third,
        fourth: reference.fourth,
    }
}

fn optional_of(half: Option<u8>) -> Optional
    ensures { result ≡ optional_of half }
{
    match half {
        None => Optional { there: 0, value: 0 },
        Some(value) => Optional { there: 1, value },
    }
}

fn place_of(run: Run) -> Place
    ensures { result ≡ place_of run }
{
    Place {
        start: run.start,
        count: run.count,
    }
}

fn identity_place(identity: Option<Run>) -> Place
    ensures { result ≡ identity_place identity }
{
    match identity {
        None => Place { start: 0, count: 0 },
        Some(run) => place_of(run),
    }
}

fn flag_number(flag: bool) -> u8
    ensures { result ≡ flag_number flag }
{
    if flag { 1 } else { 0 }
}

// A message that carries nothing besides its first two octets.
pub(crate) fn blank(kind: u8, flag: u8, value: u8) -> Numbers
    ensures { result ≡ blank kind flag value }
{
    Numbers {
        kind,
        flag,
        value,
        key: 0,
        classmark: Three {
            first: 0,
            second: 0,
            third: 0,
        },
        reference: Four {
            first: 0,
            second: 0,
            third: 0,
            fourth: 0,
        },
        originator: 0,
        state: Optional { there: 0, value: 0 },
        attributes: Optional { there: 0, value: 0 },
        identity: Place { start: 0, count: 0 },
        cause: Place { start: 0, count: 0 },
    }
}

// CONNECT, SETUP and TERMINATION REQUEST.
fn referring(kind: u8, flag: u8, value: u8, reference: Reference, originator: u8) -> Numbers
    ensures { result ≡ numbers kind flag value 0 no_three (four_of reference) originator unsaid unsaid nowhere nowhere }
{
    Numbers {
        reference: four_of(reference),
        originator,
        ..blank(kind, flag, value)
    }
}

// STATUS, TERMINATION and TERMINATION REJECT.
fn caused(
    kind: u8,
    flag: u8,
    value: u8,
    cause: Run,
    state: Option<u8>,
    attributes: Option<u8>,
) -> Numbers
    ensures { result ≡ numbers kind flag value 0 no_three no_four 0 (optional_of state) (optional_of attributes) nowhere (place_of cause) }
{
    Numbers {
        cause: place_of(cause),
        state: optional_of(state),
        attributes: optional_of(attributes),
        ..blank(kind, flag, value)
    }
}

// IMMEDIATE SETUP.
fn immediate(
    flag: u8,
    value: u8,
    key: u8,
    classmark: Classmark,
    identity: Run,
    reference: Reference,
) -> Numbers
    ensures { result ≡ numbers IMMEDIATE-SETUP flag value key (three_of classmark) (four_of reference) 0 unsaid unsaid (place_of identity) nowhere }
{
    Numbers {
        key,
        classmark: three_of(classmark),
        identity: place_of(identity),
        reference: four_of(reference),
        ..blank(message_type::IMMEDIATE_SETUP, flag, value)
    }
}

// GET STATUS.
fn asking(flag: u8, value: u8, identity: Option<Run>) -> Numbers
    ensures { result ≡ numbers GET-STATUS flag value 0 no_three no_four 0 unsaid unsaid (identity_place identity) nowhere }
{
    Numbers {
        identity: identity_place(identity),
        ..blank(message_type::GET_STATUS, flag, value)
    }
}

// SET PARAMETER.
fn setting(flag: u8, value: u8, attributes: u8) -> Numbers
    ensures { result ≡ numbers SET-PARAMETER flag value 0 no_three no_four 0 unsaid (mandatory attributes) nowhere nowhere }
{
    Numbers {
        attributes: Optional {
            there: 0,
            value: attributes,
        },
        ..blank(message_type::SET_PARAMETER, flag, value)
    }
}

// The numbers of a message.
pub(crate) fn numbers_of(bit: bool, value: u8, message: Message) -> Numbers
    ensures { result ≡ numbers_of bit value message }
{
    let flag = flag_number(bit);
    match message {
        Message::Connect {
            reference,
            originator,
        } => referring(message_type::CONNECT, flag, value, reference, originator),
        Message::GetStatus { identity } => asking(flag, value, identity),
        Message::ImmediateSetup {
            key,
            classmark,
            identity,
            reference,
        } => immediate(flag, value, key, classmark, identity, reference),
        Message::SetParameter { attributes } => setting(flag, value, attributes),
        Message::Setup { reference } => referring(message_type::SETUP, flag, value, reference, 0),
        Message::Status {
            cause,
            state,
            attributes,
        } => caused(message_type::STATUS, flag, value, cause, state, attributes),
        Message::Termination { cause } => {
            caused(message_type::TERMINATION, flag, value, cause, None, None)
        }
        Message::TerminationReject { cause } => caused(
            message_type::TERMINATION_REJECT,
            flag,
            value,
            cause,
            None,
            None,
        ),
        Message::TerminationRequest { reference } => {
            referring(message_type::TERMINATION_REQUEST, flag, value, reference, 0)
        }
    }
}
