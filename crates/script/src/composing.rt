// A message that is received, composed of what a line says of it; what the line leaves out is taken from the call that the radio is in.
ghost use Rattle.std.specs.Prelude.{◌≤◌, IfOk};

use crate::noting::{CAUSE, COMM, DATT, FLAG, IDENTITY, ORIG, ORIGINATOR, REFERENCE, UATT, VALUE};
use crate::words::{Word, text_of};
use crate::{Call, Fault, Unfit, Wrong, four_octets};
use codes::attributes::{Parameters, attributes_of, parameters_of};
use codes::message_type;
use codes::protocol::Protocol;
use message::Message;
use octets::{Reference, Run};
use text::decimal::number_of;
use text::hex::read_hex;
use writing::write;

const TOO_LONG: Wrong = Wrong {
    fault: Fault::TooLong,
    word: None,
};

// The transaction of a message.
#[derive(Clone, Copy)]
struct Transaction {
    flag: bool,
    value: u8,
}

// A truth value by its word.
fn truth_of(text: &[u8]) -> Option<bool> {
    match text {
        b"T" | b"t" | b"1" | b"true" | b"yes" => Some(true),
        b"F" | b"f" | b"0" | b"false" | b"no" => Some(false),
        _ => None,
    }
}

// The number that a word says, at most `most`.
fn number_at(line: &[u8], word: Option<Word>, most: u8, fault: Fault) -> Result<u8, Wrong>
    ensures { IfOk result (λ number. number ≤ most) }
{
    match number_of(text_of(line, word), u64::from(most)) {
        Some(number) => Ok(number as u8),
        None => Err(Wrong { fault, word }),
    }
}

// The value and the flag that the line says, or else those of the call: where there is none, the line must say the value.
fn choose_transaction(
    call: Call,
    line: &[u8],
    noted: &[Option<Word>; 12],
) -> Result<Transaction, Wrong> {
    if noted[VALUE].is_none() && !call.on {
        return Err(Wrong {
            fault: Fault::Named(Unfit::NoCall),
            word: None,
        });
    }
    let value = match noted[VALUE] {
        None => call.value,
        word => number_at(line, word, 6, Fault::Value)?,
    };
    let flag = match noted[FLAG] {
        None => call.flag,
        word => number_at(line, word, 1, Fault::Named(Unfit::Flag))? == 1,
    };
    Ok(Transaction { flag, value })
}

// Writes a message whose runs lie in `source` over the start of `octets`. Where these are under 255, there is no room.
fn finish(
    protocol: Protocol,
    transaction: Transaction,
    message: Message,
    source: &[u8],
    octets: &mut [u8],
) -> Result<usize, Wrong> {
    match write(
        protocol,
        octets,
        source,
        transaction.flag,
        transaction.value,
        message,
    ) {
        Ok(count) => Ok(count),
        Err(_) => Err(TOO_LONG),
    }
}

// A cause has one part, and its last octet has bit 8 set. In a group call's TERMINATION REJECT it is drawn with four octets.
fn compose_cause(
    protocol: Protocol,
    transaction: Transaction,
    kind: u8,
    line: &[u8],
    word: Option<Word>,
    octets: &mut [u8],
) -> Result<usize, Wrong> {
    let number = number_at(line, word, 127, Fault::Named(Unfit::Cause))?;
    let source = [128 + number, 0, 0, 0];
    if kind == message_type::TERMINATION {
        let cause = Run { start: 0, count: 1 };
        let message = Message::Termination { cause };
        return finish(protocol, transaction, message, &source, octets);
    }
    let cause = Run {
        start: 0,
        count: reject_count(protocol),
    };
    let message = Message::TerminationReject { cause };
    finish(protocol, transaction, message, &source, octets)
}

fn reject_count(protocol: Protocol) -> usize {
    match protocol {
        Protocol::Broadcast => 1,
        Protocol::Group => 4,
    }
}

// GET STATUS may name the one that is asked.
fn compose_get_status(
    protocol: Protocol,
    transaction: Transaction,
    line: &[u8],
    word: Option<Word>,
    octets: &mut [u8],
) -> Result<usize, Wrong> {
    if word.is_none() {
        let message = Message::GetStatus { identity: None };
        return finish(protocol, transaction, message, line, octets);
    }
    let mut source = [0u8; 8];
    let Some(count) = read_hex(text_of(line, word), true, &mut source, 0) else {
        return Err(Wrong {
            fault: Fault::Named(Unfit::Identity),
            word,
        });
    };
    let named = Run { start: 0, count };
    let message = Message::GetStatus {
        identity: Some(named),
    };
    finish(protocol, transaction, message, &source, octets)
}

// CONNECT names the call and says whether this radio is its originator, which it is unless the line says otherwise.
fn compose_connect(
    protocol: Protocol,
    transaction: Transaction,
    call: Call,
    line: &[u8],
    noted: &[Option<Word>; 12],
    octets: &mut [u8],
) -> Result<usize, Wrong> {
    let originator = truth_or(line, noted[ORIGINATOR], true)?;
    let reference = match noted[REFERENCE] {
        None if call.on => call.reference,
        word => reference_at(line, word)?,
    };
    let message = Message::Connect {
        reference,
        originator: u8::from(originator),
    };
    finish(protocol, transaction, message, line, octets)
}

fn reference_at(line: &[u8], word: Option<Word>) -> Result<Reference, Wrong> {
    four_octets(text_of(line, word)).ok_or(Wrong {
        fault: Fault::Reference,
        word,
    })
}

// What a word says; where the field is left out, what there is.
fn truth_or(line: &[u8], word: Option<Word>, there: bool) -> Result<bool, Wrong> {
    if word.is_none() {
        return Ok(there);
    }
    truth_of(text_of(line, word)).ok_or(Wrong {
        fault: Fault::Named(Unfit::Truth),
        word,
    })
}

// SET PARAMETER sets all four; those that the line leaves out it sets to what they are. It sets one at least.
fn compose_set_parameter(
    protocol: Protocol,
    transaction: Transaction,
    before: u8,
    line: &[u8],
    noted: &[Option<Word>; 12],
    octets: &mut [u8],
) -> Result<usize, Wrong> {
    let first = noted[ORIG].is_none() && noted[COMM].is_none();
    let last = noted[DATT].is_none() && noted[UATT].is_none();
    if first && last {
        return Err(Wrong {
            fault: Fault::Named(Unfit::Parameter),
            word: None,
        });
    }
    let attributes = attributes_in(before, line, noted)?;
    let message = Message::SetParameter { attributes };
    finish(protocol, transaction, message, line, octets)
}

// The state attributes that a line gives instead of those before.
fn attributes_in(before: u8, line: &[u8], noted: &[Option<Word>; 12]) -> Result<u8, Wrong> {
    let parameters = parameters_of(before);
    let orig = truth_or(line, noted[ORIG], parameters.orig)?;
    let comm = truth_or(line, noted[COMM], parameters.comm)?;
    let datt = truth_or(line, noted[DATT], parameters.datt)?;
    let uatt = truth_or(line, noted[UATT], parameters.uatt)?;
    Ok(attributes_of(Parameters {
        orig,
        comm,
        datt,
        uatt,
    }))
}

// Composes the message of a type from the values of its fields: how many octets it has.
pub(crate) fn compose(
    protocol: Protocol,
    call: Call,
    kind: u8,
    line: &[u8],
    noted: &[Option<Word>; 12],
    octets: &mut [u8],
) -> Result<usize, Wrong> {
    let transaction = choose_transaction(call, line, noted)?;
    match kind {
        message_type::CONNECT => compose_connect(protocol, transaction, call, line, noted, octets),
        message_type::GET_STATUS => {
            compose_get_status(protocol, transaction, line, noted[IDENTITY], octets)
        }
        message_type::SET_PARAMETER => {
            compose_set_parameter(protocol, transaction, call.attributes, line, noted, octets)
        }
        _ => compose_cause(protocol, transaction, kind, line, noted[CAUSE], octets),
    }
}
