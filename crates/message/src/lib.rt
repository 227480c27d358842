// The nine messages of broadcast and group call control, clauses 8 and 9 of GSM 04.69 and 24.068, and how they are read. Runs of octets stay in the lent slice.
#![tactic(auto)]

mod kinds;

ghost use Rattle.std.specs.Prelude.{◌≡◌};
ghost use Rattle.message.specs.declared.Unread.TheVariants.{Unreadable};
ghost use Rattle.message.specs.Reading.{read_message};

use codes::protocol::{Protocol, discriminator};
use octets::{Reference, Run};

// The three octets of a mobile station classmark 2.
#[derive(Clone, Copy)]
pub struct Classmark {
    pub first: u8,
    pub second: u8,
    pub third: u8,
}

// What the mobile station says of itself beside its identity: ciphering key number and classmark.
#[derive(Clone, Copy)]
pub struct Own {
    pub key: u8,
    pub classmark: Classmark,
}

// The messages, in the order of clause 8.
#[derive(Clone, Copy)]
pub enum Message {
    Connect {
        reference: Reference,
        originator: u8,
    },
    GetStatus {
        identity: Option<Run>,
    },
    ImmediateSetup {
        key: u8,
        classmark: Classmark,
        identity: Run,
        reference: Reference,
    },
    SetParameter {
        attributes: u8,
    },
    Setup {
        reference: Reference,
    },
    Status {
        cause: Run,
        state: Option<u8>,
        attributes: Option<u8>,
    },
    Termination {
        cause: Run,
    },
    TerminationReject {
        cause: Run,
    },
    TerminationRequest {
        reference: Reference,
    },
}

// Why a message can't be read; the number that document 01 gives each is `fault_number`.
#[derive(Clone, Copy, Debug, PartialEq, Eq)]
pub enum Fault {
    // Under 2 octets.
    TooShort,
    // Another protocol discriminator.
    Discriminator,
    // A message type that is not of table 9.1.
    UnknownType,
    // An octet of the mandatory part is missing.
    CutShort,
    // The length octet at this place lies outside what its table draws.
    WrongLength(usize),
    // An unknown element at this place, whose identifier has bits 8 to 5 all zero.
    MustBeKnown(usize, u8),
}

// A message that was read, with the flag and the value of its transaction identifier.
#[derive(Clone, Copy)]
pub struct Reading {
    pub flag: bool,
    pub value: u8,
    pub message: Message,
}

// Why octets are not read as a message.
#[derive(Clone, Copy, Debug, PartialEq, Eq)]
pub enum Unread {
    Unreadable(Fault),
    TooLong,
}

impl From<Fault> for Unread {
    ghost from_gives = { λ fault unread. unread ≡ Unreadable fault };

    fn from(fault: Fault) -> Unread {
        Unread::Unreadable(fault)
    }
}

// Reads a message of the protocol.
pub fn read(protocol: Protocol, octets: &[u8]) -> Result<Reading, Unread>
    ensures { result ≡ read_message protocol octets.now }
{
    if 251 < octets.len() {
        return Err(Unread::TooLong);
    }
    if octets.len() < 2 {
        return Err(Unread::Unreadable(Fault::TooShort));
    }
    let first = octets[0];
    if first % 16 != discriminator(protocol) {
        return Err(Unread::Unreadable(Fault::Discriminator));
    }
    let kind = octets[1];
    if 128 <= kind {
        return Err(Unread::Unreadable(Fault::UnknownType));
    }
    let message = kinds::read_body(protocol, octets, kind % 64)?;
    Ok(Reading {
        flag: 128 <= first,
        value: first / 16 % 8,
        message,
    })
}
