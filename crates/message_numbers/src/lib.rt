// Messages as numbers, for callers in C: reading octets into a struct of numbers, and writing octets from one. Runs of octets stay where they lie.
#![tactic(auto)]

mod back;
mod kinds;

ghost use Rattle.std.specs.Prelude.{◌≡◌};
ghost use Rattle.message.specs.Answers.{fault_number};
ghost use Rattle.message_numbers.specs.Outcomes.{
  refused_with,
  read_numbers,
  wrote_numbers,
  not_written,
  write_numbers_answer,
  write_numbers_leaves,
};

use back::message_of;
use codes::protocol::Protocol;
use codes::wide::answer;
use kinds::numbers_of;
use message::{Fault, Unread};
use writing::Unwritten;

// Octets side by side, as C has them in an array.
#[repr(C)]
#[derive(Clone, Copy)]
pub struct Three {
    pub first: u8,
    pub second: u8,
    pub third: u8,
}

#[repr(C)]
#[derive(Clone, Copy)]
pub struct Four {
    pub first: u8,
    pub second: u8,
    pub third: u8,
    pub fourth: u8,
}

// A half octet that may be absent: 1 and its value, or 0.
#[repr(C)]
#[derive(Clone, Copy)]
pub struct Optional {
    pub there: u8,
    pub value: u8,
}

// Where a run of octets lies: the place of the first, and how many.
#[repr(C)]
#[derive(Clone, Copy)]
pub struct Place {
    pub start: usize,
    pub count: usize,
}

// A message of any kind. What the kind does not carry is zero when read and has no effect when written.
#[repr(C)]
#[derive(Clone, Copy)]
pub struct Numbers {
    // The message type of table 9.1, with bit 7 zero.
    pub kind: u8,
    pub flag: u8,
    pub value: u8,
    pub key: u8,
    pub classmark: Three,
    pub reference: Four,
    pub originator: u8,
    pub state: Optional,
    // SET PARAMETER carries the value alone.
    pub attributes: Optional,
    // Of GET STATUS, no octets are no identity.
    pub identity: Place,
    pub cause: Place,
}

// What reading comes to: the answer, the fault of answer 13, and the message, which is all zero where it is refused.
#[repr(C)]
#[derive(Clone, Copy)]
pub struct NumbersRead {
    pub answer: u32,
    pub fault: u32,
    pub message: Numbers,
}

// What writing comes to: the answer, and how many octets were written.
#[repr(C)]
#[derive(Clone, Copy)]
pub struct NumbersWritten {
    pub answer: u32,
    pub length: usize,
}

// The number that document 01 gives a fault.
fn fault_number(fault: Fault) -> u32
    ensures { result ≡ fault_number fault }
{
    match fault {
        Fault::TooShort => 1,
        Fault::Discriminator => 2,
        Fault::UnknownType => 3,
        Fault::CutShort => 4,
        Fault::WrongLength(_) => 4,
        Fault::MustBeKnown(_, _) => 4,
    }
}

// A refusal to read.
fn refused_with(answer: u32, fault: u32) -> NumbersRead
    ensures { result ≡ refused_with answer fault }
{
    NumbersRead {
        answer,
        fault,
        message: kinds::blank(0, 0, 0),
    }
}

// Reads a message of the protocol.
pub fn read(protocol: Protocol, octets: &[u8]) -> NumbersRead
    ensures { result ≡ read_numbers protocol octets.now }
{
    match message::read(protocol, octets) {
        Ok(read) => NumbersRead {
            answer: answer::TAKEN,
            fault: 0,
            message: numbers_of(read.flag, read.value, read.message),
        },
        Err(Unread::Unreadable(fault)) => refused_with(answer::UNREADABLE, fault_number(fault)),
        Err(Unread::TooLong) => refused_with(answer::LONG_MESSAGE, 0),
    }
}

// What the writer says, in numbers.
fn wrote_numbers(wrote: Result<usize, Unwritten>) -> NumbersWritten
    ensures { result ≡ wrote_numbers wrote }
{
    match wrote {
        Ok(length) => NumbersWritten {
            answer: answer::TAKEN,
            length,
        },
        Err(Unwritten::ShortBuffer) => NumbersWritten {
            answer: answer::SHORT_BUFFER,
            length: 0,
        },
        Err(Unwritten::OutOfRange) => NumbersWritten {
            answer: answer::OUT_OF_RANGE,
            length: 0,
        },
    }
}

// The answer to numbers that mean no message, for a lent buffer of so many octets.
fn not_written(room: usize) -> NumbersWritten
    ensures { result ≡ not_written room }
{
    if room < 255 {
        return NumbersWritten {
            answer: answer::SHORT_BUFFER,
            length: 0,
        };
    }
    NumbersWritten {
        answer: answer::OUT_OF_RANGE,
        length: 0,
    }
}

// Writes the message over the start of `buffer`. Its runs lie in `source`.
pub fn write(
    protocol: Protocol,
    buffer: &mut [u8],
    source: &[u8],
    numbers: Numbers,
) -> NumbersWritten
    ensures value { result ≡ write_numbers_answer protocol buffer.old source.now numbers }
    ensures buffer_after { buffer.new ≡ write_numbers_leaves protocol buffer.old source.now numbers }
{
    let flag = numbers.flag == 1;
    let value = numbers.value;
    let Some(message) = message_of(numbers) else {
        return not_written(buffer.len());
    };
    wrote_numbers(writing::write(protocol, buffer, source, flag, value, message))
}
