// What the commands of the probe and the words for people share: the typed words of a command line, the answer to a line that is no command, an octet by its
// place, the number of a fault, and the messages of a reply.
#![tactic(auto)]

pub mod reply_messages;
pub mod words;

use message::Fault;
use saying::say;
use text::output::Output;

// The answer to a line that is no command.
pub fn malformed(buffer: &mut [u8], output: Output) -> Output {
    say(buffer, output, b"?\n")
}

// The number that document 01 gives a fault.
pub fn fault_number(fault: Fault) -> u8 {
    match fault {
        Fault::TooShort => 1,
        Fault::Discriminator => 2,
        Fault::UnknownType => 3,
        Fault::CutShort => 4,
        Fault::WrongLength(_) => 4,
        Fault::MustBeKnown(_, _) => 4,
    }
}

// The octet at a place, and 0 past the end.
pub fn octet_at(octets: &[u8], at: usize) -> u8 {
    octets.get(at).copied().unwrap_or(0)
}
