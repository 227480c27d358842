// Writing the nine messages of broadcast and group call control, clauses 8 and 9 of GSM 04.69 and 24.068, into a lent buffer.
#![tactic(auto)]

mod kinds;

ghost use Rattle.std.specs.Prelude.{◌≡◌, ◌≤◌};
ghost use Rattle.message.specs.Tables.{head_of};
ghost use Rattle.writing.specs.Writing.{put_answer, put_leaves, write_answer, write_leaves};

use codes::protocol::{Protocol, discriminator};
use message::Message;

// Why a message is not written; the number that document 01 gives each is in `written_number`.
#[derive(Clone, Copy, Debug, PartialEq, Eq)]
pub enum Unwritten {
    // The lent buffer has under 255 octets, or, where a message is put behind another, no room for it.
    ShortBuffer,
    // A field beyond its width or length, a run outside the lent octets, transaction value 7 or more, or over 251 octets.
    OutOfRange,
}

// The first octet of a message. The transaction value has three bits.
fn head_of(protocol: Protocol, flag: bool, value: u8) -> u8
    requires { value ≤ 7 }
    ensures { result ≡ head_of protocol flag value }
{
    let low = discriminator(protocol);
    if flag {
        return low + 16 * (8 + value);
    }
    low + 16 * value
}

// Puts the message over the start of `part`, which needs room for the message and no more: so a second message is put behind a first. Its runs lie in `source`.
pub fn put(
    protocol: Protocol,
    part: &mut [u8],
    source: &[u8],
    flag: bool,
    value: u8,
    message: Message,
) -> Result<usize, Unwritten>
    ensures value { result ≡ put_answer protocol part.old source.now flag value message }
    ensures part_after { part.new ≡ put_leaves protocol part.old source.now flag value message }
{
    if 6 < value {
        return Err(Unwritten::OutOfRange);
    }
    let head = head_of(protocol, flag, value);
    kinds::write_body(protocol, part, source, head, message)
}

// Writes the message over the start of `buffer`, which has 255 octets at least. Its runs lie in `source`.
pub fn write(
    protocol: Protocol,
    buffer: &mut [u8],
    source: &[u8],
    flag: bool,
    value: u8,
    message: Message,
) -> Result<usize, Unwritten>
    ensures value { result ≡ write_answer protocol buffer.old source.now flag value message }
    ensures buffer_after { buffer.new ≡ write_leaves protocol buffer.old source.now flag value message }
{
    if buffer.len() < 255 {
        return Err(Unwritten::ShortBuffer);
    }
    put(protocol, buffer, source, flag, value, message)
}
