// Messages, read and written, for callers in C: of broadcast calls, and of group calls.
ghost use Rattle.std.specs.Prelude.{◌≡◌};
ghost use Rattle.codes.specs.declared.protocol.Protocol.{Protocol};
ghost use Rattle.message_numbers.specs.Outcomes.{read_numbers, write_numbers_answer, write_numbers_leaves};

use codes::protocol::Protocol;
use message_numbers::{Numbers, NumbersRead, NumbersWritten};

#[unsafe(no_mangle)]
pub extern "C" fn heidezirkel_read_message(octets: &[u8]) -> NumbersRead
    ensures { result ≡ read_numbers Protocol.Broadcast octets.now }
{
    message_numbers::read(Protocol::Broadcast, octets)
}

#[unsafe(no_mangle)]
pub extern "C" fn heidezirkel_group_read_message(octets: &[u8]) -> NumbersRead
    ensures { result ≡ read_numbers Protocol.Group octets.now }
{
    message_numbers::read(Protocol::Group, octets)
}

#[unsafe(no_mangle)]
pub extern "C" fn heidezirkel_write_message(
    message: Numbers,
    source: &[u8],
    buffer: &mut [u8],
) -> NumbersWritten
    ensures value { result ≡ write_numbers_answer Protocol.Broadcast buffer.old source.now message }
    ensures buffer_after { buffer.new ≡ write_numbers_leaves Protocol.Broadcast buffer.old source.now message }
{
    message_numbers::write(Protocol::Broadcast, buffer, source, message)
}

#[unsafe(no_mangle)]
pub extern "C" fn heidezirkel_group_write_message(
    message: Numbers,
    source: &[u8],
    buffer: &mut [u8],
) -> NumbersWritten
    ensures value { result ≡ write_numbers_answer Protocol.Group buffer.old source.now message }
    ensures buffer_after { buffer.new ≡ write_numbers_leaves Protocol.Group buffer.old source.now message }
{
    message_numbers::write(Protocol::Group, buffer, source, message)
}
