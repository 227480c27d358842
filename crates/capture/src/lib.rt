// A capture file that Wireshark opens with no set-up: the classic pcap form, its numbers low octet first, each packet an exported PDU
// (link type 252) whose tags name the dissector of GSM 04.07's messages and say which way the message went.
#![tactic(auto)]

ghost use Rattle.std.specs.Prelude.{◌≡◌, ◌++◌, ◌+◌, length};
ghost use Rattle.text.specs.Output.{behind, put_leaves};
ghost use Rattle.capture.specs.Capture.{capture_header, start_packet, packet_header, tags_of, packet_of};

use octets::{copy_to, little};
use text::output::{Output, put};

// Puts the header, with which a file starts, behind the output. Where there is no room, nothing is put and the output stays where it was.
pub fn put_header(buffer: &mut [u8], output: Output) -> Output
    ensures value { result ≡ behind buffer.old output capture_header }
    ensures buffer_after { buffer.new ≡ put_leaves buffer.old output capture_header }
{
    put(
        buffer,
        output,
        b"\xd4\xc3\xb2\xa1\x02\x00\x04\x00\x00\x00\x00\x00\x00\x00\x00\x00\xff\xff\x00\x00\xfc\x00\x00\x00",
    )
}

// Puts the packet of the log's start behind the output. Where there is no room, nothing is put and the output stays where it was.
pub fn put_start(buffer: &mut [u8], output: Output) -> Output
    ensures value { result ≡ behind buffer.old output start_packet }
    ensures buffer_after { buffer.new ≡ put_leaves buffer.old output start_packet }
{
    put(
        buffer,
        output,
        b"\x00\x00\x00\x00\x00\x00\x00\x00\x28\x00\x00\x00\x28\x00\x00\x00\x00\x0c\x00\x10data-text-lines\x00\x00\x00\x00\x00start of the log",
    )
}

// The header of a packet of `count` octets, at a time in milliseconds.
fn packet_header(time: u64, count: u64) -> [u8; 16]
    ensures { result ≡ packet_header time count }
{
    let seconds = little(time / 1000);
    let micros = little(time % 1000 * 1000);
    let octets = little(count);
    [
        seconds[0], seconds[1], seconds[2], seconds[3], micros[0], micros[1], micros[2], micros[3],
        octets[0], octets[1], octets[2], octets[3], octets[0], octets[1], octets[2], octets[3],
    ]
}

// The tags: 12 with the dissector's name, 35 with the direction (0 sent, 1 received), and 0, the end.
fn tags(sent: bool) -> [u8; 28]
    ensures { result ≡ tags_of sent }
{
    if sent {
        return *b"\x00\x0c\x00\x0cgsm_a_dtap\x00\x00\x00\x23\x00\x04\x00\x00\x00\x00\x00\x00\x00\x00";
    }
    *b"\x00\x0c\x00\x0cgsm_a_dtap\x00\x00\x00\x23\x00\x04\x00\x00\x00\x01\x00\x00\x00\x00"
}

// Puts three texts, one behind the other, behind the output: all of them or, where there is no room for all, nothing.
fn put_three(buffer: &mut [u8], output: Output, first: &[u8], second: &[u8], third: &[u8]) -> Output
    requires { (length first.now ≡ 16) × (length second.now ≡ 28) }
    ensures value { result ≡ behind buffer.old output (first.now ++ (second.now ++ third.now)) }
    ensures buffer_after { buffer.new ≡ put_leaves buffer.old output (first.now ++ (second.now ++ third.now)) }
{
    let at = output.at;
    if buffer.len() < at {
        return output;
    }
    if buffer.len() - at < 44 {
        return output;
    }
    if buffer.len() - at - 44 < third.len() {
        return output;
    }
    copy_to(buffer, at, first, 0, 16);
    copy_to(buffer, at + 16, second, 0, 28);
    copy_to(buffer, at + 44, third, 0, third.len());
    Output {
        at: at + (44 + third.len()),
    }
}

// Puts a message as a packet behind the output: when it was, in milliseconds, and whether it was sent or else received. Where
// there is no room for all of it, nothing is put and the output stays where it was.
pub fn put_packet(
    buffer: &mut [u8],
    output: Output,
    time: u64,
    sent: bool,
    message: &[u8],
) -> Output
    ensures value { result ≡ behind buffer.old output (packet_of time sent message.now) }
    ensures buffer_after { buffer.new ≡ put_leaves buffer.old output (packet_of time sent message.now) }
{
    let header = packet_header(time, message.len() as u64 + 28);
    let named = tags(sent);
    put_three(buffer, output, &header, &named, message)
}
