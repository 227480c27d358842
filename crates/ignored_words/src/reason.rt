// What the reason for which a message is ignored is in this message: what it has beside what the call has.
use codes::protocol::{Protocol, discriminator};
use context::{Context, expected_flag};
use fields::octet_at;
use message::Message;
use saying::{tell, tell_hex, tell_number};
use text::words::part;

// What the reason is in this message, from the context before it, for a radio of this identity.
pub(crate) fn tell_particulars(
    protocol: Protocol,
    reason: u8,
    context: Context,
    identity: &[u8],
    octets: &[u8],
) {
    let first = octet_at(octets, 0);
    match reason {
        1 => {}
        2 => tell(b": a message has at least 2 octets"),
        3 => tell_protocol(protocol, first),
        4 => tell_transaction(first, context),
        5 => tell_identities(protocol, octets, identity),
        _ => tell(b": it is not answered"),
    }
}

fn tell_protocol(protocol: Protocol, first: u8) {
    tell(b": discriminator ");
    tell_number(first % 16);
    match protocol {
        Protocol::Broadcast => tell(b", a broadcast call's is "),
        Protocol::Group => tell(b", a group call's is "),
    }
    tell_number(discriminator(protocol));
}

// The upper half of the first octet is a flag and a value. A call that awaits a value takes any but 7.
fn tell_transaction(first: u8, context: Context) {
    let found = first / 16 % 8;
    let talk = context.talk;
    tell(b": transaction ");
    tell_number(found);
    if !talk.awaiting & (found != context.value) {
        tell(b", this call has ");
        tell_number(context.value);
        return;
    }
    if talk.awaiting & (found == 7) {
        tell(b", this call awaits 0 to 6");
        return;
    }
    tell_flags(expected_flag(context));
}

fn tell_flags(expected: bool) {
    if expected {
        tell(b" with flag 0, this call expects flag 1");
        return;
    }
    tell(b" with flag 1, this call expects flag 0");
}

// Only GET STATUS names an identity.
fn tell_identities(protocol: Protocol, octets: &[u8], identity: &[u8]) {
    let Ok(read) = message::read(protocol, octets) else {
        return;
    };
    let Message::GetStatus {
        identity: Some(run),
    } = read.message
    else {
        return;
    };
    tell(b": it names ");
    tell_hex(part(octets, run.start, run.count));
    tell(b", this radio is ");
    tell_hex(identity);
}
