// The messages of a reply. A broadcast call's reply is one message; behind a group call's SETUP or STATUS there may be a second one, and these two say by their
// type and their length octet where they end.
use crate::octet_at;
use codes::message_type;
use codes::protocol::Protocol;
use octets::Run;
use text::words::part;

// The first message, and what stands behind it: no octets where it is all.
#[derive(Clone, Copy)]
pub struct Messages {
    pub first: Run,
    pub behind: Run,
}

// The messages of a reply that stands in a log.
pub fn messages_of(protocol: Protocol, log: &[u8], reply: Run) -> Messages {
    let start = reply.start;
    let count = reply.count;
    let first = first_count(protocol, part(log, start, count));
    Messages {
        first: Run {
            start,
            count: first,
        },
        behind: Run {
            start: start.wrapping_add(first),
            count: count.wrapping_sub(first),
        },
    }
}

// How many octets the first message takes.
fn first_count(protocol: Protocol, reply: &[u8]) -> usize {
    match protocol {
        Protocol::Broadcast => reply.len(),
        Protocol::Group => count_by_type(reply).min(reply.len()),
    }
}

fn count_by_type(reply: &[u8]) -> usize {
    match octet_at(reply, 1) {
        message_type::SETUP => 6,
        message_type::STATUS => 5 + octet_at(reply, 2) as usize,
        _ => reply.len(),
    }
}
