// The names of the events, in the order of their numbers (document 01, "Events and steps"): 1 to 18 in every call, but that 10 says which call is notified; then 19,
// the expiry of the invitation timer, in a broadcast call, and 32 to 36 in a group call.
use codes::event;
use codes::protocol::Protocol;

pub const BEFORE_NOTIFIED: [u8; 106] =
    *b"set-up-request immediate-set-up-request join terminate release \
    mm-established mm-failed link-failure abort";

pub const BROADCAST_NOTIFIED: [u8; 18] = *b"broadcast-notified";

pub const GROUP_NOTIFIED: [u8; 14] = *b"group-notified";

pub const BEHIND_NOTIFIED: [u8; 129] = *b"receive-mode-entered no-channel channel-available \
    t-mm-est-expired t-term-expired t-conn-req-expired t-no-channel-expired message";

pub const BROADCAST_LAST: [u8; 14] = *b"t-pres-expired";

pub const GROUP_LAST: [u8; 105] =
    *b"request-receive-mode request-talk transmit-mode-entered dedicated-mode-entered \
    delete-pending-termination";

// The number before those of a group call.
const BEFORE_GROUP: u8 = event::RECEIVE_MODE - 1;

// The place of a word among others, counted from 1, where it is one of them.
pub(crate) fn place_among(names: &[u8], name: &[u8]) -> Option<u8> {
    let place = names
        .split(|character| *character == b' ')
        .position(|word| word == name)?;
    u8::try_from(place.wrapping_add(1)).ok()
}

// The number of the event that a name names among names that follow the event of a number.
fn number_behind(number: u8, names: &[u8], name: &[u8]) -> Option<u8> {
    let place = place_among(names, name)?;
    Some(number.wrapping_add(place))
}

// Of the names that only the call of a protocol has.
fn own_number(protocol: Protocol, name: &[u8]) -> Option<u8> {
    match protocol {
        Protocol::Broadcast => number_behind(event::ABORT_OR_RELEASE, &BROADCAST_NOTIFIED, name).or(
            number_behind(event::RECEIVED, &BROADCAST_LAST, name),
        ),
        Protocol::Group => number_behind(event::ABORT_OR_RELEASE, &GROUP_NOTIFIED, name).or(
            number_behind(BEFORE_GROUP, &GROUP_LAST, name),
        ),
    }
}

// The number of the event that a name names in a call of a protocol.
pub(crate) fn event_named(protocol: Protocol, name: &[u8]) -> Option<u8> {
    number_behind(0, &BEFORE_NOTIFIED, name)
        .or(number_behind(event::NOTIFIED, &BEHIND_NOTIFIED, name))
        .or(own_number(protocol, name))
}
