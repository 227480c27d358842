// Why a script is refused: the line's number, its text, what is wrong there and what is wanted.
use codes::protocol::Protocol;
use codes::{answer, message_type};
use log_words::entry::tell_long;
use saying::shown::tell_name;
use saying::{tell, tell_number};
use script::names::{
    BEFORE_NOTIFIED, BEHIND_NOTIFIED, BROADCAST_LAST, BROADCAST_NOTIFIED, GROUP_LAST,
    GROUP_NOTIFIED,
};
use script::words::Word;
use script::{Fault, Unfit, Wrong};
use settings_words::line::{tell_mark, tell_number_of, tell_quoted, tell_text};
use text::words::part;

// The line can't be read; it names the kind of call a second time, or behind an event; its time lies before that of the event before, or more than a day behind it; the
// step gives an answer that no log holds; or the log has no room for the entry.
#[derive(Clone, Copy)]
pub(crate) enum Why {
    Unreadable(Wrong),
    KindTwice,
    KindTooLate,
    GoesBack(u64),
    TooLate,
    Answered(u8),
    LogFull,
}

fn tell_start(path: &[u8]) {
    tell_name(path);
    tell(b": the script is refused, and no log is made\n");
}

pub(crate) fn tell_too_long(path: &[u8]) {
    tell_start(path);
    tell(b"it has over 1,048,576 bytes\n");
}

pub(crate) fn tell_refusal(protocol: Protocol, path: &[u8], number: usize, line: &[u8], why: Why) {
    tell_start(path);
    tell_number_of(number);
    tell_text(line);
    tell_number_of(number);
    tell_why(protocol, line, why);
    tell_mark(line);
    tell(b"\n");
}

fn tell_why(protocol: Protocol, line: &[u8], why: Why) {
    match why {
        Why::Unreadable(wrong) => {
            tell_found(line, wrong.word);
            tell_wanted(protocol, wrong.fault);
        }
        Why::KindTwice => tell(
            b"the kind of call stands on a line before already, and it stands once: take one of the two lines out",
        ),
        Why::KindTooLate => tell(
            b"the kind of call stands before the first event: put this line at the script's start",
        ),
        Why::GoesBack(before) => {
            tell(b"the time goes back: the event before is at ");
            tell_long(before);
            tell(b" ms, and times never go back");
        }
        Why::TooLate => tell(
            b"the event before lies over 86400000 ms (a day) back, and no log holds so long a time between two entries",
        ),
        Why::Answered(answer) => tell_answer(answer),
        Why::LogFull => tell(
            b"with this event the log has over 65,536 bytes (answer 10): make a shorter one",
        ),
    }
}

// A log holds only the answers 0 to 3.
fn tell_answer(answer: u8) {
    tell(b"the step answers ");
    tell_number(answer);
    match answer {
        answer::OUT_OF_RANGE => tell(
            b", argument outside its range: a transaction value is 0 to 6",
        ),
        answer::LONG_MESSAGE => tell(
            b", received message over 251 octets: it has at most 251 octets",
        ),
        _ => tell(b", and a log holds only answers 0 to 3"),
    }
}

// What stands where something else is wanted.
fn tell_found(line: &[u8], found: Option<Word>) {
    let Some(word) = found else {
        tell(b"the line ends where ");
        return;
    };
    tell_quoted(part(line, word.start, word.count));
    tell(b" stands where ");
}

// The names of all events that a script of such a call may have, in the order of their numbers.
fn tell_events(protocol: Protocol) {
    tell(&BEFORE_NOTIFIED);
    tell(b" ");
    match protocol {
        Protocol::Broadcast => tell(&BROADCAST_NOTIFIED),
        Protocol::Group => tell(&GROUP_NOTIFIED),
    }
    tell(b" ");
    tell(&BEHIND_NOTIFIED);
    tell(b" receive ");
    match protocol {
        Protocol::Broadcast => tell(&BROADCAST_LAST),
        Protocol::Group => tell(&GROUP_LAST),
    }
}

fn tell_wanted(protocol: Protocol, fault: Fault) {
    match fault {
        Fault::Kind => tell(
            b"the kind of call is wanted: broadcast, or group for one with talk-back; a script without this line is of a broadcast call",
        ),
        Fault::Time => tell(
            b"the time is wanted, from the start of the log: milliseconds, a whole number without a leading zero; or minutes and seconds as 1:00, hours, minutes and seconds as 0:01:00, with milliseconds as 0:01:00.500",
        ),
        Fault::Event => {
            tell(b"an event is wanted, one of: ");
            tell_events(protocol);
        }
        Fault::Value => tell(b"value=N is wanted: the transaction value, N from 0 to 6"),
        Fault::Reference => tell(
            b"reference=H is wanted: the call reference, H being 8 hexadecimal digits",
        ),
        Fault::Mode => tell(
            b"the mode is wanted, in which the message was received: acknowledged or unacknowledged; to tell a message by its name, write receive",
        ),
        Fault::Named(unfit) => tell_message_wanted(unfit),
        Fault::Digit => tell(b"octets of the message are wanted: hexadecimal digits, two an octet"),
        Fault::HalfOctet => tell(b"one more digit is wanted: the last octet is half there"),
        Fault::TooLong => tell(b"the message is to end: it has at most 251 octets"),
        Fault::Surplus => tell(b"the line is to end, or a comment to begin with #"),
        Fault::Tab => tell(b"a space is wanted: words are parted by spaces"),
    }
}

// What is wanted of a message that is told by its name.
fn tell_message_wanted(unfit: Unfit) {
    match unfit {
        Unfit::Message => tell(
            b"the name of a message is wanted that a radio receives, one of: connect termination termination-reject get-status set-parameter; any other is told by its octets, behind message",
        ),
        Unfit::Flag => tell(
            b"flag=N is wanted: 1 in a call that the radio set up, 0 in one that it was told of",
        ),
        Unfit::Cause => tell(
            b"cause=N is wanted: the number of the cause, 0 to 127, as 16 for normal call clearing or 24 where the network wants to maintain the call",
        ),
        Unfit::Identity => tell(
            b"identity=H is wanted: the mobile identity that is asked, H being 2 to 16 hexadecimal digits, an even count",
        ),
        Unfit::Truth => tell(b"T or F is wanted, for true or false"),
        Unfit::NoCall => tell(
            b"value=N is wanted: the radio is in no call here whose transaction value the message could have",
        ),
        Unfit::Parameter => tell(
            b"a parameter to set is wanted: orig=T, comm=T, d-att=T or u-att=T, or F; those that are left out stay as they are",
        ),
        Unfit::Field(kind) => tell_field_wanted(kind),
        Unfit::Again => tell(b"a field is wanted that does not stand on the line already"),
    }
}

// The fields that a message of a type has.
fn tell_field_wanted(kind: u8) {
    tell(b"a field of this message is wanted: ");
    match kind {
        message_type::CONNECT => tell(b"reference=H, originator=T or F"),
        message_type::GET_STATUS => tell(b"identity=H"),
        message_type::SET_PARAMETER => tell(b"orig=, comm=, d-att=, u-att=, each T or F"),
        _ => tell(b"cause=N"),
    }
    tell(b"; value=N, flag=N; acknowledged or unacknowledged");
}
