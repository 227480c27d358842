// The time of an event: milliseconds from the start of the log, or hours, minutes and seconds as `show` tells them, of which the hours and the milliseconds may be left out.
use text::decimal::number_of;
use text::words::find;

// Later than the last entry of any log: 65,536 times 86,400,000.
pub const LATEST: u64 = 5662310400000;

// The same in minutes, and in hours.
const MOST_MINUTES: u64 = LATEST / 60000;

const MOST_HOURS: u64 = LATEST / 3600000;

// The time that a word tells, in milliseconds.
pub(crate) fn time_of(text: &[u8]) -> Option<u64> {
    match parted(text, b':') {
        Some((first, rest)) => clock_of(first, rest),
        None => number_of(text, LATEST),
    }
}

// What stands before and behind the first `mark` of a text, where it has one.
fn parted(text: &[u8], mark: u8) -> Option<(&[u8], &[u8])> {
    let place = find(text, mark);
    if place == text.len() {
        return None;
    }
    Some((&text[..place], &text[place + 1..]))
}

// Hours or else minutes stand before the first colon. Where a second one follows, minutes stand before that.
fn clock_of(first: &[u8], rest: &[u8]) -> Option<u64> {
    let lead = leading(first)?;
    match parted(rest, b':') {
        Some((minutes, seconds)) => {
            let minutes = with_minutes(lead, two_digits(minutes)?)?;
            with_seconds(minutes, seconds_of(seconds)?)
        }
        None => with_seconds(lead, seconds_of(rest)?),
    }
}

// Hours and minutes as minutes.
fn with_minutes(hours: u64, minutes: u64) -> Option<u64> {
    if MOST_HOURS < hours || 59 < minutes {
        return None;
    }
    Some(60 * hours + minutes)
}

// Minutes and the milliseconds behind them, as milliseconds.
fn with_seconds(minutes: u64, rest: u64) -> Option<u64> {
    if MOST_MINUTES < minutes || 59999 < rest {
        return None;
    }
    let time = 60000 * minutes + rest;
    if LATEST < time {
        return None;
    }
    Some(time)
}

// Seconds, with milliseconds behind a point or without, as milliseconds.
fn seconds_of(text: &[u8]) -> Option<u64> {
    match parted(text, b'.') {
        Some((seconds, rest)) => with_thousandths(two_digits(seconds)?, three_digits(rest)?),
        None => with_thousandths(two_digits(text)?, 0),
    }
}

fn with_thousandths(seconds: u64, rest: u64) -> Option<u64> {
    if 59 < seconds || 999 < rest {
        return None;
    }
    Some(1000 * seconds + rest)
}

// What leads may have a zero in front, so that `00:01:00` is read too.
fn leading(text: &[u8]) -> Option<u64> {
    if text.len() == 2 {
        return two_digits(text);
    }
    number_of(text, LATEST)
}

fn two_digits(text: &[u8]) -> Option<u64> {
    if text.len() != 2 {
        return None;
    }
    if text[0] == b'0' {
        return number_of(&text[1..], 9);
    }
    number_of(text, 99)
}

fn three_digits(text: &[u8]) -> Option<u64> {
    if text.len() != 3 {
        return None;
    }
    if text[0] == b'0' {
        return two_digits(&text[1..]);
    }
    number_of(text, 999)
}
