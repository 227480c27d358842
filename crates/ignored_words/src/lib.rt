// The messages that a radio ignored, and why: a log is walked through as the judge does, and what the step says of each entry up to there is listed. The walk keeps no
// reasons, so the listing takes each of these entries through its step once more.
#![tactic(auto)]

mod listing;
mod reason;

ghost use Rattle.std.specs.Prelude.{◌<◌};

use filing::ending::Failure;
use filing::log_room;
use judge_walk::{End, walk};
pub use listing::list;
use log_words::entry::write_reason;
use log_words::tell_version;
use message::Own;
use replay::own_of;
use saying::{STDOUT_FILENO, tell, tell_count, tell_place};
use settings_values::Settings;
use settings_words::argument::{Ready, settings_and_log};
use text::words::part;

// The word `ignored`.
pub fn run_ignored(rt: &HostRuntime) -> Result<(), Failure> {
    let mut log = log_room();
    let ready = settings_and_log(rt, b"ignored", &mut log)?;
    tell_ignored(ready.settings, ready.log)
}

// Lists the ignored messages of a log, and answers the verdict: 0 where the whole log is what the radio does.
fn tell_ignored(settings: Settings, log: &[u8]) -> Result<(), Failure> {
    let identity = settings.identity;
    let count = settings.count;
    tell_walked(own_of(settings), part(&identity, 0, count), log)
}

fn tell_walked(own: Own, identity: &[u8], log: &[u8]) -> Result<(), Failure> {
    let walked = walk(own, identity, log);
    let track = walked.track;
    let entries = track.entries;
    let number = entries.wrapping_add(1);
    let end = walked.end;
    match end {
        End::Finished => {
            tell_listed(own, identity, log, entries);
            Ok(())
        }
        End::TooLong => tell_unlisted(b"it has over 65,536 bytes (answer 10)"),
        End::OutOfRange => tell_unlisted(b"the settings are out of range (answer 4)"),
        End::NoVersion => tell_listed_to(own, identity, log, entries, 0),
        End::Torn(_) => tell_listed_to(own, identity, log, entries, number),
        End::Stuck(_) => tell_listed_to(own, identity, log, entries, number),
        End::Astray => tell_listed_to(own, identity, log, entries, number),
        End::Paused => tell_listed_to(own, identity, log, entries, number),
    }
}

// A log that is refused before its first octet is read.
fn tell_unlisted(why: &[u8]) -> Result<(), Failure> {
    tell(b"the log is refused: ");
    tell(why);
    tell(b", and nothing of it is listed; see heidezirkel judge\n");
    Err(Failure::Refused)
}

// The list of the entries that are explained.
fn tell_listed(own: Own, identity: &[u8], log: &[u8], entries: usize) {
    let counts = list(own, identity, log, entries);
    tell_counts(&counts, entries);
    tell_version(log);
}

// The same of a log that is refused at the entry of this number, which is the one behind them, or at its version.
fn tell_listed_to(
    own: Own,
    identity: &[u8],
    log: &[u8],
    entries: usize,
    number: usize,
) -> Result<(), Failure> {
    tell_listed(own, identity, log, entries);
    tell(b"the log is refused at entry ");
    tell_place(number);
    tell(b", and nothing is listed from there on; see heidezirkel judge\n");
    Err(Failure::Refused)
}

// How many messages were ignored for each reason. The first count is of the other entries.
fn tell_counts(counts: &[usize; 7], entries: usize) {
    let ignored = entries.wrapping_sub(counts[0]);
    if ignored == 0 {
        tell(b"no message was ignored in ");
        tell_count(entries, b" entry\n", b" entries\n");
        return;
    }
    tell_count(ignored, b" message ignored in ", b" messages ignored in ");
    tell_count(entries, b" entry\n", b" entries\n");
    tell_each(counts);
}

fn tell_each(counts: &[usize; 7]) {
    for reason in 1..7 {
        tell_counted(counts, reason);
    }
}

fn tell_counted(counts: &[usize; 7], reason: u8)
    requires { reason < 7 }
{
    write_reason(STDOUT_FILENO, reason);
    tell(b": ");
    tell_place(counts[reason as usize]);
    tell(b"\n");
}
