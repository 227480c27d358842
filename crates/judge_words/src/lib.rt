// A log's verdict in words: accepted, with what that says of the radio and where it left off; or the entry at which it is refused, what that entry claims, and what the step
// gives or which time rule it breaks.
#![tactic(auto)]

mod ending;
mod refusal;

use ending::tell_ending;
use filing::arguments::{has_option, tell_argument};
use filing::ending::Failure;
use filing::log_room;
use judge::{Examined, examine};
use log_words::entry::tell_long;
use log_words::tell_version;
use message::Own;
use refusal::tell_refusal;
use replay::own_of;
use saying::{tell, tell_count, tell_place};
use settings_values::Settings;
use settings_words::argument::{Ready, settings_and_log_behind};
use text::words::part;
use timer::Window;
use verdict::{Invitation, Judged};

// The word `judge`.
pub fn run_judge(rt: &HostRuntime) -> Result<(), Failure> {
    let strict = has_option(rt, 2, b"--settings-timers");
    let mut log = log_room();
    let ready = settings_and_log_behind(rt, b"judge", options(strict), &mut log)?;
    tell_argument(rt, options(strict).wrapping_add(3));
    tell(b": ");
    tell_judged(strict, ready.settings, ready.log)
}

// How many options there are.
fn options(strict: bool) -> usize {
    if strict {
        return 1;
    }
    0
}

// Judges a log by the settings of a radio, and answers the verdict. A strict one wants the timers of the settings among those that explain the log.
pub fn tell_judged(strict: bool, settings: Settings, log: &[u8]) -> Result<(), Failure> {
    let examined = examine_by(settings, log);
    let ended = tell_examined(strict, settings, log, examined);
    tell_version(log);
    ended
}

fn examine_by(settings: Settings, log: &[u8]) -> Examined {
    let identity = settings.identity;
    let count = settings.count;
    examine(own_of(settings), part(&identity, 0, count), log)
}

fn tell_examined(
    strict: bool,
    settings: Settings,
    log: &[u8],
    examined: Examined,
) -> Result<(), Failure> {
    let identity = settings.identity;
    let count = settings.count;
    let own = own_of(settings);
    tell_verdict_on(
        strict,
        settings,
        own,
        part(&identity, 0, count),
        log,
        examined,
    )
}

fn tell_verdict_on(
    strict: bool,
    settings: Settings,
    own: Own,
    identity: &[u8],
    log: &[u8],
    examined: Examined,
) -> Result<(), Failure> {
    let judged = examined.judged;
    let walked = examined.walked;
    match judged {
        Judged::Accepted(entries, joining, invitation) => {
            tell_accepted(entries, joining, invitation);
            let first = tell_joining(settings.joining as u64, joining);
            let second = tell_invitation(settings.invitation as u64, invitation);
            let ended = tell_strict(strict, first & second);
            let track = walked.track;
            tell_ending(track.context);
            ended
        }
        Judged::TooLong => {
            tell(b"refused (answer 10): the log has over 65,536 bytes; judge a shorter one\n");
            Err(Failure::Refused)
        }
        Judged::OutOfRange => {
            tell(b"refused (answer 4): the settings are out of range\n");
            Err(Failure::Refused)
        }
        Judged::Unreadable(entry) => {
            tell(b"refused (answer 8): entry ");
            tell_place(entry);
            tell(b" can't be read\n");
            tell_refusal(own, identity, log, walked);
            Err(Failure::Refused)
        }
        Judged::Unexplained(entry) => {
            tell(b"refused (answer 9): up to entry ");
            tell_place(entry);
            tell(b" no timer explains the log\n");
            tell_refusal(own, identity, log, walked);
            Err(Failure::Refused)
        }
    }
}

// The verdict on a log that is accepted, by whether the timers of the settings are among those that explain it.
fn tell_strict(strict: bool, among: bool) -> Result<(), Failure> {
    if among {
        return Ok(());
    }
    if strict {
        tell(
            b"so it is refused by --settings-timers: the radio does not run the timers of its settings\n",
        );
        return Err(Failure::Refused);
    }
    Ok(())
}

fn tell_accepted(entries: usize, joining: Window, invitation: Invitation) {
    tell(b"accepted: ");
    tell_count(
        entries,
        b" entry; it is what a radio does",
        b" entries; each is what a radio does",
    );
    tell(b" whose joining timer is ");
    tell_window(joining);
    match invitation {
        Invitation::Untold => {}
        Invitation::Told(window) => {
            tell(b" and whose invitation timer is ");
            tell_window(window);
        }
    }
    tell(b"\n");
}

fn tell_window(window: Window) {
    if window.least == window.greatest {
        tell(b"exactly ");
    } else {
        tell_long(window.least);
        tell(b" to ");
    }
    tell_long(window.greatest);
    tell(b" ms");
}

// What the joining timers that explain the log say beside that of the settings, and whether it is among them.
fn tell_joining(setting: u64, window: Window) -> bool {
    tell_setting(setting, b" ms for the joining timer");
    tell_meaning(
        setting,
        window,
        b": the radio waits longer than its settings say\n",
        b": the radio gives up earlier than its settings say\n",
    )
}

// The same of the invitation timers, of which a log of an older version says nothing.
fn tell_invitation(setting: u64, invitation: Invitation) -> bool {
    match invitation {
        Invitation::Untold => true,
        Invitation::Told(window) => {
            tell_setting(setting, b" ms for the invitation timer");
            tell_meaning(
                setting,
                window,
                b": the radio keeps an invitation longer than its settings say\n",
                b": the radio forgets an invitation earlier than its settings say\n",
            )
        }
    }
}

fn tell_setting(setting: u64, name: &[u8]) {
    tell(b"the settings say ");
    tell_long(setting);
    tell(name);
}

fn tell_meaning(setting: u64, window: Window, longer: &[u8], earlier: &[u8]) -> bool {
    if setting < window.least {
        tell(longer);
        return false;
    }
    if window.greatest < setting {
        tell(earlier);
        return false;
    }
    tell(b", which is among them\n");
    true
}
