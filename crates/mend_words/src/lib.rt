// A damaged log mended: the longest run of entries from its start that the judge accepts is written to a new file. What was kept and dropped is told, and why in the
// judge's own words.
#![tactic(auto)]

use filing::arguments::{argument, has_arguments};
use filing::ending::Failure;
use filing::{log_room, write_file};
use judge_words::tell_judged;
use mend::{Mended, Report};
use replay::own_of;
use saying::shown::tell_name;
use saying::{tell, tell_count};
use settings_values::Settings;
use settings_words::argument::{Ready, settings_before_log};
use text::words::part;

// The word `mend`.
pub fn run_mend(rt: &HostRuntime) -> Result<(), Failure> {
    if !has_arguments(
        rt,
        3,
        b"mend",
        b"three arguments, a settings file, a log and the name of the copy to make",
    ) {
        return Err(Failure::NotRun);
    }
    let mut log = log_room();
    let ready = settings_before_log(rt, b"mend", 0, &mut log)?;
    mend_log(rt, ready.settings, ready.log)
}

// A copy buffer as long as any log's is long enough, and settings that were read are in range: what can be refused is a log that is too long.
fn mend_log(rt: &HostRuntime, settings: Settings, log: &[u8]) -> Result<(), Failure> {
    let identity = settings.identity;
    let count = settings.count;
    let own = own_of(settings);
    let mut copy = log_room();
    let mended = mend::mend(own, part(&identity, 0, count), log, &mut copy);
    let Mended::Done(report) = mended else {
        tell(b"refused (answer 10): the log has over 65,536 bytes; mend a shorter one\n");
        return Err(Failure::Refused);
    };
    let length = report.length;
    file_copy(rt, settings, report, part(&copy, 0, length), log)
}

// Writes the copy to the file that the third argument names, and answers the verdict: a copy that is written is fine, whatever was dropped.
fn file_copy(
    rt: &HostRuntime,
    settings: Settings,
    report: Report,
    copy: &[u8],
    log: &[u8],
) -> Result<(), Failure> {
    let mut room = io::buffer();
    let name = argument(rt, 4, &mut room);
    write_file(rt, b"mend", name, copy)?;
    tell_name(name);
    tell_kept(report, log.len());
    let _ = tell_judged(false, settings, log);
    Ok(())
}

// What was kept and dropped. The copy and what was dropped make up the log but where its version can't be read: the copy of such a log has a version of its own.
fn tell_kept(report: Report, size: usize) {
    tell(b": ");
    tell_count(report.kept, b" entry kept, ", b" entries kept, ");
    tell_count(report.length, b" byte\n", b" bytes\n");
    if report.length.wrapping_add(report.dropped) != size {
        tell(b"the version can't be read, so the copy is a log of version 1 without entries\n");
    }
    if report.dropped == 0 {
        tell(b"nothing");
    } else {
        tell_count(report.dropped, b" byte", b" bytes");
    }
    tell(b" dropped; the judge says of the log:\n");
}
