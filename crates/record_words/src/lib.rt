// A log made from a script of events: each event goes through the step of a radio with given settings, and what the step gives is recorded. The
// times of a script are not judged, so that a script can tell of a bad radio too. Each message that is recorded as ignored is told, with the reason.
#![tactic(auto)]

mod making;
mod refusal;

ghost use Rattle.std.specs.Prelude.{◌≡◌, length};

use filing::ending::Failure;
use filing::{read_file, write_file};
use ignored_words::list;
use making::make;
use message::Own;
use refusal::tell_too_long;
use replay::own_of;
use saying::shown::tell_name;
use saying::{tell, tell_count};
use settings_values::Settings;
use text::words::part;

// Room for a script whose log is as long as can be.
fn script_room() -> [u8; 1048576]
    ensures { 1048576 ≡ length result }
{
    [0; 1048576]
}

// Reads the script, makes its log and writes that to a new file. Answers the verdict. Nothing is written unless the whole script goes through.
pub fn run(
    rt: &HostRuntime,
    settings: Settings,
    script_path: &[u8],
    log_path: &[u8],
) -> Result<(), Failure> {
    let mut script = script_room();
    let filed = read_file(rt, b"record", script_path, &mut script)?;
    if !filed.whole {
        tell_too_long(script_path);
        return Err(Failure::Refused);
    }
    let identity = settings.identity;
    let named = settings.count;
    record_script(
        rt,
        own_of(settings),
        part(&identity, 0, named),
        script_path,
        filed.octets,
        log_path,
    )
}

// Makes the log and writes it, and then tells what it has of ignored messages.
fn record_script(
    rt: &HostRuntime,
    own: Own,
    identity: &[u8],
    script_path: &[u8],
    script: &[u8],
    log_path: &[u8],
) -> Result<(), Failure> {
    let mut log = io::large_buffer();
    let Some((entries, used)) = make(own, identity, script_path, script, &mut log) else {
        return Err(Failure::Refused);
    };
    write_log(rt, log_path, part(&log, 0, used), entries)?;
    list(own, identity, part(&log, 0, used), entries);
    Ok(())
}

fn write_log(rt: &HostRuntime, path: &[u8], log: &[u8], entries: usize) -> Result<(), Failure> {
    write_file(rt, b"record", path, log)?;
    tell_name(path);
    tell(b": ");
    tell_count(entries, b" entry, ", b" entries, ");
    tell_count(log.len(), b" byte\n", b" bytes\n");
    Ok(())
}
