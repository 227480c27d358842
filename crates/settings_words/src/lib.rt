// The settings file in words: what was read, or the line that is refused and what it wants.
#![tactic(auto)]

pub mod argument;
mod fault;
pub mod line;

use fault::{tell_fault, tell_too_long};
use filing::Filed;
use filing::ending::Failure;
use saying::shown::tell_name;
use saying::{STDOUT_FILENO, tell, tell_hex, tell_number, tell_place};
use settings::Refusal;
use settings_line::Fault;
use settings_values::Settings;
use text::words::part;

// Tells what was read of the file at `path`.
pub fn tell_settings(
    path: &[u8],
    file: Filed,
    read: Result<Settings, Refusal>,
) -> Result<(), Failure> {
    let whole = file.whole;
    let file = file.octets;
    tell_name(path);
    match read {
        Ok(settings) if whole => tell_read(settings),
        // Not of a file that goes on: settings that can be read are a whole file, and a short one.
        Ok(_) => tell_too_long(file, 0),
        Err(refusal) if whole || stays(refusal.fault) => {
            tell_fault(file, refusal.line, refusal.fault)
        }
        Err(refusal) => tell_too_long(file, refusal.line),
    }
}

// A fault of a line stays one however the file goes on; that a line has no LF, or a name no line, may be because the file was cut.
fn stays(fault: Fault) -> bool {
    match fault {
        Fault::UnknownName
        | Fault::BadKey
        | Fault::BadClassmark
        | Fault::BadIdentity
        | Fault::BadJoining
        | Fault::BadInvitation
        | Fault::Repeated => true,
        _ => false,
    }
}

fn tell_read(settings: Settings) -> Result<(), Failure> {
    let classmark = settings.classmark;
    let identity = settings.identity;
    let count = settings.count;
    tell(b": the settings are read\nciphering key sequence number ");
    tell_number(settings.key);
    tell(b"\nmobile station classmark ");
    tell_hex(&classmark);
    tell(b"\nown identity ");
    tell_hex(part(&identity, 0, count));
    tell(b" (octets: ");
    tell_place(count);
    tell(b")\njoining timer T_conn req ");
    tell_milliseconds(settings.joining);
    tell(b"invitation timer T_pres ");
    tell_milliseconds(settings.invitation);
    Ok(())
}

fn tell_milliseconds(milliseconds: u32) {
    io::print_decimal(STDOUT_FILENO, milliseconds as u64);
    tell(b" ms\n");
}
