// The settings file (document 01, "Settings file"): five lines, any order, each once. A file that is not fit is refused
// with the number of its first bad line, and why: no line is skipped, and no default stands in.
#![tactic(auto)]

ghost use Rattle.std.specs.Prelude.{◌≡◌, ◌+◌, ◌≤◌, length, drop};
ghost use Rattle.settings.specs.Lines.{first_feed};
ghost use Rattle.settings.specs.Settings.{outcome_at, settings_of, whole_of};

use settings_line::{Fault, Seen, with_line};
use settings_values::{OwnIdentity, Settings};

// The number of the line at which a file is refused, and why.
#[derive(Clone, Copy)]
pub struct Refusal {
    pub line: usize,
    pub fault: Fault,
}

// The settings that the lines set, or the first name that no line had.
fn whole(seen: Seen) -> Result<Settings, Fault>
    ensures { result ≡ whole_of seen }
{
    let key = seen.key.ok_or(Fault::NoKey)?;
    let classmark = seen.classmark.ok_or(Fault::NoClassmark)?;
    let OwnIdentity { octets, count } = seen.identity.ok_or(Fault::NoIdentity)?;
    let joining = seen.joining.ok_or(Fault::NoJoining)?;
    let invitation = seen.invitation.ok_or(Fault::NoInvitation)?;
    Ok(Settings {
        key,
        classmark,
        identity: octets,
        count,
        joining,
        invitation,
    })
}

// The place of the first LF from a place on, or the file's end where there is none.
fn line_end(file: &[u8], at: usize) -> usize
    requires { at ≤ length file.now }
    ensures { result ≡ at + first_feed (drop at file.now) }
{
    match memchr::memchr(b'\n', &file[at..]) {
        Some(place) => at + place,
        None => file.len(),
    }
}

// What comes of the line with this number; or the file is refused there.
fn at_line<T: Copy>(line: usize, outcome: Result<T, Fault>) -> Result<T, Refusal>
    ensures { result ≡ outcome_at line outcome }
{
    outcome.map_err(|fault| Refusal { line, fault })
}

// The settings that the file holds, or the first line that is refused. A name that is missing is told with the count of lines plus 1.
pub fn read_settings(file: &[u8]) -> Result<Settings, Refusal>
    ensures { result ≡ settings_of file.now }
{
    let mut at = 0;
    let mut line = 1;
    let mut seen = Seen::NOTHING;
    while at < file.len() {
        let end = line_end(file, at);
        if file.len() <= end {
            return Err(Refusal {
                line,
                fault: Fault::NoLineFeed,
            });
        }
        seen = at_line(line, with_line(seen, &file[at..end]))?;
        at = end + 1;
        line += 1;
    }
    at_line(line, whole(seen))
}
