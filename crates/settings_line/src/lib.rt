// One line of the settings file (document 01, "Settings file"): a name, and the value behind it. Each name once.
#![tactic(auto)]

ghost use Rattle.std.specs.Prelude.{◌≡◌};
ghost use Rattle.settings_line.specs.Line.{once_read, setting_of, turn_of};

use settings_values::{
    OwnIdentity, read_classmark, read_identity, read_invitation, read_joining, read_key,
};

// Why a file is refused, for the words that a person reads: the line has no LF, no name that is known, a value that its
// name does not take, or a name that stood before; or the file has no line of a name, the first such in document 01's order.
#[derive(Clone, Copy)]
pub enum Fault {
    NoLineFeed,
    UnknownName,
    BadKey,
    BadClassmark,
    BadIdentity,
    BadJoining,
    BadInvitation,
    Repeated,
    NoKey,
    NoClassmark,
    NoIdentity,
    NoJoining,
    NoInvitation,
}

// What the lines so far set, of each name that they had.
#[derive(Clone, Copy)]
pub struct Seen {
    pub key: Option<u8>,
    pub classmark: Option<[u8; 3]>,
    pub identity: Option<OwnIdentity>,
    pub joining: Option<u32>,
    pub invitation: Option<u32>,
}

impl Seen {
    pub const NOTHING: Seen = Seen {
        key: None,
        classmark: None,
        identity: None,
        joining: None,
        invitation: None,
    };
}

// What a line sets whose value was read, or could not be: a name stands once, so no line before may have set it.
fn once<T: Copy>(before: Option<T>, read: Option<T>, fault: Fault) -> Result<Option<T>, Fault>
    ensures { result ≡ once_read before read fault }
{
    let value = read.ok_or(fault)?;
    if before.is_some() {
        return Err(Fault::Repeated);
    }
    Ok(Some(value))
}

// What is seen after a line, which is given without its LF; or why the line is refused.
pub fn with_line(seen: Seen, line: &[u8]) -> Result<Seen, Fault>
    ensures { result ≡ turn_of seen (setting_of line.now) }
{
    if let Some(text) = line.strip_prefix(b"cksn=") {
        let key = once(seen.key, read_key(text), Fault::BadKey)?;
        return Ok(Seen { key, ..seen });
    }
    if let Some(text) = line.strip_prefix(b"classmark=") {
        let classmark = once(seen.classmark, read_classmark(text), Fault::BadClassmark)?;
        return Ok(Seen { classmark, ..seen });
    }
    if let Some(text) = line.strip_prefix(b"identity=") {
        let identity = once(seen.identity, read_identity(text), Fault::BadIdentity)?;
        return Ok(Seen { identity, ..seen });
    }
    if let Some(text) = line.strip_prefix(b"conn_req_ms=") {
        let joining = once(seen.joining, read_joining(text), Fault::BadJoining)?;
        return Ok(Seen { joining, ..seen });
    }
    if let Some(text) = line.strip_prefix(b"present_ms=") {
        let invitation = once(seen.invitation, read_invitation(text), Fault::BadInvitation)?;
        return Ok(Seen { invitation, ..seen });
    }
    Err(Fault::UnknownName)
}
