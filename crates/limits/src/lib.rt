// Whether the fields of a message are as wide and as long as clauses 8 and 9 draw, and lie within the lent octets: what a writer asks before it writes.
#![tactic(auto)]

ghost use Rattle.std.specs.Prelude.{◌≡◌};
ghost use Rattle.limits.specs.Limits.{run_fits, reject_fits, half_fits, half_count, status_fits};

use codes::protocol::Protocol;
use octets::Run;

// Whether a run of `least` to `most` octets lies within `source`.
fn run_fits(source: &[u8], run: Run, least: usize, most: usize) -> bool
    ensures { result ≡ run_fits source.now run least most }
{
    let start = run.start;
    let count = run.count;
    if count < least {
        return false;
    }
    if most < count {
        return false;
    }
    if source.len() < start {
        return false;
    }
    if source.len() - start < count {
        return false;
    }
    true
}

// Whether a mobile identity fits.
pub fn identity_fits(source: &[u8], identity: Run) -> bool
    ensures { result ≡ run_fits source.now identity 1 8 }
{
    run_fits(source, identity, 1, 8)
}

// Whether a cause fits.
pub fn cause_fits(source: &[u8], cause: Run) -> bool
    ensures { result ≡ run_fits source.now cause 1 247 }
{
    run_fits(source, cause, 1, 247)
}

// Whether the cause of a TERMINATION REJECT fits.
pub fn reject_fits(protocol: Protocol, source: &[u8], cause: Run) -> bool
    ensures { result ≡ reject_fits protocol source.now cause }
{
    match protocol {
        Protocol::Broadcast => cause_fits(source, cause),
        Protocol::Group => run_fits(source, cause, 4, 4),
    }
}

// Whether a half octet holds the value.
fn half_fits(half: Option<u8>) -> bool
    ensures { result ≡ half_fits half }
{
    half.is_none_or(|value| value < 16)
}

// How many octets an optional half octet takes.
pub fn half_count(half: Option<u8>) -> usize
    ensures { result ≡ half_count half }
{
    match half {
        None => 0,
        Some(_) => 1,
    }
}

// Whether a STATUS fits: its fields, and at most 251 octets in all.
pub fn status_fits(source: &[u8], cause: Run, state: Option<u8>, attributes: Option<u8>) -> bool
    ensures { result ≡ status_fits source.now cause state attributes }
{
    if !cause_fits(source, cause) {
        return false;
    }
    if !half_fits(state) {
        return false;
    }
    if !half_fits(attributes) {
        return false;
    }
    let count = cause.count;
    3 + count + half_count(state) + half_count(attributes) <= 251
}
