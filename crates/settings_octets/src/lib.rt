// The settings as the twenty-one octets that a host in C keeps of them: 0 key number, 1 to 3 classmark, 4 length of the own identity,
// 5 to 12 the identity, 13 to 16 the joining timer, 17 to 20 the invitation timer, each in milliseconds, low octet first.
#![tactic(auto)]

ghost use Rattle.std.specs.Prelude.{◌≡◌, ◌+◌, ◌≤◌};
ghost use Rattle.settings_octets.specs.Octets.{identity_run, length_octet, octets_of, own_of, run_of};

use message::{Classmark, Own};
use octets::{Run, little};
use settings_values::Settings;

// What the octets say beside the identity.
pub fn own_of(octets: &[u8; 21]) -> Own
    ensures { result ≡ own_of octets.now }
{
    let classmark = Classmark {
        first: octets[1],
        second: octets[2],
        third: octets[3],
    };
    Own {
        key: octets[0],
        classmark,
    }
}

// Where among the octets an identity of a length stands. A length over 8 stays over 8.
fn run_of(length: u8) -> Run
    ensures value { result ≡ run_of length }
    ensures count_bound { result.start + result.count ≤ 21 }
{
    let count = length as usize;
    if 8 < count {
        return Run { start: 0, count: 9 };
    }
    Run { start: 5, count }
}

// Where among the octets the identity stands.
pub fn identity_run(octets: &[u8; 21]) -> Run
    ensures value { result ≡ identity_run octets.now }
    ensures count_bound { result.start + result.count ≤ 21 }
{
    run_of(octets[4])
}

// The octet of a length, 255 for any that no octet holds.
fn length_octet(count: usize) -> u8
    ensures { result ≡ length_octet count }
{
    if count < 255 {
        return count as u8;
    }
    255
}

// Writes the twenty-one octets of settings.
pub fn write(settings: Settings, octets: &mut [u8; 21])
    ensures { octets.new ≡ octets_of settings }
{
    let mark = settings.classmark;
    let own = settings.identity;
    let count = length_octet(settings.count);
    let joining = little(settings.joining as u64);
    let invitation = little(settings.invitation as u64);
    *octets = [
        settings.key,
        mark[0],
        mark[1],
        mark[2],
        count,
        own[0],
        own[1],
        own[2],
        own[3],
        own[4],
        own[5],
        own[6],
        own[7],
        joining[0],
        joining[1],
        joining[2],
        joining[3],
        invitation[0],
        invitation[1],
        invitation[2],
        invitation[3],
    ];
}
