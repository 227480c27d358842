// Optional information elements, and value parts that a length octet counts. Octets stay in the lent slice.
#![tactic(auto)]

ghost use Rattle.std.specs.Prelude.{◌≡◌, ◌<◌, length};
ghost use Rattle.element.specs.Elements.{within, next_element, element_from};
ghost use Rattle.element.specs.Counted.{counted_at};

use octets::Run;

// Why a length octet and the octets that it counts are not taken.
#[derive(Clone, Copy, Debug, PartialEq, Eq)]
pub enum Miscount {
    CutShort,
    WrongLength,
}

// Whether `octet` is `low` to `high`.
fn is_within(octet: u8, low: u8, high: u8) -> bool
    ensures { result ≡ within octet low high }
{
    low <= octet && octet <= high
}

// Where the element behind the one at `at` starts, unless that one runs past the end.
fn next_element(octets: &[u8], at: usize) -> Option<usize>
    requires { at < length octets.now }
    ensures { result ≡ next_element octets.now at }
{
    if 128 <= octets[at] {
        return Some(at + 1);
    }
    let count = *octets.get(at + 1)? as usize;
    if octets.len() - at - 2 < count {
        return None;
    }
    Some(at + 2 + count)
}

// The place and the identifier of the first element from `from` on whose identifier is `low` to `high`. An element that runs past the end is the last
// that is looked at.
pub fn seek(octets: &[u8], from: usize, low: u8, high: u8) -> Option<(usize, u8)>
    ensures { result ≡ element_from octets.now from low high }
{
    let mut at = from;
    while at < octets.len() {
        let identifier = octets[at];
        if is_within(identifier, low, high) {
            return Some((at, identifier));
        }
        at = next_element(octets, at)?;
    }
    None
}

// The octets behind the length octet at `at`, which is to be `low` to `high`.
pub fn counted_at(octets: &[u8], at: usize, low: u8, high: u8) -> Result<Run, Miscount>
    ensures { result ≡ counted_at octets.now at low high }
{
    let Some(&number) = octets.get(at) else {
        return Err(Miscount::CutShort);
    };
    if !is_within(number, low, high) {
        return Err(Miscount::WrongLength);
    }
    let count = number as usize;
    if octets.len() - at <= count {
        return Err(Miscount::CutShort);
    }
    Ok(Run {
        start: at + 1,
        count,
    })
}
