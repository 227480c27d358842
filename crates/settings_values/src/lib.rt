// The values of a settings file (document 01, "Settings file"): what they are, and how each is read from the text behind its name.
#![tactic(auto)]

ghost use Rattle.std.specs.Prelude.{◌≡◌};
ghost use Rattle.settings_values.specs.Digits.{digit_read};
ghost use Rattle.settings_values.specs.Values.{classmark_read, decimal_of, hex_of, identity_read, invitation_read, joining_read, key_read, milliseconds_read};

use timer::Timers;

// Ciphering key number, classmark, own identity (its first `count` octets, then zeros), and the joining and the invitation timer in milliseconds.
#[derive(Clone, Copy)]
pub struct Settings {
    pub key: u8,
    pub classmark: [u8; 3],
    pub identity: [u8; 8],
    pub count: usize,
    pub joining: u32,
    pub invitation: u32,
}

// An own identity: its first `count` octets, then zeros.
#[derive(Clone, Copy)]
pub struct OwnIdentity {
    pub octets: [u8; 8],
    pub count: usize,
}

// The digit that an octet is, or none.
fn digit_of(b: u8) -> Option<u8>
    ensures { result ≡ digit_read b }
{
    match b {
        b'0'..=b'9' => Some(b - b'0'),
        b'A'..=b'F' => Some(b - (b'A' - 10)),
        b'a'..=b'f' => Some(b - (b'a' - 10)),
        _ => None,
    }
}

// The octets that hex digits write two by two, the first eight of them at most, and zeros up to eight; none where one of the digits is none.
fn hex_octets(text: &[u8]) -> Option<[u8; 8]>
    ensures { result ≡ hex_of text.now }
{
    let mut octets = [0u8; 8];
    for place in 0..8 {
        if text.len() < 2 * place + 2 {
            return Some(octets);
        }
        let high = digit_of(text[2 * place])?;
        let low = digit_of(text[2 * place + 1])?;
        octets[place] = 16 * high + low;
    }
    Some(octets)
}

// The number that decimal digits write, if it is at most `greatest`.
fn decimal(text: &[u8], greatest: u32) -> Option<u32>
    ensures { result ≡ decimal_of greatest text.now }
{
    // In 64 bits a digit more cannot wrap, whatever the greatest.
    let mut number: u64 = 0;
    for byte in text {
        let digit = digit_of(*byte)?;
        if 10 <= digit {
            return None;
        }
        number = 10 * number + digit as u64;
        if (greatest as u64) < number {
            return None;
        }
    }
    Some(number as u32)
}

// `cksn=`: one digit 0 to 7.
pub fn read_key(text: &[u8]) -> Option<u8>
    ensures { result ≡ key_read text.now }
{
    let [octet] = text else {
        return None;
    };
    let number = digit_of(*octet)?;
    if 8 <= number {
        return None;
    }
    Some(number)
}

// `classmark=`: 6 hex digits.
pub fn read_classmark(text: &[u8]) -> Option<[u8; 3]>
    ensures { result ≡ classmark_read text.now }
{
    if text.len() != 6 {
        return None;
    }
    let octets = hex_octets(text)?;
    Some([octets[0], octets[1], octets[2]])
}

// `identity=`: 2 to 16 hex digits, even count.
pub fn read_identity(text: &[u8]) -> Option<OwnIdentity>
    ensures { result ≡ identity_read text.now }
{
    if text.len() < 2 {
        return None;
    }
    if 16 < text.len() {
        return None;
    }
    if text.len() % 2 != 0 {
        return None;
    }
    let octets = hex_octets(text)?;
    Some(OwnIdentity {
        octets,
        count: text.len() / 2,
    })
}

// Decimal, no leading zero, from the least to the greatest.
fn read_milliseconds(text: &[u8], least: u32, greatest: u32) -> Option<u32>
    ensures { result ≡ milliseconds_read least greatest text.now }
{
    if text.starts_with(b"0") {
        return None;
    }
    let number = decimal(text, greatest)?;
    if number < least {
        return None;
    }
    Some(number)
}

// `conn_req_ms=`: 10000 to 30000.
pub fn read_joining(text: &[u8]) -> Option<u32>
    ensures { result ≡ joining_read text.now }
{
    read_milliseconds(text, Timers::JOINING_LEAST, Timers::JOINING_GREATEST)
}

// `present_ms=`: 1000 to 600000.
pub fn read_invitation(text: &[u8]) -> Option<u32>
    ensures { result ≡ invitation_read text.now }
{
    read_milliseconds(text, Timers::INVITATION_LEAST, Timers::INVITATION_GREATEST)
}
