// Octets in hexadecimal.
ghost use Rattle.std.specs.Prelude.{◌≡◌, ◌+◌, ◌*◌, ◌/◌, ◌%◌, ◌≤◌, ◌<◌, length};
ghost use Rattle.std.proofs.lemmas.List.Edits.{sets};
ghost use Rattle.text.specs.Hex.{
  digit_of,
  hex_of,
  is_digit,
  value_of,
  digits_before,
  octets_of,
  spelt,
  spelt_leaves,
};

// Whether a character is a digit, in lower case or, where `either` says so, in upper case.
fn is_digit(character: u8, either: bool) -> bool
    ensures { result ≡ is_digit either character }
{
    let number = (48 <= character) & (character <= 57);
    let lower = (97 <= character) & (character <= 102);
    let upper = (65 <= character) & (character <= 70);
    number | lower | (either & upper)
}

// The value of a digit of either case, and 0 of what is none.
fn value_of(character: u8) -> u8
    ensures { (result ≡ value_of character) × (result ≤ 15) }
{
    if character < 48 {
        return 0;
    }
    if character <= 57 {
        return character - 48;
    }
    if character < 65 {
        return 0;
    }
    if character <= 70 {
        return character - 55;
    }
    if character < 97 {
        return 0;
    }
    if character <= 102 {
        return character - 87;
    }
    0
}

// How many digits stand before the first character that is none.
pub fn digits_before(text: &[u8], either: bool) -> usize
    ensures value { result ≡ digits_before either text.now }
    ensures upper_bound { result ≤ length text.now }
{
    text.iter()
        .position(|character| !is_digit(*character, either))
        .unwrap_or(text.len())
}

// Puts the octets that `count` pairs of digits spell over those of `buffer` from `at` on.
fn fill_octets(text: &[u8], buffer: &mut [u8], at: usize, count: usize)
    requires { (count ≡ length text.now / 2) × (at + count ≤ length buffer.old) }
    ensures { buffer.new ≡ sets buffer.old at (octets_of text.now) }
{
    for step in 0..count {
        let upper = value_of(text[2 * step]);
        let lower = value_of(text[2 * step + 1]);
        buffer[at + step] = 16 * upper + lower;
    }
}

// Reads a text in lower case or, where `either` says so, in either case, and puts its octets over those of `buffer` from `at` on. Answers how many octets it
// spells; none where it is no hexadecimal or there is no room.
pub fn read_hex(text: &[u8], either: bool, buffer: &mut [u8], at: usize) -> Option<usize>
    ensures value { result ≡ spelt either text.now buffer.old at }
    ensures buffer_after { buffer.new ≡ spelt_leaves either text.now buffer.old at }
{
    let count = text.len() / 2;
    if text.len() % 2 == 1 {
        return None;
    }
    if digits_before(text, either) < text.len() {
        return None;
    }
    let room = buffer.len().checked_sub(at)?;
    if room < count {
        return None;
    }
    fill_octets(text, buffer, at, count);
    Some(count)
}

// The digit of a half octet.
fn digit_of(half: u8) -> u8
    requires { half < 16 }
    ensures { result ≡ digit_of half }
{
    if half < 10 {
        return 48 + half;
    }
    87 + half
}

// The two digits of an octet.
fn upper_digit(octet: u8) -> u8
    ensures { result ≡ digit_of (octet / 16) }
{
    digit_of(octet / 16)
}

fn lower_digit(octet: u8) -> u8
    ensures { result ≡ digit_of (octet % 16) }
{
    digit_of(octet % 16)
}

// Puts the digits of octets over those of `buffer` from `at` on.
pub(crate) fn fill_hex(buffer: &mut [u8], at: usize, octets: &[u8])
    requires { at + 2 * length octets.now ≤ length buffer.old }
    ensures { buffer.new ≡ sets buffer.old at (hex_of octets.now) }
{
    for step in 0..octets.len() {
        let octet = octets[step];
        buffer[at + 2 * step] = upper_digit(octet);
        buffer[at + 2 * step + 1] = lower_digit(octet);
    }
}
