// The typed words of a command: numbers, octet strings, references. Each answers what its word says and the place of the next word; none where that is no such word,
// or where the place is none already, so a command takes all its fields by `?` and then asks once whether the line ended with them (text::words::finished).
ghost use Rattle.std.specs.Prelude.{◌≤◌, IfSome};

use octets::Reference;
use text::decimal::number_of;
use text::hex::read_hex;
use text::words::{next_word, part};

// A number of at most `most`.
pub fn number_word(line: &[u8], at: Option<usize>, most: u64) -> Option<(u64, usize)>
    ensures { IfSome result (λ w. w.0 ≤ most) }
{
    let word = next_word(line, at)?;
    let number = number_of(part(line, word.start, word.count), most)?;
    Some((number, word.next))
}

// The place behind the word `-`, if that is the next one.
fn behind_dash(line: &[u8], at: Option<usize>) -> Option<usize> {
    let word = next_word(line, at)?;
    match part(line, word.start, word.count) {
        b"-" => Some(word.next),
        _ => None,
    }
}

// A number of at most 255, or `-` for none.
pub fn half_word(line: &[u8], at: Option<usize>) -> Option<(Option<u8>, usize)> {
    if let Some(next) = behind_dash(line, at) {
        return Some((None, next));
    }
    let (number, next) = number_word(line, at, 255)?;
    Some((Some(number as u8), next))
}

// Octets in lower-case hexadecimal, or `-` for none, put over those of `buffer` from a place on: how many there are.
pub fn octets_word(
    line: &[u8],
    at: Option<usize>,
    buffer: &mut [u8],
    place: usize,
) -> Option<(usize, usize)> {
    if let Some(next) = behind_dash(line, at) {
        return Some((0, next));
    }
    let word = next_word(line, at)?;
    let count = read_hex(part(line, word.start, word.count), false, buffer, place)?;
    Some((count, word.next))
}

// Exactly four octets.
pub fn reference_word(line: &[u8], at: Option<usize>) -> Option<(Reference, usize)> {
    let mut octets = [0u8; 4];
    let (count, next) = octets_word(line, at, &mut octets, 0)?;
    if count != 4 {
        return None;
    }
    let reference = Reference {
        first: octets[0],
        second: octets[1],
        third: octets[2],
        fourth: octets[3],
    };
    Some((reference, next))
}
