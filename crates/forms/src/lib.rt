// The words of the probe's lines by a form: a text that says letter by letter what stands in a line. What the words say stands in a record of octets, in the
// letters' order:
//   1 3 4 5 8  a number of so many bits, in an octet
//   L          a number of 32 bits, one over 255 as 255: all of them are out of range, or a length of which no more matters
//   R M        the four octets of a reference; the three of a classmark
//   I          up to eight octets: their count, one over 255 as 255, and the octets where they are no more
//   CT         up to three octets, likewise; an answer has T alone
//   O          octets that stay where they were lent: their count, as above, and the place of the first
//   H          a number or none: 1 and the number, or 0 and 0
//   K          a word that was looked up before, and stands in no record
//   .          an octet that no word says
// Any other character is no word in a command, and stands for itself in an answer.
#![tactic(auto)]

ghost use Rattle.std.specs.Prelude.{◌≤◌};

use fields::octet_at;
use fields::words::{half_word, number_word, octets_word};
use saying::{say, say_hex, say_number};
use text::output::Output;
use text::words::{part, word_at};

// How many octets of the record a letter has.
fn width(letter: u8) -> usize {
    match letter {
        b'1'..=b'8' | b'L' | b'C' | b'.' => 1,
        b'O' | b'H' => 2,
        b'M' | b'T' => 3,
        b'R' => 4,
        b'I' => 9,
        _ => 0,
    }
}

// The greatest number that a letter allows.
fn greatest(letter: u8) -> u64 {
    match letter {
        b'1' => 1,
        b'3' => 7,
        b'4' => 15,
        b'5' => 31,
        b'L' => 4294967295,
        _ => 255,
    }
}

// How many octets behind their count a letter has room for.
fn most_octets(letter: u8) -> u8 {
    match letter {
        b'C' => 3,
        b'I' => 8,
        _ => 0,
    }
}

fn clipped(number: u64) -> u8 {
    if number < 255 {
        return number as u8;
    }
    255
}

// A record has room for the longest form.
fn set(record: &mut [u8; 36], at: usize, octet: u8) {
    if at < 36 {
        record[at] = octet;
    }
}

fn take_number(
    line: &[u8],
    at: usize,
    most: u64,
    record: &mut [u8; 36],
    place: usize,
) -> Option<usize> {
    let (number, next) = number_word(line, Some(at), most)?;
    set(record, place, clipped(number));
    Some(next)
}

fn take_exact(
    line: &[u8],
    at: usize,
    count: usize,
    record: &mut [u8; 36],
    place: usize,
) -> Option<usize> {
    let (spelt, next) = octets_word(line, Some(at), record, place)?;
    if spelt != count {
        return None;
    }
    Some(next)
}

// The word is read once more into the record, where that has room for its octets.
fn set_octets(line: &[u8], at: usize, most: u8, count: u8, record: &mut [u8; 36], place: usize) {
    set(record, place, count);
    if count <= most {
        octets_word(line, Some(at), record, place.wrapping_add(1));
    }
}

fn take_octets(
    line: &[u8],
    at: usize,
    most: u8,
    record: &mut [u8; 36],
    place: usize,
    octets: &mut [u8],
) -> Option<usize> {
    let (count, next) = octets_word(line, Some(at), octets, 0)?;
    set_octets(line, at, most, clipped(count as u64), record, place);
    Some(next)
}

fn take_half(line: &[u8], at: usize, record: &mut [u8; 36], place: usize) -> Option<usize> {
    let (half, next) = half_word(line, Some(at))?;
    set(record, place, half.is_some() as u8);
    set(record, place.wrapping_add(1), half.unwrap_or(0));
    Some(next)
}

fn pass_word(line: &[u8], at: usize) -> Option<usize> {
    let word = word_at(line, at)?;
    Some(word.next)
}

fn take_word(
    line: &[u8],
    at: usize,
    letter: u8,
    record: &mut [u8; 36],
    place: usize,
    octets: &mut [u8],
) -> Option<usize> {
    match letter {
        b'1'..=b'8' | b'L' => take_number(line, at, greatest(letter), record, place),
        b'R' | b'M' => take_exact(line, at, width(letter), record, place),
        b'C' | b'I' | b'O' => take_octets(line, at, most_octets(letter), record, place, octets),
        b'H' => take_half(line, at, record, place),
        b'K' => pass_word(line, at),
        _ => Some(at),
    }
}

// Takes the words of a form into a record, and answers the place behind them; none where one is not as its letter says. Octets are put over the start of the lent
// ones, so a form has one O, behind C and I.
pub fn take_words(
    line: &[u8],
    at: Option<usize>,
    form: &[u8],
    record: &mut [u8; 36],
    octets: &mut [u8],
) -> Option<usize> {
    let mut next = at?;
    let mut place: usize = 0;
    for letter in form {
        next = take_word(line, next, *letter, record, place, octets)?;
        place = place.wrapping_add(width(*letter));
    }
    Some(next)
}

// A length or a count of a record, but no more than `most`.
pub fn up_to(octet: u8, most: usize) -> usize
    ensures { result ≤ most }
{
    usize::from(octet).min(most)
}

fn say_octets(buffer: &mut [u8], output: Output, count: u8, at: u8, octets: &[u8]) -> Output {
    if count == 0 {
        return say(buffer, output, b"-");
    }
    say_hex(buffer, output, part(octets, at as usize, count as usize))
}

// A number is the last octet of its field.
fn say_field(buffer: &mut [u8], output: Output, letter: u8, field: &[u8]) -> Output {
    if (letter == b'H') & (octet_at(field, 0) == 0) {
        return say(buffer, output, b"-");
    }
    say_number(buffer, output, field.last().copied().unwrap_or(0))
}

fn say_letter(buffer: &mut [u8], output: Output, letter: u8) -> Output {
    let text = [letter];
    say(buffer, output, &text)
}

fn say_word(buffer: &mut [u8], output: Output, letter: u8, field: &[u8], octets: &[u8]) -> Output {
    match letter {
        b'1'..=b'8' | b'H' => say_field(buffer, output, letter, field),
        b'R' | b'T' => say_hex(buffer, output, field),
        b'O' => say_octets(
            buffer,
            output,
            octet_at(field, 0),
            octet_at(field, 1),
            octets,
        ),
        b'L' | b'C' | b'K' | b'.' => output,
        _ => say_letter(buffer, output, letter),
    }
}

// Says a record by a form. Octets are those of `octets`.
pub fn say_words(
    buffer: &mut [u8],
    output: Output,
    form: &[u8],
    record: &[u8],
    octets: &[u8],
) -> Output {
    let mut end = output;
    let mut place: usize = 0;
    for letter in form {
        let count = width(*letter);
        end = say_word(buffer, end, *letter, part(record, place, count), octets);
        place = place.wrapping_add(count);
    }
    end
}
