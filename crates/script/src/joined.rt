// The octets of a message: hexadecimal words that are joined, so that an octet's two digits may stand in two words.
ghost use Rattle.std.specs.Prelude.{◌≤◌, length};

use crate::words::{Word, text_of, word_from};
use crate::{Fault, Wrong};
use text::hex::{digits_before, read_hex};
use text::output::{Output, put};
use text::words::part;

// Puts a word of digits behind the digits before it: how many there are then.
fn gather_one(line: &[u8], word: Word, digits: &mut [u8], before: usize) -> Result<usize, Wrong> {
    let text = text_of(line, Some(word));
    if digits_before(text, true) < text.len() {
        return Err(Wrong {
            fault: Fault::Digit,
            word: Some(word),
        });
    }
    let behind = put(digits, Output { at: before }, text);
    if behind.at == before {
        return Err(Wrong {
            fault: Fault::TooLong,
            word: Some(word),
        });
    }
    Ok(behind.at)
}

// Puts all words from `from` on behind one another: how many digits there are.
fn gather(line: &[u8], from: usize, digits: &mut [u8]) -> Result<usize, Wrong>
    requires { from ≤ length line.now }
{
    let mut have = 0;
    let mut at = from;
    // Steps by what a word takes: an iterator over the words would not tell where one stands.
    while let Some(word) = word_from(line, at) {
        have = gather_one(line, word, digits, have)?;
        at = word.next;
    }
    Ok(have)
}

// Joins the words from `from` on, and puts the octets that they spell over the start of `octets`: how many there are. A message has at most 251 octets; up to 512
// are taken, so that a longer one comes to the step, which refuses it.
pub(crate) fn join(line: &[u8], from: usize, octets: &mut [u8]) -> Result<usize, Wrong>
    requires { from ≤ length line.now }
{
    let mut digits = [0u8; 1024];
    let count = gather(line, from, &mut digits)?;
    if count % 2 == 1 {
        return Err(Wrong {
            fault: Fault::HalfOctet,
            word: None,
        });
    }
    read_hex(part(&digits, 0, count), true, octets, 0).ok_or(Wrong {
        fault: Fault::TooLong,
        word: None,
    })
}
