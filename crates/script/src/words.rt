// The words of a line, parted by one or more spaces.
ghost use Rattle.std.specs.Prelude.{◌+◌, ◌≤◌, ◌<◌, length, IfSome, IfOk};

use crate::{Fault, Wrong};
use text::words::{find, part};

const SPACE: u8 = 32;

// A word: its place, how many characters it has, and the place behind it.
#[derive(Clone, Copy)]
pub struct Word {
    pub start: usize,
    pub count: usize,
    pub next: usize,
}

// How many spaces a text begins with.
fn spaces_before(text: &[u8]) -> usize
    ensures { result ≤ length text.now }
{
    text.iter()
        .position(|character| *character != SPACE)
        .unwrap_or(text.len())
}

// The first word from `from` on, where the line has one more.
pub(crate) fn word_from(line: &[u8], from: usize) -> Option<Word>
    requires { from ≤ length line.now }
    ensures { IfSome result (λ word. (from < word.next) × (word.next ≤ length line.now)) }
{
    let start = from + spaces_before(&line[from..]);
    let count = find(&line[start..], SPACE);
    if count == 0 {
        return None;
    }
    Some(Word {
        start,
        count,
        next: start + count,
    })
}

// The same of a line that is at fault where it has no more words.
pub(crate) fn wanted_word(line: &[u8], from: usize, fault: Fault) -> Result<Word, Wrong>
    requires { from ≤ length line.now }
    ensures { IfOk result (λ word. (from < word.next) × (word.next ≤ length line.now)) }
{
    match word_from(line, from) {
        Some(word) => Ok(word),
        None => Err(Wrong { fault, word: None }),
    }
}

// What a word says; nothing where there is none.
pub(crate) fn text_of(line: &[u8], word: Option<Word>) -> &[u8] {
    match word {
        Some(word) => part(line, word.start, word.count),
        None => part(line, 0, 0),
    }
}
