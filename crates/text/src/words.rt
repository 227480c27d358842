// Lines and words.
ghost use Rattle.std.specs.Prelude.{◌≡◌, ◌+◌, ◌≤◌, length};
ghost use Rattle.text.specs.Words.{place_of, same_text, part_of, word_from, next_from, finished_at};

// A word: its place, how many characters it has, and the place of the word behind it.
#[derive(Clone, Copy)]
pub struct Word {
    pub start: usize,
    pub count: usize,
    pub next: usize,
}

// Where the first `byte` stands in a text; its length where there is none.
pub fn find(text: &[u8], byte: u8) -> usize
    ensures value { result ≡ place_of byte text.now }
    ensures upper_bound { result ≤ length text.now }
{
    text.iter()
        .position(|character| *character == byte)
        .unwrap_or(text.len())
}

// Whether two texts are the same.
pub fn same(text: &[u8], other: &[u8]) -> bool
    ensures { result ≡ same_text text.now other.now }
{
    text == other
}

// A part of a text, and nothing where it runs past the end.
pub fn part(text: &[u8], start: usize, count: usize) -> &[u8]
    ensures { result.now ≡ part_of text.now start count }
{
    if text.len() < start {
        return &text[0..0];
    }
    if text.len() - start < count {
        return &text[0..0];
    }
    &text[start..start + count]
}

// The next word of a line, of which none may be left to ask for: behind a word that is none there is none either.
pub fn next_word(line: &[u8], at: Option<usize>) -> Option<Word>
    ensures { result ≡ next_from line.now at }
{
    match at {
        None => None,
        Some(at) => word_at(line, at),
    }
}

// The word of a line that stands at a place; the first stands at 0. Words are parted by one space. There is none past the line's end, and none where it would be
// empty.
pub fn word_at(line: &[u8], at: usize) -> Option<Word>
    ensures { result ≡ word_from line.now at }
{
    if line.len() < at {
        return None;
    }
    let count = find(&line[at..], 32);
    if count == 0 {
        return None;
    }
    Some(Word {
        start: at,
        count,
        next: at + count + 1,
    })
}

// Whether every word was there and the last, behind which stands the place `at` of a next one, ended with the line.
pub fn finished(line: &[u8], at: Option<usize>) -> bool
    ensures { result ≡ finished_at line.now at }
{
    match at {
        None => false,
        Some(at) => line.len() < at,
    }
}
