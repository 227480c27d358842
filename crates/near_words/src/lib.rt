// A word that there is none of, and which words are near it: begun by it, or one letter changed, added or left out, or two neighbours swapped.
#![tactic(auto)]

use saying::complain;
use saying::shown::complain_name;

pub fn complain_unknown(word: &[u8]) {
    complain(b"heidezirkel: there is no word ");
    complain_name(word);
    complain(b"\n");
    complain_near(word);
    complain(b"heidezirkel --help lists the words\n");
}

// How many bytes two texts share at their start.
fn shared_start(text: &[u8], other: &[u8]) -> usize {
    let pairs = text.iter().zip(other.iter());
    pairs.take_while(|(byte, across)| byte == across).count()
}

// How many bytes two texts share at their end.
fn shared_end(text: &[u8], other: &[u8]) -> usize {
    let pairs = text.iter().rev().zip(other.iter().rev());
    pairs.take_while(|(byte, across)| byte == across).count()
}

fn is_near(word: &[u8], known: &[u8]) -> bool {
    let start = shared_start(word, known);
    if start == word.len() {
        return true;
    }
    let reach = start.wrapping_add(shared_end(word, known)).wrapping_add(2);
    (word.len() <= reach) & (known.len() <= reach)
}

fn complain_if_near(word: &[u8], known: &[u8]) {
    if is_near(word, known) {
        complain(b"did you mean ");
        complain(known);
        complain(b"?\n");
    }
}

fn complain_near(word: &[u8]) {
    complain_if_near(word, b"judge");
    complain_if_near(word, b"ignored");
    complain_if_near(word, b"mend");
    complain_if_near(word, b"show");
    complain_if_near(word, b"settings");
    complain_if_near(word, b"message");
    complain_if_near(word, b"record");
    complain_if_near(word, b"pcap");
    complain_if_near(word, b"timeline");
    complain_if_near(word, b"probe");
    complain_if_near(word, b"--help");
    complain_if_near(word, b"--version");
}
