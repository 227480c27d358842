// The kinds of messages, as forms of the words that spell a message and of the answer that tells one.
use text::words::{part, word_at};

// A row of 44 characters for each message type from 31 hex on, of which 37 hex is none, and behind them two for the answers 6 and 13. All kinds have their fields in
// one record: 0 LENGTH or the answer, 1 flag, 2 transaction value, 3 key number, 4 to 7 classmark, 8 and 9 identity, 10 to 13 reference, 14 originator, 15 and 16
// cause, 17 and 18 call state, 19 and 20 attributes, 21 fault.
const ROWS: [u8; 528] = *b"0 L1 8 immediate_setup K8 CT O R...........\n\
    0 L1 8 setup K.......R.....................\n\
    0 L1 8 connect K.......R 8.................\n\
    0 L1 8 termination K............O..........\n\
    0 L1 8 termination_request K.......R.......\n\
    0 L1 8 termination_reject K............O...\n\
    ...........................................\n\
    0 L1 8 status K............O H H...........\n\
    0 L1 8 get_status K.....O..................\n\
    0 L1 8 set_parameter K.................8...\n\
    8..........................................\n\
    8 ....................8....................\n";

const FIRST: u8 = 0x31;

const LAST: u8 = 0x3a;

// The rows of the answers 6 and 13.
pub(crate) const TOO_LONG: u8 = 0x3b;

pub(crate) const UNREADABLE: u8 = 0x3c;

// Where the name stands in a row.
const NAME: usize = 7;

pub(crate) fn rows() -> [u8; 528] {
    ROWS
}

// The row of a type.
pub(crate) fn row_of(rows: &[u8; 528], kind: u8) -> &[u8] {
    let number = kind.wrapping_sub(FIRST);
    part(rows, 44 * (number as usize), 44)
}

// The name in the row of a type.
fn name_of(rows: &[u8; 528], kind: u8) -> &[u8] {
    let row = row_of(rows, kind);
    match word_at(row, NAME) {
        None => b"",
        Some(word) => part(row, NAME, word.count),
    }
}

// The type of a name.
pub(crate) fn kind_named(rows: &[u8; 528], name: &[u8]) -> Option<u8> {
    (FIRST..=LAST).find(|kind| name_of(rows, *kind) == name)
}
