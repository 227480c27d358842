// A message that is received, by its name: `receive`, the name and the fields.
ghost use Rattle.std.specs.Prelude.{◌≤◌, length};

use crate::composing::compose;
use crate::noting::{MODE, name_at, note_fields, note_mode};
use crate::words::{Word, text_of, word_from};
use crate::{Call, Fault, Told, Unfit, Wrong, mode_named};
use codes::event;
use codes::protocol::Protocol;
use log_entry::Reference;

// What stands behind `receive`, as an event. The mode may come before the name too.
pub(crate) fn read_named(
    protocol: Protocol,
    call: Call,
    line: &[u8],
    from: usize,
    time: u64,
    octets: &mut [u8],
) -> Result<Told, Wrong>
    requires { from ≤ length line.now }
{
    let mut noted: [Option<Word>; 12] = [None; 12];
    let start = note_mode(line, from, &mut noted);
    let Some((kind, next)) = name_at(line, start) else {
        return Err(Wrong {
            fault: Fault::Named(Unfit::Message),
            word: word_from(line, start),
        });
    };
    note_fields(line, next, kind, &mut noted)?;
    let count = compose(protocol, call, kind, line, &noted, octets)?;
    let reference = Reference {
        first: 0,
        second: 0,
        third: 0,
        fourth: 0,
    };
    Ok(Told {
        time,
        event: event::RECEIVED,
        value: 0,
        reference,
        mode: mode_of(call, line, noted[MODE]),
        count,
    })
}

// What the line says; or else acknowledged in a call that the radio set up, on a link of its own, and unacknowledged in one that it was told of.
fn mode_of(call: Call, line: &[u8], word: Option<Word>) -> u8 {
    mode_named(text_of(line, word)).unwrap_or(if call.flag { 0 } else { 1 })
}
