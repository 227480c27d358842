// The tests of a step's arguments, whatever the context: the reply buffer, the length of a received message, and what is out of range.
#![tactic(auto)]

ghost use Rattle.std.specs.Prelude.{◌≡◌};
ghost use Rattle.step_arguments.specs.Arguments.{settings_out, out_of_range, argument_refusal};

use codes::answer;
use codes::wide::event;

// Whether settings are out of range: a key number over 7, an identity of 0 or over 8 octets.
pub fn are_settings_out(key: u8, identity: usize) -> bool
    ensures { result ≡ settings_out key identity }
{
    (7 < key) | ((identity == 0) | (8 < identity))
}

// Whether something is outside its range: the event where its number is not `known`.
fn is_out_of_range(known: bool, key: u8, identity: usize, number: u32, value: u8, mode: u8) -> bool
    ensures { result ≡ out_of_range known key identity number value mode }
{
    let settings = are_settings_out(key, identity);
    let no_mode = (number == event::RECEIVED) & (1 < mode);
    let no_value = ((number == event::SET_UP)
        | ((number == event::IMMEDIATE_SET_UP) | (number == event::NOTIFIED)))
        & (6 < value);
    settings | (!known | (no_mode | no_value))
}

// Why a step's arguments are refused: 5, 6 and 4 in their order, and 0 where they are not. `octets` is the length of the message received, `room` that
// of the lent reply buffer; `known` says whether the step table has the event.
pub fn argument_refusal(
    known: bool,
    key: u8,
    identity: usize,
    number: u32,
    value: u8,
    mode: u8,
    octets: usize,
    room: usize,
) -> u8
    ensures { result ≡ argument_refusal known key identity number value mode octets room }
{
    if room < 255 {
        return answer::SHORT_BUFFER;
    }
    if (number == event::RECEIVED) & (251 < octets) {
        return answer::LONG_MESSAGE;
    }
    if is_out_of_range(known, key, identity, number, value, mode) {
        return answer::OUT_OF_RANGE;
    }
    0
}
