// Numbers in decimal.
ghost use Rattle.std.specs.Prelude.{◌≡◌, ◌+◌, ◌≤◌, length, IfSome};
ghost use Rattle.std.proofs.lemmas.List.Edits.{sets};
ghost use Rattle.text.specs.Decimal.{number_of, digits_from, digits_of};

// The number that a text is, without sign and without a zero in front, at most `most`; none where it is no such number.
pub fn number_of(text: &[u8], most: u64) -> Option<u64>
    ensures value { result ≡ number_of text.now most }
    ensures value_le_most { IfSome result (λ n. n ≤ most) }
{
    if text.len() == 0 {
        return None;
    }
    if text[0] == 48 {
        if text.len() == 1 {
            return Some(0);
        }
        return None;
    }
    digits_from(text, most)
}

// The number that digits spell.
fn digits_from(text: &[u8], most: u64) -> Option<u64>
    ensures value { result ≡ digits_from most 0 text.now }
    ensures value_le_most { IfSome result (λ n. n ≤ most) }
{
    let mut value: u64 = 0;
    for character in text {
        let digit = u64::from(*character);
        if digit < 48 || 57 < digit {
            return None;
        }
        let next = value.checked_mul(10)?.checked_add(digit - 48)?;
        if most < next {
            return None;
        }
        value = next;
    }
    Some(value)
}

// Puts the digits of a number, at most `places`, over those of `buffer` from `at` on, and answers the place behind them.
pub(crate) fn fill_decimal(buffer: &mut [u8], number: u64, places: usize) -> usize
    requires { places ≤ length buffer.old }
    ensures value { result ≡ length (digits_of places number) }
    ensures buffer_after { buffer.new ≡ sets buffer.old 0 (digits_of places number) }
{
    if places == 0 {
        return 0;
    }
    if number < 10 {
        buffer[0] = 48 + (number as u8);
        return 1;
    }
    let place = fill_decimal(buffer, number / 10, places - 1);
    buffer[place] = 48 + ((number % 10) as u8);
    place + 1
}
