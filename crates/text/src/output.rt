// Text that is put behind what a lent buffer holds already.
ghost use Rattle.std.specs.Prelude.{◌≡◌};
ghost use Rattle.text.specs.Decimal.{decimal_of};
ghost use Rattle.text.specs.Hex.{hex_of};
ghost use Rattle.text.specs.Output.{behind, put_leaves};

use crate::decimal::fill_decimal;
use crate::hex::fill_hex;
use octets::copy_to;

// How far a buffer is filled.
#[derive(Clone, Copy)]
pub struct Output {
    pub at: usize,
}

// Puts a text behind the output. Where there is no room, nothing is put and the output stays where it was.
pub fn put(buffer: &mut [u8], output: Output, text: &[u8]) -> Output
    ensures value { result ≡ behind buffer.old output text.now }
    ensures buffer_after { buffer.new ≡ put_leaves buffer.old output text.now }
{
    let at = output.at;
    if buffer.len() < at {
        return output;
    }
    if buffer.len() - at < text.len() {
        return output;
    }
    copy_to(buffer, at, text, 0, text.len());
    Output {
        at: at + text.len(),
    }
}

// Puts octets behind the output, in lower-case hexadecimal.
pub fn put_hex(buffer: &mut [u8], output: Output, octets: &[u8]) -> Output
    ensures value { result ≡ behind buffer.old output (hex_of octets.now) }
    ensures buffer_after { buffer.new ≡ put_leaves buffer.old output (hex_of octets.now) }
{
    let at = output.at;
    if buffer.len() < at {
        return output;
    }
    if (buffer.len() - at) / 2 < octets.len() {
        return output;
    }
    fill_hex(buffer, at, octets);
    Output {
        at: at + 2 * octets.len(),
    }
}

// Puts a number behind the output, in decimal.
pub fn put_decimal(buffer: &mut [u8], output: Output, number: u64) -> Output
    ensures value { result ≡ behind buffer.old output (decimal_of number) }
    ensures buffer_after { buffer.new ≡ put_leaves buffer.old output (decimal_of number) }
{
    let mut digits = [0u8; 20];
    let count = fill_decimal(&mut digits, number, 20);
    put(buffer, output, &digits[0..count])
}
