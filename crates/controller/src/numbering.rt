// A log's number, for C.
ghost use Rattle.std.specs.Prelude.{◌≡◌};
ghost use Rattle.septets.specs.Number.{number_at};
ghost use Rattle.controller.specs.Numbering.{number_shown};

use codes::wide::answer;

#[repr(C)]
#[derive(Clone, Copy)]
pub struct NumberRead {
    pub answer: u32,
    pub value: u32,
    pub next: usize,
}

// The number at a place of a log: 0 with the number and the place behind it, or 8.
#[unsafe(no_mangle)]
pub extern "C" fn heidezirkel_read_number(octets: &[u8], at: usize) -> NumberRead
    ensures { result ≡ number_shown (number_at octets.now at) }
{
    match septets::read_number(octets, at) {
        Some((value, next)) => NumberRead {
            answer: answer::TAKEN,
            value,
            next,
        },
        None => NumberRead {
            answer: answer::UNREADABLE_LOG,
            value: 0,
            next: 0,
        },
    }
}
