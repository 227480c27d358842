// Octets that stand together: runs of a lent slice, the four of a call reference, those of a number; and a run of one lent slice copied to a place of another.
#![tactic(auto)]

ghost use Rattle.std.specs.Prelude.{◌≡◌, ◌+◌, ◌≤◌, length};
ghost use Rattle.std.proofs.lemmas.List.Edits.{sets};
ghost use Rattle.octets.specs.Little.{little};
ghost use Rattle.octets.specs.Run.{part};

// Octets of a lent slice: the place of the first, and how many.
#[derive(Clone, Copy)]
pub struct Run {
    pub start: usize,
    pub count: usize,
}

// The four octets of a call reference, 9.4.1. They are carried as they came and never taken apart.
#[derive(Clone, Copy)]
pub struct Reference {
    pub first: u8,
    pub second: u8,
    pub third: u8,
    pub fourth: u8,
}

// Copies `count` octets of `source` from `start` on over those of `buffer` from `at` on.
pub fn copy_to(buffer: &mut [u8], at: usize, source: &[u8], start: usize, count: usize)
    requires { (at + count ≤ length buffer.old) × (start + count ≤ length source.now) }
    ensures { buffer.new ≡ sets buffer.old at (part source.now start count) }
{
    for step in 0..count {
        buffer[at + step] = source[start + step];
    }
}

// The four octets of a number, the lowest first. What is beyond them is not written.
pub fn little(number: u64) -> [u8; 4]
    ensures { result ≡ little number }
{
    [
        (number % 256) as u8,
        (number / 256 % 256) as u8,
        (number / 65536 % 256) as u8,
        (number / 16777216 % 256) as u8,
    ]
}
