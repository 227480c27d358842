// The arguments of a word: hexadecimal words that are joined into one text.
use filing::arguments::argument_count;
use filing::ending::Failure;
use saying::{complain, complain_number};
use std::env::Env;
use text::hex::digits_before;
use text::output::{Output, put};
use text::words::part;

// An argument by its number, counted from 1 behind the word.
fn complain_of(place: usize, why: &[u8]) {
    complain(b"heidezirkel message: argument ");
    complain_number(place.wrapping_sub(1));
    complain(why);
}

// The first character that is no digit, counted from 1.
fn complain_of_digit(place: usize, good: usize) {
    complain_of(place, b", character ");
    complain_number(good.wrapping_add(1));
    complain(b" is no hexadecimal digit\n");
}

// Puts the argument at `place` behind the digits.
fn join_one(
    rt: &HostRuntime,
    digits: &mut [u8],
    output: Output,
    place: usize,
) -> Result<Output, Failure> {
    let mut argument = io::large_buffer();
    let Ok(count) = rt.arg(place, &mut argument) else {
        complain_of(place, b" has more than 65536 characters\n");
        return Err(Failure::NotRun);
    };
    let good = digits_before(part(&argument, 0, count), true);
    if good < count {
        complain_of_digit(place, good);
        return Err(Failure::NotRun);
    }
    let behind = put(digits, output, part(&argument, 0, count));
    if behind.at.wrapping_sub(output.at) < count {
        complain_of(place, b" makes it more than 65536 digits\n");
        return Err(Failure::NotRun);
    }
    Ok(behind)
}

// Joins the arguments from the second on.
fn join_all(rt: &HostRuntime, digits: &mut [u8]) -> Result<usize, Failure> {
    let mut joined = Output { at: 0 };
    for place in 2..argument_count(rt) {
        joined = join_one(rt, digits, joined, place)?;
    }
    Ok(joined.at)
}

// The digits that the arguments have together, in a lent buffer.
pub(crate) fn join<'a>(rt: &HostRuntime, digits: &'a mut [u8]) -> Result<&'a [u8], Failure> {
    let count = join_all(rt, digits)?;
    if count % 2 == 1 {
        complain(b"heidezirkel message: an odd number of digits: the last octet is half there\n");
        return Err(Failure::NotRun);
    }
    Ok(part(digits, 0, count))
}
