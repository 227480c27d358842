// probe: the program behind the word `probe`, by which other programs ask: commands on standard input, a line each, answered by a line each.
// Its last line is its verdict, as the other programs' is.
#![tactic(auto)]

mod answer;
mod input;

use filing::arguments::argument_count;
use filing::ending::{Failure, has_reader_gone, tell_verdict};
use input::{Stop, line_room, octets_room, stream};
use saying::{complain, flush};
use std::process::ExitCode;

fn run_probe(rt: &HostRuntime) -> Result<(), Failure> {
    if argument_count(rt) != 2 {
        complain(b"heidezirkel probe: takes no arguments; commands come on standard input\n");
        return Err(Failure::NotRun);
    }
    let mut lines = line_room();
    let mut octets = octets_room();
    let mut buffer = io::large_buffer();
    let end = stream(rt, &mut lines, &mut octets, &mut buffer);
    let output = end.output;
    flush(&buffer, output);
    match end.stop {
        Some(Stop::Ended) => Ok(()),
        Some(Stop::Unheard) => Err(Failure::NotRun),
        Some(Stop::Unreadable) | None => {
            complain(b"heidezirkel probe: standard input can't be read\n");
            Err(Failure::NotRun)
        }
    }
}

// Without a reader there is no verdict: the status is that of a program that a broken pipe ends.
fn main(rt: HostRuntime) -> ExitCode {
    let ended = run_probe(&rt);
    if has_reader_gone() {
        return ExitCode::from(141);
    }
    tell_verdict(&rt, ended);
    ExitCode::SUCCESS
}
