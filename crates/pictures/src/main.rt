// pictures: the program behind the words that make a file of a log for other programs to show: `pcap` and `timeline`.
// Its last line is its verdict, as the other programs' is.
#![tactic(auto)]

use capture_words::write_capture;
use filing::arguments::{argument, has_arguments};
use filing::ending::{Failure, tell_verdict};
use filing::{log_room, read_file};
use saying::complain;
use timeline::tell_timeline;

fn run_pcap(rt: &HostRuntime) -> Result<(), Failure> {
    if !has_arguments(
        rt,
        2,
        b"pcap",
        b"two arguments, a log and the name of the capture file to make",
    ) {
        return Err(Failure::NotRun);
    }
    let mut first = io::buffer();
    let name = argument(rt, 2, &mut first);
    let mut room = log_room();
    let log = read_file(rt, b"pcap", name, &mut room)?.octets;
    let mut second = io::buffer();
    write_capture(rt, name, log, argument(rt, 3, &mut second))
}

fn run_timeline(rt: &HostRuntime) -> Result<(), Failure> {
    if !has_arguments(
        rt,
        2,
        b"timeline",
        b"two arguments, a log and the name of the picture to make",
    ) {
        return Err(Failure::NotRun);
    }
    let mut first = io::buffer();
    let name = argument(rt, 2, &mut first);
    let mut room = log_room();
    let log = read_file(rt, b"timeline", name, &mut room)?.octets;
    let mut second = io::buffer();
    tell_timeline(rt, log, name, argument(rt, 3, &mut second))
}

fn run(rt: &HostRuntime, word: &[u8]) -> Result<(), Failure> {
    match word {
        b"pcap" => run_pcap(rt),
        b"timeline" => run_timeline(rt),
        _ => {
            complain(b"pictures: its words are pcap and timeline\n");
            Err(Failure::NotRun)
        }
    }
}

fn main(rt: HostRuntime) {
    let mut word = io::buffer();
    tell_verdict(&rt, run(&rt, argument(&rt, 1, &mut word)));
}
