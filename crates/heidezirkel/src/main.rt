// heidezirkel: the program that people run over the proved libraries. Its first argument is a word; bin/heidezirkel has the words `record`, `ignored`, `pcap`, `timeline` and `probe` done
// by programs of their own (recordings, pictures, probe), so that none waits until what only another needs is proved. Help it prints itself, so that nobody waits for it.
// The program's last line is its verdict (filing::ending), which bin/heidezirkel turns into the exit status. What concerns misuse goes to standard error.
#![tactic(auto)]

mod arguments;

use arguments::join;
use filing::arguments::{argument, argument_count};
use filing::ending::{Failure, tell_verdict};
use judge_words::run_judge;
use log_words::show::run_show;
use mend_words::run_mend;
use message_words::tell_apart;
use near_words::complain_unknown;
use saying::complain;
use settings_words::argument::run_settings;
use text::hex::read_hex;
use text::words::part;

// Part of its caller: its buffers share the room of those of the other words then, and do not stand below them.
#[inline(always)]
fn run_message(rt: &HostRuntime) -> Result<(), Failure> {
    if argument_count(rt) < 3 {
        complain(b"heidezirkel message: the message is missing: give its octets in hexadecimal\n");
        return Err(Failure::NotRun);
    }
    let mut digits = io::large_buffer();
    let joined = join(rt, &mut digits)?;
    let mut octets = io::large_buffer();
    // The arguments are digits, two an octet, and there is room for them all.
    let total = read_hex(joined, true, &mut octets, 0).unwrap_or(0);
    tell_apart(part(&octets, 0, total))
}

fn run(rt: &HostRuntime, word: &[u8]) -> Result<(), Failure> {
    match word {
        b"message" => run_message(rt),
        b"judge" => run_judge(rt),
        b"mend" => run_mend(rt),
        b"show" => run_show(rt),
        b"settings" => run_settings(rt),
        _ => {
            complain_unknown(word);
            Err(Failure::NotRun)
        }
    }
}

fn main(rt: HostRuntime) {
    let mut word = io::buffer();
    tell_verdict(&rt, run(&rt, argument(&rt, 1, &mut word)));
}
