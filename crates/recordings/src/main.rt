// recordings: the program behind the words `record`, which makes a log from a script of events, and `ignored`, which lists the messages of a log that the radio ignored, as `record` does too.
// Its last line is its verdict, as the other programs' is.
#![tactic(auto)]

use filing::arguments::{argument, has_arguments};
use filing::ending::{Failure, tell_verdict};
use ignored_words::run_ignored;
use saying::complain;
use settings_values::Settings;
use settings_words::argument::settings_argument;

fn run_record(rt: &HostRuntime) -> Result<(), Failure> {
    if !has_arguments(
        rt,
        3,
        b"record",
        b"three arguments, a settings file, a script and the name of the log to make",
    ) {
        return Err(Failure::NotRun);
    }
    let settings = settings_argument(rt, b"record")?;
    record_log(rt, settings)
}

// The script and the log that `record` makes of it.
fn record_log(rt: &HostRuntime, settings: Settings) -> Result<(), Failure> {
    let mut script = io::buffer();
    let mut log = io::buffer();
    record_words::run(
        rt,
        settings,
        argument(rt, 3, &mut script),
        argument(rt, 4, &mut log),
    )
}

fn run(rt: &HostRuntime, word: &[u8]) -> Result<(), Failure> {
    match word {
        b"record" => run_record(rt),
        b"ignored" => run_ignored(rt),
        _ => {
            complain(b"recordings: its words are record and ignored\n");
            Err(Failure::NotRun)
        }
    }
}

fn main(rt: HostRuntime) {
    let mut word = io::buffer();
    tell_verdict(&rt, run(&rt, argument(&rt, 1, &mut word)));
}
