// The word `show`.
use crate::tell_log;
use filing::arguments::has_arguments;
use filing::ending::Failure;
use filing::{log_room, read_argument};

pub fn run_show(rt: &HostRuntime) -> Result<(), Failure> {
    if !has_arguments(rt, 1, b"show", b"one argument, a log") {
        return Err(Failure::NotRun);
    }
    let mut log = log_room();
    let filed = read_argument(rt, b"show", 2, &mut log)?;
    tell_log(filed.octets)
}
