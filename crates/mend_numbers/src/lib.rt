// A damaged log mended, over the octets that a host in C keeps of its settings; what was done in numbers.
#![tactic(auto)]

ghost use Rattle.std.specs.Prelude.{◌≡◌, ◌+◌, ◌≤◌, length};
ghost use Rattle.octets.specs.Run.{part};
ghost use Rattle.mend.specs.Mending.{Mends, ending_number};
ghost use Rattle.mend_numbers.specs.Numbers.{LogMended, mending_of, refused_with};

use codes::wide::answer;
use mend::{Ending, Mended};
use message::Own;
use octets::Run;

#[repr(C)]
#[derive(Clone, Copy)]
pub struct Mending {
    pub answer: u32,
    pub kept: usize,
    pub dropped: usize,
    pub ending: u32,
    pub length: usize,
}

// An answer with which nothing was written.
fn refused_with(answer: u32) -> Mending
    ensures { result ≡ refused_with answer }
{
    Mending {
        answer,
        kept: 0,
        dropped: 0,
        ending: 0,
        length: 0,
    }
}

// The number of the answer that ended the run.
fn ending_number(ending: Ending) -> u32
    ensures { result ≡ ending_number ending }
{
    match ending {
        Ending::Whole => answer::TAKEN,
        Ending::Unreadable => answer::UNREADABLE_LOG,
        Ending::Unexplained => answer::UNEXPLAINED,
    }
}

// What was mended, in C's numbers.
fn mending_of(mended: Mended) -> Mending
    ensures { result ≡ mending_of mended }
{
    match mended {
        Mended::TooLong => refused_with(answer::LONG_LOG),
        Mended::OutOfRange => refused_with(answer::OUT_OF_RANGE),
        Mended::NoRoom => refused_with(answer::SHORT_BUFFER),
        Mended::Done(report) => {
            let ending = report.ending;
            Mending {
                answer: answer::TAKEN,
                kept: report.kept,
                dropped: report.dropped,
                ending: ending_number(ending),
                length: report.length,
            }
        }
    }
}

// A log mended, with the identity as a run of the settings' octets.
fn mended(own: Own, settings: &[u8], run: Run, log: &[u8], copy: &mut [u8]) -> Mended
    requires { run.start + run.count ≤ length settings.now }
    ensures { Mends own (part settings.now run.start run.count) log.now copy.old copy.new result }
{
    let start = run.start;
    let end = start + run.count;
    mend::mend(own, &settings[start..end], log, copy)
}

// A log mended under twenty-one octets of settings.
pub fn mend_log(settings: &[u8; 21], log: &[u8], copy: &mut [u8]) -> Mending
    ensures { LogMended settings.now log.now copy.old result copy.new }
{
    let own = settings_octets::own_of(settings);
    let run = settings_octets::identity_run(settings);
    let result = mended(own, settings, run, log, copy);
    mending_of(result)
}
