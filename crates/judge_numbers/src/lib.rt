// The log judge over the octets that a host in C keeps of its settings, its verdict in numbers.
#![tactic(auto)]

ghost use Rattle.std.specs.Prelude.{◌≡◌, ◌+◌, ◌≤◌, length};
ghost use Rattle.octets.specs.Run.{part};
ghost use Rattle.verdict.specs.Judge.{judge_of};
ghost use Rattle.settings_octets.specs.Octets.{identity_of, own_of};
ghost use Rattle.judge_numbers.specs.Judging.{Fits, Timed, accepted_with, at_entry, judgement_of, window_told};

use codes::wide::answer;
use message::Own;
use octets::Run;
use timer::Window;
use verdict::{Invitation, Judged};

#[repr(C)]
#[derive(Clone, Copy)]
pub struct Judgement {
    pub answer: u32,
    pub entry: usize,
    pub least: u32,
    pub greatest: u32,
    pub invitation_least: u32,
    pub invitation_greatest: u32,
}

// An answer with an entry, and no timers.
fn at_entry(answer: u32, entry: usize) -> Judgement
    ensures { result ≡ at_entry answer entry }
{
    Judgement {
        answer,
        entry,
        least: 0,
        greatest: 0,
        invitation_least: 0,
        invitation_greatest: 0,
    }
}

// The invitation timers that are told; where none are, from 0 to 0.
fn window_told(invitation: Invitation) -> Window
    ensures { result ≡ window_told invitation }
{
    match invitation {
        Invitation::Untold => Window {
            least: 0,
            greatest: 0,
        },
        Invitation::Told(window) => window,
    }
}

// An accepted log, with the joining timers and the invitation timers that are told.
fn accepted_with(count: usize, joining: Window, invitation: Window) -> Judgement
    requires { Fits joining × Fits invitation }
    ensures { result ≡ accepted_with count joining invitation }
{
    Judgement {
        answer: answer::TAKEN,
        entry: count,
        least: joining.least as u32,
        greatest: joining.greatest as u32,
        invitation_least: invitation.least as u32,
        invitation_greatest: invitation.greatest as u32,
    }
}

// The verdict in C's numbers.
fn judgement_of(judged: Judged) -> Judgement
    requires { Timed judged }
    ensures { result ≡ judgement_of judged }
{
    match judged {
        Judged::Accepted(count, joining, invitation) => {
            accepted_with(count, joining, window_told(invitation))
        }
        Judged::Unreadable(entry) => at_entry(answer::UNREADABLE_LOG, entry),
        Judged::Unexplained(entry) => at_entry(answer::UNEXPLAINED, entry),
        Judged::TooLong => at_entry(answer::LONG_LOG, 0),
        Judged::OutOfRange => at_entry(answer::OUT_OF_RANGE, 0),
    }
}

// The judge, with the identity as a run of the settings' octets.
fn judged(own: Own, settings: &[u8], run: Run, log: &[u8]) -> Judged
    requires { run.start + run.count ≤ length settings.now }
    ensures { result ≡ judge_of own (part settings.now run.start run.count) log.now }
{
    let start = run.start;
    let end = start + run.count;
    judge::judge(own, &settings[start..end], log)
}

// The log judge over twenty-one octets of settings.
pub fn judge_log(settings: &[u8; 21], log: &[u8]) -> Judgement
    ensures { result ≡ judgement_of (judge_of (own_of settings.now) (identity_of settings.now) log.now) }
{
    let own = settings_octets::own_of(settings);
    let run = settings_octets::identity_run(settings);
    judgement_of(judged(own, settings, run, log))
}
