// The settings file, read into the octets that a host in C keeps of the settings; what is told of it in numbers.
#![tactic(auto)]

ghost use Rattle.std.specs.Prelude.{◌≡◌};
ghost use Rattle.settings.specs.Settings.{settings_of};
ghost use Rattle.settings_numbers.specs.Configuring.{fault_number, kept_octets, settings_shown};

use codes::wide::answer;
use settings::read_settings;
use settings_line::Fault;

#[repr(C)]
#[derive(Clone, Copy)]
pub struct SettingsRead {
    pub answer: u32,
    pub fault: u32,
    pub line: usize,
    pub joining: u32,
    pub invitation: u32,
}

// Why a line is refused, as a number.
fn fault_number(fault: Fault) -> u32
    ensures { result ≡ fault_number fault }
{
    match fault {
        Fault::NoLineFeed => 1,
        Fault::UnknownName => 2,
        Fault::BadKey => 3,
        Fault::BadClassmark => 4,
        Fault::BadIdentity => 5,
        Fault::BadJoining => 6,
        Fault::Repeated => 7,
        Fault::NoKey => 8,
        Fault::NoClassmark => 9,
        Fault::NoIdentity => 10,
        Fault::NoJoining => 11,
        Fault::BadInvitation => 12,
        Fault::NoInvitation => 13,
    }
}

// Reads a settings file; its twenty-one octets are written where it is taken.
pub fn read_file(file: &[u8], settings: &mut [u8; 21]) -> SettingsRead
    ensures value { result ≡ settings_shown (settings_of file.now) }
    ensures settings_after { settings.new ≡ kept_octets settings.old (settings_of file.now) }
{
    match read_settings(file) {
        Ok(values) => {
            settings_octets::write(values, settings);
            SettingsRead {
                answer: answer::TAKEN,
                fault: 0,
                line: 0,
                joining: values.joining,
                invitation: values.invitation,
            }
        }
        Err(refusal) => SettingsRead {
            answer: answer::SETTINGS_REFUSED,
            fault: fault_number(refusal.fault),
            line: refusal.line,
            joining: 0,
            invitation: 0,
        },
    }
}
