// The settings file, for C.
ghost use Rattle.std.specs.Prelude.{◌≡◌};
ghost use Rattle.settings.specs.Settings.{settings_of};
ghost use Rattle.settings_numbers.specs.Configuring.{kept_octets, settings_shown};

use settings_numbers::SettingsRead;

// Reads a settings file; its twenty-one octets are written where it is taken.
#[unsafe(no_mangle)]
pub extern "C" fn heidezirkel_read_settings(file: &[u8], settings: &mut [u8; 21]) -> SettingsRead
    ensures value { result ≡ settings_shown (settings_of file.now) }
    ensures settings_after { settings.new ≡ kept_octets settings.old (settings_of file.now) }
{
    settings_numbers::read_file(file, settings)
}
