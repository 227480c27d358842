// A damaged log mended, for C.
ghost use Rattle.std.specs.Prelude.{◌≡◌};
ghost use Rattle.mend_numbers.specs.Numbers.{LogMended};

use mend_numbers::Mending;

#[unsafe(no_mangle)]
pub extern "C" fn heidezirkel_mend(settings: &[u8; 21], log: &[u8], copy: &mut [u8]) -> Mending
    ensures { LogMended settings.now log.now copy.old result copy.new }
{
    mend_numbers::mend_log(settings, log, copy)
}
