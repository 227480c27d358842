// The log judge, for C.
ghost use Rattle.std.specs.Prelude.{◌≡◌};
ghost use Rattle.verdict.specs.Judge.{judge_of};
ghost use Rattle.settings_octets.specs.Octets.{identity_of, own_of};
ghost use Rattle.judge_numbers.specs.Judging.{judgement_of};

use judge_numbers::Judgement;

#[unsafe(no_mangle)]
pub extern "C" fn heidezirkel_judge(settings: &[u8; 21], log: &[u8]) -> Judgement
    ensures { result ≡ judgement_of (judge_of (own_of settings.now) (identity_of settings.now) log.now) }
{
    judge_numbers::judge_log(settings, log)
}
