// The step over the host's context, for C: of a broadcast call, and of a group call.
ghost use Rattle.std.specs.Prelude.{◌≡◌, length};
ghost use Rattle.context.specs.Context.{cleared};
ghost use Rattle.context_octets.specs.Octets.{octets_of};
ghost use Rattle.version.specs.Version.{newest};
ghost use Rattle.version.specs.declared.Table.TheVariants.{Group};
ghost use Rattle.step_numbers.specs.Stepping.{Comes, call_of};

use step_numbers::{Occurrence, Step};
use version::Table;

// The cleared context.
#[unsafe(no_mangle)]
pub extern "C" fn heidezirkel_clear(context: &mut [u8; 16]) -> u32
    ensures { (result ≡ 0) × (context.new ≡ octets_of cleared) }
{
    step_numbers::clear_context(context)
}

// The step.
#[unsafe(no_mangle)]
pub extern "C" fn heidezirkel_step(
    context: &mut [u8; 16],
    settings: &[u8; 21],
    event: Occurrence,
    message: &[u8],
    reply: &mut [u8],
) -> Step
    ensures { Comes (call_of newest context.old settings.now (length reply.old) event message.now)
        reply.old result context.new reply.new }
{
    step_numbers::take_step(version::NEWEST, context, settings, event, message, reply)
}

#[unsafe(no_mangle)]
pub extern "C" fn heidezirkel_group_step(
    context: &mut [u8; 16],
    settings: &[u8; 21],
    event: Occurrence,
    message: &[u8],
    reply: &mut [u8],
) -> Step
    ensures { Comes (call_of Group context.old settings.now (length reply.old) event message.now)
        reply.old result context.new reply.new }
{
    step_numbers::take_step(Table::Group, context, settings, event, message, reply)
}
