// The host's side: its one context, lent to be changed in place. Nothing here calls it (the library for C takes octets): it is there for hosts in Rattle, in the form that document 01 names.
#![tactic(auto)]

ghost use Rattle.std.specs.Prelude.{◌≡◌, length};
ghost use Rattle.std.proofs.lemmas.List.Edits.{sets};
ghost use Rattle.version.specs.Version.{newest};
ghost use Rattle.radio.specs.Step.{step_of, shown};

use context::Context;
use message::Own;
use radio::{Happened, Outcome};

// The step over the host's context, in place, by the newest table.
pub fn step(
    context: &mut Context,
    own: Own,
    identity: &[u8],
    happened: Happened,
    octets: &[u8],
    reply: &mut [u8],
) -> Outcome
    ensures { (context.new ≡ (shown (step_of newest own identity.now (length reply.old) context.old happened octets.now)).context)
        × (result ≡ (shown (step_of newest own identity.now (length reply.old) context.old happened octets.now)).outcome)
        × (reply.new ≡ sets reply.old 0 (step_of newest own identity.now (length reply.old) context.old happened octets.now).reply) }
{
    let stepped = radio::step(*context, own, identity, happened, octets, reply);
    *context = stepped.context;
    stepped.outcome
}
