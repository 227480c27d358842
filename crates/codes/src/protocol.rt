// The protocols whose messages clause 8 draws, and what each is told by: 9.1 of GSM 04.69 and of 24.068.
ghost use Rattle.std.specs.Prelude.{◌≡◌};
ghost use Rattle.codes.specs.Protocol.{discriminator};

// Broadcast call control, GSM 04.69, and group call control, 24.068, by their discriminators.
#[derive(Clone, Copy)]
pub enum Protocol {
    Broadcast = 1,
    Group = 0,
}

// The low half of a message's first octet.
#[tactic(auto, unfolding(crate::specs::Protocol::discriminator))]
pub fn discriminator(protocol: Protocol) -> u8
    ensures { result ≡ discriminator protocol }
{
    protocol as u8
}
