// State attributes, 9.4.6: the four parameters of a call and the half octet that carries them.
ghost use Rattle.std.specs.Prelude.{◌≡◌, ◌+◌};
ghost use Rattle.codes.specs.Attributes.{parameters_of, attributes_of, parameters_number, weighs};

// The parameters, in the order of document 01: ORIG, COMM, D-ATT, U-ATT.
#[derive(Clone, Copy)]
pub struct Parameters {
    pub orig: bool,
    pub comm: bool,
    pub datt: bool,
    pub uatt: bool,
}

// The parameters that a half octet carries.
pub fn parameters_of(half: u8) -> Parameters
    ensures { result ≡ parameters_of half }
{
    Parameters {
        orig: half % 2 == 1,
        comm: half / 2 % 2 == 1,
        datt: half / 8 % 2 == 1,
        uatt: half / 4 % 2 == 1,
    }
}

// The half octet that carries the parameters.
pub fn attributes_of(parameters: Parameters) -> u8
    ensures { result ≡ attributes_of parameters }
{
    four_bits(
        parameters.datt,
        parameters.uatt,
        parameters.comm,
        parameters.orig,
    )
}

// The parameters as a log and a host have them: 8 ORIG + 4 COMM + 2 D-ATT + U-ATT. They come one by one, as a step has just left them: four at once would wait for the
// last.
pub fn parameters_number(orig: bool, comm: bool, datt: bool, uatt: bool) -> u8
    ensures { result ≡ parameters_number (record { orig = orig; comm = comm; datt = datt; uatt = uatt }) }
{
    four_bits(orig, comm, datt, uatt)
}

// Four bits as a number.
fn four_bits(eight: bool, four: bool, two: bool, one: bool) -> u8
    ensures { result ≡ weighs eight 8 + weighs four 4 + weighs two 2 + weighs one 1 }
{
    let first = bit(eight, 8);
    let second = bit(four, 4);
    let third = bit(two, 2);
    let fourth = bit(one, 1);
    first + second + third + fourth
}

// The weight of a bit that is set, and 0 of one that is not.
fn bit(set: bool, weight: u8) -> u8
    ensures { result ≡ weighs set weight }
{
    if set { weight } else { 0 }
}
