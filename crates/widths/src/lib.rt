// Numbers in types that are wide enough for what is made of them, each with the bound that its own type gives.
#![tactic(auto)]

ghost use Rattle.std.specs.Prelude.{◌≡◌, ◌<◌};

// A byte as a number of 32 bits.
pub fn wide8(x: u8) -> u32
    ensures { (result ≡ x) × (x < 256) }
{
    x as u32
}

// The number itself; a number of 64 bits is below 2 ^ 64.
pub fn whole(x: u64) -> u64
    ensures { (result ≡ x) × (x < 18446744073709551616) }
{
    x
}
