// Small steps on numbers, each with what it comes to.
#![tactic(auto)]

pub mod limits; // limits.rt: limits by name

ghost use Rattle.std.specs.Prelude.{◌≡◌, ◌-◌, ◌*◌, ◌≤◌};
ghost use Rattle.model.specs.Sets as sets;

// v where the test holds, and 0 where not.
pub fn on(test: bool, v: u64) -> u64
    ensures { (result ≡ sets.on test v) × (result ≤ v) }
{
    if test { v } else { 0 }
}

// Fields have 32 bits: the product can't wrap.
pub fn product(a: u32, b: u32) -> u64
    ensures { result ≡ a * b }
{
    u64::from(a) * u64::from(b)
}

// How far the rate a / b is above c / d, and 0 where it isn't: "Fractions are compared by exact products".
pub fn excess(a: u32, b: u32, c: u32, d: u32) -> u64
    ensures { result ≡ a * d - c * b }
{
    product(a, d).saturating_sub(product(c, b))
}
