// A ratio reduced, by the greatest common divisor of its parts.
#![tactic(auto)]

ghost use Rattle.std.specs.Prelude.{◌≡◌, ◌/◌};
ghost use Rattle.definition.specs.Decimals.{gcd};

// The two parts of a ratio.
#[derive(Clone, Copy)]
pub struct Ratio {
    pub top: u64,
    pub bottom: u64,
}

// The greatest common divisor by Euclid: the second number falls at each division.
pub fn gcd(a: u64, b: u64) -> u64
    ensures { result ≡ gcd a b }
{
    let mut x = a;
    let mut y = b;
    while 0 < y {
        let rest = x % y;
        x = y;
        y = rest;
    }
    x
}

// A ratio reduced; that of 0 and 0, which no number divides down, stays.
pub fn reduced(a: u64, b: u64) -> Ratio
    ensures { (result.top ≡ a / gcd a b) × (result.bottom ≡ b / gcd a b) }
{
    let d = gcd(a, b);
    if d == 0 {
        return Ratio { top: 0, bottom: 0 };
    }
    Ratio {
        top: a / d,
        bottom: b / d,
    }
}
