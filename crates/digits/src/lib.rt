// Lists of up to four different digits from 1 to 4 as numbers: the first digit lowest, in base 8.
#![tactic(auto)]

ghost use Rattle.std.specs.Prelude.{◌≡◌, ◌+◌, ◌*◌, ◌≤◌, ◌<◌};
ghost use Rattle.digits.specs.Packed.{has, put, plus, joined, before, without, count, none_or_in, inside};

// Whether d is one of the digits.
#[tactic(auto, unfolding(crate::specs::Packed::has))]
pub fn has(a: u64, d: u64) -> bool
    ensures { result ≡ has a d }
{
    a % 8 == d || a / 8 % 8 == d || a / 64 % 8 == d || a / 512 % 8 == d
}

// The digit d at the first free place.
fn put(a: u64, d: u64) -> u64
    requires { (a < 4096) × (d < 8) }
    ensures { (result ≡ put a d) × (result < 4096) }
{
    if a % 8 == 0 {
        return a + d;
    }
    if a / 8 % 8 == 0 {
        return a + d * 8;
    }
    if a / 64 % 8 == 0 {
        return a + d * 64;
    }
    if a / 512 % 8 == 0 {
        return a + d * 512;
    }
    a
}

// One digit more; 0 is none.
#[tactic(auto, unfolding(crate::specs::Packed::plus))]
pub fn add(a: u64, d: u64) -> u64
    requires { (a < 4096) × (d < 8) }
    ensures { (result ≡ plus a d) × (result < 4096) }
{
    if d == 0 || has(a, d) { a } else { put(a, d) }
}

// The digits of a, then those of b.
pub fn join(a: u64, b: u64) -> u64
    requires { (a < 4096) × (b < 4096) }
    ensures { (result ≡ joined a b) × (result < 4096) }
{
    let x = add(a, b % 8);
    let y = add(x, b / 8 % 8);
    let z = add(y, b / 64 % 8);
    add(z, b / 512 % 8)
}

// The digit d before others, unless it is x.
fn digit_before(x: u64, d: u64, rest: u64) -> u64
    requires { (d < 8) × (rest < 4096) }
    ensures { (result ≡ before x d rest) × (result ≤ d + 8 * rest) }
{
    if d == x { rest } else { d + 8 * rest }
}

// The digits of a but x.
pub fn remove(a: u64, x: u64) -> u64
    requires { a < 4096 }
    ensures { (result ≡ without a x) × (result < 4096) }
{
    let p = digit_before(x, a / 512 % 8, 0);
    let q = digit_before(x, a / 64 % 8, p);
    let r = digit_before(x, a / 8 % 8, q);
    digit_before(x, a % 8, r)
}

// How many digits.
#[tactic(auto, unfolding(crate::specs::Packed::count))]
pub fn count(a: u64) -> u64
    ensures { result ≡ count a }
{
    match a {
        0 => 0,
        1..=7 => 1,
        8..=63 => 2,
        64..=511 => 3,
        _ => 4,
    }
}

// No digit, or one of b's.
#[tactic(auto, unfolding(crate::specs::Packed::none_or_in))]
fn none_or_in(d: u64, b: u64) -> bool
    ensures { result ≡ none_or_in d b }
{
    d == 0 || has(b, d)
}

// Whether each digit of a is one of b's.
#[tactic(auto, unfolding(crate::specs::Packed::inside))]
pub fn inside(a: u64, b: u64) -> bool
    ensures { result ≡ inside a b }
{
    none_or_in(a % 8, b)
        && none_or_in(a / 8 % 8, b)
        && none_or_in(a / 64 % 8, b)
        && none_or_in(a / 512 % 8, b)
}
