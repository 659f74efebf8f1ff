// A word's bits, by shifts and masks. A bit number past the word's 64 bits is no mistake: such a bit is not set, and setting it changes nothing.
#![tactic(auto)]

ghost use Rattle.std.specs.Prelude.{◌≡◌, cond};
ghost use Rattle.definition.specs.Tables.{bit};
ghost use Rattle.bits.specs.Bits.{with_bit};

// Bit b of w.
pub fn test_bit(w: u64, b: u64) -> bool
    ensures { result ≡ bit w b }
{
    if b < 64 { (w >> b) & 1 == 1 } else { false }
}

// w with bit b set.
pub fn set_bit(w: u64, b: u64) -> u64
    ensures { result ≡ with_bit w b }
{
    if b < 64 { w | (1 << b) } else { w }
}

// w, with bit b set where `on`.
pub fn put_bit(w: u64, b: u64, on: bool) -> u64
    ensures { result ≡ cond on (with_bit w b) w }
{
    if on { set_bit(w, b) } else { w }
}
