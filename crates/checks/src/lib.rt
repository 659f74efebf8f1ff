// A comparison of whole lists, for the checks of the test programs.
#![tactic(auto)]

ghost use Rattle.std.specs.Prelude.{◌≡◌, true};

// Whether a and b hold the same words.
pub fn same_words(a: &[u64], b: &[u64]) -> bool
    ensures { (result ≡ true → a.now ≡ b.now) × (a.now ≡ b.now → result ≡ true) }
{
    a == b
}
