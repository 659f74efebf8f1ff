// A set of numbers, ascending in the first words of an array.
#![tactic(auto)]

ghost use Rattle.std.specs.Prelude.{◌≡◌, ◌++◌, ◌<◌, length, take, drop};
ghost use Rattle.numbers.specs.Sets.{Ascending, entered};

use parts::insert_at;

// Enters v into the set of the first n words, and answers how many it then has.
pub fn enter(words: &mut [u32], n: usize, v: u32) -> usize
    requires { (n < length words.old) × Ascending (take n words.old) }
    ensures count { result ≡ length (entered v (take n words.old)) }
    ensures words { words.new ≡ entered v (take n words.old) ++ drop result words.old }
{
    match words[..n].binary_search(&v) {
        Ok(_) => n,
        Err(p) => {
            insert_at(words, p, n, v);
            n + 1
        }
    }
}
