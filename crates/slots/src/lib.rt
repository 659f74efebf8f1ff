// The attribute names of a statement, and its closures.
#![tactic(auto)]

ghost use Rattle.std.specs.Prelude.{◌≡◌, ℕ, ◌≤◌, List, [], take};
ghost use Rattle.slots.specs.Slots.{takes, of_loop, add_name, add_word, names_of, Holds, place_from, digit_at, one_closure, closure_count};

use words::word_at;

// Up to four names in order of first occurrence; a count of 5 stands for more.
#[derive(Clone, Copy)]
pub struct Found {
    pub names: [u64; 4],
    pub count: usize,
}

// Whether a word of a kind stands where an attribute may.
#[tactic(auto, unfolding(crate::specs::Slots::takes))]
fn takes(kind: u64) -> bool
    ensures { result ≡ takes kind }
{
    matches!(kind, 2 | 3)
}

// Whether a loop variable is known.
#[tactic(auto, unfolding(crate::specs::Slots::of_loop))]
fn of_loop(k: u64) -> bool
    ensures { result ≡ of_loop k }
{
    matches!(k, 2 | 3)
}

// One more than the place of x among the first n names, 0 if it is not there.
fn place(names: [u64; 4], n: usize, x: u64) -> u64
    requires { n ≤ 4 }
    ensures { (result ≡ place_from x (take n names) 0) × (result ≤ n) }
{
    for i in 0..n {
        if names[i] == x {
            return i as u64 + 1;
        }
    }
    0
}

// One name more.
fn add_name(f: Found, x: u64) -> Found
    ensures { (xs : List ℕ) → Holds xs f → Holds (add_name xs x) result }
{
    let names = f.names;
    let n = f.count;
    if 4 < n {
        return f;
    }
    if 0 < place(names, n, x) {
        return f;
    }
    if n == 4 {
        return Found {
            names: names,
            count: 5,
        };
    }
    let mut more = names;
    more[n] = x;
    Found {
        names: more,
        count: n + 1,
    }
}

// The attribute at a word more.
fn add_word(f: Found, ids: &[u64], known: &[u64], w: u64) -> Found
    ensures { (xs : List ℕ) → Holds xs f → Holds (add_word ids.now known.now xs w) result }
{
    if !takes(w % 256) {
        return f;
    }
    let j = word_at(ids, (w / 256 % 65536) as usize);
    if of_loop(word_at(known, j as usize)) {
        return f;
    }
    add_name(f, j)
}

// The attributes of a statement's words.
pub fn collect(part: &[u64], ids: &[u64], known: &[u64]) -> Found
    ensures { Holds (names_of ids.now known.now [] part.now) result }
{
    let mut f = Found {
        names: [0u64; 4],
        count: 0,
    };
    for w in part {
        f = add_word(f, ids, known, *w);
    }
    f
}

// The slot, and 1, of the name at a word; 0 if the word has no attribute.
pub fn digit_at(f: Found, ids: &[u64], w: u64) -> u64
    requires { f.count ≤ 4 }
    ensures { (result ≡ digit_at f ids.now w) × (result ≤ 4) }
{
    if !takes(w % 256) {
        return 0;
    }
    let names = f.names;
    let n = f.count;
    place(names, n, word_at(ids, (w / 256 % 65536) as usize))
}

// Whether a word is a closure's, as a number.
pub fn one_closure(w: u64) -> usize
    ensures { (result ≡ one_closure w) × (result ≤ 1) }
{
    if w % 256 == 21 { 1 } else { 0 }
}

// How many closures a statement's words have.
pub fn closures(part: &[u64]) -> usize
    ensures { result ≡ closure_count part.now }
{
    part.iter().filter(|w| **w % 256 == 21).count()
}
