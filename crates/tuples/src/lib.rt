// Tuples of up to 4 elements by their numbers, and the words of a relation's table. The arity is a number throughout.
#![tactic(auto)]

ghost use Rattle.std.specs.Prelude.{◌≡◌, ◌+◌, ◌≤◌, ◌<◌, ◌^◌, length, take, drop};
ghost use Rattle.std.proofs.lemmas.List.Edits.{sets};
ghost use Rattle.definition.specs.Tables.{holds, table_words};
ghost use Rattle.tuples.specs.Places.{digits, number_at, word_at, bit_at, with_tuple};

use bits::{set_bit, test_bit};

// The words of a table.
pub fn table_words(u: u8, n: usize) -> usize
    requires { n ≤ 4 }
    ensures { result ≡ table_words u n }
{
    let mut words: usize = 1;
    for _ in 1..n {
        words = u as usize * words;
    }
    words
}

// The tuple with number i.
pub fn tuple_of(u: u8, n: usize, i: usize) -> [u8; 4]
    requires { (n ≤ 4) × (i < u ^ n) }
    ensures { take n result ≡ digits u n i }
{
    let mut t = [0u8; 4];
    let mut rest = i;
    for k in (0..n).rev() {
        t[k] = (rest % u as usize) as u8;
        rest /= u as usize;
    }
    t
}

// The number of a tuple, whose elements are its digits.
pub fn tuple_number(u: u8, n: usize, t: [u8; 4]) -> usize
    requires { n ≤ 4 }
    ensures { (result ≡ number_at u 0 (take n t)) × (result < 4294967296) }
{
    let mut i: usize = 0;
    for a in &t[..n] {
        i = u as usize * i + *a as usize;
    }
    i
}

// The number of a tuple's word in its table: that of the tuple without its last element.
pub fn place_word(u: u8, n: usize, t: [u8; 4]) -> usize
    requires { n ≤ 4 }
    ensures { (result ≡ word_at u 0 (take n t)) × (result < 4294967296) }
{
    if n == 0 {
        return 0;
    }
    tuple_number(u, n - 1, t)
}

// A tuple's bit in its word.
pub fn place_bit(n: usize, t: [u8; 4]) -> u64
    requires { n ≤ 4 }
    ensures { result ≡ bit_at (take n t) }
{
    if n == 0 {
        return 0;
    }
    t[n - 1] as u64
}

// Whether a table holds a tuple; words past the table's end are zero.
pub fn has(words: &[u64], u: u8, n: usize, t: [u8; 4]) -> bool
    requires { n ≤ 4 }
    ensures { result ≡ holds u words.now (take n t) }
{
    let w = place_word(u, n, t);
    let b = place_bit(n, t);
    if w < words.len() {
        test_bit(words[w], b)
    } else {
        false
    }
}

// Adds a tuple to a table; one whose word is past the table's end changes nothing.
pub fn insert(words: &mut [u64], u: u8, n: usize, t: [u8; 4])
    requires { n ≤ 4 }
    ensures { words.new ≡ with_tuple u words.old (take n t) }
{
    let w = place_word(u, n, t);
    let b = place_bit(n, t);
    if w < words.len() {
        words[w] = set_bit(words[w], b);
    }
}

// Adds a fact's tuple to the table of its relation, whose words start at off.
pub fn load(store: &mut [u64], off: usize, len: usize, u: u8, n: usize, t: [u8; 4])
    requires { (n ≤ 4) × (off + len ≤ length store.old) }
    ensures { store.new ≡ sets store.old off (with_tuple u (take len (drop off store.old)) (take n t)) }
{
    insert(&mut store[off..off + len], u, n, t);
}
