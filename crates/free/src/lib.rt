// Free attributes of the words of a statement, bottom up.
#![tactic(auto)]

ghost use Rattle.std.specs.Prelude.{◌≡◌, ◌≤◌, ◌<◌, length};
ghost use Rattle.slots.specs.Slots.{digit_at};
ghost use Rattle.free.specs.Words.{is_leaf, at, below, terms, operator, free_word, Filled, Small};

use slots::Found;
use words::word_at;

// Whether a word of a kind is a term's.
#[tactic(auto, unfolding(crate::specs::Words::is_leaf))]
fn is_leaf(c: u64) -> bool
    ensures { result ≡ is_leaf c }
{
    matches!(c, 3 | 9 | 43)
}

// The attributes of the terms just before place k.
fn terms_before(words: &[u64], fr: &[u64], s: usize, k: usize) -> u64
    requires { Small fr.now }
    ensures { (result ≡ terms (at words.now) (at fr.now) s k) × (result < 4096) }
{
    if k <= s {
        return 0;
    }
    if is_leaf(word_at(words, k - 1) % 256) {
        return word_at(fr, k - 1);
    }
    0
}

// What stands at a lower place.
fn lower(fr: &[u64], k: usize, c: usize) -> u64
    requires { Small fr.now }
    ensures { (result ≡ below (at fr.now) k c) × (result < 4096) }
{
    if c < k { word_at(fr, c) } else { 0 }
}

// The free attributes of an operator w at k.
fn operator(words: &[u64], f: Found, ids: &[u64], fr: &[u64], k: usize, w: u64) -> u64
    requires small { Small fr.now }
    requires count_bound { f.count ≤ 4 }
    ensures { (result ≡ operator (at words.now) (digit_at f ids.now) (at fr.now) k w) × (result < 4096) }
{
    let c = w % 256;
    let a = (w / 256 % 65536) as usize;
    let b = (w / 16777216 % 65536) as usize;
    if c == 14 {
        return lower(fr, k, a);
    }
    if c < 19 {
        return digits::join(lower(fr, k, a), lower(fr, k, b));
    }
    if c < 21 {
        return digits::remove(lower(fr, k, b), slots::digit_at(f, ids, word_at(words, a)));
    }
    if c == 21 {
        return lower(fr, k, a);
    }
    0
}

// The free attributes of the word at k.
fn free_word(words: &[u64], f: Found, ids: &[u64], fr: &[u64], s: usize, k: usize) -> u64
    requires small { Small fr.now }
    requires count_bound { f.count ≤ 4 }
    ensures { (result ≡ free_word (at words.now) (digit_at f ids.now) (at fr.now) s k) × (result < 4096) }
{
    let w = word_at(words, k);
    let c = w % 256;
    if is_leaf(c) {
        return digits::add(terms_before(words, fr, s, k), slots::digit_at(f, ids, w));
    }
    if c < 10 {
        return 0;
    }
    if c < 14 {
        return terms_before(words, fr, s, k);
    }
    if c == 23 {
        return terms_before(words, fr, s, k);
    }
    operator(words, f, ids, fr, k, w)
}

// The free attributes of the words from s to e.
pub fn fill(words: &[u64], f: Found, ids: &[u64], fr: &mut [u64], s: usize, e: usize)
    requires s_le_e { (s ≤ e) × ((e ≤ length fr.old) × (f.count ≤ 4)) }
    requires small { Small fr.old }
    ensures filled { Filled words.now (digit_at f ids.now) fr.new s e }
    ensures small_2 { Small fr.new }
{
    for k in s..e {
        fr[k] = free_word(words, f, ids, fr, s, k);
    }
}
