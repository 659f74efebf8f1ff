// Worked lines of `tuples`, proved and run: one relation of each arity in a universe of 4 elements.
#![tactic(auto)]

ghost use Rattle.std.specs.Prelude.{◌+◌, ◌≤◌, ◌≡◌, length, take, drop};
ghost use Rattle.std.proofs.lemmas.List.Edits.{sets};
ghost use Rattle.tuples.specs.Places.{with_tuple};

use check::expect;
use checks::same_words;
use tuples::{has, load, tuple_of};

// The tuple t of arity n added to the table of len words from off on leaves the words `after`.
fn loads(store: &mut [u64], off: usize, len: usize, n: usize, t: [u8; 4], after: &[u64])
    requires n_bound { (n ≤ 4) × (off + len ≤ length store.old) }
    requires t_value { sets store.old off (with_tuple 4 (take len (drop off store.old)) (take n t)) ≡ after.now }
{
    load(store, off, len, 4, n, t);
    expect(same_words(store, after));
}

// The pair (1,3) of document 01's case B is bit 3 of word 1; the words beside the table stay. (a) is bit a, and the empty tuple is bit 0.
fn loaded() {
    let mut pair = [9u64, 0, 0, 0, 0, 9];
    loads(&mut pair, 1, 4, 2, [1u8, 3, 0, 0], &[9u64, 0, 8, 0, 0, 9]);
    let mut empty = [0u64, 4];
    loads(&mut empty, 0, 1, 0, [3u8, 3, 3, 3], &[1u64, 4]);
    let mut single = [1u64, 4];
    loads(&mut single, 1, 1, 1, [3u8, 0, 0, 0], &[1u64, 12]);
}

// (1,2,3) is bit 3 of word 4 × 1 + 2.
fn triple() {
    let words = [0u64, 0, 0, 0, 0, 0, 8, 0, 0, 0, 0, 0, 0, 0, 0, 0];
    expect(has(&words, 4, 3, [1u8, 2, 3, 0]));
    expect(has(&words, 4, 3, [1u8, 3, 2, 0]) == false);
}

// Tuple 27 of arity 3 is (1,2,3).
fn numbered() {
    let t = tuple_of(4, 3, 27);
    expect(t[0] == 1);
    expect(t[1] == 2);
    expect(t[2] == 3);
}

// Words of which one differs are told apart.
fn apart() {
    expect(same_words(&[1u64, 4], &[1u64, 12]) == false);
}

fn main() {
    loaded();
    apart();
    triple();
    numbered();
}
