// The search for the first chain of a binary table's pairs: levels of elements by their distance to the last one, then the way down the
// levels by the least element of each.
#![tactic(auto)]

ghost use Rattle.std.specs.Prelude.{◌≡◌, ◌∷◌, ◌++◌, suc, ◌+◌, ◌<◌, ◌≤◌, length, get_or, drop};
ghost use Rattle.definition.specs.Tables.{bit};
ghost use Rattle.chains.specs.Levels.{least, meets, before, Near, way};
ghost use Rattle.chains.specs.Search.{Searched};

use bits::{put_bit, set_bit};
use definition::Refusal;

// Two words have a bit in common.
fn meets(v: u64, w: u64) -> bool
    ensures { result ≡ meets v w }
{
    v & w != 0
}

// Row x, or none of the elements where there is no such row.
fn row_at(rows: &[u64], x: usize) -> u64
    ensures { result ≡ get_or rows.now x 0 }
{
    rows.get(x).copied().unwrap_or(0)
}

// The elements that have a pair into a set.
fn before(rows: &[u64], set: u64) -> u64
    requires { length rows.now ≤ 64 }
    ensures { result ≡ before rows.now set }
{
    let mut w: u64 = 0;
    for (x, row) in rows.iter().enumerate() {
        w = put_bit(w, x as u64, meets(*row, set));
    }
    w
}

// The levels of b: in the kth are the elements from which at most k pairs lead to b.
fn levels(rows: &[u64], b: usize, near: &mut [u64; 64])
    requires { (length rows.now ≤ 64) × (length near.old ≡ 64) }
    ensures { Near rows.now b near.new }
{
    let mut w = set_bit(0, b as u64);
    for level in near.iter_mut() {
        *level = w;
        w |= before(rows, w);
    }
}

// The first level that a row meets, or 64.
fn first_met(row: u64, near: &[u64; 64]) -> usize
    ensures { result ≡ least 64 0 (λ k. meets row (get_or near.now k 0)) }
{
    for k in 0..64 {
        if meets(row, near[k]) {
            return k;
        }
    }
    64
}

// The least bit of a word, or 64.
fn least_bit(w: u64) -> usize
    ensures { result ≡ least 64 0 (bit w) }
{
    w.trailing_zeros() as usize
}

// Writes a and the way down from it: in each of the n levels below, the least element that the one before has a pair with.
fn walk(rows: &[u64], near: &[u64; 64], a: usize, n: usize, buffer: &mut [u8])
    requires { (a < 256) × (n ≤ 64) × (n < length buffer.old) }
    ensures { buffer.new ≡ (a ∷ way rows.now (λ k. get_or near.now k 0) n a) ++ drop (suc n) buffer.old }
{
    buffer[0] = a as u8;
    let mut x = a;
    for k in (0..n).rev() {
        x = least_bit(row_at(rows, x) & near[k]);
        buffer[n - k] = x as u8;
    }
}

// Writes the first chain from a to b, if there is one. The level that a's row meets first is the distance of the next element, and each
// element of the way is one level below the one before, so no number comes twice and no chain is shorter; each is the least of its level
// that can be, so no chain as short comes before.
pub fn find_chain(rows: &[u64], a: usize, b: usize, buffer: &mut [u8]) -> Result<usize, Refusal>
    requires { (length rows.now ≤ 64) × (a < length rows.now) × (b < length rows.now) × (65 ≤ length buffer.old) }
    ensures { Searched rows.now a b buffer.old result buffer.new }
{
    let mut near = [0u64; 64];
    levels(rows, b, &mut near);
    let d = first_met(row_at(rows, a), &near);
    if d < 64 {
        walk(rows, &near, a, d + 1, buffer);
        return Ok(d + 2);
    }
    Err(Refusal::NoChain)
}
