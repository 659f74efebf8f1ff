// Worked lines of `assignment`, proved and run, in the universe B7, C10, C2, C5 of document 01, or its first two elements.
#![tactic(auto)]

ghost use Rattle.std.specs.Prelude.{◌+◌, ◌≤◌, ◌≡◌, [], ◌∷◌, length, take, replicate};
ghost use Rattle.std.proofs.lemmas.List.Edits.{sets};
ghost use Rattle.definition.specs.Tables.{table, table_words};
ghost use Rattle.assignment.specs.New.{new_at};

use assignment::assign;
use check::expect;
use checks::same_words;

// The node of relation 0's atom at slots 0 and 1.
const ATOM: u64 = 144115188075855872 + 65 * 4294967296 + 64 * 16777216 + 10;

// The nodes of `x != "B7"` and of `x <= y`: x is slot 0, y slot 1.
const OTHER: u64 = 64 * 16777216 + 256 + 13;

const UP_TO: u64 = 65 * 4294967296 + 64 * 16777216 + 3 * 256 + 13;

// The node's tuples of u elements, put by the columns into relation 0 of arity n, whose len words come first in the store, leave the words
// `after`.
fn assigns(
    u: u8,
    node: u64,
    store: &mut [u64],
    columns: [u8; 4],
    n: usize,
    len: usize,
    after: &[u64],
)
    requires u_bound { (u ≤ 64) × (n ≤ 4) × (len ≡ table_words u n) × (len + len ≤ length store.old) }
    requires len_value { sets (sets store.old 0 (table u n (new_at (node ∷ []) (take len store.old) (0 ∷ []) (0 ∷ []) u 0 (take n columns) (replicate 8 0) 0))) len (replicate len 0) ≡ after.now }
{
    let nodes = [node];
    let firsts = [0u64];
    let vars = [0u8];
    assign(
        &nodes, store, &firsts, &vars, u, 0, columns, [0u8; 8], 0, n, len, len,
    );
    expect(same_words(store, after));
}

// Arities 0 and 1.
fn few() {
    // Case F1: `Held("C2");` with B7 held gives B7 and C2. The node is TRUE, the column the element 2.
    let mut held = [1u64, 0];
    assigns(4, 11, &mut held, [2u8, 0, 0, 0], 1, 1, &[5u64, 0]);
    // `R() := TRUE;`: the empty tuple.
    let mut empty = [0u64, 0];
    assigns(4, 11, &mut empty, [0u8, 0, 0, 0], 0, 1, &[1u64, 0]);
    // `R(x) := x != "B7";`: all but B7, which goes.
    let mut others = [1u64, 0];
    assigns(4, OTHER, &mut others, [64u8, 0, 0, 0], 1, 1, &[14u64, 0]);
}

fn pairs() {
    // Case H: `On(y,x) := On(x,y);` reverses (0,1), (1,3), (3,2).
    let mut on = [2u64, 8, 0, 4, 0, 0, 0, 0];
    assigns(
        4,
        ATOM,
        &mut on,
        [65u8, 64, 0, 0],
        2,
        4,
        &[0u64, 1, 8, 2, 0, 0, 0, 0],
    );
    // `R(x,x) := x != "B7";`: the last column repeats the first, and the old pairs go.
    let mut twice = [2u64, 0, 1, 0, 0, 0, 0, 0];
    assigns(
        4,
        OTHER,
        &mut twice,
        [64u8, 64, 0, 0],
        2,
        4,
        &[0u64, 2, 4, 8, 0, 0, 0, 0],
    );
    // `R(x,"C5") := x != "B7";`: of (0,1), (0,3), (2,2) the one with C5 goes.
    let mut last = [10u64, 0, 4, 0, 0, 0, 0, 0];
    assigns(
        4,
        OTHER,
        &mut last,
        [64u8, 3, 0, 0],
        2,
        4,
        &[2u64, 8, 12, 8, 0, 0, 0, 0],
    );
    // `R("C10",x) := x != "B7";`: of (0,2), (1,0), (1,2), (3,1) those of C10 go.
    let mut first = [4u64, 5, 0, 2, 0, 0, 0, 0];
    assigns(
        4,
        OTHER,
        &mut first,
        [1u8, 64, 0, 0],
        2,
        4,
        &[4u64, 14, 0, 2, 0, 0, 0, 0],
    );
}

fn triples() {
    // `R(x,x,y) := x <= y;`: only (0,0,0), (0,0,1), (1,1,1).
    let mut twice = [0u64, 3, 1, 1, 0, 0, 0, 0];
    assigns(
        2,
        UP_TO,
        &mut twice,
        [64u8, 64, 65, 0],
        3,
        4,
        &[3u64, 0, 0, 2, 0, 0, 0, 0],
    );
    // `R("C10",x,y) := x <= y;`: what begins with B7 stays.
    let mut first = [2u64, 1, 0, 1, 0, 0, 0, 0];
    assigns(
        2,
        UP_TO,
        &mut first,
        [1u8, 64, 65, 0],
        3,
        4,
        &[2u64, 1, 3, 2, 0, 0, 0, 0],
    );
    // `R(x,"C10",x) := x != "B7";`: what has B7 second stays, (1,1,1) is new.
    let mut second = [1u64, 3, 2, 1, 0, 0, 0, 0];
    assigns(
        2,
        OTHER,
        &mut second,
        [64u8, 1, 64, 0],
        3,
        4,
        &[1u64, 0, 2, 2, 0, 0, 0, 0],
    );
    // `R("B7",x,"C10") := x != "B7";`: (0,1,1) is new, (0,0,1) goes.
    let mut both = [3u64, 1, 2, 1, 0, 0, 0, 0];
    assigns(
        2,
        OTHER,
        &mut both,
        [0u8, 64, 1, 0],
        3,
        4,
        &[1u64, 3, 2, 1, 0, 0, 0, 0],
    );
}

fn main() {
    few();
    pairs();
    triples();
}
