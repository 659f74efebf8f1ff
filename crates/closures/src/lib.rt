// The closures of a statement: each is worked out once, into its own table of the store, before the statement is evaluated.
#![tactic(auto)]

ghost use Rattle.std.specs.Prelude.{◌≡◌, ◌+◌, ◌-◌, ◌<◌, ◌≤◌, ◌%◌, length, set, replicate};
ghost use Rattle.eval.specs.Nodes.{node_at, child_at};
ghost use Rattle.closures.specs.Filling.{fill_at, fill_word, fill_words};

use closure::close;
use eval::row;
use words::word_at;

// The assignment that gives a to slot x, and 0 to the others.
fn only(x: u8, a: u8) -> [u8; 8]
    ensures { result ≡ set (replicate 8 0) (x % 8) a }
{
    let i = (x % 8) as usize;
    let mut env = [0u8; 8];
    env[i] = a;
    env
}

// The closure of the pairs that the node at place n gives slots x and y, in the u words from o on.
pub fn fill_closure(
    nodes: &[u64],
    store: &mut [u64],
    firsts: &[u64],
    vars: &[u8],
    u: u8,
    n: usize,
    o: usize,
    x: u8,
    y: u8,
)
    requires { (u < 65) × (o + u ≤ length store.old) }
    ensures { store.new ≡ fill_at firsts.now vars.now u o (node_at nodes.now n) (x % 8) (y % 8) store.old }
{
    for a in 0..u {
        let env = only(x, a);
        let w = row(nodes, &store[..o], firsts, vars, u, n, env, y);
        let i = o + a as usize;
        store[i] = w;
    }
    let e = o + u as usize;
    close(&mut store[o..e]);
}

// The place of the child c of place k: past the end, where no node stands, if it is not lower.
fn child_place(nodes: &[u64], k: usize, c: u16) -> usize
    ensures { node_at nodes.now result ≡ child_at nodes.now k c }
{
    let m = c as usize;
    if m < k { m } else { nodes.len() }
}

// The closure of the word at place k, if it is one and its table lies in the store.
fn fill_word(nodes: &[u64], store: &mut [u64], firsts: &[u64], vars: &[u8], u: u8, k: usize)
    requires { u < 65 }
    ensures { store.new ≡ fill_word firsts.now vars.now u nodes.now k store.old }
{
    let w = word_at(nodes, k);
    if w % 256 != 21 {
        return;
    }
    let o = word_at(firsts, 16 + (w / 1099511627776 % 256) as usize) as usize;
    let len = store.len();
    if o > len {
        return;
    }
    if u as usize > len - o {
        return;
    }
    let n = child_place(nodes, k, (w / 256 % 65536) as u16);
    fill_closure(
        nodes,
        store,
        firsts,
        vars,
        u,
        n,
        o,
        (w / 16777216 % 256) as u8,
        (w / 4294967296 % 256) as u8,
    );
}

// The closures of the words from lo to hi, in ascending order: what a closure encloses stands lower.
pub fn fill_closures(
    nodes: &[u64],
    store: &mut [u64],
    firsts: &[u64],
    vars: &[u8],
    u: u8,
    lo: usize,
    hi: usize,
)
    requires { u < 65 }
    ensures { store.new ≡ fill_words firsts.now vars.now u nodes.now (hi - lo) lo store.old }
{
    for k in lo..hi {
        fill_word(nodes, store, firsts, vars, u, k);
    }
}
