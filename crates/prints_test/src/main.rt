// Two PRINTs over the facts `R a "b"`, proved and run.
#![tactic(auto)]

ghost use Rattle.std.specs.Prelude.{[], ◌∷◌};
ghost use Rattle.definition.specs.Text.{ascii};
ghost use Rattle.eval.specs.Meaning.{world};
ghost use Rattle.lines.specs.Lines.{texts};
ghost use Rattle.lines.specs.Put.{Printed};
ghost use Rattle.prints.specs.Items.{printed};

use check::{expect, same};
use prints::print;

// The PRINT at place k with the buffer `out` ends at `end`, and leaves the bytes `after`.
fn prints(nodes: &[u64], k: usize, out: &mut [u8], end: usize, after: &[u8])
    requires { Printed out.old 0 (printed (world (2 ∷ 0 ∷ []) (0 ∷ []) (0 ∷ []) 2) nodes.now (texts (ascii "R a \"b\"") (ascii "\"L\"") (1032 ∷ 2569 ∷ [])) k) end after.now }
{
    let store = [2u64, 0];
    let firsts = [0u64];
    let vars = [0u8];
    let places = [1032usize, 2569];
    let r = print(
        nodes,
        &store,
        &firsts,
        &vars,
        2,
        b"R a \"b\"",
        b"\"L\"",
        &places,
        k,
        out,
        0,
    );
    expect(r == end);
    expect(same(out, after));
}

// `PRINT ["L"] R(x,y), ENDL;`: the line `L a "b"`, and byte 10.
fn prints_rows() {
    let nodes = [
        16777516u64,
        1,
        3,
        3,
        144115468322471946,
        144115468322472222,
        32,
        37,
    ];
    // Room for four lines of ten bytes and byte 10: written without measuring.
    let mut ample = [0u8; 41];
    prints(
        &nodes,
        7,
        &mut ample,
        9,
        b"L a \"b\"\n\n\x00\x00\x00\x00\x00\x00\x00\x00\x00\x00\x00\x00\x00\x00\x00\x00\x00\x00\x00\x00\x00\x00\x00\x00\x00\x00\x00\x00\x00\x00\x00\x00",
    );
    // All nine bytes fit, measured first, and the tenth stays.
    let mut enough = [0u8; 10];
    prints(&nodes, 7, &mut enough, 9, b"L a \"b\"\n\n\x00");
    // One byte short: nothing is written, and the end is one past the buffer.
    let mut short = [0u8; 8];
    prints(&nodes, 7, &mut short, 9, &[0u8; 8]);
}

// `PRINT #(R(x,y)) + 9, ENDL, 0 / 5, ENDL, 6 / 4, ENDL, 3 / 0;`
fn prints_amounts() {
    let nodes = [
        1u64,
        3,
        3,
        144115468322471946,
        844424930132760,
        150994969,
        83887130,
        29,
        32,
        25,
        83886105,
        167774491,
        2333,
        32,
        100663321,
        67108889,
        251661851,
        3613,
        32,
        50331673,
        25,
        335549211,
        4893,
        37,
    ];
    let mut enough = [0u8; 16];
    prints(&nodes, 23, &mut enough, 15, b"10\n0/1\n3/2\nnone\x00");
    // One byte short.
    let mut short = [0u8; 14];
    prints(&nodes, 23, &mut short, 15, &[0u8; 14]);
}

fn main() {
    prints_rows();
    prints_amounts();
}
