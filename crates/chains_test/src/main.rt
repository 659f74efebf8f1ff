// Prints the chains found in worked tables: a line for each, with the count and then the bytes of the buffer that are not as they were.
#![tactic(auto)]

ghost use Rattle.std.specs.Prelude.{◌+◌, ◌≤◌, length};

use bits::set_bit;
use chains::find_chain;
use definition::Refusal;
use lines::{put, put_decimal, put_text};
use listing::put_bytes;
use parts::part;
use std::io;

// Ends the line at place n and writes it.
fn write_line(rt: &impl Print, line: &mut [u8], n: usize) -> io::Result<()> {
    let end = put(line, n, 10, true);
    rt.write_all(part(line, 0, end))
}

// Puts the count, if there is a chain.
fn put_answer(line: &mut [u8], c: Result<usize, Refusal>) -> usize
    ensures { result ≤ length line.new + 1 }
{
    match c {
        Ok(count) => put_decimal(line, 0, count as u64, true),
        Err(_) => put_text(line, 0, b"none", true),
    }
}

fn show_chain(rt: &impl Print, rows: &[u64], a: usize, b: usize) -> io::Result<()> {
    let n = rows.len();
    if 64 < n {
        return Ok(());
    }
    if n <= a {
        return Ok(());
    }
    if n <= b {
        return Ok(());
    }
    let mut buffer = [255u8; 66];
    let mut line = [0u8; 256];
    let c = find_chain(rows, a, b, &mut buffer);
    let p = put_answer(&mut line, c);
    let n = put_bytes(&mut line, p, &buffer);
    write_line(rt, &mut line, n)
}

// Fewest numbers: a pair beats the way by a smaller number, and a smaller number that leads a longer way, or nowhere, is passed over.
fn fewest(rt: &impl Print) -> io::Result<()> {
    let direct = [8u64, 9, 0, 0];
    show_chain(rt, &direct, 1, 3)?;
    let longer = [10u64, 4, 16, 16, 0];
    show_chain(rt, &longer, 0, 4)?;
    let dead_end = [6u64, 0, 8, 0];
    show_chain(rt, &dead_end, 0, 3)
}

// Of chains of one length the smallest number at the earliest difference, whatever comes behind it; the number may be 0.
fn ties(rt: &impl Print) -> io::Result<()> {
    let inner = [6u64, 8, 8, 0];
    show_chain(rt, &inner, 0, 3)?;
    let zero = [8u64, 5, 8, 0];
    show_chain(rt, &zero, 1, 3)?;
    let behind = [6u64, 16, 8, 32, 32, 0];
    show_chain(rt, &behind, 0, 5)?;
    // Back to the first element: by its own pair, else by the smaller of two.
    let own = [2u64, 3];
    show_chain(rt, &own, 1, 1)?;
    let back = [4u64, 4, 3];
    show_chain(rt, &back, 2, 2)
}

// Each element has a pair with the next, and the last with the first: the longest chain that there is.
fn ring(rt: &impl Print) -> io::Result<()> {
    let mut rows = [0u64; 64];
    for x in 0..64 {
        rows[x] = set_bit(0, (x as u64 + 1) % 64);
    }
    show_chain(rt, &rows, 0, 0)?;
    show_chain(rt, &rows, 1, 0)?;
    show_chain(rt, &rows, 62, 63)
}

fn main(rt: HostRuntime) -> io::Result<()> {
    // Facts F of document 01: B7, C10, C2, C5 are 0 to 3, and On holds (1,3), (3,2), (0,1).
    let on = [2u64, 8, 0, 4];
    show_chain(&rt, &on, 0, 2)?;
    show_chain(&rt, &on, 2, 0)?;
    show_chain(&rt, &on, 0, 0)?;
    // A cycle of two, and an element beside it; a pair of an element with itself.
    let cycle = [2u64, 1, 4];
    show_chain(&rt, &cycle, 0, 0)?;
    show_chain(&rt, &cycle, 2, 2)?;
    show_chain(&rt, &cycle, 0, 2)?;
    // A long way and two short ones.
    let ways = [14u64, 4, 8, 16, 0];
    show_chain(&rt, &ways, 0, 4)?;
    show_chain(&rt, &ways, 1, 4)?;
    fewest(&rt)?;
    ties(&rt)?;
    ring(&rt)
}
