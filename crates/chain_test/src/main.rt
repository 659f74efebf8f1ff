// Prints the chains found over worked facts: a line for each, with the count and the numbers, or the row and the place of the refusal; then
// how many bytes of the buffer are as they were.
#![tactic(auto)]

ghost use Rattle.std.specs.Prelude.{◌+◌, ◌≤◌, length};

use chain::chain;
use definition::Refusal;
use lines::{put, put_decimal, put_text};
use listing::{put_bytes, untouched};
use page::put_refusal;
use parts::part;
use std::io;

// Ends the line at place n and writes it.
fn write_line(rt: &impl Print, line: &mut [u8], n: usize) -> io::Result<()> {
    let end = put(line, n, 10, true);
    rt.write_all(part(line, 0, end))
}

// Puts the count, or the refusal.
fn put_answer(line: &mut [u8], c: Result<usize, Refusal>) -> usize
    ensures { result ≤ length line.new + 1 }
{
    match c {
        Ok(count) => put_decimal(line, 0, count as u64, true),
        Err(q) => put_refusal(line, q),
    }
}

// The chain with a buffer whose bytes are 255.
fn show_in(
    rt: &impl Print,
    facts: &[u8],
    name: &[u8],
    first: &[u8],
    second: &[u8],
    buffer: &mut [u8],
) -> io::Result<()> {
    let mut line = [0u8; 256];
    let c = chain(facts, name, first, second, buffer);
    let a = put_answer(&mut line, c);
    let b = put_bytes(&mut line, a, buffer);
    let t = put_text(&mut line, b, b", ", true);
    let n = put_decimal(&mut line, t, untouched(buffer) as u64, true);
    write_line(rt, &mut line, n)
}

fn show(rt: &impl Print, facts: &[u8], name: &[u8], first: &[u8], second: &[u8]) -> io::Result<()> {
    let mut buffer = [255u8; 65];
    show_in(rt, facts, name, first, second, &mut buffer)
}

// One byte too few.
fn show_short(
    rt: &impl Print,
    facts: &[u8],
    name: &[u8],
    first: &[u8],
    second: &[u8],
) -> io::Result<()> {
    let mut buffer = [255u8; 64];
    show_in(rt, facts, name, first, second, &mut buffer)
}

// Facts F of document 01: B7, C10, C2, C5 are 0 to 3, and only one way leads from B7 to C2.
fn worked(rt: &impl Print, f: &[u8]) -> io::Result<()> {
    show(rt, f, b"On", b"B7", b"C2")?;
    show(rt, f, b"On", b"C5", b"C2")?;
    let returns: &[u8] = b"On C10 C5\r\nOn C5 C2\r\nOn B7 C10\r";
    show(rt, returns, b"On", b"B7", b"C2")
}

// Row 15: no such relation, not a binary one, an element not in the facts.
fn not_there(rt: &impl Print, f: &[u8]) -> io::Result<()> {
    show(rt, f, b"Under", b"B7", b"C2")?;
    show(rt, f, b"Held", b"B7", b"B7")?;
    show(rt, f, b"On", b"B8", b"C2")?;
    show(rt, f, b"On", b"B7", b"")?;
    show_short(rt, f, b"On", b"B7", b"C1")
}

// Row 16, before 17.
fn short(rt: &impl Print, f: &[u8]) -> io::Result<()> {
    show_short(rt, f, b"On", b"B7", b"C2")?;
    show_short(rt, f, b"On", b"C2", b"B7")
}

// Row 17: no way back, and no way from an element to itself without a cycle.
fn none(rt: &impl Print, f: &[u8]) -> io::Result<()> {
    show(rt, f, b"On", b"C2", b"B7")?;
    show(rt, f, b"On", b"C5", b"C5")
}

// Back to the first element: round a cycle of three, and a pair of an element with itself. Quotes are no part of a value.
fn cycles(rt: &impl Print) -> io::Result<()> {
    let round: &[u8] = b"R a \"b c\"\nR \"b c\" d\nS d a\nR d a\nR e \"e\"\nR d d";
    show(rt, round, b"R", b"a", b"a")?;
    show(rt, round, b"R", b"b c", b"d")?;
    show(rt, round, b"R", b"e", b"e")?;
    show(rt, round, b"R", b"d", b"d")?;
    show(rt, round, b"R", b"a", b"e")?;
    show(rt, round, b"S", b"d", b"a")
}

// The first chain: the only one with fewest elements; of two with as few the smaller number at the earliest difference, in byte order
// (C10 before C2), with the numbers of all the facts' elements.
fn first(rt: &impl Print) -> io::Result<()> {
    let fewest: &[u8] = b"On C10 C5\nOn C5 C2\nOn B7 C10\nOn B7 C5";
    show(rt, fewest, b"On", b"B7", b"C2")?;
    let longer: &[u8] = b"E a b\nE b c\nE c z\nE a d\nE d z";
    show(rt, longer, b"E", b"a", b"z")?;
    let tie: &[u8] = b"Held A\nE B C2\nE C2 D\nE B C10\nE C10 D\nD B D";
    show(rt, tie, b"E", b"B", b"D")?;
    let behind: &[u8] = b"E a c\nE c d\nE d z\nE a b\nE b y\nE y z";
    show(rt, behind, b"E", b"a", b"z")?;
    let back: &[u8] = b"E b c\nE c b\nE b a\nE a b\nE c c";
    show(rt, back, b"E", b"b", b"b")?;
    show(rt, back, b"E", b"c", b"c")
}

// The facts come first, and nothing after the dot is read.
fn refused(rt: &impl Print) -> io::Result<()> {
    show_short(rt, b"On a b\nOn", b"R", b"a", b"c")?;
    show_short(rt, b"On a b\n On b c", b"On", b"a", b"c")?;
    show(rt, b"On a b\n.\nOn b c", b"On", b"a", b"b")?;
    show(rt, b"On a b\n.\nOn b c", b"On", b"a", b"c")?;
    show(rt, b"", b"On", b"a", b"a")?;
    show(rt, b"On a b\r b\r\n", b"On", b"a", b"b")
}

fn main(rt: HostRuntime) -> io::Result<()> {
    let f: &[u8] = b"On C10 C5\nOn C5 C2\nOn B7 C10\nHeld B7";
    worked(&rt, f)?;
    not_there(&rt, f)?;
    short(&rt, f)?;
    none(&rt, f)?;
    cycles(&rt)?;
    first(&rt)?;
    refused(&rt)
}
