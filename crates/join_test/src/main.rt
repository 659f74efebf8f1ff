// Prints what is answered where worked fact texts are joined: a line with the length, or the row, the place and the text of the refusal, and
// how many bytes of the output are as they were; then the bytes that are not.
#![tactic(auto)]

ghost use Rattle.std.specs.Prelude.{◌≤◌, ◌+◌, length};

use definition::RefusedJoin;
use join::join;
use lines::{put, put_decimal, put_text};
use listing::untouched;
use page::put_refusal;
use parts::part;
use std::io;

// Ends the line at place n and writes it.
fn write_line(rt: &impl Print, line: &mut [u8], n: usize) -> io::Result<()> {
    let end = put(line, n, 10, true);
    rt.write_all(part(line, 0, end))
}

// Puts the length, or the refusal and its text.
fn put_answer(line: &mut [u8], j: Result<usize, RefusedJoin>) -> usize
    ensures { result ≤ length line.new + 1 }
{
    match j {
        Ok(n) => put_decimal(line, 0, n as u64, true),
        Err(q) => {
            let a = put_refusal(line, q.refusal);
            let b = put(line, a, 32, true);
            put_decimal(line, b, q.text as u64, true)
        }
    }
}

// Joins into an output whose bytes are 255.
fn show_in<'a>(
    rt: &impl Print,
    first: &'a [u8],
    second: &'a [u8],
    output: &mut [u8],
) -> io::Result<()> {
    let mut line = [0u8; 64];
    let j = join(first, second, output);
    let a = put_answer(&mut line, j);
    let t = put_text(&mut line, a, b", ", true);
    let left = untouched(output);
    let n = put_decimal(&mut line, t, left as u64, true);
    write_line(rt, &mut line, n)?;
    if left <= output.len() {
        rt.write_all(part(output, 0, output.len() - left))?;
    }
    Ok(())
}

fn show<'a>(rt: &impl Print, first: &'a [u8], second: &'a [u8]) -> io::Result<()> {
    let mut output = [255u8; 256];
    show_in(rt, first, second, &mut output)
}

// An output of ten bytes.
fn show_short<'a>(rt: &impl Print, first: &'a [u8], second: &'a [u8]) -> io::Result<()> {
    let mut output = [255u8; 10];
    show_in(rt, first, second, &mut output)
}

// The union: relations in byte order of name, tuples ascending with the numbers of the union, each line once.
fn unions(rt: &impl Print) -> io::Result<()> {
    show(rt, b"", b"")?;
    show(
        rt,
        b"On C10 C5\nHeld B7\n",
        b"On C5 C2\nOn C10 C5\nRated B7 AA\n",
    )?;
    show(rt, b"a\nA2\n_x\nB\n", b"A10\nA\nA1\n")?;
    show(rt, b"R b a\nR a c\n", b"R a b\nR aa a\nR C2 z\nR C10 z\n")?;
    show(rt, b"R m", b"R z\nR a\nR m\r\nR m\r")?;
    show(rt, b"R a\n.\nR c\n", b"# x\n\nR b\n.\nR d\n")
}

// Quotes if either text quoted the element, in any relation and column.
fn quotes(rt: &impl Print) -> io::Result<()> {
    show(rt, b"R \"a\"\n", b"R B\n")?;
    show(rt, b"S a\nT a b\n", b"R \"a\"\n")?;
    show(
        rt,
        b"R \"5Y off the run\"\nR \"5Y off the run\" \n",
        b"S b 5Y\nR \"\"\nR 5Y",
    )
}

// Refusals of the first text come before those of the second; 20 at the name, 5 at the last element.
fn refused(rt: &impl Print) -> io::Result<()> {
    show(rt, b"R a b\nR c\n", b"R\n")?;
    show(rt, b"R a\n", b"R b\rc\n")?;
    show(rt, b"R a\n", b"R a\nTRUE b\n")?;
    show(rt, b"R a\n", b"S x\nR a b\n")?;
    show(rt, b"R a b\n", b"R a b\nR a\n")?;
    show(rt, b"S a\n", b"R a\nR b \"c\"\n")?;
    show(rt, b"R a\n", b"R a b c d\n")?;
    let ten: &[u8] = b"N0\nN1\nN2\nN3\nN4\nN5\nN6\nN7\nN8\nN9\n";
    show(rt, ten, b"N0\nM0\nM1\nM2\nM3\nM4\nM5\nM6\n")?;
    show(rt, ten, b"N0\nM0\nM1\nM2\nM3\nM4\nM5\n")
}

// 21 with the length needed, last.
fn room(rt: &impl Print) -> io::Result<()> {
    show_short(rt, b"R \"a\"\n", b"R b\n")?;
    show_short(rt, b"R \"a\"\n", b"R bc\n")?;
    show_short(rt, b"R \"a\"\n", b"R b c\n")
}

fn main(rt: HostRuntime) -> io::Result<()> {
    unions(&rt)?;
    quotes(&rt)?;
    refused(&rt)?;
    room(&rt)
}
