// Worked facts: what is given, or the row and the place of the refusal. Most have two relations and four elements as limits, alone and
// after another text; then document 01's own limits, below, at and above each.
#![tactic(auto)]

use definition::Refusal;
use facts::{Counts, read_facts, read_second};
use lines::{put, put_text};
use page::{put_number, put_refusal};
use parts::{packed, part};
use std::io;

// Ends the line at place n and writes it.
fn write_line(rt: &impl Print, line: &mut [u8], n: usize) -> io::Result<()> {
    let end = put(line, n, 10, true);
    rt.write_all(part(line, 0, end))
}

fn put_read(line: &mut [u8], f: Result<Counts, Refusal>) -> usize {
    match f {
        Ok(c) => {
            let p = put_text(line, 0, b"given", true);
            let m = put_number(line, p, c.relations as u64);
            put_number(line, m, c.elements as u64)
        }
        Err(q) => put_refusal(line, q),
    }
}

fn show_read(
    rt: &impl Print,
    facts: &[u8],
    relations: &mut [usize],
    universe: &mut [usize],
) -> io::Result<()> {
    let mut line = [0u8; 256];
    let f = read_facts(facts, facts, relations, universe);
    let n = put_read(&mut line, f);
    write_line(rt, &mut line, n)
}

fn show(rt: &impl Print, facts: &[u8]) -> io::Result<()> {
    let mut relations = [0usize; 2];
    let mut universe = [0usize; 4];
    show_read(rt, facts, &mut relations, &mut universe)
}

// After the text "A x", of which one relation and one element are known
fn show_second(rt: &impl Print, facts: &[u8]) -> io::Result<()> {
    let mut line = [0u8; 256];
    let mut relations = [0usize; 2];
    let mut universe = [0usize; 4];
    let c = Counts {
        relations: 1,
        elements: 1,
    };
    relations[0] = packed(1, 0, 1, 1);
    universe[0] = packed(1, 2, 1, 0);
    let f = read_second(facts, b"A x", &mut relations, &mut universe, c);
    let n = put_read(&mut line, f);
    write_line(rt, &mut line, n)
}

// "At most 16 relations", "at most 64" elements
fn show_full(rt: &impl Print, facts: &[u8]) -> io::Result<()> {
    let mut relations = [0usize; 16];
    let mut universe = [0usize; 64];
    show_read(rt, facts, &mut relations, &mut universe)
}

fn lists(rt: &impl Print) -> io::Result<()> {
    show(rt, b"On C10 C5\nOn C5 C2\nOn B7 C10\nHeld B7")?;
    show(rt, b"A x\nB x\nC x")?;
    show(rt, b"A a b c\nA a b d\nA a b e")?;
    show(rt, b"A x\nA x y")?;
    show(rt, b"A a b c d")
}

fn names(rt: &impl Print) -> io::Result<()> {
    show(rt, b" A x")?;
    show(rt, b"TRUE x")?;
    show(rt, b"# c\n \t\nA")?;
    show(rt, b"A x\n.\nTRUE x")?;
    show(rt, b"A234567890123456789012345678901")?;
    show(rt, b"A2345678901234567890123456789012")?;
    show(rt, b"A23456789012345678901234567890123")
}

fn elements(rt: &impl Print) -> io::Result<()> {
    show(rt, b"A \"b\"\"c\"")?;
    show(rt, b"A b\"c")?;
    show(rt, b"A \"\" \"\"")?;
    show(rt, b"A \"x y\"")?;
    show(rt, b"A 1234567890123456789012345678901")?;
    show(rt, b"A 12345678901234567890123456789012")?;
    show(rt, b"A 123456789012345678901234567890123")
}

// "fact byte not 9, 10 or 32..126", and none after the dot is read
fn bytes(rt: &impl Print) -> io::Result<()> {
    show(rt, b"A\tx\n")?;
    show(rt, b"A x\x01")?;
    show(rt, b"A \x1f")?;
    show(rt, b"A ~")?;
    show(rt, b"A \x7f")?;
    show(rt, b"A x\n.\x01")?;
    show(rt, b"A x y z w\n\x01")
}

// "one byte 13 directly before byte 10, or as the last byte of the text, belong to the line end"
fn line_ends(rt: &impl Print) -> io::Result<()> {
    show(rt, b"On C10 C5\r\nOn C5 C2\r\nOn B7 C10\r\nHeld B7\r\n")?;
    show(rt, b"A x\r\nA x\nA y\r")?;
    show(rt, b"A \"x\"\r\nA x")?;
    show(rt, b"A x\r\n\r\n \t\r\n# c\r\n\r")?;
    show(rt, b"A x\r\n.\r\ry\r")?;
    show(rt, b"A 12345678901234567890123456789012\r\n")?;
    show(rt, b"A \"x\r\n")?;
    show(rt, b"A x\r\nA x y\r\n")?;
    show(rt, b"A x\r\nA \xc8\r\n")
}

// "A byte 13 anywhere else keeps refusal 2"
fn other_returns(rt: &impl Print) -> io::Result<()> {
    show(rt, b"A x\ry\r\n")?;
    show(rt, b"A \"x\ry\"\r\n")?;
    show(rt, b"# c\rd\r\n")?;
    show(rt, b"A x\r\r\n")?;
    show(rt, b"A x\r\r")?;
    show(rt, b"A x\rA y\r")?;
    show(rt, b"A x\r\n\r.")
}

// The facts of both; "20 with the name's offset in the second text", and 5 where the first does not give the relation
fn second_lists(rt: &impl Print) -> io::Result<()> {
    show_second(rt, b"A x")?;
    show_second(rt, b"A y\nB x y")?;
    show_second(rt, b"B x\n.\nA")?;
    show_second(rt, b"B\nA x y")?;
    show_second(rt, b"A")?;
    show_second(rt, b"A a b c d")?;
    show_second(rt, b"B x\nB")?;
    show_second(rt, b"B x\nB x y")
}

// "6 and 7 count the union, with the place in the second"; 2 is of the second alone
fn second_limits(rt: &impl Print) -> io::Result<()> {
    show_second(rt, b"A\nB\nC")?;
    show_second(rt, b"A x\nB\nC")?;
    show_second(rt, b"A a\nA b\nA c")?;
    show_second(rt, b"A a\nA b\nA c\nA d")?;
    show_second(rt, b"A\n\x7f")
}

// 15, 16 and 17 relations
fn many_relations(rt: &impl Print) -> io::Result<()> {
    show_full(rt, b"A\nB\nC\nD\nE\nF\nG\nH\nI\nJ\nK\nL\nM\nN\nO")?;
    show_full(rt, b"A\nB\nC\nD\nE\nF\nG\nH\nI\nJ\nK\nL\nM\nN\nO\nP")?;
    show_full(rt, b"A\nB\nC\nD\nE\nF\nG\nH\nI\nJ\nK\nL\nM\nN\nO\nP\nQ")
}

// 63, 64 and 65 elements of one byte, one on each line
fn many_elements(rt: &impl Print) -> io::Result<()> {
    let mut text = [10u8; 260];
    for i in 0..65 {
        text[4 * i] = b'A';
        text[4 * i + 1] = b' ';
        text[4 * i + 2] = 48 + i as u8;
    }
    show_full(rt, &text[..252])?;
    show_full(rt, &text[..256])?;
    show_full(rt, &text)
}

// 32,767, 32,768 and 32,769 bytes, with a fact after a long comment; then a byte there that is not allowed
fn many_bytes(rt: &impl Print) -> io::Result<()> {
    let mut text = [b' '; 32769];
    text[0] = b'#';
    text[32764] = b'\n';
    text[32765] = b'A';
    text[32766] = b' ';
    text[32767] = b'x';
    show_full(rt, &text[..32767])?;
    show_full(rt, &text[..32768])?;
    show_full(rt, &text)?;
    text[32767] = 1;
    show_full(rt, &text[..32768])?;
    show_full(rt, &text)
}

fn main(rt: HostRuntime) -> io::Result<()> {
    lists(&rt)?;
    names(&rt)?;
    elements(&rt)?;
    bytes(&rt)?;
    line_ends(&rt)?;
    other_returns(&rt)?;
    second_lists(&rt)?;
    second_limits(&rt)?;
    many_relations(&rt)?;
    many_elements(&rt)?;
    many_bytes(&rt)
}
