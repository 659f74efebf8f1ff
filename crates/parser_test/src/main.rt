// Prints the words that worked queries give: a line for each, with the number of tokens and of words and then kind and three fields of each
// word, or the row and the place of the refusal.
#![tactic(auto)]

use definition::Refusal;
use lines::{put, put_decimal};
use listing::{Item, put_items};
use page::{put_number, put_refusal};
use parser::read_query;
use parts::part;
use std::io;

// Ends the line at place n and writes it.
fn write_line(rt: &impl Print, line: &mut [u8], n: usize) -> io::Result<()> {
    let end = put(line, n, 10, true);
    rt.write_all(part(line, 0, end))
}

fn put_read(line: &mut [u8], r: Result<(usize, usize), Refusal>, words: &[u64]) -> usize {
    match r {
        Ok((t, m)) => {
            let p = put_decimal(line, 0, t as u64, true);
            let w = put_number(line, p, m as u64);
            put_items(line, w, Item::Word, words, m)
        }
        Err(q) => put_refusal(line, q),
    }
}

fn show(rt: &impl Print, query: &[u8]) -> io::Result<()> {
    let mut line = [0u8; 512];
    let mut tokens = [0u64; 2048];
    let mut words = [0u64; 2048];
    let r = read_query(query, &mut tokens, &mut words);
    let n = put_read(&mut line, r, &words);
    write_line(rt, &mut line, n)
}

// Assignments and PRINT.
fn plain(rt: &impl Print) -> io::Result<()> {
    show(rt, b"Dep(x,y) := TC(On(x,y));")?;
    show(rt, b"Held(\"C2\");")?;
    show(rt, b"PRINT ENDL, \"a\", [\"b\"] R(x) | !S(_);")
}

// Blocks: jumps go behind them.
fn blocks(rt: &impl Print) -> io::Result<()> {
    show(rt, b"IF TRUE() { P(); } ELSE { Q(); }")?;
    show(rt, b"IF TRUE() { P(); } Q();")?;
    show(rt, b"FOR c IN R(x) { WHILE x < y { P(); } }")?;
    show(rt, b"{ P(); { Q(); } }")
}

// Quantified attributes: a name before a comma.
fn quantifiers(rt: &impl Print) -> io::Result<()> {
    show(rt, b"IF EX(x, x = x) { P(); }")?;
    show(rt, b"IF EX(x, y) { P(); }")?;
    show(rt, b"IF EX(x, y, P(x,y)) { P(); }")
}

// A pattern: its string, and a term in brackets; it opens no level.
fn patterns(rt: &impl Print) -> io::Result<()> {
    show(rt, b"P(x) := @\"^C\"(x);")?;
    show(rt, b"P():=!!!!!!!!!!!!!!!!!!!!!!!!!!!!!!!!@\"C\"(_);")?;
    show(rt, b"P() := @x(\"C\");")?;
    show(rt, b"P() := @\"C\" x;")?;
    show(rt, b"P() := @\"C\"();")?;
    show(rt, b"P() := @\"C\"(x, y);")?;
    show(rt, b"P() := @")
}

// Quantities: sums and ratios, as items and beside a sign.
fn quantities(rt: &impl Print) -> io::Result<()> {
    show(rt, b"PRINT 999999;")?;
    show(rt, b"PRINT #(R(x)) + 2 / 3, ENDL;")?;
    show(rt, b"PRINT #(R(x)) > 1;")?;
    show(rt, b"IF 1 + 2 < #(TRUE()) { P(); }")?;
    show(rt, b"P() := EX(x, 1 <= #(x = y));")?;
    show(rt, b"PRINT 1+1+1+1+1+1+1+1/1+1+1+1+1+1+1+1;")
}

// Row 10 where a quantity or its sign is missing, or one stands that may not, a large number too.
fn no_quantities(rt: &impl Print) -> io::Result<()> {
    show(rt, b"IF #(P()) { P(); }")?;
    show(rt, b"P() := 1 < R(x);")?;
    show(rt, b"P() := R(x) < 1;")?;
    show(rt, b"PRINT 1 = 2 = 3;")?;
    show(rt, b"PRINT 1 / 2 / 3;")?;
    show(rt, b"PRINT 1 1000000;")?;
    show(rt, b"PRINT #x;")?;
    show(rt, b"PRINT #(1);")?;
    show(rt, b"P(1000000);")
}

// Row 19: a number over 999,999, or the first token of a ninth summand; row 10 comes before it at one token, row 13 after it.
fn excesses(rt: &impl Print) -> io::Result<()> {
    show(rt, b"PRINT 1000000;")?;
    show(rt, b"PRINT 1 / 2 + 1000000;")?;
    show(rt, b"PRINT 1+1+1+1+1+1+1+1+1;")?;
    show(rt, b"PRINT 1+1+1+1+1+1+1+1+#;")?;
    show(rt, b"PRINT 1+1+1+1+1+1+1+1+;")?;
    show(rt, b"PRINT 1+1+1+1+1+1+1+1+x;")?;
    show(
        rt,
        b"P():=((((((((((((((((((((((((((((((((1+1+1+1+1+1+1+1+#(",
    )?;
    show(rt, b"P():=((((((((((((((((((((((((((((((((1000000")?;
    show(rt, b"P():=((((((((((((((((((((((((((((((((#x")?;
    show(rt, b"P():=(((((((((((((((((((((((((((((((#(")
}

// Row 10: the first token with which no program begins.
fn refusals(rt: &impl Print) -> io::Result<()> {
    show(rt, b"")?;
    show(rt, b"P()")?;
    show(rt, b"P(); )")?;
    show(rt, b"IF A() -> B() -> C() { P(); }")?;
    show(rt, b"WHILE A() P();")?;
    show(rt, b"FOR IN R(x) { P(); }")?;
    show(rt, b"{ }")?;
    show(rt, b"P(_);")?;
    show(rt, b"P() 1")?;
    show(rt, b"P() %")
}

// 32 levels are taken; the 33rd is row 13, and row 10 comes first at one token.
fn levels(rt: &impl Print) -> io::Result<()> {
    show(
        rt,
        b"{{{{{{{{{{{{{{{{{{{{{{{{{{{{{{{{P();}}}}}}}}}}}}}}}}}}}}}}}}}}}}}}}}",
    )?;
    show(
        rt,
        b"{{{{{{{{{{{{{{{{{{{{{{{{{{{{{{{{{P();}}}}}}}}}}}}}}}}}}}}}}}}}}}}}}}}}",
    )?;
    show(rt, b"P():=!!!!!!!!!!!!!!!!!!!!!!!!!!!!!!!!Q();")?;
    show(rt, b"P():=!!!!!!!!!!!!!!!!!!!!!!!!!!!!!!!!!Q();")?;
    show(rt, b"P():=(((((((((((((((((((((((((((((((((Q();")?;
    show(rt, b"{{{{{{{{{{{{{{{{{{{{{{{{{{{{{{{{(")
}

fn main(rt: HostRuntime) -> io::Result<()> {
    plain(&rt)?;
    blocks(&rt)?;
    quantifiers(&rt)?;
    patterns(&rt)?;
    quantities(&rt)?;
    no_quantities(&rt)?;
    excesses(&rt)?;
    refusals(&rt)?;
    levels(&rt)
}
