// Prints what the lexer makes of worked texts and of texts at its limits: a line for each, with the number of tokens and then kind, place and
// text of each token, or the row and the place of the refusal.
#![tactic(auto)]

use definition::Refusal;
use lexer::lex;
use lines::{put, put_decimal};
use listing::{Item, put_items};
use page::put_refusal;
use parts::part;
use std::io;

// Ends the line at place n and writes it.
fn write_line(rt: &impl Print, line: &mut [u8], n: usize) -> io::Result<()> {
    let end = put(line, n, 10, true);
    rt.write_all(part(line, 0, end))
}

// Puts the number of tokens, and as many of them as there are words.
fn put_tokens(line: &mut [u8], l: Result<usize, Refusal>, words: &[u64]) -> usize {
    match l {
        Ok(n) => {
            let p = put_decimal(line, 0, n as u64, true);
            put_items(line, p, Item::Token, words, n)
        }
        Err(q) => put_refusal(line, q),
    }
}

fn show(rt: &impl Print, query: &[u8]) -> io::Result<()> {
    let mut line = [0u8; 512];
    let mut words = [0u64; 2048];
    let l = lex(query, &mut words);
    let n = put_tokens(&mut line, l, &words);
    write_line(rt, &mut line, n)
}

// How many tokens only.
fn show_count(rt: &impl Print, query: &[u8]) -> io::Result<()> {
    let mut line = [0u8; 512];
    let mut words = [0u64; 2048];
    let l = lex(query, &mut words);
    let n = put_tokens(&mut line, l, &words[..0]);
    write_line(rt, &mut line, n)
}

// Names, reserved words, strings and marks.
fn tokens(rt: &impl Print) -> io::Result<()> {
    show(rt, b"")?;
    show(rt, b"Dep(x,y) := TC(On(x,y));")?;
    show(rt, b"PRINT [\"Dep\"] Dep(x,y), ENDL;")?;
    show(rt, b"_ __ _a a_1 TRUEx AVG TO FALSE")?;
    show(rt, b"\"\" \"a b\t\"\"//\"")?;
    show(rt, b"(){}[],;:=&|!-><->=!=<<=>>=")?;
    show(rt, b"@\"^C\"(x)")?;
    show(rt, b"#(On(x,_)) + 12 / 7")?;
    show(rt, b"0 007 999999 1000000 00999999")?;
    show(rt, b"1a 2_ a3")
}

// "The longest token wins."
fn longest(rt: &impl Print) -> io::Result<()> {
    show(rt, b"<-")?;
    show(rt, b"<->-><=>")?;
    show(rt, b"!!=(x,y)")?;
    show(rt, b"=>=<->=")?;
    show(rt, b":= :")
}

// "Blanks (9, 10, 32) and both comment forms separate."
fn gaps(rt: &impl Print) -> io::Result<()> {
    show(rt, b" \t\n ")?;
    show(rt, b"a//b\nc//")?;
    show(rt, b"a/*b*/c/**/d/***/e")?;
    show(rt, b"/*/")?;
    show(rt, b"a/*/ */b")?;
    show(rt, b"6//2")?;
    show(rt, b"6/*2*//3")?;
    show(rt, b"6/ /2")?;
    show(rt, b"a/b")?;
    show(rt, b"/")?;
    show(rt, b"/* *")
}

// Row 9: "the smallest place".
fn refusals(rt: &impl Print) -> io::Result<()> {
    show(rt, b"a\"b")?;
    show(rt, b"a \"b\nc\"")?;
    show(rt, b"a %")?;
    show(rt, b"a\rb")?;
    show(rt, b"a /* \x01 */ b")?;
    show(rt, b"\"\x7f\" %")?;
    show(rt, b"// \x80\n%")?;
    show(rt, b"% \x01")?;
    show(rt, b"a \"\x01")
}

// 32 bytes are taken, 33 are not.
fn lengths(rt: &impl Print) -> io::Result<()> {
    show(rt, b"a2345678901234567890123456789012")?;
    show(rt, b"a23456789012345678901234567890123")?;
    show(rt, b"\"12345678901234567890123456789012\"")?;
    show(rt, b"\"123456789012345678901234567890123\"")?;
    show(rt, b"00000000000000000000000000000001")?;
    show(rt, b"12345678901234567890123456789012")?;
    show(rt, b"123456789012345678901234567890123")?;
    show(rt, b"b //a2345678901234567890123456789012345")
}

// 2,048 tokens are taken; the 2,049th is row 13, after every row 9.
fn many(rt: &impl Print) -> io::Result<()> {
    let full = [b'('; 2048];
    show_count(rt, &full)?;
    let over = [b'('; 2049];
    show_count(rt, &over)?;
    let mut wrong = [b'('; 3000];
    wrong[2999] = b'-';
    show_count(rt, &wrong)
}

// 16,384 bytes are taken.
fn long(rt: &impl Print) -> io::Result<()> {
    let full = [b' '; 16384];
    show_count(rt, &full)?;
    let over = [b' '; 16385];
    show_count(rt, &over)
}

fn main(rt: HostRuntime) -> io::Result<()> {
    tokens(&rt)?;
    longest(&rt)?;
    gaps(&rt)?;
    refusals(&rt)?;
    lengths(&rt)?;
    many(&rt)?;
    long(&rt)
}
