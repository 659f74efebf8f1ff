// Statements with blocks, and the whole program, as words with the places to go on at. A word that goes to a place behind a block is left
// free, and set once the block is read.
#![tactic(auto)]

ghost use Rattle.std.specs.Prelude.{length, ◌≡◌, ◌+◌, ◌<◌, ◌≤◌};
ghost use Rattle.simple.specs.Statements.{Places, IsStatement};
ghost use Rattle.statements.specs.Blocks.{Begins, IsSequence, IsBlock, IsElse, Headed, Space, Tested, Repeated, Ranged, IsProgram};
ghost use Rattle.terms.specs.Phrases.{kind_in, Room};

use expressions::comparison;
use simple::{assignment, place, print};
use terms::{Answer, ParseError, close, kind_at};
use words::pack;

// Whether the token q begins a statement.
fn begins(tokens: &[u64], q: usize) -> bool
    ensures { Begins (kind_in tokens.now q) result }
{
    match kind_at(tokens, q) {
        2 => true,
        23 => true,
        24 => true,
        30 => true,
        38 => true,
        47 => true,
        _ => false,
    }
}

// After FOR at p: its variable and IN. How many of the three tokens are right; if all are, the variable's word stands at n.
fn heading(tokens: &[u64], words: &mut [u64], p: usize, n: usize) -> usize
    requires { (p < 65535) × (n < length words.old) }
    ensures { Headed tokens.now p n words.old words.new result }
{
    if kind_at(tokens, p + 1) != 47 {
        return 1;
    }
    if kind_at(tokens, p + 2) != 25 {
        return 2;
    }
    words[n] = pack(5, (p + 1) as u64, 0, 0);
    3
}

// After the blocks of an IF at p, up to f: the jump at l over the second, and the test at m, which goes on behind l if it fails.
fn tested(tokens: &[u64], words: &mut [u64], p: usize, m: usize, l: usize, f: usize)
    requires { Space tokens.now (length words.old) p m l f }
    ensures { Tested tokens.now p m l f words.old words.new }
{
    let other = l + 1;
    words[l] = pack(35, 0, f as u64, 0);
    words[m] = pack(34, 0, other as u64, place(tokens, p));
}

// After the block of a WHILE at p: the test again at l, and the test at m.
fn repeated(tokens: &[u64], words: &mut [u64], p: usize, m: usize, l: usize)
    requires { Space tokens.now (length words.old) p m l l }
    ensures { Repeated tokens.now p m l words.old words.new }
{
    words[l] = pack(36, (m - 1) as u64, (m + 1) as u64, 0);
    words[m] = pack(34, 0, (l + 1) as u64, place(tokens, p));
}

// After the block of a FOR at p: its next element at l, and its set at m.
fn ranged(tokens: &[u64], words: &mut [u64], p: usize, m: usize, l: usize)
    requires { Space tokens.now (length words.old) p m l l }
    ensures { Ranged tokens.now p m l words.old words.new }
{
    words[l] = pack(7, (p + 1) as u64, (m + 1) as u64, 0);
    words[m] = pack(6, (p + 1) as u64, l as u64, place(tokens, p));
}

#[cycle(block_conditional_for_loop_otherwise_sequence_statement_while_loop)]
fn statement(tokens: &[u64], words: &mut [u64], p: usize, n: usize, d: usize) -> Answer
    requires { Places tokens.now × Room tokens.now (length words.old) p n d }
    ensures { IsStatement tokens.now p n d words.old words.new result }
{
    match kind_at(tokens, p) {
        2 => block(tokens, words, p, n, d),
        23 => for_loop(tokens, words, p, n, d),
        24 => conditional(tokens, words, p, n, d),
        30 => print(tokens, words, p, n, d),
        38 => while_loop(tokens, words, p, n, d),
        47 => assignment(tokens, words, p, n, d),
        _ => Err(ParseError::NoProgram(p)),
    }
}

// One or more statements.
#[cycle(block_conditional_for_loop_otherwise_sequence_statement_while_loop)]
fn sequence(tokens: &[u64], words: &mut [u64], p: usize, n: usize, d: usize) -> Answer
    requires { Places tokens.now × Room tokens.now (length words.old) p n d }
    ensures { IsSequence tokens.now p n d words.old words.new result }
{
    let (mut q, mut m) = statement(tokens, words, p, n, d)?;
    while begins(tokens, q) {
        (q, m) = statement(tokens, words, q, m, d)?;
    }
    Ok((q, m))
}

#[cycle(block_conditional_for_loop_otherwise_sequence_statement_while_loop)]
fn block(tokens: &[u64], words: &mut [u64], p: usize, n: usize, d: usize) -> Answer
    requires { Places tokens.now × Room tokens.now (length words.old) p n d }
    ensures { IsBlock tokens.now p n d words.old words.new result }
{
    if kind_at(tokens, p) != 2 {
        return Err(ParseError::NoProgram(p));
    }
    if d >= 32 {
        return Err(ParseError::TooMuch(p));
    }
    let a = sequence(tokens, words, p + 1, n, d + 1);
    close(tokens, 3, a)
}

// ELSE and its block, if it is there.
#[cycle(block_conditional_for_loop_otherwise_sequence_statement_while_loop)]
fn otherwise(tokens: &[u64], words: &mut [u64], p: usize, n: usize, d: usize) -> Answer
    requires { Places tokens.now × Room tokens.now (length words.old) p n d }
    ensures { IsElse tokens.now p n d words.old words.new result }
{
    if kind_at(tokens, p) != 17 {
        return Ok((p, n));
    }
    block(tokens, words, p + 1, n, d)
}

#[cycle(block_conditional_for_loop_otherwise_sequence_statement_while_loop)]
fn conditional(tokens: &[u64], words: &mut [u64], p: usize, n: usize, d: usize) -> Answer
    requires { (kind_in tokens.now p ≡ 24) × (Places tokens.now × Room tokens.now (length words.old) p n d) }
    ensures { IsStatement tokens.now p n d words.old words.new result }
{
    let (q, m) = comparison(tokens, words, p + 1, n, d)?;
    let (r, l) = block(tokens, words, q, m + 1, d)?;
    let (u, f) = otherwise(tokens, words, r, l + 1, d)?;
    tested(tokens, words, p, m, l, f);
    Ok((u, f))
}

#[cycle(block_conditional_for_loop_otherwise_sequence_statement_while_loop)]
fn while_loop(tokens: &[u64], words: &mut [u64], p: usize, n: usize, d: usize) -> Answer
    requires { (kind_in tokens.now p ≡ 38) × (Places tokens.now × Room tokens.now (length words.old) p n d) }
    ensures { IsStatement tokens.now p n d words.old words.new result }
{
    let (q, m) = comparison(tokens, words, p + 1, n, d)?;
    let (r, l) = block(tokens, words, q, m + 1, d)?;
    repeated(tokens, words, p, m, l);
    Ok((r, l + 1))
}

#[cycle(block_conditional_for_loop_otherwise_sequence_statement_while_loop)]
fn for_loop(tokens: &[u64], words: &mut [u64], p: usize, n: usize, d: usize) -> Answer
    requires { (kind_in tokens.now p ≡ 23) × (Places tokens.now × Room tokens.now (length words.old) p n d) }
    ensures { IsStatement tokens.now p n d words.old words.new result }
{
    let k = heading(tokens, words, p, n);
    if k < 3 {
        return Err(ParseError::NoProgram(p + k));
    }
    let (q, m) = comparison(tokens, words, p + 3, n + 1, d)?;
    let (r, l) = block(tokens, words, q, m + 1, d)?;
    ranged(tokens, words, p, m, l);
    Ok((r, l + 1))
}

// The words of the program that the tokens are, or the row and the token of its refusal.
pub fn parse(tokens: &[u64], words: &mut [u64]) -> Answer
    requires { (length tokens.now ≤ 2048) × ((length tokens.now ≤ length words.old) × Places tokens.now) }
    ensures { IsProgram tokens.now words.old words.new result }
{
    let (q, m) = sequence(tokens, words, 0, 0, 0)?;
    if q == tokens.len() {
        return Ok((q, m));
    }
    Err(ParseError::NoProgram(q))
}
