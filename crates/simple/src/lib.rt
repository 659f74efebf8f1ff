// Statements without blocks: assignments and PRINT, as words.
#![tactic(auto)]

ghost use Rattle.std.specs.Prelude.{length, get_or, ◌≡◌, ◌+◌, ◌-◌, ◌*◌, ◌<◌, ◌≤◌};
ghost use Rattle.lexer.specs.Tokens.{at_of};
ghost use Rattle.simple.specs.Statements.{Places, terms_in, asserted, Asserts, FinishRoom, Finished, ItemRoom, ItemClosed, Unworded, Plainly, Alone, Worded, IsItem, IsStatement};
ghost use Rattle.terms.specs.Phrases.{kind_in, Room, Wrote};
ghost use Rattle.terms.specs.Terms.{FirstOfQuantity};

use expressions::{comparison, join, quantity};
use terms::{Answer, ParseError, begins_quantity, kind_at, leaf_at, list};
use words::pack;

// The place of the token p in the text.
pub fn place(tokens: &[u64], p: usize) -> u64
    requires { p < length tokens.now }
    ensures { result ≡ at_of (get_or tokens.now p 0) }
{
    tokens[p] / 4096
}

// The words of k terms, of which the first is at p, as terms of an expression.
fn repeat(tokens: &[u64], words: &mut [u64], p: usize, m: usize, k: usize)
    requires { (p + 2 * k < 65536) × (m + k ≤ length words.old) }
    ensures { Wrote words.old m (terms_in tokens.now p k) (m + k) words.new }
{
    for j in 0..k {
        words[m + j] = leaf_at(tokens, p + 2 * j, 3);
    }
}

// After `R(t,..);` whose k terms are written up to m: the terms again as those of TRUE, and the assignment.
fn assertion(tokens: &[u64], words: &mut [u64], p: usize, n: usize, m: usize) -> usize
    requires { Asserts tokens.now (length words.old) p n m }
    ensures { (result ≡ m + (m - n - 1) + 2) × Wrote words.old m (asserted tokens.now p n m) result words.new }
{
    let k = m - n - 1;
    repeat(tokens, words, p + 2, m, k);
    words[m + k] = pack(11, m as u64, k as u64, 0);
    words[m + k + 1] = pack(33, n as u64, k as u64, place(tokens, p));
    m + k + 2
}

// `R(t,..) := e;` or `R(t,..);`, with the name at p.
pub fn assignment(tokens: &[u64], words: &mut [u64], p: usize, n: usize, d: usize) -> Answer
    requires { (kind_in tokens.now p ≡ 47) × (Places tokens.now × Room tokens.now (length words.old) p n d) }
    ensures { IsStatement tokens.now p n d words.old words.new result }
{
    if kind_at(tokens, p + 1) != 0 {
        return Err(ParseError::NoProgram(p + 1));
    }
    let (q, m) = list(tokens, words, p + 2, n + 1, 2)?;
    words[n] = pack(1, p as u64, (m - n - 1) as u64, 0);
    let k = kind_at(tokens, q);
    if k == 7 {
        let l = assertion(tokens, words, p, n, m);
        return Ok((q + 1, l));
    }
    if k != 8 {
        return Err(ParseError::NoProgram(q));
    }
    let b = comparison(tokens, words, q + 1, m, d);
    finish(tokens, words, p, n, m, b)
}

// After the expression of an assignment: the semicolon and the assignment's word.
fn finish(tokens: &[u64], words: &mut [u64], p: usize, n: usize, m: usize, b: Answer) -> Answer
    requires { FinishRoom tokens.now (length words.old) p n m b }
    ensures { Finished tokens.now p n m words.old words.new b result }
{
    let (q, l) = b?;
    if kind_at(tokens, q) != 7 {
        return Err(ParseError::NoProgram(q));
    }
    words[l] = pack(33, n as u64, (m - n - 1) as u64, place(tokens, p));
    Ok((q + 1, l + 1))
}

// After an item's expression or quantity: the item's word, of the given kind, which has the place of the first word and the number of labels.
fn close_item(words: &mut [u64], kind: u64, n: usize, labels: u64, a: Answer) -> Answer
    requires { ItemRoom (length words.old) kind n labels a }
    ensures { ItemClosed kind n labels words.old words.new a result }
{
    let (q, m) = a?;
    words[m] = pack(kind, n as u64, labels, 0);
    Ok((q, m + 1))
}

// An item that is an expression alone.
fn expression_item(tokens: &[u64], words: &mut [u64], p: usize, n: usize, d: usize) -> Answer
    requires { Plainly tokens.now p × Room tokens.now (length words.old) p (n + 1) d }
    ensures { IsItem tokens.now p n d words.old words.new result }
{
    let a = comparison(tokens, words, p, n, d);
    close_item(words, 30, n, 0, a)
}

// A string or loop variable at p as an item.
fn say(tokens: &[u64], words: &mut [u64], p: usize, n: usize, d: usize) -> Answer
    requires { Alone tokens.now p × Room tokens.now (length words.old) p (n + 1) d }
    ensures { IsItem tokens.now p n d words.old words.new result }
{
    words[n] = leaf_at(tokens, p, 4);
    words[n + 1] = pack(31, n as u64, 0, 0);
    Ok((p + 1, n + 2))
}

// `[s]` at p and an expression.
fn labelled(tokens: &[u64], words: &mut [u64], p: usize, n: usize, d: usize) -> Answer
    requires { (kind_in tokens.now p ≡ 4) × Room tokens.now (length words.old) p (n + 1) d }
    ensures { IsItem tokens.now p n d words.old words.new result }
{
    let w = leaf_at(tokens, p + 1, 4);
    if w == 0 {
        return Err(ParseError::NoProgram(p + 1));
    }
    if kind_at(tokens, p + 2) != 5 {
        return Err(ParseError::NoProgram(p + 2));
    }
    words[n] = w;
    let a = comparison(tokens, words, p + 3, n + 1, d);
    close_item(words, 30, n, 1, a)
}

// An item that begins with a name or a string, of the given kind: what follows tells whether it stands alone.
fn word_item(tokens: &[u64], words: &mut [u64], p: usize, n: usize, d: usize, kind: u64) -> Answer
    requires { Worded (kind_in tokens.now p) kind × Room tokens.now (length words.old) p (n + 1) d }
    ensures { IsItem tokens.now p n d words.old words.new result }
{
    let k = kind_at(tokens, p + 1);
    if k == 0 {
        if kind == 47 {
            return expression_item(tokens, words, p, n, d);
        }
    }
    if k < 41 {
        return say(tokens, words, p, n, d);
    }
    if k > 46 {
        return say(tokens, words, p, n, d);
    }
    expression_item(tokens, words, p, n, d)
}

// An item that begins with a quantity: beside a sign it is an expression.
fn quantity_item(tokens: &[u64], words: &mut [u64], p: usize, n: usize, d: usize) -> Answer
    requires { FirstOfQuantity (kind_in tokens.now p) × Room tokens.now (length words.old) p (n + 1) d }
    ensures { IsItem tokens.now p n d words.old words.new result }
{
    let (q, m) = quantity(tokens, words, p, n, d)?;
    let g = kind_at(tokens, q);
    if g < 41 {
        return close_item(words, 29, n, 0, Ok((q, m)));
    }
    if g > 46 {
        return close_item(words, 29, n, 0, Ok((q, m)));
    }
    let b = quantity(tokens, words, q + 1, m, d);
    let c = join(words, 28, m, g - 41, b);
    close_item(words, 30, n, 0, c)
}

// An item that is told by no word at its first token: a quantity or an expression.
fn other_item(tokens: &[u64], words: &mut [u64], p: usize, n: usize, d: usize) -> Answer
    requires { Unworded (kind_in tokens.now p) × Room tokens.now (length words.old) p (n + 1) d }
    ensures { IsItem tokens.now p n d words.old words.new result }
{
    if begins_quantity(tokens, p) {
        quantity_item(tokens, words, p, n, d)
    } else {
        expression_item(tokens, words, p, n, d)
    }
}

fn item(tokens: &[u64], words: &mut [u64], p: usize, n: usize, d: usize) -> Answer
    requires { Room tokens.now (length words.old) p (n + 1) d }
    ensures { IsItem tokens.now p n d words.old words.new result }
{
    match kind_at(tokens, p) {
        4 => labelled(tokens, words, p, n, d),
        18 => {
            words[n] = pack(32, 0, 0, 0);
            Ok((p + 1, n + 1))
        }
        47 => word_item(tokens, words, p, n, d, 47),
        48 => word_item(tokens, words, p, n, d, 48),
        _ => other_item(tokens, words, p, n, d),
    }
}

// PRINT at p: its items and the semicolon.
pub fn print(tokens: &[u64], words: &mut [u64], p: usize, n: usize, d: usize) -> Answer
    requires { (kind_in tokens.now p ≡ 30) × (Places tokens.now × Room tokens.now (length words.old) p n d) }
    ensures { IsStatement tokens.now p n d words.old words.new result }
{
    let (mut q, mut m) = item(tokens, words, p + 1, n, d)?;
    while kind_at(tokens, q) == 6 {
        (q, m) = item(tokens, words, q + 1, m, d)?;
    }
    if kind_at(tokens, q) != 7 {
        return Err(ParseError::NoProgram(q));
    }
    words[m] = pack(37, n as u64, 0, place(tokens, p));
    Ok((q + 1, m + 1))
}
