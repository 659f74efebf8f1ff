// Rows 13 and 12 of each statement, in the order of the text.
#![tactic(auto)]

ghost use Rattle.std.specs.Prelude.{◌≡◌, List, Bool, ℕ, ◌+◌, ◌-◌, ◌≤◌, ◌<◌, length, drop};
ghost use Rattle.definition.specs.Answer.{Answer};
ghost use Rattle.definition.specs.Syntax.{Program, Expression};
ghost use Rattle.definition.specs.Names.{Use, variables, statement_rows, program_rows};
ghost use Rattle.words.specs.Raw.{flat_program};
ghost use Rattle.words.specs.Tokens.{OwnProgram};
ghost use Rattle.words.specs.Parts.{ends, parts};
ghost use Rattle.slots.specs.Slots.{digit_at, closure_count};
ghost use Rattle.free.specs.Words.{at, Small};
ghost use Rattle.rows.specs.Tests.{fits, all_fit, left_from, same_digits, own_fits, too_much};
ghost use Rattle.rows.specs.Statements.{meets, Setting, vs, Stated, Rows, turned, Near};

use definition::Refusal;
use slots::Found;
use words::{word_at, word_before};

// "TC and TCFAST two, a printed expression at most 3", and so what # counts: the word w at j.
fn fits(fr: &[u64], j: usize, w: u64) -> bool
    ensures { result ≡ fits (at fr.now) j w }
{
    let p = (w / 256 % 65536) as usize;
    match w % 256 {
        21 => digits::count(word_at(fr, p)) == 2,
        24 => digits::count(word_at(fr, p)) <= 3,
        29 | 30 => digits::count(word_before(fr, j)) <= 3,
        _ => true,
    }
}

// The words of a statement, the first at s.
fn all_fit(part: &[u64], fr: &[u64], s: usize) -> bool
    requires { s + length part.now < 65536 }
    ensures { result ≡ all_fit (at fr.now) part.now s }
{
    for (i, &w) in part.iter().enumerate() {
        if !fits(fr, s + i, w) {
            return false;
        }
    }
    true
}

// The attributes of n words from i on.
fn left(words: &[u64], f: Found, ids: &[u64], i: usize, n: usize) -> u64
    requires { (f.count ≤ 4) × ((i ≤ 65536) × (n < 65536)) }
    ensures { (result ≡ left_from (at words.now) (digit_at f ids.now) i n 0) × (result < 4096) }
{
    let mut a: u64 = 0;
    for j in 0..n {
        a = digits::add(a, slots::digit_at(f, ids, word_at(words, i + j)));
    }
    a
}

fn same_digits(a: u64, b: u64) -> bool
    ensures { result ≡ same_digits a b }
{
    if digits::inside(a, b) {
        return digits::inside(b, a);
    }
    false
}

// A statement's own word w at k.
fn own_fits(words: &[u64], f: Found, ids: &[u64], fr: &[u64], k: usize, w: u64) -> bool
    requires { f.count ≤ 4 }
    ensures { result ≡ own_fits (at words.now) (digit_at f ids.now) (at fr.now) k w }
{
    let c = w % 256;
    let v = word_before(fr, k);
    if c == 34 {
        return digits::count(v) == 0;
    }
    if c == 6 {
        return digits::count(v) == 1;
    }
    if c == 33 {
        let i = (w / 256 % 65536) as usize + 1;
        let n = (w / 16777216 % 65536) as usize;
        return same_digits(left(words, f, ids, i, n), v);
    }
    true
}

// "5th attribute, 17th closure".
fn too_much(f: Found, part: &[u64]) -> bool
    ensures { result ≡ too_much f.count (closure_count part.now) }
{
    let n = f.count;
    if 4 < n {
        return true;
    }
    16 < slots::closures(part)
}

// The statement whose words begin at s and whose own word is at k: 13, then 12.
fn statement(
    words: &[u64],
    ids: &[u64],
    known: &[u64],
    fr: &mut [u64],
    s: usize,
    k: usize,
) -> Result<(), Refusal>
    requires s_le_k { (s ≤ k) × ((k < length words.now) × ((length words.now ≤ length fr.old) × (length words.now < 65536))) }
    requires small_2 { Small fr.old }
    ensures rows { (S : Setting words.now ids.now known.now) (i : ℕ) (us : List Use) (es : List Expression) (right : Bool) → Stated words.now ids.now known.now S s k i us es right → meets result (statement_rows (vs words.now ids.now known.now S) i us es right) }
    ensures small { Small fr.new }
{
    let w = words[k];
    let place = (w / 1099511627776 % 65536) as usize;
    let f = slots::collect(&words[s..k], ids, known);
    if too_much(f, &words[s..k]) {
        return Err(Refusal::TooMuch(place));
    }
    free::fill(words, f, ids, fr, s, k);
    if !all_fit(&words[s..k], fr, s) {
        return Err(Refusal::FreeAttributes(place));
    }
    if !own_fits(words, f, ids, fr, k, w) {
        return Err(Refusal::FreeAttributes(place));
    }
    Ok(())
}

// What a word of a kind ends: 2 a statement, 1 what belongs to none, 0 nothing.
fn ends(c: u64) -> u64
    ensures { result ≡ ends c }
{
    match c {
        6 => 2,
        7 => 1,
        33 => 2,
        34 => 2,
        35 => 1,
        36 => 1,
        37 => 2,
        _ => 0,
    }
}

// The word at k, where the open part began at s: where the next one begins, or why the statement is refused.
fn step(
    words: &[u64],
    ids: &[u64],
    known: &[u64],
    fr: &mut [u64],
    s: usize,
    k: usize,
) -> Result<usize, Refusal>
    requires s_le_k { (s ≤ k) × ((k < length words.now) × ((length words.now ≤ length fr.old) × (length words.now < 65536))) }
    requires small_2 { Small fr.old }
    ensures rows { (S : Setting words.now ids.now known.now) (rest : Answer (Unit {0})) → Rows words.now ids.now known.now S (parts (drop k words.now) s k) rest → turned words.now ids.now known.now S k rest result }
    ensures small { Small fr.new × Near k result }
{
    let c = ends(words[k] % 256);
    if c == 2 {
        statement(words, ids, known, fr, s, k)?;
        return Ok(k + 1);
    }
    if c == 1 {
        return Ok(k + 1);
    }
    Ok(s)
}

// "13 then 12 by statement".
pub fn program_rows(
    words: &[u64],
    ids: &[u64],
    known: &[u64],
    fr: &mut [u64],
) -> Result<(), Refusal>
    requires words_in_bounds { (length words.now ≤ length fr.old) × (length words.now < 65536) }
    requires small { Small fr.old }
    ensures { (S : Setting words.now ids.now known.now) (p : Program) → OwnProgram S.ts p → words.now ≡ flat_program p 0 → meets result (program_rows (variables S.kinds) p) }
{
    let mut s: usize = 0;
    for k in 0..words.len() {
        s = step(words, ids, known, fr, s, k)?;
    }
    Ok(())
}
