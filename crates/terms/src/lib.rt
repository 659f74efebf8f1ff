// The smallest phrases of a query: terms, lists of terms, and the atoms made of them. A token is one word, and what is read is written
// to an array of words in the order of the tokens.
#![tactic(auto)]

ghost use Rattle.std.specs.Prelude.{◌≡◌, [], ◌∷◌, ℕ, ◌+◌, ◌-◌, ◌<◌, ◌≤◌, length};
ghost use Rattle.std.proofs.lemmas.List.Edits.{sets};
ghost use Rattle.terms.specs.Phrases.{kind_in, closed, Room, IsPrimary};
ghost use Rattle.terms.specs.Terms.{leaf_in, IsListed, Truth, IsSign, Plain, OfQuantity};
ghost use Rattle.words.specs.Fields.{word};

use words::pack;

// Why no phrase is read, with the token at which that shows: no program goes on there (row 10), the levels are too many (row 13), or a
// number or a summand is (row 19).
#[derive(Clone, Copy)]
pub enum ParseError {
    NoProgram(usize),
    TooMuch(usize),
    Number(usize),
}

// What a function that reads a phrase answers: the next token and how many words stand in the array.
pub type Answer = Result<(usize, usize), ParseError>;

// The kind of the token at p; 64 past the last.
pub fn kind_at(tokens: &[u64], p: usize) -> u64
    ensures { result ≡ kind_in tokens.now p }
{
    if p >= tokens.len() {
        return 64;
    }
    tokens[p] % 64
}

// Whether a quantity begins at p: "#" or a number.
pub fn begins_quantity(tokens: &[u64], p: usize) -> bool
    ensures { OfQuantity (kind_in tokens.now p) result }
{
    match kind_at(tokens, p) {
        50 => true,
        53 => true,
        54 => true,
        _ => false,
    }
}

// After what stands in brackets: the closing one, a token of the given kind.
pub fn close(tokens: &[u64], kind: u64, a: Answer) -> Answer
    requires { kind < 64 }
    ensures { result ≡ closed tokens.now kind a }
{
    let (q, m) = a?;
    if kind_at(tokens, q) == kind {
        Ok((q + 1, m))
    } else {
        Err(ParseError::NoProgram(q))
    }
}

// The word of the term at p, where a name is of the given kind; 0 where there is no term. "_" is one only among the terms of an expression.
pub fn leaf_at(tokens: &[u64], p: usize, kind: u64) -> u64
    requires { (p < 65536) × (kind < 200) }
    ensures { result ≡ leaf_in tokens.now p kind }
{
    let k = kind_at(tokens, p);
    if k == 47 {
        return pack(kind, p as u64, 0, 0);
    }
    if k == 48 {
        return pack(40 + kind, p as u64, 0, 0);
    }
    if k == 14 {
        if kind == 3 {
            return pack(9, 0, 0, 0);
        }
    }
    0
}

// After an opening bracket: the terms, and the closing bracket.
pub fn list(tokens: &[u64], words: &mut [u64], p: usize, n: usize, kind: u64) -> Answer
    requires { (kind < 200) × Room tokens.now (length words.old) p n 0 }
    ensures { IsListed tokens.now kind p n words.old words.new result }
{
    if kind_at(tokens, p) == 1 {
        return Ok((p + 1, n));
    }
    let mut q = p;
    let mut m = n;
    loop {
        let w = leaf_at(tokens, q, kind);
        if w == 0 {
            return Err(ParseError::NoProgram(q));
        }
        words[m] = w;
        m += 1;
        let k = kind_at(tokens, q + 1);
        if k == 1 {
            return Ok((q + 2, m));
        }
        if k != 6 {
            return Err(ParseError::NoProgram(q + 1));
        }
        q += 2;
    }
}

// A relation's name at p, before a bracket: its terms, and the atom over them.
fn relation(tokens: &[u64], words: &mut [u64], p: usize, n: usize) -> Answer
    requires { (kind_in tokens.now p ≡ 47) × ((kind_in tokens.now (p + 1) ≡ 0) × Room tokens.now (length words.old) p n 0) }
    ensures { (d : ℕ) → d ≤ 32 → IsPrimary tokens.now p n d words.old words.new result }
{
    let (q, m) = list(tokens, words, p + 2, n + 1, 3)?;
    let k = (m - n - 1) as u64;
    words[n] = pack(1, p as u64, k, 0);
    words[m] = pack(10, n as u64, k, 0);
    Ok((q, m + 1))
}

// TRUE or FALSE at p: the terms, and the word over them, of the given kind.
fn truth(tokens: &[u64], words: &mut [u64], p: usize, n: usize, kind: u64) -> Answer
    requires { Truth (kind_in tokens.now p) kind × Room tokens.now (length words.old) p n 0 }
    ensures { (d : ℕ) → d ≤ 32 → IsPrimary tokens.now p n d words.old words.new result }
{
    if kind_at(tokens, p + 1) != 0 {
        return Err(ParseError::NoProgram(p + 1));
    }
    let (q, m) = list(tokens, words, p + 2, n, 3)?;
    words[m] = pack(kind, n as u64, (m - n) as u64, 0);
    Ok((q, m + 1))
}

// Two terms, and the comparison over them by a sign of a kind.
fn order(words: &mut [u64], n: usize, x: u64, y: u64, sign: u64)
    requires { IsSign sign × ((n < 65536) × (n + 2 < length words.old)) }
    ensures { words.new ≡ sets words.old n (x ∷ y ∷ word 13 n (sign - 41) 0 ∷ []) }
{
    words[n] = x;
    words[n + 1] = y;
    words[n + 2] = pack(13, n as u64, sign - 41, 0);
}

// A sign at p: its two terms in brackets.
fn sign_before(tokens: &[u64], words: &mut [u64], p: usize, n: usize) -> Answer
    requires { IsSign (kind_in tokens.now p) × Room tokens.now (length words.old) p n 0 }
    ensures { (d : ℕ) → d ≤ 32 → IsPrimary tokens.now p n d words.old words.new result }
{
    if kind_at(tokens, p + 1) != 0 {
        return Err(ParseError::NoProgram(p + 1));
    }
    let x = leaf_at(tokens, p + 2, 3);
    if x == 0 {
        return Err(ParseError::NoProgram(p + 2));
    }
    if kind_at(tokens, p + 3) != 6 {
        return Err(ParseError::NoProgram(p + 3));
    }
    let y = leaf_at(tokens, p + 4, 3);
    if y == 0 {
        return Err(ParseError::NoProgram(p + 4));
    }
    if kind_at(tokens, p + 5) != 1 {
        return Err(ParseError::NoProgram(p + 5));
    }
    let g = kind_at(tokens, p);
    order(words, n, x, y, g);
    Ok((p + 6, n + 3))
}

// A term at p, a sign and a term; a name is not before a bracket.
fn sign_between(tokens: &[u64], words: &mut [u64], p: usize, n: usize) -> Answer
    requires { ((leaf_in tokens.now p 3 ≡ 0 → ⊥) × (kind_in tokens.now p ≡ 47 → kind_in tokens.now (p + 1) ≡ 0 → ⊥)) × Room tokens.now (length words.old) p n 0 }
    ensures { (d : ℕ) → d ≤ 32 → IsPrimary tokens.now p n d words.old words.new result }
{
    let x = leaf_at(tokens, p, 3);
    let g = kind_at(tokens, p + 1);
    if g < 41 {
        return Err(ParseError::NoProgram(p + 1));
    }
    if g > 46 {
        return Err(ParseError::NoProgram(p + 1));
    }
    let y = leaf_at(tokens, p + 2, 3);
    if y == 0 {
        return Err(ParseError::NoProgram(p + 2));
    }
    order(words, n, x, y, g);
    Ok((p + 3, n + 3))
}

// A term, each half of the elements that match the pattern of token s, and the disjunction over both halves.
fn halves(words: &mut [u64], n: usize, x: u64, s: usize)
    requires { (s < 65536) × ((n + 2 < 65536) × (n + 3 < length words.old)) }
    ensures { words.new ≡ sets words.old n (x ∷ word 23 s 0 n ∷ word 23 s 32 n ∷ word 16 (n + 1) (n + 2) 0 ∷ []) }
{
    words[n] = x;
    words[n + 1] = pack(23, s as u64, 0, n as u64);
    words[n + 2] = pack(23, s as u64, 32, n as u64);
    words[n + 3] = pack(16, (n + 1) as u64, (n + 2) as u64, 0);
}

// "@" at p: a pattern, and a term in brackets.
fn pattern(tokens: &[u64], words: &mut [u64], p: usize, n: usize) -> Answer
    requires { (kind_in tokens.now p ≡ 49) × Room tokens.now (length words.old) p n 0 }
    ensures { (d : ℕ) → d ≤ 32 → IsPrimary tokens.now p n d words.old words.new result }
{
    if kind_at(tokens, p + 1) != 48 {
        return Err(ParseError::NoProgram(p + 1));
    }
    if kind_at(tokens, p + 2) != 0 {
        return Err(ParseError::NoProgram(p + 2));
    }
    let x = leaf_at(tokens, p + 3, 3);
    if x == 0 {
        return Err(ParseError::NoProgram(p + 3));
    }
    if kind_at(tokens, p + 4) != 1 {
        return Err(ParseError::NoProgram(p + 4));
    }
    halves(words, n, x, p + 1);
    Ok((p + 5, n + 4))
}

// A name's atom: its terms in brackets, or its comparison with a term.
fn named(tokens: &[u64], words: &mut [u64], p: usize, n: usize) -> Answer
    requires { (kind_in tokens.now p ≡ 47) × Room tokens.now (length words.old) p n 0 }
    ensures { (d : ℕ) → d ≤ 32 → IsPrimary tokens.now p n d words.old words.new result }
{
    if kind_at(tokens, p + 1) == 0 {
        relation(tokens, words, p, n)
    } else {
        sign_between(tokens, words, p, n)
    }
}

// An atom: a relation's name, TRUE or FALSE with terms, a sign with two terms, or a pattern with one.
pub fn atom(tokens: &[u64], words: &mut [u64], p: usize, n: usize) -> Answer
    requires { Plain (kind_in tokens.now p) × Room tokens.now (length words.old) p n 0 }
    ensures { (d : ℕ) → d ≤ 32 → IsPrimary tokens.now p n d words.old words.new result }
{
    match kind_at(tokens, p) {
        14 | 48 => sign_between(tokens, words, p, n),
        39 => truth(tokens, words, p, n, 11),
        40 => truth(tokens, words, p, n, 12),
        41..=46 => sign_before(tokens, words, p, n),
        47 => named(tokens, words, p, n),
        49 => pattern(tokens, words, p, n),
        _ => Err(ParseError::NoProgram(p)),
    }
}
