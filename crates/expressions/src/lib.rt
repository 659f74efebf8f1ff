// Expressions, loosest first: a function for each strength of sign, which call each other as the grammar does; and quantities, which stand
// beside a sign.
#![tactic(auto)]

ghost use Rattle.std.specs.Prelude.{length, ◌≡◌, ℕ, ◌+◌, ◌≤◌, ◌<◌};
ghost use Rattle.expressions.specs.Operators.{JoinRoom, Joined, WrapRoom, Wrapped, IsBound, BindRoom, Binds, Quantifier, Applies, Applied, IsSummand, IsSum, IsNinth};
ghost use Rattle.terms.specs.Phrases.{kind_in, Room, IsExpression, IsImplication, IsDisjunction, IsConjunction, IsNegation, IsPrimary, IsQuantity};
ghost use Rattle.terms.specs.Terms.{FirstOfQuantity, NoQuantity};

use terms::{Answer, ParseError, atom, begins_quantity, close, kind_at};
use words::pack;

// After the right operand of a sign: the word over the operand that ends before the word m and the one just read.
pub fn join(words: &mut [u64], kind: u64, m: usize, sign: u64, b: Answer) -> Answer
    requires { JoinRoom (length words.old) kind m sign b }
    ensures { Joined kind m sign words.old words.new b result }
{
    let (q, l) = b?;
    words[l] = pack(kind, (m - 1) as u64, (l - 1) as u64, sign);
    Ok((q, l + 1))
}

// After an operand: the word over it.
fn wrap(words: &mut [u64], kind: u64, a: Answer) -> Answer
    requires { WrapRoom (length words.old) kind a }
    ensures { Wrapped kind words.old words.new a result }
{
    let (q, m) = a?;
    words[m] = pack(kind, (m - 1) as u64, 0, 0);
    Ok((q, m + 1))
}

// After EX or FA: the bracket and the attributes, each with its comma. One more attribute stands where a name stands before a comma.
fn attributes(tokens: &[u64], words: &mut [u64], p: usize, n: usize) -> Answer
    requires { Room tokens.now (length words.old) p n 0 }
    ensures { IsBound tokens.now p n words.old words.new result }
{
    if kind_at(tokens, p) != 0 {
        return Err(ParseError::NoProgram(p));
    }
    if kind_at(tokens, p + 1) != 47 {
        return Err(ParseError::NoProgram(p + 1));
    }
    if kind_at(tokens, p + 2) != 6 {
        return Err(ParseError::NoProgram(p + 2));
    }
    let mut q = p + 1;
    let mut m = n;
    loop {
        words[m] = pack(2, q as u64, 0, 0);
        m += 1;
        q += 2;
        if kind_at(tokens, q) != 47 {
            return Ok((q, m));
        }
        if kind_at(tokens, q + 1) != 6 {
            return Ok((q, m));
        }
    }
}

// After the body of a quantifier: the words over the attributes from n up to m, the last first.
fn bind(words: &mut [u64], kind: u64, n: usize, m: usize, a: Answer) -> Answer
    requires { BindRoom (length words.old) kind n m a }
    ensures { Binds kind n m words.old words.new a result }
{
    let (q, l) = a?;
    let mut k = l;
    for i in (n..m).rev() {
        words[k] = pack(kind, i as u64, (k - 1) as u64, 0);
        k += 1;
    }
    Ok((q, k))
}

// A whole literal at p, the word of its token's number. "#" does not stand there.
fn literal(tokens: &[u64], words: &mut [u64], p: usize, n: usize) -> Answer
    requires { (kind_in tokens.now p ≡ 50 → ⊥) × Room tokens.now (length words.old) p n 0 }
    ensures { (d : ℕ) → d ≤ 32 → IsSummand tokens.now p n d words.old words.new result }
{
    match kind_at(tokens, p) {
        53 => {
            words[n] = pack(25, p as u64, 0, 0);
            Ok((p + 1, n + 1))
        }
        54 => Err(ParseError::Number(p)),
        _ => Err(ParseError::NoProgram(p)),
    }
}

// Where a ninth summand would stand: its first token, or no summand's.
fn ninth(tokens: &[u64], p: usize) -> Answer
    ensures { IsNinth tokens.now p result }
{
    if begins_quantity(tokens, p) {
        Err(ParseError::Number(p))
    } else {
        Err(ParseError::NoProgram(p))
    }
}

// A sign between quantities or between relations, or a relation.
#[cycle(applied_comparison_conjunction_disjunction_figures_group_implication_negation_primary_quantifier_quantity_relations_sum_summand)]
pub fn comparison(tokens: &[u64], words: &mut [u64], p: usize, n: usize, d: usize) -> Answer
    requires { Room tokens.now (length words.old) p n d }
    ensures { IsExpression tokens.now p n d words.old words.new result }
{
    if begins_quantity(tokens, p) {
        figures(tokens, words, p, n, d)
    } else {
        relations(tokens, words, p, n, d)
    }
}

// Two quantities with a sign between them.
#[cycle(applied_comparison_conjunction_disjunction_figures_group_implication_negation_primary_quantifier_quantity_relations_sum_summand)]
fn figures(tokens: &[u64], words: &mut [u64], p: usize, n: usize, d: usize) -> Answer
    requires { FirstOfQuantity (kind_in tokens.now p) × Room tokens.now (length words.old) p n d }
    ensures { IsExpression tokens.now p n d words.old words.new result }
{
    let (q, m) = quantity(tokens, words, p, n, d)?;
    let g = kind_at(tokens, q);
    if g < 41 {
        return Err(ParseError::NoProgram(q));
    }
    if g > 46 {
        return Err(ParseError::NoProgram(q));
    }
    let b = quantity(tokens, words, q + 1, m, d);
    join(words, 28, m, g - 41, b)
}

// A sum, or two with / between them.
#[cycle(applied_comparison_conjunction_disjunction_figures_group_implication_negation_primary_quantifier_quantity_relations_sum_summand)]
pub fn quantity(tokens: &[u64], words: &mut [u64], p: usize, n: usize, d: usize) -> Answer
    requires { Room tokens.now (length words.old) p n d }
    ensures { IsQuantity tokens.now p n d words.old words.new result }
{
    let (q, m) = sum(tokens, words, p, n, d)?;
    if kind_at(tokens, q) != 52 {
        return Ok((q, m));
    }
    let b = sum(tokens, words, q + 1, m, d);
    join(words, 27, m, 0, b)
}

// Summands with + between them, of which k may still come.
#[cycle(applied_comparison_conjunction_disjunction_figures_group_implication_negation_primary_quantifier_quantity_relations_sum_summand)]
fn sum(tokens: &[u64], words: &mut [u64], p: usize, n: usize, d: usize) -> Answer
    requires { Room tokens.now (length words.old) p n d }
    ensures { IsSum tokens.now p n d words.old words.new result }
{
    let (mut q, mut m) = summand(tokens, words, p, n, d)?;
    let mut k = 7usize;
    while kind_at(tokens, q) == 51 {
        if k == 0 {
            return ninth(tokens, q + 1);
        }
        let b = summand(tokens, words, q + 1, m, d);
        (q, m) = join(words, 26, m, 0, b)?;
        k -= 1;
    }
    Ok((q, m))
}

// #(e) or a literal.
#[cycle(applied_comparison_conjunction_disjunction_figures_group_implication_negation_primary_quantifier_quantity_relations_sum_summand)]
fn summand(tokens: &[u64], words: &mut [u64], p: usize, n: usize, d: usize) -> Answer
    requires { Room tokens.now (length words.old) p n d }
    ensures { IsSummand tokens.now p n d words.old words.new result }
{
    if kind_at(tokens, p) == 50 {
        applied(tokens, words, p, n, d, 24)
    } else {
        literal(tokens, words, p, n)
    }
}

// An implication, or two with a sign between them.
#[cycle(applied_comparison_conjunction_disjunction_figures_group_implication_negation_primary_quantifier_quantity_relations_sum_summand)]
fn relations(tokens: &[u64], words: &mut [u64], p: usize, n: usize, d: usize) -> Answer
    requires { NoQuantity (kind_in tokens.now p) × Room tokens.now (length words.old) p n d }
    ensures { IsExpression tokens.now p n d words.old words.new result }
{
    let (q, m) = implication(tokens, words, p, n, d)?;
    let g = kind_at(tokens, q);
    if g < 41 {
        return Ok((q, m));
    }
    if g > 46 {
        return Ok((q, m));
    }
    let b = implication(tokens, words, q + 1, m, d);
    join(words, 22, m, g - 41, b)
}

// A disjunction, or two with -> or <-> between them.
#[cycle(applied_comparison_conjunction_disjunction_figures_group_implication_negation_primary_quantifier_quantity_relations_sum_summand)]
fn implication(tokens: &[u64], words: &mut [u64], p: usize, n: usize, d: usize) -> Answer
    requires { Room tokens.now (length words.old) p n d }
    ensures { IsImplication tokens.now p n d words.old words.new result }
{
    let (q, m) = disjunction(tokens, words, p, n, d)?;
    match kind_at(tokens, q) {
        12 => {
            let b = disjunction(tokens, words, q + 1, m, d);
            join(words, 17, m, 0, b)
        }
        13 => {
            let b = disjunction(tokens, words, q + 1, m, d);
            join(words, 18, m, 0, b)
        }
        _ => Ok((q, m)),
    }
}

// Conjunctions with | between them.
#[cycle(applied_comparison_conjunction_disjunction_figures_group_implication_negation_primary_quantifier_quantity_relations_sum_summand)]
fn disjunction(tokens: &[u64], words: &mut [u64], p: usize, n: usize, d: usize) -> Answer
    requires { Room tokens.now (length words.old) p n d }
    ensures { IsDisjunction tokens.now p n d words.old words.new result }
{
    let (mut q, mut m) = conjunction(tokens, words, p, n, d)?;
    while kind_at(tokens, q) == 10 {
        let b = conjunction(tokens, words, q + 1, m, d);
        (q, m) = join(words, 16, m, 0, b)?;
    }
    Ok((q, m))
}

// Negations with & between them.
#[cycle(applied_comparison_conjunction_disjunction_figures_group_implication_negation_primary_quantifier_quantity_relations_sum_summand)]
fn conjunction(tokens: &[u64], words: &mut [u64], p: usize, n: usize, d: usize) -> Answer
    requires { Room tokens.now (length words.old) p n d }
    ensures { IsConjunction tokens.now p n d words.old words.new result }
{
    let (mut q, mut m) = negation(tokens, words, p, n, d)?;
    while kind_at(tokens, q) == 9 {
        let b = negation(tokens, words, q + 1, m, d);
        (q, m) = join(words, 15, m, 0, b)?;
    }
    Ok((q, m))
}

// ! and what it denies, or a primary.
#[cycle(applied_comparison_conjunction_disjunction_figures_group_implication_negation_primary_quantifier_quantity_relations_sum_summand)]
fn negation(tokens: &[u64], words: &mut [u64], p: usize, n: usize, d: usize) -> Answer
    requires { Room tokens.now (length words.old) p n d }
    ensures { IsNegation tokens.now p n d words.old words.new result }
{
    if kind_at(tokens, p) != 11 {
        return primary(tokens, words, p, n, d);
    }
    if d >= 32 {
        return Err(ParseError::TooMuch(p));
    }
    let a = negation(tokens, words, p + 1, n, d + 1);
    wrap(words, 14, a)
}

// A bracketed expression, a quantifier, a closure or an atom.
#[cycle(applied_comparison_conjunction_disjunction_figures_group_implication_negation_primary_quantifier_quantity_relations_sum_summand)]
fn primary(tokens: &[u64], words: &mut [u64], p: usize, n: usize, d: usize) -> Answer
    requires { Room tokens.now (length words.old) p n d }
    ensures { IsPrimary tokens.now p n d words.old words.new result }
{
    match kind_at(tokens, p) {
        0 => group(tokens, words, p, n, d),
        19 => quantifier(tokens, words, p, n, d, 19),
        22 => quantifier(tokens, words, p, n, d, 20),
        35 | 36 => applied(tokens, words, p, n, d, 21),
        _ => atom(tokens, words, p, n),
    }
}

#[cycle(applied_comparison_conjunction_disjunction_figures_group_implication_negation_primary_quantifier_quantity_relations_sum_summand)]
fn group(tokens: &[u64], words: &mut [u64], p: usize, n: usize, d: usize) -> Answer
    requires { (kind_in tokens.now p ≡ 0) × Room tokens.now (length words.old) p n d }
    ensures { IsPrimary tokens.now p n d words.old words.new result }
{
    if d >= 32 {
        return Err(ParseError::TooMuch(p));
    }
    let a = comparison(tokens, words, p + 1, n, d + 1);
    close(tokens, 1, a)
}

#[cycle(applied_comparison_conjunction_disjunction_figures_group_implication_negation_primary_quantifier_quantity_relations_sum_summand)]
fn quantifier(tokens: &[u64], words: &mut [u64], p: usize, n: usize, d: usize, kind: u64) -> Answer
    requires { Quantifier (kind_in tokens.now p) kind × Room tokens.now (length words.old) p n d }
    ensures { IsPrimary tokens.now p n d words.old words.new result }
{
    if d >= 32 {
        return Err(ParseError::TooMuch(p));
    }
    let (q, m) = attributes(tokens, words, p + 1, n)?;
    let a = comparison(tokens, words, q, m, d + 1);
    let b = close(tokens, 1, a);
    bind(words, kind, n, m, b)
}

// TC, TCFAST or # at p: the expression in brackets behind it, and the word over that, of the given kind.
#[cycle(applied_comparison_conjunction_disjunction_figures_group_implication_negation_primary_quantifier_quantity_relations_sum_summand)]
fn applied(tokens: &[u64], words: &mut [u64], p: usize, n: usize, d: usize, kind: u64) -> Answer
    requires { Applies (kind_in tokens.now p) kind × Room tokens.now (length words.old) p n d }
    ensures { Applied tokens.now p n d kind words.old words.new result }
{
    if d >= 32 {
        return Err(ParseError::TooMuch(p));
    }
    if kind_at(tokens, p + 1) != 0 {
        return Err(ParseError::NoProgram(p + 1));
    }
    let a = comparison(tokens, words, p + 2, n, d + 1);
    let b = close(tokens, 1, a);
    wrap(words, kind, b)
}
