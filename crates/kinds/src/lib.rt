// Kinds of names: rows 11, 5 and 6 in one walk over the words of a program.
#![tactic(auto)]

ghost use Rattle.std.specs.Prelude.{◌≡◌, ◌+◌, ◌≤◌, ◌<◌, length, get_or, set, take, List, map, ℕ};
ghost use Rattle.definition.specs.Limits.{document_01};
ghost use Rattle.definition.specs.Token.{Token};
ghost use Rattle.definition.specs.Syntax.{Program};
ghost use Rattle.definition.specs.Names.{in_program, use_names, fact_kinds};
ghost use Rattle.facts.specs.Words.{relation_of};
ghost use Rattle.kinds.specs.Resolved.{Parsed, Resolved, fact_code, FactsKnown};
ghost use Rattle.kinds.specs.Walk.{relation_rule, attribute_rule, turn_rule, bind_rule, rule_of, state, use_at, step, walk, meets};

use definition::Refusal;
use words::{put_at, word_at};

// What the use of a name leads to: what is known of it then, a new relation of so many terms, or row 11 or 5.
#[derive(Clone, Copy)]
pub enum Rule {
    Keep(u64),
    Fresh(u64),
    Kind,
    Arity,
}

fn put_relation(s: &mut [usize], i: usize, v: usize)
    ensures { s.new ≡ set s.old i v }
{
    if i < s.len() {
        s[i] = v;
    }
}

// "An identifier before "(" is a relation": one of n terms, of which k is known.
fn relation_rule(k: u64, n: u64) -> Rule
    ensures { result ≡ relation_rule k n }
{
    if k == 0 {
        if 3 < n {
            return Rule::Arity;
        }
        return Rule::Fresh(n);
    }
    if k < 4 {
        return Rule::Kind;
    }
    if k % 4 == n {
        return Rule::Keep(k);
    }
    Rule::Arity
}

// A left-hand term or a quantified attribute.
fn attribute_rule(k: u64) -> Rule
    ensures { result ≡ attribute_rule k }
{
    if k < 2 {
        return Rule::Keep(1);
    }
    Rule::Kind
}

// A loop variable of which `from` must be known, and `to` is then.
fn turn_rule(k: u64, from: u64, to: u64) -> Rule
    ensures { result ≡ turn_rule k from to }
{
    if k == from {
        return Rule::Keep(to);
    }
    Rule::Kind
}

// After FOR: "not bound again there".
fn bind_rule(k: u64) -> Rule
    ensures { result ≡ bind_rule k }
{
    if k == 0 {
        return Rule::Keep(2);
    }
    if k == 2 {
        return Rule::Keep(2);
    }
    Rule::Kind
}

// What the use of a name leads to, of which k is known.
fn judge(k: u64, role: u64, n: u64) -> Rule
    ensures { result ≡ rule_of k role n }
{
    if role == 1 {
        return relation_rule(k, n);
    }
    if role == 2 {
        return attribute_rule(k);
    }
    if role == 3 {
        if k == 3 {
            return Rule::Keep(3);
        }
        return attribute_rule(k);
    }
    // An item or a label: "s a string or loop variable".
    if role == 4 {
        return turn_rule(k, 3, 3);
    }
    if role == 5 {
        return bind_rule(k);
    }
    // The loop's block begins, and ends.
    if role == 6 {
        return turn_rule(k, 2, 3);
    }
    turn_rule(k, 3, 2)
}

// One use of a name, at token t: the number of relations then.
fn use_at(
    tokens: &[u64],
    ids: &[u64],
    known: &mut [u64],
    relations: &mut [usize],
    count: usize,
    role: u64,
    t: usize,
    n: u64,
) -> Result<usize, Refusal>
    requires { count ≤ 16 }
    ensures { meets (use_at tokens.now ids.now (state known.old relations.old count) role t n) known.new relations.new result }
{
    let w = word_at(tokens, t);
    let j = word_at(ids, t) as usize;
    let k = word_at(known, j);
    let at = (w / 4096) as usize;
    let a = judge(k, role, n);
    match a {
        Rule::Keep(v) => {
            put_at(known, j, v);
            Ok(count)
        }
        Rule::Fresh(m) => {
            if 16 <= count {
                return Err(Refusal::TooManyRelations(at));
            }
            put_at(known, j, 4 + (count as u64) * 4 + m);
            put_relation(
                relations,
                count,
                at * 512 + (w / 64 % 64) as usize * 8 + 4 + m as usize,
            );
            Ok(count + 1)
        }
        Rule::Kind => Err(Refusal::Kind(at)),
        Rule::Arity => Err(Refusal::Arity(at)),
    }
}

// One word.
fn use_word(
    tokens: &[u64],
    ids: &[u64],
    known: &mut [u64],
    relations: &mut [usize],
    count: usize,
    w: u64,
) -> Result<usize, Refusal>
    requires { count ≤ 16 }
    ensures { meets (step tokens.now ids.now (state known.old relations.old count) w) known.new relations.new result }
{
    let kind = w % 256;
    if kind == 0 {
        return Ok(count);
    }
    if 7 < kind {
        return Ok(count);
    }
    use_at(
        tokens,
        ids,
        known,
        relations,
        count,
        kind,
        (w / 256 % 65536) as usize,
        w / 16777216 % 65536,
    )
}

// All words.
fn use_all(
    words: &[u64],
    tokens: &[u64],
    ids: &[u64],
    known: &mut [u64],
    relations: &mut [usize],
    given: usize,
) -> Result<usize, Refusal>
    requires { given ≤ 16 }
    ensures { meets (walk tokens.now ids.now words.now (state known.old relations.old given)) known.new relations.new result }
{
    let mut count = given;
    for &w in words {
        count = use_word(tokens, ids, known, relations, count, w)?;
    }
    Ok(count)
}

// What is known before the walk of the name with the number i: "facts come first".
fn fact_code(relations: &[usize], i: usize) -> u64
    ensures { result ≡ fact_code relations.now i }
{
    if i < relations.len() {
        return 4 + (i as u64) * 4 + (relations[i] % 4) as u64;
    }
    0
}

fn know_facts(relations: &[usize], known: &mut [u64])
    ensures { FactsKnown relations.now known.new (length known.new) }
{
    for (i, k) in known.iter_mut().enumerate() {
        *k = fact_code(relations, i);
    }
}

// The kinds of the names of a program, over the facts' relations, which are given first, and how many relations there are; "11, 5, 6 by token".
pub fn resolve<'a>(
    facts: &'a [u8],
    query: &'a [u8],
    tokens: &[u64],
    words: &[u64],
    ids: &mut [u64],
    known: &mut [u64],
    relations: &mut [usize],
    given: usize,
) -> Result<usize, Refusal>
    requires given_bound { (given ≤ 16) × (length relations.old ≡ 16) }
    requires tokens_in_bounds { (length tokens.now ≤ length ids.old) × (given + length tokens.now ≤ length known.old) }
    ensures kinds { (ts : List Token) (p : Program) → Parsed query.now tokens.now words.now ts p → Resolved facts.now query.now tokens.now ids.new known.new relations.new result (use_names document_01 (in_program p) (fact_kinds (map (relation_of facts.now query.now) (take given relations.old)))) }
    ensures numbers { (t : ℕ) → t < length tokens.now → get_or ids.new t 0 < given + length tokens.now }
{
    intern::intern(facts, query, &relations[..given], tokens, ids);
    know_facts(&relations[..given], known);
    use_all(words, tokens, ids, known, relations, given)
}
