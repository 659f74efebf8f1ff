// The chain call: the facts are read, the rows of the name's pairs are filled, and the first chain is searched in them.
#![tactic(auto)]

ghost use Rattle.std.specs.Prelude.{◌≡◌, ℕ, ◌-◌, ◌<◌, ◌≤◌, List, eqb, length, replicate};
ghost use Rattle.definition.specs.Text.{some_of};
ghost use Rattle.definition.specs.Limits.{FACT_BYTES, document_01};
ghost use Rattle.definition.specs.Facts.{arities};
ghost use Rattle.definition.specs.Calls.{ChainMeets, chain_meets};
ghost use Rattle.facts.specs.Lines.{AllWithin};
ghost use Rattle.facts.specs.Words.{element_at, fact_at, relations_of};
ghost use Rattle.facts.specs.Reading.{all_facts};
ghost use Rattle.chain.specs.Fill.{with_pair, with_fact, fill};
ghost use Rattle.chain.specs.Asking.{asked_between, asked, facts_in, AreRead};

use bits::set_bit;
use chains::find_chain;
use definition::Refusal;
use facts::{FactLine, Item, next_fact, read_facts, value_start};
use parts::{part, position_of};
use texts::same;

// Whether there is a binary relation of the name.
fn is_binary(facts: &[u8], relations: &[usize], name: &[u8]) -> bool
    ensures { result ≡ some_of (eqb 2) (arities name.now (relations_of facts.now facts.now relations.now)) }
{
    let k = position_of(facts, facts, relations, name);
    if k < relations.len() {
        return 2 == relations[k] % 4;
    }
    false
}

// The value of an element of the line that starts at a.
fn value_of(facts: &[u8], a: usize, x: Item) -> &[u8]
    requires { (a ≤ FACT_BYTES) × (x.place ≤ FACT_BYTES) }
    ensures { result.now ≡ (element_at facts.now a x).value }
{
    part(facts, a + value_start(x), x.len)
}

// Adds the pair of a and b to the rows, unless one of them is no element's number.
fn add_pair(rows: &mut [u64], a: usize, b: usize)
    ensures { rows.new ≡ with_pair rows.old a b }
{
    if rows.len() <= a {
        return;
    }
    if rows.len() <= b {
        return;
    }
    rows[a] = set_bit(rows[a], b as u64);
}

// Adds the pair of a fact of the line that starts at a, if it is a binary one of the name.
fn add_fact(facts: &[u8], universe: &[usize], name: &[u8], a: usize, f: FactLine, rows: &mut [u64])
    requires { (a ≤ length facts.now) × (length facts.now ≤ FACT_BYTES) × AllWithin (length facts.now - a) f }
    ensures { rows.new ≡ with_fact facts.now universe.now name.now rows.old (fact_at facts.now a f) }
{
    if !same(name, part(facts, a, f.name_len)) {
        return;
    }
    if f.arity != 2 {
        return;
    }
    let x = position_of(facts, facts, universe, value_of(facts, a, f.first));
    let y = position_of(facts, facts, universe, value_of(facts, a, f.second));
    add_pair(rows, x, y);
}

// Adds the pairs of all facts of the name.
fn fill_rows(facts: &[u8], universe: &[usize], name: &[u8], rows: &mut [u64])
    requires { length facts.now ≤ FACT_BYTES }
    ensures { rows.new ≡ fill facts.now universe.now name.now rows.old (all_facts facts.now) }
{
    let mut at: usize = 0;
    while let Some((a, f, next)) = next_fact(facts, at) {
        add_fact(facts, universe, name, a, f, rows);
        at = next;
    }
}

// The chain between two elements, for which zero rows are lent: row 17.
fn chain_between(
    facts: &[u8],
    universe: &[usize],
    name: &[u8],
    a: usize,
    b: usize,
    rows: &mut [u64],
    buffer: &mut [u8],
) -> Result<usize, Refusal>
    requires by_index { (rs : List ℕ) × AreRead facts.now rs universe.now }
    requires rows_value { (rows.old ≡ replicate (length universe.now) 0) × (a < length universe.now) × (b < length universe.now) × (65 ≤ length buffer.old) }
    ensures { (rs : List ℕ) → chain_meets (asked_between (facts_in facts.now rs universe.now) name.now a b) name.now buffer.old result buffer.new }
{
    fill_rows(facts, universe, name, rows);
    find_chain(rows, a, b, buffer)
}

// The chain in facts that are read: rows 15 to 17.
fn chain_in(
    facts: &[u8],
    relations: &[usize],
    universe: &[usize],
    name: &[u8],
    first: &[u8],
    second: &[u8],
    buffer: &mut [u8],
) -> Result<usize, Refusal>
    requires { AreRead facts.now relations.now universe.now }
    ensures { chain_meets (asked (facts_in facts.now relations.now universe.now) name.now first.now second.now (length buffer.old)) name.now buffer.old result buffer.new }
{
    if !is_binary(facts, relations, name) {
        return Err(Refusal::NotInFacts);
    }
    let u = universe.len();
    let a = position_of(facts, facts, universe, first);
    if a == u {
        return Err(Refusal::NotInFacts);
    }
    let b = position_of(facts, facts, universe, second);
    if b == u {
        return Err(Refusal::NotInFacts);
    }
    if buffer.len() < 65 {
        return Err(Refusal::BufferShort);
    }
    let mut rows = [0u64; 64];
    chain_between(facts, universe, name, a, b, &mut rows[..u], buffer)
}

// "chain(facts, name, first, second, buffer)"; on refusal the buffer stays.
pub fn chain(
    facts: &[u8],
    name: &[u8],
    first: &[u8],
    second: &[u8],
    buffer: &mut [u8],
) -> Result<usize, Refusal>
    ensures { ChainMeets document_01 facts.now name.now first.now second.now buffer.old result buffer.new }
{
    let mut relations = [0usize; 16];
    let mut universe = [0usize; 64];
    let c = read_facts(facts, facts, &mut relations, &mut universe)?;
    chain_in(
        facts,
        &relations[..c.relations],
        &universe[..c.elements],
        name,
        first,
        second,
        buffer,
    )
}
