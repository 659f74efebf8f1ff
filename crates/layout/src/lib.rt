// Where the tables stand in the store: "Relations stand in the store of 64-bit words in order of first appearance".
#![tactic(auto)]

ghost use Rattle.std.specs.Prelude.{◌≡◌, map, ℕ, ◌+◌, ◌*◌, ◌≤◌, ◌<◌, length, get_or};
ghost use Rattle.definition.specs.Text.{Text};
ghost use Rattle.definition.specs.Limits.{document_01};
ghost use Rattle.definition.specs.Accept.{Accepted, elements};
ghost use Rattle.definition.specs.Assignment.{loaded};
ghost use Rattle.definition.specs.Claim.{table_image};
ghost use Rattle.definition.specs.Calls.{counts, records};
ghost use Rattle.facts.specs.Words.{relation_of};
ghost use Rattle.layout.specs.Sizes.{all_words, most_words, TablesAt, ClosuresAt, LaidOut};
ghost use Rattle.layout.specs.Records.{record_of};

use definition::Record;
use tuples::table_words;

// The first words of the relations' tables, and the words of all of them.
fn lay_tables(relations: &[usize], u: u8, firsts: &mut [u64]) -> usize
    requires { (length relations.now ≤ 16) × (u ≤ 64) × (length firsts.old ≡ 32) }
    ensures value { result ≡ all_words u relations.now }
    ensures firsts { TablesAt u relations.now firsts.new }
    ensures small { result ≤ 4194304 }
{
    let mut next: usize = 0;
    for (i, w) in relations.iter().enumerate() {
        firsts[i] = next as u64;
        next += table_words(u, *w % 4);
    }
    next
}

// The first words of the closures' tables from a word on, and the word after them.
fn lay_closures(from: usize, u: u8, firsts: &mut [u64]) -> usize
    requires { (from ≤ 4194304) × (u ≤ 64) × (length firsts.old ≡ 32) }
    ensures value { result ≡ from + 16 * u }
    ensures small { result ≤ 4195328 }
    ensures firsts { ClosuresAt u from firsts.new }
    ensures before { (i : ℕ) → i < 16 → get_or firsts.new i 0 ≡ get_or firsts.old i 0 }
{
    let mut next = from;
    for c in 0..16 {
        firsts[16 + c] = next as u64;
        next += u as usize;
    }
    next
}

// The words of the largest table.
fn largest(relations: &[usize], u: u8) -> usize
    requires { (length relations.now ≤ 16) × (u ≤ 64) }
    ensures value { result ≡ most_words u relations.now }
    ensures small { result ≤ 262144 }
{
    let mut most: usize = 0;
    for w in relations {
        most = most.max(table_words(u, *w % 4));
    }
    most
}

// The first word of the table that an assignment makes, and the words needed in all.
#[derive(Clone, Copy)]
pub struct Room {
    pub scratch: usize,
    pub words: usize,
}

// Lays out the tables of some relations over u elements.
pub fn lay(relations: &[usize], u: u8, firsts: &mut [u64]) -> Room
    requires { (length relations.now ≤ 16) × (u ≤ 64) × (length firsts.old ≡ 32) }
    ensures { (facts query : Text) (w : Accepted) → map (relation_of facts query) relations.now ≡ w.relations → elements w ≡ u → LaidOut w firsts.new result.scratch result.words }
{
    let from = lay_tables(relations, u, firsts);
    let scratch = lay_closures(from, u, firsts);
    Room {
        scratch,
        words: scratch + largest(relations, u),
    }
}

// The record of the relation whose word is w, whose table starts at first and which has count tuples.
fn record_of<'a>(facts: &'a [u8], query: &'a [u8], w: usize, first: usize, count: usize) -> Record
    ensures { result ≡ record_of (relation_of facts.now query.now w) first count }
{
    Record {
        text: w / 4 % 2,
        offset: w / 512,
        length: parts::text_of(facts, query, w).len(),
        arity: w % 4,
        first,
        count,
    }
}

// The records of some relations over u elements, with the numbers of their tuples; unused ones zero.
pub fn records<'a>(
    facts: &'a [u8],
    query: &'a [u8],
    relations: &[usize],
    u: u8,
    sizes: [usize; 16],
) -> [Record; 16]
    requires { (length relations.now ≤ 16) × (u ≤ 64) }
    ensures { (w : Accepted) → map (relation_of facts.now query.now) relations.now ≡ w.relations → elements w ≡ u → sizes ≡ counts document_01 w (table_image (loaded w)) → result ≡ records document_01 w }
{
    let none = Record {
        text: 0,
        offset: 0,
        length: 0,
        arity: 0,
        first: 0,
        count: 0,
    };
    let mut rs = [none; 16];
    let mut next: usize = 0;
    for (i, w) in relations.iter().enumerate() {
        rs[i] = record_of(facts, query, *w, next, sizes[i]);
        next += table_words(u, *w % 4);
    }
    rs
}
