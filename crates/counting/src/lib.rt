// The numbers of tuples of the relations without a store: each fact is a number, the different ones are counted relation by relation.
#![tactic(auto)]

ghost use Rattle.std.specs.Prelude.{◌≡◌, List, ◌++◌, ◌+◌, ◌≤◌, length, take, replicate};
ghost use Rattle.definition.specs.Limits.{FACT_BYTES, document_01};
ghost use Rattle.definition.specs.Facts.{Fact};
ghost use Rattle.definition.specs.Accept.{Accepted};
ghost use Rattle.definition.specs.Assignment.{loaded};
ghost use Rattle.definition.specs.Claim.{table_image};
ghost use Rattle.definition.specs.Calls.{counts};
ghost use Rattle.definition.proofs.InLaws.{In};
ghost use Rattle.facts.specs.Lines.{AllWithin};
ghost use Rattle.facts.specs.Words.{fact_at};
ghost use Rattle.facts.specs.Reading.{all_facts};
ghost use Rattle.numbers.specs.Sets.{Ascending};
ghost use Rattle.loading.specs.Given.{Known, Stated};
ghost use Rattle.counting.specs.Tallies.{tallied};
ghost use Rattle.counting.specs.FactNumbers.{fact_number, number_set};

use facts::{FactLine, next_fact};
use hints::hints_of;
use loading::fact_tuple;
use numbers::enter;
use parts::{index_of, packed};
use tuples::tuple_number;

// The number of a fact of the line that starts at a: its relation × 2 ^ 24, and the number of its tuple.
fn fact_number<'a>(
    facts: &'a [u8],
    query: &'a [u8],
    relations: &[usize],
    places: &[usize],
    hints: &[u8; 256],
    a: usize,
    f: FactLine,
) -> u32
    requires { (length relations.now ≤ 16) × (length places.now ≤ 64) × (a ≤ FACT_BYTES) × AllWithin FACT_BYTES f }
    ensures { (w : Accepted) → Stated facts.now query.now relations.now places.now w → In (fact_at facts.now a f) w.facts → result ≡ fact_number w (fact_at facts.now a f) }
{
    let n = f.arity;
    let k = index_of(facts, query, relations, packed(0, a, f.name_len, n));
    let t = fact_tuple(facts, query, places, hints, a, f);
    let i = tuple_number(places.len() as u8, n, t);
    (k * 16777216 + i % 16777216) as u32
}

// Enters the numbers of all facts into the set of the first n words, and answers how many it then has. A fact takes two bytes at least, so half as many words more do.
pub fn enter_facts<'a>(
    facts: &'a [u8],
    query: &'a [u8],
    relations: &[usize],
    places: &[usize],
    words: &mut [u32],
    n: usize,
) -> usize
    requires { (length facts.now ≤ FACT_BYTES) × (length relations.now ≤ 16) × (length places.now ≤ 64) × (n + 16384 ≤ length words.old) × Ascending (take n words.old) }
    ensures value { (w : Accepted) → Stated facts.now query.now relations.now places.now w → (gs : List Fact) → take n words.old ≡ number_set w gs → ((g : Fact) → In g (all_facts facts.now) → In g w.facts) → take result words.new ≡ number_set w (gs ++ all_facts facts.now) }
    ensures within { result ≤ n + 16384 }
    ensures ascending { Ascending (take result words.new) }
{
    let hints = hints_of(facts, query, places);
    let mut count = n;
    let mut at: usize = 0;
    while let Some((a, f, next)) = next_fact(facts, at) {
        let v = fact_number(facts, query, relations, places, &hints, a, f);
        count = enter(words, count, v);
        at = next;
    }
    count
}

// How many of some numbers each of 16 relations has.
fn tally(numbers: &[u32]) -> [usize; 16]
    requires { length numbers.now ≤ 16384 }
    ensures { result ≡ tallied numbers.now (replicate 16 0) }
{
    let mut counts = [0usize; 16];
    for n in numbers {
        counts[(n / 16777216 % 16) as usize] += 1;
    }
    counts
}

// The numbers of tuples of the relations, as the facts load them.
pub fn count_facts<'a>(
    facts: &'a [u8],
    query: &'a [u8],
    relations: &[usize],
    places: &[usize],
) -> [usize; 16]
    requires { (length facts.now ≤ FACT_BYTES) × (length relations.now ≤ 16) × (length places.now ≤ 64) }
    ensures { (w : Accepted) → Known facts.now query.now relations.now places.now w → result ≡ counts document_01 w (table_image (loaded w)) }
{
    let mut words = [0u32; 16384];
    let n = enter_facts(facts, query, relations, places, &mut words, 0);
    tally(&words[..n])
}
