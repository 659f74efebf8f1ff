// The facts' tuples into the store: each fact is read again and put into the table of its relation.
#![tactic(auto)]

ghost use Rattle.std.specs.Prelude.{◌≡◌, List, ◌∷◌, ◌+◌, ◌-◌, ◌≤◌, ◌%◌, length, get_or, take, drop, replicate};
ghost use Rattle.std.proofs.lemmas.List.Edits.{sets};
ghost use Rattle.definition.specs.Limits.{FACT_BYTES, WORD_BYTES};
ghost use Rattle.definition.specs.Facts.{Fact, Ascending};
ghost use Rattle.definition.specs.Tables.{table_words};
ghost use Rattle.definition.specs.Accept.{Accepted, words_needed};
ghost use Rattle.definition.specs.Assignment.{loaded};
ghost use Rattle.definition.specs.Claim.{store_image};
ghost use Rattle.tuples.specs.Places.{with_tuple};
ghost use Rattle.parts.specs.Entries.{texts_of};
ghost use Rattle.facts.specs.Lines.{AllWithin};
ghost use Rattle.facts.specs.Words.{fact_at};
ghost use Rattle.loading.specs.Given.{element_number, tuple_at, Ready, Loaded, AllLoaded};

use facts::{FactLine, Item, next_fact, value_start};
use hints::{hinted_position, hints_of};
use parts::{index_of, packed, part};
use scratch::clear;
use tuples::{load, table_words};
use words::word_at;

// The number of an element of the line that starts at a: its index in the universe, which stands in byte order.
fn element_number<'a>(
    facts: &'a [u8],
    query: &'a [u8],
    places: &[usize],
    hints: &[u8; 256],
    a: usize,
    x: Item,
) -> u8
    requires { (a ≤ FACT_BYTES) × (x.place ≤ FACT_BYTES) × (x.len ≤ WORD_BYTES) }
    ensures { Ascending (texts_of facts.now query.now places.now) → result ≡ element_number facts.now query.now places.now a x }
{
    let t = part(facts, a + value_start(x), x.len);
    (hinted_position(facts, query, places, hints, t) % 256) as u8
}

// The tuple of a fact of the line that starts at a: as many elements are looked up as it has.
pub fn fact_tuple<'a>(
    facts: &'a [u8],
    query: &'a [u8],
    places: &[usize],
    hints: &[u8; 256],
    a: usize,
    f: FactLine,
) -> [u8; 4]
    requires { (a ≤ FACT_BYTES) × AllWithin FACT_BYTES f }
    ensures { Ascending (texts_of facts.now query.now places.now) → take f.arity result ≡ tuple_at facts.now query.now places.now a f }
{
    let n = f.arity;
    if n == 0 {
        return [0, 0, 0, 0];
    }
    let first = element_number(facts, query, places, hints, a, f.first);
    if n == 1 {
        return [first, 0, 0, 0];
    }
    let second = element_number(facts, query, places, hints, a, f.second);
    if n == 2 {
        return [first, second, 0, 0];
    }
    let third = element_number(facts, query, places, hints, a, f.third);
    [first, second, third, 0]
}

// Adds a tuple to the table of relation k; one whose words are past the store's end changes nothing.
fn load_at(store: &mut [u64], firsts: &[u64], u: u8, k: usize, n: usize, t: [u8; 4])
    requires { n ≤ 4 }
    ensures value { get_or firsts.now k 0 + table_words u n ≤ length store.old → store.new ≡ sets store.old (get_or firsts.now k 0) (with_tuple u (take (table_words u n) (drop (get_or firsts.now k 0) store.old)) (take n t)) }
    ensures size { length store.new ≡ length store.old }
{
    let off = word_at(firsts, k) as usize;
    let len = table_words(u, n);
    let room = store.len();
    if room < len {
        return;
    }
    if room - len < off {
        return;
    }
    load(store, off, len, u, n, t);
}

// Loads the fact of the line that starts at a.
fn load_fact<'a>(
    facts: &'a [u8],
    query: &'a [u8],
    relations: &[usize],
    places: &[usize],
    firsts: &[u64],
    u: u8,
    hints: &[u8; 256],
    a: usize,
    f: FactLine,
    store: &mut [u64],
)
    requires { (a ≤ FACT_BYTES) × AllWithin FACT_BYTES f }
    ensures value { (w : Accepted) → Ready facts.now query.now relations.now places.now firsts.now u w → (gs : List Fact) → Loaded w (fact_at facts.now a f ∷ gs) store.old → Loaded w gs store.new }
    ensures size { length store.new ≡ length store.old }
{
    let n = f.arity;
    let k = index_of(facts, query, relations, packed(0, a, f.name_len, n));
    let t = fact_tuple(facts, query, places, hints, a, f);
    load_at(store, firsts, u, k, n, t);
}

// Loads all facts into words that are zero.
fn load_words<'a>(
    facts: &'a [u8],
    query: &'a [u8],
    relations: &[usize],
    places: &[usize],
    firsts: &[u64],
    u: u8,
    words: &mut [u64],
)
    requires { length facts.now ≤ FACT_BYTES }
    ensures value { (w : Accepted) → Ready facts.now query.now relations.now places.now firsts.now u w → words.old ≡ replicate (words_needed w) 0 → AllLoaded w words.new }
    ensures size { length words.new ≡ length words.old }
{
    let hints = hints_of(facts, query, places);
    let mut at: usize = 0;
    while let Some((a, f, next)) = next_fact(facts, at) {
        load_fact(
            facts, query, relations, places, firsts, u, &hints, a, f, words,
        );
        at = next;
    }
}

// Loads the facts: the words that the tables need are zeroed and filled; "Later words are unchanged".
pub fn load_facts<'a>(
    facts: &'a [u8],
    query: &'a [u8],
    relations: &[usize],
    places: &[usize],
    firsts: &[u64],
    u: u8,
    needed: usize,
    store: &mut [u64],
)
    requires { (needed ≤ length store.old) × (length facts.now ≤ FACT_BYTES) }
    ensures value { (w : Accepted) → Ready facts.now query.now relations.now places.now firsts.now u w → needed ≡ words_needed w → store.new ≡ store_image w (loaded w) store.old }
    ensures later { drop needed store.new ≡ drop needed store.old }
    ensures size { length store.new ≡ length store.old }
{
    clear(&mut store[..needed]);
    load_words(
        facts,
        query,
        relations,
        places,
        firsts,
        u,
        &mut store[..needed],
    );
}
