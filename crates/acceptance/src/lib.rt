// Whether two texts are accepted: the passes over both, in document 01's order, and what they leave in the lent arrays.
#![tactic(auto)]

ghost use Rattle.std.specs.Prelude.{◌≡◌, length};
ghost use Rattle.free.specs.Words.{Small};
ghost use Rattle.acceptance.specs.Reading.{Accepts};

use definition::Refusal;
use facts::read_facts;
use kinds::resolve;
use malformed::pattern_rows;
use parser::read_query;
use rows::program_rows;
use universe::enter_strings;

// How many relations, elements, tokens and words two accepted texts have.
#[derive(Clone, Copy)]
pub struct Sizes {
    pub relations: usize,
    pub elements: usize,
    pub tokens: usize,
    pub words: usize,
}

// Whether both texts are accepted, pass by pass in document 01's order, and what the arrays hold then.
pub fn accept<'a>(
    facts: &'a [u8],
    query: &'a [u8],
    tokens: &mut [u64],
    words: &mut [u64],
    ids: &mut [u64],
    known: &mut [u64],
    fr: &mut [u64],
    relations: &mut [usize],
    places: &mut [usize],
) -> Result<Sizes, Refusal>
    requires relations_len { (length relations.old ≡ 16) × (length places.old ≡ 64) }
    requires tokens_len { (length tokens.old ≡ 2048) × (length words.old ≡ 2048) }
    requires ids_len { (length ids.old ≡ 2048) × ((length known.old ≡ 2064) × (length fr.old ≡ 2048)) }
    requires small { Small fr.old }
    ensures { Accepts facts.now query.now tokens.new words.new ids.new known.new relations.new places.new result }
{
    let c = read_facts(facts, query, relations, places)?;
    let (t, m) = read_query(query, tokens, words)?;
    let read = &tokens[..t];
    let program = &words[..m];
    // 18; then 11, 5 and 6; then 13 and 12 by statement; then 7 for the strings on left-hand sides
    pattern_rows(query, read, program)?;
    let r = resolve(
        facts,
        query,
        read,
        program,
        ids,
        known,
        relations,
        c.relations,
    )?;
    program_rows(program, ids, known, fr)?;
    let u = enter_strings(facts, query, read, program, places, c.elements).map_err(
        Refusal::TooManyElements,
    )?;
    Ok(Sizes {
        relations: r,
        elements: u,
        tokens: t,
        words: m,
    })
}
