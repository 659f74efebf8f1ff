// The calls of the calculator: check and run. None of them keeps anything: all work arrays are locals.
#![tactic(auto)]

ghost use Rattle.std.specs.Prelude.{ℕ, ◌≤◌, ◌<◌, ◌≡◌, List, length};
ghost use Rattle.definition.specs.Limits.{document_01, FACT_BYTES};
ghost use Rattle.definition.specs.Answer.{refused, number, place};
ghost use Rattle.definition.specs.Accept.{Accepted, accept};
ghost use Rattle.definition.specs.Calls.{CheckMeets, RunMeets, CountsMeet};
ghost use Rattle.free.specs.Words.{Small};
ghost use Rattle.coding.specs.Pass.{Passed};
ghost use Rattle.loading.specs.Given.{Known};
ghost use Rattle.layout.specs.Sizes.{LaidOut};
ghost use Rattle.engine.specs.Begun.{Begun, NotRun, Answered, no_depths};
ghost use Rattle.engine.specs.Given.{Given, Prepared};

use acceptance::{Sizes, accept};
use coding::lower;
use counting::count_facts;
use counts::count_all;
use definition::{Checked, Figures, Refusal, RunAnswer, Stopped};
use layout::{Room, lay, records};
use loading::load_facts;
use machine::{Machine, go};

// The answer of the check where the texts are refused.
fn not_passed<'a>(facts: &'a [u8], query: &'a [u8], q: Refusal) -> Checked
    ensures { accept document_01 facts.now query.now ≡ refused (number q) (place q) → CheckMeets document_01 facts.now query.now result }
{
    let none = [0usize; 1];
    Checked {
        verdict: Err(q),
        records: records(facts, query, &none[..0], 0, [0usize; 16]),
    }
}

// The answer of the check where the texts are accepted, with some relations and elements.
fn passed<'a>(facts: &'a [u8], query: &'a [u8], relations: &[usize], places: &[usize]) -> Checked
    requires { (length relations.now ≤ 16) × (length places.now ≤ 64) × (length facts.now ≤ FACT_BYTES) }
    ensures { (w : Accepted) → Known facts.now query.now relations.now places.now w → CheckMeets document_01 facts.now query.now result }
{
    let u = places.len() as u8;
    let mut firsts = [0u64; 32];
    let l = lay(relations, u, &mut firsts);
    let f = Figures {
        universe: places.len(),
        words: l.words,
        relations: relations.len(),
    };
    let sizes = count_facts(facts, query, relations, places);
    Checked {
        verdict: Ok(f),
        records: records(facts, query, relations, u, sizes),
    }
}

// The words of the program, lowered.
fn translate<'a>(
    facts: &'a [u8],
    query: &'a [u8],
    tokens: &[u64],
    words: &[u64],
    ids: &[u64],
    known: &[u64],
    places: &[usize],
    u: u8,
    low: &mut [u64],
)
    requires { (length tokens.now ≤ 2048) × (length words.now ≤ 2048) × (length low.old ≡ 2048) }
    ensures { Passed facts.now query.now places.now tokens.now ids.now known.now words.now low.new u no_depths }
{
    let mut depths = [0u64; 2064];
    let mut codes = [0u64; 2048];
    let mut fr = [0u64; 2048];
    lower(
        facts,
        query,
        places,
        tokens,
        words,
        ids,
        known,
        &mut depths,
        &mut codes,
        &mut fr,
        low,
        u,
    );
}

// Both texts, and the words of an accepted query lowered. The work arrays stand here alone, so that they take no stack while it runs; until
// the words are lowered, their place serves as one more.
fn read<'a>(
    facts: &'a [u8],
    query: &'a [u8],
    relations: &mut [usize],
    places: &mut [usize],
    low: &mut [u64],
) -> Result<Sizes, Refusal>
    requires relations_len { (length relations.old ≡ 16) × (length places.old ≡ 64) × (length low.old ≡ 2048) }
    requires small { Small low.old }
    ensures { Prepared facts.now query.now relations.new places.new low.new result }
{
    let mut tokens = [0u64; 2048];
    let mut words = [0u64; 2048];
    let mut ids = [0u64; 2048];
    let mut known = [0u64; 2064];
    let s = accept(
        facts,
        query,
        &mut tokens,
        &mut words,
        &mut ids,
        &mut known,
        low,
        relations,
        places,
    )?;
    translate(
        facts,
        query,
        &tokens[..s.tokens],
        &words[..s.words],
        &ids,
        &known,
        &places[..s.elements],
        s.elements as u8,
        low,
    );
    Ok(s)
}

// Whether the texts are accepted, and what their tables need.
pub fn check<'a>(facts: &'a [u8], query: &'a [u8]) -> Checked
    ensures { CheckMeets document_01 facts.now query.now result }
{
    let mut relations = [0usize; 16];
    let mut places = [0usize; 64];
    let mut low = [0u64; 2048];
    match read(facts, query, &mut relations, &mut places, &mut low) {
        Err(q) => not_passed(facts, query, q),
        Ok(s) => passed(
            facts,
            query,
            &relations[..s.relations],
            &places[..s.elements],
        ),
    }
}

// The answer of a run that is refused.
fn not_run(q: Refusal) -> RunAnswer
    ensures { NotRun q result }
{
    RunAnswer {
        ran: Err(q),
        counts: [0usize; 16],
    }
}

// The step loop from the start, over lowered words and loaded tables, which have `sizes` tuples.
fn steps<'a>(
    facts: &'a [u8],
    query: &'a [u8],
    low: &[u64],
    firsts: &[u64],
    places: &[usize],
    u: u8,
    scratch: usize,
    sizes: [usize; 16],
    budget: u32,
    store: &mut [u64],
    output: &mut [u8],
) -> RunAnswer
    requires { u < 65 }
    ensures { (w : Accepted) (store₀ : List ℕ) → Begun facts.now query.now low.now firsts.now places.now u scratch sizes store₀ store.old w → Answered facts.now query.now budget store₀ output.old result store.new output.new }
{
    let mut sets = [0u64; 32];
    let mut cursors = [0u8; 32];
    let mut vars = [0u8; 32];
    let mut counts = sizes;
    let m = Machine {
        pc: 0,
        steps: 0,
        used: 0,
    };
    let r = go(
        low,
        firsts,
        u,
        scratch,
        facts,
        query,
        places,
        store,
        output,
        &mut sets,
        &mut cursors,
        &mut vars,
        &mut counts,
        m,
        budget,
    );
    let ending = r.ending;
    RunAnswer {
        ran: Ok(Stopped {
            ending,
            steps: r.machine.steps,
            written: r.machine.used,
        }),
        counts,
    }
}

// The run of accepted texts, whose tables have their places in the store: the facts loaded, their tuples counted, then step by step.
fn from_facts<'a>(
    facts: &'a [u8],
    query: &'a [u8],
    relations: &[usize],
    places: &[usize],
    low: &[u64],
    firsts: &[u64],
    room: Room,
    budget: u32,
    store: &mut [u64],
    output: &mut [u8],
) -> RunAnswer
    requires relations_len_bound { (length relations.now ≤ 16) × (length places.now ≤ 64) × (length facts.now ≤ FACT_BYTES) }
    requires words_in_bounds { room.words ≤ length store.old }
    ensures { (w : Accepted) → Given facts.now query.now relations.now places.now low.now w → LaidOut w firsts.now room.scratch room.words → Answered facts.now query.now budget store.old output.old result store.new output.new }
{
    let u = places.len() as u8;
    load_facts(
        facts, query, relations, places, firsts, u, room.words, store,
    );
    let sizes = count_all(store, relations, u);
    steps(
        facts,
        query,
        low,
        firsts,
        places,
        u,
        room.scratch,
        sizes,
        budget,
        store,
        output,
    )
}

// Row 14, and the run of accepted texts.
fn with_texts<'a>(
    facts: &'a [u8],
    query: &'a [u8],
    relations: &[usize],
    places: &[usize],
    low: &[u64],
    budget: u32,
    store: &mut [u64],
    output: &mut [u8],
) -> RunAnswer
    requires { (length relations.now ≤ 16) × (length places.now ≤ 64) × (length facts.now ≤ FACT_BYTES) }
    ensures { (w : Accepted) → Given facts.now query.now relations.now places.now low.now w → Answered facts.now query.now budget store.old output.old result store.new output.new }
{
    let mut firsts = [0u64; 32];
    let room = lay(relations, places.len() as u8, &mut firsts);
    if store.len() < room.words {
        return not_run(Refusal::StoreShort(room.words));
    }
    from_facts(
        facts, query, relations, places, low, &firsts, room, budget, store, output,
    )
}

// Runs the query over the facts in the lent store and output, within the budget of steps; the counts are those of the store as it leaves it.
pub fn run<'a>(
    facts: &'a [u8],
    query: &'a [u8],
    budget: u32,
    store: &mut [u64],
    output: &mut [u8],
) -> RunAnswer
    ensures run_meets { RunMeets document_01 facts.now query.now budget store.old output.old result.ran store.new output.new }
    ensures counts_meet { CountsMeet document_01 facts.now query.now store.old result.counts store.new }
{
    let mut relations = [0usize; 16];
    let mut places = [0usize; 64];
    let mut low = [0u64; 2048];
    match read(facts, query, &mut relations, &mut places, &mut low) {
        Err(q) => not_run(q),
        Ok(s) => with_texts(
            facts,
            query,
            &relations[..s.relations],
            &places[..s.elements],
            &low[..s.words],
            budget,
            store,
            output,
        ),
    }
}
