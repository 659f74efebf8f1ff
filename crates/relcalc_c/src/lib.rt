// The calls of the calculator for hosts in C, Rust and Python. Answers are structs of numbers.
#![tactic(auto)]

ghost use Rattle.std.specs.Prelude.{◌≡◌};
ghost use Rattle.definition.specs.Limits.{document_01};
ghost use Rattle.definition.specs.Calls.{element};
ghost use Rattle.fields.specs.Fields.{part_fields};
ghost use Rattle.relcalc_c.specs.Answers.{CheckAnswers, RunAnswers, ChainAnswers, JoinAnswers};

use fields::{CChained, CChecked, CJoined, CPart, CRan};

// Whether a run would accept the texts with store enough, and what it needs.
#[unsafe(no_mangle)]
pub extern "C" fn relcalc_check<'a>(facts: &'a [u8], query: &'a [u8]) -> CChecked
    ensures { CheckAnswers facts.now query.now result }
{
    fields::checked_fields(engine::check(facts, query))
}

// Runs the query over the facts in the lent store and output, within the budget of steps; on refusal both stay.
#[unsafe(no_mangle)]
pub extern "C" fn relcalc_run<'a>(
    facts: &'a [u8],
    query: &'a [u8],
    budget: u32,
    store: &mut [u64],
    output: &mut [u8],
) -> CRan
    ensures { RunAnswers facts.now query.now budget store.old output.old result store.new output.new }
{
    fields::ran_fields(engine::run(facts, query, budget, store, output))
}

// The text of element n as a part of the facts or of the query; the empty part at the query's start where there is none.
#[unsafe(no_mangle)]
pub extern "C" fn relcalc_element<'a>(facts: &'a [u8], query: &'a [u8], n: usize) -> CPart
    ensures { result ≡ part_fields (element document_01 facts.now query.now n) }
{
    fields::part_fields(element::word_of(facts, query, n))
}

// A chain of facts of a name between two elements; on refusal the buffer stays.
#[unsafe(no_mangle)]
pub extern "C" fn relcalc_chain(
    facts: &[u8],
    name: &[u8],
    first: &[u8],
    second: &[u8],
    buffer: &mut [u8],
) -> CChained
    ensures { ChainAnswers facts.now name.now first.now second.now buffer.old result buffer.new }
{
    fields::chained_fields(chain::chain(facts, name, first, second, buffer))
}

// Joins two fact texts into the lent output; on refusal it stays.
#[unsafe(no_mangle)]
pub extern "C" fn relcalc_join<'a>(first: &'a [u8], second: &'a [u8], output: &mut [u8]) -> CJoined
    ensures { JoinAnswers first.now second.now output.old result output.new }
{
    fields::joined_fields(join::join(first, second, output))
}
