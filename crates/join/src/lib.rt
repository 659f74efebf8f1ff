// The join call: the second text is read after the first, the facts of both become an ascending set of numbers, and its lines are written.
//
// Of two texts a part has 0 or 1 for the one that it is of. A text is read as text 0, so between the two the parts read so far are turned.
#![tactic(auto)]

ghost use Rattle.std.specs.Prelude.{◌≡◌, ◌++◌, ◌≤◌, length, take};
ghost use Rattle.definition.specs.Limits.{FACT_BYTES, document_01};
ghost use Rattle.definition.specs.Accept.{Accepted};
ghost use Rattle.definition.specs.Calls.{JoinMeets};
ghost use Rattle.loading.specs.Given.{Stated};
ghost use Rattle.counting.specs.FactNumbers.{number_set};
ghost use Rattle.facts.specs.Reading.{all_facts};
ghost use Rattle.join.specs.United.{FirstRead, United, AreOf};

use counting::enter_facts;
use definition::RefusedJoin;
use facts::{Counts, read_facts, read_second};
use turning::turn;
use unions::write_lines;

// Enters the numbers of the facts of both texts, and answers how many different ones there are. The lists are left as they were.
fn enter_both<'a>(
    first: &'a [u8],
    second: &'a [u8],
    relations: &mut [usize],
    universe: &mut [usize],
    words: &mut [u32],
) -> usize
    requires { (length first.now ≤ FACT_BYTES) × (length second.now ≤ FACT_BYTES) × (length relations.old ≤ 16) × (length universe.old ≤ 64) × (length words.old ≡ 32768) }
    ensures value { (w : Accepted) → Stated second.now first.now relations.old universe.old w → AreOf (all_facts first.now ++ all_facts second.now) w → take result words.new ≡ number_set w (all_facts first.now ++ all_facts second.now) }
    ensures within { result ≤ 32768 }
    ensures lists { (relations.new ≡ relations.old) × (universe.new ≡ universe.old) }
{
    turn(relations);
    turn(universe);
    let n = enter_facts(first, second, relations, universe, words, 0);
    turn(relations);
    turn(universe);
    enter_facts(second, first, relations, universe, words, n)
}

// Writes the union, whose relations and elements stand in the lists.
fn write_union<'a>(
    first: &'a [u8],
    second: &'a [u8],
    relations: &mut [usize],
    universe: &mut [usize],
    output: &mut [u8],
) -> Result<usize, RefusedJoin>
    requires { United first.now second.now relations.old universe.old }
    ensures { JoinMeets document_01 first.now second.now output.old result output.new }
{
    let mut numbers = [0u32; 32768];
    let n = enter_both(first, second, relations, universe, &mut numbers);
    write_lines(second, first, relations, universe, &numbers[..n], output)
}

// Goes on with the second text, after the first gave the first words of the lists.
fn join_second<'a>(
    first: &'a [u8],
    second: &'a [u8],
    relations: &mut [usize],
    universe: &mut [usize],
    c: Counts,
    output: &mut [u8],
) -> Result<usize, RefusedJoin>
    requires { FirstRead first.now second.now relations.old universe.old c }
    ensures { JoinMeets document_01 first.now second.now output.old result output.new }
{
    turn(relations);
    turn(universe);
    match read_second(second, first, relations, universe, c) {
        Err(q) => Err(RefusedJoin {
            refusal: q,
            text: 2,
        }),
        Ok(d) => {
            let n = d.relations;
            let m = d.elements;
            write_union(
                first,
                second,
                &mut relations[..n],
                &mut universe[..m],
                output,
            )
        }
    }
}

// Joins two fact texts: "Refusals of the first text come before those of the second".
pub fn join<'a>(first: &'a [u8], second: &'a [u8], output: &mut [u8]) -> Result<usize, RefusedJoin>
    ensures { JoinMeets document_01 first.now second.now output.old result output.new }
{
    let mut relations = [0usize; 16];
    let mut universe = [0usize; 64];
    match read_facts(first, second, &mut relations, &mut universe) {
        Err(q) => Err(RefusedJoin {
            refusal: q,
            text: 1,
        }),
        Ok(c) => join_second(first, second, &mut relations, &mut universe, c, output),
    }
}
