// The text of a union: the relations in byte order of name, their tuples by number, a line for each. The lines are measured first and then
// written, since a text that does not fit is refused with its whole length.
#![tactic(auto)]

ghost use Rattle.std.specs.Prelude.{◌≡◌, [], ◌∷◌, ◌+◌, ◌*◌, ◌^◌, ◌%◌, ◌≤◌, ◌<◌, length, take};
ghost use Rattle.definition.specs.Calls.{join_meets};
ghost use Rattle.definition.specs.Join.{of_text, right, within_room};
ghost use Rattle.lines.specs.Lines.{texts, line_of};
ghost use Rattle.unions.specs.Union.{relation_part, sorted, number_lines, all_lines, Numbered, AllNumbered, Laid};

use definition::{Refusal, RefusedJoin};
use lines::put_labelled;
use parts::{enter_part, index_of, text_of};
use tuples::tuple_of;

// The length of a line: it is put to a buffer that is long enough for any, without being written.
fn line_size<'a>(
    facts: &'a [u8],
    query: &'a [u8],
    places: &[usize],
    name: &[u8],
    t: [u8; 4],
    n: usize,
) -> usize
    requires { (n ≤ 4) × (length name.now ≤ 63) }
    ensures value { result ≡ length (line_of (texts facts.now query.now places.now) (name.now ∷ []) (take n t)) }
    ensures within { result ≤ 512 }
{
    let mut buffer = [0u8; 512];
    put_labelled(facts, query, places, name, &mut buffer, 0, t, n, false)
}

// Lays a line from place p on, written or only measured, and answers where it ends.
fn lay_line<'a>(
    facts: &'a [u8],
    query: &'a [u8],
    places: &[usize],
    name: &[u8],
    t: [u8; 4],
    n: usize,
    out: &mut [u8],
    p: usize,
    write: bool,
) -> usize
    requires { (n ≤ 4) × (length name.now ≤ 63) × (p ≤ 1073741824) }
    ensures value { Laid write out.old p (line_of (texts facts.now query.now places.now) (name.now ∷ []) (take n t)) result out.new }
    ensures within { result ≤ p + 512 }
{
    let end = p + line_size(facts, query, places, name, t, n);
    if write {
        if out.len() < p {
            return end;
        }
        put_labelled(facts, query, places, name, out, p, t, n, true);
        return end;
    }
    end
}

// Lays the line of the number x, if it is one of relation k.
fn lay_number<'a>(
    facts: &'a [u8],
    query: &'a [u8],
    places: &[usize],
    name: &[u8],
    x: u32,
    k: usize,
    n: usize,
    out: &mut [u8],
    p: usize,
    write: bool,
) -> usize
    requires { (n ≤ 4) × (length places.now ≤ 64) × (length name.now ≤ 63) × (p ≤ 1073741824) × (relation_part x ≡ k → x % 16777216 < length places.now ^ n) }
    ensures value { Laid write out.old p (number_lines (texts facts.now query.now places.now) name.now k n (x ∷ [])) result out.new }
    ensures within { result ≤ p + 512 }
{
    if (x / 16777216 % 16) as usize != k {
        return p;
    }
    let t = tuple_of(places.len() as u8, n, (x % 16777216) as usize);
    lay_line(facts, query, places, name, t, n, out, p, write)
}

// Lays the lines of the relation with the name and the number k, whose arity is n, from place `at` on.
fn lay_relation<'a>(
    facts: &'a [u8],
    query: &'a [u8],
    places: &[usize],
    name: &[u8],
    numbers: &[u32],
    k: usize,
    n: usize,
    out: &mut [u8],
    at: usize,
    write: bool,
) -> usize
    requires { (n ≤ 4) × (length places.now ≤ 64) × (length name.now ≤ 63) × (length numbers.now ≤ 32768) × (at ≤ 268435456) × Numbered (length places.now) k n numbers.now }
    ensures value { Laid write out.old at (number_lines (texts facts.now query.now places.now) name.now k n numbers.now) result out.new }
    ensures within { result ≤ at + 512 * length numbers.now }
{
    let mut p = at;
    for x in numbers {
        p = lay_number(facts, query, places, name, *x, k, n, out, p, write);
    }
    p
}

// Lays the lines of some of the relations, one after the other, and answers how many bytes they take.
fn lay_all<'a>(
    facts: &'a [u8],
    query: &'a [u8],
    relations: &[usize],
    places: &[usize],
    some: &[usize],
    numbers: &[u32],
    out: &mut [u8],
    write: bool,
) -> usize
    requires { (length places.now ≤ 64) × (length some.now ≤ 16) × (length numbers.now ≤ 32768) × AllNumbered facts.now query.now relations.now (length places.now) numbers.now some.now }
    ensures { Laid write out.old 0 (all_lines (texts facts.now query.now places.now) relations.now numbers.now some.now) result out.new }
{
    let mut p: usize = 0;
    for v in some {
        let name = text_of(facts, query, *v);
        let k = index_of(facts, query, relations, *v);
        p = lay_relation(
            facts,
            query,
            places,
            name,
            numbers,
            k,
            *v % 4,
            out,
            p,
            write,
        );
    }
    p
}

// The relations in byte order of name, entered from the last to the first; answers how many there are.
fn sort_names<'a>(
    facts: &'a [u8],
    query: &'a [u8],
    relations: &[usize],
    words: &mut [usize],
) -> usize
    requires { length relations.now ≤ length words.old }
    ensures value { take result words.new ≡ sorted facts.now query.now relations.now }
    ensures within { result ≤ length relations.now }
{
    let mut n: usize = 0;
    for i in (0..relations.len()).rev() {
        match enter_part(facts, query, words, n, relations[i]) {
            None => return n,
            Some(m) => {
                n = m;
            }
        }
    }
    n
}

// "21 with the length needed and neither text, a result over 32,768 bytes or the lent output"; else the lines of some relations are written.
fn write_some<'a>(
    facts: &'a [u8],
    query: &'a [u8],
    relations: &[usize],
    places: &[usize],
    some: &[usize],
    numbers: &[u32],
    output: &mut [u8],
) -> Result<usize, RefusedJoin>
    requires { (length places.now ≤ 64) × (length some.now ≤ 16) × (length numbers.now ≤ 32768) × AllNumbered facts.now query.now relations.now (length places.now) numbers.now some.now }
    ensures { join_meets (of_text 0 (within_room (length output.old) (all_lines (texts facts.now query.now places.now) relations.now numbers.now some.now)) right) output.old result output.new }
{
    let size = lay_all(
        facts, query, relations, places, some, numbers, output, false,
    );
    if 32768 < size {
        return Err(RefusedJoin {
            refusal: Refusal::ResultTooLong(size),
            text: 0,
        });
    }
    if output.len() < size {
        return Err(RefusedJoin {
            refusal: Refusal::ResultTooLong(size),
            text: 0,
        });
    }
    lay_all(facts, query, relations, places, some, numbers, output, true);
    Ok(size)
}

// The lines of all relations, in byte order of name.
pub fn write_lines<'a>(
    facts: &'a [u8],
    query: &'a [u8],
    relations: &[usize],
    places: &[usize],
    numbers: &[u32],
    output: &mut [u8],
) -> Result<usize, RefusedJoin>
    requires { (length relations.now ≤ 16) × (length places.now ≤ 64) × (length numbers.now ≤ 32768) × AllNumbered facts.now query.now relations.now (length places.now) numbers.now (sorted facts.now query.now relations.now) }
    ensures { join_meets (of_text 0 (within_room (length output.old) (all_lines (texts facts.now query.now places.now) relations.now numbers.now (sorted facts.now query.now relations.now))) right) output.old result output.new }
{
    let mut words = [0usize; 16];
    let m = sort_names(facts, query, relations, &mut words);
    write_some(
        facts,
        query,
        relations,
        places,
        &words[..m],
        numbers,
        output,
    )
}
