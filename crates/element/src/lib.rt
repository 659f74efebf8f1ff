// The element call: "the text of element n as a part of the facts (first occurrence), or of the query if no fact holds it".
#![tactic(auto)]

ghost use Rattle.std.specs.Prelude.{◌+◌, ◌≤◌, ◌≡◌, length, take, drop};
ghost use Rattle.definition.specs.Limits.{document_01};
ghost use Rattle.definition.specs.Calls as Calls;
ghost use Rattle.definition.specs.Calls.{part_text};
ghost use Rattle.parts.specs.Packed.{part_of};
ghost use Rattle.element.specs.Addresses.{address, Begins};

use acceptance::accept;

// The n bytes of s from offset on, or as many as there are.
fn bytes_at(s: &[u8], offset: usize, n: usize) -> &[u8]
    requires { offset ≤ length s.now }
    ensures text { result.now ≡ take n (drop offset s.now) }
    ensures place { result.ref_ptr ≡ (s.entry.ref_ptr.0, s.entry.ref_ptr.1 + offset) }
{
    let len = s.len();
    if len - offset < n {
        return &s[offset..len];
    }
    &s[offset..offset + n]
}

// The part that the word w is.
fn part_at<'a>(facts: &'a [u8], query: &'a [u8], w: usize) -> &'a [u8]
    requires { Begins facts.now query.now (part_of w) }
    ensures text { result.now ≡ part_text facts.now query.now (part_of w) }
    ensures place { result.ref_ptr ≡ address facts.entry.ref_ptr query.entry.ref_ptr (part_of w) }
{
    let offset = w / 512;
    let n = w / 8 % 64;
    if w / 4 % 2 == 0 {
        return bytes_at(facts, offset, n);
    }
    bytes_at(query, offset, n)
}

// The word of element n; where there is none, that of the empty part at the query's start.
pub fn word_of<'a>(facts: &'a [u8], query: &'a [u8], n: usize) -> usize
    ensures part { part_of result ≡ Calls.element document_01 facts.now query.now n }
    ensures begins { Begins facts.now query.now (part_of result) }
{
    let mut tokens = [0u64; 2048];
    let mut words = [0u64; 2048];
    let mut ids = [0u64; 2048];
    let mut known = [0u64; 2064];
    let mut fr = [0u64; 2048];
    let mut relations = [0usize; 16];
    let mut places = [0usize; 64];
    match accept(
        facts,
        query,
        &mut tokens,
        &mut words,
        &mut ids,
        &mut known,
        &mut fr,
        &mut relations,
        &mut places,
    ) {
        Err(_) => 4,
        Ok(s) => { if n < s.elements { places[n] } else { 4 } }
    }
}

// The text of element n, as a part of the facts or of the query.
pub fn element<'a>(facts: &'a [u8], query: &'a [u8], n: usize) -> &'a [u8]
    ensures text { result.now ≡ part_text facts.now query.now (Calls.element document_01 facts.now query.now n) }
    ensures place { result.ref_ptr ≡ address facts.entry.ref_ptr query.entry.ref_ptr (Calls.element document_01 facts.now query.now n) }
{
    part_at(facts, query, word_of(facts, query, n))
}
