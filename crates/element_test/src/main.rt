// The element call on worked texts, proved and run: an element's bytes, and where in which of the two texts it stands.
#![tactic(auto)]

ghost use Rattle.std.specs.Prelude.{◌+◌, ◌≤◌, ◌≡◌, length, take, drop};
ghost use Rattle.definition.specs.Limits.{document_01};
ghost use Rattle.definition.specs.Calls as Calls;
ghost use Rattle.element_test.specs.Worked.{Is};

use check::{expect, same};
use element::{element, word_of};

// `part` is the n bytes of the text from the offset on, at their own address: that is proved alone, since no program can ask for it.
fn is_part<'a>(part: &'a [u8], text: &'a [u8], offset: usize, n: usize)
    requires n_in_bounds { offset + n ≤ length text.now }
    requires part_value { part.now ≡ take n (drop offset text.now) }
    requires ref_ptr_value { part.ref_ptr ≡ (text.ref_ptr.0, text.ref_ptr.1 + offset) }
{
    expect(same(part, &text[offset..offset + n]));
}

// The word of element n, from which hosts get their answer, has the number of its text: 0 is the facts, 1 the query.
fn has_text<'a>(facts: &'a [u8], query: &'a [u8], n: usize, text: usize)
    requires { (Calls.element document_01 facts.now query.now n).text ≡ text }
{
    expect(word_of(facts, query, n) / 4 % 2 == text);
}

// Element n is `value`, in the facts from the offset on.
fn in_facts<'a>(facts: &'a [u8], query: &'a [u8], n: usize, offset: usize, value: &[u8])
    requires { Is facts.now query.now n 0 offset value.now }
{
    let part = element(facts, query, n);
    expect(same(part, value));
    is_part(part, facts, offset, value.len());
    has_text(facts, query, n, 0);
}

// Element n is `value`, in the query from the offset on.
fn in_query<'a>(facts: &'a [u8], query: &'a [u8], n: usize, offset: usize, value: &[u8])
    requires { Is facts.now query.now n 1 offset value.now }
{
    let part = element(facts, query, n);
    expect(same(part, value));
    is_part(part, query, offset, value.len());
    has_text(facts, query, n, 1);
}

// "as a part of the facts (first occurrence), or of the query if no fact holds it"; "For other n" the empty part at the query's start
fn first_places() {
    let facts = b"On C10 C5\nOn C5 C2\nOn B7 C10\nHeld B7";
    let query = b"Held(\"Z\");";
    in_facts(facts, query, 0, 22, b"B7");
    in_facts(facts, query, 1, 3, b"C10");
    in_facts(facts, query, 2, 16, b"C2");
    in_facts(facts, query, 3, 7, b"C5");
    in_query(facts, query, 4, 6, b"Z");
    in_query(facts, query, 5, 0, b"");
}

// The byte 13 of a line's end is in no element, and offsets count it.
fn line_ends() {
    let facts = b"On C10 C5\r\nOn C5 C2\r\nOn B7 C10\r\nHeld B7\r";
    in_facts(facts, b"P();", 2, 17, b"C2");
}

// "Quotes are no part of its value": an empty element is the empty part after its opening quote. x stands in both texts.
fn quoted() {
    let facts = b"R \"\" \"x y\" x";
    let query = b"P(\"x\");";
    in_facts(facts, query, 0, 3, b"");
    in_facts(facts, query, 1, 11, b"x");
    in_facts(facts, query, 2, 6, b"x y");
}

// "first left-hand string": none of the right-hand side; the empty one is not the empty part at the query's start.
fn left_hand_strings() {
    let query = b"P() := \"a\"=\"a\"; R(\"\",\"a\",\"a\");";
    in_query(b"", query, 0, 19, b"");
    in_query(b"", query, 1, 22, b"a");
}

// "refused texts": the empty part at the query's start, also where the facts hold the element.
fn refused() {
    in_query(b"R a", b"R(", 0, 0, b"");
    in_query(b"2 a", b"R();", 0, 0, b"");
}

fn main() {
    first_places();
    line_ends();
    quoted();
    left_hand_strings();
    refused();
}
