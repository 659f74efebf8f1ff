// Texts at the edges of the rules: each check is proved from the contracts, and run.
#![tactic(auto)]

ghost use Rattle.std.specs.Prelude.{◌+◌, ◌≤◌, min, ◌≡◌, length, drop};
ghost use Rattle.definition.specs.Text.{span, needs_quotes, is_name};
ghost use Rattle.definition.specs.Text.{same as Text·same};
ghost use Rattle.definition.specs.Token.{value};
ghost use Rattle.texts.specs.Classes.{is_of};
ghost use Rattle.texts.specs.Orders.{order};
ghost use Rattle.texts_test.specs.Ranks.{rank_of};

use check::expect;
use std::cmp::Ordering;
use texts::{Class, compare, is_name, needs_quotes, run_end, same, value};

// The order as a number.
fn rank(o: Ordering) -> usize
    ensures { result ≡ rank_of o }
{
    match o {
        Ordering::Less => 0,
        Ordering::Equal => 1,
        Ordering::Greater => 2,
    }
}

// The order of two texts, by its number, and whether they are the same.
fn ordered(a: &[u8], b: &[u8], n: usize, equal: bool)
    requires { (rank_of (order a.now b.now) ≡ n) × (Text·same a.now b.now ≡ equal) }
{
    expect(rank(compare(a, b)) == n);
    expect(same(a, b) == equal);
}

// The end of the run of a class.
fn ends(text: &[u8], at: usize, k: Class, end: usize)
    requires { (at ≤ length text.now) × (at + span (is_of k) (drop at text.now) ≡ end) }
{
    expect(run_end(text, at, k) == end);
}

// Whether an element with the text needs quotes.
fn needs(text: &[u8], quotes: bool)
    requires { needs_quotes text.now ≡ quotes }
{
    expect(needs_quotes(text) == quotes);
}

// Whether the text is a name.
fn names(text: &[u8], named: bool)
    requires { is_name text.now ≡ named }
{
    expect(is_name(text) == named);
}

// The value of a run of digits, up to 1,000,000.
fn valued(text: &[u8], n: u64)
    requires { min (value text.now) 1_000_000 ≡ n }
{
    expect(value(text) == n);
}

// "a prefix first"
#[tactic(auto, unfolding(definition::specs::Text::computes, texts::specs::Orders::order))]
fn orders() {
    ordered(b"On", b"Onto", 0, false);
    ordered(b"On", b"On", 1, true);
    ordered(b"C2", b"C10", 2, false);
}

#[tactic(auto, unfolding(definition::specs::Text::computes))]
fn runs() {
    ends(b"On C10", 0, Class::Part, 2);
    ends(b"On \t C10", 2, Class::Blank, 5);
    ends(b"C10", 3, Class::Inside, 3);
    ends(b"C10a", 1, Class::Digit, 3);
}

// "if it is empty or holds a space or tab"
#[tactic(auto, unfolding(definition::specs::Text::computes))]
fn quotes() {
    needs(b"", true);
    needs(b"5Y off the run", true);
    needs(b"run\t", true);
    needs(b"plain", false);
}

#[tactic(auto, unfolding(definition::specs::Text::computes))]
fn identifiers() {
    names(b"__", true);
    names(b"a2345678901234567890123456789012", true);
    names(b"a23456789012345678901234567890123", false);
    names(b"_", false);
    names(b"AVG", false);
    names(b"FALSE", false);
    names(b"2a", false);
}

// "literals to 999,999"
#[tactic(auto, unfolding(definition::specs::Token::value_after))]
fn numerals() {
    valued(b"", 0);
    valued(b"007", 7);
    valued(b"999999", 999_999);
    valued(b"1000000", 1_000_000);
    valued(b"12345678901234567890123456789012", 1_000_000);
}

fn main() {
    orders();
    runs();
    quotes();
    identifiers();
    numerals();
}
