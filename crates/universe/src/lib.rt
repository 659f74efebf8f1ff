// The universe: "the set of elements in the facts plus the strings on any left-hand side, run or not".
#![tactic(auto)]

ghost use Rattle.std.specs.Prelude.{◌≡◌, List, [], ◌∷◌, ℕ, ◌+◌, ◌≤◌, ◌<◌, length, get_or};
ghost use Rattle.definition.specs.Token.{Token};
ghost use Rattle.definition.specs.Syntax.{Program};
ghost use Rattle.words.specs.Fields.{p_of};
ghost use Rattle.kinds.specs.Resolved.{Parsed};
ghost use Rattle.universe.specs.Strings.{string_word, left_tokens, Enters, StringsMeet};

use parts::{enter_part, part};
use texts::needs_quotes;

// The token of a string's word; 0 past the end.
fn token_of(tokens: &[u64], w: u64) -> u64
    ensures { result ≡ get_or tokens.now (p_of w) 0 }
{
    let t = (w / 256 % 65536) as usize;
    if t < tokens.len() { tokens[t] } else { 0 }
}

// The part of the query that is the text of a string's token, with tag 1 where it is printed in quotes though no fact quotes it.
fn string_word(query: &[u8], t: u64) -> usize
    ensures { result ≡ string_word query.now t }
{
    let start = lexer::place(t) + 1;
    let n = lexer::text_length(t);
    let tag = needs_quotes(part(query, start, n)) as usize;
    (start * 64 + n) * 8 + 4 + tag
}

// Enters the string of a word, if it is one on a left-hand side, into the universe of n elements: how many there are then, or the place of
// the string for which there is no room.
fn enter_string<'a>(
    facts: &'a [u8],
    query: &'a [u8],
    tokens: &[u64],
    places: &mut [usize],
    n: usize,
    w: u64,
) -> Result<usize, usize>
    requires { n ≤ length places.old }
    ensures { Enters facts.now query.now (left_tokens tokens.now (w ∷ [])) places.old places.new n result }
{
    if w % 256 != 42 {
        return Ok(n);
    }
    let t = token_of(tokens, w);
    enter_part(facts, query, places, n, string_word(query, t)).ok_or(lexer::place(t))
}

// Enters the strings on left-hand sides into the universe of n elements: row 7, with its place, if there is no room.
pub fn enter_strings<'a>(
    facts: &'a [u8],
    query: &'a [u8],
    tokens: &[u64],
    words: &[u64],
    places: &mut [usize],
    n: usize,
) -> Result<usize, usize>
    requires { (n ≤ 64) × (length places.old ≡ 64) }
    ensures { (ts : List Token) (p : Program) → Parsed query.now tokens.now words.now ts p → StringsMeet facts.now query.now p tokens.now words.now places.old places.new n result }
{
    let mut count = n;
    for &w in words {
        count = enter_string(facts, query, tokens, places, count, w)?;
    }
    Ok(count)
}
