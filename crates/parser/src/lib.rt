// A query text as its tokens and the words of its program, or why it is none.
#![tactic(auto)]

ghost use Rattle.std.specs.Prelude.{length, ◌≡◌, ◌≤◌};
ghost use Rattle.parser.specs.Queries.{IsRead, Lexes, IsParsed, place_in, RefusedAt};
ghost use Rattle.terms.specs.Phrases.{row_of, token_of};

use definition::Refusal;
use lexer::{lex, place};
use statements::parse;
use terms::ParseError;

// The place of the token q; past the last, the query's length.
fn place_at(query: &[u8], tokens: &[u64], q: usize) -> usize
    ensures { result ≡ place_in (length query.now) tokens.now q }
{
    if q < tokens.len() {
        return place(tokens[q]);
    }
    query.len()
}

// The refusal for what the statements' reader finds wrong.
fn refusal(query: &[u8], tokens: &[u64], e: ParseError) -> Refusal
    ensures { RefusedAt (length query.now) tokens.now (row_of e) (token_of e) result }
{
    match e {
        ParseError::NoProgram(q) => Refusal::NoProgram(place_at(query, tokens, q)),
        ParseError::TooMuch(q) => Refusal::TooMuch(place_at(query, tokens, q)),
        ParseError::Number(q) => Refusal::Number(place_at(query, tokens, q)),
    }
}

// The words of the program that the query's tokens are.
fn read_tokens(query: &[u8], tokens: &[u64], words: &mut [u64]) -> Result<(usize, usize), Refusal>
    requires { Lexes query.now tokens.now (length words.old) }
    ensures { IsParsed query.now tokens.now words.new result }
{
    match parse(tokens, words) {
        Ok((t, m)) => Ok((t, m)),
        Err(e) => Err(refusal(query, tokens, e)),
    }
}

// How many tokens and words the query has, or row 8, 9, 10, 19 or 13. What stands behind them, and all of both on a refusal, may be anything.
pub fn read_query(
    query: &[u8],
    tokens: &mut [u64],
    words: &mut [u64],
) -> Result<(usize, usize), Refusal>
    requires { (2048 ≤ length tokens.old) × (2048 ≤ length words.old) }
    ensures { IsRead query.now tokens.new words.new result }
{
    let n = lex(query, tokens)?;
    read_tokens(query, &tokens[..n], words)
}
