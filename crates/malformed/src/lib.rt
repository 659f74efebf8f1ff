// Row 18: the patterns of a program, in the order of its text.
#![tactic(auto)]

ghost use Rattle.std.specs.Prelude.{not, List, ◌≡◌, ◌<◌, length};
ghost use Rattle.definition.specs.Names.{program_patterns, pattern_rows};
ghost use Rattle.definition.specs.Pattern.{well_formed};
ghost use Rattle.definition.specs.Syntax.{Program};
ghost use Rattle.definition.specs.Token.{Token};
ghost use Rattle.intern.specs.Entries.{text_at, Stand};
ghost use Rattle.words.specs.Raw.{flat_program};
ghost use Rattle.words.specs.ShownPatterns.{first_half};
ghost use Rattle.words.specs.Tokens.{OwnProgram};
ghost use Rattle.malformed.specs.Walk.{meets};

use definition::Refusal;
use lexer::place;
use patterns::read_pattern;
use words::word_at;

// Whether a word is the first of a pattern's two.
fn first_half(w: u64) -> bool
    ensures { result ≡ first_half w }
{
    if w % 256 != 23 {
        return false;
    }
    w / 16777216 % 65536 == 0
}

// Whether a string's token is an empty or malformed pattern.
fn is_malformed(query: &[u8], token: u64) -> bool
    ensures { result ≡ not (well_formed (text_at query.now token)) }
{
    read_pattern(query, token).len() == 0
}

// "18 with the pattern's token, an empty or malformed pattern".
pub fn pattern_rows(query: &[u8], tokens: &[u64], words: &[u64]) -> Result<(), Refusal>
    ensures { (ts : List Token) (p : Program) → Stand query.now tokens.now ts → length ts < 65536 → OwnProgram ts p → words.now ≡ flat_program p 0 → meets result (pattern_rows (program_patterns p)) }
{
    for &w in words {
        if first_half(w) {
            let t = word_at(tokens, (w / 256 % 65536) as usize);
            if is_malformed(query, t) {
                return Err(Refusal::Pattern(place(t)));
            }
        }
    }
    Ok(())
}
