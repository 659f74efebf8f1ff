// Lowers the words of a whole program, statement by statement.
#![tactic(auto)]

ghost use Rattle.std.specs.Prelude.{◌≡◌, [], ℕ, ◌+◌, ◌≤◌, ◌<◌, length, get_or};
ghost use Rattle.free.specs.Words.{Small};
ghost use Rattle.coding.specs.Pass.{depths_after, is_named, token_part, string_code, name_code, code_of, Passed};
ghost use Rattle.coding.specs.Turns.{Shallow, with_code, Coded, Turned};

use slots::Found;
use words::{put_at, word_at};

// Whether a word of a kind has the token of a name or a string.
fn is_named(k: u64) -> bool
    ensures { result ≡ is_named k }
{
    if k == 0 {
        return false;
    }
    if k < 8 {
        return true;
    }
    if k < 42 {
        return k == 23;
    }
    k < 45
}

// The part of the query that a token's text is.
fn token_part(x: u64) -> usize
    ensures { result ≡ token_part x }
{
    ((intern::start(x) * 64 + (x / 64 % 64) as usize) * 2 + 1) * 4
}

// The number of a string's element, or 255.
fn string_code<'a>(
    facts: &'a [u8],
    query: &'a [u8],
    places: &[usize],
    tokens: &[u64],
    t: usize,
) -> u64
    ensures { result ≡ string_code facts.now query.now places.now tokens.now [] [] t }
{
    let i = parts::index_of(facts, query, places, token_part(word_at(tokens, t)));
    if i < places.len() { i as u64 } else { 255 }
}

// The code of the name of the token t.
fn name_code(ids: &[u64], known: &[u64], f: Found, depths: &[u64], t: usize) -> u64
    requires count_bound { (f.count ≤ 4) × (t < 65536) }
    requires shallow { Shallow depths.now }
    ensures { result ≡ name_code [] [] [] [] ids.now known.now f depths.now (get_or ids.now t 0) }
{
    let j = word_at(ids, t) as usize;
    let a = word_at(known, j);
    if 3 < a {
        return (a - 4) / 4;
    }
    if 1 < a {
        return 72 + word_at(depths, j);
    }
    63 + slots::digit_at(f, ids, 3 + (t as u64) * 256)
}

// The code of the token t.
fn code_of<'a>(
    facts: &'a [u8],
    query: &'a [u8],
    places: &[usize],
    tokens: &[u64],
    ids: &[u64],
    known: &[u64],
    f: Found,
    depths: &[u64],
    t: usize,
) -> u64
    requires count_bound { (f.count ≤ 4) × (t < 65536) }
    requires shallow { Shallow depths.now }
    ensures { result ≡ code_of facts.now query.now places.now tokens.now ids.now known.now f depths.now t }
{
    if word_at(tokens, t) % 64 == 48 {
        return string_code(facts, query, places, tokens, t);
    }
    name_code(ids, known, f, depths, t)
}

// Puts the code of a word's token into the codes.
fn set_code<'a>(
    facts: &'a [u8],
    query: &'a [u8],
    places: &[usize],
    tokens: &[u64],
    ids: &[u64],
    known: &[u64],
    f: Found,
    depths: &[u64],
    codes: &mut [u64],
    w: u64,
)
    requires count_bound { f.count ≤ 4 }
    requires shallow { Shallow depths.now }
    ensures { codes.new ≡ with_code facts.now query.now places.now tokens.now ids.now known.now f depths.now w codes.old }
{
    let t = (w / 256 % 65536) as usize;
    if !is_named(w % 256) {
        return;
    }
    if t < tokens.len() {
        let c = code_of(facts, query, places, tokens, ids, known, f, depths, t);
        put_at(codes, t, c);
    }
}

// Puts the codes of the tokens of the words from s to e.
fn set_codes<'a>(
    facts: &'a [u8],
    query: &'a [u8],
    places: &[usize],
    tokens: &[u64],
    words: &[u64],
    ids: &[u64],
    known: &[u64],
    f: Found,
    depths: &[u64],
    codes: &mut [u64],
    s: usize,
    e: usize,
)
    requires count_bound { (f.count ≤ 4) × ((s ≤ e) × (length tokens.now ≤ length codes.old)) }
    requires shallow { Shallow depths.now }
    ensures { Coded facts.now query.now places.now tokens.now ids.now known.now f depths.now words.now codes.new s e }
{
    for i in s..e {
        let w = word_at(words, i);
        set_code(
            facts, query, places, tokens, ids, known, f, depths, codes, w,
        );
    }
}

// Lowers the statement at the place k, whose words begin at s.
fn lower_statement<'a>(
    facts: &'a [u8],
    query: &'a [u8],
    places: &[usize],
    tokens: &[u64],
    words: &[u64],
    ids: &[u64],
    known: &[u64],
    depths: &[u64],
    codes: &mut [u64],
    fr: &mut [u64],
    low: &mut [u64],
    u: u8,
    s: usize,
    k: usize,
)
    requires s_le_k { (s ≤ k) × ((k < length words.now) × ((length tokens.now ≤ length codes.old) × ((length words.now ≤ length fr.old) × (length words.now ≤ length low.old)))) }
    requires shallow { Shallow depths.now }
    requires small { Small fr.old }
    ensures turned { Turned facts.now query.now places.now tokens.now ids.now known.now words.now u depths.now s k low.old low.new }
    ensures small_2 { Small fr.new }
{
    let e = k + 1;
    let f = slots::collect(&words[s..e], ids, known);
    if 4 < f.count {
        return;
    }
    set_codes(
        facts, query, places, tokens, words, ids, known, f, depths, codes, s, e,
    );
    free::fill(words, f, ids, fr, s, e);
    lowering::lower_part(facts, query, places, words, codes, tokens, fr, low, u, s, e);
}

// How deep the words after w stand; at a FOR's set the depth of its variable.
fn note_depth(ids: &[u64], depths: &mut [u64], w: u64, deep: u64) -> u64
    requires deep_bound { deep < 65536 }
    requires shallow { Shallow depths.old }
    ensures depths_value { (depths.exit.now ≡ (depths_after ids.now w (record { depths = depths.entry.now; deep = deep })).depths) × ((result ≡ (depths_after ids.now w (record { depths = depths.entry.now; deep = deep })).deep) × (result ≤ deep + 1)) }
    ensures shallow_2 { Shallow depths.new }
{
    if w % 256 == 6 {
        let j = word_at(ids, (w / 256 % 65536) as usize) as usize;
        put_at(depths, j, deep);
        return deep + 1;
    }
    if w % 256 != 7 {
        return deep;
    }
    if deep == 0 { 0 } else { deep - 1 }
}

// Lowers the words.
pub fn lower<'a>(
    facts: &'a [u8],
    query: &'a [u8],
    places: &[usize],
    tokens: &[u64],
    words: &[u64],
    ids: &[u64],
    known: &[u64],
    depths: &mut [u64],
    codes: &mut [u64],
    fr: &mut [u64],
    low: &mut [u64],
    u: u8,
)
    requires tokens_in_bounds { (length tokens.now ≤ length codes.old) × ((length words.now ≤ length fr.old) × ((length words.now ≤ length low.old) × (length words.now < 65536))) }
    requires shallow { Shallow depths.old }
    requires small { Small fr.old }
    ensures passed { Passed facts.now query.now places.now tokens.now ids.now known.now words.now low.new u (record { depths = depths.entry.now; deep = 0 }) }
    ensures by_index { ((i : ℕ) → length words.now ≤ i → get_or low.new i 0 ≡ get_or low.old i 0) × (length low.new ≡ length low.old) }
{
    let mut s: usize = 0;
    let mut deep: u64 = 0;
    for (k, w) in words.iter().enumerate() {
        if !actions::statement(*w) {
            continue;
        }
        deep = note_depth(ids, depths, *w, deep);
        lower_statement(
            facts, query, places, tokens, words, ids, known, depths, codes, fr, low, u, s, k,
        );
        s = k + 1;
    }
}
