// Names as numbers: bytes are compared here, once; the passes over names compare numbers.
#![tactic(auto)]

ghost use Rattle.std.specs.Prelude.{◌≡◌, ◌+◌, ◌-◌, ◌/◌, ◌≤◌, ◌<◌, length};
ghost use Rattle.intern.specs.Entries.{start_of, text_at};
ghost use Rattle.intern.specs.Numbers.{name_of, number_of, may_be_first, Numbered};

// Where the text of a word starts: that of a string after its opening quote.
pub fn start(w: u64) -> usize
    ensures { (result ≡ start_of w) × (result ≤ w / 4096 + 1) }
{
    let at = (w / 4096) as usize;
    if w % 64 == 48 {
        return at + 1;
    }
    at
}

// The text of a word.
pub fn text_at(text: &[u8], w: u64) -> &[u8]
    ensures { result.now ≡ text_at text.now w }
{
    parts::part(text, start(w), (w / 64 % 64) as usize)
}

// The name at a place among the relations of the facts and the tokens of the query.
fn name<'a>(
    facts: &'a [u8],
    query: &'a [u8],
    relations: &[usize],
    tokens: &[u64],
    i: usize,
) -> &'a [u8]
    requires { i < length relations.now + length tokens.now }
    ensures { result.now ≡ name_of facts.now query.now relations.now tokens.now i }
{
    let k = relations.len();
    if i < k {
        return parts::text_of(facts, query, relations[i]);
    }
    text_at(query, tokens[i - k])
}

// Whether the name at j may be the first of its text: it is a relation of the facts, or its number is its place.
fn may_be_first(k: usize, ids: &[u64], j: usize) -> bool
    ensures { result ≡ may_be_first k ids.now j }
{
    if j < k {
        return true;
    }
    if j - k < ids.len() {
        return ids[j - k] == j as u64;
    }
    true
}

// The number of the name at i; ids has the numbers of the tokens before it, so that each text is compared once.
fn number<'a>(
    facts: &'a [u8],
    query: &'a [u8],
    relations: &[usize],
    tokens: &[u64],
    ids: &[u64],
    i: usize,
) -> usize
    requires i_in_bounds { i < length relations.now + length tokens.now }
    requires numbered { Numbered (name_of facts.now query.now relations.now tokens.now) (length relations.now) ids.now (i - length relations.now) }
    ensures { result ≡ number_of (name_of facts.now query.now relations.now tokens.now) i }
{
    let x = name(facts, query, relations, tokens, i);
    let k = relations.len();
    for j in 0..i {
        if may_be_first(k, ids, j) {
            let y = name(facts, query, relations, tokens, j);
            if texts::same(x, y) {
                return j;
            }
        }
    }
    i
}

// The numbers of the tokens' names.
pub fn intern<'a>(
    facts: &'a [u8],
    query: &'a [u8],
    relations: &[usize],
    tokens: &[u64],
    ids: &mut [u64],
)
    requires { length tokens.now ≤ length ids.old }
    ensures { Numbered (name_of facts.now query.now relations.now tokens.now) (length relations.now) ids.new (length tokens.now) }
{
    let k = relations.len();
    for t in 0..tokens.len() {
        ids[t] = number(facts, query, relations, tokens, ids, k + t) as u64;
    }
}
