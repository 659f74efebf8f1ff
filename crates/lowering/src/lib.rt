// Lowering: each raw word of a statement becomes the word that evaluation and the step loop read, at the same place.
#![tactic(auto)]

ghost use Rattle.std.specs.Prelude.{◌≡◌, ◌-◌, ◌%◌, min, ◌<◌, ◌≤◌, length, get_or};
ghost use Rattle.lowering.specs.Lowering.{lowered, four_bytes, slot_of, slots_of, slot_bit, mask, at, term_byte, label_place, depth_of, range_field, closure_field, comparison_field, operands_at, may_stand, all_stand, kind_field, node_p, p_field, token_values, number_of, quantity_field, expression_field, operand_field, count_field, lower_word, lower_at, Filled};

use words::{word_at, word_before};

fn pack(k: u64, p: u64, o: u64, n: u64) -> u64
    requires { (k < 256) × ((p < 65536) × ((o < 4294967296) × (n < 256))) }
    ensures { result ≡ lowered k p o n }
{
    k + p * 256 + o * 16777216 + n * 72057594037927936
}

// The slot of a digit.
fn slot_of(d: u64) -> u64
    requires { d < 8 }
    ensures { (result ≡ slot_of d) × (result < 8) }
{
    d.saturating_sub(1)
}

// Four bytes, the first lowest.
fn four_bytes(a: u64, b: u64, c: u64, d: u64) -> u64
    requires { (a < 256) × ((b < 256) × ((c < 256) × (d < 256))) }
    ensures { (result ≡ four_bytes a b c d) × (result < 4294967296) }
{
    a + b * 256 + c * 65536 + d * 16777216
}

// The slots of four digits.
fn slots_of(f: u64) -> u64
    ensures { (result ≡ slots_of f) × (result < 4294967296) }
{
    let a = slot_of(f % 8);
    let b = slot_of(f / 8 % 8);
    let c = slot_of(f / 64 % 8);
    let d = slot_of(f / 512 % 8);
    four_bytes(a, b, c, d)
}

// v if d is among the digits of a or of b.
#[tactic(auto, unfolding(crate::specs::Lowering::slot_bit))]
fn slot_bit(a: u64, b: u64, d: u64, v: u64) -> u64
    ensures { (result ≡ slot_bit a b d v) × (result ≤ v) }
{
    if digits::has(a, d) || digits::has(b, d) {
        v
    } else {
        0
    }
}

fn mask(a: u64, b: u64) -> u64
    ensures { (result ≡ mask a b) × (result < 16) }
{
    let x = slot_bit(a, b, 1, 1);
    let y = slot_bit(a, b, 2, 2);
    let z = slot_bit(a, b, 3, 4);
    let t = slot_bit(a, b, 4, 8);
    x + y + z + t
}

// The operand byte of a term.
fn term_byte(codes: &[u64], w: u64) -> u64
    ensures { (result ≡ term_byte (at codes.now) w) × (result < 256) }
{
    if w % 256 == 9 {
        return 254;
    }
    word_at(codes, (w / 256 % 65536) as usize) % 256
}

// The operand bytes of four words.
fn operands_at(words: &[u64], codes: &[u64], k: usize) -> u64
    requires { k < 65537 }
    ensures { (result ≡ operands_at (at words.now) (at codes.now) k) × (result < 4294967296) }
{
    let a = term_byte(codes, word_at(words, k));
    let b = term_byte(codes, word_at(words, k + 1));
    let c = term_byte(codes, word_at(words, k + 2));
    let d = term_byte(codes, word_at(words, k + 3));
    four_bytes(a, b, c, d)
}

// Whether a term may stand for an element.
#[tactic(auto, unfolding(crate::specs::Lowering::may_stand))]
fn may_stand(codes: &[u64], u: u8, w: u64) -> bool
    ensures { result ≡ may_stand (at codes.now) u w }
{
    match w % 256 {
        9 => 0 < u,
        43 => word_at(codes, (w / 256 % 65536) as usize) != 255,
        _ => true,
    }
}

// Whether each of n terms from place k on may.
fn all_stand(words: &[u64], codes: &[u64], u: u8, n: usize, k: usize) -> bool
    requires { (n < 65536) × (k < 65536) }
    ensures { result ≡ all_stand (at words.now) (at codes.now) u n k }
{
    for i in 0..n {
        if !may_stand(codes, u, word_at(words, k + i)) {
            return false;
        }
    }
    true
}

// TRUE with a term that stands for no element is false.
fn kind_field(words: &[u64], codes: &[u64], u: u8, w: u64) -> u64
    ensures { (result ≡ kind_field (at words.now) (at codes.now) u w) × (result < 256) }
{
    if w % 256 != 11 {
        return w % 256;
    }
    let p = (w / 256 % 65536) as usize;
    let q = (w / 16777216 % 65536) as usize;
    if all_stand(words, codes, u, q, p) {
        11
    } else {
        12
    }
}

fn label_place(p: u64, q: u64) -> u64
    requires { p < 65536 }
    ensures { (result ≡ label_place p q) × (result < 65536) }
{
    if q == 0 { 0 } else { (p + 1) % 65536 }
}

// The number p of an expression, an item or a statement.
#[tactic(auto, unfolding(crate::specs::Lowering::node_p))]
fn node_p(words: &[u64], codes: &[u64], w: u64) -> u64
    ensures { (result ≡ node_p (at words.now) (at codes.now) w) × (result < 65536) }
{
    let p = w / 256 % 65536;
    let q = w / 16777216 % 65536;
    match w % 256 {
        10 | 33 => word_at(codes, (word_at(words, p as usize) / 256 % 65536) as usize) % 65536,
        13 | 23 => q,
        19 | 20 => term_byte(codes, word_at(words, p as usize)) % 8,
        30 => label_place(p, q),
        _ => p,
    }
}

// The depth of a loop variable's FOR.
fn depth_of(c: u64) -> u64
    ensures { (result ≡ depth_of c) × (result < 65536) }
{
    c.saturating_sub(72) % 65536
}

// The number p of a word.
fn p_field(words: &[u64], codes: &[u64], tokens: &[u64], w: u64) -> u64
    ensures { (result ≡ p_field (at words.now) (at codes.now) (at tokens.now) w) × (result < 65536) }
{
    let k = w % 256;
    let p = (w / 256 % 65536) as usize;
    if k < 4 {
        return word_at(codes, p) % 65536;
    }
    if k < 8 {
        return depth_of(word_at(codes, p));
    }
    if k == 9 {
        return 254;
    }
    if k < 42 {
        return node_p(words, codes, w);
    }
    if k < 44 {
        return word_at(codes, p) % 65536;
    }
    intern::start(word_at(tokens, p)) as u64 % 65536
}

fn range_field(q: u64, f: u64) -> u64
    requires { q < 65536 }
    ensures { (result ≡ range_field q f) × (result < 4294967296) }
{
    q + slot_of(f % 8) * 65536
}

fn closure_field(f: u64, c: u64) -> u64
    ensures { (result ≡ closure_field f c) × (result < 4294967296) }
{
    slot_of(f % 8) + slot_of(f / 8 % 8) * 256 + c % 256 * 65536
}

fn comparison_field(q: u64, r: u64, a: u64, b: u64) -> u64
    requires { q < 65536 }
    ensures { (result ≡ comparison_field q r a b) × (result < 4294967296) }
{
    q + r % 256 * 65536 + mask(a, b) * 16777216
}

// Of the 32 elements from q on those that match the pattern of the token p.
fn half_field<'a>(
    facts: &'a [u8],
    query: &'a [u8],
    places: &[usize],
    tokens: &[u64],
    p: usize,
    q: usize,
) -> u64
    ensures { (result ≡ (token_values facts.now query.now places.now (at tokens.now)).half p q % 4294967296) × (result < 4294967296) }
{
    matching::half(facts, query, places, word_at(tokens, p), q) % 4294967296
}

// The value of the literal whose token is p, 1,000,000 where it is larger.
fn number_field(query: &[u8], tokens: &[u64], p: usize) -> u64
    ensures { (result ≡ min (number_of query.now (at tokens.now) p) 1000000) × (result < 4294967296) }
{
    texts::value(intern::text_at(query, word_at(tokens, p)))
}

// The four bytes of a comparison or a quantity.
fn quantity_field(query: &[u8], tokens: &[u64], free: &[u64], w: u64) -> u64
    ensures { (result ≡ quantity_field (at free.now) (number_of query.now (at tokens.now)) w) × (result < 4294967296) }
{
    let p = (w / 256 % 65536) as usize;
    let q = w / 16777216 % 65536;
    let r = w / 1099511627776 % 65536;
    match w % 256 {
        22 => comparison_field(q, r, word_at(free, p), word_at(free, q as usize)),
        24 => comparison_field(q, r, word_at(free, p), 0),
        25 => number_field(query, tokens, p),
        28 => comparison_field(q, r, 0, 0),
        _ => q,
    }
}

// The four bytes of an expression's own word, where c closures of the statement stand before it.
fn expression_field<'a>(
    facts: &'a [u8],
    query: &'a [u8],
    places: &[usize],
    words: &[u64],
    codes: &[u64],
    tokens: &[u64],
    free: &[u64],
    c: u64,
    w: u64,
) -> u64
    ensures { (result ≡ expression_field (at words.now) (at codes.now) (at free.now) (token_values facts.now query.now places.now (at tokens.now)) c w) × (result < 4294967296) }
{
    let p = (w / 256 % 65536) as usize;
    match w % 256 {
        10 => operands_at(words, codes, p + 1),
        13 => operands_at(words, codes, p),
        21 => closure_field(word_at(free, p), c),
        23 => half_field(
            facts,
            query,
            places,
            tokens,
            p,
            (w / 16777216 % 65536) as usize,
        ),
        _ => quantity_field(query, tokens, free, w),
    }
}

// The four bytes of the word at the place k, where c closures of the statement stand before it.
fn operand_field<'a>(
    facts: &'a [u8],
    query: &'a [u8],
    places: &[usize],
    words: &[u64],
    codes: &[u64],
    tokens: &[u64],
    free: &[u64],
    c: u64,
    k: usize,
    w: u64,
) -> u64
    ensures { (result ≡ operand_field (at words.now) (at codes.now) (at tokens.now) (at free.now) (token_values facts.now query.now places.now (at tokens.now)) c k w) × (result < 4294967296) }
{
    let p = (w / 256 % 65536) as usize;
    match w % 256 {
        6 => range_field(w / 16777216 % 65536, word_before(free, k)),
        33 => operands_at(words, codes, p + 1),
        30 => slots_of(word_before(free, k)),
        44 => word_at(tokens, p) / 64 % 64,
        _ => expression_field(facts, query, places, words, codes, tokens, free, c, w),
    }
}

// How many operands or columns; the operand of a half.
fn count_field(words: &[u64], codes: &[u64], free: &[u64], k: usize, w: u64) -> u64
    ensures { (result ≡ count_field (at words.now) (at codes.now) (at free.now) k w) × (result < 256) }
{
    let q = w / 16777216 % 65536;
    match w % 256 {
        10 => q % 256,
        33 => q % 256,
        23 => term_byte(codes, word_at(words, (w / 1099511627776 % 65536) as usize)),
        30 => digits::count(word_before(free, k)),
        _ => 0,
    }
}

// The word at a place.
fn lower_word<'a>(
    facts: &'a [u8],
    query: &'a [u8],
    places: &[usize],
    words: &[u64],
    codes: &[u64],
    tokens: &[u64],
    free: &[u64],
    u: u8,
    c: u64,
    k: usize,
) -> u64
    ensures { result ≡ lower_word (at words.now) (at codes.now) (at tokens.now) (at free.now) (token_values facts.now query.now places.now (at tokens.now)) u c k }
{
    let w = word_at(words, k);
    let kind = kind_field(words, codes, u, w);
    let p = p_field(words, codes, tokens, w);
    let o = operand_field(facts, query, places, words, codes, tokens, free, c, k, w);
    let n = count_field(words, codes, free, k, w);
    pack(kind, p, o, n)
}

// The words of a statement, from place lo to place hi.
pub fn lower_part<'a>(
    facts: &'a [u8],
    query: &'a [u8],
    places: &[usize],
    words: &[u64],
    codes: &[u64],
    tokens: &[u64],
    free: &[u64],
    low: &mut [u64],
    u: u8,
    lo: usize,
    hi: usize,
)
    requires { (lo ≤ hi) × (hi ≤ length low.old) }
    ensures { Filled (lower_at (at words.now) (at codes.now) (at tokens.now) (at free.now) (token_values facts.now query.now places.now (at tokens.now)) u lo) lo hi low.old low.new }
{
    let mut c: u64 = 0;
    for k in lo..hi {
        low[k] = lower_word(facts, query, places, words, codes, tokens, free, u, c, k);
        c += slots::one_closure(word_at(words, k)) as u64;
    }
}
