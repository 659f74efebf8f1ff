// The tokens of a query text: one word a token, with its kind, the length of its text and its place.
#![tactic(auto)]

ghost use Rattle.std.specs.Prelude.{eqb, length, take, drop, get_or, set, cond, ◌||◌, [], ◌∷◌, ◌≡◌, ◌<◌, ◌≤◌, ◌+◌, ◌*◌};
ghost use Rattle.definition.specs.Text.{Text, ascii, span, starts, is_letter, is_digit, is_part, is_blank};
ghost use Rattle.definition.specs.Token.{first_mark, marks, comment, quoted, word, numeral};
ghost use Rattle.lexer.specs.Answers.{answer, count_of, query_tokens};
ghost use Rattle.lexer.specs.Scans.{Scanned};
ghost use Rattle.lexer.specs.Segments.{piece_of, first_piece, Marked, Small};
ghost use Rattle.lexer.specs.Tokens.{Inside, kind_of, size_of, at_of, start_of};

use definition::Refusal;
use texts::{Class, is_letter, of_class, reserved_word, run_end, same, value};

// The kinds of tokens. Keys are the definition's; a reserved word's is FIRST_WORD and its index in the table of 26.
pub const LPAREN: u64 = 0;

pub const RPAREN: u64 = 1;

pub const LBRACE: u64 = 2;

pub const RBRACE: u64 = 3;

pub const LBRACKET: u64 = 4;

pub const RBRACKET: u64 = 5;

pub const COMMA: u64 = 6;

pub const SEMICOLON: u64 = 7;

pub const BECOMES: u64 = 8;

pub const AND: u64 = 9;

pub const OR: u64 = 10;

pub const NOT: u64 = 11;

pub const IMPLIES: u64 = 12;

pub const IFF: u64 = 13;

pub const UNDERSCORE: u64 = 14;

pub const FIRST_WORD: u64 = 15;

// = != < <= > >=
pub const EQUAL: u64 = 41;

pub const UNEQUAL: u64 = 42;

pub const LESS: u64 = 43;

pub const AT_MOST: u64 = 44;

pub const GREATER: u64 = 45;

pub const AT_LEAST: u64 = 46;

// An identifier, a string.
pub const NAME: u64 = 47;

pub const STRING: u64 = 48;

// The keys of @ # + /
pub const AT: u64 = 49;

pub const HASH: u64 = 50;

pub const PLUS: u64 = 51;

pub const SLASH: u64 = 52;

// A run of digits, up to 999,999 and above.
pub const NUMBER: u64 = 53;

pub const LARGE_NUMBER: u64 = 54;

// What begins at a place of the text: bytes that separate; a token's kind, the length of its text and its own length; or neither.
#[derive(Clone, Copy)]
enum Segment {
    Gap(usize),
    Lexeme(u64, usize, usize),
    Neither,
}

// The byte at i, and 0 past the end: no token holds it.
fn byte_at(text: &[u8], i: usize) -> u8
    ensures { result ≡ get_or text.now i 0 }
{
    text.get(i).copied().unwrap_or(0)
}

// The mark of two bytes if its second byte is next, else the other segment.
fn longer(next: u8, second: u8, kind: u64, other: Segment) -> Segment
    ensures { result ≡ cond (eqb second next) (Segment.Lexeme kind 0 2) other }
{
    if next == second {
        return Segment::Lexeme(kind, 0, 2);
    }
    other
}

// "<->" if the next two bytes are its own, else the other segment.
fn both_ways(y: u8, z: u8, other: Segment) -> Segment
    ensures { result ≡ cond (eqb 45 y) (cond (eqb 62 z) (Segment.Lexeme 13 0 3) other) other }
{
    if y == b'-' && z == b'>' {
        return Segment::Lexeme(IFF, 0, 3);
    }
    other
}

// The longest mark that begins with the bytes x, y and z.
fn mark_of(x: u8, y: u8, z: u8) -> Segment
    ensures { Marked x y z result }
{
    match x {
        b'(' => Segment::Lexeme(LPAREN, 0, 1),
        b')' => Segment::Lexeme(RPAREN, 0, 1),
        b'{' => Segment::Lexeme(LBRACE, 0, 1),
        b'}' => Segment::Lexeme(RBRACE, 0, 1),
        b'[' => Segment::Lexeme(LBRACKET, 0, 1),
        b']' => Segment::Lexeme(RBRACKET, 0, 1),
        b',' => Segment::Lexeme(COMMA, 0, 1),
        b';' => Segment::Lexeme(SEMICOLON, 0, 1),
        b':' => longer(y, b'=', BECOMES, Segment::Neither),
        b'&' => Segment::Lexeme(AND, 0, 1),
        b'|' => Segment::Lexeme(OR, 0, 1),
        b'!' => longer(y, b'=', UNEQUAL, Segment::Lexeme(NOT, 0, 1)),
        b'-' => longer(y, b'>', IMPLIES, Segment::Neither),
        b'=' => Segment::Lexeme(EQUAL, 0, 1),
        b'<' => both_ways(y, z, longer(y, b'=', AT_MOST, Segment::Lexeme(LESS, 0, 1))),
        b'>' => longer(y, b'=', AT_LEAST, Segment::Lexeme(GREATER, 0, 1)),
        b'@' => Segment::Lexeme(AT, 0, 1),
        b'#' => Segment::Lexeme(HASH, 0, 1),
        b'+' => Segment::Lexeme(PLUS, 0, 1),
        b'/' => Segment::Lexeme(SLASH, 0, 1),
        _ => Segment::Neither,
    }
}

// The longest mark at the place at.
fn mark_at(text: &[u8], at: usize) -> Segment
    requires { at < length text.now }
    ensures value { piece_of (drop at text.now) result ≡ first_mark marks (drop at text.now) }
    ensures small { Small result }
{
    mark_of(text[at], byte_at(text, at + 1), byte_at(text, at + 2))
}

// Whether x and y close a comment.
#[tactic(auto, unfolding(definition::specs::Text::starts))]
fn closes(x: u8, y: u8) -> bool
    ensures { result ≡ starts (ascii "*/") (x ∷ y ∷ []) }
{
    x == b'*' && y == b'/'
}

// The comment that "/*" opens at the place at: "/*/" is open, and comments do not nest.
fn comment_at(text: &[u8], at: usize) -> Segment
    requires { at + 2 ≤ length text.now }
    ensures value { piece_of (drop at text.now) result ≡ comment 2 (drop (at + 2) text.now) }
    ensures small { Small result }
{
    for i in at + 2..text.len() - 1 {
        if closes(text[i], text[i + 1]) {
            return Segment::Gap(i + 2 - at);
        }
    }
    Segment::Neither
}

// The string whose opening quote is at the place at: its text is 0 to 32 bytes.
fn string_at(text: &[u8], at: usize) -> Segment
    requires { at < length text.now }
    ensures value { piece_of (drop at text.now) result ≡ quoted (drop (at + 1) text.now) }
    ensures small { Small result }
{
    let end = run_end(text, at + 1, Class::InString);
    let size = end - (at + 1);
    if 32 < size {
        return Segment::Neither;
    }
    if byte_at(text, end) != b'"' {
        return Segment::Neither;
    }
    Segment::Lexeme(STRING, size, size + 2)
}

// The identifier, the reserved word or "_" alone at the place at.
fn word_at(text: &[u8], at: usize) -> Segment
    requires { at < length text.now }
    ensures value { piece_of (drop at text.now) result ≡ word (take (span is_part (drop at text.now)) (drop at text.now)) }
    ensures small { Small result }
{
    let end = run_end(text, at, Class::Part);
    let n = end - at;
    if 32 < n {
        return Segment::Neither;
    }
    if same(&text[at..end], b"_") {
        return Segment::Lexeme(UNDERSCORE, 0, 1);
    }
    match reserved_word(&text[at..end]) {
        Some(k) => Segment::Lexeme(FIRST_WORD + k as u64, n, n),
        None => Segment::Lexeme(NAME, n, n),
    }
}

// The run of digits at the place at: 1 to 32 bytes.
fn digits_at(text: &[u8], at: usize) -> Segment
    requires { at < length text.now }
    ensures value { piece_of (drop at text.now) result ≡ numeral (take (span is_digit (drop at text.now)) (drop at text.now)) }
    ensures small { Small result }
{
    let end = run_end(text, at, Class::Digit);
    let n = end - at;
    if 32 < n {
        return Segment::Neither;
    }
    if value(&text[at..end]) < 1_000_000 {
        return Segment::Lexeme(NUMBER, n, n);
    }
    Segment::Lexeme(LARGE_NUMBER, n, n)
}

// What begins with a slash at the place at: one of the two comment forms, or the mark.
fn slash_at(text: &[u8], at: usize) -> Segment
    requires { (at < length text.now) × (get_or text.now at 0 ≡ 47) }
    ensures value { piece_of (drop at text.now) result ≡ first_piece (drop at text.now) }
    ensures small { Small result }
{
    let next = byte_at(text, at + 1);
    if next == b'*' {
        return comment_at(text, at);
    }
    if next == b'/' {
        return Segment::Gap(run_end(text, at, Class::NoEnd) - at);
    }
    mark_at(text, at)
}

// Whether x is one of the blanks 9, 10 and 32.
#[tactic(auto, unfolding(definition::specs::Text::is_blank))]
fn separates(x: u8) -> bool
    ensures { result ≡ (is_blank x || eqb x 10) }
{
    x == 9 || x == 32 || x == 10
}

// What begins at the place at.
fn segment_at(text: &[u8], at: usize) -> Segment
    requires { at < length text.now }
    ensures value { piece_of (drop at text.now) result ≡ first_piece (drop at text.now) }
    ensures small { Small result }
{
    let x = text[at];
    if separates(x) {
        return Segment::Gap(1);
    }
    if x == b'/' {
        return slash_at(text, at);
    }
    if is_letter(x) {
        return word_at(text, at);
    }
    if of_class(x, Class::Digit) {
        return digits_at(text, at);
    }
    if x == b'"' {
        return string_at(text, at);
    }
    mark_at(text, at)
}

// The kind of a word's token.
pub fn kind(word: u64) -> u64
    ensures { result ≡ kind_of word }
{
    word % 64
}

// The place of its first byte.
pub fn place(word: u64) -> usize
    ensures { result ≡ at_of word }
{
    (word / 4096) as usize
}

// Where its text begins: a string's past the opening quote.
#[tactic(auto, unfolding(crate::specs::Tokens::quote_of))]
pub fn text_start(word: u64) -> usize
    ensures { result ≡ start_of word }
{
    if kind(word) == STRING {
        return place(word) + 1;
    }
    place(word)
}

// How long its text is; a mark and "_" have none.
pub fn text_length(word: u64) -> usize
    ensures { result ≡ size_of word }
{
    (word / 64 % 64) as usize
}

// The word of a token: six bits for its kind, six for the length of its text, and its place.
fn packed(kind: u64, size: usize, at: usize) -> u64
    requires { (kind < 64) × (size < 64) × (at < 65536) }
    ensures { result ≡ kind + 64 * (size + 64 * at) }
{
    kind + 64 * (size as u64 + 64 * at as u64)
}

// Stores a word; past the end nothing.
fn put(words: &mut [u64], i: usize, word: u64)
    ensures { words.new ≡ set words.old i word }
{
    if i < words.len() {
        words[i] = word;
    }
}

// The place of the 2,049th token: at, if that is the next one, else what is known already.
fn overflow(count: usize, at: usize, known: usize) -> usize
    ensures { result ≡ cond (eqb count 2048) at known }
{
    if count == 2048 { at } else { known }
}

// The tokens of a query of at most 16,384 bytes: how many, the words of the first 2,048, and the place of the next; or the place where no token begins.
fn scan_query(query: &[u8], words: &mut [u64]) -> Result<(usize, usize), usize>
    requires { (length query.now ≤ 16384) × (2048 ≤ length words.old) }
    ensures { Scanned query.now words.new result }
{
    let mut at = 0;
    let mut count = 0;
    let mut over = 0;
    while at < query.len() {
        match segment_at(query, at) {
            Segment::Gap(n) => {
                at += n;
            }
            Segment::Lexeme(kind, size, n) => {
                put(words, count, packed(kind, size, at));
                over = overflow(count, at, over);
                count += 1;
                at += n;
            }
            Segment::Neither => {
                return Err(at);
            }
        }
    }
    Ok((count, over))
}

// "At most 16,384 bytes and 2,048 tokens": a word for each token, or row 8, 9 or 13 with its place. Words past the answer's count, and all of
// them on a refusal, may be anything.
pub fn lex(query: &[u8], words: &mut [u64]) -> Result<usize, Refusal>
    requires { 2048 ≤ length words.old }
    ensures value { answer query.now words.new result ≡ query_tokens query.now }
    ensures within { (count_of result ≤ 2048) × Inside query.now (take (count_of result) words.new) }
{
    if 16384 < query.len() {
        return Err(Refusal::QueryTooLong);
    }
    let legal = run_end(query, 0, Class::Legal);
    match scan_query(query, words) {
        Err(p) => Err(Refusal::NoToken(p.min(legal))),
        Ok((count, over)) => {
            if legal < query.len() {
                return Err(Refusal::NoToken(legal));
            }
            if 2048 < count {
                return Err(Refusal::TooMuch(over));
            }
            Ok(count)
        }
    }
}
