// Texts as slices of bytes: their order and equality, the classes of bytes, the reserved words, names, the value of digits.
#![tactic(auto)]

ghost use Rattle.std.specs.Prelude.{◌≡◌, true, false, [], ◌∷◌, ℕ, ◌+◌, ◌-◌, ◌*◌, ◌≤◌, ◌<◌, min, length, drop};
ghost use Rattle.definition.specs.Text.{same, starts, span, member, reserved, is_letter, is_part, is_legal, is_blank, needs_quotes, is_name, between};
ghost use Rattle.definition.specs.Token.{word_terminal, FIRST_WORD, value};
ghost use Rattle.texts.specs.Orders.{order};
ghost use Rattle.texts.specs.Classes.{is_of};
ghost use Rattle.texts.specs.Words.{is_reserved, terminal_of, index_of};

use std::cmp::Ordering;

// How a stands to b "in byte order, a prefix first".
#[tactic(auto, using(crate::proofs::OrderLaws::order_bytes))]
pub fn compare(a: &[u8], b: &[u8]) -> Ordering
    ensures { result ≡ order a.now b.now }
{
    a.cmp(b)
}

// Whether a and b are the same text.
#[tactic(auto, using(crate::proofs::OrderLaws::same_bytes))]
pub fn same(a: &[u8], b: &[u8]) -> bool
    ensures { result ≡ same a.now b.now }
{
    a == b
}

// Whether the text starts with the byte b.
#[tactic(auto, using(crate::proofs::OrderLaws::starts_byte))]
pub fn starts_with(l: &[u8], b: u8) -> bool
    ensures { result ≡ starts (b ∷ []) l.now }
{
    l.starts_with(&[b])
}

// The classes of bytes that runs are made of. Inside: no blank. Printable: 32 to 126. InString: neither a quote nor byte 10. Bare: neither a quote nor a blank.
#[derive(Clone, Copy)]
pub enum Class {
    Blank,
    Inside,
    Part,
    Legal,
    Printable,
    NoQuote,
    NoEnd,
    InString,
    Bare,
    Digit,
}

// "spaces or tabs"
#[tactic(auto, unfolding(definition::specs::Text::is_blank))]
pub fn is_blank(b: u8) -> bool
    ensures { result ≡ is_blank b }
{
    b == 9 || b == 32
}

// From low to high.
fn is_between(low: u8, high: u8, b: u8) -> bool
    ensures { result ≡ between low high b }
{
    low <= b && b <= high
}

// "a letter or underscore"
#[tactic(auto, unfolding(definition::specs::Text::is_letter))]
pub fn is_letter(b: u8) -> bool
    ensures { result ≡ is_letter b }
{
    is_between(65, 90, b) || is_between(97, 122, b) || b == 95
}

// "letters, digits, underscores"
#[tactic(auto, unfolding(definition::specs::Text::is_part))]
pub fn is_part(b: u8) -> bool
    ensures { result ≡ is_part b }
{
    is_letter(b) || is_between(48, 57, b)
}

// "9, 10 or 32..126"
#[tactic(auto, unfolding(definition::specs::Text::is_legal))]
pub fn is_legal(b: u8) -> bool
    ensures { result ≡ is_legal b }
{
    b == 9 || b == 10 || is_between(32, 126, b)
}

// Whether b is of the class k.
#[tactic(auto, unfolding(definition::specs::Text::is_digit))]
pub fn of_class(b: u8, k: Class) -> bool
    ensures { result ≡ is_of k b }
{
    match k {
        Class::Blank => is_blank(b),
        Class::Inside => !is_blank(b),
        Class::Part => is_part(b),
        Class::Legal => is_legal(b),
        Class::Printable => is_between(32, 126, b),
        Class::NoQuote => b != 34,
        Class::NoEnd => b != 10,
        Class::InString => b != 34 && b != 10,
        Class::Bare => b != 34 && !is_blank(b),
        Class::Digit => is_between(48, 57, b),
    }
}

// Where the run of bytes of the class k that starts at `at` ends.
// By `get` and no range: from a range's end the compiler makes ten counters in the loops that a line of facts is read by.
pub fn run_end(s: &[u8], at: usize, k: Class) -> usize
    requires { at ≤ length s.now }
    ensures value { result ≡ at + span (is_of k) (drop at s.now) }
    ensures within { (at ≤ result) × (result ≤ length s.now) }
{
    let mut i = at;
    while let Some(&b) = s.get(i) {
        if !of_class(b, k) {
            return i;
        }
        i += 1;
    }
    i
}

// Whether an element with the text s is printed in quotes though no fact quoted it: "if it is empty or holds a space or tab".
#[tactic(auto, using(crate::proofs::QuoteLaws::quotes_empty, crate::proofs::QuoteLaws::quotes_blank))]
pub fn needs_quotes(s: &[u8]) -> bool
    ensures { result ≡ needs_quotes s.now }
{
    s.is_empty() || run_end(s, 0, Class::Inside) < s.len()
}

// "Reserved are TRUE, FALSE and the manual's 24 keywords (6.1)": 26 words of up to 7 letters, filled up with blanks.
const WORDS: [u8; 182] =
    *b"AVG    DIV    ELSE   ENDL   EX     EXEC   EXIT   FA     FOR    IF     IN     MAX    MIN    MOD    NUMBER PRINT  RELINFOSTDERR STRING SUM    TC     TCFAST TO     WHILE  TRUE   FALSE  ";

// How many letters each of them has.
const LENGTHS: [usize; 26] = [
    3, 3, 4, 4, 2, 4, 4, 2, 3, 2, 2, 3, 3, 3, 6, 5, 7, 6, 6, 3, 2, 6, 2, 5, 4, 5,
];

// Whether w is not reserved by its length or its second letter: most names are told so, before the table is made.
fn is_other(w: &[u8]) -> bool
    ensures { result ≡ true → member w.now reserved ≡ false }
{
    w.len() < 2 || 7 < w.len() || 90 < w[1]
}

// The index in the table of the reserved word that the text w is.
pub fn reserved_word(w: &[u8]) -> Option<usize>
    ensures listed { is_reserved result ≡ member w.now reserved }
    ensures terminal { (i : ℕ) → word_terminal reserved FIRST_WORD w.now i ≡ terminal_of result i }
    ensures index { index_of result < 26 }
{
    if is_other(w) {
        return None;
    }
    let words = WORDS;
    let lengths = LENGTHS;
    for k in 0..26 {
        let a = k * 7;
        if same(&words[a..a + lengths[k]], w) {
            return Some(k);
        }
    }
    None
}

// Whether the text w is a name: "a letter or underscore, then letters, digits, underscores, 1 to 32 bytes, not "_" alone and not reserved".
#[tactic(auto, using(crate::proofs::NameLaws::tests))]
pub fn is_name(w: &[u8]) -> bool
    ensures { result ≡ is_name w.now }
{
    !w.is_empty()
        && w.len() <= 32
        && is_letter(w[0])
        && run_end(w, 1, Class::Part) == w.len()
        && !same(w, b"_")
        && reserved_word(w).is_none()
}

// The value of a digit.
fn digit(b: u8) -> u64
    ensures { result ≡ b - 48 }
{
    u64::from(b.saturating_sub(48))
}

// The value of digits that begin with value v and end with the digit b, 1,000,000 where it is larger.
fn with_digit(v: u64, b: u8) -> u64
    requires { v ≤ 1_000_000 }
    ensures { result ≡ min (10 * v + (b - 48)) 1_000_000 }
{
    (10 * v + digit(b)).min(1_000_000)
}

// The value of a run of digits, 1,000,000 where it is larger: no literal that large is taken.
pub fn value(s: &[u8]) -> u64
    ensures { result ≡ min (value s.now) 1_000_000 }
{
    let mut v: u64 = 0;
    for b in s {
        v = with_digit(v, *b);
    }
    v
}
