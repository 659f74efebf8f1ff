// Numbers and the line of a tuple put to a buffer, or only counted. A place past the buffer's end counts as the one just past it, so no count overflows.
#![tactic(auto)]

ghost use Rattle.std.specs.Prelude.{◌≡◌, [], ◌∷◌, ℕ, ◌+◌, ◌-◌, ◌≤◌, length, get_or, take, drop};
ghost use Rattle.std.proofs.lemmas.List.Edits.{sets};
ghost use Rattle.definition.specs.Text.{Text, gather};
ghost use Rattle.definition.specs.Decimals.{digits, decimal};
ghost use Rattle.lines.specs.Lines.{texts, element_at, shown_at, shown_most, after, line_of};
ghost use Rattle.lines.specs.Put.{Put};

use parts::text_of;

// Puts a byte.
pub fn put(out: &mut [u8], at: usize, b: u8, write: bool) -> usize
    ensures { Put write out.old at (b ∷ []) result out.new }
{
    let n = out.len();
    if n <= at {
        return n + 1;
    }
    if write {
        out[at] = b;
        return at + 1;
    }
    at + 1
}

// Writes a text from place `at` on, as far as there is room.
// Byte by byte: with copy_from_slice the archive for C would need memmove from outside.
fn copy(out: &mut [u8], at: usize, s: &[u8])
    requires { at ≤ length out.old + 1 }
    ensures { out.new ≡ sets out.old at s.now }
{
    let end = (at + s.len()).min(out.len());
    for p in at..end {
        out[p] = s[p - at];
    }
}

// Puts a text: only its length is added where it is not written.
pub fn put_text(out: &mut [u8], at: usize, s: &[u8], write: bool) -> usize
    requires { at ≤ length out.old + 1 }
    ensures { Put write out.old at s.now result out.new }
{
    if write {
        copy(out, at, s);
    }
    (at + s.len()).min(out.len() + 1)
}

// Puts a number of at most k digits.
fn put_digits(out: &mut [u8], at: usize, n: u64, k: usize, write: bool) -> usize
    requires { at ≤ length out.old + 1 }
    ensures { Put write out.old at (digits k n) result out.new }
{
    if k == 0 {
        return at;
    }
    if n < 10 {
        return put(out, at, 48 + n as u8, write);
    }
    let p = put_digits(out, at, n / 10, k - 1, write);
    put(out, p, 48 + (n % 10) as u8, write)
}

// Puts a number in decimal.
pub fn put_decimal(out: &mut [u8], at: usize, n: u64, write: bool) -> usize
    requires { at ≤ length out.old + 1 }
    ensures { Put write out.old at (decimal n) result out.new }
{
    put_digits(out, at, n, 10, write)
}

fn place_at(places: &[usize], a: usize) -> usize
    ensures { result ≡ get_or places.now a 0 }
{
    places.get(a).copied().unwrap_or(0)
}

// The text of an element.
pub fn element<'a>(facts: &'a [u8], query: &'a [u8], places: &[usize], a: u8) -> &'a [u8]
    ensures { result.now ≡ element_at (texts facts.now query.now places.now) a }
{
    text_of(facts, query, place_at(places, a as usize))
}

// The most bytes that the element with the place w takes, its quotes among them.
fn shown_most(w: usize) -> usize
    ensures { result ≡ shown_most w }
{
    if w % 4 == 1 {
        w / 8 % 64 + 2
    } else {
        w / 8 % 64
    }
}

// The most bytes that any element takes, its quotes among them.
pub fn longest(places: &[usize]) -> usize
    ensures { (result ≤ 65) × ((f q : Text) (a : ℕ) → length (shown_at (texts f q places.now) a) ≤ result) }
{
    let mut m: usize = 0;
    for w in places {
        m = m.max(shown_most(*w));
    }
    m
}

// Puts an element, in quotes where its tag says so.
fn put_shown<'a>(
    facts: &'a [u8],
    query: &'a [u8],
    places: &[usize],
    out: &mut [u8],
    at: usize,
    a: u8,
    write: bool,
) -> usize
    requires { at ≤ length out.old + 1 }
    ensures { Put write out.old at (shown_at (texts facts.now query.now places.now) a) result out.new }
{
    let text = element(facts, query, places, a);
    if place_at(places, a as usize) % 4 == 1 {
        let p = put(out, at, 34, write);
        let q = put_text(out, p, text, write);
        return put(out, q, 34, write);
    }
    put_text(out, at, text, write)
}

// Puts the elements of a tuple from the element `from` on, each after a space.
fn put_after<'a>(
    facts: &'a [u8],
    query: &'a [u8],
    places: &[usize],
    out: &mut [u8],
    at: usize,
    t: [u8; 4],
    n: usize,
    from: usize,
    write: bool,
) -> usize
    requires { (n ≤ 4) × (from ≤ n) × (at ≤ length out.old + 1) }
    ensures { Put write out.old at (gather (after (texts facts.now query.now places.now)) (take (n - from) (drop from t))) result out.new }
{
    let mut p = at;
    for k in from..n {
        let q = put(out, p, 32, write);
        p = put_shown(facts, query, places, out, q, t[k], write);
    }
    p
}

// Puts the line of a tuple under a label.
pub fn put_labelled<'a>(
    facts: &'a [u8],
    query: &'a [u8],
    places: &[usize],
    label: &[u8],
    out: &mut [u8],
    at: usize,
    t: [u8; 4],
    n: usize,
    write: bool,
) -> usize
    requires { (n ≤ 4) × (at ≤ length out.old + 1) }
    ensures { Put write out.old at (line_of (texts facts.now query.now places.now) (label.now ∷ []) (take n t)) result out.new }
{
    let p = put_text(out, at, label, write);
    let q = put_after(facts, query, places, out, p, t, n, 0, write);
    put(out, q, 10, write)
}

// Puts the line of a tuple without a label.
pub fn put_plain<'a>(
    facts: &'a [u8],
    query: &'a [u8],
    places: &[usize],
    out: &mut [u8],
    at: usize,
    t: [u8; 4],
    n: usize,
    write: bool,
) -> usize
    requires { (n ≤ 4) × (at ≤ length out.old + 1) }
    ensures { Put write out.old at (line_of (texts facts.now query.now places.now) [] (take n t)) result out.new }
{
    if n == 0 {
        return put(out, at, 10, write);
    }
    let p = put_shown(facts, query, places, out, at, t[0], write);
    let q = put_after(facts, query, places, out, p, t, n, 1, write);
    put(out, q, 10, write)
}
