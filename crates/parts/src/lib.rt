// Parts of two texts as numbers, and lists of them: names and elements.
#![tactic(auto)]

ghost use Rattle.std.specs.Prelude.{◌≡◌, ◌∷◌, ◌++◌, ◌+◌, ◌≤◌, ◌<◌, length, take, drop};
ghost use Rattle.parts.specs.Packed.{pack, text_of};
ghost use Rattle.definition.specs.Facts.{Ascending};
ghost use Rattle.parts.specs.Entries.{quoted_too, position, index, enter, in_front, count_in, texts_of};
ghost use Rattle.parts.specs.Places.{entered_at, PlaceWithin};

use std::cmp::Ordering;
use texts::{compare, same};

// The number of a part of the facts (text 0) or of the query (text 1), with a tag.
pub fn packed(text: usize, offset: usize, len: usize, tag: usize) -> usize
    requires { (text < 2) × (offset < 4294967296) × (len < 64) × (tag < 4) }
    ensures { result ≡ pack text offset len tag }
{
    ((offset * 64 + len) * 2 + text) * 4 + tag
}

// The n bytes of s from offset on, or as many as there are.
pub fn part(s: &[u8], offset: usize, n: usize) -> &[u8]
    ensures { result.now ≡ take n (drop offset s.now) }
{
    let len = s.len();
    if len <= offset {
        return &s[..0];
    }
    if len - offset < n {
        return &s[offset..len];
    }
    &s[offset..offset + n]
}

// The text of the number w.
pub fn text_of<'a>(facts: &'a [u8], query: &'a [u8], w: usize) -> &'a [u8]
    ensures { result.now ≡ text_of facts.now query.now w }
{
    let offset = w / 512;
    let n = w / 8 % 64;
    if w / 4 % 2 == 0 {
        return part(facts, offset, n);
    }
    part(query, offset, n)
}

// The index of the first of the parts that has the text t; their number, if none has.
pub fn position_of<'a>(facts: &'a [u8], query: &'a [u8], parts: &[usize], t: &[u8]) -> usize
    ensures value { result ≡ position facts.now query.now t.now parts.now }
    ensures within { result ≤ length parts.now }
{
    for (k, w) in parts.iter().enumerate() {
        if same(t, text_of(facts, query, *w)) {
            return k;
        }
    }
    parts.len()
}

// The index of the first of the parts that has the text of v; their number, if none has.
pub fn index_of<'a>(facts: &'a [u8], query: &'a [u8], parts: &[usize], v: usize) -> usize
    ensures value { result ≡ index facts.now query.now v parts.now }
    ensures within { result ≤ length parts.now }
{
    position_of(facts, query, parts, text_of(facts, query, v))
}

// Where v stands among the parts, which are in byte order, or where it belongs: as the library's `binary_search` answers.
pub fn place_of<'a>(
    facts: &'a [u8],
    query: &'a [u8],
    parts: &[usize],
    v: usize,
) -> Result<usize, usize>
    ensures value { enter facts.now query.now v parts.now ≡ entered_at v parts.now result }
    ensures within { PlaceWithin (length parts.now) result }
{
    let text = text_of(facts, query, v);
    for (p, w) in parts.iter().enumerate() {
        match compare(text, text_of(facts, query, *w)) {
            Ordering::Equal => return Ok(p),
            Ordering::Less => return Err(p),
            Ordering::Greater => {}
        }
    }
    Err(parts.len())
}

// The part w, quoted if v is.
#[tactic(auto, unfolding(crate::specs::Entries::quoted_too))]
fn quoted_too(v: usize, w: usize) -> usize
    ensures { result ≡ quoted_too v w }
{
    if v % 4 == 1 && w % 4 == 0 { w + 1 } else { w }
}

// Puts v at the place p of the first n words. A loop and not the library's `rotate_right`, for which the archive for C would need `memmove`
// from outside.
pub fn insert_at<T: Copy>(words: &mut [T], p: usize, n: usize, v: T)
    requires { (p ≤ n) × (n < length words.old) }
    ensures { words.new ≡ (take p words.old ++ v ∷ drop p (take n words.old)) ++ drop (n + 1) words.old }
{
    let mut carried = v;
    for w in &mut words[p..=n] {
        std::mem::swap(w, &mut carried);
    }
}

// Enters v at its place in the list of the first n words, and answers how many it then has; where it is full, the words stay.
pub fn enter_at(
    words: &mut [usize],
    n: usize,
    v: usize,
    place: Result<usize, usize>,
) -> Option<usize>
    requires { (n ≤ length words.old) × PlaceWithin n place }
    ensures value { result ≡ count_in (entered_at v (take n words.old) place) words.old }
    ensures words { words.new ≡ in_front (entered_at v (take n words.old) place) words.old }
{
    match place {
        Ok(p) => {
            words[p] = quoted_too(v, words[p]);
            Some(n)
        }
        Err(p) => {
            if n == words.len() {
                return None;
            }
            insert_at(words, p, n, v);
            Some(n + 1)
        }
    }
}

// Enters v into the sorted list of the first n words, and answers how many it then has; where it is full, the words stay.
pub fn enter_part<'a>(
    facts: &'a [u8],
    query: &'a [u8],
    words: &mut [usize],
    n: usize,
    v: usize,
) -> Option<usize>
    requires { n ≤ length words.old }
    ensures value { result ≡ count_in (enter facts.now query.now v (take n words.old)) words.old }
    ensures words { words.new ≡ in_front (enter facts.now query.now v (take n words.old)) words.old }
{
    let place = place_of(facts, query, &words[..n], v);
    enter_at(words, n, v, place)
}

// As `place_of`, in few steps: each halves the list.
pub fn find_place<'a>(
    facts: &'a [u8],
    query: &'a [u8],
    parts: &[usize],
    v: usize,
) -> Result<usize, usize>
    requires { Ascending (texts_of facts.now query.now parts.now) }
    ensures value { enter facts.now query.now v parts.now ≡ entered_at v parts.now result }
    ensures within { PlaceWithin (length parts.now) result }
{
    let text = text_of(facts, query, v);
    let mut low: usize = 0;
    let mut high = parts.len();
    while low < high {
        let p = low + (high - low) / 2;
        let w = parts[p];
        match compare(text, text_of(facts, query, w)) {
            Ordering::Equal => return Ok(p),
            Ordering::Less => {
                high = p;
            }
            Ordering::Greater => {
                low = p + 1;
            }
        }
    }
    Err(low)
}
