// Parts in byte order, found by hints: a table proposes a place, and only the text that stands there decides.
#![tactic(auto)]

ghost use Rattle.std.specs.Prelude.{◌≡◌, true, ◌+◌, ◌≤◌, ◌<◌, length, get_or, take};
ghost use Rattle.definition.specs.Text.{same};
ghost use Rattle.definition.specs.Facts.{Ascending};
ghost use Rattle.parts.specs.Packed.{text_of};
ghost use Rattle.parts.specs.Places.{entered_at, PlaceWithin};
ghost use Rattle.parts.specs.Entries.{position, enter, in_front, count_in, texts_of};

use parts::{enter_at, find_place, position_of, text_of};
use texts::same;

// Where the hints for a text start in the table: a number made of its bytes.
fn mark(t: &[u8]) -> usize
    ensures { result < 256 }
{
    let mut h = 0;
    for x in t {
        h = (h * 31 + usize::from(*x)) % 256;
    }
    h
}

// Puts the hint k into the first free place from h on; 255 is free.
fn note(hints: &mut [u8; 256], h: usize, k: u8)
    requires { h < 256 }
    ensures { length hints.new ≡ length hints.old }
{
    for j in h..h + 256 {
        let i = j % 256;
        if hints[i] == 255 {
            hints[i] = k;
            return;
        }
    }
}

// The hints for all parts.
pub fn hints_of<'a>(facts: &'a [u8], query: &'a [u8], parts: &[usize]) -> [u8; 256]
    ensures { length result ≡ 256 }
{
    let mut hints = [255u8; 256];
    for (k, w) in parts.iter().enumerate() {
        note(&mut hints, mark(text_of(facts, query, *w)), (k % 256) as u8);
    }
    hints
}

// The index of a part that has the text t, by the hints from h on to a free one; at least the number of parts, if none of them has it.
fn proposed<'a>(
    facts: &'a [u8],
    query: &'a [u8],
    parts: &[usize],
    hints: &[u8; 256],
    h: usize,
    t: &[u8],
) -> usize
    requires { h < 256 }
    ensures { result < length parts.now → same t.now (text_of facts.now query.now (get_or parts.now result 0)) ≡ true }
{
    for j in h..h + 256 {
        let k = usize::from(hints[j % 256]);
        if parts.len() <= k || same(t, text_of(facts, query, parts[k])) {
            return k;
        }
    }
    parts.len()
}

// As `position_of`, in few steps, where the parts stand in byte order.
pub fn hinted_position<'a>(
    facts: &'a [u8],
    query: &'a [u8],
    parts: &[usize],
    hints: &[u8; 256],
    t: &[u8],
) -> usize
    ensures { Ascending (texts_of facts.now query.now parts.now) → result ≡ position facts.now query.now t.now parts.now }
{
    let k = proposed(facts, query, parts, hints, mark(t), t);
    if k < parts.len() {
        return k;
    }
    position_of(facts, query, parts, t)
}

fn moved(k: u8, p: u8) -> u8
    ensures { result < 256 }
{
    if k < p || k == 255 { k } else { k + 1 }
}

// Makes room for the index p: the hints from it on are one more.
fn shift(hints: &mut [u8; 256], p: u8)
    ensures { length hints.new ≡ length hints.old }
{
    for k in hints.iter_mut() {
        *k = moved(*k, p);
    }
}

// Notes the place of a part that was looked for, among the hints from h on.
fn learn(hints: &mut [u8; 256], h: usize, place: Result<usize, usize>)
    requires { h < 256 }
    ensures { length hints.new ≡ length hints.old }
{
    match place {
        Ok(p) => note(hints, h, (p % 256) as u8),
        Err(p) => {
            shift(hints, (p % 256) as u8);
            note(hints, h, (p % 256) as u8);
        }
    }
}

// As `find_place`, in fewer steps where the hints propose the place; they learn it where they do not.
fn hinted_place<'a>(
    facts: &'a [u8],
    query: &'a [u8],
    parts: &[usize],
    hints: &mut [u8; 256],
    v: usize,
) -> Result<usize, usize>
    requires { Ascending (texts_of facts.now query.now parts.now) }
    ensures value { enter facts.now query.now v parts.now ≡ entered_at v parts.now result }
    ensures within { PlaceWithin (length parts.now) result }
{
    let t = text_of(facts, query, v);
    let h = mark(t);
    let k = proposed(facts, query, parts, hints, h, t);
    if k < parts.len() {
        return Ok(k);
    }
    let place = find_place(facts, query, parts, v);
    learn(hints, h, place);
    place
}

// As `enter_part`, in few steps, where the words are known to stand in byte order: the elements of facts are many.
pub fn enter_hinted<'a>(
    facts: &'a [u8],
    query: &'a [u8],
    words: &mut [usize],
    n: usize,
    hints: &mut [u8; 256],
    v: usize,
) -> Option<usize>
    requires { (n ≤ length words.old) × Ascending (texts_of facts.now query.now (take n words.old)) }
    ensures value { result ≡ count_in (enter facts.now query.now v (take n words.old)) words.old }
    ensures words { words.new ≡ in_front (enter facts.now query.now v (take n words.old)) words.old }
{
    let place = hinted_place(facts, query, &words[..n], hints, v);
    enter_at(words, n, v, place)
}
