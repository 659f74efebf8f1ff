// The facts: a line read as a part of the text.
#![tactic(auto)]

ghost use Rattle.std.specs.Prelude.{◌≡◌, [], ◌∷◌, ◌++◌, ℕ, ◌+◌, ◌-◌, ◌≤◌, ◌<◌, length, get_or, take, drop, replicate};
ghost use Rattle.definition.specs.Text.{Text};
ghost use Rattle.definition.specs.Limits.{ARITY, WORD_BYTES, FACT_BYTES};
ghost use Rattle.definition.specs.Facts.{word, fact, last_place, Ascending};
ghost use Rattle.parts.specs.Entries.{texts_of};
ghost use Rattle.facts.specs.Lines.{start_of, Within, AllWithin, NextWithin, ReadWithin, items_of, item_at, line_at, next_word, word_of, says, says_elements, role, role_of};
ghost use Rattle.facts.specs.Words.{elements_at, item_word};
ghost use Rattle.facts.specs.Pass.{RelationUsed, UniverseUsed, FactTaken};
ghost use Rattle.facts.specs.Reading.{line_of, Taken, LinesRead, MeetsAfter, Meets};
ghost use Rattle.facts.specs.Again.{FactOfLine, NextIs};

use breaks::{check_bytes, line_end};
use definition::Refusal;
use hints::enter_hinted;
use parts::{index_of, packed};
use texts::{Class, is_name, run_end, starts_with};

// An element of a line: its place in the line, which is its opening quote's if it has one, and the length of its value.
#[derive(Clone, Copy)]
pub struct Item {
    pub place: usize,
    pub len: usize,
    pub quoted: bool,
}

// What stands next in a line: nothing, an element and the bytes that it takes, or a malformed element.
#[derive(Clone, Copy)]
pub enum Next {
    Nothing,
    Found(Item, usize),
    Wrong(usize),
}

// A fact: the length of its name, which starts the line, and up to three elements.
#[derive(Clone, Copy)]
pub struct FactLine {
    pub name_len: usize,
    pub arity: usize,
    pub first: Item,
    pub second: Item,
    pub third: Item,
}

// What a line reads as: a fact, a line that is skipped, the dot that ends the facts, or a refusal with its place in the line.
#[derive(Clone, Copy)]
pub enum LineRead {
    Holds(FactLine),
    Skipped,
    End,
    BadName,
    BadElement(usize),
    TooMany(usize),
}

// The element in quotes that starts at b: "a non-blank after a closing one" makes it malformed.
fn quoted_at(l: &[u8], b: usize) -> Next
    requires b_in_bounds { b < length l.now }
    requires b_value { get_or l.now b 0 ≡ 34 }
    ensures value { (i : ℕ) → word (i + b) (drop b l.now) ≡ word_of l.now i result }
    ensures within { NextWithin (length l.now) result }
{
    let a = b + 1;
    let e = run_end(l, a, Class::NoQuote);
    if e == l.len() {
        return Next::Wrong(b);
    }
    if 32 < e - a {
        return Next::Wrong(b);
    }
    if 1 < run_end(l, e, Class::Inside) - e {
        return Next::Wrong(b);
    }
    Next::Found(
        Item {
            place: b,
            len: e - a,
            quoted: true,
        },
        e - a + 2,
    )
}

// The bare element that starts at b: it ends at a blank or the line's end, and a quote makes it malformed.
fn bare_at(l: &[u8], b: usize) -> Next
    requires b_in_bounds { b < length l.now }
    requires fact { get_or l.now b 0 ≡ 34 → ⊥ }
    ensures value { (i : ℕ) → word (i + b) (drop b l.now) ≡ word_of l.now i result }
    ensures within { NextWithin (length l.now) result }
{
    let e = run_end(l, b, Class::Bare);
    if 32 < e - b {
        return Next::Wrong(b);
    }
    if l.get(e) == Some(&34) {
        return Next::Wrong(b);
    }
    Next::Found(
        Item {
            place: b,
            len: e - b,
            quoted: false,
        },
        e - b,
    )
}

// What stands from j on.
fn next_at(l: &[u8], j: usize) -> Next
    requires { j ≤ length l.now }
    ensures value { (i : ℕ) → next_word l.now i j ≡ word_of l.now i result }
    ensures within { NextWithin (length l.now) result }
{
    let b = run_end(l, j, Class::Blank);
    if b == l.len() {
        return Next::Nothing;
    }
    if l[b] == 34 {
        quoted_at(l, b)
    } else {
        bare_at(l, b)
    }
}

fn no_item() -> Item
    ensures { (n : ℕ) → Within n result }
{
    Item {
        place: 0,
        len: 0,
        quoted: false,
    }
}

// The fact f with one element more.
fn with_item(f: FactLine, x: Item) -> FactLine
    requires { f.arity < ARITY }
    ensures name { result.name_len ≡ f.name_len }
    ensures arity { result.arity ≡ f.arity + 1 }
    ensures items { items_of result ≡ items_of f ++ (x ∷ []) }
    ensures within { (n : ℕ) → AllWithin n f → Within n x → AllWithin n result }
{
    let k = f.arity;
    let mut g = f;
    g.arity = k + 1;
    match k {
        0 => {
            g.first = x;
        }
        1 => {
            g.second = x;
        }
        _ => {
            g.third = x;
        }
    }
    g
}

// The fact whose name is the line's first n bytes, with its elements: "per element 4 and, at the first too many, 5".
fn read_elements(l: &[u8], n: usize) -> LineRead
    requires { (n ≤ length l.now) × (n ≤ WORD_BYTES) }
    ensures value { (i : ℕ) → role_of l.now i result ≡ says_elements l.now i n }
    ensures within { ReadWithin (length l.now) result }
{
    let none = no_item();
    let mut f = FactLine {
        name_len: n,
        arity: 0,
        first: none,
        second: none,
        third: none,
    };
    let mut j = n;
    loop {
        match next_at(l, j) {
            Next::Nothing => return LineRead::Holds(f),
            Next::Wrong(p) => return LineRead::BadElement(p),
            Next::Found(x, m) => {
                let k = f.arity;
                let p = x.place;
                if k == 3 {
                    return LineRead::TooMany(p);
                }
                f = with_item(f, x);
                j = p + m;
            }
        }
    }
}

// "Any other line is a relation name at the line's first byte, then 0 to 3 elements"
fn read_fact(l: &[u8]) -> LineRead
    ensures value { (i : ℕ) → role_of l.now i result ≡ says (fact (line_at l.now i)) }
    ensures within { ReadWithin (length l.now) result }
{
    let n = run_end(l, 0, Class::Inside);
    if !is_name(&l[..n]) {
        return LineRead::BadName;
    }
    read_elements(l, n)
}

// What the line l reads as; its places are counted from its first byte.
pub fn read_line(l: &[u8]) -> LineRead
    ensures value { (i : ℕ) → role_of l.now i result ≡ role (line_at l.now i) }
    ensures within { ReadWithin (length l.now) result }
{
    if starts_with(l, b'.') {
        return LineRead::End;
    }
    if starts_with(l, b'#') {
        return LineRead::Skipped;
    }
    if run_end(l, 0, Class::Blank) == l.len() {
        return LineRead::Skipped;
    }
    read_fact(l)
}

// Why a name is not used: it has another arity, in this text or in the first, or there is no room for one more relation.
#[derive(Clone, Copy)]
enum NotUsed {
    OtherArity,
    Clash,
    Full,
}

// How many relations there are once the name v, whose tag is its arity, is used after the first n: those of the first text are parts of
// `query`.
fn use_relation<'a>(
    facts: &'a [u8],
    query: &'a [u8],
    relations: &mut [usize],
    n: usize,
    v: usize,
) -> Result<usize, NotUsed>
    requires { n ≤ length relations.old }
    ensures { RelationUsed facts.now query.now v relations.old relations.new n result }
{
    let k = index_of(facts, query, &relations[..n], v);
    if k < n {
        let w = relations[k];
        if w % 4 == v % 4 {
            return Ok(n);
        }
        if w / 4 % 2 == 1 {
            return Err(NotUsed::Clash);
        }
        return Err(NotUsed::OtherArity);
    }
    if n == relations.len() {
        return Err(NotUsed::Full);
    }
    relations[n] = v;
    Ok(n + 1)
}

fn item_at(f: FactLine, i: usize) -> Item
    ensures { result ≡ item_at f i }
{
    match i {
        0 => f.first,
        1 => f.second,
        _ => f.third,
    }
}

// Where an element's value starts in its line: past the quote, if there is one.
pub fn value_start(x: Item) -> usize
    requires { x.place ≤ FACT_BYTES }
    ensures { (result ≡ start_of x) × (result ≤ FACT_BYTES + 1) }
{
    let p = x.place;
    if x.quoted {
        return p + 1;
    }
    p
}

// The number of an element of the line that starts at a.
fn element_word(a: usize, x: Item) -> usize
    requires { (a ≤ FACT_BYTES) × (x.place ≤ FACT_BYTES) × (x.len ≤ WORD_BYTES) }
    ensures { result ≡ item_word a x }
{
    packed(0, a + value_start(x), x.len, x.quoted as usize)
}

// How many elements there are once those of a fact of the line that starts at a are entered into the universe of n, or the place of the one
// for which there is no room.
fn use_elements<'a>(
    facts: &'a [u8],
    query: &'a [u8],
    universe: &mut [usize],
    hints: &mut [u8; 256],
    n: usize,
    a: usize,
    f: FactLine,
) -> Result<usize, usize>
    requires { (n ≤ length universe.old) × (a ≤ length facts.now) × (length facts.now ≤ FACT_BYTES) × AllWithin (length facts.now - a) f × Ascending (texts_of facts.now query.now (take n universe.old)) }
    ensures { UniverseUsed facts.now query.now a f universe.old universe.new n result }
{
    let mut count = n;
    for i in 0..f.arity {
        let x = item_at(f, i);
        match enter_hinted(facts, query, universe, count, hints, element_word(a, x)) {
            None => return Err(a + x.place),
            Some(m) => {
                count = m;
            }
        }
    }
    Ok(count)
}

// "at the line's last element or, with none, its name"
fn last_place(a: usize, f: FactLine) -> usize
    requires { (a ≤ FACT_BYTES) × AllWithin FACT_BYTES f }
    ensures { (facts : Text) → last_place a (elements_at facts a (items_of f)) ≡ result }
{
    let k = f.arity;
    if k == 0 {
        return a;
    }
    let x = item_at(f, k - 1);
    a + x.place
}

// How many relations and elements there are.
#[derive(Clone, Copy)]
pub struct Counts {
    pub relations: usize,
    pub elements: usize,
}

// Takes in a fact of the line that starts at a: "then 5 for another arity .." or 20; "then 6, 7".
fn with_fact<'a>(
    facts: &'a [u8],
    query: &'a [u8],
    relations: &mut [usize],
    universe: &mut [usize],
    hints: &mut [u8; 256],
    c: Counts,
    a: usize,
    f: FactLine,
) -> Result<Counts, Refusal>
    requires { (c.relations ≤ length relations.old) × (c.elements ≤ length universe.old) × (a ≤ length facts.now) × (length facts.now ≤ FACT_BYTES) × AllWithin (length facts.now - a) f × Ascending (texts_of facts.now query.now (take c.elements universe.old)) }
    ensures { FactTaken facts.now query.now a f relations.old relations.new universe.old universe.new c result }
{
    let n = c.relations;
    let m = c.elements;
    let r = match use_relation(
        facts,
        query,
        relations,
        n,
        packed(0, a, f.name_len, f.arity),
    ) {
        Err(NotUsed::Full) => return Err(Refusal::TooManyRelations(a)),
        Err(NotUsed::Clash) => return Err(Refusal::FirstArity(a)),
        Err(NotUsed::OtherArity) => return Err(Refusal::Arity(last_place(a, f))),
        Ok(r) => r,
    };
    let e = use_elements(facts, query, universe, hints, m, a, f).map_err(Refusal::TooManyElements)?;
    Ok(Counts {
        relations: r,
        elements: e,
    })
}

// Takes in the line from a to e, which is handed to the line reader as a part of the text. There are no more lists at the dot that ends
// the facts.
fn take_line<'a>(
    facts: &'a [u8],
    query: &'a [u8],
    relations: &mut [usize],
    universe: &mut [usize],
    hints: &mut [u8; 256],
    c: Counts,
    a: usize,
    e: usize,
) -> Result<Option<Counts>, Refusal>
    requires { (c.relations ≤ length relations.old) × (c.elements ≤ length universe.old) × (a ≤ e) × (e ≤ length facts.now) × (length facts.now ≤ FACT_BYTES) × Ascending (texts_of facts.now query.now (take c.elements universe.old)) }
    ensures { Taken facts.now query.now (line_of facts.now a e) relations.old relations.new universe.old universe.new c result }
{
    match read_line(&facts[a..e]) {
        LineRead::End => Ok(None),
        LineRead::Skipped => Ok(Some(c)),
        LineRead::BadName => Err(Refusal::FactName(a)),
        LineRead::BadElement(p) => Err(Refusal::FactElement(a + p)),
        LineRead::TooMany(p) => Err(Refusal::Arity(a + p)),
        LineRead::Holds(f) => {
            let d = with_fact(facts, query, relations, universe, hints, c, a, f)?;
            Ok(Some(d))
        }
    }
}

// "line by line, in each 3, then per element 4 and, at the first too many, 5; then 5 for another arity .." or 20; "then 6, 7"
fn read_lines<'a>(
    facts: &'a [u8],
    query: &'a [u8],
    relations: &mut [usize],
    universe: &mut [usize],
    c: Counts,
) -> Result<Counts, Refusal>
    requires { (c.relations ≤ length relations.old) × (c.elements ≤ length universe.old) × (length facts.now ≤ FACT_BYTES) × Ascending (texts_of facts.now query.now (take c.elements universe.old)) }
    ensures { LinesRead facts.now query.now c relations.old relations.new universe.old universe.new result }
{
    let mut hints = [255u8; 256];
    let mut k = c;
    let mut a: usize = 0;
    loop {
        let e = run_end(facts, a, Class::NoEnd);
        let t = line_end(facts, a, e);
        let Some(d) = take_line(facts, query, relations, universe, &mut hints, k, a, t)? else {
            return Ok(k);
        };
        k = d;
        if e == facts.len() {
            return Ok(k);
        }
        a = e + 1;
    }
}

// Reads a text after another (rows 1 to 7, and 20 for an arity that the first text gives): the lent words, whose lengths are the limits,
// hold the relations and elements of the first as parts of `query`, and those of this text are added as parts of `facts`. Of a refusal
// nothing is said of the words.
pub fn read_second<'a>(
    facts: &'a [u8],
    query: &'a [u8],
    relations: &mut [usize],
    universe: &mut [usize],
    c: Counts,
) -> Result<Counts, Refusal>
    requires { (c.relations ≤ length relations.old) × (c.elements ≤ length universe.old) × Ascending (texts_of facts.now query.now (take c.elements universe.old)) }
    ensures { MeetsAfter facts.now query.now c relations.old relations.new universe.old universe.new result }
{
    check_bytes(facts)?;
    read_lines(facts, query, relations, universe, c)
}

// Reads the facts (rows 1 to 7): the relations in order of first appearance and the universe in byte order, as parts in the lent words,
// whose lengths are the limits. The query is only lent on: no part of it is in these lists yet.
pub fn read_facts<'a>(
    facts: &'a [u8],
    query: &'a [u8],
    relations: &mut [usize],
    universe: &mut [usize],
) -> Result<Counts, Refusal>
    ensures { Meets facts.now query.now relations.old relations.new universe.old universe.new result }
{
    let none = Counts {
        relations: 0,
        elements: 0,
    };
    let read = read_second(facts, query, relations, universe, none);
    if read.is_err() {
        relations.fill(0);
        universe.fill(0);
    }
    read
}

// The fact of a line that is read again, if it holds one; or the dot that ends the facts.
#[derive(Clone, Copy)]
enum LineFact {
    Has(FactLine),
    Lacks,
    Last,
}

fn line_fact(l: &[u8]) -> LineFact
    ensures { FactOfLine l.now result }
{
    match read_line(l) {
        LineRead::Holds(f) => LineFact::Has(f),
        LineRead::End => LineFact::Last,
        LineRead::Skipped => LineFact::Lacks,
        LineRead::BadName => LineFact::Lacks,
        LineRead::BadElement(_) => LineFact::Lacks,
        LineRead::TooMany(_) => LineFact::Lacks,
    }
}

// The first fact of the lines from `at` on, where a line starts or the text has ended: where its line starts, what it holds, and where the
// line after it starts.
pub fn next_fact(facts: &[u8], at: usize) -> Option<(usize, FactLine, usize)>
    requires { length facts.now ≤ FACT_BYTES }
    ensures { NextIs facts.now at result }
{
    let mut a = at;
    while a < facts.len() {
        let e = run_end(facts, a, Class::NoEnd);
        let t = line_end(facts, a, e);
        match line_fact(&facts[a..t]) {
            LineFact::Has(f) => return Some((a, f, e + 1)),
            LineFact::Last => return None,
            LineFact::Lacks => {
                a = e + 1;
            }
        }
    }
    None
}
