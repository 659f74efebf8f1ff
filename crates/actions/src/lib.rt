// The actions of statements over lowered words. Each works out the statement's closures in the store, and leaves their words zero.
#![tactic(auto)]

ghost use Rattle.std.specs.Prelude.{◌≡◌, ◌&&◌, ◌+◌, ◌-◌, ◌<◌, ◌≤◌, leb};
ghost use Rattle.words.specs.Fields.{kind_of};
ghost use Rattle.actions.specs.Parts.{is_statement, start, clear_word, clear_words};
ghost use Rattle.lines.specs.Lines.{texts};
ghost use Rattle.lines.specs.Put.{Printed};
ghost use Rattle.actions.specs.Doing.{left_by, test_by, range_by, print_by, columns_of, assign_by_word, assign_by};

use assignment::assign;
use closures::fill_closures;
use eval::{eval, row};
use prints::print;
use scratch::clear;
use tuples::table_words;
use words::{previous, word_at};

// Whether a word is a statement's own.
#[tactic(auto, unfolding(crate::specs::Parts::is_statement))]
pub fn statement(w: u64) -> bool
    ensures { result ≡ is_statement (kind_of w) }
{
    matches!(w % 256, 6 | 7 | 33..=37)
}

// The place of the first word of the statement at a place.
fn start_of(words: &[u64], at: usize) -> usize
    ensures { (result ≡ start words.now at) × (result ≤ at) }
{
    for n in (0..at).rev() {
        if statement(word_at(words, n)) {
            return n + 1;
        }
    }
    0
}

// The table of the closure at place k zero again, if there is one and its table lies in the store.
fn clear_word(nodes: &[u64], store: &mut [u64], firsts: &[u64], u: u8, k: usize)
    ensures { store.new ≡ clear_word firsts.now u nodes.now k store.old }
{
    let w = word_at(nodes, k);
    if w % 256 != 21 {
        return;
    }
    let o = word_at(firsts, 16 + (w / 1099511627776 % 256) as usize) as usize;
    let len = store.len();
    if o > len {
        return;
    }
    if u as usize > len - o {
        return;
    }
    let e = o + u as usize;
    clear(&mut store[o..e]);
}

// The tables of the closures of the words from lo to hi zero again.
fn clear_closures(nodes: &[u64], store: &mut [u64], firsts: &[u64], u: u8, lo: usize, hi: usize)
    ensures { store.new ≡ clear_words firsts.now u nodes.now (hi - lo) lo store.old }
{
    for k in lo..hi {
        clear_word(nodes, store, firsts, u, k);
    }
}

// Whether the test at a place is true.
pub fn test_at(
    words: &[u64],
    store: &mut [u64],
    firsts: &[u64],
    vars: &[u8],
    u: u8,
    at: usize,
) -> bool
    requires { u < 65 }
    ensures value { result ≡ test_by words.now firsts.now u vars.now store.old at }
    ensures store_after { store.new ≡ left_by words.now firsts.now u vars.now store.old at }
{
    let lo = start_of(words, at);
    fill_closures(words, store, firsts, vars, u, lo, at);
    let r = eval(words, store, firsts, vars, u, previous(at), [0u8; 8]);
    clear_closures(words, store, firsts, u, lo, at);
    r
}

// The set of the FOR at a place: a bit for each element.
pub fn range_at(
    words: &[u64],
    store: &mut [u64],
    firsts: &[u64],
    vars: &[u8],
    u: u8,
    at: usize,
) -> u64
    requires { u < 65 }
    ensures value { result ≡ range_by words.now firsts.now u vars.now store.old at }
    ensures store_after { store.new ≡ left_by words.now firsts.now u vars.now store.old at }
{
    let lo = start_of(words, at);
    let slot = (word_at(words, at) / 1099511627776 % 256) as u8;
    fill_closures(words, store, firsts, vars, u, lo, at);
    let r = row(words, store, firsts, vars, u, previous(at), [0u8; 8], slot);
    clear_closures(words, store, firsts, u, lo, at);
    r
}

// Whether a table of len words at off lies before the scratch words, and the store has as many of these.
fn has_room(off: usize, len: usize, scr: usize, total: usize) -> bool
    ensures { result ≡ leb (off + len) scr && leb (scr + len) total }
{
    len <= scr && off <= scr - len && len <= total && scr <= total - len
}

// The columns of an assignment's left-hand side.
fn left_side(w: u64) -> [u8; 4]
    ensures { result ≡ columns_of w }
{
    [
        (w / 16777216 % 256) as u8,
        (w / 4294967296 % 256) as u8,
        (w / 1099511627776 % 256) as u8,
        (w / 281474976710656 % 256) as u8,
    ]
}

// The assignment of the word w at a place, where its closures are worked out and there is room for its table.
fn assign_word(
    words: &[u64],
    store: &mut [u64],
    firsts: &[u64],
    vars: &[u8],
    u: u8,
    scr: usize,
    w: u64,
    at: usize,
)
    requires { u < 65 }
    ensures { store.new ≡ assign_by_word words.now firsts.now u scr w at vars.now store.old }
{
    let n = (w / 72057594037927936 % 256) as usize;
    if n > 4 {
        return;
    }
    let off = word_at(firsts, (w / 256 % 65536) as usize) as usize;
    let len = table_words(u, n);
    if !has_room(off, len, scr, store.len()) {
        return;
    }
    let e = previous(at);
    assign(
        words,
        store,
        firsts,
        vars,
        u,
        e,
        left_side(w),
        [0u8; 8],
        off,
        n,
        len,
        scr,
    );
}

// The assignment at a place.
pub fn assign_at(
    words: &[u64],
    store: &mut [u64],
    firsts: &[u64],
    vars: &[u8],
    u: u8,
    scr: usize,
    at: usize,
)
    requires { u < 65 }
    ensures { store.new ≡ assign_by words.now firsts.now u scr vars.now store.old at }
{
    let lo = start_of(words, at);
    fill_closures(words, store, firsts, vars, u, lo, at);
    assign_word(words, store, firsts, vars, u, scr, word_at(words, at), at);
    clear_closures(words, store, firsts, u, lo, at);
}

// The PRINT at a place: writes its bytes from place `from` on where they fit, and nothing where not; the place past them, or one past
// the buffer's end.
pub fn print_at<'a>(
    words: &[u64],
    store: &mut [u64],
    firsts: &[u64],
    vars: &[u8],
    u: u8,
    facts: &'a [u8],
    query: &'a [u8],
    places: &[usize],
    at: usize,
    out: &mut [u8],
    from: usize,
) -> usize
    requires { u < 65 }
    ensures printed { Printed out.old from (print_by words.now firsts.now u (texts facts.now query.now places.now) vars.now store.old at) result out.new }
    ensures store_after { store.new ≡ left_by words.now firsts.now u vars.now store.old at }
{
    let lo = start_of(words, at);
    fill_closures(words, store, firsts, vars, u, lo, at);
    let r = print(
        words, store, firsts, vars, u, facts, query, places, at, out, from,
    );
    clear_closures(words, store, firsts, u, lo, at);
    r
}
