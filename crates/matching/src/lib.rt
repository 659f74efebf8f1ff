// Whether an element matches a pattern.
#![tactic(auto)]

ghost use Rattle.std.specs.Prelude.{◌≡◌, ◌+◌, ◌-◌, ◌*◌, ◌^◌, ◌<◌, ◌≤◌, length, drop, get_or, true, cond};
ghost use Rattle.std.specs.Int.Bits.{bit_or, bit_and};
ghost use Rattle.definition.specs.Text.{Text};
ghost use Rattle.definition.specs.Pattern.{Reading, branches, branch, piece, atom, wrong, star, up_to, times, rule, phrase, read_set, matches, well_formed};
ghost use Rattle.bits.specs.Bits.{with_bit};
ghost use Rattle.matching.specs.Images.{all, Leads, itself, least, further};
ghost use Rattle.matching.specs.Bytes.{is_held, fits, fitting, spot};
ghost use Rattle.matching.specs.Rows.{Each, Led, Moves, Turn, Turns};
ghost use Rattle.matching.specs.Halves.{is_match, half_of};
ghost use Rattle.parts.specs.Entries.{texts_of};
ghost use Rattle.intern.specs.Entries.{text_at};

use bits::{put_bit, test_bit};
use parts::text_of;
use patterns::{
    atom_end, branch_end, byte_at, close_at, ends_branch, piece_end, read_pattern, well_formed,
};

// Whether b is in the ranges that t lists, read left to right.
pub fn held(t: &[u8], b: u8) -> bool
    ensures { result ≡ is_held t.now b }
{
    let n = t.len();
    let mut i = 0;
    while i < n {
        if n - i < 3 {
            if t[i] == b {
                return true;
            }
            i += 1;
            continue;
        }
        if t[i + 1] != b'-' {
            if t[i] == b {
                return true;
            }
            i += 1;
            continue;
        }
        if b < t[i] {
            i += 3;
            continue;
        }
        if b <= t[i + 2] {
            return true;
        }
        i += 3;
    }
    false
}

// Position k alone, if the set has it.
pub fn spot(set: u64, k: u64) -> u64
    ensures { result ≡ spot set k }
{
    put_bit(0, k, test_bit(set, k))
}

// Whether b is in the set that t lists, or in its complement.
fn fits(t: &[u8], complement: bool, b: u8) -> bool
    ensures { result ≡ fits t.now complement b }
{
    if complement {
        return !held(t, b);
    }
    held(t, b)
}

// The places of the bytes that are in the set that t lists, or in its complement.
fn fitting(e: &[u8], t: &[u8], complement: bool) -> u64
    requires { length e.now < 64 }
    ensures { result ≡ fitting e.now t.now complement }
{
    let mut r = 0;
    for i in 0..e.len() {
        r = put_bit(r, i as u64, fits(t, complement, e[i]));
    }
    r
}

// Every position of an element, 0 to its length.
fn all(e: &[u8]) -> u64
    requires { length e.now < 64 }
    ensures { result ≡ all e.now }
{
    let mut r = 0;
    for k in 0..=e.len() {
        r = put_bit(r, k as u64, true);
    }
    r
}

// The value of a digit.
fn digit(b: u8) -> u64
    ensures { result ≡ b - 48 }
{
    u64::from(b.saturating_sub(48))
}

// The least number of turns that the repeat sign b asks for; m is the digit after a brace.
fn least(b: u8, m: u8) -> u64
    ensures { result ≡ least b m }
{
    if b == b'*' {
        return 0;
    }
    if b == b'+' {
        return 1;
    }
    if b == b'?' {
        return 0;
    }
    if b == b'{' {
        return digit(m);
    }
    1
}

// How many turns more the sign takes; 9 is any number.
fn further(b: u8, m: u8, n: u8) -> u64
    ensures { result ≡ further b m n }
{
    if b == b'*' {
        return 9;
    }
    if b == b'+' {
        return 9;
    }
    if b == b'?' {
        return 1;
    }
    if b == b'{' {
        let low = digit(m);
        let high = digit(n);
        return high.saturating_sub(low);
    }
    0
}

// The turns that the repeat sign at i stands for.
#[derive(Clone, Copy)]
struct Sign {
    least: u64,
    further: u64,
}

fn sign_at(s: &[u8], i: usize) -> Sign
    requires { i ≤ length s.now }
    ensures { (result.least ≡ least (get_or s.now i 0) (get_or s.now (i + 1) 0)) × (result.further ≡ further (get_or s.now i 0) (get_or s.now (i + 1) 0) (get_or s.now (i + 3) 0)) }
{
    let b = byte_at(s, i);
    let m = byte_at(s, i + 1);
    let n = byte_at(s, i + 3);
    Sign {
        least: least(b, m),
        further: further(b, m, n),
    }
}

// The bytes that are in a set, or in its complement: its first byte, after `[` or `[^`, is at `at`.
fn members(s: &[u8], at: usize, e: &[u8], complement: bool) -> u64
    requires { length e.now < 64 }
    ensures leads { Moves (read_set complement (drop at s.now)) e.now result }
    ensures few { result < 2 ^ 63 }
{
    if s.len() <= at {
        return 0;
    }
    let j = close_at(s, at + 1);
    fitting(e, &s[at..j], complement)
}

// The bytes that an atom that is no group describes.
fn simple(s: &[u8], at: usize, e: &[u8]) -> u64
    requires { length e.now < 64 }
    ensures leads { Moves (rule atom (λ k xs. wrong) (drop at s.now)) e.now result }
    ensures few { result < 2 ^ 63 }
{
    if s.len() <= at {
        return 0;
    }
    let b = s[at];
    if b == b'.' {
        return fitting(e, &s[..0], true);
    }
    if b == b'[' {
        if byte_at(s, at + 1) == b'^' {
            return members(s, at + 2, e, true);
        }
        return members(s, at + 1, e, false);
    }
    if b != b'\\' {
        return fitting(e, &s[at..at + 1], false);
    }
    if s.len() <= at + 1 {
        return 0;
    }
    fitting(e, &s[at + 1..at + 2], false)
}

// In each row position k alone, if the row has it.
fn keep(rows: &mut [u64], k: u64)
    ensures { Each (λ i a r. r ≡ spot a k) rows.old rows.new }
{
    for row in rows.iter_mut() {
        *row = spot(*row, k);
    }
}

// Each row, a byte of the set on.
fn step(rows: &mut [u64], bytes: u64)
    requires { bytes < 2 ^ 63 }
    ensures { Each (λ i a r. r ≡ bit_and a bytes * 2) rows.old rows.new }
{
    for row in rows.iter_mut() {
        *row = (*row & bytes) * 2;
    }
}

// In row i position i alone.
fn singles(rows: &mut [u64])
    ensures { Each (λ i a r. r ≡ with_bit 0 i) rows.old rows.new }
{
    for (i, row) in rows.iter_mut().enumerate() {
        *row = put_bit(0, i as u64, true);
    }
}

// Each row with that of another.
fn unite(rows: &mut [u64], other: &[u64])
    requires { length rows.old ≡ length other.now }
    ensures { Each (λ i a r. r ≡ bit_or a (get_or other.now i 0)) rows.old rows.new }
{
    for (i, row) in rows.iter_mut().enumerate() {
        *row |= other[i];
    }
}

// A set, with another where `on`.
fn with(set: u64, other: u64, on: bool) -> u64
    ensures { result ≡ cond on (bit_or set other) set }
{
    if on { set | other } else { set }
}

// Where one turn leads from a set; row k of the table is where it leads from position k.
fn image(table: &[u64], set: u64) -> u64
    ensures { (o : Reading) (e : Text) → Turn o e table.now → Leads o e itself set result }
{
    let mut r = 0;
    for (k, &row) in table.iter().enumerate() {
        r = with(r, row, test_bit(set, k as u64));
    }
    r
}

// k turns, or as many as change the set.
fn least_turns(table: &[u64], set: u64, k: u64) -> u64
    ensures { (o : Reading) (e : Text) → Turn o e table.now → Leads o e (times k 0) set result }
{
    if k == 0 {
        return set;
    }
    let next = image(table, set);
    if next == set {
        return set;
    }
    least_turns(table, next, k - 1)
}

// Up to k turns, or as many as change the set.
fn more_turns(table: &[u64], set: u64, k: u64) -> u64
    ensures { (o : Reading) (e : Text) → Turn o e table.now → Leads o e (up_to k) set result }
{
    if k == 0 {
        return set;
    }
    let next = set | image(table, set);
    if next == set {
        return set;
    }
    more_turns(table, next, k - 1)
}

// Any number of turns: no turn leads back, so each position is looked at once.
fn all_turns(table: &[u64], set: u64) -> u64
    ensures { (o : Reading) (e : Text) → Turn o e table.now → Leads o e star set result }
{
    let mut r = set;
    for (k, &row) in table.iter().enumerate() {
        r = with(r, row, test_bit(r, k as u64));
    }
    r
}

// The turns of a repeat sign: those that it asks for, then those that it may take.
fn turned(table: &[u64], set: u64, least: u64, further: u64) -> u64
    ensures { (o : Reading) (e : Text) → Turn o e table.now → Turns o e least further set result }
{
    let first = least_turns(table, set, least);
    if further == 9 {
        return all_turns(table, first);
    }
    more_turns(table, first, further)
}

// Each row by the turns of a repeat sign.
fn turn(rows: &mut [u64], table: &[u64], least: u64, further: u64)
    ensures { Each (λ i a r. (o : Reading) (e : Text) → Turn o e table.now → Turns o e least further a r) rows.old rows.new }
{
    for row in rows.iter_mut() {
        *row = turned(table, *row, least, further);
    }
}

// Where the branches that start at `at` lead from each row; n bounds how deep the phrases in them stand.
#[cycle(atom_rows_branch_rows_branches_rows_piece_rows)]
fn branches_rows(s: &[u8], at: usize, n: usize, e: &[u8], rows: &mut [u64])
    requires { (length e.now < 64) × (length rows.old ≤ 64) }
    ensures { Led (phrase n branches (drop at s.now)) e.now rows.old rows.new }
{
    if n == 0 {
        return;
    }
    let Some(i) = branch_end(s, at, n - 1) else {
        return;
    };
    if byte_at(s, i) != b'|' {
        branch_rows(s, at, n - 1, e, rows);
        return;
    }
    let k = rows.len();
    let mut other = [0u64; 64];
    other[..k].copy_from_slice(rows);
    branch_rows(s, at, n - 1, e, rows);
    branches_rows(s, i + 1, n - 1, e, &mut other[..k]);
    unite(rows, &other[..k]);
}

// A branch: one piece after the other.
#[cycle(atom_rows_branch_rows_branches_rows_piece_rows)]
fn branch_rows(s: &[u8], at: usize, n: usize, e: &[u8], rows: &mut [u64])
    requires { (length e.now < 64) × (length rows.old ≤ 64) }
    ensures { Led (phrase n branch (drop at s.now)) e.now rows.old rows.new }
{
    if n == 0 {
        return;
    }
    let Some(i) = piece_end(s, at, n - 1) else {
        return;
    };
    piece_rows(s, at, n - 1, e, rows);
    if ends_branch(s, i) {
        return;
    }
    branch_rows(s, i, n - 1, e, rows);
}

// An anchor keeps one position; an atom takes the turns of its repeat sign.
#[cycle(atom_rows_branch_rows_branches_rows_piece_rows)]
fn piece_rows(s: &[u8], at: usize, n: usize, e: &[u8], rows: &mut [u64])
    requires { (length e.now < 64) × (length rows.old ≤ 64) }
    ensures { Led (phrase n piece (drop at s.now)) e.now rows.old rows.new }
{
    if n == 0 {
        return;
    }
    let b = byte_at(s, at);
    if b == b'^' {
        keep(rows, 0);
        return;
    }
    if b == b'$' {
        keep(rows, e.len() as u64);
        return;
    }
    let Some(i) = atom_end(s, at, n - 1) else {
        return;
    };
    let sign = sign_at(s, i);
    if sign.least == 1 {
        if sign.further == 0 {
            atom_rows(s, at, n - 1, e, rows);
            return;
        }
    }
    let m = e.len() + 1;
    let mut table = [0u64; 64];
    singles(&mut table[..m]);
    atom_rows(s, at, n - 1, e, &mut table[..m]);
    turn(rows, &table[..m], sign.least, sign.further);
}

// A character, `.`, set or group.
#[cycle(atom_rows_branch_rows_branches_rows_piece_rows)]
fn atom_rows(s: &[u8], at: usize, n: usize, e: &[u8], rows: &mut [u64])
    requires { (length e.now < 64) × (length rows.old ≤ 64) }
    ensures { Led (phrase n atom (drop at s.now)) e.now rows.old rows.new }
{
    if n == 0 {
        return;
    }
    if byte_at(s, at) != b'(' {
        step(rows, simple(s, at, e));
        return;
    }
    branches_rows(s, at + 1, n - 1, e, rows);
}

// Whether some part of the element is one that a well_formed pattern describes.
fn found(pattern: &[u8], element: &[u8]) -> bool
    requires { (length pattern.now < 64) × (length element.now < 64) × (well_formed pattern.now ≡ true) }
    ensures { result ≡ matches pattern.now element.now }
{
    let n = 4 * (pattern.len() + 1);
    let mut rows = [all(element)];
    branches_rows(pattern, 0, n, element, &mut rows);
    rows[0] != 0
}

// Whether some part of the element is one that the pattern describes; never, where the pattern is empty or malformed.
pub fn matches(pattern: &[u8], element: &[u8]) -> bool
    requires { (length pattern.now < 64) × (length element.now < 64) }
    ensures { result ≡ matches pattern.now element.now }
{
    if !well_formed(pattern) {
        return false;
    }
    found(pattern, element)
}

// Whether there is an element k places after `first`, and it matches a well_formed pattern.
fn is_match<'a>(
    facts: &'a [u8],
    query: &'a [u8],
    places: &[usize],
    pattern: &[u8],
    first: usize,
    k: usize,
) -> bool
    requires { (length pattern.now < 64) × (well_formed pattern.now ≡ true) }
    ensures { result ≡ is_match pattern.now (texts_of facts.now query.now places.now) first k }
{
    let n = places.len();
    if n <= first {
        return false;
    }
    if n - first <= k {
        return false;
    }
    found(pattern, text_of(facts, query, places[first + k]))
}

// The elements from `first` on that match the pattern of a string token, as the bits of a word: 32 at most.
pub fn half<'a>(facts: &'a [u8], query: &'a [u8], places: &[usize], token: u64, first: usize) -> u64
    ensures { result ≡ half_of (text_at query.now token) (texts_of facts.now query.now places.now) first }
{
    let pattern = read_pattern(query, token);
    if pattern.len() == 0 {
        return 0;
    }
    let mut r = 0;
    for k in 0..32 {
        r = put_bit(
            r,
            k as u64,
            is_match(facts, query, places, pattern, first, k),
        );
    }
    r
}
