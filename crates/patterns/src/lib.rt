// Patterns as they stand in a query: whether one is well formed, by descent over its bytes.
#![tactic(auto)]

ghost use Rattle.std.specs.Prelude.{◌≡◌, Bool, not, eqb, ◌+◌, ◌≤◌, ◌<◌, length, drop, get_or};
ghost use Rattle.definition.specs.Pattern.{Pattern, branches, branch, piece, atom, is_character, no_class, ends_branch, read_repeat, read_count, read_set, well_formed};
ghost use Rattle.patterns.specs.Ends.{ends, end_at, simple_at, is_listed, to_close_at, well_formed_part};
ghost use Rattle.intern.specs.Entries.{text_at};

// The byte at i, and 0 past the end: no sign is 0.
pub fn byte_at(s: &[u8], i: usize) -> u8
    ensures { result ≡ get_or s.now i 0 }
{
    s.get(i).copied().unwrap_or(0)
}

// "Outside sets every byte but `^$.[(){|+*?\` is a character"
pub fn is_character(b: u8) -> bool
    ensures { result ≡ is_character b }
{
    !b"^$.[(){|+*?\\".contains(&b)
}

// Whether "`[:`, `[.` and `[=`" are nowhere in t.
fn no_class(t: &[u8]) -> bool
    ensures { result ≡ no_class t.now }
{
    for (i, &b) in t.iter().enumerate() {
        if b == b'[' && b":.=".contains(&byte_at(t, i + 1)) {
            return false;
        }
    }
    true
}

// Whether the ranges in t ascend, read left to right.
fn ascends(t: &[u8]) -> bool
    ensures { result ≡ is_listed t.now }
{
    let n = t.len();
    let mut i = 0;
    while i < n {
        if n - i < 3 {
            return true;
        }
        if t[i + 1] != b'-' {
            i += 1;
            continue;
        }
        if t[i + 2] < t[i] {
            return false;
        }
        i += 3;
    }
    true
}

// Where the first `]` from i on stands; the length, if there is none.
pub fn close_at(s: &[u8], at: usize) -> usize
    requires { at ≤ length s.now }
    ensures value { result ≡ to_close_at s.now at }
    ensures within { (at ≤ result) × (result ≤ length s.now) }
{
    for i in at..s.len() {
        if s[i] == b']' {
            return i;
        }
    }
    s.len()
}

// Where a set ends, if it is one, whose first byte, after `[` or `[^`, is at `at`.
pub fn set_end(s: &[u8], at: usize) -> Option<usize>
    ensures { (c : Bool) → result ≡ ends (length s.now) (read_set c (drop at s.now)) }
{
    if s.len() <= at {
        return None;
    }
    let j = close_at(s, at + 1);
    if j == s.len() {
        return None;
    }
    if !no_class(&s[at..j]) {
        return None;
    }
    if !ascends(&s[at..j]) {
        return None;
    }
    Some(j + 1)
}

// Where `{m,n}` ends, after its `{`.
fn count_end(s: &[u8], at: usize) -> Option<usize>
    ensures { (p : Pattern) → result ≡ ends (length s.now) (read_count p (drop at s.now)) }
{
    let len = s.len();
    if len < 4 {
        return None;
    }
    if len - 4 < at {
        return None;
    }
    let m = s[at];
    let n = s[at + 2];
    if m < 48 {
        return None;
    }
    if n < m {
        return None;
    }
    if 56 < n {
        return None;
    }
    if s[at + 1] != b',' {
        return None;
    }
    if s[at + 3] != b'}' {
        return None;
    }
    Some(at + 4)
}

// Where the repeat sign after an atom ends, if there is one.
pub fn repeat_end(s: &[u8], at: usize) -> Option<usize>
    requires { at ≤ length s.now }
    ensures { (p : Pattern) → result ≡ ends (length s.now) (read_repeat p (drop at s.now)) }
{
    if s.len() <= at {
        return Some(at);
    }
    let b = s[at];
    if b"*+?".contains(&b) {
        return Some(at + 1);
    }
    if b != b'{' {
        return Some(at);
    }
    count_end(s, at + 1)
}

// Whether a branch ends at `at`.
pub fn ends_branch(s: &[u8], at: usize) -> bool
    ensures { result ≡ ends_branch (drop at s.now) }
{
    if s.len() <= at {
        return true;
    }
    b"|)".contains(&s[at])
}

// Where an atom that is no group ends.
pub fn simple_end(s: &[u8], at: usize) -> Option<usize>
    ensures { result ≡ simple_at s.now at }
{
    if s.len() <= at {
        return None;
    }
    let b = s[at];
    if is_character(b) {
        return Some(at + 1);
    }
    if b == b'.' {
        return Some(at + 1);
    }
    if b == b'\\' {
        if at + 1 < s.len() {
            return Some(at + 2);
        }
        return None;
    }
    if b != b'[' {
        return None;
    }
    if byte_at(s, at + 1) == b'^' {
        return set_end(s, at + 2);
    }
    set_end(s, at + 1)
}

// Where one or more branches parted by `|` end; n bounds how deep the phrases in them stand.
#[cycle(atom_end_branch_end_branches_end_piece_end)]
pub fn branches_end(s: &[u8], at: usize, n: usize) -> Option<usize>
    ensures { result ≡ end_at s.now n branches at }
{
    if n == 0 {
        return None;
    }
    let i = branch_end(s, at, n - 1)?;
    if byte_at(s, i) != b'|' {
        return Some(i);
    }
    branches_end(s, i + 1, n - 1)
}

// Where one or more pieces end.
#[cycle(atom_end_branch_end_branches_end_piece_end)]
pub fn branch_end(s: &[u8], at: usize, n: usize) -> Option<usize>
    ensures { result ≡ end_at s.now n branch at }
{
    if n == 0 {
        return None;
    }
    let i = piece_end(s, at, n - 1)?;
    if ends_branch(s, i) {
        return Some(i);
    }
    branch_end(s, i, n - 1)
}

// Where `^`, `$`, or an atom "with at most one repeat sign" ends.
#[cycle(atom_end_branch_end_branches_end_piece_end)]
pub fn piece_end(s: &[u8], at: usize, n: usize) -> Option<usize>
    ensures { result ≡ end_at s.now n piece at }
{
    if n == 0 {
        return None;
    }
    if b"^$".contains(&byte_at(s, at)) {
        return Some(at + 1);
    }
    let i = atom_end(s, at, n - 1)?;
    repeat_end(s, i)
}

// Where a character, `.`, set or group ends.
#[cycle(atom_end_branch_end_branches_end_piece_end)]
pub fn atom_end(s: &[u8], at: usize, n: usize) -> Option<usize>
    ensures { result ≡ end_at s.now n atom at }
{
    if n == 0 {
        return None;
    }
    if byte_at(s, at) != b'(' {
        return simple_end(s, at);
    }
    let i = branches_end(s, at + 1, n - 1)?;
    if byte_at(s, i) != b')' {
        return None;
    }
    Some(i + 1)
}

// Whether s is a pattern: neither empty nor malformed.
pub fn well_formed(s: &[u8]) -> bool
    requires { length s.now < 64 }
    ensures { result ≡ well_formed s.now }
{
    let n = 4 * (s.len() + 1);
    let Some(i) = branches_end(s, 0, n) else {
        return false;
    };
    i == s.len()
}

// The bytes of the pattern that a string token spells, as a part of the query; the empty part where it is empty or malformed.
pub fn read_pattern<'a>(query: &'a [u8], token: u64) -> &'a [u8]
    ensures text { result.now ≡ well_formed_part (text_at query.now token) }
    ensures formed { eqb (length result.now) 0 ≡ not (well_formed (text_at query.now token)) }
{
    let t = intern::text_at(query, token);
    if 63 < t.len() {
        return &query[..0];
    }
    if well_formed(t) {
        return t;
    }
    &query[..0]
}
