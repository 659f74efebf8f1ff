// The bytes of the facts and the ends of their lines: rows 1 and 2.
#![tactic(auto)]

ghost use Rattle.std.specs.Prelude.{◌≡◌, ◌-◌, ◌≤◌, length, take, drop};
ghost use Rattle.definition.specs.Limits.{FACT_BYTES};
ghost use Rattle.definition.specs.Facts.{cut, without_return, bytes_read, legal_at, legal_bytes};
ghost use Rattle.breaks.specs.Bytes.{BytesRead};

use definition::Refusal;
use texts::{Class, is_legal, run_end, starts_with};

// Where the line from a to e ends without the byte 13 of its end.
pub fn line_end(facts: &[u8], a: usize, e: usize) -> usize
    requires { (a ≤ e) × (e ≤ length facts.now) }
    ensures value { take (result - a) (drop a facts.now) ≡ without_return (take (e - a) (drop a facts.now)) }
    ensures within { (a ≤ result) × (result ≤ e) }
{
    if a == e {
        return e;
    }
    if facts[e - 1] == 13 {
        return e - 1;
    }
    e
}

// Whether a legal byte stands at n: "one byte 13 directly before byte 10, or as the last byte of the text" is one.
fn legal_at(facts: &[u8], n: usize) -> bool
    ensures { result ≡ legal_at (drop n facts.now) }
{
    if facts.len() <= n {
        return false;
    }
    let b = facts[n];
    if b != 13 {
        return is_legal(b);
    }
    if n + 1 == facts.len() {
        return true;
    }
    facts[n + 1] == 10
}

// How many bytes at the start are legal. Most are printable, so these are passed over at once.
fn legal_end(facts: &[u8]) -> usize
    ensures value { result ≡ legal_bytes facts.now }
    ensures within { result ≤ length facts.now }
{
    let mut i: usize = 0;
    loop {
        let n = run_end(facts, i, Class::Printable);
        if !legal_at(facts, n) {
            return n;
        }
        i = n + 1;
    }
}

// How many bytes are read: "nothing after that dot is read".
fn read_end(facts: &[u8]) -> usize
    requires { length facts.now ≤ FACT_BYTES }
    ensures { result ≡ bytes_read (cut facts.now) }
{
    let mut a: usize = 0;
    loop {
        let e = run_end(facts, a, Class::NoEnd);
        if starts_with(&facts[a..e], b'.') {
            return a;
        }
        if e == facts.len() {
            return e + 1;
        }
        a = e + 1;
    }
}

// Rows 1 and 2: "Order: 1; 2 over all lines read"
pub fn check_bytes(facts: &[u8]) -> Result<(), Refusal>
    ensures { BytesRead facts.now result }
{
    if 32768 < facts.len() {
        return Err(Refusal::FactsTooLong);
    }
    let legal = legal_end(facts);
    if legal == facts.len() {
        return Ok(());
    }
    if legal < read_end(facts) {
        return Err(Refusal::FactByte(legal));
    }
    Ok(())
}
