// What the test programs print of lists, put to a buffer: tokens, words of a parsed program, and bytes.
#![tactic(auto)]

ghost use Rattle.std.specs.Prelude.{◌+◌, ◌≤◌, ◌≡◌, true, eqb, length, take};
ghost use Rattle.definition.specs.Text.{keep, gather};
ghost use Rattle.lines.specs.Put.{Put};
ghost use Rattle.listing.specs.Listed.{fields_text, item_text, byte_text};

use lexer::{kind, place, text_length, text_start};
use lines::put;
use page::put_number;

// What the words of a list are: tokens of a query, or words of a parsed program.
#[derive(Clone, Copy)]
pub enum Item {
    Token,
    Word,
}

// Puts a comma and four numbers.
fn put_fields(out: &mut [u8], at: usize, a: u64, b: u64, c: u64, d: u64) -> usize
    ensures { Put true out.old at (fields_text a b c d) result out.new }
{
    let p = put(out, at, b',', true);
    let q = put_number(out, p, a);
    let s = put_number(out, q, b);
    let t = put_number(out, s, c);
    put_number(out, t, d)
}

// Puts a token's kind and place, where its text begins and how long it is; or a word's kind and three fields.
fn put_item(out: &mut [u8], at: usize, item: Item, w: u64) -> usize
    ensures { Put true out.old at (item_text item w) result out.new }
{
    match item {
        Item::Token => {
            let k = kind(w);
            let p = place(w);
            let s = text_start(w);
            let n = text_length(w);
            put_fields(out, at, k, p as u64, s as u64, n as u64)
        }
        Item::Word => put_fields(
            out,
            at,
            w % 256,
            w / 256 % 65536,
            w / 16777216 % 65536,
            w / 1099511627776 % 65536,
        ),
    }
}

// Puts the first n of the words, or as many as there are.
pub fn put_items(out: &mut [u8], at: usize, item: Item, words: &[u64], n: usize) -> usize
    requires { at ≤ length out.old + 1 }
    ensures { Put true out.old at (gather (item_text item) (take n words.now)) result out.new }
{
    let mut p = at;
    for &w in &words[..n.min(words.len())] {
        p = put_item(out, p, item, w);
    }
    p
}

// Puts a byte, unless it is 255.
fn put_byte(out: &mut [u8], at: usize, x: u8) -> usize
    requires { at ≤ length out.old + 1 }
    ensures { Put true out.old at (byte_text x) result out.new }
{
    if x == 255 {
        return at;
    }
    put_number(out, at, x as u64)
}

// Puts the bytes that are not 255.
pub fn put_bytes(out: &mut [u8], at: usize, buffer: &[u8]) -> usize
    requires { at ≤ length out.old + 1 }
    ensures { Put true out.old at (gather byte_text buffer.now) result out.new }
{
    let mut p = at;
    for &x in buffer {
        p = put_byte(out, p, x);
    }
    p
}

// How many bytes are 255.
pub fn untouched(buffer: &[u8]) -> usize
    ensures { result ≡ length (keep (λ x. eqb x 255) buffer.now) }
{
    buffer.iter().filter(|x| **x == 255).count()
}
