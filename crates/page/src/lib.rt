// What `relcalc` prints of an answer: the first bytes of the output, and the line that closes them.
#![tactic(auto)]

ghost use Rattle.std.specs.Prelude.{◌≡◌, true, [], ◌∷◌};
ghost use Rattle.definition.specs.Answer.{ok, refusal, ending_word};
ghost use Rattle.definition.specs.Decimals.{decimal};
ghost use Rattle.definition.specs.Page.{page};
ghost use Rattle.lines.specs.Put.{Put};
ghost use Rattle.page.specs.Closing.{refusal_text, Closes};
ghost use Rattle.page.specs.Closing.{shown as bytes_shown};

use definition::{Ending, Refusal, Stopped};
use lines::{put, put_decimal, put_text};

// Puts a space and a number.
pub fn put_number(out: &mut [u8], at: usize, n: u64) -> usize
    ensures { Put true out.old at (32 ∷ decimal n) result out.new }
{
    let p = put(out, at, 32, true);
    put_decimal(out, p, n, true)
}

// Puts the word of an ending.
pub fn put_ending(out: &mut [u8], e: Ending) -> usize
    ensures { Put true out.old 0 (ending_word e) result out.new }
{
    match e {
        Ending::Done => put_text(out, 0, b"done", true),
        Ending::Spent => put_text(out, 0, b"spent", true),
        Ending::Full => put_text(out, 0, b"full", true),
    }
}

// Puts the line of a run that ended.
fn put_stopped(out: &mut [u8], s: Stopped) -> usize
    ensures { Put true out.old 0 (page (ok s) []) result out.new }
{
    let ending = s.ending;
    let p = put_ending(out, ending);
    let q = put_number(out, p, s.steps as u64);
    put(out, q, 10, true)
}

// Puts a refusal's number and place.
pub fn put_refusal(out: &mut [u8], q: Refusal) -> usize
    ensures { Put true out.old 0 (refusal_text q) result out.new }
{
    let number = answers::number(q);
    let place = answers::place(q);
    let p = put_text(out, 0, b"refused", true);
    let m = put_number(out, p, number as u64);
    put_number(out, m, place as u64)
}

// Puts the line of a refusal.
fn put_refused(out: &mut [u8], q: Refusal) -> usize
    ensures { Put true out.old 0 (page (refusal q) []) result out.new }
{
    let p = put_refusal(out, q);
    put(out, p, 10, true)
}

// Writes the closing line at the start of the buffer and answers its length; a buffer of under 30 bytes, the longest line's, stays, and the answer is 0.
pub fn close(a: Result<Stopped, Refusal>, out: &mut [u8]) -> usize
    ensures { Closes a out.old result out.new }
{
    if out.len() < 30 {
        return 0;
    }
    match a {
        Ok(s) => put_stopped(out, s),
        Err(q) => put_refused(out, q),
    }
}

// How many bytes of the output stand before the closing line.
pub fn shown(a: Result<Stopped, Refusal>) -> usize
    ensures { result ≡ bytes_shown a }
{
    match a {
        Ok(s) => s.written,
        Err(_) => 0,
    }
}
