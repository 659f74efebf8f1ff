// Parts of the facts `R C10 "C2"` and of the query `C2 C1`, proved and run.
#![tactic(auto)]

ghost use Rattle.std.specs.Prelude.{◌≤◌, ◌≡◌, [], ◌∷◌, ◌++◌, length, take, drop};
ghost use Rattle.definition.specs.Text.{ascii};
ghost use Rattle.parts.specs.Packed.{text_of};
ghost use Rattle.parts.specs.Entries.{index};
ghost use Rattle.parts_test.specs.Counts.{count_of};
ghost use Rattle.parts_test.specs.Texts.{facts, query, four, IsSet, count_after, words_after};

use check::{expect, same};
use hints::enter_hinted;
use parts::{enter_part, index_of, packed, part, text_of};

// The number w has the text `text`.
fn spells(w: usize, text: &[u8])
    requires { text_of facts query w ≡ text.now }
{
    expect(same(text_of(b"R C10 \"C2\"", b"C2 C1", w), text));
}

// C10 as a part of the facts is 1048, C2 is 3601 there, quoted, and 20 in the query; C1 there is 1556.
fn numbers() {
    expect(packed(0, 2, 3, 0) == 1048);
    expect(packed(0, 7, 2, 1) == 3601);
    expect(packed(1, 3, 2, 0) == 1556);
    spells(1048, b"C10");
    spells(3601, b"C2");
    spells(20, b"C2");
}

// The n bytes of C10 from the offset on are `text`.
fn cuts(offset: usize, n: usize, text: &[u8])
    requires { take n (drop offset (ascii "C10")) ≡ text.now }
{
    expect(same(part(b"C10", offset, n), text));
}

// As many bytes as there are.
fn ends() {
    cuts(1, 2, b"10");
    cuts(1, 9, b"10");
    cuts(4, 1, b"");
}

// The text of v stands first at i among C10 and both parts C2.
fn finds(v: usize, i: usize)
    requires { index facts query v (1048 ∷ 3601 ∷ 20 ∷ []) ≡ i }
{
    expect(index_of(b"R C10 \"C2\"", b"C2 C1", &[1048usize, 3601, 20], v) == i);
}

// The first part with the text, or their number.
fn found() {
    finds(20, 1);
    finds(1556, 3);
}

// How many parts there are; 0 where there is no room.
fn count(e: Option<usize>) -> usize
    ensures { result ≡ count_of e }
{
    e.unwrap_or(0)
}

// Enters v into the first two words, whose texts are looked at from the first on, or, where no hint is known yet, by halves; how many parts there are then.
fn enter(words: &mut [usize], v: usize, by_halves: bool) -> usize
    requires { (2 ≤ length words.old) × IsSet words.old }
    ensures count { result ≡ count_after v words.old }
    ensures words { words.new ≡ words_after v words.old }
{
    if by_halves {
        let mut hints = [255u8; 256];
        return count(enter_hinted(b"R C10 \"C2\"", b"C2 C1", words, 2, &mut hints, v));
    }
    count(enter_part(b"R C10 \"C2\"", b"C2 C1", words, 2, v))
}

// With room for so many words, entering v gives n parts and leaves the words `after`.
fn enters(room: usize, v: usize, by_halves: bool, n: usize, after: [usize; 4])
    requires le_room { (2 ≤ room) × (room ≤ 4) × IsSet (take room four) }
    requires four_value { count_after v (take room four) ≡ n }
    requires four_value_2 { words_after v (take room four) ++ drop room four ≡ after }
{
    let mut words = [1048usize, 20, 9, 9];
    expect(enter(&mut words[..room], v, by_halves) == n);
    expect(words[0] == after[0]);
    expect(words[1] == after[1]);
    expect(words[2] == after[2]);
    expect(words[3] == after[3]);
}

// "numbered in byte order, a prefix first"; of equal texts the first part stays, quoted if one of them is; no room: the words stay.
fn sets() {
    enters(4, 1556, false, 3, [1556usize, 1048, 20, 9]);
    enters(3, 1556, true, 3, [1556usize, 1048, 20, 9]);
    enters(2, 3601, false, 2, [1048usize, 21, 9, 9]);
    enters(3, 3601, true, 2, [1048usize, 21, 9, 9]);
    enters(2, 1556, false, 0, [1048usize, 20, 9, 9]);
}

fn main() {
    numbers();
    ends();
    found();
    sets();
}
