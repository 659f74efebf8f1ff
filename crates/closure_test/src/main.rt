// Worked lines of `closure`, proved and run.
#![tactic(auto)]

ghost use Rattle.std.specs.Prelude.{◌≤◌, ◌≡◌, length};
ghost use Rattle.definition.specs.Text.{below};
ghost use Rattle.definition.specs.Tables.{through_all, closure};
ghost use Rattle.closure.specs.Rows.{Rows};

use check::expect;
use checks::same_words;
use closure::{close, work_nodes};

// The closure of the rows is `closed`.
fn closes(rows: &mut [u64], closed: &[u64])
    requires rows { Rows (length rows.old) rows.old }
    requires rows_value { closure (length rows.old) rows.old ≡ closed.now }
{
    close(rows);
    expect(same_words(rows, closed));
}

// After the first m nodes the rows are `worked`.
fn works(rows: &mut [u64], m: usize, worked: &[u64])
    requires m_in_bounds { (m ≤ length rows.old) × Rows (length rows.old) rows.old }
    requires rows_value { through_all (length rows.old) (below m) rows.old ≡ worked.now }
{
    work_nodes(rows, m);
    expect(same_words(rows, worked));
}

// (2,0), (0,3), (3,1), a chain against the order, after 0 to 4 nodes: each pair stands as soon as its inner elements are worked.
fn zigzag() {
    let mut none = [8u64, 0, 1, 2];
    works(&mut none, 0, &[8u64, 0, 1, 2]);
    let mut one = [8u64, 0, 1, 2];
    works(&mut one, 1, &[8u64, 0, 9, 2]);
    let mut three = [8u64, 0, 1, 2];
    works(&mut three, 3, &[8u64, 0, 9, 2]);
    let mut all = [8u64, 0, 1, 2];
    works(&mut all, 4, &[10u64, 0, 11, 2]);
}

// (0,1), (1,2), (2,0): the ends of a chain may be worked or not, and are equal as soon as the two others are worked.
fn ring() {
    let mut one = [2u64, 4, 1];
    works(&mut one, 1, &[2u64, 4, 3]);
    let mut two = [2u64, 4, 1];
    works(&mut two, 2, &[6u64, 4, 7]);
    let mut all = [2u64, 4, 1];
    works(&mut all, 3, &[7u64, 7, 7]);
}

fn main() {
    // Case B of document 01: B7, C10, C2, C5 are 0 to 3, and On holds (1,3), (3,2), (0,1). No pair (x,x) is added.
    let mut chain = [2u64, 8, 0, 4];
    closes(&mut chain, &[14u64, 12, 0, 4]);
    // A cycle joins each of its elements to itself; element 2 has none.
    let mut cycle = [2u64, 1, 0];
    closes(&mut cycle, &[3u64, 3, 0]);
    zigzag();
    ring();
}
