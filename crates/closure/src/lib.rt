// The transitive closure of a binary table in place, in the steps of the Warshall program of the manual's section 2.3:
//
//     Result(x,y) := R(x,y);                    the rows as they are lent: row x has bit y
//     Node(x) := Result(x,_) & Result(_,x);     all elements: one that is no node adds nothing (`NodeLaws.nodes_alone`)
//     FOR node IN Node(x) {                     `work_nodes`, ascending
//         Result(x,y) := Result(x,y) | (Result(x,node) & Result(node,y));
//     }                                         `work_node` for each x, `join_word` for all y at once: a whole row is joined with or
#![tactic(auto)]

ghost use Rattle.std.specs.Prelude.{◌≡◌, List, ℕ, ◌+◌, ◌<◌, ◌≤◌, length};
ghost use Rattle.definition.specs.Tables.{through, closure};
ghost use Rattle.closure.specs.Rows.{Rows, join_word};
ghost use Rattle.closure.specs.Worked.{Worked};

use bits::test_bit;

// Result(x,y) | (Result(x,node) & Result(node,y)): the row w of x, with the row of the node joined where w has the node's bit k.
fn join_word(row: u64, k: u64, w: u64) -> u64
    ensures { result ≡ join_word row k w }
{
    if test_bit(w, k) { w | row } else { w }
}

// Adds the arcs through one node. Where those below it are worked already, whatever the table was before them, it is worked then too.
fn work_node(rows: &mut [u64], node: usize)
    requires { (node < length rows.old) × Rows (length rows.old) rows.old }
    ensures rows_after { rows.new ≡ through (length rows.old) node rows.old }
    ensures by_index { (start : List ℕ) → Worked start node rows.old → Worked start (node + 1) rows.new }
{
    let row = rows[node];
    let k = node as u64;
    let n = rows.len();
    for x in 0..n {
        rows[x] = join_word(row, k, rows[x]);
    }
}

// Works the first m nodes, ascending.
pub fn work_nodes(rows: &mut [u64], m: usize)
    requires { (m ≤ length rows.old) × Rows (length rows.old) rows.old }
    ensures { Worked rows.old m rows.new }
{
    for node in 0..m {
        work_node(rows, node);
    }
}

// The closure of a table of as many rows as the universe has elements.
pub fn close(rows: &mut [u64])
    requires { Rows (length rows.old) rows.old }
    ensures { rows.new ≡ closure (length rows.old) rows.old }
{
    let n = rows.len();
    work_nodes(rows, n);
}
