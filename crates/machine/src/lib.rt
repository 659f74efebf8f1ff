// The step loop over lowered words: it stops at a limit of steps or before a PRINT that does not fit, and goes on from there.
#![tactic(auto)]

ghost use Rattle.std.specs.Prelude.{◌≡◌, ℕ, ◌+◌, ◌-◌, ◌<◌, ◌≤◌, cond, List, length, get_or, set};
ghost use Rattle.machine.specs.Actions.{members};
ghost use Rattle.words.specs.Fields.{kind_of, PRINT};
ghost use Rattle.lines.specs.Lines.{texts};
ghost use Rattle.actions.specs.Doing.{left_by, test_by, print_by};
ghost use Rattle.machine.specs.Turns.{Settled, Quiet, next_at, held, turn};
ghost use Rattle.machine.specs.Recounts.{target_in, columns_in, counts_after};
ghost use Rattle.machine.specs.Bound.{actions, Turned, stopped_of, Goes, CountsRight};
ghost use Rattle.counts.specs.Counting.{recounted};

use actions::{assign_at, print_at, range_at, test_at};
use bits::test_bit;
use counts::recount;
use definition::Ending;
use words::{previous, word_at};

// The least member of s from `from` on, or u where none is below u.
fn seek(s: u64, from: u8, u: u8) -> u8
    requires { u < 65 }
    ensures { (result ≡ get_or (members s from (u - from)) 0 u) × (result ≤ u) }
{
    for a in from..u {
        if test_bit(s, a as u64) {
            return a;
        }
    }
    u
}

// Where a move that takes no step goes from a place, or the place itself where none does.
fn quiet(words: &[u64], sets: &[u64; 32], cursors: &[u8; 32], u: u8, at: usize) -> usize
    requires { (u < 65) × (at < length words.now) }
    ensures { Quiet u words.now sets.now cursors.now at result }
{
    let w = words[at];
    match w % 256 {
        6 => at,
        7 => {
            let d = (w / 256 % 65536 % 32) as usize;
            if seek(sets[d], cursors[d], u) < u {
                return at;
            }
            at + 1
        }
        33 => at,
        34 => at,
        35 => {
            let n = (w / 16777216 % 65536) as usize;
            if at < n { n } else { at + 1 }
        }
        36 => at,
        37 => at,
        _ => at + 1,
    }
}

// The first place from pc on where a step is to be taken, or the words' end.
fn settle(words: &[u64], sets: &[u64; 32], cursors: &[u8; 32], u: u8, pc: usize) -> usize
    requires { u < 65 }
    ensures { Settled u words.now sets.now cursors.now pc result }
{
    let mut at = pc;
    while at < words.len() {
        let n = quiet(words, sets, cursors, u, at);
        if n == at {
            return at;
        }
        at = n;
    }
    at
}

// Where the test at a place goes on.
fn branch(
    words: &[u64],
    store: &mut [u64],
    firsts: &[u64],
    vars: &[u8; 32],
    u: u8,
    at: usize,
    yes: usize,
    no: usize,
) -> usize
    requires { u < 65 }
    ensures value { result ≡ cond (test_by words.now firsts.now u vars.now store.old at) yes no }
    ensures store_after { store.new ≡ left_by words.now firsts.now u vars.now store.old at }
{
    if test_at(words, store, firsts, vars, u, at) {
        return yes;
    }
    no
}

// Gives the variable of the FOR at depth d the least element that is left of its set.
fn take(sets: &[u64; 32], cursors: &mut [u8; 32], vars: &mut [u8; 32], u: u8, d: usize)
    requires { (u < 65) × (d < 32) }
    ensures cursors_after { cursors.new ≡ set cursors.old d (next_at u sets.now cursors.old d + 1) }
    ensures vars_after { vars.new ≡ set vars.old d (next_at u sets.now cursors.old d) }
{
    let a = seek(sets[d], cursors[d], u);
    cursors[d] = a + 1;
    vars[d] = a;
}

// The count of the relation that the assignment at a place has changed.
fn recount_at(
    words: &[u64],
    firsts: &[u64],
    u: u8,
    store: &[u64],
    at: usize,
    counts: &mut [usize; 16],
)
    ensures { counts.new ≡ recounted store.now (get_or firsts.now (target_in words.now at) 0) u (columns_in words.now at) (target_in words.now at) counts.old }
{
    let w = word_at(words, at);
    let k = (w / 256 % 65536) as usize;
    let n = (w / 72057594037927936 % 256) as usize;
    recount(store, word_at(firsts, k) as usize, u, n, k, counts);
}

// The step at a place that is no PRINT, and where it goes on.
fn step(
    words: &[u64],
    firsts: &[u64],
    u: u8,
    scr: usize,
    store: &mut [u64],
    sets: &mut [u64; 32],
    cursors: &mut [u8; 32],
    vars: &mut [u8; 32],
    counts: &mut [usize; 16],
    pc: usize,
) -> usize
    requires { (u < 65) × (pc < length words.now) × (kind_of (get_or words.now pc 0) ≡ PRINT → ⊥) }
    ensures by_index { (p : List ℕ → List ℕ → ℕ → List ℕ) (used : ℕ) (buffer : List ℕ) → held result used store.new buffer sets.new cursors.new vars.new ≡ turn (actions words.now firsts.now u scr p) u words.now (held pc used store.old buffer sets.old cursors.old vars.old) }
    ensures counts_after { counts.new ≡ counts_after (target_in words.now) (columns_in words.now) u firsts.now words.now pc store.new counts.old }
{
    let w = words[pc];
    let n = (w / 16777216 % 65536) as usize;
    match w % 256 {
        6 => {
            let d = (w / 256 % 65536 % 32) as usize;
            sets[d] = range_at(words, store, firsts, vars, u, pc);
            cursors[d] = 0;
            n
        }
        7 => {
            take(sets, cursors, vars, u, (w / 256 % 65536 % 32) as usize);
            n
        }
        33 => {
            assign_at(words, store, firsts, vars, u, scr, pc);
            recount_at(words, firsts, u, store, pc, counts);
            pc + 1
        }
        34 => branch(words, store, firsts, vars, u, pc, pc + 1, n),
        36 => branch(words, store, firsts, vars, u, previous(n), n, pc + 1),
        _ => pc,
    }
}

// What a step leaves: where the machine goes on, the bytes written, and whether it was a PRINT that does not fit.
#[derive(Clone, Copy)]
struct Acted {
    pc: usize,
    used: usize,
    full: bool,
}

// The step at a place.
fn act<'a>(
    words: &[u64],
    firsts: &[u64],
    u: u8,
    scr: usize,
    facts: &'a [u8],
    query: &'a [u8],
    places: &[usize],
    store: &mut [u64],
    out: &mut [u8],
    sets: &mut [u64; 32],
    cursors: &mut [u8; 32],
    vars: &mut [u8; 32],
    counts: &mut [usize; 16],
    pc: usize,
    used: usize,
) -> Acted
    requires { (u < 65) × (pc < length words.now) }
    ensures turned { Turned (actions words.now firsts.now u scr (print_by words.now firsts.now u (texts facts.now query.now places.now))) u words.now (held pc used store.old out.old sets.old cursors.old vars.old) result.full (held result.pc result.used store.new out.new sets.new cursors.new vars.new) }
    ensures counts_after { counts.new ≡ counts_after (target_in words.now) (columns_in words.now) u firsts.now words.now pc store.new counts.old }
{
    if words[pc] % 256 != 37 {
        let n = step(
            words, firsts, u, scr, store, sets, cursors, vars, counts, pc,
        );
        return Acted {
            pc: n,
            used: used,
            full: false,
        };
    }
    let end = print_at(
        words, store, firsts, vars, u, facts, query, places, pc, out, used,
    );
    if out.len() < end {
        return Acted {
            pc: pc,
            used: used,
            full: true,
        };
    }
    Acted {
        pc: pc + 1,
        used: end,
        full: false,
    }
}

// Where a run stands: its place in the words, its steps and its bytes. Its open FORs are in arrays beside it.
#[derive(Clone, Copy)]
pub struct Machine {
    pub pc: usize,
    pub steps: u32,
    pub used: usize,
}

// How the loop stopped, and where.
#[derive(Clone, Copy)]
pub struct Went {
    pub ending: Ending,
    pub machine: Machine,
}

fn stop(ending: Ending, pc: usize, steps: u32, used: usize) -> Went
    ensures { (result.ending ≡ ending) × (result.machine.pc ≡ pc) × (result.machine.steps ≡ steps) × (result.machine.used ≡ used) }
{
    Went {
        ending: ending,
        machine: Machine {
            pc: pc,
            steps: steps,
            used: used,
        },
    }
}

// Goes on with a run up to a limit of steps, counted from the run's start. Before each step the limit is tested.
pub fn go<'a>(
    words: &[u64],
    firsts: &[u64],
    u: u8,
    scr: usize,
    facts: &'a [u8],
    query: &'a [u8],
    places: &[usize],
    store: &mut [u64],
    out: &mut [u8],
    sets: &mut [u64; 32],
    cursors: &mut [u8; 32],
    vars: &mut [u8; 32],
    counts: &mut [usize; 16],
    m: Machine,
    limit: u32,
) -> Went
    requires { (u < 65) × (m.steps ≤ limit) }
    ensures goes { Goes (actions words.now firsts.now u scr (print_by words.now firsts.now u (texts facts.now query.now places.now))) u words.now limit (held m.pc m.used store.old out.old sets.old cursors.old vars.old) m.steps (stopped_of result) (held result.machine.pc result.machine.used store.new out.new sets.new cursors.new vars.new) }
    ensures counts_right { CountsRight (actions words.now firsts.now u scr (print_by words.now firsts.now u (texts facts.now query.now places.now))) u words.now firsts.now (held m.pc m.used store.old out.old sets.old cursors.old vars.old) m.steps counts.old result.machine.steps counts.new }
{
    let mut pc = m.pc;
    let mut steps = m.steps;
    let mut used = m.used;
    loop {
        let at = settle(words, sets, cursors, u, pc);
        if at >= words.len() {
            return stop(Ending::Done, at, steps, used);
        }
        if steps == limit {
            return stop(Ending::Spent, at, steps, used);
        }
        let a = act(
            words, firsts, u, scr, facts, query, places, store, out, sets, cursors, vars, counts,
            at, used,
        );
        if a.full {
            return stop(Ending::Full, a.pc, steps, a.used);
        }
        pc = a.pc;
        used = a.used;
        steps += 1;
    }
}
