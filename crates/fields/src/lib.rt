// The answers of the calls as structs of numbers: `refusal` is 0 where the call succeeds and document 01's number otherwise, and fields
// that do not apply are 0.
#![tactic(auto)]

ghost use Rattle.std.specs.Prelude.{◌≡◌, map, length};
ghost use Rattle.definition.specs.Answer.{ending_number};
ghost use Rattle.parts.specs.Packed.{part_of};
ghost use Rattle.fields.specs.Fields.{record_fields, checked_fields, ran_fields, chained_fields, joined_fields, part_fields};

use definition::{Checked, Ending, Record, Refusal, RefusedJoin, RunAnswer};

// A relation: the first place of its name (text 0 is the facts, 1 the query), its arity, its first word in the store, and the number of its
// tuples as loaded.
#[repr(C)]
#[derive(Clone, Copy)]
pub struct CRecord {
    pub text: u64,
    pub offset: u64,
    pub length: u64,
    pub arity: u64,
    pub first: u64,
    pub count: u64,
}

// What the check answers.
#[repr(C)]
#[derive(Drop)]
pub struct CChecked {
    pub refusal: u64,
    pub place: u64,
    pub universe: u64,
    pub words: u64,
    pub relations: u64,
    pub records: [CRecord; 16],
}

// What the run answers; endings are 0 done, 1 spent, 2 full. The counts are the relations' numbers of tuples at its end, in store order.
#[repr(C)]
#[derive(Drop)]
pub struct CRan {
    pub refusal: u64,
    pub place: u64,
    pub ending: u64,
    pub steps: u64,
    pub written: u64,
    pub counts: [u64; 16],
}

// A part of the facts (text 0) or of the query (text 1).
#[repr(C)]
#[derive(Clone, Copy)]
pub struct CPart {
    pub text: u64,
    pub offset: u64,
    pub length: u64,
}

// What the chain call answers.
#[repr(C)]
#[derive(Clone, Copy)]
pub struct CChained {
    pub refusal: u64,
    pub place: u64,
    pub count: u64,
}

// What the join answers: the text that a refusal is of is 1 for the first, 2 for the second and 0 for neither.
#[repr(C)]
#[derive(Clone, Copy)]
pub struct CJoined {
    pub refusal: u64,
    pub place: u64,
    pub text: u64,
    pub length: u64,
}

fn record_fields(r: Record) -> CRecord
    ensures { result ≡ record_fields r }
{
    CRecord {
        text: r.text as u64,
        offset: r.offset as u64,
        length: r.length as u64,
        arity: r.arity as u64,
        first: r.first as u64,
        count: r.count as u64,
    }
}

fn all_fields(rs: [Record; 16]) -> [CRecord; 16]
    requires { length rs ≡ 16 }
    ensures { result ≡ map record_fields rs }
{
    rs.map(record_fields)
}

pub fn checked_fields(c: Checked) -> CChecked
    requires { length c.records ≡ 16 }
    ensures { result ≡ checked_fields c }
{
    let rs = c.records;
    let records = all_fields(rs);
    let v = c.verdict;
    match v {
        Ok(f) => CChecked {
            refusal: 0,
            place: 0,
            universe: f.universe as u64,
            words: f.words as u64,
            relations: f.relations as u64,
            records,
        },
        Err(q) => CChecked {
            refusal: answers::number(q) as u64,
            place: answers::place(q) as u64,
            universe: 0,
            words: 0,
            relations: 0,
            records,
        },
    }
}

fn ending_number(e: Ending) -> u64
    ensures { result ≡ ending_number e }
{
    match e {
        Ending::Done => 0,
        Ending::Spent => 1,
        Ending::Full => 2,
    }
}

fn wide_counts(ns: [usize; 16]) -> [u64; 16]
    requires { length ns ≡ 16 }
    ensures { result ≡ ns }
{
    ns.map(|n| n as u64)
}

pub fn ran_fields(a: RunAnswer) -> CRan
    requires { length a.counts ≡ 16 }
    ensures { result ≡ ran_fields a }
{
    let ns = a.counts;
    let counts = wide_counts(ns);
    let ran = a.ran;
    match ran {
        Ok(s) => {
            let ending = s.ending;
            CRan {
                refusal: 0,
                place: 0,
                ending: ending_number(ending),
                steps: s.steps as u64,
                written: s.written as u64,
                counts,
            }
        }
        Err(q) => CRan {
            refusal: answers::number(q) as u64,
            place: answers::place(q) as u64,
            ending: 0,
            steps: 0,
            written: 0,
            counts,
        },
    }
}

pub fn chained_fields(a: Result<usize, Refusal>) -> CChained
    ensures { result ≡ chained_fields a }
{
    match a {
        Ok(n) => CChained {
            refusal: 0,
            place: 0,
            count: n as u64,
        },
        Err(q) => CChained {
            refusal: answers::number(q) as u64,
            place: answers::place(q) as u64,
            count: 0,
        },
    }
}

pub fn joined_fields(a: Result<usize, RefusedJoin>) -> CJoined
    ensures { result ≡ joined_fields a }
{
    match a {
        Ok(n) => CJoined {
            refusal: 0,
            place: 0,
            text: 0,
            length: n as u64,
        },
        Err(q) => CJoined {
            refusal: answers::number(q.refusal) as u64,
            place: answers::place(q.refusal) as u64,
            text: q.text as u64,
            length: 0,
        },
    }
}

// The part that the number w stands for.
pub fn part_fields(w: usize) -> CPart
    ensures { result ≡ part_fields (part_of w) }
{
    CPart {
        text: (w / 4 % 2) as u64,
        offset: (w / 512) as u64,
        length: (w / 8 % 64) as u64,
    }
}
