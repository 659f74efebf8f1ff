// Runs the worked cases of document 01, the manual's programs for closures, texts that a wrong engine would answer otherwise, patterns, elements in quotes, numbers of tuples,
// quantities, and texts that are refused, each with its own budget, store and output. Prints the case's letter, what the text is for or the row, with the
// query; then what the calls answer and how many bytes of the output are as they were lent, or how many tuples each relation has.
#![tactic(auto)]

use definition::{Checked, Figures, Record, Refusal, Stopped};
use lines::{put, put_text};
use listing::untouched;
use page::{put_ending, put_number, put_refusal, shown};
use parts::part;
use std::io;

// Ends the line at place n and writes it.
fn write_line(rt: &impl Print, line: &mut [u8], n: usize) -> io::Result<()> {
    let end = put(line, n, 10, true);
    rt.write_all(part(line, 0, end))
}

fn put_stopped(line: &mut [u8], s: Stopped) -> usize {
    let ending = s.ending;
    let p = put_ending(line, ending);
    let n = put_number(line, p, s.steps as u64);
    put_number(line, n, s.written as u64)
}

fn put_run(line: &mut [u8], r: Result<Stopped, Refusal>) -> usize {
    match r {
        Ok(s) => put_stopped(line, s),
        Err(q) => put_refusal(line, q),
    }
}

fn run_in<'a>(
    rt: &impl Print,
    facts: &'a [u8],
    query: &'a [u8],
    budget: u32,
    store: &mut [u64],
    output: &mut [u8],
) -> io::Result<()> {
    let mut line = [0u8; 256];
    let a = engine::run(facts, query, budget, store, output);
    let r = a.ran;
    let p = put_run(&mut line, r);
    let q = put(&mut line, p, b',', true);
    let n = put_number(&mut line, q, untouched(output) as u64);
    write_line(rt, &mut line, n)?;
    rt.write_all(part(output, 0, shown(r)))
}

// The case and its query.
fn show_case(rt: &impl Print, case: &[u8], query: &[u8]) -> io::Result<()> {
    let mut line = [0u8; 256];
    let p = put_text(&mut line, 0, case, true);
    let q = put_text(&mut line, p, b": ", true);
    let n = put_text(&mut line, q, query, true);
    write_line(rt, &mut line, n)
}

// A run in a store of so many words, up to those of one relation of pairs over 64 elements, and an output of up to 256 bytes.
fn run<'a>(
    rt: &impl Print,
    case: &[u8],
    facts: &'a [u8],
    query: &'a [u8],
    budget: u32,
    words: usize,
    room: usize,
) -> io::Result<()> {
    let mut store = [7u64; 1152];
    let mut output = [255u8; 256];
    show_case(rt, case, query)?;
    if 1152 < words {
        return Ok(());
    }
    if 256 < room {
        return Ok(());
    }
    run_in(
        rt,
        facts,
        query,
        budget,
        &mut store[..words],
        &mut output[..room],
    )
}

fn put_figures(line: &mut [u8], f: Figures) -> usize {
    let p = put_text(line, 0, b"accepted", true);
    let u = put_number(line, p, f.universe as u64);
    let w = put_number(line, u, f.words as u64);
    put_number(line, w, f.relations as u64)
}

fn put_verdict(line: &mut [u8], v: Result<Figures, Refusal>) -> usize {
    match v {
        Ok(f) => put_figures(line, f),
        Err(q) => put_refusal(line, q),
    }
}

// A record: text, offset, length, arity, first word and number of tuples.
fn put_record(line: &mut [u8], at: usize, r: Record) -> usize {
    let p = put(line, at, b',', true);
    let t = put_number(line, p, r.text as u64);
    let o = put_number(line, t, r.offset as u64);
    let n = put_number(line, o, r.length as u64);
    let k = put_number(line, n, r.arity as u64);
    let f = put_number(line, k, r.first as u64);
    put_number(line, f, r.count as u64)
}

// The verdict and all records, unused ones too.
fn put_checked(line: &mut [u8], c: Checked) -> usize {
    let v = c.verdict;
    let rs = c.records;
    let mut n = put_verdict(line, v);
    for r in rs {
        n = put_record(line, n, r);
    }
    n
}

// What the check says.
fn check<'a>(rt: &impl Print, case: &[u8], facts: &'a [u8], query: &'a [u8]) -> io::Result<()> {
    let mut line = [0u8; 256];
    show_case(rt, case, query)?;
    let n = put_checked(&mut line, engine::check(facts, query));
    write_line(rt, &mut line, n)
}

// The numbers of tuples, unused ones too.
fn put_counts(line: &mut [u8], at: usize, counts: [usize; 16]) -> usize {
    let mut n = put(line, at, b',', true);
    for k in counts {
        n = put_number(line, n, k as u64);
    }
    n
}

// How a run in an output of up to 63 bytes ends, and how many tuples its relations then have.
fn sizes<'a>(
    rt: &impl Print,
    case: &[u8],
    facts: &'a [u8],
    query: &'a [u8],
    budget: u32,
    room: usize,
) -> io::Result<()> {
    let mut store = [7u64; 256];
    let mut output = [255u8; 63];
    let mut line = [0u8; 256];
    show_case(rt, case, query)?;
    if 63 < room {
        return Ok(());
    }
    let a = engine::run(facts, query, budget, &mut store, &mut output[..room]);
    let ran = a.ran;
    let counts = a.counts;
    let p = put_run(&mut line, ran);
    let n = put_counts(&mut line, p, counts);
    write_line(rt, &mut line, n)
}

// A run with room enough.
fn run_all<'a>(rt: &impl Print, case: &[u8], facts: &'a [u8], query: &'a [u8]) -> io::Result<()> {
    run(rt, case, facts, query, 100, 256, 256)
}

// "The program .. prints": cases A to C, no step at all, and a store one word short.
fn closures<'a>(rt: &impl Print, facts: &'a [u8], query: &'a [u8]) -> io::Result<()> {
    check(rt, b"A", facts, query)?;
    run(rt, b"B", facts, query, 2, 77, 63)?;
    run(rt, b"C, 62 bytes", facts, query, 2, 77, 62)?;
    run(rt, b"C, budget 1", facts, query, 1, 77, 63)?;
    run(rt, b"budget 0", facts, query, 0, 77, 63)?;
    run(rt, b"row 14", facts, query, 2, 76, 63)
}

// Cases D to H.
fn expressions<'a>(rt: &impl Print, facts: &'a [u8]) -> io::Result<()> {
    run_all(rt, b"D", facts, b"PRINT EX(y, On(x,y) & On(y,z));")?;
    run_all(rt, b"E", facts, b"PRINT FA(y, !On(y,x));")?;
    run_all(rt, b"F1", facts, b"Held(\"C2\"); PRINT Held(x);")?;
    run_all(rt, b"G", facts, b"S(x,x) := Held(x); PRINT S(x,y);")?;
    run_all(rt, b"H", facts, b"On(y,x) := On(x,y); PRINT On(x,y);")
}

// TC and TCFAST beside the manual's programs for them in section 2.3: a chain against the order, a cycle, a loop, an element without pairs.
fn manual(rt: &impl Print) -> io::Result<()> {
    let facts = b"R c a\nR a d\nR d b\nR e f\nR f e\nR g g\nHeld h\n";
    run_all(rt, b"TC", facts, b"PRINT TC(R(x,y));")?;
    run_all(
        rt,
        b"Warshall",
        facts,
        b"Result(x,y) := R(x,y); Node(x) := Result(x,_) & Result(_,x); FOR node IN Node(x) { Result(x,y) := Result(x,y) | (Result(x,node) & Result(node,y)); } PRINT Result(x,y);",
    )?;
    run_all(rt, b"TCFAST", facts, b"PRINT TCFAST(R(x,y));")?;
    run_all(
        rt,
        b"WHILE",
        facts,
        b"Result(x,y) := R(x,y); PrevResult(x,y) := FALSE(x,y); WHILE (PrevResult(x,y) != Result(x,y)) { PrevResult(x,y) := Result(x,y); Result(x,z) := Result(x,z) | EX(y, Result(x,y) & Result(y,z)); } PRINT Result(x,y);",
    )
}

// Cases I to L, and a loop variable as a label.
fn statements<'a>(rt: &impl Print, facts: &'a [u8]) -> io::Result<()> {
    run_all(
        rt,
        b"I",
        facts,
        b"IF \"Z\"=\"Z\" { PRINT \"yes\"; } ELSE { PRINT \"no\", ENDL; }",
    )?;
    run_all(
        rt,
        b"J",
        b"",
        b"PRINT [\"fa\"] FA(x,FALSE(x)), [\"ex\"] EX(x,TRUE(x));",
    )?;
    run_all(
        rt,
        b"K",
        facts,
        b"FOR c IN On(x,_) { Held(x) := Held(x) & x != c; }",
    )?;
    run_all(
        rt,
        b"label c",
        facts,
        b"FOR c IN On(x,_) { PRINT [c] On(c,x); }",
    )?;
    run_all(rt, b"L", facts, b"WHILE TRUE() { P(); }")
}

// "Also wrong: a FOR that re-reads its set, an inner EX that spoils the outer attribute's value"; B is the TC without a cycle.
fn also_wrong<'a>(rt: &impl Print, facts: &'a [u8]) -> io::Result<()> {
    run_all(
        rt,
        b"a set read again",
        facts,
        b"FOR c IN On(x,_) { On(x,y) := FALSE(x,y); PRINT c, ENDL; }",
    )?;
    run_all(
        rt,
        b"an inner EX that spoils",
        facts,
        b"IF EX(x, EX(y, On(x,y) & On(y,\"C2\"))) { PRINT \"yes\", ENDL; }",
    )
}

// Each has rows that a wrong filter, sign or comparison would lose, or give.
fn rows<'a>(rt: &impl Print, facts: &'a [u8]) -> io::Result<()> {
    run_all(rt, b"either side", facts, b"PRINT On(x,y) | On(y,x);")?;
    run_all(
        rt,
        b"at most itself",
        facts,
        b"PRINT Held(x) & x <= \"B7\";",
    )?;
    run_all(
        rt,
        b"hides outer attributes",
        facts,
        b"PRINT Held(x) & (On(x,_) <= Held(x));",
    )?;
    run_all(
        rt,
        b"FALSE",
        facts,
        b"IF FALSE() { PRINT \"yes\"; } ELSE { PRINT \"no\", ENDL; }",
    )?;
    run_all(
        rt,
        b"two loops",
        facts,
        b"FOR a IN Held(x) { FOR b IN On(a,x) { PRINT a, \" \", b, ENDL; } }",
    )?;
    run_all(rt, b"three columns", b"T a b c\n", b"PRINT T(x,y,z);")
}

// A PRINT of four bytes, in a store of just the words needed.
fn room(rt: &impl Print) -> io::Result<()> {
    run(rt, b"room for all", b"R a\nR b\n", b"PRINT R(x);", 1, 34, 4)?;
    run(
        rt,
        b"one byte short",
        b"R a\nR b\n",
        b"PRINT R(x);",
        1,
        34,
        3,
    )
}

// 64 elements, the last of which is `~`: the last bit of a word; and one more.
fn all_elements(rt: &impl Print) -> io::Result<()> {
    let facts =
        b"R 0 1\nR 2 3\nR 4 5\nR 6 7\nR 8 9\nR A B\nR C D\nR E F\nR G H\nR I J\nR K L\nR M N\nR O P\nR Q R\nR S T\nR U V\nR W X\nR Y Z\nR _ a\nR b c\nR d e\nR f g\nR h i\nR j k\nR l m\nR n o\nR p q\nR r s\nR t u\nR v w\nR x y\nR z ~\n";
    run(rt, b"element 63", facts, b"PRINT x = \"~\";", 1, 1152, 256)?;
    run(rt, b"row 7", facts, b"P(\"new\");", 1, 1152, 256)?;
    run(
        rt,
        b"elements 1, 37, 63",
        facts,
        b"PRINT @\"[1a~]\"(x);",
        1,
        1152,
        256,
    )?;
    run(
        rt,
        b"element 63",
        facts,
        b"IF @\"~\"(\"~\") { PRINT \"yes\", ENDL; }",
        2,
        1152,
        256,
    )?;
    run(
        rt,
        b"each element counted",
        facts,
        b"PRINT #(x = x), \" \", #(R(x,y)), \" \", #(TRUE(x,y,z)), ENDL;",
        1,
        1152,
        256,
    )
}

// "The same facts saved either way .. load to the same tables": cases A and B, but for offsets.
fn line_ends<'a>(rt: &impl Print, query: &'a [u8]) -> io::Result<()> {
    let f = b"On C10 C5\r\nOn C5 C2\r\nOn B7 C10\r\nHeld B7\r";
    check(rt, b"A with CR LF", f, query)?;
    run(rt, b"B with CR LF", f, query, 2, 77, 63)
}

fn facts_refused(rt: &impl Print) -> io::Result<()> {
    run_all(rt, b"row 2", b"R a\x01\n", b"P();")?;
    run_all(rt, b"row 2", b"R a\rb\r\n", b"P();")?;
    run_all(rt, b"row 2", b"R a\r\r\n", b"P();")?;
    run_all(rt, b"row 3", b"R a\n1x\n", b"P();")?;
    run_all(rt, b"row 4", b"R \"a\n", b"P();")?;
    run_all(rt, b"row 5", b"R a b c d\n", b"P();")
}

fn query_refused<'a>(rt: &impl Print, facts: &'a [u8]) -> io::Result<()> {
    run_all(rt, b"row 9", facts, b"P(); ?")?;
    run_all(rt, b"row 10", facts, b"P() := ;")?;
    run_all(rt, b"row 11", facts, b"PRINT On(Held,x);")?;
    run_all(rt, b"row 12", facts, b"P(x) := On(x,y);")?;
    run_all(rt, b"row 5", facts, b"P(x) := On(x);")?;
    run_all(rt, b"row 5", facts, b"PRINT Held(x,y);")
}

// One more than document 01's limits on relations, printed columns and attributes.
fn limits<'a>(rt: &impl Print, facts: &'a [u8]) -> io::Result<()> {
    run_all(
        rt,
        b"row 6",
        b"",
        b"A();B();C();D();E();F();G();H();I();J();K();L();M();N();O();P();Q();",
    )?;
    run_all(rt, b"row 12", facts, b"PRINT On(w,x) & On(y,z);")?;
    run_all(rt, b"row 13", facts, b"PRINT EX(a,b,c,d,e, On(a,b));")
}

// "`@s(term)` .. true for universe elements that match": each kind of term.
fn patterns<'a>(rt: &impl Print, facts: &'a [u8]) -> io::Result<()> {
    run_all(rt, b"a pattern", facts, b"PRINT @\"^C1\"(x);")?;
    run_all(
        rt,
        b"two patterns",
        facts,
        b"PRINT On(x,y) & @\"^C\"(x) & !@\"0$\"(x);",
    )?;
    run_all(
        rt,
        b"quantified",
        facts,
        b"PRINT EX(y, On(x,y) & @\"5$\"(y));",
    )?;
    run_all(
        rt,
        b"other terms",
        facts,
        b"FOR v IN @\"7\"(x) { PRINT @\"7\"(v), @\"7\"(\"C5\"), @\"7\"(\"Z\"), @\"2\"(_); }",
    )
}

fn patterns_refused<'a>(rt: &impl Print, facts: &'a [u8]) -> io::Result<()> {
    run_all(rt, b"row 10", facts, b"PRINT @x(y);")?;
    run_all(rt, b"row 18", facts, b"PRINT @\"\"(x);")?;
    run_all(rt, b"row 18", facts, b"PRINT @\"C\"(x), @\"[b-a]\"(x);")?;
    run_all(rt, b"row 18", facts, b"PRINT x, @\"a**\"(x);")
}

// "an element is printed in quotes if a fact quoted it, or if it is empty or holds a space or tab"; strings and loop variables stay bare.
fn quotes(rt: &impl Print) -> io::Result<()> {
    run_all(
        rt,
        b"empty, a space, a tab, none",
        b"Held B7\n",
        b"Held(\"5Y off the run\"); Held(\"\"); Held(\"a\tb\"); Held(\"plain\"); PRINT Held(x);",
    )?;
    run_all(
        rt,
        b"quoted by a fact",
        b"Held \"B7\"\nHeld C5\n",
        b"Held(\"B7\"); Held(\"C5\"); Held(\"C 5\"); PRINT Held(x);",
    )?;
    run_all(
        rt,
        b"labels and loop variables",
        b"Held B7\n",
        b"Held(\"5Y off the run\"); FOR v IN Held(x) { PRINT v, ENDL, [v] x = v, [\"a label\"] x = v; }",
    )
}

// "After any number of steps, spent and full endings included, each count equals the number of tuples in that table".
fn counted<'a>(rt: &impl Print, facts: &'a [u8], dep: &'a [u8]) -> io::Result<()> {
    sizes(rt, b"as loaded", facts, dep, 0, 63)?;
    sizes(rt, b"spent", facts, dep, 1, 63)?;
    sizes(rt, b"full", facts, dep, 2, 62)?;
    sizes(rt, b"done", facts, dep, 2, 63)?;
    let turns = b"FOR c IN On(x,_) { On(x,y) := On(x,y) & x != c; Q(x) := Q(x) | x = c; }";
    sizes(rt, b"fewer and more", facts, turns, 6, 0)?;
    sizes(rt, b"none and all", facts, turns, 10, 0)?;
    sizes(rt, b"row 10", facts, b"P() := ;", 10, 63)
}

// Facts that stand more than once, bare and in quotes, are one tuple; those that share an element are not.
fn repeated(rt: &impl Print) -> io::Result<()> {
    let facts = b"R a b\nP\nR \"a\" b\nS b\nR a b\nP\nR a a\n";
    check(rt, b"stated again", facts, b"PRINT ENDL;")?;
    sizes(rt, b"stated again", facts, b"PRINT ENDL;", 1, 1)
}

// "held bonds on this curve over all held bonds": counts, sums and ratios as items.
fn shares<'a>(rt: &impl Print, facts: &'a [u8]) -> io::Result<()> {
    run_all(
        rt,
        b"a share",
        facts,
        b"PRINT #(Held(x) & On(x,_)) / #(On(x,_)), ENDL;",
    )?;
    run_all(
        rt,
        b"sums",
        facts,
        b"PRINT #(On(x,y)), \" \", #(On(x,y) & On(y,z)), \" \", #(Held(x)) + 999999 + 007, ENDL;",
    )?;
    run_all(
        rt,
        b"reduced",
        facts,
        b"PRINT 6 / 4, \" \", 0 / 5, \" \", 4 / 2, \" \", 3 / 0, ENDL;",
    )?;
    run_all(
        rt,
        b"counts in counts, of truth, of a closure",
        facts,
        b"PRINT #(#(On(x,y)) = 3), #(!(#(On(x,y)) = 3)), #(TRUE()), #(TRUE(x)), #(TC(On(x,y))), ENDL;",
    )
}

// "It hides outer attributes", loop variables stay; "Ratios compare by cross products", none of them over 0.
fn compared<'a>(rt: &impl Print, facts: &'a [u8]) -> io::Result<()> {
    run_all(
        rt,
        b"hides outer attributes",
        facts,
        b"PRINT On(x,_) & (#(On(x,y)) = 3);",
    )?;
    run_all(
        rt,
        b"loop variables",
        facts,
        b"FOR c IN On(x,_) { PRINT #(On(c,x)), #(On(x,c)); } PRINT ENDL;",
    )?;
    run_all(
        rt,
        b"cross products",
        facts,
        b"IF 1 / 3 < #(Held(x)) / 2 { PRINT 1; } IF 2 / 4 = 1 / 2 { PRINT 2; } IF 1 / 0 != 1 { PRINT 3; } PRINT ENDL;",
    )?;
    run_all(
        rt,
        b"sums",
        facts,
        b"IF #(On(x,y)) + 1 > 3 + 1 { PRINT 1; } IF #(On(x,y)) + 1 >= 2 + 2 { PRINT 2; } PRINT ENDL;",
    )
}

fn shares_refused<'a>(rt: &impl Print, facts: &'a [u8]) -> io::Result<()> {
    run_all(
        rt,
        b"row 9",
        facts,
        b"PRINT 000000000000000000000000000000001;",
    )?;
    run_all(rt, b"row 10", facts, b"IF #(Held(x)) { P(); }")?;
    run_all(rt, b"row 10", facts, b"PRINT 1+1+1+1+1+1+1+1+;")?;
    run_all(rt, b"row 19", facts, b"PRINT 1000000;")?;
    run_all(rt, b"row 19", facts, b"PRINT 1+1+1+1+1+1+1+1+#(Held(x));")?;
    run_all(
        rt,
        b"row 12",
        facts,
        b"PRINT #(Held(w) & Held(x) & Held(y) & Held(z));",
    )
}

fn main(rt: HostRuntime) -> io::Result<()> {
    let f = b"On C10 C5\nOn C5 C2\nOn B7 C10\nHeld B7\n";
    let dep = b"Dep(x,y) := TC(On(x,y)); PRINT [\"Dep\"] Dep(x,y);";
    closures(&rt, f, dep)?;
    expressions(&rt, f)?;
    manual(&rt)?;
    statements(&rt, f)?;
    also_wrong(&rt, f)?;
    rows(&rt, f)?;
    room(&rt)?;
    all_elements(&rt)?;
    line_ends(&rt, dep)?;
    facts_refused(&rt)?;
    query_refused(&rt, f)?;
    limits(&rt, f)?;
    patterns(&rt, f)?;
    patterns_refused(&rt, f)?;
    quotes(&rt)?;
    counted(&rt, f, dep)?;
    repeated(&rt)?;
    shares(&rt, f)?;
    compared(&rt, f)?;
    shares_refused(&rt, f)
}
