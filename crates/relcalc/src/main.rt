// Reads facts.rsf and query.rml in its working directory, runs the query and prints the page, then how the run ended.
#![tactic(auto)]

ghost use Rattle.std.specs.Prelude.{◌≤◌, length};
ghost use Rattle.page.specs.Closing.{LINE_BYTES};
ghost use Rattle.relcalc.specs.Prints.{Prints};

use std::io::Read;
use std::rt::Files;
use std::{fs, io};

// Reads a file into buf as far as it fits, and answers the count. A file that can't be opened counts as empty.
fn read_file(rt: &impl Files, path: &str, buf: &mut [u8]) -> usize
    ensures { result ≤ length buf.old }
{
    let Ok(mut file) = fs::open(rt, path) else {
        return 0;
    };
    let mut n = 0;
    while n < buf.len() {
        match file.read(&mut buf[n..]) {
            Ok(0) | Err(_) => break,
            Ok(k) => n += k,
        }
    }
    n
}

// What is printed: so many bytes of the output, then so many of the line.
#[derive(Clone, Copy)]
struct Printed {
    output: usize,
    line: usize,
}

// Runs the query over the facts, and closes the page with a line.
fn calculate<'a>(
    facts: &'a [u8],
    query: &'a [u8],
    store: &mut [u64],
    output: &mut [u8],
    line: &mut [u8],
) -> Printed
    requires { LINE_BYTES ≤ length line.old }
    ensures { Prints facts.now query.now store.old output.old line.old result store.new output.new line.new }
{
    let a = engine::run(facts, query, 1000000, store, output);
    let ran = a.ran;
    let n = page::shown(ran);
    let k = page::close(ran, line);
    Printed { output: n, line: k }
}

fn main(rt: HostRuntime) -> io::Result<()> {
    let mut facts = [0u8; 32769];
    let mut query = [0u8; 16385];
    let mut store = [0u64; 8192];
    let mut output = [0u8; 32768];
    let mut line = [0u8; 30];
    let f = read_file(&rt, "facts.rsf", &mut facts);
    let q = read_file(&rt, "query.rml", &mut query);
    let p = calculate(&facts[..f], &query[..q], &mut store, &mut output, &mut line);
    let n = p.output;
    let k = p.line;
    rt.write_all(&output[..n])?;
    rt.write_all(&line[..k])
}
