// tested: a script of at most 64 KiB on standard input, played 64 times over on one node by the library's public call, which tests the memory
// before every step; the listing of all on standard output. It shows how the call is used, and is there to be measured.
#![tactic(auto)]

ghost use Rattle.std.specs.Prelude.{ℕ, ◌+◌, ◌≤◌, length};
ghost use Rattle.script.specs.Written.{line_room, Countable, Counts};
ghost use Rattle.tested.specs.Counted.{CountsTo};

use memory::Node;
use memory::map::SIZE;
use script::line;
use script::read::NEWLINE;
use script::write::{Counter, LINE_ROOM, put_header, put_line};

// Standard input and standard output.
const STDIN: i32 = 0;

const STDOUT: i32 = 1;

// How many bytes a script has at most, and how many are written at a time.
const PORTION: usize = 65536;

// How often it is played.
const TIMES: u32 = 64;

// One line played and listed.
fn list(memory: &mut [u32], text: &[u8], out: &mut [u8], counter: &mut Counter, at: usize) -> usize
    requires room { at + line_room ≤ length out.old }
    requires countable { Countable counter.old }
    ensures { (result ≤ length out.new) × ((i : ℕ) → Counts counter.old i → Counts counter.new (i + 1)) }
{
    let r = line(memory, text);
    counter.next();
    put_line(out, at, counter, r)
}

// Where the next line is listed: behind the last, or at the beginning once what is listed is written for want of room.
fn room(out: &[u8], at: usize) -> usize
    requires { (at ≤ length out.now) × (line_room ≤ length out.now) }
    ensures { result + line_room ≤ length out.now }
{
    if out.len() - at >= LINE_ROOM {
        return at;
    }
    io::write_all(STDOUT, &out[..at]);
    0
}

// The script, line by line.
fn list_all(
    memory: &mut [u32],
    script: &[u8],
    out: &mut [u8],
    counter: &mut Counter,
    from: usize,
) -> usize
    requires room { (from ≤ length out.old) × (line_room ≤ length out.old) }
    requires few { length script.now ≤ 65536 }
    requires counts { CountsTo counter.old 4200000 }
    ensures { (result ≤ length out.new) × ((most : ℕ) → CountsTo counter.old most → CountsTo counter.new (most + 65536)) }
{
    let mut at = from;
    for text in script.split_inclusive(|b| *b == NEWLINE) {
        let start = room(out, at);
        at = list(
            memory,
            text.strip_suffix(&[NEWLINE]).unwrap_or(text),
            out,
            counter,
            start,
        );
    }
    at
}

// The script, time after time.
fn main() {
    let mut memory = [0u32; SIZE];
    let mut script = [0u8; PORTION];
    let mut out = [0u8; PORTION];
    Node::start(&mut memory);
    let n = io::read_full(STDIN, &mut script);
    let mut at = put_header(&mut out, 0);
    let mut number = Counter::new(0);
    for _ in 0..TIMES {
        at = list_all(&mut memory, &script[..n], &mut out, &mut number, at);
    }
    io::write_all(STDOUT, &out[..at]);
}
