// The listing written: numbers, the line number kept as text, a report's line and the header.
ghost use Rattle.std.specs.Prelude.{ℕ, ◌+◌, ◌*◌, ◌≤◌, ◌<◌, length};
ghost use Rattle.rules.specs.Build.{word_limit};
ghost use Rattle.rules.specs.Script.{header};
ghost use Rattle.rules.specs.Text.{decimal};
ghost use Rattle.script.specs.Written.{Appended, field, places, Counts, Counting, Countable};
ghost use Rattle.script.specs.Written.{fields, sent_numbers, behind_number, Line, field_room, sent_room, report_room, line_room};

use crate::read::NEWLINE;
use memory::words::copy_all;
use rules::{Report, Sent};

// The places that a line number has.
pub const PLACES: usize = 20;

// The decimal digits of n: those of its tenth, then the last.
pub fn put_number(out: &mut [u8], at: usize, n: u64) -> usize
    requires { at + length (decimal n) ≤ length out.old }
    ensures { Appended out.old at out.new result (decimal n) }
{
    if n < 10 {
        out[at] = b'0' + n as u8;
        return at + 1;
    }
    let last = put_number(out, at, n / 10);
    out[last] = b'0' + (n % 10) as u8;
    last + 1
}

// A comma, and the number behind it.
fn put_field(out: &mut [u8], at: usize, n: u32) -> usize
    requires { at + field_room ≤ length out.old }
    ensures { Appended out.old at out.new result (field n) × (result ≤ at + field_room) }
{
    out[at] = b',';
    if n < 10 {
        out[at + 1] = b'0' + n as u8;
        return at + 2;
    }
    put_number(out, at + 1, n as u64)
}

// A line number that is counted on: the digits that write it, and how many they are.
#[derive(Clone, Copy)]
pub struct Counter {
    pub digits: [u8; PLACES],
    pub len: usize,
}

impl Counter {
    // A counter at a number.
    pub fn new(n: u64) -> Counter
        ensures { Counts result n }
    {
        let mut digits = [0u8; PLACES];
        let len = put_number(&mut digits, 0, n);
        Counter { digits, len }
    }

    // The next number: nines at the end become zeros, and the digit before them is one more. Where all are nines a one leads the zeros.
    pub fn next(&mut self)
        requires { Countable self.old }
        ensures { (i : ℕ) → Counts self.old i → Counts self.new (i + 1) }
    {
        for i in (0..self.len).rev() {
            if self.digits[i] != b'9' {
                self.digits[i] += 1;
                return;
            }
            self.digits[i] = b'0';
        }
        self.digits[0] = b'1';
        self.digits[self.len] = b'0';
        self.len += 1;
    }

    // The number. All twenty places are copied, from an array that the output can't overlap: the compiler then moves them as words, and byte by
    // byte where they might overlap or their count isn't known. What stands behind the number is written over next.
    pub fn put(&self, out: &mut [u8], at: usize) -> usize
        requires room { at + places ≤ length out.old }
        requires counting { Counting self.now }
        ensures { (i : ℕ) → Counts self.now i → Appended out.old at out.new result (decimal i) }
    {
        let digits = self.digits;
        copy_all(&mut out[at..at + PLACES], &digits);
        at + self.len
    }
}

// Numbers, each as a field: by number, since a slice's iterator answers with a byte and a pointer, which a replay's page has elsewhere.
fn put_fields(out: &mut [u8], at: usize, numbers: &[u32]) -> usize
    requires { at + field_room * length numbers.now ≤ length out.old }
    ensures { Appended out.old at out.new result (fields numbers.now) × (result ≤ at + field_room * length numbers.now) }
{
    let mut end = at;
    for i in 0..numbers.len() {
        end = put_field(out, end, numbers[i]);
    }
    end
}

// What an accepted launch adds to its line: node, group and words; nothing where nothing was sent.
fn put_sent(out: &mut [u8], at: usize, s: Sent) -> usize
    requires { (s.len ≤ word_limit) × (at + sent_room ≤ length out.old) }
    ensures { Appended out.old at out.new result (fields (sent_numbers s)) × (result ≤ at + sent_room) }
{
    if s.len == 0 {
        return at;
    }
    let node = put_field(out, at, s.node);
    let group = put_field(out, node, s.group);
    put_fields(out, group, &s.words[..s.len as usize])
}

// A line of the listing behind its number.
fn put_report(out: &mut [u8], at: usize, r: Report) -> usize
    requires { (r.sent.len ≤ word_limit) × (at + report_room ≤ length out.old) }
    ensures { Appended out.old at out.new result (behind_number r) × (result ≤ at + report_room) }
{
    let fields = put_fields(out, at, &[r.answer, r.value, r.trap, r.upcall, r.moved]);
    let end = put_sent(out, fields, r.sent);
    out[end] = NEWLINE;
    end + 1
}

// The room that any line takes, at most.
pub const LINE_ROOM: usize = 192;

// A line of the listing: its number and the report.
pub fn put_line(out: &mut [u8], at: usize, counter: &Counter, r: Report) -> usize
    requires room { at + line_room ≤ length out.old }
    requires counting { Counting counter.now }
    requires words { r.sent.len ≤ word_limit }
    ensures { Line counter.now out.old at out.new result r × (result ≤ at + line_room) }
{
    let number = counter.put(out, at);
    put_report(out, number, r)
}

// The bytes of a text.
pub fn put_text(out: &mut [u8], at: usize, text: &[u8]) -> usize
    requires { at + length text.now ≤ length out.old }
    ensures { Appended out.old at out.new result text.now }
{
    let end = at + text.len();
    copy_all(&mut out[at..end], text);
    end
}

// The header.
pub fn put_header(out: &mut [u8], at: usize) -> usize
    requires { at + length header ≤ length out.old }
    ensures { Appended out.old at out.new result header }
{
    put_text(out, at, b"line,answer,value,trap,upcall,moved\n")
}
