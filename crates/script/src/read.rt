// A line of a script read to an operation, in one pass over its bytes. The numbers of a line go into a lent part, which
// has room for all; the words of an arrival are those behind the first.
ghost use Rattle.std.specs.Prelude.{◌≡◌, ◌≤◌, ◌<◌, length};
ghost use Rattle.script.specs.Read.{field_limit, line_end, no_number, fields_ended, unreadable_line, Judged, NumberRead, FieldsRead, BeginRead, Alone, WithNumber, Lettered, LineRead, TextRead};

use rules::Operation;

// A line has room for no more numbers: each takes a comma and a digit.
pub const FIELDS: usize = 64;

pub const NEWLINE: u8 = b'\n';

// A line is read up to this many bytes, its newline not counted.
const LINE_LIMIT: usize = 128;

// A number has at most this many digits.
const DIGIT_LIMIT: usize = 10;

// A number, where there is one, and the position behind what was read of it.
#[derive(Clone, Copy)]
pub struct Digits {
    pub value: Option<u32>,
    pub next: usize,
}

// How many numbers stand behind a letter, and the position behind them.
#[derive(Clone, Copy)]
struct Fields {
    count: usize,
    next: usize,
}

// A line's operation, how many numbers it has, and where the next line begins.
#[derive(Clone, Copy)]
pub struct Line {
    pub op: Operation,
    pub count: usize,
    pub next: usize,
}

// What is told where no number stands.
fn no_number(next: usize) -> Digits
    ensures { result ≡ no_number next }
{
    Digits { value: None, next }
}

// Digits are a number where there are some and the number is not too large.
fn judged(value: u64, count: usize, next: usize) -> Digits
    ensures { Judged value count next result }
{
    if count == 0 {
        return no_number(next);
    }
    Digits {
        value: u32::try_from(value).ok(),
        next,
    }
}

// The number whose digits begin at a position.
pub fn number(s: &[u8], at: usize) -> Digits
    requires { at ≤ length s.now }
    ensures { NumberRead s.now at result }
{
    let mut value = 0u64;
    for i in at..s.len() {
        let b = s[i];
        if !b.is_ascii_digit() {
            return judged(value, i - at, i);
        }
        if i - at >= DIGIT_LIMIT {
            return no_number(i);
        }
        value = value * 10 + (b - b'0') as u64;
    }
    judged(value, s.len() - at, s.len())
}

// The fields end behind `length` bytes: they are read where the line ends there too and is not over its limit.
fn ended(line: bool, length: usize, count: usize, next: usize) -> Result<Fields, usize>
    ensures { result ≡ fields_ended line length count next }
{
    if line && length < LINE_LIMIT {
        return Ok(Fields { count, next });
    }
    Err(next)
}

// The numbers behind a letter, up to the end of the line; or where what is none ended the reading.
fn read_fields(s: &[u8], at: usize, fields: &mut [u32]) -> Result<Fields, usize>
    requires { (at ≤ length s.now) × (field_limit ≤ length fields.old) }
    ensures { FieldsRead s.now at fields.new result }
{
    let mut i = at;
    let mut count = 0;
    while i < s.len() {
        let b = s[i];
        if b != b',' {
            return ended(b == NEWLINE, i - at, count, i);
        }
        if i - at >= LINE_LIMIT - 1 {
            return Err(i);
        }
        let n = number(s, i + 1);
        i = n.next;
        fields[count] = n.value.ok_or(i)?;
        count += 1;
    }
    ended(true, i - at, count, i)
}

// Where the line ends that goes on at a position. By number, since a slice's iterator answers with a byte and a pointer, which a replay's page has
// elsewhere.
pub fn end_of_line(s: &[u8], from: usize) -> usize
    requires { from ≤ length s.now }
    ensures { result ≡ line_end s.now from }
{
    for i in from..s.len() {
        if s[i] == NEWLINE {
            return i;
        }
    }
    s.len()
}

// B by its number, which tells whether it turns force on.
fn begin(force: u32) -> Operation
    ensures { BeginRead force result }
{
    match force {
        0 => Operation::BeginAtomic(false),
        1 => Operation::BeginAtomic(true),
        _ => Operation::Unknown,
    }
}

// The operation of a letter without numbers.
fn alone(letter: u8) -> Operation
    ensures { Alone letter result }
{
    match letter {
        b'O' => Operation::Preempt,
        b'C' => Operation::Turn,
        b'M' => Operation::Poll,
        b'D' => Operation::Dispose,
        b'B' => Operation::BeginAtomic(false),
        b'N' => Operation::EndAtomic,
        _ => Operation::Unknown,
    }
}

// The operation of a letter but A with one number.
fn with_number(letter: u8, number: u32) -> Operation
    ensures { WithNumber letter number result }
{
    match letter {
        b'S' => Operation::Schedule(number),
        b'I' => Operation::Dispatch(number),
        b'T' => Operation::Tick(number),
        b'E' => Operation::Peek(number),
        b'B' => begin(number),
        b'P' => Operation::Describe(number),
        b'L' => Operation::Launch(number),
        _ => Operation::Unknown,
    }
}

// The operation of a letter and its numbers, by their count and the first.
pub fn operation(letter: u8, count: usize, first: u32) -> Operation
    ensures { Lettered letter count first result }
{
    if count == 0 {
        return alone(letter);
    }
    if letter == b'A' {
        return Operation::Arrive(first);
    }
    if count > 1 {
        return Operation::Unknown;
    }
    with_number(letter, first)
}

// What is told of a line that cannot be read.
fn unreadable(next: usize) -> Line
    ensures { result ≡ unreadable_line next }
{
    Line {
        op: Operation::Unknown,
        count: 0,
        next,
    }
}

// The line that begins at a position: its operation, and in the fields the numbers behind its letter.
pub fn read_at(s: &[u8], at: usize, fields: &mut [u32]) -> Line
    requires { (at < length s.now) × (field_limit ≤ length fields.old) }
    ensures { LineRead s.now at fields.new result }
{
    let letter = s[at];
    if letter == NEWLINE {
        return unreadable(at + 1);
    }
    match read_fields(s, at + 1, fields) {
        Ok(f) => Line {
            op: operation(letter, f.count, fields[0]),
            count: f.count,
            next: f.next + 1,
        },
        Err(stop) => unreadable(end_of_line(s, stop) + 1),
    }
}

// A text as one line: a newline in it makes it unreadable.
pub fn read(text: &[u8], fields: &mut [u32]) -> Line
    requires { field_limit ≤ length fields.old }
    ensures { TextRead text.now fields.new result }
{
    if text.is_empty() {
        return unreadable(1);
    }
    let l = read_at(text, 0, fields);
    if l.next <= text.len() {
        return unreadable(l.next);
    }
    l
}
