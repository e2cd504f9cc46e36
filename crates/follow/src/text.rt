// The answer for a message as a line of text: numbers for a program, and words for a reader.
ghost use Rattle.std.specs.Prelude.{◌++◌, ◌+◌, ◌≤◌, length};
ghost use Rattle.reasons.specs.Why.{reason_words, why_line};
ghost use Rattle.rules.specs.Text.{decimal};
ghost use Rattle.script.specs.Written.{Appended, places};
ghost use Rattle.follow.specs.Text.{words_room, why_room};

use reasons::Reason;
use script::write::{put_number, put_text};

// The room that any line takes, at most.
pub const WHY_ROOM: usize = 140;

// The reasons by the numbers that a line is written with, but for the last.
const DISPOSED_OF: u32 = Reason::DisposedOf as u32;

const STILL_QUEUED: u32 = Reason::StillQueued as u32;

const NOT_RUNNING: u32 = Reason::NotRunning as u32;

const OLDER_WAITING: u32 = Reason::OlderWaiting as u32;

const REVOKED: u32 = Reason::Revoked as u32;

const TIMEOUT: u32 = Reason::Timeout as u32;

// A reason in words.
fn put_reason(out: &mut [u8], at: usize, reason: u32) -> usize
    requires { at + words_room ≤ length out.old }
    ensures { Appended out.old at out.new result (reason_words reason) × (result ≤ at + words_room) }
{
    match reason {
        0 => at,
        DISPOSED_OF => put_text(out, at, b"never buffered, disposed of"),
        STILL_QUEUED => put_text(out, at, b"still in the hardware queue"),
        NOT_RUNNING => put_text(out, at, b"its group wasn't running when it became head"),
        OLDER_WAITING => put_text(
            out,
            at,
            b"older messages of its group were waiting in the buffer",
        ),
        REVOKED => put_text(out, at, b"its group was revoked"),
        TIMEOUT => put_text(out, at, b"timeout"),
        _ => put_text(out, at, b"the processor was taken"),
    }
}

// A text, and a number behind it.
pub fn put_named(out: &mut [u8], at: usize, text: &[u8], n: u64) -> usize
    requires { at + length text.now + places ≤ length out.old }
    ensures { Appended out.old at out.new result (text.now ++ decimal n) × (result ≤ at + length text.now + places) }
{
    let number = put_text(out, at, text);
    put_number(out, number, n)
}

// The line of a message: the line it arrived in, its reason, and the line that the reason names.
pub fn put_why(out: &mut [u8], at: usize, arrival: u64, reason: u32, line: u64) -> usize
    requires { at + why_room ≤ length out.old }
    ensures { Appended out.old at out.new result (why_line arrival reason line) × (result ≤ at + why_room) }
{
    let a = put_named(out, at, b"line ", arrival);
    let b = put_named(out, a, b": reason ", reason as u64);
    let c = put_named(out, b, b" at line ", line);
    let d = put_text(out, c, b": ");
    let e = put_reason(out, d, reason);
    put_text(out, e, b"\n")
}
