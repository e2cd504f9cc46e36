// The standard streams as the programs use them: a portion is read by one read, bytes are written whole, and where either fails it is said on standard
// error of which stream and why.
#![tactic(auto)]

pub mod portions;
#[cfg(test)]
mod tests;

ghost use Rattle.std.specs.Prelude.{◌≤◌, length};
ghost use Rattle.streams.specs.Moved.{Moved};

use std::fmt::Display;
use std::io::{Error, Read, Write};

// Standard error.
const STDERR: i32 = 2;

// The room of a reason.
const ROOM: usize = 512;

// Something failed, and what has been said on standard error.
#[derive(Clone, Copy, Debug, PartialEq, Eq)]
pub struct Failed;

// Writes bytes on standard error. If that fails there is nowhere to say so.
pub fn say(bytes: &[u8]) {
    io::write_all(STDERR, bytes);
}

// A value's text at the beginning of room for it, and where it ends.
fn put_value<D: Display + Drop>(room: &mut [u8], value: D) -> usize
    ensures { result ≤ length room.new }
{
    let whole = room.len();
    let mut rest = &mut room[..];
    if write!(rest, "{value}").is_err() {
        return 0;
    }
    whole.saturating_sub(rest.len())
}

// How long that is which an error's text has behind the system's words, its number.
fn number_length(error: Error) -> usize {
    let mut room = [0u8; ROOM];
    match error.raw_os_error() {
        Some(code) => put_value(&mut room, format_args!(" (os error {code})")),
        None => 0,
    }
}

// Says of a program which stream failed, and why, in the system's words.
fn fail(program: &[u8], stream: &[u8], error: Error) -> Failed {
    let mut room = [0u8; ROOM];
    let end = put_value(&mut room, error).saturating_sub(number_length(error));
    say(program);
    say(stream);
    say(&room[..end]);
    say(b"\n");
    Failed
}

// The next portion, by one read: its bytes stand first in the room for it. What the read answers is how many they are, none at the end of the input.
pub fn read_some<R: Read>(program: &[u8], input: &mut R, room: &mut [u8]) -> Result<usize, Failed>
    ensures { Moved (length room.new) result }
{
    input
        .read(room)
        .map_err(|error| fail(program, b": standard input: ", error))
}

// Writes bytes on standard output, all of them.
pub fn put_all(program: &[u8], rt: &impl Print, bytes: &[u8]) -> Result<(), Failed> {
    rt.write_all(bytes)
        .map_err(|error| fail(program, b": standard output: ", error))
}
