// The program why: a script on standard input, one argument that asks for a line of it or for all, the answer on standard output, and the exit status.
#![tactic(auto)]

ghost use Rattle.std.specs.Prelude.{◌≤◌, length, IfSome};
ghost use Rattle.std.specs.Process.{exit_status};
ghost use Rattle.why.specs.Program.{Ends};

use std::env::{Env, FillError};
use std::io::Read;
use std::process::ExitCode;
use why::why_program;

// The room of an argument: one that is longer asks for nothing, as one that is empty does.
const ROOM: usize = 64;

// The argument at the beginning of room for it, and where it ends, if there is one that fits, and none behind it.
fn argument(rt: &impl Env, room: &mut [u8]) -> Option<usize>
    ensures { IfSome result (λ end. end ≤ length room.new) }
{
    let mut next = [0u8; 1];
    match rt.arg(2, &mut next) {
        Err(FillError::NotPresent) => rt.arg(1, room).ok(),
        _ => None,
    }
}

// What an argument asks of the script that a reader has, and how that went.
fn answer<R: Read>(rt: &impl Print, script: &mut R, argument: &[u8]) -> ExitCode
    ensures { Ends argument.now (exit_status result) }
{
    ExitCode::from(why_program(rt, script, argument) as u8)
}

fn main(rt: HostRuntime) -> ExitCode {
    let mut input = rt.stdin();
    let mut room = [0u8; ROOM];
    let end = argument(&rt, &mut room).unwrap_or(0);
    answer(&rt, &mut input, &room[..end])
}
