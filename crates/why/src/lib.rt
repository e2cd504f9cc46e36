// The program why between its arguments and its exit status: a script on standard input and a line of it, or `--all`, as argument; on standard output why
// the message of that line was buffered, or every accepted one. What is told comes from `follow`; here the script is only read and handed over, and the
// answer written.
#![tactic(auto)]

mod all;
mod asked;
mod one;

ghost use Rattle.std.specs.Prelude.{◌≡◌, ◌≤◌, length, OnOk, is_ok, if◌then◌else◌};
ghost use Rattle.rules.specs.Memory.{size};
ghost use Rattle.follow.specs.Text.{why_room};
ghost use Rattle.why.specs.Program.{LineTold, Ends};

use all::tell_all;
use asked::{Asked, asked_of};
use memory::map::SIZE;
use one::{Text, answer};
use std::io::Read;
use streams::portions::PORTION;
use streams::{Failed, put_all, say};

// The exit status where something failed or a line is refused,
const FAILED: u32 = 1;

// and where the argument asks for nothing.
const MISUSED: u32 = 2;

// The answer for one line: a refusal is told on standard error.
fn tell_one<R: Read>(
    rt: &impl Print,
    script: &mut R,
    memory: &mut [u32],
    wanted: u64,
    input: &mut [u8],
    out: &mut [u8],
) -> Result<(), Failed>
    requires { (size ≤ length memory.old) × (why_room ≤ length out.old) }
    ensures { OnOk result (LineTold memory.old wanted) }
{
    match answer(rt, script, memory, wanted, input, out)? {
        Text::Answer(end) => put_all(b"why", rt, &out[..end]),
        Text::Refusal(end) => {
            say(&out[..end]);
            Err(Failed)
        }
    }
}

// The exit status of what was asked for.
fn status(told: Result<(), Failed>) -> u32
    ensures { result ≡ (if is_ok told then 0 else 1) }
{
    match told {
        Ok(()) => 0,
        Err(Failed) => FAILED,
    }
}

// A script from a reader, which is standard input, what the argument asks of it to standard output, and the exit status: 0 where it is told, and 2 where
// the argument asks for nothing; else it is said on standard error what failed or was refused.
pub fn why_program<R: Read>(rt: &impl Print, script: &mut R, argument: &[u8]) -> u32
    ensures told { Ends argument.now result }
    ensures small { result ≤ 2 }
{
    let mut memory = [0u32; SIZE];
    let mut input = [0u8; PORTION];
    let mut out = [0u8; PORTION];
    match asked_of(argument) {
        Some(Asked::Line(wanted)) => status(tell_one(
            rt,
            script,
            &mut memory,
            wanted as u64,
            &mut input,
            &mut out,
        )),
        Some(Asked::All) => status(tell_all(rt, script, &mut memory, &mut input, &mut out)),
        None => MISUSED,
    }
}
