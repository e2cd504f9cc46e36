// The program fugu: a script on standard input, its listing on standard output, and the exit status.
#![tactic(auto)]

ghost use Rattle.std.specs.Process.{exit_status};
ghost use Rattle.listing.specs.Run.{Exits};

use listing::listing_program;
use std::io::Read;
use std::process::ExitCode;

// The listing of the script that a reader has, and how that went.
fn list<R: Read>(rt: &impl Print, script: &mut R) -> ExitCode
    ensures { Exits (exit_status result) }
{
    ExitCode::from(listing_program(rt, script) as u8)
}

fn main(rt: HostRuntime) -> ExitCode {
    let mut input = rt.stdin();
    list(&rt, &mut input)
}
