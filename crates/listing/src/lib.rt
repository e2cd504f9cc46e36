// The program fugu between its arguments and its exit status: a script on standard input, its listing on standard output. Every byte of the listing comes
// from `script::write::put_header` and `script::feed::feed`; here it is only read, handed over and written.
#![tactic(auto)]

ghost use Rattle.std.specs.Prelude.{◌≤◌, length, OnOk};
ghost use Rattle.script.specs.Written.{line_room};
ghost use Rattle.rules.specs.Memory.{size};
ghost use Rattle.listing.specs.Run.{Reaches, Finished, Played, Exits};
ghost use Rattle.listing.specs.Leads.{reaches_leads};

use memory::Node;
use memory::map::SIZE;
use script::feed::{State, feed};
use script::play::Stop;
use script::write::put_header;
use std::io::Read;
use streams::portions::{PORTION, Player, Step, no_number, play_script};
use streams::{Failed, put_all};

// The exit status where something failed.
const FAILED: u32 = 1;

// A script that is listed, between two portions of it.
#[derive(Drop)]
struct Listing {
    state: State,
}

impl Player for Listing {
    type Answer = ();

    ghost reaches = { λ m p bytes m' p'. Reaches m p.state bytes m' p'.state };

    ghost ends = { λ m p out m' out' a. Finished m p.state m' };

    ghost room = { line_room };

    ghost leads = { reaches_leads };

    // Some lines of a portion: what they list is written at once.
    fn play<W: Print>(
        self,
        rt: &W,
        memory: &mut [u32],
        input: &[u8],
        out: &mut [u8],
    ) -> Result<Step<Listing>, Failed> {
        let f = feed(memory, self.state, input, out);
        if f.stop == Stop::LastNumber {
            return Err(no_number(b"fugu"));
        }
        put_all(b"fugu", rt, &out[..f.written])?;
        let next = f.state;
        Ok(Step {
            player: Listing { state: next },
            used: f.used,
        })
    }

    // The end of the script: a line that has begun gets its newline.
    fn end<W: Print>(self, rt: &W, memory: &mut [u32], out: &mut [u8]) -> Result<(), Failed> {
        let state = self.state;
        if state.begun() {
            self.play(rt, memory, b"\n", out)?;
        }
        Ok(())
    }

    // Never before it: what follows would be listed.
    fn settled(&self) -> Option<()> {
        None
    }
}

// The header, and the listing of the script that a reader has.
fn list<R: Read>(rt: &impl Print, script: &mut R, memory: &mut [u32]) -> Result<(), Failed>
    requires { size ≤ length memory.old }
    ensures { OnOk result (Played memory.old) }
{
    let mut input = [0u8; PORTION];
    let mut out = [0u8; PORTION];
    Node::start(memory);
    let header = put_header(&mut out, 0);
    put_all(b"fugu", rt, &out[..header])?;
    let listing = Listing {
        state: State::new(),
    };
    play_script(listing, b"fugu", rt, script, memory, &mut input, &mut out)
}

// A script from a reader, which is standard input, its listing to standard output, and the exit status: 0 where the whole script is listed; else it is
// said on standard error why not.
pub fn listing_program<R: Read>(rt: &impl Print, script: &mut R) -> u32
    ensures listed { Exits result }
    ensures small { result ≤ 1 }
{
    let mut memory = [0u32; SIZE];
    match list(rt, script, &mut memory) {
        Ok(()) => 0,
        Err(Failed) => FAILED,
    }
}
