// The answers for every accepted arrival of a script: each is written as its message leaves the queue, or at the script's end.
ghost use Rattle.std.specs.Prelude.{◌*◌, ◌≤◌, length, OnOk};
ghost use Rattle.rules.specs.Memory.{size};
ghost use Rattle.follow.specs.Waiting.{lines_room};
ghost use Rattle.why.specs.All.{Reaches, Ends, Tells};
ghost use Rattle.why.specs.AllLeads.{telling_leads};

use follow::every::{State, finish, tell};
use memory::Node;
use script::play::Stop;
use std::io::Read;
use streams::portions::{Player, Step, no_number, play_script};
use streams::{Failed, put_all};

// A script whose accepted arrivals are told, between two portions of it.
#[derive(Drop)]
struct Telling {
    state: State,
}

impl Player for Telling {
    type Answer = ();

    ghost reaches = { λ m p bytes m' p'. Reaches m p.state bytes m' p'.state };

    ghost ends = { λ m p out m' out' a. Ends m p.state out m' out' };

    ghost room = { 2 * lines_room };

    ghost leads = { telling_leads };

    // Some lines of a portion: what is told of them is written at once.
    fn play<W: Print>(
        self,
        rt: &W,
        memory: &mut [u32],
        input: &[u8],
        out: &mut [u8],
    ) -> Result<Step<Telling>, Failed> {
        let t = tell(memory, self.state, input, out);
        if t.stop == Stop::LastNumber {
            return Err(no_number(b"why"));
        }
        put_all(b"why", rt, &out[..t.written])?;
        let next = t.state;
        Ok(Step {
            player: Telling { state: next },
            used: t.used,
        })
    }

    // The script's end. A line that has begun needs a number.
    fn end<W: Print>(self, rt: &W, memory: &mut [u32], out: &mut [u8]) -> Result<(), Failed> {
        let state = self.state;
        let script = state.script;
        if script.lines >= u64::MAX - 1 {
            return Err(no_number(b"why"));
        }
        let e = finish(memory, state, out);
        put_all(b"why", rt, &out[..e.written])
    }

    // Never before it: what follows would be told of.
    fn settled(&self) -> Option<()> {
        None
    }
}

// The answers for the script that is read.
pub fn tell_all<R: Read>(
    rt: &impl Print,
    script: &mut R,
    memory: &mut [u32],
    input: &mut [u8],
    out: &mut [u8],
) -> Result<(), Failed>
    requires { (size ≤ length memory.old) × (2 * lines_room ≤ length out.old) }
    ensures { OnOk result (Tells memory.old) }
{
    Node::start(memory);
    let telling = Telling {
        state: State::new(),
    };
    play_script(telling, b"why", rt, script, memory, input, out)
}
