// Every message told of as it leaves the hardware queue, over a script that is fed in portions.
ghost use Rattle.capi.specs.Tell.{TellsPortion, TellsEnd};

use crate::carried::{STATE, lent, load, save};
use crate::part::{END, PORTION, put_end, put_portion};
use follow::every::{finish, tell};

// The next portion of a script: of each message that leaves the hardware queue in it the line that tells why goes into the output.
pub fn fugu_tell(
    memory: &mut [u32],
    state: &mut [u64],
    kept: &mut [u8],
    input: &[u8],
    out: &mut [u8],
    part: &mut [u64],
) -> u32
    ensures { TellsPortion memory.old state.old kept.old input.now out.old part.old memory.new state.new kept.new out.new part.new result }
{
    if !lent(STATE, state.len(), kept.len(), part.len(), PORTION) {
        return 0;
    }
    let t = tell(memory, load(state, kept), input, out);
    save(state, kept, t.state);
    put_portion(part, t.stop, t.written, t.used);
    PORTION
}

// The script's end: a line that has begun is its last, and of the messages that are still queued it is told so.
pub fn fugu_tell_end(
    memory: &mut [u32],
    state: &[u64],
    kept: &[u8],
    out: &mut [u8],
    part: &mut [u64],
) -> u32
    ensures { TellsEnd memory.old state.now kept.now out.old part.old memory.new out.new part.new result }
{
    if !lent(STATE, state.len(), kept.len(), part.len(), END) {
        return 0;
    }
    let e = finish(memory, load(state, kept), out);
    put_end(part, e.stop, e.written);
    END
}
