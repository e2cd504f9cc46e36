// A script fed in portions, and its listing.
ghost use Rattle.capi.specs.Feed.{WritesHeader, FeedsPortion, FeedsEnd};

use crate::carried::{SCRIPT, lent, load_script, save_script};
use crate::part::{END, PORTION, put_end, put_portion};
use script::feed::{feed, feed_end};
use script::write::put_header;

// The bytes of the header.
const HEADER: u32 = 36;

// The listing's header.
pub fn fugu_header(out: &mut [u8]) -> u32
    ensures { WritesHeader out.old out.new result }
{
    if out.len() < HEADER as usize {
        return 0;
    }
    put_header(out, 0);
    HEADER
}

// The next portion of a script: the lines that it completes are stepped on the memory and listed.
pub fn fugu_feed(
    memory: &mut [u32],
    state: &mut [u64],
    kept: &mut [u8],
    input: &[u8],
    out: &mut [u8],
    part: &mut [u64],
) -> u32
    ensures { FeedsPortion memory.old state.old kept.old input.now out.old part.old memory.new state.new kept.new out.new part.new result }
{
    if !lent(SCRIPT, state.len(), kept.len(), part.len(), PORTION) {
        return 0;
    }
    let f = feed(memory, load_script(state, kept), input, out);
    save_script(state, kept, f.state);
    put_portion(part, f.stop, f.written, f.used);
    PORTION
}

// The script's end: a line that has begun is its last.
pub fn fugu_feed_end(
    memory: &mut [u32],
    state: &[u64],
    kept: &[u8],
    out: &mut [u8],
    part: &mut [u64],
) -> u32
    ensures { FeedsEnd memory.old state.now kept.now out.old part.old memory.new out.new part.new result }
{
    if !lent(SCRIPT, state.len(), kept.len(), part.len(), END) {
        return 0;
    }
    let e = feed_end(memory, load_script(state, kept), out);
    put_end(part, e.stop, e.written);
    END
}
