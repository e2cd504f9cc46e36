// The counts of pages.
ghost use Rattle.capi.specs.Told.{TellsPages};

use node::page_counts;

// The words that tell them.
const COUNTS: u32 = 2;

// Pages sent out and pages brought in so far: 0 and 0 where the memory is no node.
pub fn fugu_paging(memory: &[u32], part: &mut [u32]) -> u32
    ensures { TellsPages memory.now part.old part.new result }
{
    if part.len() < COUNTS as usize {
        return 0;
    }
    let counts = page_counts(memory);
    part[0] = counts.out;
    part[1] = counts.brought;
    COUNTS
}
