// The head message.
ghost use Rattle.capi.specs.Told.{TellsHead};

use node::head_part;

// The words that say where it stands.
const HEAD: u32 = 2;

// Where the running group's first message stands in the memory and how many words it has: 0 and 0 where there is none.
pub fn fugu_head(memory: &[u32], part: &mut [u32]) -> u32
    ensures { TellsHead memory.now part.old part.new result }
{
    if part.len() < HEAD as usize {
        return 0;
    }
    let head = head_part(memory);
    part[0] = head.start as u32;
    part[1] = head.len as u32;
    HEAD
}
