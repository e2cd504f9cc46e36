// The memory test: whether lent words are a node. A function a clause of "Memory is a node when"; a clause may stand on those
// tested before it, so that no address is followed out of the memory.
#![tactic(auto)]

mod frames;
mod lines;
mod numbers;
mod words;

ghost use Rattle.std.specs.Prelude.{◌≡◌, true, ◌&&◌};
ghost use Rattle.rules.specs.Lists.{all, up_from};
ghost use Rattle.rules.specs.Build.{paper01, group_count};
ghost use Rattle.rules.specs.Memory.{node_at};
ghost use Rattle.rules.specs.Valid.{is_node};
ghost use Rattle.rules.specs.MemoryTest.{idle_are_wiped, is_memory};
ghost use Rattle.validate.specs.Clauses.{flags_atomic};
ghost use Rattle.validate.specs.Known.{Counted};

use crate::frames::frames_good;
use crate::lines::lines_good;
use crate::numbers::numbers_good;
use crate::words::{counts_in_bounds, flags_good, unused_are_zero};
use memory::Node;
use memory::map::SIZE;

// Frames and swap pages together.
const PAGE_COUNT: u32 = Node::FRAMES + Node::SWAP;

// Where the groups end, which are walked as 1..GROUPS_END: `..=` also keeps whether it is spent, and the test is longer by it.
const GROUPS_END: u32 = Node::GROUPS + 1;

// The words hold a node, and the pages that no buffer holds are 0.
fn holds_node(m: &[u32]) -> bool
    requires counted { Counted m.now }
    requires group_count_value { all (flags_atomic m.now) (up_from 1 group_count) ≡ true }
    ensures { idle_are_wiped m.now && is_node paper01 (node_at m.now) ≡ result }
{
    numbers_good(m) && frames_good(m) && lines_good(m)
}

// "Memory is a node when": no word is changed, and none past the node's size is looked at.
pub fn is_node(memory: &[u32]) -> bool
    ensures { result ≡ is_memory memory.now }
{
    memory.len() >= SIZE
        && counts_in_bounds(memory)
        && flags_good(memory)
        && unused_are_zero(memory)
        && holds_node(memory)
}
