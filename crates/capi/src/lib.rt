// The node for programs in other languages: calls over numbers and lent words, under plain names. What a call tells goes into a part that its
// caller lends, and it returns how many words it wrote there: 0 where the part is too short, and then nothing at all has changed. C has them by `capi_c`.
#![tactic(auto)]

pub mod carried;
pub mod feed;
pub mod head;
pub mod lines;
pub mod paging;
mod part;
pub mod power;
pub mod report;
pub mod steps;
pub mod tell;
pub mod why;

ghost use Rattle.std.specs.Prelude.{cond, ◌≡◌};
ghost use Rattle.rules.specs.Memory.{size};
ghost use Rattle.rules.specs.MemoryTest.{is_memory};

use memory::map;
use validate::is_node;

// The words of a node.
pub fn fugu_size() -> u32
    ensures { result ≡ size }
{
    map::SIZE as u32
}

// 1 where the memory is a node, else 0.
pub fn fugu_test(memory: &[u32]) -> u32
    ensures { result ≡ cond (is_memory memory.now) 1 0 }
{
    u32::from(is_node(memory))
}
