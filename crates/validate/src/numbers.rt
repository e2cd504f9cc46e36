// The clauses on the numbers that stand where they are read: the running group, the timer, the messages of the queue, and the groups' buffers.
ghost use Rattle.std.specs.Prelude.{◌≡◌, ◌≤◌, ◌<◌};
ghost use Rattle.rules.specs.Lists.{all, up_from};
ghost use Rattle.rules.specs.Build.{group_count};
ghost use Rattle.rules.specs.Memory.{word, queued_at};
ghost use Rattle.validate.specs.Clauses.{message_good, buffer_good, numbers_good};
ghost use Rattle.validate.specs.Known.{Counted};

use crate::{GROUPS_END, PAGE_COUNT};
use memory::Node;
use memory::map::{
    COUNT, GROUP, HELD, LENGTH, QUEUED, RUNNING, TIMER, USED, frames_for, group_word, queue_word,
};

// The messages that all frames and swap pages hold.
const ROOM: u32 = PAGE_COUNT * Node::PER_FRAME;

// "groups, waiting messages' lengths .. are within the bounds above": those of the i-th in the queue
fn message_good(m: &[u32], i: u32) -> bool
    requires counted { Counted m.now }
    requires i_bound { i < word m.now queued_at }
    ensures { message_good m.now i ≡ result }
{
    let g = queue_word(m, i, GROUP);
    g != 0 && g <= Node::GROUPS && 1 <= queue_word(m, i, LENGTH)
}

// Those of all in the queue.
fn queue_good(m: &[u32]) -> bool
    requires { Counted m.now }
    ensures { all (message_good m.now) (up_from 0 (word m.now queued_at)) ≡ result }
{
    (0..m[QUEUED]).all(|i| message_good(m, i))
}

// "h .. within the bounds above"; "each list has its rounded-up length"; "h is 0 where n is 0": those of group g
fn buffer_good(m: &[u32], g: u32) -> bool
    requires counted { Counted m.now }
    requires le_g { (1 ≤ g) × (g ≤ group_count) }
    ensures { buffer_good m.now g ≡ result }
{
    let used = group_word(m, g, USED);
    let count = group_word(m, g, COUNT);
    let held = group_word(m, g, HELD);
    used < Node::PER_FRAME
        && count <= ROOM
        && (count != 0 || used == 0)
        && held == frames_for(used + count)
}

// Those of all groups.
fn buffers_good(m: &[u32]) -> bool
    requires { Counted m.now }
    ensures { all (buffer_good m.now) (up_from 1 group_count) ≡ result }
{
    (1..GROUPS_END).all(|g| buffer_good(m, g))
}

// The clauses on the numbers that stand where they are read.
#[tactic(auto, unfolding(rules::specs::Memory::word, crate::specs::Clauses::numbers_good))]
pub fn numbers_good(m: &[u32]) -> bool
    requires { Counted m.now }
    ensures { numbers_good m.now ≡ result }
{
    m[RUNNING] <= Node::GROUPS && m[TIMER] < Node::TIMEOUT && queue_good(m) && buffers_good(m)
}
