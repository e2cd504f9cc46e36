// The network's operation: A.
ghost use Rattle.std.specs.Prelude.{◌≡◌, List, ℕ, ◌≤◌, length};
ghost use Rattle.rules.specs.Build.{paper01, group_count};
ghost use Rattle.rules.specs.Node.{Message, Node, in_queue};
ghost use Rattle.rules.specs.Frames.{pledge, pledges};
ghost use Rattle.rules.specs.Operation.{arrive};
ghost use Rattle.rules.specs.Refusal.{queued, refusal};
ghost use Rattle.rules.specs.Valid.{Valid};
ghost use Rattle.rules.specs.Sound.{Sound};
ghost use Rattle.memory.specs.Holds.{Holds, Some, Any};
ghost use Rattle.node.specs.Steps.{IsNode, Acts, answer_of};

use super::acted::Act;
use memory::{map, queue};
use rules::Refusal;

// How many messages of group g are in the hardware queue.
pub fn queued_of(m: &[u32], g: u32) -> u32
    requires { Some m.now Any }
    ensures { (n : Node) (r : List ℕ) → Holds m.now n r → result ≡ length (in_queue n g) }
{
    let mut k: u32 = 0;
    for i in 0..m[map::QUEUED] {
        if m[map::queue_at(i)] == g {
            k += 1;
        }
    }
    k
}

// The pledge of group i, with one message more for group g.
pub fn pledge_of(m: &[u32], i: u32, g: u32) -> u32
    requires le_i { (1 ≤ i) × (i ≤ group_count) }
    requires some { Some m.now (Sound paper01) }
    ensures { (n : Node) (r : List ℕ) → Holds m.now n r → (x : Message) → x.group ≡ g → result ≡ pledge paper01 (queued x n) i }
{
    let end = map::group_word(m, i, map::USED) + map::group_word(m, i, map::COUNT);
    let mut k = queued_of(m, i);
    if i == g {
        k += 1;
    }
    map::frames_for(end + k)
}

// The pledges of all groups, with one message more for group g.
pub fn pledges(m: &[u32], g: u32) -> u32
    requires { Some m.now (Sound paper01) }
    ensures { (n : Node) (r : List ℕ) → Holds m.now n r → (x : Message) → x.group ≡ g → result ≡ pledges paper01 (queued x n) }
{
    let mut sum: u32 = 0;
    for i in 1..=memory::Node::GROUPS {
        sum += pledge_of(m, i, g);
    }
    sum
}

// Whether an arrival is accepted, and what it is refused with.
pub fn refusal(m: &[u32], g: u32, words: &[u32]) -> Result<(), Refusal>
    requires { IsNode m.now }
    ensures { (n : Node) (r : List ℕ) → Holds m.now n r → Valid paper01 n → answer_of result ≡ refusal paper01 n (arrive g words.now) }
{
    if g == 0 || g > memory::Node::GROUPS {
        return Err(Refusal::BadGroup);
    }
    if words.len() == 0 || words.len() > memory::Node::WORDS as usize {
        return Err(Refusal::BadWords);
    }
    if m[map::QUEUED] >= memory::Node::PLACES {
        return Err(Refusal::QueueFull);
    }
    if m[map::FREE_COUNT] + m[map::SWAP_COUNT] > m[map::QUEUED] {
        return Ok(());
    }
    if pledges(m, g) > memory::Node::FRAMES + memory::Node::SWAP {
        return Err(Refusal::NoFrames);
    }
    Ok(())
}

// A message arrives from the network.
pub fn arrive(m: &mut [u32], g: u32, words: &[u32]) -> Result<Act, Refusal>
    requires { IsNode m.old }
    ensures { Acts m.old m.new (arrive g words.now) result }
{
    refusal(m, g, words)?;
    queue::join(m, g, words);
    Ok(Act::Settles {
        trap: None,
        moved: 0,
    })
}
