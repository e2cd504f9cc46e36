// The clauses of "Memory is a node when" on words alone: counts, flags and unused words. Of a group's flags all is asked in one pass.
ghost use Rattle.std.specs.Prelude.{◌≡◌, ◌&&◌, ◌+◌, ◌-◌, ◌≤◌, ◌<◌, leb, length};
ghost use Rattle.rules.specs.Lists.{all, up_from};
ghost use Rattle.rules.specs.Build.{group_count};
ghost use Rattle.rules.specs.Memory.{size, word, queued_at, swap_count_at, entered_count_at, force_offset, revoked_offset, group_address};
ghost use Rattle.rules.specs.MemoryTest.{group_counts, length_in_bounds, zero_at, counts_in_bounds, queue_unused, group_unused, message_unused, unused_are_zero};
ghost use Rattle.validate.specs.Clauses.{flags_good};
ghost use Rattle.validate.specs.Known.{Counted};

use crate::{GROUPS_END, PAGE_COUNT};
use memory::Node;
use memory::lines::Line;
use memory::map::{
    ATOMIC, DESCRIBED, DESCRIPTOR, ENTERED_COUNT, FORCE, FREE_COUNT, HELD, LENGTH, LINE, MESSAGE,
    PAGES, PENDING, PLACES, QUEUE_AT, QUEUE_STRIDE, QUEUED, REVOKED, SWAP_COUNT, SWAP_LINE, WORDS,
    group_at, group_word, queue_word,
};
use memory::words::zeros;

// "counts .. are within the bounds above": those of the list and the descriptor of group g
#[tactic(auto, unfolding(rules::specs::MemoryTest::group_counts))]
fn group_counts(m: &[u32], g: u32) -> bool
    requires size_in_bounds { size ≤ length m.now }
    requires le_g { (1 ≤ g) × (g ≤ group_count) }
    ensures { group_counts m.now g ≡ result }
{
    group_word(m, g, HELD) <= PAGE_COUNT && group_word(m, g, DESCRIBED) <= Node::WORDS
}

// Those of all groups.
fn groups_counted(m: &[u32]) -> bool
    requires { size ≤ length m.now }
    ensures { all (group_counts m.now) (up_from 1 group_count) ≡ result }
{
    (1..GROUPS_END).all(|g| group_counts(m, g))
}

// "waiting messages' lengths .. are within the bounds above": those in the queue
fn lengths_in_bounds(m: &[u32]) -> bool
    requires size_in_bounds { size ≤ length m.now }
    requires queued_at_bound { word m.now queued_at ≤ 16 }
    ensures { all (length_in_bounds m.now) (up_from 0 (word m.now queued_at)) ≡ result }
{
    (0..m[QUEUED]).all(|i| queue_word(m, i, LENGTH) <= Node::WORDS)
}

// "counts .. are within the bounds above": those of the swap line and the order of entry
#[tactic(auto, unfolding(rules::specs::Memory::word))]
fn paging_counted(m: &[u32]) -> bool
    requires { size ≤ length m.now }
    ensures { leb (word m.now swap_count_at) 64 && leb (word m.now entered_count_at) 32 ≡ result }
{
    m[SWAP_COUNT] <= Node::SWAP && m[ENTERED_COUNT] <= Node::FRAMES
}

// "counts .. [and] waiting messages' lengths .. are within the bounds above", as far as words alone tell
#[tactic(auto, unfolding(rules::specs::Memory::word, rules::specs::MemoryTest::counts_in_bounds))]
pub fn counts_in_bounds(m: &[u32]) -> bool
    requires { size ≤ length m.now }
    ensures { counts_in_bounds m.now ≡ result }
{
    m[QUEUED] <= Node::PLACES
        && m[FREE_COUNT] <= Node::FRAMES
        && paging_counted(m)
        && groups_counted(m)
        && lengths_in_bounds(m)
}

// The timer's flags of group g: none is above atomic.
fn timer_flags(m: &[u32], g: u32, atomic: u32) -> bool
    requires size_in_bounds { size ≤ length m.now }
    requires le_g { (1 ≤ g) × (g ≤ group_count) }
    ensures { leb (word m.now (group_address g + force_offset)) atomic && leb (word m.now (group_address g + revoked_offset)) atomic ≡ result }
{
    group_word(m, g, FORCE) <= atomic && group_word(m, g, REVOKED) <= atomic
}

// "flags are 0 or 1"; pending, force and revoked "only with atomic": of group g none is above atomic, which is at most 1
fn group_flags(m: &[u32], g: u32) -> bool
    requires size_in_bounds { size ≤ length m.now }
    requires le_g { (1 ≤ g) × (g ≤ group_count) }
    ensures { flags_good m.now g ≡ result }
{
    let atomic = group_word(m, g, ATOMIC);
    atomic <= 1 && group_word(m, g, PENDING) <= atomic && timer_flags(m, g, atomic)
}

// Of all groups.
pub fn flags_good(m: &[u32]) -> bool
    requires { size ≤ length m.now }
    ensures { all (flags_good m.now) (up_from 1 group_count) ≡ result }
{
    (1..GROUPS_END).all(|g| group_flags(m, g))
}

// "unused places of the queue .. are 0"
#[tactic(auto, unfolding(rules::specs::Memory::word, rules::specs::MemoryTest::queue_unused))]
fn queue_unused(m: &[u32]) -> bool
    requires { Counted m.now }
    ensures { queue_unused m.now ≡ result }
{
    let queued = m[QUEUED] as usize;
    zeros(
        m,
        QUEUE_AT + QUEUE_STRIDE * queued,
        QUEUE_STRIDE * (PLACES - queued),
    )
}

// "unused places of the .. free line and lists .. are 0", and so those of the swap line; the order of entry has "its unused places 0": those of a
// line with room for so many numbers
#[tactic(auto, unfolding(rules::specs::Memory::word))]
fn line_unused(m: &[u32], line: Line, room: usize) -> bool
    requires in_bounds { (line.count < length m.now) × (line.first + room ≤ length m.now) }
    requires count_bound { word m.now line.count ≤ room }
    ensures { zero_at m.now (line.first + word m.now line.count) (room - word m.now line.count) ≡ result }
{
    let count = m[line.count] as usize;
    zeros(m, line.first + count, room - count)
}

// "unused places of the .. lists, unused descriptor words .. are 0": those of group g
#[tactic(auto, unfolding(rules::specs::Memory::group_address, rules::specs::MemoryTest::group_unused))]
fn group_unused(m: &[u32], g: u32) -> bool
    requires counted { Counted m.now }
    requires le_g { (1 ≤ g) × (g ≤ group_count) }
    ensures { group_unused m.now g ≡ result }
{
    let described = group_word(m, g, DESCRIBED) as usize;
    line_unused(m, Line::list_of(g), PAGES)
        && zeros(m, group_at(g) + DESCRIPTOR + described, WORDS - described)
}

// Those of all groups.
fn groups_unused(m: &[u32]) -> bool
    requires { Counted m.now }
    ensures { all (group_unused m.now) (up_from 1 group_count) ≡ result }
{
    (1..GROUPS_END).all(|g| group_unused(m, g))
}

// "a waiting message's words past its length are 0": of the i-th in the queue
fn message_unused(m: &[u32], i: u32) -> bool
    requires counted { Counted m.now }
    requires i_bound { i < word m.now queued_at }
    ensures { message_unused m.now i ≡ result }
{
    let len = queue_word(m, i, LENGTH) as usize;
    zeros(
        m,
        QUEUE_AT + QUEUE_STRIDE * (i as usize) + MESSAGE + len,
        WORDS - len,
    )
}

// Of all in the queue.
fn messages_unused(m: &[u32]) -> bool
    requires { Counted m.now }
    ensures { all (message_unused m.now) (up_from 0 (word m.now queued_at)) ≡ result }
{
    (0..m[QUEUED]).all(|i| message_unused(m, i))
}

// "unused places of the queue, free line and lists, unused descriptor words and a waiting message's words past its length are 0"
#[tactic(auto, unfolding(rules::specs::Memory::word, rules::specs::MemoryTest::unused_are_zero, rules::specs::MemoryTest::free_unused, rules::specs::MemoryTest::swap_unused, rules::specs::MemoryTest::entered_unused))]
pub fn unused_are_zero(m: &[u32]) -> bool
    requires { Counted m.now }
    ensures { unused_are_zero m.now ≡ result }
{
    queue_unused(m)
        && line_unused(m, Line::FREE, LINE)
        && line_unused(m, Line::SWAP, SWAP_LINE)
        && line_unused(m, Line::ENTERED, LINE)
        && groups_unused(m)
        && messages_unused(m)
}
