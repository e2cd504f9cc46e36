// Where each number of a node stands (docs/MEMORY.md), and the words of a group's record.
ghost use Rattle.std.specs.Prelude.{◌≡◌, [], ◌∷◌, ◌+◌, ◌*◌, ◌≤◌, ◌<◌, length};
ghost use Rattle.rules.specs.Build.{paper01, page_count, group_count};
ghost use Rattle.rules.specs.Frames.{ceil_div};
ghost use Rattle.rules.specs.Memory.{size, queue_at, queue_stride, place_stride, word, group_address, frame_address};
ghost use Rattle.memory.specs.Writes.{Wrote, InGroup};

use super::Node;

// The single numbers.
pub const RUNNING: usize = 0;

pub const TIMER: usize = 1;

pub const QUEUED: usize = 2;

pub const FREE_COUNT: usize = 3;

// The hardware queue, its places, and what stands where in one.
pub const QUEUE_AT: usize = 4;

pub const PLACES: usize = 16;

pub const QUEUE_STRIDE: usize = 10;

pub const GROUP: usize = 0;

pub const LENGTH: usize = 1;

pub const MESSAGE: usize = 2;

// The words of a message and of a descriptor.
pub const WORDS: usize = 8;

// The free line, and how many frame numbers it and the order of entry have room for.
pub const FREE_AT: usize = 164;

pub const LINE: usize = 32;

// The groups' records, and what stands where in one.
pub const GROUPS_AT: usize = 196;

pub const GROUP_STRIDE: usize = 112;

pub const ATOMIC: usize = 0;

pub const PENDING: usize = 1;

pub const FORCE: usize = 2;

pub const REVOKED: usize = 3;

pub const USED: usize = 4;

pub const COUNT: usize = 5;

pub const HELD: usize = 6;

pub const DESCRIBED: usize = 7;

pub const DESCRIPTOR: usize = 8;

pub const LIST: usize = 16;

// How many page numbers a list has room for.
pub const PAGES: usize = 96;

// The frames and behind them the swap pages, and the words of one and of one of its places: length, eight words.
pub const FRAMES_AT: usize = 1092;

pub const FRAME_STRIDE: usize = 72;

pub const PLACE_STRIDE: usize = 9;

// Swap space: the counts of the swap line and of the order of entry, the pages sent out and brought in, and the two lines.
pub const SWAP_COUNT: usize = 8004;

pub const ENTERED_COUNT: usize = 8005;

pub const OUT: usize = 8006;

pub const BROUGHT: usize = 8007;

pub const SWAP_AT: usize = 8008;

pub const ENTERED_AT: usize = 8072;

// How many page numbers the swap line has room for.
pub const SWAP_LINE: usize = 64;

// The words of a node.
pub const SIZE: usize = 8104;

// Where place i of the hardware queue stands.
pub fn queue_at(i: u32) -> usize
    requires { i ≤ paper01.places }
    ensures { result ≡ queue_at + queue_stride * i }
{
    QUEUE_AT + QUEUE_STRIDE * (i as usize)
}

// Where the record of group g stands.
pub fn group_at(g: u32) -> usize
    requires { (1 ≤ g) × (g ≤ group_count) }
    ensures { result ≡ group_address g }
{
    GROUPS_AT + GROUP_STRIDE * (g as usize - 1)
}

// Where a place of the frame or swap page with number f stands.
pub fn place_at(f: u32, place: u32) -> usize
    requires { (f < page_count paper01) × (place < paper01.per_frame) }
    ensures { result ≡ frame_address f + place_stride * place }
{
    FRAMES_AT + FRAME_STRIDE * (f as usize) + PLACE_STRIDE * (place as usize)
}

// Word k of the record of group g.
#[tactic(auto, unfolding(rules::specs::Memory::group_address, rules::specs::Memory::word))]
pub fn group_word(m: &[u32], g: u32, k: usize) -> u32
    requires { InGroup m.now g k }
    ensures { result ≡ word m.now (group_address g + k) }
{
    m[group_at(g) + k]
}

// The same, written.
#[tactic(auto, unfolding(rules::specs::Memory::group_address))]
pub fn set_group_word(m: &mut [u32], g: u32, k: usize, x: u32)
    requires { InGroup m.old g k }
    ensures { Wrote m.old m.new (group_address g + k) (x ∷ []) }
{
    m[group_at(g) + k] = x;
}

// Word k of place i of the hardware queue.
pub fn queue_word(m: &[u32], i: u32, k: usize) -> u32
    requires size_in_bounds { size ≤ length m.now }
    requires i_lt_places { (i < paper01.places) × (k < queue_stride) }
    ensures { result ≡ word m.now (queue_at + queue_stride * i + k) }
{
    m[QUEUE_AT + QUEUE_STRIDE * (i as usize) + k]
}

// The frames that so many places take, rounded up.
pub fn frames_for(places: u32) -> u32
    requires { places ≤ 65535 }
    ensures { result ≡ ceil_div places paper01.per_frame }
{
    (places + 7) / Node::PER_FRAME
}
