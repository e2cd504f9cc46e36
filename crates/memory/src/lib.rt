// The memory of a node: where each number stands, and the moves of words, frames and messages that steps are made of.
#![tactic(auto)]

pub mod buffer;
pub mod descriptor;
pub mod frames;
pub mod group;
pub mod lines;
pub mod map;
pub mod paging;
pub mod queue;
pub mod words;

ghost use Rattle.std.specs.Prelude.{◌≡◌, ◌≤◌, length};
ghost use Rattle.rules.specs.Build.{paper01};
ghost use Rattle.rules.specs.Node.{power_on};
ghost use Rattle.rules.specs.Memory.{size};
ghost use Rattle.rules.specs.MemoryTest.{power_on_memory, replaced};
ghost use Rattle.rules.specs.Types.{build_of, limits};
ghost use Rattle.memory.specs.Answers.{Answers};

use rules::{Build, Limits, Refusal, Report};

// A node in lent memory: its limits belong to it by name.
#[derive(Clone, Copy)]
pub struct Node {}

impl Node {
    pub const GROUPS: u32 = 8;

    pub const WORDS: u32 = 8;

    pub const PLACES: u32 = 16;

    pub const FRAMES: u32 = 32;

    pub const SWAP: u32 = 64;

    pub const PER_FRAME: u32 = 8;

    pub const TIMEOUT: u32 = 256;

    pub const LAST_NODE: u32 = 63;

    pub const TICK_LIMIT: u32 = 65535;

    // The build that the limits make: paper 01's.
    pub fn build() -> Build
        ensures { result ≡ build_of paper01 }
    {
        Build {
            frames: Node::FRAMES,
            swap: Node::SWAP,
            per_frame: Node::PER_FRAME,
            places: Node::PLACES,
            timeout: Node::TIMEOUT,
        }
    }

    // The limits that every build shares.
    pub fn limits() -> Limits
        ensures { result ≡ limits }
    {
        Limits {
            groups: Node::GROUPS,
            words: Node::WORDS,
            last_node: Node::LAST_NODE,
            tick_limit: Node::TICK_LIMIT,
        }
    }

    // Power-on: any memory that is long enough becomes a node.
    pub fn power_on(memory: &mut [u32]) -> Report
        ensures { Answers memory.new result (power_on_memory memory.old) }
    {
        if memory.len() < map::SIZE {
            return Refusal::NotNode.into();
        }
        Node::start(memory);
        Report::accepted(0, 0, 0, 0)
    }

    // The same on memory that is known to be long enough: all 0, but the free line, 0 to 31, and the swap line, 32 to 95.
    pub fn start(memory: &mut [u32])
        requires { size ≤ length memory.old }
        ensures { memory.new ≡ replaced (power_on paper01) memory.old }
    {
        words::clear(memory, 0, map::SIZE);
        memory[map::FREE_COUNT] = Node::FRAMES;
        lines::count_up(memory, map::FREE_AT, 0, Node::FRAMES);
        memory[map::SWAP_COUNT] = Node::SWAP;
        lines::count_up(memory, map::SWAP_AT, Node::FRAMES, Node::SWAP);
    }
}
