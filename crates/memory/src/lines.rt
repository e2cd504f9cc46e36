// Lines of numbers: the free line, the swap line, the order of entry and a group's list of pages. A line is a count and so many numbers from an address on, the first in front, with 0 behind them.
ghost use Rattle.std.specs.Prelude.{◌≡◌, ◌+◌, ◌≤◌, ◌<◌, length, SomeIff};
ghost use Rattle.rules.specs.Build.{paper01, page_count, group_count};
ghost use Rattle.rules.specs.Lists.{up_from};
ghost use Rattle.rules.specs.Memory.{word, words_at, group_address, held_offset, list_offset};
ghost use Rattle.memory.specs.Writes.{Wrote};
ghost use Rattle.memory.specs.Lines.{InLine, Left, Joined, index_of};

use super::{map, words};

// Where a line stands: the address of its count, and that of its first number.
#[derive(Clone, Copy)]
pub struct Line {
    pub count: usize,
    pub first: usize,
}

impl Line {
    // The free line.
    pub const FREE: Line = Line {
        count: map::FREE_COUNT,
        first: map::FREE_AT,
    };

    // The swap line.
    pub const SWAP: Line = Line {
        count: map::SWAP_COUNT,
        first: map::SWAP_AT,
    };

    // The order of entry.
    pub const ENTERED: Line = Line {
        count: map::ENTERED_COUNT,
        first: map::ENTERED_AT,
    };

    // The list of pages of group g.
    pub fn list_of(g: u32) -> Line
        requires { (1 ≤ g) × (g ≤ group_count) }
        ensures { result ≡ record { count = group_address g + held_offset; first = group_address g + list_offset } }
    {
        let at = map::group_at(g);
        Line {
            count: at + map::HELD,
            first: at + map::LIST,
        }
    }

    // The number at index i leaves, and those behind it move up.
    #[tactic(auto, unfolding(rules::specs::Memory::word))]
    pub fn leave(self, m: &mut [u32], i: usize) -> u32
        requires in_line { InLine m.old self.count self.first }
        requires i_bound { i < word m.old self.count }
        ensures { Left m.old m.new self.count self.first i result }
    {
        let n = m[self.count];
        let x = m[self.first + i];
        words::shift(m, self.first + i, 1, n as usize - i - 1);
        m[self.count] = n - 1;
        x
    }

    // The number x joins the end.
    #[tactic(auto, unfolding(rules::specs::Memory::word))]
    pub fn join(self, m: &mut [u32], x: u32)
        requires in_line { InLine m.old self.count self.first }
        requires count_bound { (word m.old self.count < page_count paper01) × (self.first + word m.old self.count < length m.old) }
        ensures { Joined m.old m.new self.count self.first x }
    {
        let n = m[self.count];
        m[self.first + n as usize] = x;
        m[self.count] = n + 1;
    }

    // Where the number x first stands; by number, since a slice's iterator answers with a byte and a pointer, which a replay's page has elsewhere.
    #[tactic(auto, unfolding(rules::specs::Memory::word))]
    pub fn position(self, m: &[u32], x: u32) -> Option<usize>
        requires { InLine m.now self.count self.first }
        ensures { let i = index_of x (words_at m.now self.first (word m.now self.count)) in SomeIff result (i < word m.now self.count) i }
    {
        let n = m[self.count] as usize;
        (0..n).position(|i| m[self.first + i] == x)
    }
}

// n numbers upward from `from` are written from address `line` on.
pub fn count_up(m: &mut [u32], line: usize, from: u32, n: u32)
    requires { (from + n ≤ page_count paper01) × (line + n ≤ length m.old) }
    ensures { Wrote m.old m.new line (up_from from n) }
{
    for i in 0..n {
        m[line + i as usize] = from + i;
    }
}
