// The clauses on the groups' lines: pledges, flags, the running group and its first page, and the head of the queue or, without one, the timer.
ghost use Rattle.std.specs.Prelude.{◌≡◌, not, [], ◌≤◌, leb};
ghost use Rattle.rules.specs.Lists.{all, is_empty, up_from};
ghost use Rattle.rules.specs.Build.{paper01, group_count};
ghost use Rattle.rules.specs.Node.{line};
ghost use Rattle.rules.specs.Frames.{pledge as pledgeOf, pledges};
ghost use Rattle.rules.specs.Memory.{word, queued_at, node_at};
ghost use Rattle.rules.specs.Valid.{pending_has_line, runner_atomic, head_stays, runner_in_frame};
ghost use Rattle.validate.specs.Clauses.{lines_good};
ghost use Rattle.validate.specs.Known.{QueueCounts, Lined};

use crate::{GROUPS_END, PAGE_COUNT};
use memory::Node;
use memory::map::{
    ATOMIC, COUNT, FORCE, GROUP, HELD, LIST, PENDING, QUEUE_AT, QUEUED, REVOKED, RUNNING, TIMER,
    USED, frames_for, group_word, queue_word,
};

// The memory, and by group how many messages are in its hardware queue: what the groups' lines are told from.
#[derive(Drop)]
struct Lines<'a> {
    m: &'a [u32],
    queued: [u32; 9],
    ghost lined: { Lined m.now },
    ghost counted: { QueueCounts m.now (word m.now queued_at) queued },
}

impl<'a> Lines<'a> {
    // The messages in the queue are counted.
    #[tactic(auto, unfolding(rules::specs::Memory::word))]
    fn new(m: &'a [u32]) -> Lines<'a>
        requires { Lined m.now }
        ensures { result.m.now ≡ m.now }
    {
        let mut queued = [0u32; 9];
        for i in 0..m[QUEUED] {
            queued[queue_word(m, i, GROUP) as usize] += 1;
        }
        Lines { m, queued }
    }

    // The pledge of group g: at most that of 768 places and 16 messages.
    fn pledge(&self, g: u32) -> u32
        requires { (1 ≤ g) × (g ≤ group_count) }
        ensures { (result ≡ pledgeOf paper01 (node_at self.now.m.now) g) × (result ≤ 98) }
    {
        let places = group_word(self.m, g, USED) + group_word(self.m, g, COUNT);
        frames_for(places + self.queued[g as usize])
    }

    // "pledges sum to at most 32", which now reads 96
    fn pledges_fit(&self) -> bool
        ensures { leb (pledges paper01 (node_at self.now.m.now)) 96 ≡ result }
    {
        let mut sum: u32 = 0;
        for g in 1..GROUPS_END {
            sum += self.pledge(g);
        }
        sum <= PAGE_COUNT
    }

    // Whether the line of group g is not empty.
    fn has_line(&self, g: u32) -> bool
        requires { (1 ≤ g) × (g ≤ group_count) }
        ensures { not (is_empty (line (node_at self.now.m.now) g)) ≡ result }
    {
        group_word(self.m, g, COUNT) != 0 || self.queued[g as usize] != 0
    }

    // "pending only with .. a line not empty": of group g
    fn pending_has_line(&self, g: u32) -> bool
        requires { (1 ≤ g) × (g ≤ group_count) }
        ensures { pending_has_line (node_at self.now.m.now) g ≡ result }
    {
        group_word(self.m, g, PENDING) != 1 || self.has_line(g)
    }

    // Of all groups.
    fn pendings_have_line(&self) -> bool
        ensures { all (pending_has_line (node_at self.now.m.now)) (up_from 1 group_count) ≡ result }
    {
        (1..GROUPS_END).all(|g| self.pending_has_line(g))
    }

    // "a running group with a line not empty is atomic"
    #[tactic(auto, unfolding(rules::specs::Memory::word))]
    fn runner_atomic(&self) -> bool
        ensures { runner_atomic (node_at self.now.m.now) ≡ result }
    {
        let runner = self.m[RUNNING];
        runner == 0 || !self.has_line(runner) || group_word(self.m, runner, ATOMIC) == 1
    }

    // "an empty queue has a timer above 0 only where the running group has force on"
    #[tactic(auto, unfolding(rules::specs::Memory::word))]
    fn timer_idle(&self) -> bool
        ensures { head_stays [] (node_at self.now.m.now) ≡ result }
    {
        let runner = self.m[RUNNING];
        self.m[TIMER] == 0 || (runner != 0 && group_word(self.m, runner, FORCE) == 1)
    }

    // "if the hardware queue isn't empty its head is the running group's, and that group is direct", which a revoked one is not
    #[tactic(auto, unfolding(rules::specs::Memory::word))]
    fn head_stays(&self) -> bool
        ensures { head_stays (node_at self.now.m.now).queue (node_at self.now.m.now) ≡ result }
    {
        if self.m[QUEUED] == 0 {
            return self.timer_idle();
        }
        let g = self.m[QUEUE_AT];
        g == self.m[RUNNING]
            && group_word(self.m, g, COUNT) == 0
            && group_word(self.m, g, REVOKED) != 1
    }

    // "a running group's first page is in a frame"
    #[tactic(auto, unfolding(rules::specs::Memory::word))]
    fn runner_in_frame(&self) -> bool
        ensures { runner_in_frame paper01 (node_at self.now.m.now) ≡ result }
    {
        let runner = self.m[RUNNING];
        runner == 0
            || group_word(self.m, runner, HELD) == 0
            || group_word(self.m, runner, LIST) < Node::FRAMES
    }
}

// The clauses on the groups' lines, and on the running group.
#[tactic(auto, unfolding(crate::specs::Clauses::lines_good))]
pub fn lines_good(m: &[u32]) -> bool
    requires { Lined m.now }
    ensures { lines_good m.now ≡ result }
{
    let lines = Lines::new(m);
    lines.pledges_fit()
        && lines.pendings_have_line()
        && lines.runner_atomic()
        && lines.head_stays()
        && lines.runner_in_frame()
}
