// The hardware queue.
ghost use Rattle.std.specs.Prelude.{◌≤◌, length};
ghost use Rattle.rules.specs.Build.{group_count, word_limit};
ghost use Rattle.rules.specs.Refusal.{queued};
ghost use Rattle.memory.specs.Holds.{Some, Becomes, Queued, QueueRoom, dropping};

use super::{map, words};

// A message joins the end of the queue.
pub fn join(m: &mut [u32], g: u32, words: &[u32])
    requires le_g { (1 ≤ g) × (g ≤ group_count) }
    requires in_bounds { (1 ≤ length words.now) × (length words.now ≤ word_limit) }
    requires some { Some m.old QueueRoom }
    ensures { Becomes m.old m.new QueueRoom (queued (record { group = g; words = words.now })) }
{
    let n = m[map::QUEUED];
    let at = map::queue_at(n);
    m[at] = g;
    m[at + 1] = words.len() as u32;
    words::copy_in(m, at + 2, words);
    m[map::QUEUED] = n + 1;
}

// The head leaves the queue, and the others move up.
pub fn drop_head(m: &mut [u32])
    requires { Some m.old (Queued 1) }
    ensures { Becomes m.old m.new (Queued 1) (dropping 1) }
{
    let n = m[map::QUEUED];
    words::shift(
        m,
        map::QUEUE_AT,
        map::QUEUE_STRIDE,
        map::QUEUE_STRIDE * (n as usize - 1),
    );
    m[map::QUEUED] = n - 1;
}
