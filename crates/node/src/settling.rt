// What comes after an accepted operation: settling, the running group's first page in a frame, and the upcall; and the drain at a timeout.
ghost use Rattle.std.specs.Prelude.{◌≡◌, List, ℕ, ◌≤◌, length};
ghost use Rattle.rules.specs.Build.{paper01, group_count};
ghost use Rattle.rules.specs.Memory.{size};
ghost use Rattle.rules.specs.Node.{Message, Node, forced, timer_runs};
ghost use Rattle.rules.specs.Settling.{may_stay, rest_timer};
ghost use Rattle.rules.specs.Sound.{Sound};
ghost use Rattle.memory.specs.Holds.{Holds, Some, Becomes};
ghost use Rattle.node.specs.Steps.{Headed, Settled, Drained, Settles, Called, Finishes, moving_head, effect};

use memory::{buffer, group, map, paging, queue, words};
use rules::Report;

// Whether a message of group g may stay at the head of the queue.
pub fn stays(m: &[u32], g: u32) -> bool
    requires le_g { (1 ≤ g) × (g ≤ group_count) }
    requires size_in_bounds { size ≤ length m.now }
    ensures { (n : Node) (r : List ℕ) → Holds m.now n r → (x : Message) → x.group ≡ g → may_stay n x ≡ result }
{
    m[map::RUNNING] == g && !group::buffered(m, g)
}

// The head of the queue moves to the end of its group's buffer.
pub fn move_head(m: &mut [u32])
    requires { Some m.old Headed }
    ensures { Becomes m.old m.new Headed moving_head }
{
    let g = m[map::QUEUE_AT];
    let head = words::message(m, map::QUEUE_AT + map::LENGTH);
    buffer::store(m, g, head);
    queue::drop_head(m);
}

// Whether the timer is forced: the running group has force on, and is then atomic.
pub fn forced(m: &[u32]) -> bool
    requires { Some m.now (Sound paper01) }
    ensures { (n : Node) (r : List ℕ) → Holds m.now n r → Sound paper01 n → forced n ≡ result }
{
    let g = m[map::RUNNING];
    g != 0 && map::group_word(m, g, map::FORCE) != 0
}

// Whether the timer runs: a message is queued, or it is forced.
pub fn timer_runs(m: &[u32]) -> bool
    requires { Some m.now (Sound paper01) }
    ensures { (n : Node) (r : List ℕ) → Holds m.now n r → Sound paper01 n → timer_runs n ≡ result }
{
    m[map::QUEUED] != 0 || forced(m)
}

// A timer that does not run is put to rest.
pub fn rest_timer(m: &mut [u32])
    requires { Some m.old (Sound paper01) }
    ensures { Becomes m.old m.new (Sound paper01) rest_timer }
{
    if !timer_runs(m) {
        m[map::TIMER] = 0;
    }
}

// Settling: heads that may not stay move to their buffers. How many they were.
pub fn settle(m: &mut [u32]) -> u32
    requires { Some m.old (Sound paper01) }
    ensures { (n : Node) (r : List ℕ) → Holds m.old n r → Sound paper01 n → Settled m.new n r result }
{
    let mut moved: u32 = 0;
    while m[map::QUEUED] != 0 {
        if stays(m, m[map::QUEUE_AT]) {
            break;
        }
        move_head(m);
        moved += 1;
    }
    rest_timer(m);
    moved
}

// The whole queue moves to the buffers, at a timeout and where S takes the processor. How many messages it had.
pub fn drain(m: &mut [u32]) -> u32
    requires { Some m.old (Sound paper01) }
    ensures { (n : Node) (r : List ℕ) → Holds m.old n r → Sound paper01 n → Drained m.new n r result }
{
    let moved = m[map::QUEUED];
    for _ in 0..moved {
        move_head(m);
    }
    moved
}

// The running group is called up if it isn't atomic and its line isn't empty: its number, else 0.
pub fn upcall(m: &mut [u32]) -> u32
    requires { Some m.old Settles }
    ensures { (n : Node) (r : List ℕ) → Holds m.old n r → Settles n → Called m.new n r result }
{
    let g = m[map::RUNNING];
    if g == 0 {
        return 0;
    }
    let x = group::read(m, g);
    if x.atomic != 0 {
        return 0;
    }
    if x.count == 0 && m[map::QUEUED] == 0 {
        return 0;
    }
    group::set_flags(m, g, 1, 1);
    g
}

// Settling, the running group's first page brought in, and the upcall; and the report of the operation before them.
pub fn finish(m: &mut [u32], trap: u32, moved: u32) -> Report
    requires some { Some m.old (Sound paper01) }
    requires moved_bound { moved ≤ 16 }
    ensures { Finishes m.old m.new (λ n. effect n trap moved) result }
{
    let settled = settle(m);
    paging::runner_resident(m);
    let up = upcall(m);
    Report::accepted(0, trap, up, moved + settled)
}
