// The running group's section and its messages' disposal: B, N and D.
ghost use Rattle.std.specs.Prelude.{List, ℕ};
ghost use Rattle.rules.specs.Node.{Node};
ghost use Rattle.rules.specs.Operation.{begin_atomic, end_atomic, dispose};
ghost use Rattle.memory.specs.Holds.{Holds, Some};
ghost use Rattle.node.specs.Steps.{IsRunning, Serves, ActsFor, WithLine, TookFirst};

use super::acted::Act;
use memory::{buffer, group, map, queue};
use rules::{Refusal, Trap};

// B: atomic on, and force too if it is so asked.
pub fn begin(m: &mut [u32], force: bool)
    requires { IsRunning m.old }
    ensures { Serves m.old m.new (begin_atomic force) (Ok 0) }
{
    let g = m[map::RUNNING];
    let x = group::read(m, g);
    let forced = if force { 1 } else { x.force };
    group::set_flags(m, g, 1, x.pending);
    group::set_timer_flags(m, g, forced, x.revoked);
}

// N: atomic off, and with it force and revoked.
pub fn end(m: &mut [u32]) -> Result<Act, Refusal>
    requires { IsRunning m.old }
    ensures { ActsFor m.old m.new end_atomic result }
{
    let g = m[map::RUNNING];
    let x = group::read(m, g);
    if x.pending != 0 {
        return Err(Refusal::StillPending);
    }
    let trap = group::buffered(m, g).then_some(Trap::AtomicityExtend);
    group::set_timer_flags(m, g, 0, 0);
    group::set_flags(m, g, 0, 0);
    Ok(Act::Settles { trap, moved: 0 })
}

// D: the first message goes and its place is wiped, pending off, timer 0.
pub fn dispose(m: &mut [u32]) -> Result<Act, Refusal>
    requires { IsRunning m.old }
    ensures { ActsFor m.old m.new dispose result }
{
    let g = m[map::RUNNING];
    let x = group::read(m, g);
    if x.count == 0 && m[map::QUEUED] == 0 {
        return Err(Refusal::NoMessage);
    }
    let trap = remove(m, g);
    group::set_flags(m, g, x.atomic, 0);
    m[map::TIMER] = 0;
    Ok(Act::Settles { trap, moved: 0 })
}

// The first message of the running group's line goes, from its buffer or from the head of the queue: the trap of the first. In the buffer its
// place is wiped, kept length too, and with it a frame that it leaves; in the queue the others move up, and the last place is wiped.
pub fn remove(m: &mut [u32], g: u32) -> Option<Trap>
    requires { Some m.old (WithLine g) }
    ensures { (n : Node) (r : List ℕ) → Holds m.old n r → WithLine g n → TookFirst m.new n r result }
{
    if group::holds(m, g) {
        buffer::unbuffer(m, g);
        return Some(Trap::DisposeExtend);
    }
    queue::drop_head(m);
    None
}
