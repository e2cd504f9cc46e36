// The kernel's operations: O, I, S and T.
ghost use Rattle.rules.specs.Build.{paper01};
ghost use Rattle.rules.specs.Operation.{dispatch, preempt, schedule, tick};
ghost use Rattle.rules.specs.Step.{revoke};
ghost use Rattle.rules.specs.Sound.{Sound};
ghost use Rattle.memory.specs.Holds.{Some, Becomes};
ghost use Rattle.node.specs.Steps.{IsNode, Acts, Ticking, LeftOver, TimesOut};

use super::acted::Act;
use super::settling;
use memory::{Node, group, map};
use rules::{Refusal, Trap};

// O: the processor is taken from whoever runs. Settling then moves the whole queue, and puts the timer to rest.
pub fn preempt(m: &mut [u32]) -> Act
    requires { IsNode m.old }
    ensures { Acts m.old m.new preempt (Ok result) }
{
    if m[map::RUNNING] == 0 {
        return Act::accepted();
    }
    m[map::RUNNING] = 0;
    Act::Settles {
        trap: None,
        moved: 0,
    }
}

// I: the processor, which nobody has, is given to group g.
pub fn dispatch(m: &mut [u32], g: u32) -> Result<Act, Refusal>
    requires { IsNode m.old }
    ensures { Acts m.old m.new (dispatch g) result }
{
    if g == 0 || g > Node::GROUPS {
        return Err(Refusal::BadSchedule);
    }
    if m[map::RUNNING] != 0 {
        return Err(Refusal::AlreadyRuns);
    }
    m[map::RUNNING] = g;
    Ok(Act::Settles {
        trap: None,
        moved: 0,
    })
}

// S: O and I in one step, to group g, 0 to nobody. Nobody runs while the queue is moved, so nobody's first page is spared; and a timer that
// group g has forced would not come to rest by settling.
pub fn schedule(m: &mut [u32], g: u32) -> Result<Act, Refusal>
    requires { IsNode m.old }
    ensures { Acts m.old m.new (schedule g) result }
{
    if g > Node::GROUPS {
        return Err(Refusal::BadSchedule);
    }
    if g == m[map::RUNNING] {
        return Ok(Act::accepted());
    }
    m[map::RUNNING] = 0;
    let waiting = settling::drain(m);
    m[map::RUNNING] = g;
    m[map::TIMER] = 0;
    Ok(Act::Settles {
        trap: None,
        moved: waiting,
    })
}

// T: k ticks, which count while the timer runs. They are not played one by one: ticks in a row leave what one timeout leaves, and on a forced
// timer what is left over.
pub fn tick(m: &mut [u32], k: u32) -> Result<Act, Refusal>
    requires { IsNode m.old }
    ensures { Acts m.old m.new (tick k) result }
{
    if k == 0 || k > Node::TICK_LIMIT {
        return Err(Refusal::BadTicks);
    }
    if !settling::timer_runs(m) {
        return Ok(Act::accepted());
    }
    let t = m[map::TIMER] + k;
    if t < Node::TIMEOUT {
        m[map::TIMER] = t;
        return Ok(Act::accepted());
    }
    Ok(timeout(m, t))
}

// What is left over of t ticks on the timer once a timeout has come: nothing where it is not forced.
pub fn left_over(m: &[u32], t: u32) -> u32
    requires { Some m.now (Sound paper01) }
    ensures { LeftOver m.now t result }
{
    if settling::forced(m) {
        t % Node::TIMEOUT
    } else {
        0
    }
}

// The running group is marked revoked.
pub fn revoke(m: &mut [u32])
    requires { Some m.old Ticking }
    ensures { Becomes m.old m.new Ticking revoke }
{
    let g = m[map::RUNNING];
    let x = group::read(m, g);
    group::set_timer_flags(m, g, x.force, 1);
}

// The t ticks on the timer reach the timeout: the whole queue moves to the buffers, and the running group is revoked.
pub fn timeout(m: &mut [u32], t: u32) -> Act
    requires { Some m.old Ticking }
    ensures { TimesOut m.old m.new t result }
{
    let left = left_over(m, t);
    let moved = settling::drain(m);
    revoke(m);
    m[map::TIMER] = left;
    Act::Settles {
        trap: Some(Trap::TimedOut),
        moved,
    }
}
