// Frames between the free line and the groups' lists, and the order of entry into frames.
ghost use Rattle.std.specs.Prelude.{◌≤◌};
ghost use Rattle.rules.specs.Build.{group_count};
ghost use Rattle.memory.specs.Holds.{Some, Becomes, FrameLeft, OrderRoom, InOrder, Emptied, granting, taking, entering, departing, releasing};

use super::lines::Line;
use super::{group, map};

// Frame f enters: it is the last in the order of entry.
pub fn enter(m: &mut [u32], f: u32)
    requires { Some m.old OrderRoom }
    ensures { Becomes m.old m.new OrderRoom (entering f) }
{
    Line::ENTERED.join(m, f);
}

// Frame f leaves the order of entry.
pub fn depart(m: &mut [u32], f: u32)
    requires { Some m.old (InOrder f) }
    ensures { Becomes m.old m.new (InOrder f) (departing f) }
{
    let i = Line::ENTERED.position(m, f).unwrap();
    Line::ENTERED.leave(m, i);
}

// The front of the free line goes to the end of group g's list.
pub fn grant(m: &mut [u32], g: u32)
    requires le_g { (1 ≤ g) × (g ≤ group_count) }
    requires some { Some m.old FrameLeft }
    ensures { Becomes m.old m.new FrameLeft (granting g) }
{
    let f = Line::FREE.leave(m, 0);
    Line::list_of(g).join(m, f);
}

// Group g takes a frame, which enters.
pub fn extend(m: &mut [u32], g: u32)
    requires le_g { (1 ≤ g) × (g ≤ group_count) }
    requires some { Some m.old FrameLeft }
    ensures { Becomes m.old m.new FrameLeft (taking g) }
{
    let f = m[map::FREE_AT];
    grant(m, g);
    enter(m, f);
}

// The front of group g's list, which is wiped, goes to the end of the free line, and the first message with it.
pub fn release(m: &mut [u32], g: u32)
    requires le_g { (1 ≤ g) × (g ≤ group_count) }
    requires some { Some m.old (Emptied g) }
    ensures { Becomes m.old m.new (Emptied g) (releasing g) }
{
    let x = group::read(m, g);
    let f = Line::list_of(g).leave(m, 0);
    group::set_counts(m, g, 0, x.count - 1);
    Line::FREE.join(m, f);
}
