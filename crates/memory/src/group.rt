// The flags and counts of a group, which stand first in its record: a value that is read, lent to be changed, and written.
ghost use Rattle.std.specs.Prelude.{◌≡◌, Bool, List, ℕ};
ghost use Rattle.rules.specs.Node.{Node, buffer_holds, buffered};
ghost use Rattle.rules.specs.Memory.{count_offset, group_address, flag_word};
ghost use Rattle.memory.specs.Writes.{Wrote, InGroup, group_read, group_front, reflagged, retimed, recounted};
ghost use Rattle.memory.specs.Holds.{Holds, Becomes, Any, flagging, timer_flagging};

use super::map;

#[derive(Clone, Copy)]
pub struct Group {
    // the flags, each 0 or 1
    pub atomic: u32,
    pub pending: u32,
    pub force: u32,
    pub revoked: u32,
    // h, the used-up places before the buffer's first message
    pub used: u32,
    // n, the buffer's messages
    pub count: u32,
}

impl Group {
    // The flags atomic and pending are set.
    pub fn set_flags(&mut self, atomic: u32, pending: u32)
        ensures { self.new ≡ reflagged atomic pending self.old }
    {
        self.atomic = atomic;
        self.pending = pending;
    }

    // The timer's flags are set.
    pub fn set_timer_flags(&mut self, force: u32, revoked: u32)
        ensures { self.new ≡ retimed force revoked self.old }
    {
        self.force = force;
        self.revoked = revoked;
    }

    // The counts are set.
    pub fn set_counts(&mut self, used: u32, count: u32)
        ensures { self.new ≡ recounted used count self.old }
    {
        self.used = used;
        self.count = count;
    }
}

// Those of group g.
#[tactic(auto, unfolding(rules::specs::Memory::group_address, rules::specs::Memory::word))]
pub fn read(m: &[u32], g: u32) -> Group
    requires { InGroup m.now g count_offset }
    ensures { result ≡ group_read m.now g }
{
    let a = map::group_at(g);
    Group {
        atomic: m[a + map::ATOMIC],
        pending: m[a + map::PENDING],
        force: m[a + map::FORCE],
        revoked: m[a + map::REVOKED],
        used: m[a + map::USED],
        count: m[a + map::COUNT],
    }
}

// The same, written.
#[tactic(auto, unfolding(rules::specs::Memory::group_address))]
pub fn write(m: &mut [u32], g: u32, x: Group)
    requires { InGroup m.old g count_offset }
    ensures { Wrote m.old m.new (group_address g) (group_front x) }
{
    let a = map::group_at(g);
    m[a + map::ATOMIC] = x.atomic;
    m[a + map::PENDING] = x.pending;
    m[a + map::FORCE] = x.force;
    m[a + map::REVOKED] = x.revoked;
    m[a + map::USED] = x.used;
    m[a + map::COUNT] = x.count;
}

// Whether the buffer of group g holds messages.
pub fn holds(m: &[u32], g: u32) -> bool
    requires { InGroup m.now g count_offset }
    ensures { (n : Node) (r : List ℕ) → Holds m.now n r → buffer_holds n g ≡ result }
{
    map::group_word(m, g, map::COUNT) > 0
}

// Whether group g is buffered: its buffer holds messages, or it is revoked.
pub fn buffered(m: &[u32], g: u32) -> bool
    requires { InGroup m.now g count_offset }
    ensures { (n : Node) (r : List ℕ) → Holds m.now n r → buffered n g ≡ result }
{
    holds(m, g) || map::group_word(m, g, map::REVOKED) > 0
}

// The flags atomic and pending of group g are set.
pub fn set_flags(m: &mut [u32], g: u32, atomic: u32, pending: u32)
    requires { InGroup m.old g count_offset }
    ensures { (a p : Bool) → atomic ≡ flag_word a → pending ≡ flag_word p → Becomes m.old m.new Any (flagging g a p) }
{
    let mut x = read(m, g);
    x.set_flags(atomic, pending);
    write(m, g, x);
}

// Its timer's flags.
pub fn set_timer_flags(m: &mut [u32], g: u32, force: u32, revoked: u32)
    requires { InGroup m.old g count_offset }
    ensures { (f r : Bool) → force ≡ flag_word f → revoked ≡ flag_word r → Becomes m.old m.new Any (timer_flagging g f r) }
{
    let mut x = read(m, g);
    x.set_timer_flags(force, revoked);
    write(m, g, x);
}

// And its counts.
pub fn set_counts(m: &mut [u32], g: u32, used: u32, count: u32)
    requires { InGroup m.old g count_offset }
    ensures { Wrote m.old m.new (group_address g) (group_front (recounted used count (group_read m.old g))) }
{
    let mut x = read(m, g);
    x.set_counts(used, count);
    write(m, g, x);
}
